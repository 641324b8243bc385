//! Core dumps: the instances of modules (Tool Conventions of WebAssembly, "Coredump").

ghost use Rattle.std.specs.Cow.{cow_str_bytes, cow_slice_items};
ghost use Rattle.std.specs.Prelude.{◌≡◌, ◌↔◌, ◌+◌, ◌≤◌, ◌^◌, [], ◌∷◌, ◌++◌, codes, length, Err, IfOk, IfErr};
ghost use Rattle.wasm_core_write.specs.Encoding.{TellsItem};
ghost use Rattle.wasm_encoder_custom.specs.CoreDumps.{dumped_instance_encoding, dumped_instances_encoding};
ghost use Rattle.wasm_encoder_custom.specs.CustomSections.{custom_content};
ghost use Rattle.wasm_encoder_custom.specs.KeptDumps.{dumped_instance_bytes};
ghost use Rattle.wasm_spec.specs.Shortest.{framed_encoding};

use crate::core_dump::ENTRY;
use crate::custom_section::CustomSection;
use crate::framing::{custom_len, encode_custom, written};
use std::alloc::Global;
use std::borrow::{CowSlice, CowStr};
use std::marker::Model;
use wasm_core_write::encode::{Encode, Section};
use wasm_core_write::encode_error::EncodeError;
use wasm_core_write::encoding::{Encoding, add_sizes, list_size, put_list};
use wasm_core_write::leb128::{len_u64, put_u64};
use wasm_encoder_sections::kept_list::KeptList;

// An instance: its module, and the indexes of its memories and globals.
#[derive(Debug, Drop)]
struct KeptInstance {
    origin: u32,
    memories: Vec<u32>,
    globals: Vec<u32>,
}

impl Encoding for KeptInstance {
    ghost encoding = { dumped_instance_bytes };

    #[tactic(auto, using(wasm_spec::proofs::ListEncodings::parts), unfolding(crate::specs::KeptDumps::dumped_instance_bytes, crate::specs::CoreDumps::dumped_instance_encoding))]
    fn size(&self) -> Result<u64, EncodeError> {
        let lists = add_sizes(list_size(&self.memories)?, list_size(&self.globals)?)?;
        add_sizes(1 + len_u64(u64::from(self.origin)) as u64, lists)
    }

    #[tactic(auto, using(wasm_spec::proofs::ListEncodings::parts), unfolding(crate::specs::KeptDumps::dumped_instance_bytes, crate::specs::CoreDumps::dumped_instance_encoding))]
    fn put(&self, sink: &mut Vec<u8>) {
        sink.push_reserved(ENTRY);
        put_u64(sink, u64::from(self.origin));
        put_list(&self.memories, sink);
        put_list(&self.globals, sink);
    }
}

const NAME: &str = "coreinstances";

/// The instances of the modules of the program that failed. Contracts see the list of them.
///
/// ```
/// let mut instances = CoreDumpInstancesSection::new(alloc);
/// instances.instance(0, &[0], &[])?;
/// module.push(&instances)?;
/// ```
#[derive(Debug, Drop)]
pub struct CoreDumpInstancesSection {
    alloc: Global,
    instances: KeptList<KeptInstance>,
}

impl Model for CoreDumpInstancesSection {
    ghost use Rattle.std.specs.Prelude.{List, map};
    ghost use Rattle.wasm_encoder_custom.specs.CoreDumps.{DumpedInstance};
    ghost use Rattle.wasm_encoder_custom.specs.KeptDumps.{dumped_instance};

    ghost Value = { List DumpedInstance };

    ghost view = { λ s. map dumped_instance s.instances };
}

impl CoreDumpInstancesSection {
    ghost use Rattle.std.specs.Borrow.{sem, LendsIfOk};
    ghost use Rattle.wasm_encoder_custom.specs.contracts.core_dump_instances.CoreDumpInstancesSection.{the_row};

    /// Creates a section without instances.
    pub fn new(alloc: Global) -> CoreDumpInstancesSection
        ensures { result ≡ [] }
    {
        CoreDumpInstancesSection {
            alloc,
            instances: KeptList::new(alloc),
        }
    }

    /// Returns the number of instances.
    pub fn len(&self) -> u32
        ensures { result ≡ length self.now }
    {
        self.instances.len()
    }

    /// Adds an instance of the module of this index, with the indexes of its memories and globals: what `instance` does.
    ///
    /// # Errors
    /// `TooLong` exactly where there are 4,294,967,295 instances, and else `Memory`.
    pub fn push(
        &mut self,
        module_index: u32,
        memories: &[u32],
        globals: &[u32],
    ) -> Result<(), EncodeError>
        ensures added { IfOk result (λ _. self.new ≡ self.old ++ record { origin = module_index; memories = memories.now; globals = globals.now } ∷ []) }
        ensures kept { IfErr result (λ _. self.new ≡ self.old) }
        ensures too_long { (result ≡ Err EncodeError.TooLong) ↔ (2 ^ 32 ≤ length self.old + 1) }
    {
        self.instances.check_room()?;
        let memories = memories.to_vec(self.alloc)?;
        let globals = globals.to_vec(self.alloc)?;
        self.instances.push(KeptInstance {
            origin: module_index,
            memories,
            globals,
        })
    }

    /// Adds an instance of the module of this index, with the indexes of its memories and globals.
    ///
    /// # Errors
    /// Those of [`CoreDumpInstancesSection::push`]. The section is then as it was.
    pub fn instance(
        &mut self,
        module_index: u32,
        memories: &[u32],
        globals: &[u32],
    ) -> Result<&mut CoreDumpInstancesSection, EncodeError>
        ensures* refused { sem 𝓛 (LendsIfOk the_row the_row self.entry result (λ w. w) self.old) }
        ensures same_reference { IfOk result (λ s. s.ghost_name ≡ self.entry.ghost_name) }
        ensures added { IfOk result (λ s. s.now ≡ self.old ++ record { origin = module_index; memories = memories.now; globals = globals.now } ∷ []) }
        ensures too_long { (result ≡ Err EncodeError.TooLong) ↔ (2 ^ 32 ≤ length self.old + 1) }
    {
        match self.push(module_index, memories, globals) {
            Ok(()) => Ok(self),
            Err(error) => Err(error),
        }
    }

    /// Returns a custom section of the same bytes, which it owns.
    ///
    /// # Errors
    /// `TooLong` exactly where the instances are past 4,294,967,295 bytes, and else `Memory`.
    #[tactic(auto, using(crate::proofs::DumpLists::steps))]
    pub fn as_custom(&self) -> Result<CustomSection<'static>, EncodeError>
        ensures named { IfOk result (λ c. cow_str_bytes c.name ≡ codes "coreinstances") }
        ensures holds { IfOk result (λ c. cow_slice_items c.«data» ≡ dumped_instances_encoding self.now) }
        ensures too_long { (result ≡ Err EncodeError.TooLong) ↔ (2 ^ 32 ≤ length (dumped_instances_encoding self.now)) }
    {
        let content = written(self.alloc, &self.instances)?;
        Ok(CustomSection {
            name: CowStr::Borrowed(NAME),
            data: CowSlice::Owned(content),
        })
    }

    /// Returns the number of bytes of the item of the accepted adding call of this number, counted from 0. It takes no
    /// memory. Where [`Encode::encode`] answers `TooLong`, the number says nothing.
    pub fn item_len(&self, i: u32) -> Option<u64>
        ensures { TellsItem dumped_instance_encoding self.now i result }
    {
        self.instances.item_len(i)
    }
}

impl Encode for CoreDumpInstancesSection {
    ghost encoding = { λ s. framed_encoding (custom_content (codes "coreinstances") (dumped_instances_encoding s)) };

    ghost longest = { λ s. length (custom_content (codes "coreinstances") (dumped_instances_encoding s)) };

    #[tactic(auto, using(crate::proofs::DumpLists::steps))]
    fn encode(&self, sink: &mut Vec<u8>) -> Result<(), EncodeError> {
        encode_custom(NAME, &self.instances, sink)
    }

    #[tactic(auto, using(crate::proofs::DumpLists::steps))]
    fn encoded_len(&self) -> Result<u64, EncodeError> {
        custom_len(NAME, &self.instances)
    }
}

impl Section for CoreDumpInstancesSection {
    ghost number = { λ _. 0 };

    fn id(&self) -> u8 {
        0
    }
}
