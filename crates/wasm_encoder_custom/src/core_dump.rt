//! Core dumps: the program that failed, and its modules (Tool Conventions of WebAssembly, "Coredump").

ghost use Rattle.std.specs.Cow.{cow_str_bytes, cow_slice_items};
ghost use Rattle.std.specs.Prelude.{◌≡◌, ◌↔◌, ◌+◌, ◌≤◌, ◌^◌, [], ◌∷◌, ◌++◌, codes, length, Err, IfOk, IfErr};
ghost use Rattle.wasm_core_write.specs.Encoding.{TellsItem};
ghost use Rattle.wasm_encoder_custom.specs.CoreDumps.{dumped_name_encoding, dumped_modules_encoding};
ghost use Rattle.wasm_encoder_custom.specs.CustomSections.{custom_content};
ghost use Rattle.wasm_encoder_custom.specs.KeptDumps.{dumped_name, dumped_name_bytes};
ghost use Rattle.wasm_spec.specs.Shortest.{framed_encoding};

use crate::custom_section::CustomSection;
use crate::framing::{custom_len, encode_custom, written};
use std::alloc::Global;
use std::borrow::{CowSlice, CowStr};
use std::marker::Model;
use wasm_core_write::encode::{Encode, Section};
use wasm_core_write::encode_error::EncodeError;
use wasm_core_write::encoding::{Encoding, add_sizes};
use wasm_encoder_sections::kept_list::KeptList;
use wasm_encoder_sections::names::Name;

// What an entry of a core dump begins with, for versions of the convention to come.
pub(crate) const ENTRY: u8 = 0x00;

// The name of a program, of a module, or of a thread.
#[derive(Debug, Drop)]
pub(crate) struct DumpedName {
    name: Name,
}

impl DumpedName {
    // Creates a copy of a name.
    pub(crate) fn new(alloc: Global, name: &str) -> Result<DumpedName, EncodeError>
        ensures copied { IfOk result (λ n. dumped_name n ≡ name.now) }
        ensures memory_alone { IfErr result (λ e. e ≡ EncodeError.Memory) }
    {
        let name = Name::new(alloc, name)?;
        Ok(DumpedName { name })
    }
}

impl Encoding for DumpedName {
    ghost encoding = { dumped_name_bytes };

    #[tactic(auto, using(wasm_spec::proofs::ListEncodings::parts), unfolding(crate::specs::KeptDumps::dumped_name_bytes, wasm_encoder_sections::specs::CoreItems::name_bytes, crate::specs::CoreDumps::dumped_name_encoding))]
    fn size(&self) -> Result<u64, EncodeError> {
        add_sizes(1, self.name.size()?)
    }

    #[tactic(auto, using(wasm_spec::proofs::ListEncodings::parts), unfolding(crate::specs::KeptDumps::dumped_name_bytes, wasm_encoder_sections::specs::CoreItems::name_bytes, crate::specs::CoreDumps::dumped_name_encoding))]
    fn put(&self, sink: &mut Vec<u8>) {
        sink.push_reserved(ENTRY);
        self.name.put(sink);
    }
}

/// The program that failed. Contracts see its name.
///
/// ```
/// module.push(&CoreDumpSection::new(alloc, "program")?)?;
/// ```
#[derive(Debug, Drop)]
pub struct CoreDumpSection {
    program: DumpedName,
}

impl Model for CoreDumpSection {
    ghost use Rattle.std.specs.Prelude.{ℕ, List};
    ghost use Rattle.wasm_encoder_custom.specs.KeptDumps.{dumped_name};

    ghost Value = { List ℕ };

    ghost view = { λ s. dumped_name s.program };
}

impl CoreDumpSection {
    /// Creates the section of the program of this name, which is copied.
    ///
    /// # Errors
    /// `Memory` alone.
    pub fn new(alloc: Global, name: &str) -> Result<CoreDumpSection, EncodeError>
        ensures named { IfOk result (λ s. s ≡ name.now) }
        ensures memory_alone { IfErr result (λ e. e ≡ EncodeError.Memory) }
    {
        let program = DumpedName::new(alloc, name)?;
        Ok(CoreDumpSection { program })
    }
}

impl Encode for CoreDumpSection {
    ghost encoding = { λ s. framed_encoding (custom_content (codes "core") (dumped_name_encoding s)) };

    ghost longest = { λ s. length (custom_content (codes "core") (dumped_name_encoding s)) };

    #[tactic(auto, unfolding(crate::specs::KeptDumps::dumped_name_bytes))]
    fn encode(&self, sink: &mut Vec<u8>) -> Result<(), EncodeError> {
        encode_custom("core", &self.program, sink)
    }

    #[tactic(auto, unfolding(crate::specs::KeptDumps::dumped_name_bytes))]
    fn encoded_len(&self) -> Result<u64, EncodeError> {
        custom_len("core", &self.program)
    }
}

impl Section for CoreDumpSection {
    ghost number = { λ _. 0 };

    fn id(&self) -> u8 {
        0
    }
}

const NAME: &str = "coremodules";

/// The modules of the program that failed. Contracts see the list of their names.
///
/// ```
/// let mut modules = CoreDumpModulesSection::new(alloc);
/// modules.module("program.wasm")?;
/// module.push(&modules)?;
/// ```
#[derive(Debug, Drop)]
pub struct CoreDumpModulesSection {
    alloc: Global,
    modules: KeptList<DumpedName>,
}

impl Model for CoreDumpModulesSection {
    ghost use Rattle.std.specs.Prelude.{ℕ, List, map};
    ghost use Rattle.wasm_encoder_custom.specs.KeptDumps.{dumped_name};

    ghost Value = { List (List ℕ) };

    ghost view = { λ s. map dumped_name s.modules };
}

impl CoreDumpModulesSection {
    ghost use Rattle.std.specs.Borrow.{sem, LendsIfOk};
    ghost use Rattle.wasm_encoder_custom.specs.contracts.core_dump.CoreDumpModulesSection.{the_row};

    /// Creates a section without modules.
    pub fn new(alloc: Global) -> CoreDumpModulesSection
        ensures { result ≡ [] }
    {
        CoreDumpModulesSection {
            alloc,
            modules: KeptList::new(alloc),
        }
    }

    /// Returns the number of modules.
    pub fn len(&self) -> u32
        ensures { result ≡ length self.now }
    {
        self.modules.len()
    }

    /// Adds a module of this name: what `module` does. The name is copied.
    ///
    /// # Errors
    /// `TooLong` exactly where there are 4,294,967,295 modules, and else `Memory`.
    pub fn push(&mut self, name: &str) -> Result<(), EncodeError>
        ensures added { IfOk result (λ _. self.new ≡ self.old ++ name.now ∷ []) }
        ensures kept { IfErr result (λ _. self.new ≡ self.old) }
        ensures too_long { (result ≡ Err EncodeError.TooLong) ↔ (2 ^ 32 ≤ length self.old + 1) }
    {
        self.modules.check_room()?;
        let name = DumpedName::new(self.alloc, name)?;
        self.modules.push(name)
    }

    /// Adds a module of this name. The name is copied.
    ///
    /// # Errors
    /// Those of [`CoreDumpModulesSection::push`]. The section is then as it was.
    pub fn module(&mut self, name: &str) -> Result<&mut CoreDumpModulesSection, EncodeError>
        ensures* refused { sem 𝓛 (LendsIfOk the_row the_row self.entry result (λ w. w) self.old) }
        ensures same_reference { IfOk result (λ s. s.ghost_name ≡ self.entry.ghost_name) }
        ensures added { IfOk result (λ s. s.now ≡ self.old ++ name.now ∷ []) }
        ensures too_long { (result ≡ Err EncodeError.TooLong) ↔ (2 ^ 32 ≤ length self.old + 1) }
    {
        match self.push(name) {
            Ok(()) => Ok(self),
            Err(error) => Err(error),
        }
    }

    /// Returns a custom section of the same bytes, which it owns.
    ///
    /// # Errors
    /// `TooLong` exactly where the modules are past 4,294,967,295 bytes, and else `Memory`.
    #[tactic(auto, using(crate::proofs::DumpLists::steps))]
    pub fn as_custom(&self) -> Result<CustomSection<'static>, EncodeError>
        ensures named { IfOk result (λ c. cow_str_bytes c.name ≡ codes "coremodules") }
        ensures holds { IfOk result (λ c. cow_slice_items c.«data» ≡ dumped_modules_encoding self.now) }
        ensures too_long { (result ≡ Err EncodeError.TooLong) ↔ (2 ^ 32 ≤ length (dumped_modules_encoding self.now)) }
    {
        let content = written(self.alloc, &self.modules)?;
        Ok(CustomSection {
            name: CowStr::Borrowed(NAME),
            data: CowSlice::Owned(content),
        })
    }

    /// Returns the number of bytes of the item of the accepted adding call of this number, counted from 0. It takes no
    /// memory. Where [`Encode::encode`] answers `TooLong`, the number says nothing.
    pub fn item_len(&self, i: u32) -> Option<u64>
        ensures { TellsItem dumped_name_encoding self.now i result }
    {
        self.modules.item_len(i)
    }
}

impl Encode for CoreDumpModulesSection {
    ghost encoding = { λ s. framed_encoding (custom_content (codes "coremodules") (dumped_modules_encoding s)) };

    ghost longest = { λ s. length (custom_content (codes "coremodules") (dumped_modules_encoding s)) };

    #[tactic(auto, using(crate::proofs::DumpLists::steps))]
    fn encode(&self, sink: &mut Vec<u8>) -> Result<(), EncodeError> {
        encode_custom(NAME, &self.modules, sink)
    }

    #[tactic(auto, using(crate::proofs::DumpLists::steps))]
    fn encoded_len(&self) -> Result<u64, EncodeError> {
        custom_len(NAME, &self.modules)
    }
}

impl Section for CoreDumpModulesSection {
    ghost number = { λ _. 0 };

    fn id(&self) -> u8 {
        0
    }
}
