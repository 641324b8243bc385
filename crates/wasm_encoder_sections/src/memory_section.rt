//! The memory section (Core Specification, Binary Format, Modules, "Memory Section").

ghost use Rattle.std.specs.Prelude.{◌≡◌, ◌↔◌, ◌+◌, ◌≤◌, ◌^◌, [], ◌∷◌, ◌++◌, length, Err, IfOk, IfErr, IsTrue};
ghost use Rattle.wasm_core_write.specs.Encoding.{TellsItem};
ghost use Rattle.wasm_encoder_sections.specs.CoreItems.{memory_type};
ghost use Rattle.wasm_encoder_sections.specs.ItemEncodings.{memory_type_encoding};
ghost use Rattle.wasm_spec.specs.Shortest.{list_encoding, framed_encoding};

use crate::entity_type::MemoryType;
use crate::kept_list::KeptList;
use std::alloc::Global;
use std::marker::Model;
use wasm_core_write::encode::{Encode, Section};
use wasm_core_write::encode_error::EncodeError;
use wasm_core_write::encoding::{encode_framed, framed_len};

/// The types of a module's own memories. Contracts see the list of them.
///
/// ```
/// let ty = MemoryType { minimum: 1, maximum: None, memory64: false, shared: false, page_size_log2: None };
/// let mut memories = MemorySection::new(alloc);
/// memories.memory(ty)?;
/// module.push(&memories)?;
/// ```
#[derive(Debug, Drop)]
pub struct MemorySection {
    memories: KeptList<MemoryType>,
}

impl Model for MemorySection {
    ghost use Rattle.std.specs.Prelude.{List, map};
    ghost use Rattle.wasm_encoder_sections.specs.CoreItems.{memory_type};
    ghost use Rattle.wasm_spec.specs.Types as spec;

    ghost Value = { List spec.MemoryType };

    ghost view = { λ s. map memory_type s.memories };
}

impl MemorySection {
    ghost use Rattle.std.specs.Borrow.{sem, LendsIfOk};
    ghost use Rattle.wasm_encoder_sections.specs.contracts.memory_section.MemorySection.{the_row};

    /// Creates a section without memories.
    pub fn new(alloc: Global) -> MemorySection
        ensures { result ≡ [] }
    {
        MemorySection {
            memories: KeptList::new(alloc),
        }
    }

    /// Returns the number of memories.
    pub fn len(&self) -> u32
        ensures { result ≡ length self.now }
    {
        self.memories.len()
    }

    /// Checks that there are no memories.
    #[tactic(auto, using(crate::proofs::ItemLists::nothing))]
    pub fn is_empty(&self) -> bool
        ensures { IsTrue result ↔ (self.now ≡ []) }
    {
        self.memories.is_empty()
    }

    /// Adds a memory: what `memory` does.
    ///
    /// # Errors
    /// `TooLong` exactly where there are 4,294,967,295 memories, and else `Memory`.
    pub fn push(&mut self, ty: MemoryType) -> Result<(), EncodeError>
        ensures added { IfOk result (λ _. self.new ≡ self.old ++ memory_type ty ∷ []) }
        ensures kept { IfErr result (λ _. self.new ≡ self.old) }
        ensures too_long { (result ≡ Err EncodeError.TooLong) ↔ (2 ^ 32 ≤ length self.old + 1) }
    {
        self.memories.push(ty)
    }

    /// Adds a memory.
    ///
    /// # Errors
    /// Those of [`MemorySection::push`]. The section is then as it was.
    pub fn memory(&mut self, ty: MemoryType) -> Result<&mut MemorySection, EncodeError>
        ensures* refused { sem 𝓛 (LendsIfOk the_row the_row self.entry result (λ w. w) self.old) }
        ensures same_reference { IfOk result (λ s. s.ghost_name ≡ self.entry.ghost_name) }
        ensures added { IfOk result (λ s. s.now ≡ self.old ++ memory_type ty ∷ []) }
        ensures too_long { (result ≡ Err EncodeError.TooLong) ↔ (2 ^ 32 ≤ length self.old + 1) }
    {
        match self.push(ty) {
            Ok(()) => Ok(self),
            Err(error) => Err(error),
        }
    }

    /// Returns the number of bytes of the item of the accepted adding call of this number, counted from 0. It takes no
    /// memory. Where [`Encode::encode`] answers `TooLong`, the number says nothing.
    pub fn item_len(&self, i: u32) -> Option<u64>
        ensures { TellsItem memory_type_encoding self.now i result }
    {
        self.memories.item_len(i)
    }
}

impl Encode for MemorySection {
    ghost encoding = { λ s. framed_encoding (list_encoding memory_type_encoding s) };

    ghost longest = { λ s. length (list_encoding memory_type_encoding s) };

    #[tactic(auto, using(crate::proofs::ItemLists::steps))]
    fn encode(&self, sink: &mut Vec<u8>) -> Result<(), EncodeError> {
        encode_framed(&self.memories, sink)
    }

    #[tactic(auto, using(crate::proofs::ItemLists::steps))]
    fn encoded_len(&self) -> Result<u64, EncodeError> {
        framed_len(&self.memories)
    }
}

impl Section for MemorySection {
    ghost number = { λ _. 5 };

    fn id(&self) -> u8 {
        5
    }
}
