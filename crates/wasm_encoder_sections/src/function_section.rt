//! The function section (Core Specification, Binary Format, Modules, "Function Section").

ghost use Rattle.std.specs.Prelude.{◌≡◌, ◌↔◌, ◌+◌, ◌≤◌, ◌^◌, [], ◌∷◌, ◌++◌, length, Err, IfOk, IfErr, IsTrue};
ghost use Rattle.wasm_core_write.specs.Encoding.{TellsItem};
ghost use Rattle.wasm_spec.specs.Shortest.{unsigned_encoding, list_encoding, framed_encoding};

use crate::kept_list::KeptList;
use std::alloc::Global;
use std::marker::Model;
use wasm_core_write::encode::{Encode, Section};
use wasm_core_write::encode_error::EncodeError;
use wasm_core_write::encoding::{encode_framed, framed_len};

/// The type indexes of a module's own functions. Contracts see the list of them.
///
/// ```
/// let mut functions = FunctionSection::new(alloc);
/// functions.function(0)?.function(1)?;
/// module.push(&functions)?;
/// ```
#[derive(Debug, Drop)]
pub struct FunctionSection {
    functions: KeptList<u32>,
}

impl Model for FunctionSection {
    ghost use Rattle.std.specs.Prelude.{ℕ, List};

    ghost Value = { List ℕ };

    ghost view = { λ s. s.functions };
}

impl FunctionSection {
    ghost use Rattle.std.specs.Borrow.{sem, LendsIfOk};
    ghost use Rattle.wasm_encoder_sections.specs.contracts.function_section.FunctionSection.{the_row};

    /// Creates a section without functions.
    pub fn new(alloc: Global) -> FunctionSection
        ensures { result ≡ [] }
    {
        FunctionSection {
            functions: KeptList::new(alloc),
        }
    }

    /// Returns the number of functions.
    pub fn len(&self) -> u32
        ensures { result ≡ length self.now }
    {
        self.functions.len()
    }

    /// Checks that there are no functions.
    pub fn is_empty(&self) -> bool
        ensures { IsTrue result ↔ (self.now ≡ []) }
    {
        self.functions.is_empty()
    }

    /// Adds a function of the type of this index: what `function` does.
    ///
    /// # Errors
    /// `TooLong` exactly where there are 4,294,967,295 functions, and else `Memory`.
    pub fn push(&mut self, type_index: u32) -> Result<(), EncodeError>
        ensures added { IfOk result (λ _. self.new ≡ self.old ++ type_index ∷ []) }
        ensures kept { IfErr result (λ _. self.new ≡ self.old) }
        ensures too_long { (result ≡ Err EncodeError.TooLong) ↔ (2 ^ 32 ≤ length self.old + 1) }
    {
        self.functions.push(type_index)
    }

    /// Adds a function of the type of this index.
    ///
    /// # Errors
    /// Those of [`FunctionSection::push`]. The section is then as it was.
    pub fn function(&mut self, type_index: u32) -> Result<&mut FunctionSection, EncodeError>
        ensures* refused { sem 𝓛 (LendsIfOk the_row the_row self.entry result (λ w. w) self.old) }
        ensures same_reference { IfOk result (λ s. s.ghost_name ≡ self.entry.ghost_name) }
        ensures added { IfOk result (λ s. s.now ≡ self.old ++ type_index ∷ []) }
        ensures too_long { (result ≡ Err EncodeError.TooLong) ↔ (2 ^ 32 ≤ length self.old + 1) }
    {
        match self.push(type_index) {
            Ok(()) => Ok(self),
            Err(error) => Err(error),
        }
    }

    /// Returns the number of bytes of the item of the accepted adding call of this number, counted from 0. It takes no
    /// memory. Where [`Encode::encode`] answers `TooLong`, the number says nothing.
    pub fn item_len(&self, i: u32) -> Option<u64>
        ensures { TellsItem unsigned_encoding self.now i result }
    {
        self.functions.item_len(i)
    }
}

impl Encode for FunctionSection {
    ghost encoding = { λ s. framed_encoding (list_encoding unsigned_encoding s) };

    ghost longest = { λ s. length (list_encoding unsigned_encoding s) };

    fn encode(&self, sink: &mut Vec<u8>) -> Result<(), EncodeError> {
        encode_framed(&self.functions, sink)
    }

    fn encoded_len(&self) -> Result<u64, EncodeError> {
        framed_len(&self.functions)
    }
}

impl Section for FunctionSection {
    ghost number = { λ _. 3 };

    fn id(&self) -> u8 {
        3
    }
}
