//! The code section (Core Specification, Binary Format, Modules, "Code Section").

ghost use Rattle.std.specs.Prelude.{◌≡◌, ◌↔◌, ◌+◌, ◌<◌, ◌≤◌, ◌^◌, [], ◌∷◌, ◌++◌, length, Err, IfOk, IfErr, IsTrue};
ghost use Rattle.std.specs.List.{flat_map};
ghost use Rattle.wasm_core_write.specs.Encoding.{TellsItem};
ghost use Rattle.wasm_spec.specs.Shortest.{list_encoding, framed_encoding};

use crate::kept_bytes::CountedBytes;
use std::alloc::Global;
use std::marker::Model;
use wasm_core_write::encode::{Encode, Section};
use wasm_core_write::encode_error::EncodeError;
use wasm_core_write::encoding::{Encoding, encode_framed, framed_len};
use wasm_core_write::leb128::len_u64;
use wasm_encoder_bodies::function::Function;
use wasm_encoder_sections::kept_list::KeptList;

/// The bodies of a module's own functions. Contracts see the list of their bytes, each without its size.
///
/// ```
/// let mut body = Function::new(alloc, [(1, ValType::I32)])?;
/// body.instruction(&Instruction::LocalGet(0))?.instruction(&Instruction::Drop)?;
/// body.instruction(&Instruction::End)?;
/// let mut code = CodeSection::new(alloc);
/// code.function(&body)?;
/// module.push(&code)?;
/// ```
#[derive(Debug, Drop)]
pub struct CodeSection {
    alloc: Global,
    bodies: KeptList<CountedBytes>,
}

impl Model for CodeSection {
    ghost use Rattle.std.specs.Prelude.{ℕ, List};

    ghost Value = { List (List ℕ) };

    ghost view = { λ s. s.bodies };
}

impl CodeSection {
    ghost use Rattle.std.specs.Borrow.{sem, LendsIfOk};
    ghost use Rattle.wasm_encoder_expression_sections.specs.contracts.code_section.CodeSection.{the_row};

    /// Creates a section without bodies.
    pub fn new(alloc: Global) -> CodeSection
        ensures { result ≡ [] }
    {
        CodeSection {
            alloc,
            bodies: KeptList::new(alloc),
        }
    }

    /// Returns the number of bodies.
    pub fn len(&self) -> u32
        ensures { result ≡ length self.now }
    {
        self.bodies.len()
    }

    /// Checks that there are no bodies.
    pub fn is_empty(&self) -> bool
        ensures { IsTrue result ↔ (self.now ≡ []) }
    {
        self.bodies.is_empty()
    }

    /// Returns the number of bytes of the bodies, each with its size, without the number of bodies. Where [`Encode::encode`]
    /// answers `TooLong`, the number says nothing.
    #[tactic(auto, using(wasm_spec::proofs::ListEncodings::list_length))]
    pub fn byte_len(&self) -> usize
        ensures { length (list_encoding framed_encoding self.now) < 2 ^ 32 → result ≡ length (flat_map framed_encoding self.now) }
    {
        let Ok(size) = self.bodies.size() else {
            return 0;
        };
        size as usize - len_u64(u64::from(self.bodies.len()))
    }

    /// Adds the body of a function: what `function` does. The bytes are copied.
    ///
    /// # Errors
    /// `TooLong` exactly where there are 4,294,967,295 bodies, and else `Memory`.
    pub fn push(&mut self, function: &Function) -> Result<(), EncodeError>
        ensures added { IfOk result (λ _. self.new ≡ self.old ++ function.now ∷ []) }
        ensures kept { IfErr result (λ _. self.new ≡ self.old) }
        ensures too_long { (result ≡ Err EncodeError.TooLong) ↔ (2 ^ 32 ≤ length self.old + 1) }
    {
        self.push_raw(function.as_raw_body())
    }

    /// Adds the body of a function. The bytes are copied.
    ///
    /// # Errors
    /// Those of [`CodeSection::push`]. The section is then as it was.
    pub fn function(&mut self, function: &Function) -> Result<&mut CodeSection, EncodeError>
        ensures* refused { sem 𝓛 (LendsIfOk the_row the_row self.entry result (λ w. w) self.old) }
        ensures same_reference { IfOk result (λ s. s.ghost_name ≡ self.entry.ghost_name) }
        ensures added { IfOk result (λ s. s.now ≡ self.old ++ function.now ∷ []) }
        ensures too_long { (result ≡ Err EncodeError.TooLong) ↔ (2 ^ 32 ≤ length self.old + 1) }
    {
        match self.push(function) {
            Ok(()) => Ok(self),
            Err(error) => Err(error),
        }
    }

    /// Adds a body of any bytes, which are not looked at: what `raw` does. The bytes are copied, and written after their number.
    ///
    /// # Errors
    /// Those of [`CodeSection::push`].
    pub fn push_raw(&mut self, bytes: &[u8]) -> Result<(), EncodeError>
        ensures added { IfOk result (λ _. self.new ≡ self.old ++ bytes.now ∷ []) }
        ensures kept { IfErr result (λ _. self.new ≡ self.old) }
        ensures too_long { (result ≡ Err EncodeError.TooLong) ↔ (2 ^ 32 ≤ length self.old + 1) }
    {
        self.bodies.check_room()?;
        let body = CountedBytes::new(self.alloc, bytes)?;
        self.bodies.push(body)
    }

    /// Adds a body of any bytes, which are not looked at. The bytes are copied, and written after their number.
    ///
    /// # Errors
    /// Those of [`CodeSection::push`]. The section is then as it was.
    pub fn raw(&mut self, bytes: &[u8]) -> Result<&mut CodeSection, EncodeError>
        ensures* refused { sem 𝓛 (LendsIfOk the_row the_row self.entry result (λ w. w) self.old) }
        ensures same_reference { IfOk result (λ s. s.ghost_name ≡ self.entry.ghost_name) }
        ensures added { IfOk result (λ s. s.now ≡ self.old ++ bytes.now ∷ []) }
        ensures too_long { (result ≡ Err EncodeError.TooLong) ↔ (2 ^ 32 ≤ length self.old + 1) }
    {
        match self.push_raw(bytes) {
            Ok(()) => Ok(self),
            Err(error) => Err(error),
        }
    }

    /// Returns the number of bytes of the body of the accepted adding call of this number, counted from 0, with its size. It takes
    /// no memory. Where [`Encode::encode`] answers `TooLong`, the number says nothing.
    pub fn item_len(&self, i: u32) -> Option<u64>
        ensures { TellsItem framed_encoding self.now i result }
    {
        self.bodies.item_len(i)
    }
}

impl Encode for CodeSection {
    ghost encoding = { λ s. framed_encoding (list_encoding framed_encoding s) };

    ghost longest = { λ s. length (list_encoding framed_encoding s) };

    fn encode(&self, sink: &mut Vec<u8>) -> Result<(), EncodeError> {
        encode_framed(&self.bodies, sink)
    }

    fn encoded_len(&self) -> Result<u64, EncodeError> {
        framed_len(&self.bodies)
    }
}

impl Section for CodeSection {
    ghost number = { λ _. 10 };

    fn id(&self) -> u8 {
        10
    }
}
