//! The bytes of a module, as they are written (Core Specification, Binary Format, "Modules").

ghost use Rattle.std.specs.Prelude.{◌≡◌, ◌↔◌, ◌+◌, ◌≤◌, ◌<◌, ◌^◌, ◌∷◌, ◌++◌, length, Err, IfOk, IfErr};
ghost use Rattle.wasm_spec.specs.Grammar.{header};

use crate::encode::Section;
use crate::encode_error::EncodeError;
use std::alloc::Global;
use std::marker::Model;

const HEADER: [u8; 8] = [0x00, 0x61, 0x73, 0x6d, 0x01, 0x00, 0x00, 0x00];

/// The bytes of a module that is being written: the header, and sections.
#[derive(Debug, Drop)]
pub struct Module {
    bytes: Vec<u8>,
}

impl Model for Module {
    ghost use Rattle.std.specs.Prelude.{vec_capacity};
    ghost use Rattle.wasm_core_write.specs.ModuleBytes.{ModuleBytes};

    ghost Value = { ModuleBytes };

    ghost view = { λ m. record { bytes = m.bytes.items; capacity = vec_capacity m.bytes } };
}

impl Module {
    ghost use Rattle.std.specs.Borrow.{sem, LendsIfOk};
    ghost use Rattle.wasm_core_write.specs.contracts.module.Module.{the_row};

    /// Creates a module without sections.
    ///
    /// # Errors
    /// `Memory` alone.
    pub fn new(alloc: Global) -> Result<Module, EncodeError>
        ensures begins { IfOk result (λ m. m.bytes ≡ header) }
        ensures memory_alone { IfErr result (λ e. e ≡ EncodeError.Memory) }
    {
        let mut bytes = Vec::new(alloc);
        bytes.extend_from_slice(&HEADER)?;
        Ok(Module { bytes })
    }

    /// Appends a section. Its order among the others is the caller's. Of a section that is refused nothing is appended.
    ///
    /// # Errors
    /// `TooLong` exactly where the section's [`Encode::encode`](crate::encode::Encode::encode) answers it, and else
    /// `Memory` where the bytes cannot grow, which they need only where their capacity is too small.
    pub fn push<S: Section>(&mut self, section: &S) -> Result<(), EncodeError>
        ensures appended { IfOk result (λ _. self.new.bytes ≡ self.old.bytes ++ S.number section.now ∷ S.Encode.encoding section.now) }
        ensures kept { IfErr result (λ _. self.new ≡ self.old) }
        ensures grows { self.old.capacity ≤ self.new.capacity }
        ensures no_room { IfErr result (λ e. e ≡ EncodeError.Memory → self.old.capacity < length self.old.bytes + 1 + length (S.Encode.encoding section.now)) }
        ensures too_long { (result ≡ Err EncodeError.TooLong) ↔ (2 ^ 32 ≤ S.Encode.longest section.now) }
    {
        let len = section.encoded_len()?;
        self.bytes.reserve(len as usize + 1)?;
        self.bytes.push_reserved(section.id());
        section.encode(&mut self.bytes)
    }

    /// Appends a section as [`Module::push`] does, and goes on.
    ///
    /// # Errors
    /// Those of [`Module::push`]. The module is then as it was.
    pub fn section<S: Section>(&mut self, section: &S) -> Result<&mut Module, EncodeError>
        ensures* refused { sem 𝓛 (LendsIfOk the_row the_row self.entry result (λ w. w) self.old) }
        ensures same_reference { IfOk result (λ m. m.ghost_name ≡ self.entry.ghost_name) }
        ensures appended { IfOk result (λ m. m.now.bytes ≡ self.old.bytes ++ S.number section.now ∷ S.Encode.encoding section.now) }
        ensures grows { IfOk result (λ m. self.old.capacity ≤ m.now.capacity) }
        ensures no_room { IfErr result (λ e. e ≡ EncodeError.Memory → self.old.capacity < length self.old.bytes + 1 + length (S.Encode.encoding section.now)) }
        ensures too_long { (result ≡ Err EncodeError.TooLong) ↔ (2 ^ 32 ≤ S.Encode.longest section.now) }
    {
        match self.push(section) {
            Ok(()) => Ok(self),
            Err(error) => Err(error),
        }
    }

    /// Returns the bytes.
    pub fn finish(self) -> Vec<u8>
        ensures { result.items ≡ self.bytes }
    {
        self.bytes
    }
}
