//! Instructions appended to bytes, one after the other.

ghost use Rattle.std.specs.Prelude.{◌≡◌, ◌+◌, ◌<◌, ◌≤◌, [], ◌++◌, length, IfOk, IfErr, vec_capacity};
ghost use Rattle.wasm_encoder_instructions.specs.Instructions.{instruction_encoding};
ghost use Rattle.wasm_encoder_bodies.specs.Sinks.{Appends, Refuses};

use std::alloc::Global;
use std::marker::Model;
use wasm_core_write::encode_error::EncodeError;
use wasm_core_write::encoding::{Encoding, put_bytes};
use wasm_encoder_instructions::instruction::Instruction;

/// The bytes of instructions. Contracts see these, and how many there is room for.
#[derive(Debug, Drop)]
pub struct InstructionSink {
    bytes: Vec<u8>,
}

impl Model for InstructionSink {
    ghost use Rattle.std.specs.Prelude.{vec_capacity};
    ghost use Rattle.wasm_encoder_bodies.specs.Sinks.{SinkBytes};

    ghost Value = { SinkBytes };

    ghost view = { λ s. record { bytes = s.bytes.items; capacity = vec_capacity s.bytes } };
}

impl InstructionSink {
    ghost use Rattle.std.specs.Borrow.{sem, LendsIfOk};
    ghost use Rattle.wasm_encoder_bodies.specs.contracts.instruction_sink.InstructionSink.{the_row};

    /// Creates a sink without instructions.
    pub fn new(alloc: Global) -> InstructionSink
        ensures { result.bytes ≡ [] }
    {
        InstructionSink {
            bytes: Vec::new(alloc),
        }
    }

    /// Creates a sink of these bytes, to which instructions are appended.
    pub fn from_bytes(bytes: Vec<u8>) -> InstructionSink
        ensures bytes { result.bytes ≡ bytes.items }
        ensures capacity { result.capacity ≡ vec_capacity bytes }
    {
        InstructionSink { bytes }
    }

    /// Returns the bytes.
    pub fn as_bytes(&self) -> &[u8]
        ensures { result.now ≡ self.now.bytes }
    {
        &self.bytes
    }

    /// Returns the bytes.
    pub fn into_bytes(self) -> Vec<u8>
        ensures { result.items ≡ self.bytes }
    {
        self.bytes
    }

    /// Appends an instruction: what the chaining calls do.
    ///
    /// # Errors
    /// `TooLong` where the encoding is longer than 4,294,967,295 bytes, as only that of a list can be, and else `Memory`.
    pub fn push(&mut self, instruction: &Instruction<'_>) -> Result<(), EncodeError>
        ensures appended { IfOk result (λ _. Appends self.old self.new (instruction_encoding instruction.now)) }
        ensures kept { IfErr result (λ _. self.new ≡ self.old) }
        ensures cause { IfErr result (Refuses self.old (instruction_encoding instruction.now)) }
    {
        let size = instruction.size()?;
        self.bytes.reserve(size as usize)?;
        instruction.put(&mut self.bytes);
        Ok(())
    }

    /// Appends any bytes, which are not looked at.
    ///
    /// # Errors
    /// `Memory` alone. The sink is then as it was.
    pub fn push_raw(&mut self, bytes: &[u8]) -> Result<(), EncodeError>
        ensures appended { IfOk result (λ _. (self.new.bytes ≡ self.old.bytes ++ bytes.now) × (self.old.capacity ≤ self.new.capacity)) }
        ensures kept { IfErr result (λ _. self.new ≡ self.old) }
        ensures cause { IfErr result (λ e. (e ≡ EncodeError.Memory) × (self.old.capacity < length self.old.bytes + length bytes.now)) }
    {
        self.bytes.reserve(bytes.len())?;
        put_bytes(bytes, &mut self.bytes);
        Ok(())
    }

    /// Appends an instruction, and goes on.
    ///
    /// # Errors
    /// Those of [`InstructionSink::push`]. The sink is then as it was.
    pub fn instruction(
        &mut self,
        instruction: &Instruction<'_>,
    ) -> Result<&mut InstructionSink, EncodeError>
        ensures* refused { sem 𝓛 (LendsIfOk the_row the_row self.entry result (λ w. w) self.old) }
        ensures same_reference { IfOk result (λ s. s.ghost_name ≡ self.entry.ghost_name) }
        ensures appended { IfOk result (λ s. Appends self.old s.now (instruction_encoding instruction.now)) }
        ensures cause { IfErr result (Refuses self.old (instruction_encoding instruction.now)) }
    {
        match self.push(instruction) {
            Ok(()) => Ok(self),
            Err(error) => Err(error),
        }
    }
}
