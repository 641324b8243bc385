//! Stores into memories.

ghost use Rattle.std.specs.Prelude.{◌≡◌, IfOk, IfErr};
ghost use Rattle.wasm_encoder_instructions.specs.Instructions.{stored};
ghost use Rattle.wasm_encoder_instructions.specs.OperatorEncodings.{operator_encoding};
ghost use Rattle.wasm_encoder_bodies.specs.Sinks.{Appends, Refuses};

use crate::instruction_sink::InstructionSink;
use wasm_core_write::encode_error::EncodeError;
use wasm_encoder_instructions::instruction::Instruction;
use wasm_encoder_instructions::mem_arg::MemArg;

impl InstructionSink {
    ghost use Rattle.std.specs.Borrow.{sem, LendsIfOk};
    ghost use Rattle.wasm_encoder_bodies.specs.contracts.instruction_sink.InstructionSink.{the_row};

    // Does what `i32_store` does.
    #[tactic(auto, unfolding(wasm_encoder_instructions::specs::Instructions::instruction_encoding))]
    fn push_i32_store(&mut self, memarg: MemArg) -> Result<(), EncodeError>
        ensures appended { IfOk result (λ _. Appends self.old self.new (operator_encoding (stored 0x36 memarg))) }
        ensures kept { IfErr result (λ _. self.new ≡ self.old) }
        ensures cause { IfErr result (Refuses self.old (operator_encoding (stored 0x36 memarg))) }
    {
        self.push(&Instruction::I32Store(memarg))
    }

    /// Appends [`Instruction::I32Store`].
    ///
    /// # Errors
    /// Those of [`InstructionSink::push`]. The sink is then as it was.
    pub fn i32_store(&mut self, memarg: MemArg) -> Result<&mut InstructionSink, EncodeError>
        ensures* refused { sem 𝓛 (LendsIfOk the_row the_row self.entry result (λ w. w) self.old) }
        ensures same_reference { IfOk result (λ s. s.ghost_name ≡ self.entry.ghost_name) }
        ensures appended { IfOk result (λ s. Appends self.old s.now (operator_encoding (stored 0x36 memarg))) }
        ensures cause { IfErr result (Refuses self.old (operator_encoding (stored 0x36 memarg))) }
    {
        match self.push_i32_store(memarg) {
            Ok(()) => Ok(self),
            Err(error) => Err(error),
        }
    }

    // Does what `i64_store` does.
    #[tactic(auto, unfolding(wasm_encoder_instructions::specs::Instructions::instruction_encoding))]
    fn push_i64_store(&mut self, memarg: MemArg) -> Result<(), EncodeError>
        ensures appended { IfOk result (λ _. Appends self.old self.new (operator_encoding (stored 0x37 memarg))) }
        ensures kept { IfErr result (λ _. self.new ≡ self.old) }
        ensures cause { IfErr result (Refuses self.old (operator_encoding (stored 0x37 memarg))) }
    {
        self.push(&Instruction::I64Store(memarg))
    }

    /// Appends [`Instruction::I64Store`].
    ///
    /// # Errors
    /// Those of [`InstructionSink::push`]. The sink is then as it was.
    pub fn i64_store(&mut self, memarg: MemArg) -> Result<&mut InstructionSink, EncodeError>
        ensures* refused { sem 𝓛 (LendsIfOk the_row the_row self.entry result (λ w. w) self.old) }
        ensures same_reference { IfOk result (λ s. s.ghost_name ≡ self.entry.ghost_name) }
        ensures appended { IfOk result (λ s. Appends self.old s.now (operator_encoding (stored 0x37 memarg))) }
        ensures cause { IfErr result (Refuses self.old (operator_encoding (stored 0x37 memarg))) }
    {
        match self.push_i64_store(memarg) {
            Ok(()) => Ok(self),
            Err(error) => Err(error),
        }
    }

    // Does what `f32_store` does.
    #[tactic(auto, unfolding(wasm_encoder_instructions::specs::Instructions::instruction_encoding))]
    fn push_f32_store(&mut self, memarg: MemArg) -> Result<(), EncodeError>
        ensures appended { IfOk result (λ _. Appends self.old self.new (operator_encoding (stored 0x38 memarg))) }
        ensures kept { IfErr result (λ _. self.new ≡ self.old) }
        ensures cause { IfErr result (Refuses self.old (operator_encoding (stored 0x38 memarg))) }
    {
        self.push(&Instruction::F32Store(memarg))
    }

    /// Appends [`Instruction::F32Store`].
    ///
    /// # Errors
    /// Those of [`InstructionSink::push`]. The sink is then as it was.
    pub fn f32_store(&mut self, memarg: MemArg) -> Result<&mut InstructionSink, EncodeError>
        ensures* refused { sem 𝓛 (LendsIfOk the_row the_row self.entry result (λ w. w) self.old) }
        ensures same_reference { IfOk result (λ s. s.ghost_name ≡ self.entry.ghost_name) }
        ensures appended { IfOk result (λ s. Appends self.old s.now (operator_encoding (stored 0x38 memarg))) }
        ensures cause { IfErr result (Refuses self.old (operator_encoding (stored 0x38 memarg))) }
    {
        match self.push_f32_store(memarg) {
            Ok(()) => Ok(self),
            Err(error) => Err(error),
        }
    }

    // Does what `f64_store` does.
    #[tactic(auto, unfolding(wasm_encoder_instructions::specs::Instructions::instruction_encoding))]
    fn push_f64_store(&mut self, memarg: MemArg) -> Result<(), EncodeError>
        ensures appended { IfOk result (λ _. Appends self.old self.new (operator_encoding (stored 0x39 memarg))) }
        ensures kept { IfErr result (λ _. self.new ≡ self.old) }
        ensures cause { IfErr result (Refuses self.old (operator_encoding (stored 0x39 memarg))) }
    {
        self.push(&Instruction::F64Store(memarg))
    }

    /// Appends [`Instruction::F64Store`].
    ///
    /// # Errors
    /// Those of [`InstructionSink::push`]. The sink is then as it was.
    pub fn f64_store(&mut self, memarg: MemArg) -> Result<&mut InstructionSink, EncodeError>
        ensures* refused { sem 𝓛 (LendsIfOk the_row the_row self.entry result (λ w. w) self.old) }
        ensures same_reference { IfOk result (λ s. s.ghost_name ≡ self.entry.ghost_name) }
        ensures appended { IfOk result (λ s. Appends self.old s.now (operator_encoding (stored 0x39 memarg))) }
        ensures cause { IfErr result (Refuses self.old (operator_encoding (stored 0x39 memarg))) }
    {
        match self.push_f64_store(memarg) {
            Ok(()) => Ok(self),
            Err(error) => Err(error),
        }
    }

    // Does what `i32_store8` does.
    #[tactic(auto, unfolding(wasm_encoder_instructions::specs::Instructions::instruction_encoding))]
    fn push_i32_store8(&mut self, memarg: MemArg) -> Result<(), EncodeError>
        ensures appended { IfOk result (λ _. Appends self.old self.new (operator_encoding (stored 0x3a memarg))) }
        ensures kept { IfErr result (λ _. self.new ≡ self.old) }
        ensures cause { IfErr result (Refuses self.old (operator_encoding (stored 0x3a memarg))) }
    {
        self.push(&Instruction::I32Store8(memarg))
    }

    /// Appends [`Instruction::I32Store8`].
    ///
    /// # Errors
    /// Those of [`InstructionSink::push`]. The sink is then as it was.
    pub fn i32_store8(&mut self, memarg: MemArg) -> Result<&mut InstructionSink, EncodeError>
        ensures* refused { sem 𝓛 (LendsIfOk the_row the_row self.entry result (λ w. w) self.old) }
        ensures same_reference { IfOk result (λ s. s.ghost_name ≡ self.entry.ghost_name) }
        ensures appended { IfOk result (λ s. Appends self.old s.now (operator_encoding (stored 0x3a memarg))) }
        ensures cause { IfErr result (Refuses self.old (operator_encoding (stored 0x3a memarg))) }
    {
        match self.push_i32_store8(memarg) {
            Ok(()) => Ok(self),
            Err(error) => Err(error),
        }
    }

    // Does what `i32_store16` does.
    #[tactic(auto, unfolding(wasm_encoder_instructions::specs::Instructions::instruction_encoding))]
    fn push_i32_store16(&mut self, memarg: MemArg) -> Result<(), EncodeError>
        ensures appended { IfOk result (λ _. Appends self.old self.new (operator_encoding (stored 0x3b memarg))) }
        ensures kept { IfErr result (λ _. self.new ≡ self.old) }
        ensures cause { IfErr result (Refuses self.old (operator_encoding (stored 0x3b memarg))) }
    {
        self.push(&Instruction::I32Store16(memarg))
    }

    /// Appends [`Instruction::I32Store16`].
    ///
    /// # Errors
    /// Those of [`InstructionSink::push`]. The sink is then as it was.
    pub fn i32_store16(&mut self, memarg: MemArg) -> Result<&mut InstructionSink, EncodeError>
        ensures* refused { sem 𝓛 (LendsIfOk the_row the_row self.entry result (λ w. w) self.old) }
        ensures same_reference { IfOk result (λ s. s.ghost_name ≡ self.entry.ghost_name) }
        ensures appended { IfOk result (λ s. Appends self.old s.now (operator_encoding (stored 0x3b memarg))) }
        ensures cause { IfErr result (Refuses self.old (operator_encoding (stored 0x3b memarg))) }
    {
        match self.push_i32_store16(memarg) {
            Ok(()) => Ok(self),
            Err(error) => Err(error),
        }
    }

    // Does what `i64_store8` does.
    #[tactic(auto, unfolding(wasm_encoder_instructions::specs::Instructions::instruction_encoding))]
    fn push_i64_store8(&mut self, memarg: MemArg) -> Result<(), EncodeError>
        ensures appended { IfOk result (λ _. Appends self.old self.new (operator_encoding (stored 0x3c memarg))) }
        ensures kept { IfErr result (λ _. self.new ≡ self.old) }
        ensures cause { IfErr result (Refuses self.old (operator_encoding (stored 0x3c memarg))) }
    {
        self.push(&Instruction::I64Store8(memarg))
    }

    /// Appends [`Instruction::I64Store8`].
    ///
    /// # Errors
    /// Those of [`InstructionSink::push`]. The sink is then as it was.
    pub fn i64_store8(&mut self, memarg: MemArg) -> Result<&mut InstructionSink, EncodeError>
        ensures* refused { sem 𝓛 (LendsIfOk the_row the_row self.entry result (λ w. w) self.old) }
        ensures same_reference { IfOk result (λ s. s.ghost_name ≡ self.entry.ghost_name) }
        ensures appended { IfOk result (λ s. Appends self.old s.now (operator_encoding (stored 0x3c memarg))) }
        ensures cause { IfErr result (Refuses self.old (operator_encoding (stored 0x3c memarg))) }
    {
        match self.push_i64_store8(memarg) {
            Ok(()) => Ok(self),
            Err(error) => Err(error),
        }
    }

    // Does what `i64_store16` does.
    #[tactic(auto, unfolding(wasm_encoder_instructions::specs::Instructions::instruction_encoding))]
    fn push_i64_store16(&mut self, memarg: MemArg) -> Result<(), EncodeError>
        ensures appended { IfOk result (λ _. Appends self.old self.new (operator_encoding (stored 0x3d memarg))) }
        ensures kept { IfErr result (λ _. self.new ≡ self.old) }
        ensures cause { IfErr result (Refuses self.old (operator_encoding (stored 0x3d memarg))) }
    {
        self.push(&Instruction::I64Store16(memarg))
    }

    /// Appends [`Instruction::I64Store16`].
    ///
    /// # Errors
    /// Those of [`InstructionSink::push`]. The sink is then as it was.
    pub fn i64_store16(&mut self, memarg: MemArg) -> Result<&mut InstructionSink, EncodeError>
        ensures* refused { sem 𝓛 (LendsIfOk the_row the_row self.entry result (λ w. w) self.old) }
        ensures same_reference { IfOk result (λ s. s.ghost_name ≡ self.entry.ghost_name) }
        ensures appended { IfOk result (λ s. Appends self.old s.now (operator_encoding (stored 0x3d memarg))) }
        ensures cause { IfErr result (Refuses self.old (operator_encoding (stored 0x3d memarg))) }
    {
        match self.push_i64_store16(memarg) {
            Ok(()) => Ok(self),
            Err(error) => Err(error),
        }
    }

    // Does what `i64_store32` does.
    #[tactic(auto, unfolding(wasm_encoder_instructions::specs::Instructions::instruction_encoding))]
    fn push_i64_store32(&mut self, memarg: MemArg) -> Result<(), EncodeError>
        ensures appended { IfOk result (λ _. Appends self.old self.new (operator_encoding (stored 0x3e memarg))) }
        ensures kept { IfErr result (λ _. self.new ≡ self.old) }
        ensures cause { IfErr result (Refuses self.old (operator_encoding (stored 0x3e memarg))) }
    {
        self.push(&Instruction::I64Store32(memarg))
    }

    /// Appends [`Instruction::I64Store32`].
    ///
    /// # Errors
    /// Those of [`InstructionSink::push`]. The sink is then as it was.
    pub fn i64_store32(&mut self, memarg: MemArg) -> Result<&mut InstructionSink, EncodeError>
        ensures* refused { sem 𝓛 (LendsIfOk the_row the_row self.entry result (λ w. w) self.old) }
        ensures same_reference { IfOk result (λ s. s.ghost_name ≡ self.entry.ghost_name) }
        ensures appended { IfOk result (λ s. Appends self.old s.now (operator_encoding (stored 0x3e memarg))) }
        ensures cause { IfErr result (Refuses self.old (operator_encoding (stored 0x3e memarg))) }
    {
        match self.push_i64_store32(memarg) {
            Ok(()) => Ok(self),
            Err(error) => Err(error),
        }
    }
}
