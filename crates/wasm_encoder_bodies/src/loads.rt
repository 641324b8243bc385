//! Loads from memories.

ghost use Rattle.std.specs.Prelude.{◌≡◌, IfOk, IfErr};
ghost use Rattle.wasm_encoder_instructions.specs.Instructions.{loaded};
ghost use Rattle.wasm_encoder_instructions.specs.OperatorEncodings.{operator_encoding};
ghost use Rattle.wasm_encoder_bodies.specs.Sinks.{Appends, Refuses};

use crate::instruction_sink::InstructionSink;
use wasm_core_write::encode_error::EncodeError;
use wasm_encoder_instructions::instruction::Instruction;
use wasm_encoder_instructions::mem_arg::MemArg;

impl InstructionSink {
    ghost use Rattle.std.specs.Borrow.{sem, LendsIfOk};
    ghost use Rattle.wasm_encoder_bodies.specs.contracts.instruction_sink.InstructionSink.{the_row};

    // Does what `i32_load` does.
    #[tactic(auto, unfolding(wasm_encoder_instructions::specs::Instructions::instruction_encoding))]
    fn push_i32_load(&mut self, memarg: MemArg) -> Result<(), EncodeError>
        ensures appended { IfOk result (λ _. Appends self.old self.new (operator_encoding (loaded 0x28 memarg))) }
        ensures kept { IfErr result (λ _. self.new ≡ self.old) }
        ensures cause { IfErr result (Refuses self.old (operator_encoding (loaded 0x28 memarg))) }
    {
        self.push(&Instruction::I32Load(memarg))
    }

    /// Appends [`Instruction::I32Load`].
    ///
    /// # Errors
    /// Those of [`InstructionSink::push`]. The sink is then as it was.
    pub fn i32_load(&mut self, memarg: MemArg) -> Result<&mut InstructionSink, EncodeError>
        ensures* refused { sem 𝓛 (LendsIfOk the_row the_row self.entry result (λ w. w) self.old) }
        ensures same_reference { IfOk result (λ s. s.ghost_name ≡ self.entry.ghost_name) }
        ensures appended { IfOk result (λ s. Appends self.old s.now (operator_encoding (loaded 0x28 memarg))) }
        ensures cause { IfErr result (Refuses self.old (operator_encoding (loaded 0x28 memarg))) }
    {
        match self.push_i32_load(memarg) {
            Ok(()) => Ok(self),
            Err(error) => Err(error),
        }
    }

    // Does what `i64_load` does.
    #[tactic(auto, unfolding(wasm_encoder_instructions::specs::Instructions::instruction_encoding))]
    fn push_i64_load(&mut self, memarg: MemArg) -> Result<(), EncodeError>
        ensures appended { IfOk result (λ _. Appends self.old self.new (operator_encoding (loaded 0x29 memarg))) }
        ensures kept { IfErr result (λ _. self.new ≡ self.old) }
        ensures cause { IfErr result (Refuses self.old (operator_encoding (loaded 0x29 memarg))) }
    {
        self.push(&Instruction::I64Load(memarg))
    }

    /// Appends [`Instruction::I64Load`].
    ///
    /// # Errors
    /// Those of [`InstructionSink::push`]. The sink is then as it was.
    pub fn i64_load(&mut self, memarg: MemArg) -> Result<&mut InstructionSink, EncodeError>
        ensures* refused { sem 𝓛 (LendsIfOk the_row the_row self.entry result (λ w. w) self.old) }
        ensures same_reference { IfOk result (λ s. s.ghost_name ≡ self.entry.ghost_name) }
        ensures appended { IfOk result (λ s. Appends self.old s.now (operator_encoding (loaded 0x29 memarg))) }
        ensures cause { IfErr result (Refuses self.old (operator_encoding (loaded 0x29 memarg))) }
    {
        match self.push_i64_load(memarg) {
            Ok(()) => Ok(self),
            Err(error) => Err(error),
        }
    }

    // Does what `f32_load` does.
    #[tactic(auto, unfolding(wasm_encoder_instructions::specs::Instructions::instruction_encoding))]
    fn push_f32_load(&mut self, memarg: MemArg) -> Result<(), EncodeError>
        ensures appended { IfOk result (λ _. Appends self.old self.new (operator_encoding (loaded 0x2a memarg))) }
        ensures kept { IfErr result (λ _. self.new ≡ self.old) }
        ensures cause { IfErr result (Refuses self.old (operator_encoding (loaded 0x2a memarg))) }
    {
        self.push(&Instruction::F32Load(memarg))
    }

    /// Appends [`Instruction::F32Load`].
    ///
    /// # Errors
    /// Those of [`InstructionSink::push`]. The sink is then as it was.
    pub fn f32_load(&mut self, memarg: MemArg) -> Result<&mut InstructionSink, EncodeError>
        ensures* refused { sem 𝓛 (LendsIfOk the_row the_row self.entry result (λ w. w) self.old) }
        ensures same_reference { IfOk result (λ s. s.ghost_name ≡ self.entry.ghost_name) }
        ensures appended { IfOk result (λ s. Appends self.old s.now (operator_encoding (loaded 0x2a memarg))) }
        ensures cause { IfErr result (Refuses self.old (operator_encoding (loaded 0x2a memarg))) }
    {
        match self.push_f32_load(memarg) {
            Ok(()) => Ok(self),
            Err(error) => Err(error),
        }
    }

    // Does what `f64_load` does.
    #[tactic(auto, unfolding(wasm_encoder_instructions::specs::Instructions::instruction_encoding))]
    fn push_f64_load(&mut self, memarg: MemArg) -> Result<(), EncodeError>
        ensures appended { IfOk result (λ _. Appends self.old self.new (operator_encoding (loaded 0x2b memarg))) }
        ensures kept { IfErr result (λ _. self.new ≡ self.old) }
        ensures cause { IfErr result (Refuses self.old (operator_encoding (loaded 0x2b memarg))) }
    {
        self.push(&Instruction::F64Load(memarg))
    }

    /// Appends [`Instruction::F64Load`].
    ///
    /// # Errors
    /// Those of [`InstructionSink::push`]. The sink is then as it was.
    pub fn f64_load(&mut self, memarg: MemArg) -> Result<&mut InstructionSink, EncodeError>
        ensures* refused { sem 𝓛 (LendsIfOk the_row the_row self.entry result (λ w. w) self.old) }
        ensures same_reference { IfOk result (λ s. s.ghost_name ≡ self.entry.ghost_name) }
        ensures appended { IfOk result (λ s. Appends self.old s.now (operator_encoding (loaded 0x2b memarg))) }
        ensures cause { IfErr result (Refuses self.old (operator_encoding (loaded 0x2b memarg))) }
    {
        match self.push_f64_load(memarg) {
            Ok(()) => Ok(self),
            Err(error) => Err(error),
        }
    }

    // Does what `i32_load8_s` does.
    #[tactic(auto, unfolding(wasm_encoder_instructions::specs::Instructions::instruction_encoding))]
    fn push_i32_load8_s(&mut self, memarg: MemArg) -> Result<(), EncodeError>
        ensures appended { IfOk result (λ _. Appends self.old self.new (operator_encoding (loaded 0x2c memarg))) }
        ensures kept { IfErr result (λ _. self.new ≡ self.old) }
        ensures cause { IfErr result (Refuses self.old (operator_encoding (loaded 0x2c memarg))) }
    {
        self.push(&Instruction::I32Load8S(memarg))
    }

    /// Appends [`Instruction::I32Load8S`].
    ///
    /// # Errors
    /// Those of [`InstructionSink::push`]. The sink is then as it was.
    pub fn i32_load8_s(&mut self, memarg: MemArg) -> Result<&mut InstructionSink, EncodeError>
        ensures* refused { sem 𝓛 (LendsIfOk the_row the_row self.entry result (λ w. w) self.old) }
        ensures same_reference { IfOk result (λ s. s.ghost_name ≡ self.entry.ghost_name) }
        ensures appended { IfOk result (λ s. Appends self.old s.now (operator_encoding (loaded 0x2c memarg))) }
        ensures cause { IfErr result (Refuses self.old (operator_encoding (loaded 0x2c memarg))) }
    {
        match self.push_i32_load8_s(memarg) {
            Ok(()) => Ok(self),
            Err(error) => Err(error),
        }
    }

    // Does what `i32_load8_u` does.
    #[tactic(auto, unfolding(wasm_encoder_instructions::specs::Instructions::instruction_encoding))]
    fn push_i32_load8_u(&mut self, memarg: MemArg) -> Result<(), EncodeError>
        ensures appended { IfOk result (λ _. Appends self.old self.new (operator_encoding (loaded 0x2d memarg))) }
        ensures kept { IfErr result (λ _. self.new ≡ self.old) }
        ensures cause { IfErr result (Refuses self.old (operator_encoding (loaded 0x2d memarg))) }
    {
        self.push(&Instruction::I32Load8U(memarg))
    }

    /// Appends [`Instruction::I32Load8U`].
    ///
    /// # Errors
    /// Those of [`InstructionSink::push`]. The sink is then as it was.
    pub fn i32_load8_u(&mut self, memarg: MemArg) -> Result<&mut InstructionSink, EncodeError>
        ensures* refused { sem 𝓛 (LendsIfOk the_row the_row self.entry result (λ w. w) self.old) }
        ensures same_reference { IfOk result (λ s. s.ghost_name ≡ self.entry.ghost_name) }
        ensures appended { IfOk result (λ s. Appends self.old s.now (operator_encoding (loaded 0x2d memarg))) }
        ensures cause { IfErr result (Refuses self.old (operator_encoding (loaded 0x2d memarg))) }
    {
        match self.push_i32_load8_u(memarg) {
            Ok(()) => Ok(self),
            Err(error) => Err(error),
        }
    }

    // Does what `i32_load16_s` does.
    #[tactic(auto, unfolding(wasm_encoder_instructions::specs::Instructions::instruction_encoding))]
    fn push_i32_load16_s(&mut self, memarg: MemArg) -> Result<(), EncodeError>
        ensures appended { IfOk result (λ _. Appends self.old self.new (operator_encoding (loaded 0x2e memarg))) }
        ensures kept { IfErr result (λ _. self.new ≡ self.old) }
        ensures cause { IfErr result (Refuses self.old (operator_encoding (loaded 0x2e memarg))) }
    {
        self.push(&Instruction::I32Load16S(memarg))
    }

    /// Appends [`Instruction::I32Load16S`].
    ///
    /// # Errors
    /// Those of [`InstructionSink::push`]. The sink is then as it was.
    pub fn i32_load16_s(&mut self, memarg: MemArg) -> Result<&mut InstructionSink, EncodeError>
        ensures* refused { sem 𝓛 (LendsIfOk the_row the_row self.entry result (λ w. w) self.old) }
        ensures same_reference { IfOk result (λ s. s.ghost_name ≡ self.entry.ghost_name) }
        ensures appended { IfOk result (λ s. Appends self.old s.now (operator_encoding (loaded 0x2e memarg))) }
        ensures cause { IfErr result (Refuses self.old (operator_encoding (loaded 0x2e memarg))) }
    {
        match self.push_i32_load16_s(memarg) {
            Ok(()) => Ok(self),
            Err(error) => Err(error),
        }
    }

    // Does what `i32_load16_u` does.
    #[tactic(auto, unfolding(wasm_encoder_instructions::specs::Instructions::instruction_encoding))]
    fn push_i32_load16_u(&mut self, memarg: MemArg) -> Result<(), EncodeError>
        ensures appended { IfOk result (λ _. Appends self.old self.new (operator_encoding (loaded 0x2f memarg))) }
        ensures kept { IfErr result (λ _. self.new ≡ self.old) }
        ensures cause { IfErr result (Refuses self.old (operator_encoding (loaded 0x2f memarg))) }
    {
        self.push(&Instruction::I32Load16U(memarg))
    }

    /// Appends [`Instruction::I32Load16U`].
    ///
    /// # Errors
    /// Those of [`InstructionSink::push`]. The sink is then as it was.
    pub fn i32_load16_u(&mut self, memarg: MemArg) -> Result<&mut InstructionSink, EncodeError>
        ensures* refused { sem 𝓛 (LendsIfOk the_row the_row self.entry result (λ w. w) self.old) }
        ensures same_reference { IfOk result (λ s. s.ghost_name ≡ self.entry.ghost_name) }
        ensures appended { IfOk result (λ s. Appends self.old s.now (operator_encoding (loaded 0x2f memarg))) }
        ensures cause { IfErr result (Refuses self.old (operator_encoding (loaded 0x2f memarg))) }
    {
        match self.push_i32_load16_u(memarg) {
            Ok(()) => Ok(self),
            Err(error) => Err(error),
        }
    }

    // Does what `i64_load8_s` does.
    #[tactic(auto, unfolding(wasm_encoder_instructions::specs::Instructions::instruction_encoding))]
    fn push_i64_load8_s(&mut self, memarg: MemArg) -> Result<(), EncodeError>
        ensures appended { IfOk result (λ _. Appends self.old self.new (operator_encoding (loaded 0x30 memarg))) }
        ensures kept { IfErr result (λ _. self.new ≡ self.old) }
        ensures cause { IfErr result (Refuses self.old (operator_encoding (loaded 0x30 memarg))) }
    {
        self.push(&Instruction::I64Load8S(memarg))
    }

    /// Appends [`Instruction::I64Load8S`].
    ///
    /// # Errors
    /// Those of [`InstructionSink::push`]. The sink is then as it was.
    pub fn i64_load8_s(&mut self, memarg: MemArg) -> Result<&mut InstructionSink, EncodeError>
        ensures* refused { sem 𝓛 (LendsIfOk the_row the_row self.entry result (λ w. w) self.old) }
        ensures same_reference { IfOk result (λ s. s.ghost_name ≡ self.entry.ghost_name) }
        ensures appended { IfOk result (λ s. Appends self.old s.now (operator_encoding (loaded 0x30 memarg))) }
        ensures cause { IfErr result (Refuses self.old (operator_encoding (loaded 0x30 memarg))) }
    {
        match self.push_i64_load8_s(memarg) {
            Ok(()) => Ok(self),
            Err(error) => Err(error),
        }
    }

    // Does what `i64_load8_u` does.
    #[tactic(auto, unfolding(wasm_encoder_instructions::specs::Instructions::instruction_encoding))]
    fn push_i64_load8_u(&mut self, memarg: MemArg) -> Result<(), EncodeError>
        ensures appended { IfOk result (λ _. Appends self.old self.new (operator_encoding (loaded 0x31 memarg))) }
        ensures kept { IfErr result (λ _. self.new ≡ self.old) }
        ensures cause { IfErr result (Refuses self.old (operator_encoding (loaded 0x31 memarg))) }
    {
        self.push(&Instruction::I64Load8U(memarg))
    }

    /// Appends [`Instruction::I64Load8U`].
    ///
    /// # Errors
    /// Those of [`InstructionSink::push`]. The sink is then as it was.
    pub fn i64_load8_u(&mut self, memarg: MemArg) -> Result<&mut InstructionSink, EncodeError>
        ensures* refused { sem 𝓛 (LendsIfOk the_row the_row self.entry result (λ w. w) self.old) }
        ensures same_reference { IfOk result (λ s. s.ghost_name ≡ self.entry.ghost_name) }
        ensures appended { IfOk result (λ s. Appends self.old s.now (operator_encoding (loaded 0x31 memarg))) }
        ensures cause { IfErr result (Refuses self.old (operator_encoding (loaded 0x31 memarg))) }
    {
        match self.push_i64_load8_u(memarg) {
            Ok(()) => Ok(self),
            Err(error) => Err(error),
        }
    }

    // Does what `i64_load16_s` does.
    #[tactic(auto, unfolding(wasm_encoder_instructions::specs::Instructions::instruction_encoding))]
    fn push_i64_load16_s(&mut self, memarg: MemArg) -> Result<(), EncodeError>
        ensures appended { IfOk result (λ _. Appends self.old self.new (operator_encoding (loaded 0x32 memarg))) }
        ensures kept { IfErr result (λ _. self.new ≡ self.old) }
        ensures cause { IfErr result (Refuses self.old (operator_encoding (loaded 0x32 memarg))) }
    {
        self.push(&Instruction::I64Load16S(memarg))
    }

    /// Appends [`Instruction::I64Load16S`].
    ///
    /// # Errors
    /// Those of [`InstructionSink::push`]. The sink is then as it was.
    pub fn i64_load16_s(&mut self, memarg: MemArg) -> Result<&mut InstructionSink, EncodeError>
        ensures* refused { sem 𝓛 (LendsIfOk the_row the_row self.entry result (λ w. w) self.old) }
        ensures same_reference { IfOk result (λ s. s.ghost_name ≡ self.entry.ghost_name) }
        ensures appended { IfOk result (λ s. Appends self.old s.now (operator_encoding (loaded 0x32 memarg))) }
        ensures cause { IfErr result (Refuses self.old (operator_encoding (loaded 0x32 memarg))) }
    {
        match self.push_i64_load16_s(memarg) {
            Ok(()) => Ok(self),
            Err(error) => Err(error),
        }
    }

    // Does what `i64_load16_u` does.
    #[tactic(auto, unfolding(wasm_encoder_instructions::specs::Instructions::instruction_encoding))]
    fn push_i64_load16_u(&mut self, memarg: MemArg) -> Result<(), EncodeError>
        ensures appended { IfOk result (λ _. Appends self.old self.new (operator_encoding (loaded 0x33 memarg))) }
        ensures kept { IfErr result (λ _. self.new ≡ self.old) }
        ensures cause { IfErr result (Refuses self.old (operator_encoding (loaded 0x33 memarg))) }
    {
        self.push(&Instruction::I64Load16U(memarg))
    }

    /// Appends [`Instruction::I64Load16U`].
    ///
    /// # Errors
    /// Those of [`InstructionSink::push`]. The sink is then as it was.
    pub fn i64_load16_u(&mut self, memarg: MemArg) -> Result<&mut InstructionSink, EncodeError>
        ensures* refused { sem 𝓛 (LendsIfOk the_row the_row self.entry result (λ w. w) self.old) }
        ensures same_reference { IfOk result (λ s. s.ghost_name ≡ self.entry.ghost_name) }
        ensures appended { IfOk result (λ s. Appends self.old s.now (operator_encoding (loaded 0x33 memarg))) }
        ensures cause { IfErr result (Refuses self.old (operator_encoding (loaded 0x33 memarg))) }
    {
        match self.push_i64_load16_u(memarg) {
            Ok(()) => Ok(self),
            Err(error) => Err(error),
        }
    }

    // Does what `i64_load32_s` does.
    #[tactic(auto, unfolding(wasm_encoder_instructions::specs::Instructions::instruction_encoding))]
    fn push_i64_load32_s(&mut self, memarg: MemArg) -> Result<(), EncodeError>
        ensures appended { IfOk result (λ _. Appends self.old self.new (operator_encoding (loaded 0x34 memarg))) }
        ensures kept { IfErr result (λ _. self.new ≡ self.old) }
        ensures cause { IfErr result (Refuses self.old (operator_encoding (loaded 0x34 memarg))) }
    {
        self.push(&Instruction::I64Load32S(memarg))
    }

    /// Appends [`Instruction::I64Load32S`].
    ///
    /// # Errors
    /// Those of [`InstructionSink::push`]. The sink is then as it was.
    pub fn i64_load32_s(&mut self, memarg: MemArg) -> Result<&mut InstructionSink, EncodeError>
        ensures* refused { sem 𝓛 (LendsIfOk the_row the_row self.entry result (λ w. w) self.old) }
        ensures same_reference { IfOk result (λ s. s.ghost_name ≡ self.entry.ghost_name) }
        ensures appended { IfOk result (λ s. Appends self.old s.now (operator_encoding (loaded 0x34 memarg))) }
        ensures cause { IfErr result (Refuses self.old (operator_encoding (loaded 0x34 memarg))) }
    {
        match self.push_i64_load32_s(memarg) {
            Ok(()) => Ok(self),
            Err(error) => Err(error),
        }
    }

    // Does what `i64_load32_u` does.
    #[tactic(auto, unfolding(wasm_encoder_instructions::specs::Instructions::instruction_encoding))]
    fn push_i64_load32_u(&mut self, memarg: MemArg) -> Result<(), EncodeError>
        ensures appended { IfOk result (λ _. Appends self.old self.new (operator_encoding (loaded 0x35 memarg))) }
        ensures kept { IfErr result (λ _. self.new ≡ self.old) }
        ensures cause { IfErr result (Refuses self.old (operator_encoding (loaded 0x35 memarg))) }
    {
        self.push(&Instruction::I64Load32U(memarg))
    }

    /// Appends [`Instruction::I64Load32U`].
    ///
    /// # Errors
    /// Those of [`InstructionSink::push`]. The sink is then as it was.
    pub fn i64_load32_u(&mut self, memarg: MemArg) -> Result<&mut InstructionSink, EncodeError>
        ensures* refused { sem 𝓛 (LendsIfOk the_row the_row self.entry result (λ w. w) self.old) }
        ensures same_reference { IfOk result (λ s. s.ghost_name ≡ self.entry.ghost_name) }
        ensures appended { IfOk result (λ s. Appends self.old s.now (operator_encoding (loaded 0x35 memarg))) }
        ensures cause { IfErr result (Refuses self.old (operator_encoding (loaded 0x35 memarg))) }
    {
        match self.push_i64_load32_u(memarg) {
            Ok(()) => Ok(self),
            Err(error) => Err(error),
        }
    }
}
