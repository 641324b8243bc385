//! Numbers and vectors.

ghost use Rattle.std.specs.Prelude.{◌≡◌, IfOk, IfErr};
ghost use Rattle.wasm_bodies.specs.Operators as operators;
ghost use Rattle.wasm_encoder_instructions.specs.Instructions.{vector_bytes};
ghost use Rattle.wasm_encoder_instructions.specs.OperatorEncodings.{operator_encoding};
ghost use Rattle.wasm_encoder_bodies.specs.Sinks.{Appends, Refuses};

use crate::instruction_sink::InstructionSink;
use wasm_core_write::encode_error::EncodeError;
use wasm_encoder_instructions::ieee::{Ieee32, Ieee64};
use wasm_encoder_instructions::instruction::Instruction;

impl InstructionSink {
    ghost use Rattle.std.specs.Borrow.{sem, LendsIfOk};
    ghost use Rattle.wasm_encoder_bodies.specs.contracts.instruction_sink.InstructionSink.{the_row};

    // Does what `i32_const` does.
    #[tactic(auto, unfolding(wasm_encoder_instructions::specs::Instructions::instruction_encoding))]
    fn push_i32_const(&mut self, value: i32) -> Result<(), EncodeError>
        ensures appended { IfOk result (λ _. Appends self.old self.new (operator_encoding (operators.I32Const value))) }
        ensures kept { IfErr result (λ _. self.new ≡ self.old) }
        ensures cause { IfErr result (Refuses self.old (operator_encoding (operators.I32Const value))) }
    {
        self.push(&Instruction::I32Const(value))
    }

    /// Appends [`Instruction::I32Const`].
    ///
    /// # Errors
    /// Those of [`InstructionSink::push`]. The sink is then as it was.
    pub fn i32_const(&mut self, value: i32) -> Result<&mut InstructionSink, EncodeError>
        ensures* refused { sem 𝓛 (LendsIfOk the_row the_row self.entry result (λ w. w) self.old) }
        ensures same_reference { IfOk result (λ s. s.ghost_name ≡ self.entry.ghost_name) }
        ensures appended { IfOk result (λ s. Appends self.old s.now (operator_encoding (operators.I32Const value))) }
        ensures cause { IfErr result (Refuses self.old (operator_encoding (operators.I32Const value))) }
    {
        match self.push_i32_const(value) {
            Ok(()) => Ok(self),
            Err(error) => Err(error),
        }
    }

    // Does what `i64_const` does.
    #[tactic(auto, unfolding(wasm_encoder_instructions::specs::Instructions::instruction_encoding))]
    fn push_i64_const(&mut self, value: i64) -> Result<(), EncodeError>
        ensures appended { IfOk result (λ _. Appends self.old self.new (operator_encoding (operators.I64Const value))) }
        ensures kept { IfErr result (λ _. self.new ≡ self.old) }
        ensures cause { IfErr result (Refuses self.old (operator_encoding (operators.I64Const value))) }
    {
        self.push(&Instruction::I64Const(value))
    }

    /// Appends [`Instruction::I64Const`].
    ///
    /// # Errors
    /// Those of [`InstructionSink::push`]. The sink is then as it was.
    pub fn i64_const(&mut self, value: i64) -> Result<&mut InstructionSink, EncodeError>
        ensures* refused { sem 𝓛 (LendsIfOk the_row the_row self.entry result (λ w. w) self.old) }
        ensures same_reference { IfOk result (λ s. s.ghost_name ≡ self.entry.ghost_name) }
        ensures appended { IfOk result (λ s. Appends self.old s.now (operator_encoding (operators.I64Const value))) }
        ensures cause { IfErr result (Refuses self.old (operator_encoding (operators.I64Const value))) }
    {
        match self.push_i64_const(value) {
            Ok(()) => Ok(self),
            Err(error) => Err(error),
        }
    }

    // Does what `f32_const` does.
    #[tactic(auto, unfolding(wasm_encoder_instructions::specs::Instructions::instruction_encoding))]
    fn push_f32_const(&mut self, value: Ieee32) -> Result<(), EncodeError>
        ensures appended { IfOk result (λ _. Appends self.old self.new (operator_encoding (operators.F32Const value.bits))) }
        ensures kept { IfErr result (λ _. self.new ≡ self.old) }
        ensures cause { IfErr result (Refuses self.old (operator_encoding (operators.F32Const value.bits))) }
    {
        self.push(&Instruction::F32Const(value))
    }

    /// Appends [`Instruction::F32Const`].
    ///
    /// # Errors
    /// Those of [`InstructionSink::push`]. The sink is then as it was.
    pub fn f32_const(&mut self, value: Ieee32) -> Result<&mut InstructionSink, EncodeError>
        ensures* refused { sem 𝓛 (LendsIfOk the_row the_row self.entry result (λ w. w) self.old) }
        ensures same_reference { IfOk result (λ s. s.ghost_name ≡ self.entry.ghost_name) }
        ensures appended { IfOk result (λ s. Appends self.old s.now (operator_encoding (operators.F32Const value.bits))) }
        ensures cause { IfErr result (Refuses self.old (operator_encoding (operators.F32Const value.bits))) }
    {
        match self.push_f32_const(value) {
            Ok(()) => Ok(self),
            Err(error) => Err(error),
        }
    }

    // Does what `f64_const` does.
    #[tactic(auto, unfolding(wasm_encoder_instructions::specs::Instructions::instruction_encoding))]
    fn push_f64_const(&mut self, value: Ieee64) -> Result<(), EncodeError>
        ensures appended { IfOk result (λ _. Appends self.old self.new (operator_encoding (operators.F64Const value.bits))) }
        ensures kept { IfErr result (λ _. self.new ≡ self.old) }
        ensures cause { IfErr result (Refuses self.old (operator_encoding (operators.F64Const value.bits))) }
    {
        self.push(&Instruction::F64Const(value))
    }

    /// Appends [`Instruction::F64Const`].
    ///
    /// # Errors
    /// Those of [`InstructionSink::push`]. The sink is then as it was.
    pub fn f64_const(&mut self, value: Ieee64) -> Result<&mut InstructionSink, EncodeError>
        ensures* refused { sem 𝓛 (LendsIfOk the_row the_row self.entry result (λ w. w) self.old) }
        ensures same_reference { IfOk result (λ s. s.ghost_name ≡ self.entry.ghost_name) }
        ensures appended { IfOk result (λ s. Appends self.old s.now (operator_encoding (operators.F64Const value.bits))) }
        ensures cause { IfErr result (Refuses self.old (operator_encoding (operators.F64Const value.bits))) }
    {
        match self.push_f64_const(value) {
            Ok(()) => Ok(self),
            Err(error) => Err(error),
        }
    }

    // Does what `v128_const` does.
    #[tactic(auto, unfolding(wasm_encoder_instructions::specs::Instructions::instruction_encoding))]
    fn push_v128_const(&mut self, bits: i128) -> Result<(), EncodeError>
        ensures appended { IfOk result (λ _. Appends self.old self.new (operator_encoding (operators.V128Const (vector_bytes bits)))) }
        ensures kept { IfErr result (λ _. self.new ≡ self.old) }
        ensures cause { IfErr result (Refuses self.old (operator_encoding (operators.V128Const (vector_bytes bits)))) }
    {
        self.push(&Instruction::V128Const(bits))
    }

    /// Appends [`Instruction::V128Const`].
    ///
    /// # Errors
    /// Those of [`InstructionSink::push`]. The sink is then as it was.
    pub fn v128_const(&mut self, bits: i128) -> Result<&mut InstructionSink, EncodeError>
        ensures* refused { sem 𝓛 (LendsIfOk the_row the_row self.entry result (λ w. w) self.old) }
        ensures same_reference { IfOk result (λ s. s.ghost_name ≡ self.entry.ghost_name) }
        ensures appended { IfOk result (λ s. Appends self.old s.now (operator_encoding (operators.V128Const (vector_bytes bits)))) }
        ensures cause { IfErr result (Refuses self.old (operator_encoding (operators.V128Const (vector_bytes bits)))) }
    {
        match self.push_v128_const(bits) {
            Ok(()) => Ok(self),
            Err(error) => Err(error),
        }
    }
}
