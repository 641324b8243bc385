//! Locals and globals.

ghost use Rattle.std.specs.Prelude.{◌≡◌, IfOk, IfErr};
ghost use Rattle.wasm_bodies.specs.Operators as operators;
ghost use Rattle.wasm_encoder_instructions.specs.OperatorEncodings.{operator_encoding};
ghost use Rattle.wasm_encoder_bodies.specs.Sinks.{Appends, Refuses};

use crate::instruction_sink::InstructionSink;
use wasm_core_write::encode_error::EncodeError;
use wasm_encoder_instructions::instruction::Instruction;

impl InstructionSink {
    ghost use Rattle.std.specs.Borrow.{sem, LendsIfOk};
    ghost use Rattle.wasm_encoder_bodies.specs.contracts.instruction_sink.InstructionSink.{the_row};

    // Does what `local_get` does.
    #[tactic(auto, unfolding(wasm_encoder_instructions::specs::Instructions::instruction_encoding))]
    fn push_local_get(&mut self, local: u32) -> Result<(), EncodeError>
        ensures appended { IfOk result (λ _. Appends self.old self.new (operator_encoding (operators.LocalGet local))) }
        ensures kept { IfErr result (λ _. self.new ≡ self.old) }
        ensures cause { IfErr result (Refuses self.old (operator_encoding (operators.LocalGet local))) }
    {
        self.push(&Instruction::LocalGet(local))
    }

    /// Appends [`Instruction::LocalGet`].
    ///
    /// # Errors
    /// Those of [`InstructionSink::push`]. The sink is then as it was.
    pub fn local_get(&mut self, local: u32) -> Result<&mut InstructionSink, EncodeError>
        ensures* refused { sem 𝓛 (LendsIfOk the_row the_row self.entry result (λ w. w) self.old) }
        ensures same_reference { IfOk result (λ s. s.ghost_name ≡ self.entry.ghost_name) }
        ensures appended { IfOk result (λ s. Appends self.old s.now (operator_encoding (operators.LocalGet local))) }
        ensures cause { IfErr result (Refuses self.old (operator_encoding (operators.LocalGet local))) }
    {
        match self.push_local_get(local) {
            Ok(()) => Ok(self),
            Err(error) => Err(error),
        }
    }

    // Does what `local_set` does.
    #[tactic(auto, unfolding(wasm_encoder_instructions::specs::Instructions::instruction_encoding))]
    fn push_local_set(&mut self, local: u32) -> Result<(), EncodeError>
        ensures appended { IfOk result (λ _. Appends self.old self.new (operator_encoding (operators.LocalSet local))) }
        ensures kept { IfErr result (λ _. self.new ≡ self.old) }
        ensures cause { IfErr result (Refuses self.old (operator_encoding (operators.LocalSet local))) }
    {
        self.push(&Instruction::LocalSet(local))
    }

    /// Appends [`Instruction::LocalSet`].
    ///
    /// # Errors
    /// Those of [`InstructionSink::push`]. The sink is then as it was.
    pub fn local_set(&mut self, local: u32) -> Result<&mut InstructionSink, EncodeError>
        ensures* refused { sem 𝓛 (LendsIfOk the_row the_row self.entry result (λ w. w) self.old) }
        ensures same_reference { IfOk result (λ s. s.ghost_name ≡ self.entry.ghost_name) }
        ensures appended { IfOk result (λ s. Appends self.old s.now (operator_encoding (operators.LocalSet local))) }
        ensures cause { IfErr result (Refuses self.old (operator_encoding (operators.LocalSet local))) }
    {
        match self.push_local_set(local) {
            Ok(()) => Ok(self),
            Err(error) => Err(error),
        }
    }

    // Does what `local_tee` does.
    #[tactic(auto, unfolding(wasm_encoder_instructions::specs::Instructions::instruction_encoding))]
    fn push_local_tee(&mut self, local: u32) -> Result<(), EncodeError>
        ensures appended { IfOk result (λ _. Appends self.old self.new (operator_encoding (operators.LocalTee local))) }
        ensures kept { IfErr result (λ _. self.new ≡ self.old) }
        ensures cause { IfErr result (Refuses self.old (operator_encoding (operators.LocalTee local))) }
    {
        self.push(&Instruction::LocalTee(local))
    }

    /// Appends [`Instruction::LocalTee`].
    ///
    /// # Errors
    /// Those of [`InstructionSink::push`]. The sink is then as it was.
    pub fn local_tee(&mut self, local: u32) -> Result<&mut InstructionSink, EncodeError>
        ensures* refused { sem 𝓛 (LendsIfOk the_row the_row self.entry result (λ w. w) self.old) }
        ensures same_reference { IfOk result (λ s. s.ghost_name ≡ self.entry.ghost_name) }
        ensures appended { IfOk result (λ s. Appends self.old s.now (operator_encoding (operators.LocalTee local))) }
        ensures cause { IfErr result (Refuses self.old (operator_encoding (operators.LocalTee local))) }
    {
        match self.push_local_tee(local) {
            Ok(()) => Ok(self),
            Err(error) => Err(error),
        }
    }

    // Does what `global_get` does.
    #[tactic(auto, unfolding(wasm_encoder_instructions::specs::Instructions::instruction_encoding))]
    fn push_global_get(&mut self, global: u32) -> Result<(), EncodeError>
        ensures appended { IfOk result (λ _. Appends self.old self.new (operator_encoding (operators.GlobalGet global))) }
        ensures kept { IfErr result (λ _. self.new ≡ self.old) }
        ensures cause { IfErr result (Refuses self.old (operator_encoding (operators.GlobalGet global))) }
    {
        self.push(&Instruction::GlobalGet(global))
    }

    /// Appends [`Instruction::GlobalGet`].
    ///
    /// # Errors
    /// Those of [`InstructionSink::push`]. The sink is then as it was.
    pub fn global_get(&mut self, global: u32) -> Result<&mut InstructionSink, EncodeError>
        ensures* refused { sem 𝓛 (LendsIfOk the_row the_row self.entry result (λ w. w) self.old) }
        ensures same_reference { IfOk result (λ s. s.ghost_name ≡ self.entry.ghost_name) }
        ensures appended { IfOk result (λ s. Appends self.old s.now (operator_encoding (operators.GlobalGet global))) }
        ensures cause { IfErr result (Refuses self.old (operator_encoding (operators.GlobalGet global))) }
    {
        match self.push_global_get(global) {
            Ok(()) => Ok(self),
            Err(error) => Err(error),
        }
    }

    // Does what `global_set` does.
    #[tactic(auto, unfolding(wasm_encoder_instructions::specs::Instructions::instruction_encoding))]
    fn push_global_set(&mut self, global: u32) -> Result<(), EncodeError>
        ensures appended { IfOk result (λ _. Appends self.old self.new (operator_encoding (operators.GlobalSet global))) }
        ensures kept { IfErr result (λ _. self.new ≡ self.old) }
        ensures cause { IfErr result (Refuses self.old (operator_encoding (operators.GlobalSet global))) }
    {
        self.push(&Instruction::GlobalSet(global))
    }

    /// Appends [`Instruction::GlobalSet`].
    ///
    /// # Errors
    /// Those of [`InstructionSink::push`]. The sink is then as it was.
    pub fn global_set(&mut self, global: u32) -> Result<&mut InstructionSink, EncodeError>
        ensures* refused { sem 𝓛 (LendsIfOk the_row the_row self.entry result (λ w. w) self.old) }
        ensures same_reference { IfOk result (λ s. s.ghost_name ≡ self.entry.ghost_name) }
        ensures appended { IfOk result (λ s. Appends self.old s.now (operator_encoding (operators.GlobalSet global))) }
        ensures cause { IfErr result (Refuses self.old (operator_encoding (operators.GlobalSet global))) }
    {
        match self.push_global_set(global) {
            Ok(()) => Ok(self),
            Err(error) => Err(error),
        }
    }
}
