//! Calls of functions.

ghost use Rattle.std.specs.Prelude.{◌≡◌, IfOk, IfErr};
ghost use Rattle.wasm_bodies.specs.Operators as operators;
ghost use Rattle.wasm_encoder_instructions.specs.OperatorEncodings.{operator_encoding};
ghost use Rattle.wasm_encoder_bodies.specs.Sinks.{Appends, Refuses};

use crate::instruction_sink::InstructionSink;
use wasm_core_write::encode_error::EncodeError;
use wasm_encoder_instructions::instruction::Instruction;

impl InstructionSink {
    ghost use Rattle.std.specs.Borrow.{sem, LendsIfOk};
    ghost use Rattle.wasm_encoder_bodies.specs.contracts.instruction_sink.InstructionSink.{the_row};

    // Does what `call` does.
    #[tactic(auto, unfolding(wasm_encoder_instructions::specs::Instructions::instruction_encoding))]
    fn push_call(&mut self, function: u32) -> Result<(), EncodeError>
        ensures appended { IfOk result (λ _. Appends self.old self.new (operator_encoding (operators.Call function))) }
        ensures kept { IfErr result (λ _. self.new ≡ self.old) }
        ensures cause { IfErr result (Refuses self.old (operator_encoding (operators.Call function))) }
    {
        self.push(&Instruction::Call(function))
    }

    /// Appends [`Instruction::Call`].
    ///
    /// # Errors
    /// Those of [`InstructionSink::push`]. The sink is then as it was.
    pub fn call(&mut self, function: u32) -> Result<&mut InstructionSink, EncodeError>
        ensures* refused { sem 𝓛 (LendsIfOk the_row the_row self.entry result (λ w. w) self.old) }
        ensures same_reference { IfOk result (λ s. s.ghost_name ≡ self.entry.ghost_name) }
        ensures appended { IfOk result (λ s. Appends self.old s.now (operator_encoding (operators.Call function))) }
        ensures cause { IfErr result (Refuses self.old (operator_encoding (operators.Call function))) }
    {
        match self.push_call(function) {
            Ok(()) => Ok(self),
            Err(error) => Err(error),
        }
    }

    // Does what `call_ref` does.
    #[tactic(auto, unfolding(wasm_encoder_instructions::specs::Instructions::instruction_encoding))]
    fn push_call_ref(&mut self, type_index: u32) -> Result<(), EncodeError>
        ensures appended { IfOk result (λ _. Appends self.old self.new (operator_encoding (operators.CallRef type_index))) }
        ensures kept { IfErr result (λ _. self.new ≡ self.old) }
        ensures cause { IfErr result (Refuses self.old (operator_encoding (operators.CallRef type_index))) }
    {
        self.push(&Instruction::CallRef(type_index))
    }

    /// Appends [`Instruction::CallRef`].
    ///
    /// # Errors
    /// Those of [`InstructionSink::push`]. The sink is then as it was.
    pub fn call_ref(&mut self, type_index: u32) -> Result<&mut InstructionSink, EncodeError>
        ensures* refused { sem 𝓛 (LendsIfOk the_row the_row self.entry result (λ w. w) self.old) }
        ensures same_reference { IfOk result (λ s. s.ghost_name ≡ self.entry.ghost_name) }
        ensures appended { IfOk result (λ s. Appends self.old s.now (operator_encoding (operators.CallRef type_index))) }
        ensures cause { IfErr result (Refuses self.old (operator_encoding (operators.CallRef type_index))) }
    {
        match self.push_call_ref(type_index) {
            Ok(()) => Ok(self),
            Err(error) => Err(error),
        }
    }

    // Does what `call_indirect` does.
    #[tactic(auto, unfolding(wasm_encoder_instructions::specs::Instructions::instruction_encoding))]
    fn push_call_indirect(&mut self, table_index: u32, type_index: u32) -> Result<(), EncodeError>
        ensures appended { IfOk result (λ _. Appends self.old self.new (operator_encoding (operators.CallIndirect type_index table_index))) }
        ensures kept { IfErr result (λ _. self.new ≡ self.old) }
        ensures cause { IfErr result (Refuses self.old (operator_encoding (operators.CallIndirect type_index table_index))) }
    {
        self.push(&Instruction::CallIndirect {
            type_index,
            table_index,
        })
    }

    /// Appends [`Instruction::CallIndirect`].
    ///
    /// # Errors
    /// Those of [`InstructionSink::push`]. The sink is then as it was.
    pub fn call_indirect(
        &mut self,
        table_index: u32,
        type_index: u32,
    ) -> Result<&mut InstructionSink, EncodeError>
        ensures* refused { sem 𝓛 (LendsIfOk the_row the_row self.entry result (λ w. w) self.old) }
        ensures same_reference { IfOk result (λ s. s.ghost_name ≡ self.entry.ghost_name) }
        ensures appended { IfOk result (λ s. Appends self.old s.now (operator_encoding (operators.CallIndirect type_index table_index))) }
        ensures cause { IfErr result (Refuses self.old (operator_encoding (operators.CallIndirect type_index table_index))) }
    {
        match self.push_call_indirect(table_index, type_index) {
            Ok(()) => Ok(self),
            Err(error) => Err(error),
        }
    }

    // Does what `return_call_ref` does.
    #[tactic(auto, unfolding(wasm_encoder_instructions::specs::Instructions::instruction_encoding))]
    fn push_return_call_ref(&mut self, type_index: u32) -> Result<(), EncodeError>
        ensures appended { IfOk result (λ _. Appends self.old self.new (operator_encoding (operators.ReturnCallRef type_index))) }
        ensures kept { IfErr result (λ _. self.new ≡ self.old) }
        ensures cause { IfErr result (Refuses self.old (operator_encoding (operators.ReturnCallRef type_index))) }
    {
        self.push(&Instruction::ReturnCallRef(type_index))
    }

    /// Appends [`Instruction::ReturnCallRef`].
    ///
    /// # Errors
    /// Those of [`InstructionSink::push`]. The sink is then as it was.
    pub fn return_call_ref(&mut self, type_index: u32) -> Result<&mut InstructionSink, EncodeError>
        ensures* refused { sem 𝓛 (LendsIfOk the_row the_row self.entry result (λ w. w) self.old) }
        ensures same_reference { IfOk result (λ s. s.ghost_name ≡ self.entry.ghost_name) }
        ensures appended { IfOk result (λ s. Appends self.old s.now (operator_encoding (operators.ReturnCallRef type_index))) }
        ensures cause { IfErr result (Refuses self.old (operator_encoding (operators.ReturnCallRef type_index))) }
    {
        match self.push_return_call_ref(type_index) {
            Ok(()) => Ok(self),
            Err(error) => Err(error),
        }
    }

    // Does what `return_call` does.
    #[tactic(auto, unfolding(wasm_encoder_instructions::specs::Instructions::instruction_encoding))]
    fn push_return_call(&mut self, function: u32) -> Result<(), EncodeError>
        ensures appended { IfOk result (λ _. Appends self.old self.new (operator_encoding (operators.ReturnCall function))) }
        ensures kept { IfErr result (λ _. self.new ≡ self.old) }
        ensures cause { IfErr result (Refuses self.old (operator_encoding (operators.ReturnCall function))) }
    {
        self.push(&Instruction::ReturnCall(function))
    }

    /// Appends [`Instruction::ReturnCall`].
    ///
    /// # Errors
    /// Those of [`InstructionSink::push`]. The sink is then as it was.
    pub fn return_call(&mut self, function: u32) -> Result<&mut InstructionSink, EncodeError>
        ensures* refused { sem 𝓛 (LendsIfOk the_row the_row self.entry result (λ w. w) self.old) }
        ensures same_reference { IfOk result (λ s. s.ghost_name ≡ self.entry.ghost_name) }
        ensures appended { IfOk result (λ s. Appends self.old s.now (operator_encoding (operators.ReturnCall function))) }
        ensures cause { IfErr result (Refuses self.old (operator_encoding (operators.ReturnCall function))) }
    {
        match self.push_return_call(function) {
            Ok(()) => Ok(self),
            Err(error) => Err(error),
        }
    }

    // Does what `return_call_indirect` does.
    #[tactic(auto, unfolding(wasm_encoder_instructions::specs::Instructions::instruction_encoding))]
    fn push_return_call_indirect(
        &mut self,
        table_index: u32,
        type_index: u32,
    ) -> Result<(), EncodeError>
        ensures appended { IfOk result (λ _. Appends self.old self.new (operator_encoding (operators.ReturnCallIndirect type_index table_index))) }
        ensures kept { IfErr result (λ _. self.new ≡ self.old) }
        ensures cause { IfErr result (Refuses self.old (operator_encoding (operators.ReturnCallIndirect type_index table_index))) }
    {
        self.push(&Instruction::ReturnCallIndirect {
            type_index,
            table_index,
        })
    }

    /// Appends [`Instruction::ReturnCallIndirect`].
    ///
    /// # Errors
    /// Those of [`InstructionSink::push`]. The sink is then as it was.
    pub fn return_call_indirect(
        &mut self,
        table_index: u32,
        type_index: u32,
    ) -> Result<&mut InstructionSink, EncodeError>
        ensures* refused { sem 𝓛 (LendsIfOk the_row the_row self.entry result (λ w. w) self.old) }
        ensures same_reference { IfOk result (λ s. s.ghost_name ≡ self.entry.ghost_name) }
        ensures appended { IfOk result (λ s. Appends self.old s.now (operator_encoding (operators.ReturnCallIndirect type_index table_index))) }
        ensures cause { IfErr result (Refuses self.old (operator_encoding (operators.ReturnCallIndirect type_index table_index))) }
    {
        match self.push_return_call_indirect(table_index, type_index) {
            Ok(()) => Ok(self),
            Err(error) => Err(error),
        }
    }
}
