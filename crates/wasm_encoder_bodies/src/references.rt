//! References, and operands of any type.

ghost use Rattle.std.specs.Prelude.{◌≡◌, [], ◌∷◌, IfOk, IfErr, map};
ghost use Rattle.wasm_bodies.specs.Operators as operators;
ghost use Rattle.wasm_core_types.specs.CoreTypes.{val_type};
ghost use Rattle.wasm_core_types.specs.CoreTypes.{heap_type};
ghost use Rattle.wasm_encoder_instructions.specs.OperatorEncodings.{operator_encoding};
ghost use Rattle.wasm_encoder_bodies.specs.Sinks.{Appends, Refuses};

use crate::instruction_sink::InstructionSink;
use wasm_core_types::types::{HeapType, ValType};
use wasm_core_write::encode_error::EncodeError;
use wasm_encoder_instructions::instruction::Instruction;

impl InstructionSink {
    ghost use Rattle.std.specs.Borrow.{sem, LendsIfOk};
    ghost use Rattle.wasm_encoder_bodies.specs.contracts.instruction_sink.InstructionSink.{the_row};

    // Does what `typed_select` does.
    #[tactic(auto, unfolding(wasm_encoder_instructions::specs::Instructions::instruction_encoding))]
    fn push_typed_select(&mut self, ty: ValType) -> Result<(), EncodeError>
        ensures appended { IfOk result (λ _. Appends self.old self.new (operator_encoding (operators.SelectTyped (val_type ty ∷ [])))) }
        ensures kept { IfErr result (λ _. self.new ≡ self.old) }
        ensures cause { IfErr result (Refuses self.old (operator_encoding (operators.SelectTyped (val_type ty ∷ [])))) }
    {
        self.push(&Instruction::TypedSelect(ty))
    }

    /// Appends [`Instruction::TypedSelect`].
    ///
    /// # Errors
    /// Those of [`InstructionSink::push`]. The sink is then as it was.
    pub fn typed_select(&mut self, ty: ValType) -> Result<&mut InstructionSink, EncodeError>
        ensures* refused { sem 𝓛 (LendsIfOk the_row the_row self.entry result (λ w. w) self.old) }
        ensures same_reference { IfOk result (λ s. s.ghost_name ≡ self.entry.ghost_name) }
        ensures appended { IfOk result (λ s. Appends self.old s.now (operator_encoding (operators.SelectTyped (val_type ty ∷ [])))) }
        ensures cause { IfErr result (Refuses self.old (operator_encoding (operators.SelectTyped (val_type ty ∷ [])))) }
    {
        match self.push_typed_select(ty) {
            Ok(()) => Ok(self),
            Err(error) => Err(error),
        }
    }

    // Does what `typed_select_multi` does.
    #[tactic(auto, unfolding(wasm_encoder_instructions::specs::Instructions::instruction_encoding))]
    fn push_typed_select_multi(&mut self, types: &[ValType]) -> Result<(), EncodeError>
        ensures appended { IfOk result (λ _. Appends self.old self.new (operator_encoding (operators.SelectTyped (map val_type types.now)))) }
        ensures kept { IfErr result (λ _. self.new ≡ self.old) }
        ensures cause { IfErr result (Refuses self.old (operator_encoding (operators.SelectTyped (map val_type types.now)))) }
    {
        self.push(&Instruction::TypedSelectMulti(types))
    }

    /// Appends [`Instruction::TypedSelectMulti`].
    ///
    /// # Errors
    /// Those of [`InstructionSink::push`]. The sink is then as it was.
    pub fn typed_select_multi(
        &mut self,
        types: &[ValType],
    ) -> Result<&mut InstructionSink, EncodeError>
        ensures* refused { sem 𝓛 (LendsIfOk the_row the_row self.entry result (λ w. w) self.old) }
        ensures same_reference { IfOk result (λ s. s.ghost_name ≡ self.entry.ghost_name) }
        ensures appended { IfOk result (λ s. Appends self.old s.now (operator_encoding (operators.SelectTyped (map val_type types.now)))) }
        ensures cause { IfErr result (Refuses self.old (operator_encoding (operators.SelectTyped (map val_type types.now)))) }
    {
        match self.push_typed_select_multi(types) {
            Ok(()) => Ok(self),
            Err(error) => Err(error),
        }
    }

    // Does what `ref_null` does.
    #[tactic(auto, unfolding(wasm_encoder_instructions::specs::Instructions::instruction_encoding))]
    fn push_ref_null(&mut self, ty: HeapType) -> Result<(), EncodeError>
        ensures appended { IfOk result (λ _. Appends self.old self.new (operator_encoding (operators.RefNull (heap_type ty)))) }
        ensures kept { IfErr result (λ _. self.new ≡ self.old) }
        ensures cause { IfErr result (Refuses self.old (operator_encoding (operators.RefNull (heap_type ty)))) }
    {
        self.push(&Instruction::RefNull(ty))
    }

    /// Appends [`Instruction::RefNull`].
    ///
    /// # Errors
    /// Those of [`InstructionSink::push`]. The sink is then as it was.
    pub fn ref_null(&mut self, ty: HeapType) -> Result<&mut InstructionSink, EncodeError>
        ensures* refused { sem 𝓛 (LendsIfOk the_row the_row self.entry result (λ w. w) self.old) }
        ensures same_reference { IfOk result (λ s. s.ghost_name ≡ self.entry.ghost_name) }
        ensures appended { IfOk result (λ s. Appends self.old s.now (operator_encoding (operators.RefNull (heap_type ty)))) }
        ensures cause { IfErr result (Refuses self.old (operator_encoding (operators.RefNull (heap_type ty)))) }
    {
        match self.push_ref_null(ty) {
            Ok(()) => Ok(self),
            Err(error) => Err(error),
        }
    }

    // Does what `ref_func` does.
    #[tactic(auto, unfolding(wasm_encoder_instructions::specs::Instructions::instruction_encoding))]
    fn push_ref_func(&mut self, function: u32) -> Result<(), EncodeError>
        ensures appended { IfOk result (λ _. Appends self.old self.new (operator_encoding (operators.RefFunc function))) }
        ensures kept { IfErr result (λ _. self.new ≡ self.old) }
        ensures cause { IfErr result (Refuses self.old (operator_encoding (operators.RefFunc function))) }
    {
        self.push(&Instruction::RefFunc(function))
    }

    /// Appends [`Instruction::RefFunc`].
    ///
    /// # Errors
    /// Those of [`InstructionSink::push`]. The sink is then as it was.
    pub fn ref_func(&mut self, function: u32) -> Result<&mut InstructionSink, EncodeError>
        ensures* refused { sem 𝓛 (LendsIfOk the_row the_row self.entry result (λ w. w) self.old) }
        ensures same_reference { IfOk result (λ s. s.ghost_name ≡ self.entry.ghost_name) }
        ensures appended { IfOk result (λ s. Appends self.old s.now (operator_encoding (operators.RefFunc function))) }
        ensures cause { IfErr result (Refuses self.old (operator_encoding (operators.RefFunc function))) }
    {
        match self.push_ref_func(function) {
            Ok(()) => Ok(self),
            Err(error) => Err(error),
        }
    }
}
