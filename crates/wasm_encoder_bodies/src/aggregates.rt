//! Structures and arrays.

ghost use Rattle.std.specs.Prelude.{◌≡◌, IfOk, IfErr};
ghost use Rattle.wasm_bodies.specs.Operators as operators;
ghost use Rattle.wasm_encoder_instructions.specs.OperatorEncodings.{operator_encoding};
ghost use Rattle.wasm_encoder_bodies.specs.Sinks.{Appends, Refuses};

use crate::instruction_sink::InstructionSink;
use wasm_core_write::encode_error::EncodeError;
use wasm_encoder_instructions::instruction::Instruction;

impl InstructionSink {
    ghost use Rattle.std.specs.Borrow.{sem, LendsIfOk};
    ghost use Rattle.wasm_encoder_bodies.specs.contracts.instruction_sink.InstructionSink.{the_row};

    // Does what `struct_new` does.
    #[tactic(auto, unfolding(wasm_encoder_instructions::specs::Instructions::instruction_encoding))]
    fn push_struct_new(&mut self, type_index: u32) -> Result<(), EncodeError>
        ensures appended { IfOk result (λ _. Appends self.old self.new (operator_encoding (operators.StructNew type_index))) }
        ensures kept { IfErr result (λ _. self.new ≡ self.old) }
        ensures cause { IfErr result (Refuses self.old (operator_encoding (operators.StructNew type_index))) }
    {
        self.push(&Instruction::StructNew(type_index))
    }

    /// Appends [`Instruction::StructNew`].
    ///
    /// # Errors
    /// Those of [`InstructionSink::push`]. The sink is then as it was.
    pub fn struct_new(&mut self, type_index: u32) -> Result<&mut InstructionSink, EncodeError>
        ensures* refused { sem 𝓛 (LendsIfOk the_row the_row self.entry result (λ w. w) self.old) }
        ensures same_reference { IfOk result (λ s. s.ghost_name ≡ self.entry.ghost_name) }
        ensures appended { IfOk result (λ s. Appends self.old s.now (operator_encoding (operators.StructNew type_index))) }
        ensures cause { IfErr result (Refuses self.old (operator_encoding (operators.StructNew type_index))) }
    {
        match self.push_struct_new(type_index) {
            Ok(()) => Ok(self),
            Err(error) => Err(error),
        }
    }

    // Does what `struct_new_default` does.
    #[tactic(auto, unfolding(wasm_encoder_instructions::specs::Instructions::instruction_encoding))]
    fn push_struct_new_default(&mut self, type_index: u32) -> Result<(), EncodeError>
        ensures appended { IfOk result (λ _. Appends self.old self.new (operator_encoding (operators.StructNewDefault type_index))) }
        ensures kept { IfErr result (λ _. self.new ≡ self.old) }
        ensures cause { IfErr result (Refuses self.old (operator_encoding (operators.StructNewDefault type_index))) }
    {
        self.push(&Instruction::StructNewDefault(type_index))
    }

    /// Appends [`Instruction::StructNewDefault`].
    ///
    /// # Errors
    /// Those of [`InstructionSink::push`]. The sink is then as it was.
    pub fn struct_new_default(
        &mut self,
        type_index: u32,
    ) -> Result<&mut InstructionSink, EncodeError>
        ensures* refused { sem 𝓛 (LendsIfOk the_row the_row self.entry result (λ w. w) self.old) }
        ensures same_reference { IfOk result (λ s. s.ghost_name ≡ self.entry.ghost_name) }
        ensures appended { IfOk result (λ s. Appends self.old s.now (operator_encoding (operators.StructNewDefault type_index))) }
        ensures cause { IfErr result (Refuses self.old (operator_encoding (operators.StructNewDefault type_index))) }
    {
        match self.push_struct_new_default(type_index) {
            Ok(()) => Ok(self),
            Err(error) => Err(error),
        }
    }

    // Does what `array_new` does.
    #[tactic(auto, unfolding(wasm_encoder_instructions::specs::Instructions::instruction_encoding))]
    fn push_array_new(&mut self, type_index: u32) -> Result<(), EncodeError>
        ensures appended { IfOk result (λ _. Appends self.old self.new (operator_encoding (operators.ArrayNew type_index))) }
        ensures kept { IfErr result (λ _. self.new ≡ self.old) }
        ensures cause { IfErr result (Refuses self.old (operator_encoding (operators.ArrayNew type_index))) }
    {
        self.push(&Instruction::ArrayNew(type_index))
    }

    /// Appends [`Instruction::ArrayNew`].
    ///
    /// # Errors
    /// Those of [`InstructionSink::push`]. The sink is then as it was.
    pub fn array_new(&mut self, type_index: u32) -> Result<&mut InstructionSink, EncodeError>
        ensures* refused { sem 𝓛 (LendsIfOk the_row the_row self.entry result (λ w. w) self.old) }
        ensures same_reference { IfOk result (λ s. s.ghost_name ≡ self.entry.ghost_name) }
        ensures appended { IfOk result (λ s. Appends self.old s.now (operator_encoding (operators.ArrayNew type_index))) }
        ensures cause { IfErr result (Refuses self.old (operator_encoding (operators.ArrayNew type_index))) }
    {
        match self.push_array_new(type_index) {
            Ok(()) => Ok(self),
            Err(error) => Err(error),
        }
    }

    // Does what `array_new_default` does.
    #[tactic(auto, unfolding(wasm_encoder_instructions::specs::Instructions::instruction_encoding))]
    fn push_array_new_default(&mut self, type_index: u32) -> Result<(), EncodeError>
        ensures appended { IfOk result (λ _. Appends self.old self.new (operator_encoding (operators.ArrayNewDefault type_index))) }
        ensures kept { IfErr result (λ _. self.new ≡ self.old) }
        ensures cause { IfErr result (Refuses self.old (operator_encoding (operators.ArrayNewDefault type_index))) }
    {
        self.push(&Instruction::ArrayNewDefault(type_index))
    }

    /// Appends [`Instruction::ArrayNewDefault`].
    ///
    /// # Errors
    /// Those of [`InstructionSink::push`]. The sink is then as it was.
    pub fn array_new_default(
        &mut self,
        type_index: u32,
    ) -> Result<&mut InstructionSink, EncodeError>
        ensures* refused { sem 𝓛 (LendsIfOk the_row the_row self.entry result (λ w. w) self.old) }
        ensures same_reference { IfOk result (λ s. s.ghost_name ≡ self.entry.ghost_name) }
        ensures appended { IfOk result (λ s. Appends self.old s.now (operator_encoding (operators.ArrayNewDefault type_index))) }
        ensures cause { IfErr result (Refuses self.old (operator_encoding (operators.ArrayNewDefault type_index))) }
    {
        match self.push_array_new_default(type_index) {
            Ok(()) => Ok(self),
            Err(error) => Err(error),
        }
    }

    // Does what `array_new_fixed` does.
    #[tactic(auto, unfolding(wasm_encoder_instructions::specs::Instructions::instruction_encoding))]
    fn push_array_new_fixed(
        &mut self,
        array_type_index: u32,
        array_size: u32,
    ) -> Result<(), EncodeError>
        ensures appended { IfOk result (λ _. Appends self.old self.new (operator_encoding (operators.ArrayNewFixed array_type_index array_size))) }
        ensures kept { IfErr result (λ _. self.new ≡ self.old) }
        ensures cause { IfErr result (Refuses self.old (operator_encoding (operators.ArrayNewFixed array_type_index array_size))) }
    {
        self.push(&Instruction::ArrayNewFixed {
            array_type_index,
            array_size,
        })
    }

    /// Appends [`Instruction::ArrayNewFixed`].
    ///
    /// # Errors
    /// Those of [`InstructionSink::push`]. The sink is then as it was.
    pub fn array_new_fixed(
        &mut self,
        array_type_index: u32,
        array_size: u32,
    ) -> Result<&mut InstructionSink, EncodeError>
        ensures* refused { sem 𝓛 (LendsIfOk the_row the_row self.entry result (λ w. w) self.old) }
        ensures same_reference { IfOk result (λ s. s.ghost_name ≡ self.entry.ghost_name) }
        ensures appended { IfOk result (λ s. Appends self.old s.now (operator_encoding (operators.ArrayNewFixed array_type_index array_size))) }
        ensures cause { IfErr result (Refuses self.old (operator_encoding (operators.ArrayNewFixed array_type_index array_size))) }
    {
        match self.push_array_new_fixed(array_type_index, array_size) {
            Ok(()) => Ok(self),
            Err(error) => Err(error),
        }
    }
}
