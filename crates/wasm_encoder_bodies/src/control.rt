//! Blocks and jumps.

ghost use Rattle.std.specs.Prelude.{◌≡◌, IfOk, IfErr};
ghost use Rattle.wasm_bodies.specs.Operators as operators;
ghost use Rattle.wasm_encoder_instructions.specs.Immediates.{block_type};
ghost use Rattle.wasm_encoder_instructions.specs.OperatorEncodings.{operator_encoding};
ghost use Rattle.wasm_encoder_bodies.specs.Sinks.{Appends, Refuses};

use crate::instruction_sink::InstructionSink;
use wasm_core_write::encode_error::EncodeError;
use wasm_encoder_instructions::block_type::BlockType;
use wasm_encoder_instructions::instruction::Instruction;

impl InstructionSink {
    ghost use Rattle.std.specs.Borrow.{sem, LendsIfOk};
    ghost use Rattle.wasm_encoder_bodies.specs.contracts.instruction_sink.InstructionSink.{the_row};

    // Does what `block` does.
    #[tactic(auto, unfolding(wasm_encoder_instructions::specs::Instructions::instruction_encoding))]
    fn push_block(&mut self, ty: BlockType) -> Result<(), EncodeError>
        ensures appended { IfOk result (λ _. Appends self.old self.new (operator_encoding (operators.Block (block_type ty)))) }
        ensures kept { IfErr result (λ _. self.new ≡ self.old) }
        ensures cause { IfErr result (Refuses self.old (operator_encoding (operators.Block (block_type ty)))) }
    {
        self.push(&Instruction::Block(ty))
    }

    /// Appends [`Instruction::Block`].
    ///
    /// # Errors
    /// Those of [`InstructionSink::push`]. The sink is then as it was.
    pub fn block(&mut self, ty: BlockType) -> Result<&mut InstructionSink, EncodeError>
        ensures* refused { sem 𝓛 (LendsIfOk the_row the_row self.entry result (λ w. w) self.old) }
        ensures same_reference { IfOk result (λ s. s.ghost_name ≡ self.entry.ghost_name) }
        ensures appended { IfOk result (λ s. Appends self.old s.now (operator_encoding (operators.Block (block_type ty)))) }
        ensures cause { IfErr result (Refuses self.old (operator_encoding (operators.Block (block_type ty)))) }
    {
        match self.push_block(ty) {
            Ok(()) => Ok(self),
            Err(error) => Err(error),
        }
    }

    // Does what `loop_` does.
    #[tactic(auto, unfolding(wasm_encoder_instructions::specs::Instructions::instruction_encoding))]
    fn push_loop(&mut self, ty: BlockType) -> Result<(), EncodeError>
        ensures appended { IfOk result (λ _. Appends self.old self.new (operator_encoding (operators.Loop (block_type ty)))) }
        ensures kept { IfErr result (λ _. self.new ≡ self.old) }
        ensures cause { IfErr result (Refuses self.old (operator_encoding (operators.Loop (block_type ty)))) }
    {
        self.push(&Instruction::Loop(ty))
    }

    /// Appends [`Instruction::Loop`].
    ///
    /// # Errors
    /// Those of [`InstructionSink::push`]. The sink is then as it was.
    pub fn loop_(&mut self, ty: BlockType) -> Result<&mut InstructionSink, EncodeError>
        ensures* refused { sem 𝓛 (LendsIfOk the_row the_row self.entry result (λ w. w) self.old) }
        ensures same_reference { IfOk result (λ s. s.ghost_name ≡ self.entry.ghost_name) }
        ensures appended { IfOk result (λ s. Appends self.old s.now (operator_encoding (operators.Loop (block_type ty)))) }
        ensures cause { IfErr result (Refuses self.old (operator_encoding (operators.Loop (block_type ty)))) }
    {
        match self.push_loop(ty) {
            Ok(()) => Ok(self),
            Err(error) => Err(error),
        }
    }

    // Does what `if_` does.
    #[tactic(auto, unfolding(wasm_encoder_instructions::specs::Instructions::instruction_encoding))]
    fn push_if(&mut self, ty: BlockType) -> Result<(), EncodeError>
        ensures appended { IfOk result (λ _. Appends self.old self.new (operator_encoding (operators.If (block_type ty)))) }
        ensures kept { IfErr result (λ _. self.new ≡ self.old) }
        ensures cause { IfErr result (Refuses self.old (operator_encoding (operators.If (block_type ty)))) }
    {
        self.push(&Instruction::If(ty))
    }

    /// Appends [`Instruction::If`].
    ///
    /// # Errors
    /// Those of [`InstructionSink::push`]. The sink is then as it was.
    pub fn if_(&mut self, ty: BlockType) -> Result<&mut InstructionSink, EncodeError>
        ensures* refused { sem 𝓛 (LendsIfOk the_row the_row self.entry result (λ w. w) self.old) }
        ensures same_reference { IfOk result (λ s. s.ghost_name ≡ self.entry.ghost_name) }
        ensures appended { IfOk result (λ s. Appends self.old s.now (operator_encoding (operators.If (block_type ty)))) }
        ensures cause { IfErr result (Refuses self.old (operator_encoding (operators.If (block_type ty)))) }
    {
        match self.push_if(ty) {
            Ok(()) => Ok(self),
            Err(error) => Err(error),
        }
    }

    // Does what `br` does.
    #[tactic(auto, unfolding(wasm_encoder_instructions::specs::Instructions::instruction_encoding))]
    fn push_br(&mut self, label: u32) -> Result<(), EncodeError>
        ensures appended { IfOk result (λ _. Appends self.old self.new (operator_encoding (operators.Br label))) }
        ensures kept { IfErr result (λ _. self.new ≡ self.old) }
        ensures cause { IfErr result (Refuses self.old (operator_encoding (operators.Br label))) }
    {
        self.push(&Instruction::Br(label))
    }

    /// Appends [`Instruction::Br`].
    ///
    /// # Errors
    /// Those of [`InstructionSink::push`]. The sink is then as it was.
    pub fn br(&mut self, label: u32) -> Result<&mut InstructionSink, EncodeError>
        ensures* refused { sem 𝓛 (LendsIfOk the_row the_row self.entry result (λ w. w) self.old) }
        ensures same_reference { IfOk result (λ s. s.ghost_name ≡ self.entry.ghost_name) }
        ensures appended { IfOk result (λ s. Appends self.old s.now (operator_encoding (operators.Br label))) }
        ensures cause { IfErr result (Refuses self.old (operator_encoding (operators.Br label))) }
    {
        match self.push_br(label) {
            Ok(()) => Ok(self),
            Err(error) => Err(error),
        }
    }

    // Does what `br_if` does.
    #[tactic(auto, unfolding(wasm_encoder_instructions::specs::Instructions::instruction_encoding))]
    fn push_br_if(&mut self, label: u32) -> Result<(), EncodeError>
        ensures appended { IfOk result (λ _. Appends self.old self.new (operator_encoding (operators.BrIf label))) }
        ensures kept { IfErr result (λ _. self.new ≡ self.old) }
        ensures cause { IfErr result (Refuses self.old (operator_encoding (operators.BrIf label))) }
    {
        self.push(&Instruction::BrIf(label))
    }

    /// Appends [`Instruction::BrIf`].
    ///
    /// # Errors
    /// Those of [`InstructionSink::push`]. The sink is then as it was.
    pub fn br_if(&mut self, label: u32) -> Result<&mut InstructionSink, EncodeError>
        ensures* refused { sem 𝓛 (LendsIfOk the_row the_row self.entry result (λ w. w) self.old) }
        ensures same_reference { IfOk result (λ s. s.ghost_name ≡ self.entry.ghost_name) }
        ensures appended { IfOk result (λ s. Appends self.old s.now (operator_encoding (operators.BrIf label))) }
        ensures cause { IfErr result (Refuses self.old (operator_encoding (operators.BrIf label))) }
    {
        match self.push_br_if(label) {
            Ok(()) => Ok(self),
            Err(error) => Err(error),
        }
    }

    // Does what `br_table` does.
    #[tactic(auto, unfolding(wasm_encoder_instructions::specs::Instructions::instruction_encoding))]
    fn push_br_table(&mut self, labels: &[u32], other: u32) -> Result<(), EncodeError>
        ensures appended { IfOk result (λ _. Appends self.old self.new (operator_encoding (operators.BrTable labels.now other))) }
        ensures kept { IfErr result (λ _. self.new ≡ self.old) }
        ensures cause { IfErr result (Refuses self.old (operator_encoding (operators.BrTable labels.now other))) }
    {
        self.push(&Instruction::BrTable(labels, other))
    }

    /// Appends [`Instruction::BrTable`].
    ///
    /// # Errors
    /// Those of [`InstructionSink::push`]. The sink is then as it was.
    pub fn br_table(
        &mut self,
        labels: &[u32],
        other: u32,
    ) -> Result<&mut InstructionSink, EncodeError>
        ensures* refused { sem 𝓛 (LendsIfOk the_row the_row self.entry result (λ w. w) self.old) }
        ensures same_reference { IfOk result (λ s. s.ghost_name ≡ self.entry.ghost_name) }
        ensures appended { IfOk result (λ s. Appends self.old s.now (operator_encoding (operators.BrTable labels.now other))) }
        ensures cause { IfErr result (Refuses self.old (operator_encoding (operators.BrTable labels.now other))) }
    {
        match self.push_br_table(labels, other) {
            Ok(()) => Ok(self),
            Err(error) => Err(error),
        }
    }

    // Does what `br_on_null` does.
    #[tactic(auto, unfolding(wasm_encoder_instructions::specs::Instructions::instruction_encoding))]
    fn push_br_on_null(&mut self, label: u32) -> Result<(), EncodeError>
        ensures appended { IfOk result (λ _. Appends self.old self.new (operator_encoding (operators.BrOnNull label))) }
        ensures kept { IfErr result (λ _. self.new ≡ self.old) }
        ensures cause { IfErr result (Refuses self.old (operator_encoding (operators.BrOnNull label))) }
    {
        self.push(&Instruction::BrOnNull(label))
    }

    /// Appends [`Instruction::BrOnNull`].
    ///
    /// # Errors
    /// Those of [`InstructionSink::push`]. The sink is then as it was.
    pub fn br_on_null(&mut self, label: u32) -> Result<&mut InstructionSink, EncodeError>
        ensures* refused { sem 𝓛 (LendsIfOk the_row the_row self.entry result (λ w. w) self.old) }
        ensures same_reference { IfOk result (λ s. s.ghost_name ≡ self.entry.ghost_name) }
        ensures appended { IfOk result (λ s. Appends self.old s.now (operator_encoding (operators.BrOnNull label))) }
        ensures cause { IfErr result (Refuses self.old (operator_encoding (operators.BrOnNull label))) }
    {
        match self.push_br_on_null(label) {
            Ok(()) => Ok(self),
            Err(error) => Err(error),
        }
    }

    // Does what `br_on_non_null` does.
    #[tactic(auto, unfolding(wasm_encoder_instructions::specs::Instructions::instruction_encoding))]
    fn push_br_on_non_null(&mut self, label: u32) -> Result<(), EncodeError>
        ensures appended { IfOk result (λ _. Appends self.old self.new (operator_encoding (operators.BrOnNonNull label))) }
        ensures kept { IfErr result (λ _. self.new ≡ self.old) }
        ensures cause { IfErr result (Refuses self.old (operator_encoding (operators.BrOnNonNull label))) }
    {
        self.push(&Instruction::BrOnNonNull(label))
    }

    /// Appends [`Instruction::BrOnNonNull`].
    ///
    /// # Errors
    /// Those of [`InstructionSink::push`]. The sink is then as it was.
    pub fn br_on_non_null(&mut self, label: u32) -> Result<&mut InstructionSink, EncodeError>
        ensures* refused { sem 𝓛 (LendsIfOk the_row the_row self.entry result (λ w. w) self.old) }
        ensures same_reference { IfOk result (λ s. s.ghost_name ≡ self.entry.ghost_name) }
        ensures appended { IfOk result (λ s. Appends self.old s.now (operator_encoding (operators.BrOnNonNull label))) }
        ensures cause { IfErr result (Refuses self.old (operator_encoding (operators.BrOnNonNull label))) }
    {
        match self.push_br_on_non_null(label) {
            Ok(()) => Ok(self),
            Err(error) => Err(error),
        }
    }
}
