//! Tables and element segments.

ghost use Rattle.std.specs.Prelude.{◌≡◌, IfOk, IfErr};
ghost use Rattle.wasm_bodies.specs.Operators as operators;
ghost use Rattle.wasm_encoder_instructions.specs.OperatorEncodings.{operator_encoding};
ghost use Rattle.wasm_encoder_bodies.specs.Sinks.{Appends, Refuses};

use crate::instruction_sink::InstructionSink;
use wasm_core_write::encode_error::EncodeError;
use wasm_encoder_instructions::instruction::Instruction;

impl InstructionSink {
    ghost use Rattle.std.specs.Borrow.{sem, LendsIfOk};
    ghost use Rattle.wasm_encoder_bodies.specs.contracts.instruction_sink.InstructionSink.{the_row};

    // Does what `table_init` does.
    #[tactic(auto, unfolding(wasm_encoder_instructions::specs::Instructions::instruction_encoding))]
    fn push_table_init(&mut self, table: u32, elem_index: u32) -> Result<(), EncodeError>
        ensures appended { IfOk result (λ _. Appends self.old self.new (operator_encoding (operators.TableInit elem_index table))) }
        ensures kept { IfErr result (λ _. self.new ≡ self.old) }
        ensures cause { IfErr result (Refuses self.old (operator_encoding (operators.TableInit elem_index table))) }
    {
        self.push(&Instruction::TableInit { elem_index, table })
    }

    /// Appends [`Instruction::TableInit`].
    ///
    /// # Errors
    /// Those of [`InstructionSink::push`]. The sink is then as it was.
    pub fn table_init(
        &mut self,
        table: u32,
        elem_index: u32,
    ) -> Result<&mut InstructionSink, EncodeError>
        ensures* refused { sem 𝓛 (LendsIfOk the_row the_row self.entry result (λ w. w) self.old) }
        ensures same_reference { IfOk result (λ s. s.ghost_name ≡ self.entry.ghost_name) }
        ensures appended { IfOk result (λ s. Appends self.old s.now (operator_encoding (operators.TableInit elem_index table))) }
        ensures cause { IfErr result (Refuses self.old (operator_encoding (operators.TableInit elem_index table))) }
    {
        match self.push_table_init(table, elem_index) {
            Ok(()) => Ok(self),
            Err(error) => Err(error),
        }
    }

    // Does what `elem_drop` does.
    #[tactic(auto, unfolding(wasm_encoder_instructions::specs::Instructions::instruction_encoding))]
    fn push_elem_drop(&mut self, segment: u32) -> Result<(), EncodeError>
        ensures appended { IfOk result (λ _. Appends self.old self.new (operator_encoding (operators.ElemDrop segment))) }
        ensures kept { IfErr result (λ _. self.new ≡ self.old) }
        ensures cause { IfErr result (Refuses self.old (operator_encoding (operators.ElemDrop segment))) }
    {
        self.push(&Instruction::ElemDrop(segment))
    }

    /// Appends [`Instruction::ElemDrop`].
    ///
    /// # Errors
    /// Those of [`InstructionSink::push`]. The sink is then as it was.
    pub fn elem_drop(&mut self, segment: u32) -> Result<&mut InstructionSink, EncodeError>
        ensures* refused { sem 𝓛 (LendsIfOk the_row the_row self.entry result (λ w. w) self.old) }
        ensures same_reference { IfOk result (λ s. s.ghost_name ≡ self.entry.ghost_name) }
        ensures appended { IfOk result (λ s. Appends self.old s.now (operator_encoding (operators.ElemDrop segment))) }
        ensures cause { IfErr result (Refuses self.old (operator_encoding (operators.ElemDrop segment))) }
    {
        match self.push_elem_drop(segment) {
            Ok(()) => Ok(self),
            Err(error) => Err(error),
        }
    }

    // Does what `table_fill` does.
    #[tactic(auto, unfolding(wasm_encoder_instructions::specs::Instructions::instruction_encoding))]
    fn push_table_fill(&mut self, table: u32) -> Result<(), EncodeError>
        ensures appended { IfOk result (λ _. Appends self.old self.new (operator_encoding (operators.TableFill table))) }
        ensures kept { IfErr result (λ _. self.new ≡ self.old) }
        ensures cause { IfErr result (Refuses self.old (operator_encoding (operators.TableFill table))) }
    {
        self.push(&Instruction::TableFill(table))
    }

    /// Appends [`Instruction::TableFill`].
    ///
    /// # Errors
    /// Those of [`InstructionSink::push`]. The sink is then as it was.
    pub fn table_fill(&mut self, table: u32) -> Result<&mut InstructionSink, EncodeError>
        ensures* refused { sem 𝓛 (LendsIfOk the_row the_row self.entry result (λ w. w) self.old) }
        ensures same_reference { IfOk result (λ s. s.ghost_name ≡ self.entry.ghost_name) }
        ensures appended { IfOk result (λ s. Appends self.old s.now (operator_encoding (operators.TableFill table))) }
        ensures cause { IfErr result (Refuses self.old (operator_encoding (operators.TableFill table))) }
    {
        match self.push_table_fill(table) {
            Ok(()) => Ok(self),
            Err(error) => Err(error),
        }
    }

    // Does what `table_set` does.
    #[tactic(auto, unfolding(wasm_encoder_instructions::specs::Instructions::instruction_encoding))]
    fn push_table_set(&mut self, table: u32) -> Result<(), EncodeError>
        ensures appended { IfOk result (λ _. Appends self.old self.new (operator_encoding (operators.TableSet table))) }
        ensures kept { IfErr result (λ _. self.new ≡ self.old) }
        ensures cause { IfErr result (Refuses self.old (operator_encoding (operators.TableSet table))) }
    {
        self.push(&Instruction::TableSet(table))
    }

    /// Appends [`Instruction::TableSet`].
    ///
    /// # Errors
    /// Those of [`InstructionSink::push`]. The sink is then as it was.
    pub fn table_set(&mut self, table: u32) -> Result<&mut InstructionSink, EncodeError>
        ensures* refused { sem 𝓛 (LendsIfOk the_row the_row self.entry result (λ w. w) self.old) }
        ensures same_reference { IfOk result (λ s. s.ghost_name ≡ self.entry.ghost_name) }
        ensures appended { IfOk result (λ s. Appends self.old s.now (operator_encoding (operators.TableSet table))) }
        ensures cause { IfErr result (Refuses self.old (operator_encoding (operators.TableSet table))) }
    {
        match self.push_table_set(table) {
            Ok(()) => Ok(self),
            Err(error) => Err(error),
        }
    }

    // Does what `table_get` does.
    #[tactic(auto, unfolding(wasm_encoder_instructions::specs::Instructions::instruction_encoding))]
    fn push_table_get(&mut self, table: u32) -> Result<(), EncodeError>
        ensures appended { IfOk result (λ _. Appends self.old self.new (operator_encoding (operators.TableGet table))) }
        ensures kept { IfErr result (λ _. self.new ≡ self.old) }
        ensures cause { IfErr result (Refuses self.old (operator_encoding (operators.TableGet table))) }
    {
        self.push(&Instruction::TableGet(table))
    }

    /// Appends [`Instruction::TableGet`].
    ///
    /// # Errors
    /// Those of [`InstructionSink::push`]. The sink is then as it was.
    pub fn table_get(&mut self, table: u32) -> Result<&mut InstructionSink, EncodeError>
        ensures* refused { sem 𝓛 (LendsIfOk the_row the_row self.entry result (λ w. w) self.old) }
        ensures same_reference { IfOk result (λ s. s.ghost_name ≡ self.entry.ghost_name) }
        ensures appended { IfOk result (λ s. Appends self.old s.now (operator_encoding (operators.TableGet table))) }
        ensures cause { IfErr result (Refuses self.old (operator_encoding (operators.TableGet table))) }
    {
        match self.push_table_get(table) {
            Ok(()) => Ok(self),
            Err(error) => Err(error),
        }
    }

    // Does what `table_grow` does.
    #[tactic(auto, unfolding(wasm_encoder_instructions::specs::Instructions::instruction_encoding))]
    fn push_table_grow(&mut self, table: u32) -> Result<(), EncodeError>
        ensures appended { IfOk result (λ _. Appends self.old self.new (operator_encoding (operators.TableGrow table))) }
        ensures kept { IfErr result (λ _. self.new ≡ self.old) }
        ensures cause { IfErr result (Refuses self.old (operator_encoding (operators.TableGrow table))) }
    {
        self.push(&Instruction::TableGrow(table))
    }

    /// Appends [`Instruction::TableGrow`].
    ///
    /// # Errors
    /// Those of [`InstructionSink::push`]. The sink is then as it was.
    pub fn table_grow(&mut self, table: u32) -> Result<&mut InstructionSink, EncodeError>
        ensures* refused { sem 𝓛 (LendsIfOk the_row the_row self.entry result (λ w. w) self.old) }
        ensures same_reference { IfOk result (λ s. s.ghost_name ≡ self.entry.ghost_name) }
        ensures appended { IfOk result (λ s. Appends self.old s.now (operator_encoding (operators.TableGrow table))) }
        ensures cause { IfErr result (Refuses self.old (operator_encoding (operators.TableGrow table))) }
    {
        match self.push_table_grow(table) {
            Ok(()) => Ok(self),
            Err(error) => Err(error),
        }
    }

    // Does what `table_size` does.
    #[tactic(auto, unfolding(wasm_encoder_instructions::specs::Instructions::instruction_encoding))]
    fn push_table_size(&mut self, table: u32) -> Result<(), EncodeError>
        ensures appended { IfOk result (λ _. Appends self.old self.new (operator_encoding (operators.TableSize table))) }
        ensures kept { IfErr result (λ _. self.new ≡ self.old) }
        ensures cause { IfErr result (Refuses self.old (operator_encoding (operators.TableSize table))) }
    {
        self.push(&Instruction::TableSize(table))
    }

    /// Appends [`Instruction::TableSize`].
    ///
    /// # Errors
    /// Those of [`InstructionSink::push`]. The sink is then as it was.
    pub fn table_size(&mut self, table: u32) -> Result<&mut InstructionSink, EncodeError>
        ensures* refused { sem 𝓛 (LendsIfOk the_row the_row self.entry result (λ w. w) self.old) }
        ensures same_reference { IfOk result (λ s. s.ghost_name ≡ self.entry.ghost_name) }
        ensures appended { IfOk result (λ s. Appends self.old s.now (operator_encoding (operators.TableSize table))) }
        ensures cause { IfErr result (Refuses self.old (operator_encoding (operators.TableSize table))) }
    {
        match self.push_table_size(table) {
            Ok(()) => Ok(self),
            Err(error) => Err(error),
        }
    }

    // Does what `table_copy` does.
    #[tactic(auto, unfolding(wasm_encoder_instructions::specs::Instructions::instruction_encoding))]
    fn push_table_copy(&mut self, dst_table: u32, src_table: u32) -> Result<(), EncodeError>
        ensures appended { IfOk result (λ _. Appends self.old self.new (operator_encoding (operators.TableCopy dst_table src_table))) }
        ensures kept { IfErr result (λ _. self.new ≡ self.old) }
        ensures cause { IfErr result (Refuses self.old (operator_encoding (operators.TableCopy dst_table src_table))) }
    {
        self.push(&Instruction::TableCopy {
            src_table,
            dst_table,
        })
    }

    /// Appends [`Instruction::TableCopy`].
    ///
    /// # Errors
    /// Those of [`InstructionSink::push`]. The sink is then as it was.
    pub fn table_copy(
        &mut self,
        dst_table: u32,
        src_table: u32,
    ) -> Result<&mut InstructionSink, EncodeError>
        ensures* refused { sem 𝓛 (LendsIfOk the_row the_row self.entry result (λ w. w) self.old) }
        ensures same_reference { IfOk result (λ s. s.ghost_name ≡ self.entry.ghost_name) }
        ensures appended { IfOk result (λ s. Appends self.old s.now (operator_encoding (operators.TableCopy dst_table src_table))) }
        ensures cause { IfErr result (Refuses self.old (operator_encoding (operators.TableCopy dst_table src_table))) }
    {
        match self.push_table_copy(dst_table, src_table) {
            Ok(()) => Ok(self),
            Err(error) => Err(error),
        }
    }
}
