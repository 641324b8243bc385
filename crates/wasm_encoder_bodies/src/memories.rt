//! Memories and data segments.

ghost use Rattle.std.specs.Prelude.{◌≡◌, IfOk, IfErr};
ghost use Rattle.wasm_bodies.specs.Operators as operators;
ghost use Rattle.wasm_encoder_instructions.specs.OperatorEncodings.{operator_encoding};
ghost use Rattle.wasm_encoder_bodies.specs.Sinks.{Appends, Refuses};

use crate::instruction_sink::InstructionSink;
use wasm_core_write::encode_error::EncodeError;
use wasm_encoder_instructions::instruction::Instruction;

impl InstructionSink {
    ghost use Rattle.std.specs.Borrow.{sem, LendsIfOk};
    ghost use Rattle.wasm_encoder_bodies.specs.contracts.instruction_sink.InstructionSink.{the_row};

    // Does what `memory_size` does.
    #[tactic(auto, unfolding(wasm_encoder_instructions::specs::Instructions::instruction_encoding))]
    fn push_memory_size(&mut self, memory: u32) -> Result<(), EncodeError>
        ensures appended { IfOk result (λ _. Appends self.old self.new (operator_encoding (operators.MemorySize memory))) }
        ensures kept { IfErr result (λ _. self.new ≡ self.old) }
        ensures cause { IfErr result (Refuses self.old (operator_encoding (operators.MemorySize memory))) }
    {
        self.push(&Instruction::MemorySize(memory))
    }

    /// Appends [`Instruction::MemorySize`].
    ///
    /// # Errors
    /// Those of [`InstructionSink::push`]. The sink is then as it was.
    pub fn memory_size(&mut self, memory: u32) -> Result<&mut InstructionSink, EncodeError>
        ensures* refused { sem 𝓛 (LendsIfOk the_row the_row self.entry result (λ w. w) self.old) }
        ensures same_reference { IfOk result (λ s. s.ghost_name ≡ self.entry.ghost_name) }
        ensures appended { IfOk result (λ s. Appends self.old s.now (operator_encoding (operators.MemorySize memory))) }
        ensures cause { IfErr result (Refuses self.old (operator_encoding (operators.MemorySize memory))) }
    {
        match self.push_memory_size(memory) {
            Ok(()) => Ok(self),
            Err(error) => Err(error),
        }
    }

    // Does what `memory_grow` does.
    #[tactic(auto, unfolding(wasm_encoder_instructions::specs::Instructions::instruction_encoding))]
    fn push_memory_grow(&mut self, memory: u32) -> Result<(), EncodeError>
        ensures appended { IfOk result (λ _. Appends self.old self.new (operator_encoding (operators.MemoryGrow memory))) }
        ensures kept { IfErr result (λ _. self.new ≡ self.old) }
        ensures cause { IfErr result (Refuses self.old (operator_encoding (operators.MemoryGrow memory))) }
    {
        self.push(&Instruction::MemoryGrow(memory))
    }

    /// Appends [`Instruction::MemoryGrow`].
    ///
    /// # Errors
    /// Those of [`InstructionSink::push`]. The sink is then as it was.
    pub fn memory_grow(&mut self, memory: u32) -> Result<&mut InstructionSink, EncodeError>
        ensures* refused { sem 𝓛 (LendsIfOk the_row the_row self.entry result (λ w. w) self.old) }
        ensures same_reference { IfOk result (λ s. s.ghost_name ≡ self.entry.ghost_name) }
        ensures appended { IfOk result (λ s. Appends self.old s.now (operator_encoding (operators.MemoryGrow memory))) }
        ensures cause { IfErr result (Refuses self.old (operator_encoding (operators.MemoryGrow memory))) }
    {
        match self.push_memory_grow(memory) {
            Ok(()) => Ok(self),
            Err(error) => Err(error),
        }
    }

    // Does what `memory_init` does.
    #[tactic(auto, unfolding(wasm_encoder_instructions::specs::Instructions::instruction_encoding))]
    fn push_memory_init(&mut self, mem: u32, data_index: u32) -> Result<(), EncodeError>
        ensures appended { IfOk result (λ _. Appends self.old self.new (operator_encoding (operators.MemoryInit data_index mem))) }
        ensures kept { IfErr result (λ _. self.new ≡ self.old) }
        ensures cause { IfErr result (Refuses self.old (operator_encoding (operators.MemoryInit data_index mem))) }
    {
        self.push(&Instruction::MemoryInit { mem, data_index })
    }

    /// Appends [`Instruction::MemoryInit`].
    ///
    /// # Errors
    /// Those of [`InstructionSink::push`]. The sink is then as it was.
    pub fn memory_init(
        &mut self,
        mem: u32,
        data_index: u32,
    ) -> Result<&mut InstructionSink, EncodeError>
        ensures* refused { sem 𝓛 (LendsIfOk the_row the_row self.entry result (λ w. w) self.old) }
        ensures same_reference { IfOk result (λ s. s.ghost_name ≡ self.entry.ghost_name) }
        ensures appended { IfOk result (λ s. Appends self.old s.now (operator_encoding (operators.MemoryInit data_index mem))) }
        ensures cause { IfErr result (Refuses self.old (operator_encoding (operators.MemoryInit data_index mem))) }
    {
        match self.push_memory_init(mem, data_index) {
            Ok(()) => Ok(self),
            Err(error) => Err(error),
        }
    }

    // Does what `data_drop` does.
    #[tactic(auto, unfolding(wasm_encoder_instructions::specs::Instructions::instruction_encoding))]
    fn push_data_drop(&mut self, segment: u32) -> Result<(), EncodeError>
        ensures appended { IfOk result (λ _. Appends self.old self.new (operator_encoding (operators.DataDrop segment))) }
        ensures kept { IfErr result (λ _. self.new ≡ self.old) }
        ensures cause { IfErr result (Refuses self.old (operator_encoding (operators.DataDrop segment))) }
    {
        self.push(&Instruction::DataDrop(segment))
    }

    /// Appends [`Instruction::DataDrop`].
    ///
    /// # Errors
    /// Those of [`InstructionSink::push`]. The sink is then as it was.
    pub fn data_drop(&mut self, segment: u32) -> Result<&mut InstructionSink, EncodeError>
        ensures* refused { sem 𝓛 (LendsIfOk the_row the_row self.entry result (λ w. w) self.old) }
        ensures same_reference { IfOk result (λ s. s.ghost_name ≡ self.entry.ghost_name) }
        ensures appended { IfOk result (λ s. Appends self.old s.now (operator_encoding (operators.DataDrop segment))) }
        ensures cause { IfErr result (Refuses self.old (operator_encoding (operators.DataDrop segment))) }
    {
        match self.push_data_drop(segment) {
            Ok(()) => Ok(self),
            Err(error) => Err(error),
        }
    }

    // Does what `memory_copy` does.
    #[tactic(auto, unfolding(wasm_encoder_instructions::specs::Instructions::instruction_encoding))]
    fn push_memory_copy(&mut self, dst_mem: u32, src_mem: u32) -> Result<(), EncodeError>
        ensures appended { IfOk result (λ _. Appends self.old self.new (operator_encoding (operators.MemoryCopy dst_mem src_mem))) }
        ensures kept { IfErr result (λ _. self.new ≡ self.old) }
        ensures cause { IfErr result (Refuses self.old (operator_encoding (operators.MemoryCopy dst_mem src_mem))) }
    {
        self.push(&Instruction::MemoryCopy { src_mem, dst_mem })
    }

    /// Appends [`Instruction::MemoryCopy`].
    ///
    /// # Errors
    /// Those of [`InstructionSink::push`]. The sink is then as it was.
    pub fn memory_copy(
        &mut self,
        dst_mem: u32,
        src_mem: u32,
    ) -> Result<&mut InstructionSink, EncodeError>
        ensures* refused { sem 𝓛 (LendsIfOk the_row the_row self.entry result (λ w. w) self.old) }
        ensures same_reference { IfOk result (λ s. s.ghost_name ≡ self.entry.ghost_name) }
        ensures appended { IfOk result (λ s. Appends self.old s.now (operator_encoding (operators.MemoryCopy dst_mem src_mem))) }
        ensures cause { IfErr result (Refuses self.old (operator_encoding (operators.MemoryCopy dst_mem src_mem))) }
    {
        match self.push_memory_copy(dst_mem, src_mem) {
            Ok(()) => Ok(self),
            Err(error) => Err(error),
        }
    }

    // Does what `memory_fill` does.
    #[tactic(auto, unfolding(wasm_encoder_instructions::specs::Instructions::instruction_encoding))]
    fn push_memory_fill(&mut self, memory: u32) -> Result<(), EncodeError>
        ensures appended { IfOk result (λ _. Appends self.old self.new (operator_encoding (operators.MemoryFill memory))) }
        ensures kept { IfErr result (λ _. self.new ≡ self.old) }
        ensures cause { IfErr result (Refuses self.old (operator_encoding (operators.MemoryFill memory))) }
    {
        self.push(&Instruction::MemoryFill(memory))
    }

    /// Appends [`Instruction::MemoryFill`].
    ///
    /// # Errors
    /// Those of [`InstructionSink::push`]. The sink is then as it was.
    pub fn memory_fill(&mut self, memory: u32) -> Result<&mut InstructionSink, EncodeError>
        ensures* refused { sem 𝓛 (LendsIfOk the_row the_row self.entry result (λ w. w) self.old) }
        ensures same_reference { IfOk result (λ s. s.ghost_name ≡ self.entry.ghost_name) }
        ensures appended { IfOk result (λ s. Appends self.old s.now (operator_encoding (operators.MemoryFill memory))) }
        ensures cause { IfErr result (Refuses self.old (operator_encoding (operators.MemoryFill memory))) }
    {
        match self.push_memory_fill(memory) {
            Ok(()) => Ok(self),
            Err(error) => Err(error),
        }
    }
}
