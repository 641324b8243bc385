//! Function bodies (Core Specification 3.0, Binary Format, Modules, "Code Section").

ghost use Rattle.std.specs.Prelude.{◌≡◌, ◌↔◌, ◌<◌, ◌≤◌, ◌^◌, [], ◌∷◌, ◌++◌, ℕ, List, map, length, nat_eq, Some, Err, IfErr, IfOk};
ghost use Rattle.std.specs.Cmp.{partial_equiv_from_equiv};
ghost use Rattle.std.specs.Cmp.Lexicographic.{nat_list_eq_equiv, pointwise};
ghost use Rattle.std.specs.Iterator.{Drains, Yields, YieldsThen, size};
ghost use Rattle.wasm_core_types.specs.declared.types.ValType.{ValType};
ghost use Rattle.wasm_encoder_bodies.specs.Locals.{locals_encoding, run_of, AreRunsOf, AreWritable, FitLength, PassLength};
ghost use Rattle.wasm_encoder_instructions.specs.Instructions.{instruction_encoding};

use crate::instruction_sink::InstructionSink;
use crate::local_runs::{LocalRun, push_type, write_runs};
use std::alloc::Global;
use std::marker::Model;
use wasm_core_types::types::ValType;
use wasm_core_write::encode::Encode;
use wasm_core_write::encode_error::EncodeError;
use wasm_core_write::encoding::{Encoding, bytes_size, encode_framed, framed_len, put_bytes};
use wasm_encoder_instructions::instruction::Instruction;

/// A function's body, which is built as its bytes. Contracts see them, without their number.
#[derive(Debug, Drop)]
pub struct Function {
    sink: InstructionSink,
}

impl Model for Function {
    ghost use Rattle.std.specs.Prelude.{List, ℕ};

    ghost Value = { List ℕ };

    ghost view = { λ f. f.sink.bytes };
}

impl Function {
    ghost use Rattle.std.specs.Borrow.{sem, Lends, LendsIfOk};
    ghost use Rattle.wasm_encoder_bodies.specs.contracts.function.Function.{the_row};
    ghost use Rattle.wasm_encoder_bodies.specs.contracts.instruction_sink.InstructionSink.{the_row as sink_row};

    /// Creates a body with these runs of locals, each so many of a type, and without instructions.
    ///
    /// # Errors
    /// `TooLong` where there are more than 4,294,967,295 runs, of which none is taken then, and else `Memory`.
    pub fn new<L: IntoIterator<Item = (u32, ValType)>>(
        alloc: Global,
        locals: L,
    ) -> Result<Function, EncodeError>
    where
        L::IntoIter: ExactSizeIterator,
        requires { (items : L.IntoIter) → L.into_iter_gives locals items → L.IntoIter.can_next items }
        ensures { (items : L.IntoIter) × L.into_iter_gives locals items
            × ((result ≡ Err EncodeError.TooLong) ↔ (2 ^ 32 ≤ size (L.IntoIter.remaining items)))
            × IfOk result (λ f. (runs : List (ℕ × ValType)) × Drains L.IntoIter.next_gives items runs × (length runs < 2 ^ 32) × (f ≡ locals_encoding (map run_of runs))) }
    {
        let locals = locals.into_iter();
        if locals.len() > 4_294_967_295 {
            return Err(EncodeError::TooLong);
        }
        let mut runs = Vec::new(alloc);
        for (count, ty) in locals {
            runs.push(LocalRun { count, ty })?;
        }
        let bytes = write_runs(alloc, &runs)?;
        Ok(Function {
            sink: InstructionSink::from_bytes(bytes),
        })
    }

    /// Creates a body with locals of these types, in runs of equal neighbours, and without instructions.
    ///
    /// # Errors
    /// `TooLong` where there are more than 4,294,967,295 runs or one of them is longer, which is told at the first type that is one too many, and
    /// else `Memory`.
    pub fn new_with_locals_types<L: IntoIterator<Item = ValType>>(
        alloc: Global,
        locals: L,
    ) -> Result<Function, EncodeError>
    where
        L::IntoIter: ExactSizeIterator,
        requires { (items : L.IntoIter) → L.into_iter_gives locals items → L.IntoIter.can_next items }
        ensures written { IfOk result (λ f. (items : L.IntoIter) × (types : List ValType) × (runs : List (ℕ × ValType)) × L.into_iter_gives locals items × Drains L.IntoIter.next_gives items types × AreRunsOf types runs × AreWritable runs × (f ≡ locals_encoding (map run_of runs))) }
        ensures too_long { result ≡ Err EncodeError.TooLong → (items rest : L.IntoIter) × (types : List ValType) × (type : ValType) × L.into_iter_gives locals items × YieldsThen L.IntoIter.next_gives items types (Some type) rest × FitLength types × PassLength (types ++ type ∷ []) }
        ensures memory { result ≡ Err EncodeError.Memory → (items rest : L.IntoIter) × (types : List ValType) × L.into_iter_gives locals items × Yields L.IntoIter.next_gives items types rest × FitLength types }
    {
        let locals = locals.into_iter();
        let _finite = locals.len();
        let mut runs = Vec::new(alloc);
        for ty in locals {
            push_type(&mut runs, ty)?;
        }
        let bytes = write_runs(alloc, &runs)?;
        Ok(Function {
            sink: InstructionSink::from_bytes(bytes),
        })
    }

    /// Returns the sink that the body's instructions are appended to, by calls of their names. What is appended to it is the body's.
    pub fn instructions(&mut self) -> &mut InstructionSink
        ensures* lent { sem 𝓛 (Lends the_row sink_row self.entry result (λ sink. sink.bytes)) }
        ensures shown { result.now.bytes ≡ self.old }
    {
        &mut self.sink
    }

    /// Appends an instruction: what `instruction` does.
    ///
    /// # Errors
    /// `TooLong` exactly where the instruction is longer than 4,294,967,295 bytes, as only a list can be, and else `Memory`.
    pub fn push(&mut self, instruction: &Instruction<'_>) -> Result<(), EncodeError>
        ensures added { IfOk result (λ _. self.new ≡ self.old ++ instruction_encoding instruction.now) }
        ensures kept { IfErr result (λ _. self.new ≡ self.old) }
        ensures too_long { (result ≡ Err EncodeError.TooLong) ↔ (2 ^ 32 ≤ length (instruction_encoding instruction.now)) }
    {
        self.sink.push(instruction)
    }

    /// Appends an instruction.
    ///
    /// # Errors
    /// Those of [`Function::push`]. The body is then as it was.
    pub fn instruction(
        &mut self,
        instruction: &Instruction<'_>,
    ) -> Result<&mut Function, EncodeError>
        ensures* refused { sem 𝓛 (LendsIfOk the_row the_row self.entry result (λ w. w) self.old) }
        ensures same_reference { IfOk result (λ s. s.ghost_name ≡ self.entry.ghost_name) }
        ensures added { IfOk result (λ s. s.now ≡ self.old ++ instruction_encoding instruction.now) }
        ensures too_long { (result ≡ Err EncodeError.TooLong) ↔ (2 ^ 32 ≤ length (instruction_encoding instruction.now)) }
    {
        match self.push(instruction) {
            Ok(()) => Ok(self),
            Err(error) => Err(error),
        }
    }

    /// Appends any bytes, which are not looked at: what `raw` does.
    ///
    /// # Errors
    /// `Memory` alone.
    pub fn push_raw(&mut self, bytes: &[u8]) -> Result<(), EncodeError>
        ensures added { IfOk result (λ _. self.new ≡ self.old ++ bytes.now) }
        ensures kept { IfErr result (λ _. self.new ≡ self.old) }
        ensures memory_alone { IfErr result (λ e. e ≡ EncodeError.Memory) }
    {
        self.sink.push_raw(bytes)
    }

    /// Appends any bytes, which are not looked at.
    ///
    /// # Errors
    /// `Memory` alone. The body is then as it was.
    pub fn raw(&mut self, bytes: &[u8]) -> Result<&mut Function, EncodeError>
        ensures* refused { sem 𝓛 (LendsIfOk the_row the_row self.entry result (λ w. w) self.old) }
        ensures same_reference { IfOk result (λ s. s.ghost_name ≡ self.entry.ghost_name) }
        ensures added { IfOk result (λ s. s.now ≡ self.old ++ bytes.now) }
        ensures memory_alone { IfErr result (λ e. e ≡ EncodeError.Memory) }
    {
        match self.push_raw(bytes) {
            Ok(()) => Ok(self),
            Err(error) => Err(error),
        }
    }

    /// Returns the number of bytes, without the size that stands before them where the body is written.
    pub fn byte_len(&self) -> usize
        ensures { result ≡ length self.now }
    {
        self.sink.as_bytes().len()
    }

    /// Returns the bytes, without the size.
    pub fn into_raw_body(self) -> Vec<u8>
        ensures { result.items ≡ self }
    {
        self.sink.into_bytes()
    }

    /// Returns the bytes, without the size.
    pub fn as_raw_body(&self) -> &[u8]
        ensures { result.now ≡ self.now }
    {
        self.sink.as_bytes()
    }
}

// Bodies of the same bytes are equal.
impl PartialEq for Function {
    ghost eq = { pointwise nat_eq };

    ghost laws = { partial_equiv_from_equiv nat_list_eq_equiv };

    fn eq(&self, other: &Self) -> bool {
        self.sink.as_bytes() == other.sink.as_bytes()
    }
}

impl Eq for Function {
    ghost laws = { nat_list_eq_equiv };
}

// What stands in the frame that is around a body.
impl Encoding for Function {
    ghost encoding = { λ f. f };

    fn size(&self) -> Result<u64, EncodeError> {
        bytes_size(self.sink.as_bytes())
    }

    fn put(&self, sink: &mut Vec<u8>) {
        put_bytes(self.sink.as_bytes(), sink);
    }
}

// The size, and the bytes.
impl Encode for Function {
    ghost use Rattle.std.specs.Prelude.{length};
    ghost use Rattle.wasm_spec.specs.Shortest.{framed_encoding};

    ghost encoding = { λ f. framed_encoding f };

    ghost longest = { λ f. length f };

    fn encode(&self, sink: &mut Vec<u8>) -> Result<(), EncodeError> {
        encode_framed(self, sink)
    }

    fn encoded_len(&self) -> Result<u64, EncodeError> {
        framed_len(self)
    }
}
