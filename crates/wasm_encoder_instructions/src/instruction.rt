//! Instructions of bodies and of constant expressions, each with its immediates (Core Specification 3.0, Binary Format, "Instructions").

use crate::alone::encode_alone;
use crate::block_type::BlockType;
use crate::ieee::{Ieee32, Ieee64};
use crate::mem_arg::MemArg;
use crate::parts::{code_of, immediates_of};
use wasm_core_types::scalar_operator::ScalarOperator;
use wasm_core_types::types::{HeapType, ValType};
use wasm_core_write::encode::Encode;
use wasm_core_write::encode_error::EncodeError;
use wasm_core_write::encoding::{Encoding, add_sizes};

/// An instruction. What begins a block, what parts it and what ends it are instructions of their own. Lists are borrowed.
#[derive(Drop)]
pub enum Instruction<'a> {
    /// Never goes on.
    Unreachable,
    /// Does nothing.
    Nop,
    /// Begins a block, to whose end its label leads.
    Block(BlockType),
    /// Begins a block, to whose start its label leads.
    Loop(BlockType),
    /// Begins a block that is done on a condition.
    If(BlockType),
    /// Begins what is done where the condition is false.
    Else,
    /// Ends a block, a body or a constant expression.
    End,
    /// Jumps to a label.
    Br(u32),
    /// Jumps on a condition.
    BrIf(u32),
    /// Jumps to the label that a number counts from 0, and for other numbers to the last one.
    BrTable(&'a [u32], u32),
    /// Jumps where a reference is null.
    BrOnNull(u32),
    /// Jumps where a reference is not null.
    BrOnNonNull(u32),
    /// Leaves the function.
    Return,
    /// Calls a function.
    Call(u32),
    /// Calls a reference to a function of this type.
    CallRef(u32),
    /// Calls what a table holds, as a function of this type.
    CallIndirect {
        type_index: u32,
        table_index: u32,
    },
    /// Calls a reference to a function of this type in place of this function.
    ReturnCallRef(u32),
    /// Calls a function in place of this one.
    ReturnCall(u32),
    /// Calls what a table holds in place of this function.
    ReturnCallIndirect {
        type_index: u32,
        table_index: u32,
    },
    /// Drops an operand.
    Drop,
    /// One of two numbers or vectors.
    Select,
    /// What a local holds.
    LocalGet(u32),
    /// Sets a local.
    LocalSet(u32),
    /// Sets a local, and leaves the operand.
    LocalTee(u32),
    /// What a global holds.
    GlobalGet(u32),
    /// Sets a global.
    GlobalSet(u32),
    /// Loads a number of 32 bits.
    I32Load(MemArg),
    /// Loads a number of 64 bits.
    I64Load(MemArg),
    /// Loads a float of 32 bits.
    F32Load(MemArg),
    /// Loads a float of 64 bits.
    F64Load(MemArg),
    /// Loads 8 bits as a signed number of 32 bits.
    I32Load8S(MemArg),
    /// Loads 8 bits as an unsigned number of 32 bits.
    I32Load8U(MemArg),
    /// Loads 16 bits as a signed number of 32 bits.
    I32Load16S(MemArg),
    /// Loads 16 bits as an unsigned number of 32 bits.
    I32Load16U(MemArg),
    /// Loads 8 bits as a signed number of 64 bits.
    I64Load8S(MemArg),
    /// Loads 8 bits as an unsigned number of 64 bits.
    I64Load8U(MemArg),
    /// Loads 16 bits as a signed number of 64 bits.
    I64Load16S(MemArg),
    /// Loads 16 bits as an unsigned number of 64 bits.
    I64Load16U(MemArg),
    /// Loads 32 bits as a signed number of 64 bits.
    I64Load32S(MemArg),
    /// Loads 32 bits as an unsigned number of 64 bits.
    I64Load32U(MemArg),
    /// Stores a number of 32 bits.
    I32Store(MemArg),
    /// Stores a number of 64 bits.
    I64Store(MemArg),
    /// Stores a float of 32 bits.
    F32Store(MemArg),
    /// Stores a float of 64 bits.
    F64Store(MemArg),
    /// Stores the low 8 bits of a number of 32 bits.
    I32Store8(MemArg),
    /// Stores the low 16 bits of a number of 32 bits.
    I32Store16(MemArg),
    /// Stores the low 8 bits of a number of 64 bits.
    I64Store8(MemArg),
    /// Stores the low 16 bits of a number of 64 bits.
    I64Store16(MemArg),
    /// Stores the low 32 bits of a number of 64 bits.
    I64Store32(MemArg),
    /// The size of a memory in pages.
    MemorySize(u32),
    /// Grows a memory.
    MemoryGrow(u32),
    /// Copies from a data segment.
    MemoryInit {
        mem: u32,
        data_index: u32,
    },
    /// Drops a data segment.
    DataDrop(u32),
    /// Copies within or between memories.
    MemoryCopy {
        src_mem: u32,
        dst_mem: u32,
    },
    /// Fills a part of a memory.
    MemoryFill(u32),
    /// A number of 32 bits.
    I32Const(i32),
    /// A number of 64 bits.
    I64Const(i64),
    /// A float of 32 bits.
    F32Const(Ieee32),
    /// A float of 64 bits.
    F64Const(Ieee64),
    /// An instruction on numbers alone.
    Scalar(ScalarOperator),
    /// One of two operands of this type.
    TypedSelect(ValType),
    /// The same with a list of types. No valid body has one of another number than one.
    TypedSelectMulti(&'a [ValType]),
    /// Null, as a reference to this.
    RefNull(HeapType),
    /// Whether a reference is null.
    RefIsNull,
    /// A reference to a function.
    RefFunc(u32),
    /// Whether two references are one.
    RefEq,
    /// A reference that traps where it is null.
    RefAsNonNull,
    /// A structure of values.
    StructNew(u32),
    /// A structure of default values.
    StructNewDefault(u32),
    /// An array of one value, so many times.
    ArrayNew(u32),
    /// An array of so many default values.
    ArrayNewDefault(u32),
    /// An array of so many values.
    ArrayNewFixed {
        array_type_index: u32,
        array_size: u32,
    },
    /// An external reference as an internal one.
    AnyConvertExtern,
    /// An internal reference as an external one.
    ExternConvertAny,
    /// An unboxed scalar of a number.
    RefI31,
    /// Copies from an element segment.
    TableInit {
        elem_index: u32,
        table: u32,
    },
    /// Drops an element segment.
    ElemDrop(u32),
    /// Fills a part of a table.
    TableFill(u32),
    /// Sets an element of a table.
    TableSet(u32),
    /// An element of a table.
    TableGet(u32),
    /// Grows a table.
    TableGrow(u32),
    /// The size of a table.
    TableSize(u32),
    /// Copies within or between tables.
    TableCopy {
        src_table: u32,
        dst_table: u32,
    },
    /// A vector of these bits, the lowest byte first.
    V128Const(i128),
}

impl Encoding for Instruction<'_> {
    ghost use Rattle.wasm_encoder_instructions.specs.Instructions.{instruction_encoding};

    ghost encoding = { instruction_encoding };

    #[tactic(auto, using(crate::proofs::WrittenParts::whole), unfolding(crate::specs::Codes::written_code))]
    fn size(&self) -> Result<u64, EncodeError> {
        add_sizes(code_of(self).size()?, immediates_of(self).size()?)
    }

    #[tactic(auto, using(crate::proofs::WrittenParts::whole), unfolding(crate::specs::Codes::written_code))]
    fn put(&self, sink: &mut Vec<u8>) {
        code_of(self).put(sink);
        immediates_of(self).put(sink);
    }
}

impl Encode for Instruction<'_> {
    ghost use Rattle.std.specs.Prelude.{length};
    ghost use Rattle.wasm_encoder_instructions.specs.Instructions.{instruction_encoding};

    ghost encoding = { instruction_encoding };

    ghost longest = { λ instruction. length (instruction_encoding instruction) };

    fn encode(&self, sink: &mut Vec<u8>) -> Result<(), EncodeError> {
        encode_alone(self, sink)
    }

    fn encoded_len(&self) -> Result<u64, EncodeError> {
        self.size()
    }
}
