//! Operators of bodies, each with its immediates (Core Specification 3.0, Binary Format, "Instructions").

use crate::br_table::BrTable;
use crate::immediates::{BlockType, MemArg};
use crate::select_types::SelectTypes;
use wasm_core_types::scalar_operator::ScalarOperator;
use wasmparser_types::heap_type::HeapType;
use wasmparser_types::val_type::ValType;

/// An operator. A body is a list of them: what begins a block, what parts it and what ends it are operators of their own. Lists
/// that an operator writes borrow the input.
#[derive(Drop)]
pub enum Operator<'a> {
    /// Never goes on.
    Unreachable,
    /// Does nothing.
    Nop,
    /// Begins a block, to whose end its label leads.
    Block {
        blockty: BlockType,
    },
    /// Begins a block, to whose start its label leads.
    Loop {
        blockty: BlockType,
    },
    /// Begins a block that is done on a condition.
    If {
        blockty: BlockType,
    },
    /// Begins what is done where the condition is false.
    Else,
    /// Ends a block, or the body.
    End,
    /// Jumps.
    Br {
        relative_depth: u32,
    },
    /// Jumps on a condition.
    BrIf {
        relative_depth: u32,
    },
    /// Jumps to the label that a number counts.
    BrTable {
        targets: BrTable<'a>,
    },
    /// Leaves the function.
    Return,
    /// Calls a function.
    Call {
        function_index: u32,
    },
    /// Calls what a table holds, as a function of this type.
    CallIndirect {
        type_index: u32,
        table_index: u32,
    },
    /// Calls a function in place of this one.
    ReturnCall {
        function_index: u32,
    },
    /// The same of what a table holds.
    ReturnCallIndirect {
        type_index: u32,
        table_index: u32,
    },
    /// Calls a reference to a function of this type.
    CallRef {
        type_index: u32,
    },
    /// The same in place of this function.
    ReturnCallRef {
        type_index: u32,
    },
    /// Drops an operand.
    Drop,
    /// Selects one of two numbers or vectors.
    Select,
    /// Selects one of two operands of this type.
    TypedSelect {
        ty: ValType,
    },
    /// The same with a list of types, other than of one, which no valid body has.
    TypedSelectMulti {
        tys: SelectTypes<'a>,
    },
    /// Gets the value of a local.
    LocalGet {
        local_index: u32,
    },
    /// Sets a local.
    LocalSet {
        local_index: u32,
    },
    /// Sets a local, and leaves the operand.
    LocalTee {
        local_index: u32,
    },
    /// Gets the value of a global.
    GlobalGet {
        global_index: u32,
    },
    /// Sets a global.
    GlobalSet {
        global_index: u32,
    },
    /// An element of a table.
    TableGet {
        table: u32,
    },
    /// Sets an element of a table.
    TableSet {
        table: u32,
    },
    /// Loads a number of 32 bits.
    I32Load {
        memarg: MemArg,
    },
    /// Loads a number of 64 bits.
    I64Load {
        memarg: MemArg,
    },
    /// Loads a float of 32 bits.
    F32Load {
        memarg: MemArg,
    },
    /// Loads a float of 64 bits.
    F64Load {
        memarg: MemArg,
    },
    /// Loads 8 bits as a signed number of 32 bits.
    I32Load8S {
        memarg: MemArg,
    },
    /// Loads 8 bits as a unsigned number of 32 bits.
    I32Load8U {
        memarg: MemArg,
    },
    /// Loads 16 bits as a signed number of 32 bits.
    I32Load16S {
        memarg: MemArg,
    },
    /// Loads 16 bits as a unsigned number of 32 bits.
    I32Load16U {
        memarg: MemArg,
    },
    /// Loads 8 bits as a signed number of 64 bits.
    I64Load8S {
        memarg: MemArg,
    },
    /// Loads 8 bits as a unsigned number of 64 bits.
    I64Load8U {
        memarg: MemArg,
    },
    /// Loads 16 bits as a signed number of 64 bits.
    I64Load16S {
        memarg: MemArg,
    },
    /// Loads 16 bits as a unsigned number of 64 bits.
    I64Load16U {
        memarg: MemArg,
    },
    /// Loads 32 bits as a signed number of 64 bits.
    I64Load32S {
        memarg: MemArg,
    },
    /// Loads 32 bits as a unsigned number of 64 bits.
    I64Load32U {
        memarg: MemArg,
    },
    /// Stores a number of 32 bits.
    I32Store {
        memarg: MemArg,
    },
    /// Stores a number of 64 bits.
    I64Store {
        memarg: MemArg,
    },
    /// Stores a float of 32 bits.
    F32Store {
        memarg: MemArg,
    },
    /// Stores a float of 64 bits.
    F64Store {
        memarg: MemArg,
    },
    /// Stores the low 8 bits of a number of 32 bits.
    I32Store8 {
        memarg: MemArg,
    },
    /// Stores the low 16 bits of a number of 32 bits.
    I32Store16 {
        memarg: MemArg,
    },
    /// Stores the low 8 bits of a number of 64 bits.
    I64Store8 {
        memarg: MemArg,
    },
    /// Stores the low 16 bits of a number of 64 bits.
    I64Store16 {
        memarg: MemArg,
    },
    /// Stores the low 32 bits of a number of 64 bits.
    I64Store32 {
        memarg: MemArg,
    },
    /// The size of a memory in pages.
    MemorySize {
        mem: u32,
    },
    /// Grows a memory.
    MemoryGrow {
        mem: u32,
    },
    /// A number of 32 bits.
    I32Const {
        value: i32,
    },
    /// A number of 64 bits.
    I64Const {
        value: i64,
    },
    /// A float of these 32 bits.
    F32Const {
        bits: u32,
    },
    /// A float of these 64 bits.
    F64Const {
        bits: u64,
    },
    /// An operator on numbers alone.
    Scalar(ScalarOperator),
    /// Null, as a reference to this.
    RefNull {
        hty: HeapType,
    },
    /// Tests if a reference is null.
    RefIsNull,
    /// A reference to a function.
    RefFunc {
        function_index: u32,
    },
    /// Tests if two references are the same.
    RefEq,
    /// A reference that traps where it is null.
    RefAsNonNull,
    /// Jumps where a reference is null.
    BrOnNull {
        relative_depth: u32,
    },
    /// Jumps where a reference is not null.
    BrOnNonNull {
        relative_depth: u32,
    },
    /// A structure of values.
    StructNew {
        struct_type_index: u32,
    },
    /// A structure of default values.
    StructNewDefault {
        struct_type_index: u32,
    },
    /// An array of one value, so many times.
    ArrayNew {
        array_type_index: u32,
    },
    /// An array of so many default values.
    ArrayNewDefault {
        array_type_index: u32,
    },
    /// An array of so many values.
    ArrayNewFixed {
        array_type_index: u32,
        array_size: u32,
    },
    /// An external reference as an internal one.
    AnyConvertExtern,
    /// An internal reference as an external one.
    ExternConvertAny,
    /// An unboxed scalar of a number.
    RefI31,
    /// Copies from a data segment.
    MemoryInit {
        data_index: u32,
        mem: u32,
    },
    /// Drops a data segment.
    DataDrop {
        data_index: u32,
    },
    /// Copies within or between memories.
    MemoryCopy {
        dst_mem: u32,
        src_mem: u32,
    },
    /// Fills a part of a memory.
    MemoryFill {
        mem: u32,
    },
    /// Copies from an element segment.
    TableInit {
        elem_index: u32,
        table: u32,
    },
    /// Drops an element segment.
    ElemDrop {
        elem_index: u32,
    },
    /// Copies within or between tables.
    TableCopy {
        dst_table: u32,
        src_table: u32,
    },
    /// Grows a table.
    TableGrow {
        table: u32,
    },
    /// The size of a table.
    TableSize {
        table: u32,
    },
    /// Fills a part of a table.
    TableFill {
        table: u32,
    },
    /// A vector of these bytes.
    V128Const {
        bytes: [u8; 16],
    },
}
