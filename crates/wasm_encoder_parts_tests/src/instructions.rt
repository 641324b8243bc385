//! Instructions, byte for byte.

use std::alloc::Global;
use std::test::Fail;
use wasm_core_types::types::{AbstractHeapType, HeapType, ValType};
use wasm_core_write::encode::Encode;
use wasm_encoder_instructions::block_type::BlockType;
use wasm_encoder_instructions::ieee::{Ieee32, Ieee64};
use wasm_encoder_instructions::instruction::Instruction;
use wasm_encoder_instructions::mem_arg::MemArg;
use wasm_test_rows::fields::two_fields;
use wasm_test_rows::rows::check_rows;
use wasm_test_rows::values::bytes_of;

// Returns the instruction of this name that has no immediates.
fn bare(name: &str) -> Option<Instruction<'static>> {
    match name {
        "Unreachable" => Some(Instruction::Unreachable),
        "Nop" => Some(Instruction::Nop),
        "Else" => Some(Instruction::Else),
        "End" => Some(Instruction::End),
        "Return" => Some(Instruction::Return),
        "Drop" => Some(Instruction::Drop),
        "Select" => Some(Instruction::Select),
        "RefIsNull" => Some(Instruction::RefIsNull),
        "RefEq" => Some(Instruction::RefEq),
        "RefAsNonNull" => Some(Instruction::RefAsNonNull),
        "AnyConvertExtern" => Some(Instruction::AnyConvertExtern),
        "ExternConvertAny" => Some(Instruction::ExternConvertAny),
        "RefI31" => Some(Instruction::RefI31),
        _ => None,
    }
}

// Returns the instruction of this name that has an index or a label.
fn of_index(name: &str, index: u32) -> Option<Instruction<'static>> {
    match name {
        "Br" => Some(Instruction::Br(index)),
        "BrIf" => Some(Instruction::BrIf(index)),
        "BrOnNull" => Some(Instruction::BrOnNull(index)),
        "BrOnNonNull" => Some(Instruction::BrOnNonNull(index)),
        "Call" => Some(Instruction::Call(index)),
        "CallRef" => Some(Instruction::CallRef(index)),
        "ReturnCallRef" => Some(Instruction::ReturnCallRef(index)),
        "ReturnCall" => Some(Instruction::ReturnCall(index)),
        "LocalGet" => Some(Instruction::LocalGet(index)),
        "LocalSet" => Some(Instruction::LocalSet(index)),
        "LocalTee" => Some(Instruction::LocalTee(index)),
        "GlobalGet" => Some(Instruction::GlobalGet(index)),
        "GlobalSet" => Some(Instruction::GlobalSet(index)),
        "MemorySize" => Some(Instruction::MemorySize(index)),
        "MemoryGrow" => Some(Instruction::MemoryGrow(index)),
        "DataDrop" => Some(Instruction::DataDrop(index)),
        "MemoryFill" => Some(Instruction::MemoryFill(index)),
        "RefFunc" => Some(Instruction::RefFunc(index)),
        "StructNew" => Some(Instruction::StructNew(index)),
        "StructNewDefault" => Some(Instruction::StructNewDefault(index)),
        "ArrayNew" => Some(Instruction::ArrayNew(index)),
        "ArrayNewDefault" => Some(Instruction::ArrayNewDefault(index)),
        "ElemDrop" => Some(Instruction::ElemDrop(index)),
        "TableFill" => Some(Instruction::TableFill(index)),
        "TableSet" => Some(Instruction::TableSet(index)),
        "TableGet" => Some(Instruction::TableGet(index)),
        "TableGrow" => Some(Instruction::TableGrow(index)),
        "TableSize" => Some(Instruction::TableSize(index)),
        _ => None,
    }
}

// Returns the instruction of this name that has two numbers: 1 is the first of its fields, and 2 the second.
fn of_two(name: &str) -> Option<Instruction<'static>> {
    match name {
        "CallIndirect" => Some(Instruction::CallIndirect {
            type_index: 1,
            table_index: 2,
        }),
        "ReturnCallIndirect" => Some(Instruction::ReturnCallIndirect {
            type_index: 1,
            table_index: 2,
        }),
        "MemoryInit" => Some(Instruction::MemoryInit {
            mem: 1,
            data_index: 2,
        }),
        "MemoryCopy" => Some(Instruction::MemoryCopy {
            src_mem: 1,
            dst_mem: 2,
        }),
        "ArrayNewFixed" => Some(Instruction::ArrayNewFixed {
            array_type_index: 1,
            array_size: 2,
        }),
        "TableInit" => Some(Instruction::TableInit {
            elem_index: 1,
            table: 2,
        }),
        "TableCopy" => Some(Instruction::TableCopy {
            src_table: 1,
            dst_table: 2,
        }),
        _ => None,
    }
}

// Returns the load or store of this name.
fn of_memory(name: &str, argument: MemArg) -> Option<Instruction<'static>> {
    match name {
        "I32Load" => Some(Instruction::I32Load(argument)),
        "I64Load" => Some(Instruction::I64Load(argument)),
        "F32Load" => Some(Instruction::F32Load(argument)),
        "F64Load" => Some(Instruction::F64Load(argument)),
        "I32Load8S" => Some(Instruction::I32Load8S(argument)),
        "I32Load8U" => Some(Instruction::I32Load8U(argument)),
        "I32Load16S" => Some(Instruction::I32Load16S(argument)),
        "I32Load16U" => Some(Instruction::I32Load16U(argument)),
        "I64Load8S" => Some(Instruction::I64Load8S(argument)),
        "I64Load8U" => Some(Instruction::I64Load8U(argument)),
        "I64Load16S" => Some(Instruction::I64Load16S(argument)),
        "I64Load16U" => Some(Instruction::I64Load16U(argument)),
        "I64Load32S" => Some(Instruction::I64Load32S(argument)),
        "I64Load32U" => Some(Instruction::I64Load32U(argument)),
        "I32Store" => Some(Instruction::I32Store(argument)),
        "I64Store" => Some(Instruction::I64Store(argument)),
        "F32Store" => Some(Instruction::F32Store(argument)),
        "F64Store" => Some(Instruction::F64Store(argument)),
        "I32Store8" => Some(Instruction::I32Store8(argument)),
        "I32Store16" => Some(Instruction::I32Store16(argument)),
        "I64Store8" => Some(Instruction::I64Store8(argument)),
        "I64Store16" => Some(Instruction::I64Store16(argument)),
        "I64Store32" => Some(Instruction::I64Store32(argument)),
        _ => None,
    }
}

// Returns an instruction of another form, of this name.
fn control_or_number(name: &str) -> Option<Instruction<'static>> {
    match name {
        "Block of nothing" => Some(Instruction::Block(BlockType::Empty)),
        "Loop of a value" => Some(Instruction::Loop(BlockType::Result(ValType::I64))),
        "If of a type" => Some(Instruction::If(BlockType::FunctionType(64))),
        "BrTable" => Some(Instruction::BrTable(&[0, 128], 2)),
        "BrTable of one label" => Some(Instruction::BrTable(&[], 3)),
        "I32Const least" => Some(Instruction::I32Const(i32::MIN)),
        "I32Const" => Some(Instruction::I32Const(-1)),
        "I64Const greatest" => Some(Instruction::I64Const(i64::MAX)),
        _ => None,
    }
}

// Returns the same for the others.
fn of_other_form(name: &str) -> Option<Instruction<'static>> {
    match name {
        "F32Const" => Some(Instruction::F32Const(Ieee32::new(0x3f80_0000))),
        "F64Const" => Some(Instruction::F64Const(Ieee64::new(0x3ff0_0000_0000_0001))),
        "TypedSelect" => Some(Instruction::TypedSelect(ValType::F64)),
        "TypedSelectMulti" => Some(Instruction::TypedSelectMulti(&[ValType::I32, ValType::V128])),
        "RefNull of a kind" => Some(Instruction::RefNull(HeapType::Abstract(
            AbstractHeapType::Extern,
        ))),
        "RefNull of a type" => Some(Instruction::RefNull(HeapType::Concrete(64))),
        "V128Const" => Some(Instruction::V128Const(-2)),
        _ => None,
    }
}

/// Returns the instruction of this name: its indexes are 128, and its memory argument is of the first memory.
pub fn named(name: &str) -> Option<Instruction<'static>> {
    let argument = MemArg {
        offset: 16,
        align: 2,
        memory_index: 0,
    };
    bare(name)
        .or_else(|| of_index(name, 128))
        .or_else(|| of_two(name))
        .or_else(|| of_memory(name, argument))
        .or_else(|| control_or_number(name))
        .or_else(|| of_other_form(name))
}

/// Names, and what is written.
pub const ROWS: &str = "
    Unreachable | 00
    Nop | 01
    Else | 05
    End | 0b
    Br | 0c 80 01
    BrIf | 0d 80 01
    BrOnNull | d5 80 01
    BrOnNonNull | d6 80 01
    Return | 0f
    Call | 10 80 01
    CallRef | 14 80 01
    CallIndirect | 11 01 02
    ReturnCallRef | 15 80 01
    ReturnCall | 12 80 01
    ReturnCallIndirect | 13 01 02
    Drop | 1a
    Select | 1b
    LocalGet | 20 80 01
    LocalSet | 21 80 01
    LocalTee | 22 80 01
    GlobalGet | 23 80 01
    GlobalSet | 24 80 01
    I32Load | 28 02 10
    I64Load | 29 02 10
    F32Load | 2a 02 10
    F64Load | 2b 02 10
    I32Load8S | 2c 02 10
    I32Load8U | 2d 02 10
    I32Load16S | 2e 02 10
    I32Load16U | 2f 02 10
    I64Load8S | 30 02 10
    I64Load8U | 31 02 10
    I64Load16S | 32 02 10
    I64Load16U | 33 02 10
    I64Load32S | 34 02 10
    I64Load32U | 35 02 10
    I32Store | 36 02 10
    I64Store | 37 02 10
    F32Store | 38 02 10
    F64Store | 39 02 10
    I32Store8 | 3a 02 10
    I32Store16 | 3b 02 10
    I64Store8 | 3c 02 10
    I64Store16 | 3d 02 10
    I64Store32 | 3e 02 10
    MemorySize | 3f 80 01
    MemoryGrow | 40 80 01
    MemoryInit | fc 08 02 01
    DataDrop | fc 09 80 01
    MemoryCopy | fc 0a 02 01
    MemoryFill | fc 0b 80 01
    RefIsNull | d1
    RefFunc | d2 80 01
    RefEq | d3
    RefAsNonNull | d4
    StructNew | fb 00 80 01
    StructNewDefault | fb 01 80 01
    ArrayNew | fb 06 80 01
    ArrayNewDefault | fb 07 80 01
    ArrayNewFixed | fb 08 01 02
    AnyConvertExtern | fb 1a
    ExternConvertAny | fb 1b
    RefI31 | fb 1c
    TableInit | fc 0c 01 02
    ElemDrop | fc 0d 80 01
    TableFill | fc 11 80 01
    TableSet | 26 80 01
    TableGet | 25 80 01
    TableGrow | fc 0f 80 01
    TableSize | fc 10 80 01
    TableCopy | fc 0e 02 01
    Block of nothing | 02 40
    Loop of a value | 03 7e
    If of a type | 04 c0 00
    BrTable | 0e 02 00 80 01 02
    BrTable of one label | 0e 00 03
    I32Const least | 41 80 80 80 80 78
    I32Const | 41 7f
    I64Const greatest | 42 ff ff ff ff ff ff ff ff ff 00
    F32Const | 43 00 00 80 3f
    F64Const | 44 01 00 00 00 00 00 f0 3f
    TypedSelect | 1c 01 7c
    TypedSelectMulti | 1c 02 7f 7b
    RefNull of a kind | d0 6f
    RefNull of a type | d0 c0 00
    V128Const | fd 0c fe ff ff ff ff ff ff ff ff ff ff ff ff ff ff ff
";

// Checks that these bytes are appended of an instruction, and are as many as it says.
fn appends(alloc: Global, instruction: &Instruction<'_>, bytes: &[u8]) -> Option<bool> {
    let mut sink = Vec::new(alloc);
    sink.push(7).ok()?;
    instruction.encode(&mut sink).ok()?;
    let is_long = instruction.encoded_len() == Ok(bytes.len() as u64);
    Some(is_long && sink.first() == Some(&7) && sink.get(1..) == Some(bytes))
}

fn is_written(alloc: Global, row: &str) -> Option<bool> {
    let (name, bytes) = two_fields(row)?;
    let instruction = named(name)?;
    let bytes = bytes_of(alloc, bytes)?;
    appends(alloc, &instruction, &bytes)
}

#[test]
fn instructions_are_written(rt: HostRuntime) -> Result<(), Fail> {
    Ok(check_rows(rt.alloc(), ROWS, 86, is_written)?)
}
