//! The calls of a sink by the names of their instructions, with the immediates of the rows: indexes are 128, of two numbers that of the field named first in the
//! instruction is 1, and the other 2.

use wasm_core_types::types::{AbstractHeapType, HeapType, ValType};
use wasm_core_write::encode_error::EncodeError;
use wasm_encoder_bodies::instruction_sink::InstructionSink;
use wasm_encoder_instructions::block_type::BlockType;
use wasm_encoder_instructions::ieee::{Ieee32, Ieee64};
use wasm_encoder_instructions::mem_arg::MemArg;

// Why a call was refused: none within, where it was done. None where there is no call of this name.
type Refusal = Option<Option<EncodeError>>;

const PLACE: MemArg = MemArg {
    offset: 16,
    align: 2,
    memory_index: 0,
};

fn load(sink: &mut InstructionSink, name: &str) -> Refusal {
    match name {
        "I32Load" => Some(sink.i32_load(PLACE).err()),
        "I64Load" => Some(sink.i64_load(PLACE).err()),
        "F32Load" => Some(sink.f32_load(PLACE).err()),
        "F64Load" => Some(sink.f64_load(PLACE).err()),
        "I32Load8S" => Some(sink.i32_load8_s(PLACE).err()),
        "I32Load8U" => Some(sink.i32_load8_u(PLACE).err()),
        "I32Load16S" => Some(sink.i32_load16_s(PLACE).err()),
        "I32Load16U" => Some(sink.i32_load16_u(PLACE).err()),
        "I64Load8S" => Some(sink.i64_load8_s(PLACE).err()),
        "I64Load8U" => Some(sink.i64_load8_u(PLACE).err()),
        "I64Load16S" => Some(sink.i64_load16_s(PLACE).err()),
        "I64Load16U" => Some(sink.i64_load16_u(PLACE).err()),
        "I64Load32S" => Some(sink.i64_load32_s(PLACE).err()),
        "I64Load32U" => Some(sink.i64_load32_u(PLACE).err()),
        _ => None,
    }
}

fn store(sink: &mut InstructionSink, name: &str) -> Refusal {
    match name {
        "I32Store" => Some(sink.i32_store(PLACE).err()),
        "I64Store" => Some(sink.i64_store(PLACE).err()),
        "F32Store" => Some(sink.f32_store(PLACE).err()),
        "F64Store" => Some(sink.f64_store(PLACE).err()),
        "I32Store8" => Some(sink.i32_store8(PLACE).err()),
        "I32Store16" => Some(sink.i32_store16(PLACE).err()),
        "I64Store8" => Some(sink.i64_store8(PLACE).err()),
        "I64Store16" => Some(sink.i64_store16(PLACE).err()),
        "I64Store32" => Some(sink.i64_store32(PLACE).err()),
        _ => None,
    }
}

fn jump_or_call(sink: &mut InstructionSink, name: &str) -> Refusal {
    match name {
        "Br" => Some(sink.br(128).err()),
        "BrIf" => Some(sink.br_if(128).err()),
        "BrOnNull" => Some(sink.br_on_null(128).err()),
        "BrOnNonNull" => Some(sink.br_on_non_null(128).err()),
        "BrTable" => Some(sink.br_table(&[0, 128], 2).err()),
        "BrTable of one label" => Some(sink.br_table(&[], 3).err()),
        "Call" => Some(sink.call(128).err()),
        "CallRef" => Some(sink.call_ref(128).err()),
        "CallIndirect" => Some(sink.call_indirect(2, 1).err()),
        "ReturnCall" => Some(sink.return_call(128).err()),
        "ReturnCallRef" => Some(sink.return_call_ref(128).err()),
        "ReturnCallIndirect" => Some(sink.return_call_indirect(2, 1).err()),
        "Block of nothing" => Some(sink.block(BlockType::Empty).err()),
        "Loop of a value" => Some(sink.loop_(BlockType::Result(ValType::I64)).err()),
        "If of a type" => Some(sink.if_(BlockType::FunctionType(64)).err()),
        _ => None,
    }
}

fn variable_or_memory(sink: &mut InstructionSink, name: &str) -> Refusal {
    match name {
        "LocalGet" => Some(sink.local_get(128).err()),
        "LocalSet" => Some(sink.local_set(128).err()),
        "LocalTee" => Some(sink.local_tee(128).err()),
        "GlobalGet" => Some(sink.global_get(128).err()),
        "GlobalSet" => Some(sink.global_set(128).err()),
        "MemorySize" => Some(sink.memory_size(128).err()),
        "MemoryGrow" => Some(sink.memory_grow(128).err()),
        "MemoryInit" => Some(sink.memory_init(1, 2).err()),
        "MemoryCopy" => Some(sink.memory_copy(2, 1).err()),
        "MemoryFill" => Some(sink.memory_fill(128).err()),
        "DataDrop" => Some(sink.data_drop(128).err()),
        _ => None,
    }
}

fn table(sink: &mut InstructionSink, name: &str) -> Refusal {
    match name {
        "TableInit" => Some(sink.table_init(2, 1).err()),
        "TableCopy" => Some(sink.table_copy(2, 1).err()),
        "TableFill" => Some(sink.table_fill(128).err()),
        "TableSet" => Some(sink.table_set(128).err()),
        "TableGet" => Some(sink.table_get(128).err()),
        "TableGrow" => Some(sink.table_grow(128).err()),
        "TableSize" => Some(sink.table_size(128).err()),
        "ElemDrop" => Some(sink.elem_drop(128).err()),
        _ => None,
    }
}

fn number(sink: &mut InstructionSink, name: &str) -> Refusal {
    match name {
        "I32Const least" => Some(sink.i32_const(i32::MIN).err()),
        "I32Const" => Some(sink.i32_const(-1).err()),
        "I64Const greatest" => Some(sink.i64_const(i64::MAX).err()),
        "F32Const" => Some(sink.f32_const(Ieee32::new(0x3f80_0000)).err()),
        "F64Const" => Some(sink.f64_const(Ieee64::new(0x3ff0_0000_0000_0001)).err()),
        "V128Const" => Some(sink.v128_const(-2).err()),
        _ => None,
    }
}

fn reference_or_aggregate(sink: &mut InstructionSink, name: &str) -> Refusal {
    let outside = HeapType::Abstract(AbstractHeapType::Extern);
    match name {
        "RefFunc" => Some(sink.ref_func(128).err()),
        "RefNull of a kind" => Some(sink.ref_null(outside).err()),
        "RefNull of a type" => Some(sink.ref_null(HeapType::Concrete(64)).err()),
        "TypedSelect" => Some(sink.typed_select(ValType::F64).err()),
        "TypedSelectMulti" => Some(
            sink.typed_select_multi(&[ValType::I32, ValType::V128])
                .err(),
        ),
        "StructNew" => Some(sink.struct_new(128).err()),
        "StructNewDefault" => Some(sink.struct_new_default(128).err()),
        "ArrayNew" => Some(sink.array_new(128).err()),
        "ArrayNewDefault" => Some(sink.array_new_default(128).err()),
        "ArrayNewFixed" => Some(sink.array_new_fixed(1, 2).err()),
        _ => None,
    }
}

fn of_memory(sink: &mut InstructionSink, name: &str) -> Refusal {
    match load(sink, name) {
        Some(refusal) => Some(refusal),
        None => store(sink, name),
    }
}

fn of_index(sink: &mut InstructionSink, name: &str) -> Refusal {
    if let Some(refusal) = jump_or_call(sink, name) {
        return Some(refusal);
    }
    match variable_or_memory(sink, name) {
        Some(refusal) => Some(refusal),
        None => table(sink, name),
    }
}

/// Appends an instruction by the call of its name, if there is one, and answers why it is refused, if it is.
pub fn call(sink: &mut InstructionSink, name: &str) -> Refusal {
    if let Some(refusal) = of_memory(sink, name) {
        return Some(refusal);
    }
    if let Some(refusal) = of_index(sink, name) {
        return Some(refusal);
    }
    match number(sink, name) {
        Some(refusal) => Some(refusal),
        None => reference_or_aggregate(sink, name),
    }
}
