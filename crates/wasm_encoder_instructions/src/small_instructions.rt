//! That what is written of an instruction reads as it. The functions do nothing: their contracts are theorems.

ghost use Rattle.std.specs.Prelude.{◌<◌, ◌^◌, length};
ghost use Rattle.std.specs.List.{AllByRecursion};
ghost use Rattle.wasm_bodies.specs.OperatorGrammar.{IsOperator};
ghost use Rattle.wasm_core_types.specs.CoreTypes.{heap_type, val_type};
ghost use Rattle.wasm_encoder_instructions.specs.AlignedInstructions.{IsAligned};
ghost use Rattle.wasm_encoder_instructions.specs.Immediates.{block_type};
ghost use Rattle.wasm_encoder_instructions.specs.Instructions.{instruction_encoding, operator};
ghost use Rattle.wasm_encoder_instructions.specs.SmallOperators.{HasWholeImmediates, IsSmallBlock, IsSmallOperator};
ghost use Rattle.wasm_spec.specs.Bytes.{IsShortest};
ghost use Rattle.wasm_spec.specs.Features.{Features};
ghost use Rattle.wasm_spec.specs.SmallIndexes.{IsSmallHeap, IsSmallIndex, IsSmallValue};

use crate::block_type::BlockType;
use crate::instruction::Instruction;
use crate::mem_arg::MemArg;
use wasm_core_types::types::{HeapType, ValType};

// A type index of the code is below 2^32.
fn heap_is_small(heap: &HeapType)
    ensures { IsSmallHeap (heap_type heap.now) }
{
    if let HeapType::Concrete(index) = heap {
        let _index = *index;
    }
}

fn value_is_small(ty: &ValType)
    ensures { IsSmallValue (val_type ty.now) }
{
    if let ValType::Ref(reference) = ty {
        heap_is_small(&reference.heap_type);
    }
}

fn block_is_small(ty: &BlockType)
    ensures { IsSmallBlock (block_type ty.now) }
{
    match ty {
        BlockType::Empty => {}
        BlockType::Result(ty) => value_is_small(ty),
        BlockType::FunctionType(index) => {
            let _index = *index;
        }
    }
}

// The memory and the offset are numbers of 32 and of 64 bits.
fn argument_is_small(memarg: &MemArg)
    ensures memory { memarg.now.memory_index < 2 ^ 32 }
    ensures offset { memarg.now.offset < 2 ^ 64 }
{
    let _memory = memarg.memory_index;
    let _offset = memarg.offset;
}

// Labels of the code are below 2^32.
fn labels_are_small(labels: &[u32])
    ensures { AllByRecursion IsSmallIndex labels.now }
{}

// Each number of an instruction fits the width at which it is read.
#[tactic(auto, using(crate::proofs::TableRows::rows_in))]
fn is_small(instruction: &Instruction<'_>)
    ensures { IsAligned instruction.now → IsSmallOperator (operator instruction.now) }
{
    match instruction {
        Instruction::Unreachable => {}
        Instruction::Nop => {}
        Instruction::Block(ty) => {
            block_is_small(ty);
        }
        Instruction::Loop(ty) => {
            block_is_small(ty);
        }
        Instruction::If(ty) => {
            block_is_small(ty);
        }
        Instruction::Else => {}
        Instruction::End => {}
        Instruction::Br(label) => {
            let _label = *label;
        }
        Instruction::BrIf(label) => {
            let _label = *label;
        }
        Instruction::BrTable(labels, other) => {
            labels_are_small(labels);
            let _other = *other;
        }
        Instruction::BrOnNull(label) => {
            let _label = *label;
        }
        Instruction::BrOnNonNull(label) => {
            let _label = *label;
        }
        Instruction::Return => {}
        Instruction::Call(function) => {
            let _function = *function;
        }
        Instruction::CallRef(ty) => {
            let _ty = *ty;
        }
        Instruction::CallIndirect {
            type_index,
            table_index,
        } => {
            let _type_index = *type_index;
            let _table_index = *table_index;
        }
        Instruction::ReturnCallRef(ty) => {
            let _ty = *ty;
        }
        Instruction::ReturnCall(function) => {
            let _function = *function;
        }
        Instruction::ReturnCallIndirect {
            type_index,
            table_index,
        } => {
            let _type_index = *type_index;
            let _table_index = *table_index;
        }
        Instruction::Drop => {}
        Instruction::Select => {}
        Instruction::LocalGet(local) => {
            let _local = *local;
        }
        Instruction::LocalSet(local) => {
            let _local = *local;
        }
        Instruction::LocalTee(local) => {
            let _local = *local;
        }
        Instruction::GlobalGet(global) => {
            let _global = *global;
        }
        Instruction::GlobalSet(global) => {
            let _global = *global;
        }
        Instruction::I32Load(memarg) => {
            argument_is_small(memarg);
        }
        Instruction::I64Load(memarg) => {
            argument_is_small(memarg);
        }
        Instruction::F32Load(memarg) => {
            argument_is_small(memarg);
        }
        Instruction::F64Load(memarg) => {
            argument_is_small(memarg);
        }
        Instruction::I32Load8S(memarg) => {
            argument_is_small(memarg);
        }
        Instruction::I32Load8U(memarg) => {
            argument_is_small(memarg);
        }
        Instruction::I32Load16S(memarg) => {
            argument_is_small(memarg);
        }
        Instruction::I32Load16U(memarg) => {
            argument_is_small(memarg);
        }
        Instruction::I64Load8S(memarg) => {
            argument_is_small(memarg);
        }
        Instruction::I64Load8U(memarg) => {
            argument_is_small(memarg);
        }
        Instruction::I64Load16S(memarg) => {
            argument_is_small(memarg);
        }
        Instruction::I64Load16U(memarg) => {
            argument_is_small(memarg);
        }
        Instruction::I64Load32S(memarg) => {
            argument_is_small(memarg);
        }
        Instruction::I64Load32U(memarg) => {
            argument_is_small(memarg);
        }
        Instruction::I32Store(memarg) => {
            argument_is_small(memarg);
        }
        Instruction::I64Store(memarg) => {
            argument_is_small(memarg);
        }
        Instruction::F32Store(memarg) => {
            argument_is_small(memarg);
        }
        Instruction::F64Store(memarg) => {
            argument_is_small(memarg);
        }
        Instruction::I32Store8(memarg) => {
            argument_is_small(memarg);
        }
        Instruction::I32Store16(memarg) => {
            argument_is_small(memarg);
        }
        Instruction::I64Store8(memarg) => {
            argument_is_small(memarg);
        }
        Instruction::I64Store16(memarg) => {
            argument_is_small(memarg);
        }
        Instruction::I64Store32(memarg) => {
            argument_is_small(memarg);
        }
        Instruction::MemorySize(memory) => {
            let _memory = *memory;
        }
        Instruction::MemoryGrow(memory) => {
            let _memory = *memory;
        }
        Instruction::MemoryInit { mem, data_index } => {
            let _mem = *mem;
            let _data_index = *data_index;
        }
        Instruction::DataDrop(segment) => {
            let _segment = *segment;
        }
        Instruction::MemoryCopy { src_mem, dst_mem } => {
            let _src_mem = *src_mem;
            let _dst_mem = *dst_mem;
        }
        Instruction::MemoryFill(memory) => {
            let _memory = *memory;
        }
        Instruction::I32Const(value) => {
            let _value = *value;
        }
        Instruction::I64Const(value) => {
            let _value = *value;
        }
        Instruction::F32Const(value) => {
            let _bits = value.bits();
        }
        Instruction::F64Const(value) => {
            let _bits = value.bits();
        }
        Instruction::Scalar(_) => {}
        Instruction::TypedSelect(ty) => {
            value_is_small(ty);
        }
        Instruction::TypedSelectMulti(_) => {}
        Instruction::RefNull(heap) => {
            heap_is_small(heap);
        }
        Instruction::RefIsNull => {}
        Instruction::RefFunc(function) => {
            let _function = *function;
        }
        Instruction::RefEq => {}
        Instruction::RefAsNonNull => {}
        Instruction::StructNew(ty) => {
            let _ty = *ty;
        }
        Instruction::StructNewDefault(ty) => {
            let _ty = *ty;
        }
        Instruction::ArrayNew(ty) => {
            let _ty = *ty;
        }
        Instruction::ArrayNewDefault(ty) => {
            let _ty = *ty;
        }
        Instruction::ArrayNewFixed {
            array_type_index,
            array_size,
        } => {
            let _array_type_index = *array_type_index;
            let _array_size = *array_size;
        }
        Instruction::AnyConvertExtern => {}
        Instruction::ExternConvertAny => {}
        Instruction::RefI31 => {}
        Instruction::TableInit { elem_index, table } => {
            let _elem_index = *elem_index;
            let _table = *table;
        }
        Instruction::ElemDrop(segment) => {
            let _segment = *segment;
        }
        Instruction::TableFill(table) => {
            let _table = *table;
        }
        Instruction::TableSet(table) => {
            let _table = *table;
        }
        Instruction::TableGet(table) => {
            let _table = *table;
        }
        Instruction::TableGrow(table) => {
            let _table = *table;
        }
        Instruction::TableSize(table) => {
            let _table = *table;
        }
        Instruction::TableCopy {
            src_table,
            dst_table,
        } => {
            let _src_table = *src_table;
            let _dst_table = *dst_table;
        }
        Instruction::V128Const(_) => {}
    }
}

/// Proves that an instruction is written as the shortest encoding of its operator, and so reads as it.
pub fn reads_back(instruction: &Instruction<'_>)
    ensures { (features : Features) → HasWholeImmediates features → IsAligned instruction.now → length (instruction_encoding instruction.now) < 2 ^ 32
        → IsShortest (IsOperator features) (instruction_encoding instruction.now) (operator instruction.now) }
{
    is_small(instruction);
}
