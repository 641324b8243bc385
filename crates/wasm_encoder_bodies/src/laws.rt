//! What the calls append is what their instructions are written as. The function does nothing: its contract is a theorem.

ghost use Rattle.std.specs.Borrow.{Bor};
ghost use Rattle.std.specs.Prelude.{◌≡◌, ℕ, ℤ, List, [], ◌∷◌, map};
ghost use Rattle.wasm_bodies.specs.Operators as operators;
ghost use Rattle.wasm_core_types.specs.CoreTypes.{heap_type, val_type};
ghost use Rattle.wasm_encoder_instructions.specs.Immediates.{block_type};
ghost use Rattle.wasm_encoder_instructions.specs.Instructions.{instruction_encoding, loaded, stored, vector_bytes};
ghost use Rattle.wasm_encoder_instructions.specs.OperatorEncodings.{operator_encoding};

use wasm_core_types::types::{HeapType, ValType};
use wasm_encoder_instructions::block_type::BlockType;
use wasm_encoder_instructions::ieee::{Ieee32, Ieee64};
use wasm_encoder_instructions::instruction::Instruction;
use wasm_encoder_instructions::mem_arg::MemArg;

/// Each instruction is written as what the call of its name appends.
pub fn same_as_instructions()
    ensures block { (ty : BlockType) → instruction_encoding (Instruction.Block ty) ≡ operator_encoding (operators.Block (block_type ty)) }
    ensures loop_ { (ty : BlockType) → instruction_encoding (Instruction.Loop ty) ≡ operator_encoding (operators.Loop (block_type ty)) }
    ensures if_ { (ty : BlockType) → instruction_encoding (Instruction.If ty) ≡ operator_encoding (operators.If (block_type ty)) }
    ensures br { (label : ℕ) → instruction_encoding (Instruction.Br label) ≡ operator_encoding (operators.Br label) }
    ensures br_if { (label : ℕ) → instruction_encoding (Instruction.BrIf label) ≡ operator_encoding (operators.BrIf label) }
    ensures br_table { (labels : Bor (List ℕ)) (other : ℕ) → instruction_encoding (Instruction.BrTable labels other) ≡ operator_encoding (operators.BrTable labels.now other) }
    ensures br_on_null { (label : ℕ) → instruction_encoding (Instruction.BrOnNull label) ≡ operator_encoding (operators.BrOnNull label) }
    ensures br_on_non_null { (label : ℕ) → instruction_encoding (Instruction.BrOnNonNull label) ≡ operator_encoding (operators.BrOnNonNull label) }
    ensures call { (function : ℕ) → instruction_encoding (Instruction.Call function) ≡ operator_encoding (operators.Call function) }
    ensures call_ref { (type_index : ℕ) → instruction_encoding (Instruction.CallRef type_index) ≡ operator_encoding (operators.CallRef type_index) }
    ensures call_indirect { (table_index : ℕ) (type_index : ℕ) → instruction_encoding (Instruction.CallIndirect type_index table_index) ≡ operator_encoding (operators.CallIndirect type_index table_index) }
    ensures return_call_ref { (type_index : ℕ) → instruction_encoding (Instruction.ReturnCallRef type_index) ≡ operator_encoding (operators.ReturnCallRef type_index) }
    ensures return_call { (function : ℕ) → instruction_encoding (Instruction.ReturnCall function) ≡ operator_encoding (operators.ReturnCall function) }
    ensures return_call_indirect { (table_index : ℕ) (type_index : ℕ) → instruction_encoding (Instruction.ReturnCallIndirect type_index table_index) ≡ operator_encoding (operators.ReturnCallIndirect type_index table_index) }
    ensures local_get { (local : ℕ) → instruction_encoding (Instruction.LocalGet local) ≡ operator_encoding (operators.LocalGet local) }
    ensures local_set { (local : ℕ) → instruction_encoding (Instruction.LocalSet local) ≡ operator_encoding (operators.LocalSet local) }
    ensures local_tee { (local : ℕ) → instruction_encoding (Instruction.LocalTee local) ≡ operator_encoding (operators.LocalTee local) }
    ensures global_get { (global : ℕ) → instruction_encoding (Instruction.GlobalGet global) ≡ operator_encoding (operators.GlobalGet global) }
    ensures global_set { (global : ℕ) → instruction_encoding (Instruction.GlobalSet global) ≡ operator_encoding (operators.GlobalSet global) }
    ensures i32_load { (memarg : MemArg) → instruction_encoding (Instruction.I32Load memarg) ≡ operator_encoding (loaded 0x28 memarg) }
    ensures i64_load { (memarg : MemArg) → instruction_encoding (Instruction.I64Load memarg) ≡ operator_encoding (loaded 0x29 memarg) }
    ensures f32_load { (memarg : MemArg) → instruction_encoding (Instruction.F32Load memarg) ≡ operator_encoding (loaded 0x2a memarg) }
    ensures f64_load { (memarg : MemArg) → instruction_encoding (Instruction.F64Load memarg) ≡ operator_encoding (loaded 0x2b memarg) }
    ensures i32_load8_s { (memarg : MemArg) → instruction_encoding (Instruction.I32Load8S memarg) ≡ operator_encoding (loaded 0x2c memarg) }
    ensures i32_load8_u { (memarg : MemArg) → instruction_encoding (Instruction.I32Load8U memarg) ≡ operator_encoding (loaded 0x2d memarg) }
    ensures i32_load16_s { (memarg : MemArg) → instruction_encoding (Instruction.I32Load16S memarg) ≡ operator_encoding (loaded 0x2e memarg) }
    ensures i32_load16_u { (memarg : MemArg) → instruction_encoding (Instruction.I32Load16U memarg) ≡ operator_encoding (loaded 0x2f memarg) }
    ensures i64_load8_s { (memarg : MemArg) → instruction_encoding (Instruction.I64Load8S memarg) ≡ operator_encoding (loaded 0x30 memarg) }
    ensures i64_load8_u { (memarg : MemArg) → instruction_encoding (Instruction.I64Load8U memarg) ≡ operator_encoding (loaded 0x31 memarg) }
    ensures i64_load16_s { (memarg : MemArg) → instruction_encoding (Instruction.I64Load16S memarg) ≡ operator_encoding (loaded 0x32 memarg) }
    ensures i64_load16_u { (memarg : MemArg) → instruction_encoding (Instruction.I64Load16U memarg) ≡ operator_encoding (loaded 0x33 memarg) }
    ensures i64_load32_s { (memarg : MemArg) → instruction_encoding (Instruction.I64Load32S memarg) ≡ operator_encoding (loaded 0x34 memarg) }
    ensures i64_load32_u { (memarg : MemArg) → instruction_encoding (Instruction.I64Load32U memarg) ≡ operator_encoding (loaded 0x35 memarg) }
    ensures i32_store { (memarg : MemArg) → instruction_encoding (Instruction.I32Store memarg) ≡ operator_encoding (stored 0x36 memarg) }
    ensures i64_store { (memarg : MemArg) → instruction_encoding (Instruction.I64Store memarg) ≡ operator_encoding (stored 0x37 memarg) }
    ensures f32_store { (memarg : MemArg) → instruction_encoding (Instruction.F32Store memarg) ≡ operator_encoding (stored 0x38 memarg) }
    ensures f64_store { (memarg : MemArg) → instruction_encoding (Instruction.F64Store memarg) ≡ operator_encoding (stored 0x39 memarg) }
    ensures i32_store8 { (memarg : MemArg) → instruction_encoding (Instruction.I32Store8 memarg) ≡ operator_encoding (stored 0x3a memarg) }
    ensures i32_store16 { (memarg : MemArg) → instruction_encoding (Instruction.I32Store16 memarg) ≡ operator_encoding (stored 0x3b memarg) }
    ensures i64_store8 { (memarg : MemArg) → instruction_encoding (Instruction.I64Store8 memarg) ≡ operator_encoding (stored 0x3c memarg) }
    ensures i64_store16 { (memarg : MemArg) → instruction_encoding (Instruction.I64Store16 memarg) ≡ operator_encoding (stored 0x3d memarg) }
    ensures i64_store32 { (memarg : MemArg) → instruction_encoding (Instruction.I64Store32 memarg) ≡ operator_encoding (stored 0x3e memarg) }
    ensures memory_size { (memory : ℕ) → instruction_encoding (Instruction.MemorySize memory) ≡ operator_encoding (operators.MemorySize memory) }
    ensures memory_grow { (memory : ℕ) → instruction_encoding (Instruction.MemoryGrow memory) ≡ operator_encoding (operators.MemoryGrow memory) }
    ensures memory_init { (mem : ℕ) (data_index : ℕ) → instruction_encoding (Instruction.MemoryInit mem data_index) ≡ operator_encoding (operators.MemoryInit data_index mem) }
    ensures data_drop { (segment : ℕ) → instruction_encoding (Instruction.DataDrop segment) ≡ operator_encoding (operators.DataDrop segment) }
    ensures memory_copy { (dst_mem : ℕ) (src_mem : ℕ) → instruction_encoding (Instruction.MemoryCopy src_mem dst_mem) ≡ operator_encoding (operators.MemoryCopy dst_mem src_mem) }
    ensures memory_fill { (memory : ℕ) → instruction_encoding (Instruction.MemoryFill memory) ≡ operator_encoding (operators.MemoryFill memory) }
    ensures i32_const { (value : ℤ) → instruction_encoding (Instruction.I32Const value) ≡ operator_encoding (operators.I32Const value) }
    ensures i64_const { (value : ℤ) → instruction_encoding (Instruction.I64Const value) ≡ operator_encoding (operators.I64Const value) }
    ensures f32_const { (value : Ieee32) → instruction_encoding (Instruction.F32Const value) ≡ operator_encoding (operators.F32Const value.bits) }
    ensures f64_const { (value : Ieee64) → instruction_encoding (Instruction.F64Const value) ≡ operator_encoding (operators.F64Const value.bits) }
    ensures v128_const { (bits : ℤ) → instruction_encoding (Instruction.V128Const bits) ≡ operator_encoding (operators.V128Const (vector_bytes bits)) }
    ensures typed_select { (ty : ValType) → instruction_encoding (Instruction.TypedSelect ty) ≡ operator_encoding (operators.SelectTyped (val_type ty ∷ [])) }
    ensures typed_select_multi { (types : Bor (List ValType)) → instruction_encoding (Instruction.TypedSelectMulti types) ≡ operator_encoding (operators.SelectTyped (map val_type types.now)) }
    ensures ref_null { (ty : HeapType) → instruction_encoding (Instruction.RefNull ty) ≡ operator_encoding (operators.RefNull (heap_type ty)) }
    ensures ref_func { (function : ℕ) → instruction_encoding (Instruction.RefFunc function) ≡ operator_encoding (operators.RefFunc function) }
    ensures struct_new { (type_index : ℕ) → instruction_encoding (Instruction.StructNew type_index) ≡ operator_encoding (operators.StructNew type_index) }
    ensures struct_new_default { (type_index : ℕ) → instruction_encoding (Instruction.StructNewDefault type_index) ≡ operator_encoding (operators.StructNewDefault type_index) }
    ensures array_new { (type_index : ℕ) → instruction_encoding (Instruction.ArrayNew type_index) ≡ operator_encoding (operators.ArrayNew type_index) }
    ensures array_new_default { (type_index : ℕ) → instruction_encoding (Instruction.ArrayNewDefault type_index) ≡ operator_encoding (operators.ArrayNewDefault type_index) }
    ensures array_new_fixed { (array_type_index : ℕ) (array_size : ℕ) → instruction_encoding (Instruction.ArrayNewFixed array_type_index array_size) ≡ operator_encoding (operators.ArrayNewFixed array_type_index array_size) }
    ensures table_init { (table : ℕ) (elem_index : ℕ) → instruction_encoding (Instruction.TableInit elem_index table) ≡ operator_encoding (operators.TableInit elem_index table) }
    ensures elem_drop { (segment : ℕ) → instruction_encoding (Instruction.ElemDrop segment) ≡ operator_encoding (operators.ElemDrop segment) }
    ensures table_fill { (table : ℕ) → instruction_encoding (Instruction.TableFill table) ≡ operator_encoding (operators.TableFill table) }
    ensures table_set { (table : ℕ) → instruction_encoding (Instruction.TableSet table) ≡ operator_encoding (operators.TableSet table) }
    ensures table_get { (table : ℕ) → instruction_encoding (Instruction.TableGet table) ≡ operator_encoding (operators.TableGet table) }
    ensures table_grow { (table : ℕ) → instruction_encoding (Instruction.TableGrow table) ≡ operator_encoding (operators.TableGrow table) }
    ensures table_size { (table : ℕ) → instruction_encoding (Instruction.TableSize table) ≡ operator_encoding (operators.TableSize table) }
    ensures table_copy { (dst_table : ℕ) (src_table : ℕ) → instruction_encoding (Instruction.TableCopy src_table dst_table) ≡ operator_encoding (operators.TableCopy dst_table src_table) }
{}
