//! The last of three ways to validate operators, and the only one that has them all and refuses: one `Operator` at a time, by the whole rule, to which `quick`
//! and `plain` are shortcuts.

ghost use Rattle.std.specs.Prelude.{◌≡◌, ◌≢◌, []};
ghost use Rattle.wasm_bodies.specs.OperatorRows.{value_type};
ghost use Rattle.wasm_bodies.specs.Operands.{applied};
ghost use Rattle.wasm_bodies.specs.Operators as spec;
ghost use Rattle.wasm_bodies.specs.Signatures.{gives_one};
ghost use Rattle.wasm_bodies_laws.specs.Machine.{stepped};
ghost use Rattle.wasmparser_func_validator.specs.NumericForms.{number};
ghost use Rattle.wasmparser_func_validator.specs.Steps.{HasEffect, Steps, Takes, body_context, items_in};
ghost use Rattle.wasmparser_operators.specs.OperatorValues.{NamesModuleTypes, operator};

use crate::body::Body;
use crate::gates::is_on;
use crate::number_type::NumberType;
use crate::refusal::Refusal;
use wasmparser_bodies::frame::FrameKind;
use wasmparser_bodies::module_resources::WasmModuleResources;
use wasmparser_bodies::stacks::Stacks;
use wasmparser_operators::operator::Operator;
use wasmparser_types::val_type::ValType;

impl<R: WasmModuleResources> Body<R> {
    // Gives a number.
    fn constant(&self, stacks: &mut Stacks, ty: NumberType) -> Result<(), Refusal>
        ensures { Takes (applied (items_in R.resources self.now) (gives_one (value_type (number ty))) stacks.old.now) stacks.old stacks.new result }
    {
        self.apply(stacks, &[], &[ty.val_type()])
    }

    // Gives a vector.
    fn vector(&self, stacks: &mut Stacks) -> Result<(), Refusal>
        ensures { HasEffect (body_context R.resources self.now) (spec.V128Const []) stacks.old stacks.new result }
    {
        self.apply(stacks, &[], &[ValType::V128])
    }

    // Validates an operator that neither opens, parts nor ends a block.
    fn operate(&self, stacks: &mut Stacks, op: &Operator<'_>) -> Result<(), Refusal>
        requires open { stacks.old.frames ≢ [] }
        requires named { NamesModuleTypes op.now }
        ensures { HasEffect (body_context R.resources self.now) (operator op.now) stacks.old stacks.new result }
    {
        match op {
            Operator::Unreachable => {
                stacks.mark_unreachable();
                Ok(())
            }
            Operator::Nop => Ok(()),
            Operator::Block { .. }
            | Operator::Loop { .. }
            | Operator::If { .. }
            | Operator::Else
            | Operator::End => Err(Refusal::Invalid),
            Operator::Br { relative_depth } => self.br(stacks, *relative_depth),
            Operator::BrIf { relative_depth } => self.br_if(stacks, *relative_depth),
            Operator::BrTable { targets } => self.br_table(stacks, targets),
            Operator::Return => self.return_(stacks),
            Operator::Call { function_index } => self.call(stacks, *function_index),
            Operator::CallIndirect {
                type_index,
                table_index,
            } => self.call_indirect(stacks, *type_index, *table_index),
            Operator::ReturnCall { function_index } => self.return_call(stacks, *function_index),
            Operator::ReturnCallIndirect {
                type_index,
                table_index,
            } => self.return_call_indirect(stacks, *type_index, *table_index),
            Operator::CallRef { type_index } => self.call_ref(stacks, *type_index),
            Operator::ReturnCallRef { type_index } => self.return_call_ref(stacks, *type_index),
            Operator::Drop => self.drop_one(stacks),
            Operator::Select => self.select(stacks),
            Operator::TypedSelect { ty } => self.select_typed(stacks, ty),
            Operator::TypedSelectMulti { tys } => {
                // (by this call a proof knows that it isn't one type)
                let _ = tys.len();
                Err(Refusal::Invalid)
            }
            Operator::LocalGet { local_index } => self.local_get(stacks, *local_index),
            Operator::LocalSet { local_index } => self.local_set(stacks, *local_index),
            Operator::LocalTee { local_index } => self.local_tee(stacks, *local_index),
            Operator::GlobalGet { global_index } => self.global_get(stacks, *global_index),
            Operator::GlobalSet { global_index } => self.global_set(stacks, *global_index),
            Operator::TableGet { table } => self.table_get(stacks, *table),
            Operator::TableSet { table } => self.table_set(stacks, *table),
            Operator::I32Load { memarg } => { self.load(stacks, memarg, 2, NumberType::I32) }
            Operator::I64Load { memarg } => { self.load(stacks, memarg, 3, NumberType::I64) }
            Operator::F32Load { memarg } => { self.load(stacks, memarg, 2, NumberType::F32) }
            Operator::F64Load { memarg } => { self.load(stacks, memarg, 3, NumberType::F64) }
            Operator::I32Load8S { memarg } => { self.load(stacks, memarg, 0, NumberType::I32) }
            Operator::I32Load8U { memarg } => { self.load(stacks, memarg, 0, NumberType::I32) }
            Operator::I32Load16S { memarg } => { self.load(stacks, memarg, 1, NumberType::I32) }
            Operator::I32Load16U { memarg } => { self.load(stacks, memarg, 1, NumberType::I32) }
            Operator::I64Load8S { memarg } => { self.load(stacks, memarg, 0, NumberType::I64) }
            Operator::I64Load8U { memarg } => { self.load(stacks, memarg, 0, NumberType::I64) }
            Operator::I64Load16S { memarg } => { self.load(stacks, memarg, 1, NumberType::I64) }
            Operator::I64Load16U { memarg } => { self.load(stacks, memarg, 1, NumberType::I64) }
            Operator::I64Load32S { memarg } => { self.load(stacks, memarg, 2, NumberType::I64) }
            Operator::I64Load32U { memarg } => { self.load(stacks, memarg, 2, NumberType::I64) }
            Operator::I32Store { memarg } => { self.store(stacks, memarg, 2, NumberType::I32) }
            Operator::I64Store { memarg } => { self.store(stacks, memarg, 3, NumberType::I64) }
            Operator::F32Store { memarg } => { self.store(stacks, memarg, 2, NumberType::F32) }
            Operator::F64Store { memarg } => { self.store(stacks, memarg, 3, NumberType::F64) }
            Operator::I32Store8 { memarg } => { self.store(stacks, memarg, 0, NumberType::I32) }
            Operator::I32Store16 { memarg } => { self.store(stacks, memarg, 1, NumberType::I32) }
            Operator::I64Store8 { memarg } => { self.store(stacks, memarg, 0, NumberType::I64) }
            Operator::I64Store16 { memarg } => { self.store(stacks, memarg, 1, NumberType::I64) }
            Operator::I64Store32 { memarg } => { self.store(stacks, memarg, 2, NumberType::I64) }
            Operator::MemorySize { mem } => self.memory_size(stacks, *mem),
            Operator::MemoryGrow { mem } => self.memory_grow(stacks, *mem),
            Operator::I32Const { .. } => self.constant(stacks, NumberType::I32),
            Operator::I64Const { .. } => self.constant(stacks, NumberType::I64),
            Operator::F32Const { .. } => self.constant(stacks, NumberType::F32),
            Operator::F64Const { .. } => self.constant(stacks, NumberType::F64),
            Operator::Scalar(it) => self.scalar(stacks, *it),
            Operator::RefNull { hty } => self.ref_null(stacks, hty),
            Operator::RefIsNull => self.ref_is_null(stacks),
            Operator::RefFunc { function_index } => self.ref_func(stacks, *function_index),
            Operator::RefEq => self.ref_eq(stacks),
            Operator::RefAsNonNull => self.ref_as_non_null(stacks),
            Operator::BrOnNull { relative_depth } => self.br_on_null(stacks, *relative_depth),
            Operator::BrOnNonNull { relative_depth } => self.br_on_non_null(
                stacks,
                *relative_depth,
            ),
            Operator::StructNew { struct_type_index } => self.struct_new(
                stacks,
                *struct_type_index,
            ),
            Operator::StructNewDefault { struct_type_index } => {
                self.struct_new_default(stacks, *struct_type_index)
            }
            Operator::ArrayNew { array_type_index } => self.array_new(stacks, *array_type_index),
            Operator::ArrayNewDefault { array_type_index } => {
                self.array_new_default(stacks, *array_type_index)
            }
            Operator::ArrayNewFixed {
                array_type_index,
                array_size,
            } => self.array_new_fixed(stacks, *array_type_index, *array_size),
            Operator::AnyConvertExtern => self.any_convert_extern(stacks),
            Operator::ExternConvertAny => self.extern_convert_any(stacks),
            Operator::RefI31 => self.ref_i31(stacks),
            Operator::MemoryInit { data_index, mem } => {
                self.memory_init(stacks, *data_index, *mem)
            }
            Operator::DataDrop { data_index } => self.data_drop(stacks, *data_index),
            Operator::MemoryCopy { dst_mem, src_mem } => {
                self.memory_copy(stacks, *dst_mem, *src_mem)
            }
            Operator::MemoryFill { mem } => self.memory_fill(stacks, *mem),
            Operator::TableInit { elem_index, table } => {
                self.table_init(stacks, *elem_index, *table)
            }
            Operator::ElemDrop { elem_index } => self.elem_drop(stacks, *elem_index),
            Operator::TableCopy {
                dst_table,
                src_table,
            } => self.table_copy(stacks, *dst_table, *src_table),
            Operator::TableGrow { table } => self.table_grow(stacks, *table),
            Operator::TableSize { table } => self.table_size(stacks, *table),
            Operator::TableFill { table } => self.table_fill(stacks, *table),
            Operator::V128Const { .. } => self.vector(stacks),
        }
    }

    // Validates one operator. None may come after the end of the body.
    pub(crate) fn step(&self, stacks: &mut Stacks, op: &Operator<'_>) -> Result<(), Refusal>
        requires { NamesModuleTypes op.now }
        ensures { Steps (stepped (body_context R.resources self.now) stacks.old (operator op.now)) stacks.old stacks.new result }
    {
        if stacks.is_closed() {
            return Err(Refusal::Invalid);
        }
        if !is_on(self.features, op) {
            return Err(Refusal::Invalid);
        }
        match op {
            Operator::Block { blockty } => self.open(stacks, FrameKind::Block, blockty),
            Operator::Loop { blockty } => self.open(stacks, FrameKind::Loop, blockty),
            Operator::If { blockty } => self.open_if(stacks, blockty),
            Operator::Else => self.else_(stacks),
            Operator::End => self.close(stacks),
            _ => self.operate(stacks, op),
        }
    }
}
