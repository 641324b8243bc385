//! Operators that features allow.

ghost use Rattle.std.specs.Prelude.{◌≡◌, ◌∷◌, ◌++◌, []};
ghost use Rattle.std.specs.List.{list_all};
ghost use Rattle.wasm_bodies.specs.OperatorGates.{block_gate, float_gate};
ghost use Rattle.wasm_bodies.specs.OperatorGates as gates;
ghost use Rattle.wasm_core_types.specs.Features.{feature_set};
ghost use Rattle.wasm_spec.specs.Features.{has};
ghost use Rattle.wasmparser_func_validator.specs.NumericForms.{form_gives, form_takes, number};
ghost use Rattle.wasmparser_operators.specs.OperatorValues.{block_type, operator};
ghost use Rattle.wasmparser_operators.specs.ScalarValues.{scalar_row};

use crate::number_type::NumberType;
use crate::numeric::{NumericForm, form_of};
use wasm_core_types::features::WasmFeatures;
use wasm_core_types::scalar_operator::ScalarOperator;
use wasmparser_operators::immediates::BlockType;
use wasmparser_operators::operator::Operator;

// Checks that a block of the type is allowed.
fn is_block_on(features: WasmFeatures, blockty: &BlockType) -> bool
    ensures { result ≡ list_all (has (feature_set features)) (block_gate (block_type blockty.now)) }
{
    match blockty {
        BlockType::Empty | BlockType::Type(_) => true,
        BlockType::FuncType(_) => features.multi_value(),
    }
}

// Checks that the proposal that brought the operator is on.
#[tactic(auto, unfolding(wasmparser_operators::specs::CodeTables::row_of))]
fn is_proposal_on(features: WasmFeatures, operator: ScalarOperator) -> bool
    ensures { result ≡ list_all (has (feature_set features)) (scalar_row operator).gate }
{
    match operator {
        ScalarOperator::I32Extend8S
        | ScalarOperator::I32Extend16S
        | ScalarOperator::I64Extend8S
        | ScalarOperator::I64Extend16S
        | ScalarOperator::I64Extend32S => features.sign_extension(),
        ScalarOperator::I32TruncSatF32S
        | ScalarOperator::I32TruncSatF32U
        | ScalarOperator::I32TruncSatF64S
        | ScalarOperator::I32TruncSatF64U
        | ScalarOperator::I64TruncSatF32S
        | ScalarOperator::I64TruncSatF32U
        | ScalarOperator::I64TruncSatF64S
        | ScalarOperator::I64TruncSatF64U => features.saturating_float_to_int(),
        _ => true,
    }
}

// Checks that an operator of this form is allowed, as far as floats go.
#[inline(always)]
pub(crate) fn are_floats_on(features: WasmFeatures, form: NumericForm) -> bool
    ensures { result ≡ list_all (has (feature_set features)) (float_gate (form_gives form ∷ form_takes form)) }
{
    let has_floats = match form {
        NumericForm::Unary(from, to) => from.is_float() || to.is_float(),
        NumericForm::Binary(from, to) => from.is_float() || to.is_float(),
    };
    !has_floats || features.floats()
}

// Checks that a number of the type is allowed.
#[inline(always)]
pub(crate) fn is_number_on(features: WasmFeatures, ty: NumberType) -> bool
    ensures { result ≡ list_all (has (feature_set features)) (float_gate (number ty ∷ [])) }
{
    !ty.is_float() || features.floats()
}

fn is_scalar_on(features: WasmFeatures, operator: ScalarOperator) -> bool
    ensures { result ≡ list_all (has (feature_set features)) ((scalar_row operator).gate ++ float_gate ((scalar_row operator).gives ∷ (scalar_row operator).takes)) }
{
    is_proposal_on(features, operator) && are_floats_on(features, form_of(operator))
}

// Checks that the features allow the operator.
pub(crate) fn is_on(features: WasmFeatures, op: &Operator<'_>) -> bool
    ensures { result ≡ gates.is_on (feature_set features) (operator op.now) }
{
    match op {
        Operator::Block { blockty } | Operator::Loop { blockty } | Operator::If { blockty } => {
            is_block_on(features, blockty)
        }
        Operator::Scalar(it) => is_scalar_on(features, *it),
        Operator::F32Load { .. }
        | Operator::F64Load { .. }
        | Operator::F32Store { .. }
        | Operator::F64Store { .. }
        | Operator::F32Const { .. }
        | Operator::F64Const { .. } => features.floats(),
        Operator::ReturnCall { .. } | Operator::ReturnCallIndirect { .. } => features.tail_call(),
        Operator::CallRef { .. }
        | Operator::ReturnCallRef { .. }
        | Operator::RefAsNonNull
        | Operator::BrOnNull { .. }
        | Operator::BrOnNonNull { .. } => features.function_references(),
        Operator::TypedSelect { .. }
        | Operator::TypedSelectMulti { .. }
        | Operator::TableGet { .. }
        | Operator::TableSet { .. }
        | Operator::TableSize { .. }
        | Operator::TableGrow { .. }
        | Operator::TableFill { .. }
        | Operator::RefNull { .. }
        | Operator::RefIsNull
        | Operator::RefFunc { .. } => features.reference_types(),
        Operator::V128Const { .. } => features.simd(),
        Operator::MemoryInit { .. }
        | Operator::DataDrop { .. }
        | Operator::MemoryCopy { .. }
        | Operator::MemoryFill { .. }
        | Operator::TableInit { .. }
        | Operator::ElemDrop { .. }
        | Operator::TableCopy { .. } => features.bulk_memory(),
        Operator::RefEq
        | Operator::StructNew { .. }
        | Operator::StructNewDefault { .. }
        | Operator::ArrayNew { .. }
        | Operator::ArrayNewDefault { .. }
        | Operator::ArrayNewFixed { .. }
        | Operator::AnyConvertExtern
        | Operator::ExternConvertAny
        | Operator::RefI31 => features.gc(),
        Operator::Unreachable
        | Operator::Nop
        | Operator::Else
        | Operator::End
        | Operator::Br { .. }
        | Operator::BrIf { .. }
        | Operator::BrTable { .. }
        | Operator::Return
        | Operator::Call { .. }
        | Operator::CallIndirect { .. }
        | Operator::Drop
        | Operator::Select
        | Operator::LocalGet { .. }
        | Operator::LocalSet { .. }
        | Operator::LocalTee { .. }
        | Operator::GlobalGet { .. }
        | Operator::GlobalSet { .. }
        | Operator::I32Load { .. }
        | Operator::I64Load { .. }
        | Operator::I32Load8S { .. }
        | Operator::I32Load8U { .. }
        | Operator::I32Load16S { .. }
        | Operator::I32Load16U { .. }
        | Operator::I64Load8S { .. }
        | Operator::I64Load8U { .. }
        | Operator::I64Load16S { .. }
        | Operator::I64Load16U { .. }
        | Operator::I64Load32S { .. }
        | Operator::I64Load32U { .. }
        | Operator::I32Store { .. }
        | Operator::I64Store { .. }
        | Operator::I32Store8 { .. }
        | Operator::I32Store16 { .. }
        | Operator::I64Store8 { .. }
        | Operator::I64Store16 { .. }
        | Operator::I64Store32 { .. }
        | Operator::MemorySize { .. }
        | Operator::MemoryGrow { .. }
        | Operator::I32Const { .. }
        | Operator::I64Const { .. } => true,
    }
}
