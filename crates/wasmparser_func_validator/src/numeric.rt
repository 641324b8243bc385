//! Operators on numbers alone (Core Specification 3.0, Validation, "Numeric Instructions").

ghost use Rattle.std.specs.Prelude.{◌≡◌};
ghost use Rattle.std.specs.List.{list_all};
ghost use Rattle.wasm_bodies.specs.OperatorGates.{float_gate};
ghost use Rattle.wasm_bodies.specs.OperatorRows.{value_type};
ghost use Rattle.wasm_core_types.specs.Features.{feature_set};
ghost use Rattle.wasm_spec.specs.Features.{has};
ghost use Rattle.wasmparser_func_validator.specs.NumericForms.{form_gives, form_takes, number};
ghost use Rattle.wasmparser_operators.specs.ScalarValues.{scalar_row};
ghost use Rattle.wasmparser_types.specs.ValTypes.{val_type};

use crate::number_type::NumberType;
use wasm_core_types::features::WasmFeatures;
use wasm_core_types::scalar_operator::ScalarOperator;

// The form of an operator on numbers: the operands that it takes and the result that it gives.
#[derive(Clone, Copy, Debug, PartialEq, Eq)]
pub(crate) enum NumericForm {
    // One operand of the first type, and a result of the second.
    Unary(NumberType, NumberType),
    // Two operands of the first type, and a result of the second.
    Binary(NumberType, NumberType),
}

// Returns the form of the operator.
#[tactic(auto, unfolding(wasmparser_operators::specs::CodeTables::row_of))]
pub(crate) fn form_of(operator: ScalarOperator) -> NumericForm
    ensures takes { form_takes result ≡ (scalar_row operator).takes }
    ensures gives { form_gives result ≡ (scalar_row operator).gives }
{
    match operator {
        ScalarOperator::I32Eqz
        | ScalarOperator::I32Clz
        | ScalarOperator::I32Ctz
        | ScalarOperator::I32Popcnt
        | ScalarOperator::I32Extend8S
        | ScalarOperator::I32Extend16S => NumericForm::Unary(NumberType::I32, NumberType::I32),
        ScalarOperator::I32Eq
        | ScalarOperator::I32Ne
        | ScalarOperator::I32LtS
        | ScalarOperator::I32LtU
        | ScalarOperator::I32GtS
        | ScalarOperator::I32GtU
        | ScalarOperator::I32LeS
        | ScalarOperator::I32LeU
        | ScalarOperator::I32GeS
        | ScalarOperator::I32GeU
        | ScalarOperator::I32Add
        | ScalarOperator::I32Sub
        | ScalarOperator::I32Mul
        | ScalarOperator::I32DivS
        | ScalarOperator::I32DivU
        | ScalarOperator::I32RemS
        | ScalarOperator::I32RemU
        | ScalarOperator::I32And
        | ScalarOperator::I32Or
        | ScalarOperator::I32Xor
        | ScalarOperator::I32Shl
        | ScalarOperator::I32ShrS
        | ScalarOperator::I32ShrU
        | ScalarOperator::I32Rotl
        | ScalarOperator::I32Rotr => NumericForm::Binary(NumberType::I32, NumberType::I32),
        ScalarOperator::I64Eqz | ScalarOperator::I32WrapI64 => NumericForm::Unary(
            NumberType::I64,
            NumberType::I32,
        ),
        ScalarOperator::I64Eq
        | ScalarOperator::I64Ne
        | ScalarOperator::I64LtS
        | ScalarOperator::I64LtU
        | ScalarOperator::I64GtS
        | ScalarOperator::I64GtU
        | ScalarOperator::I64LeS
        | ScalarOperator::I64LeU
        | ScalarOperator::I64GeS
        | ScalarOperator::I64GeU => NumericForm::Binary(NumberType::I64, NumberType::I32),
        ScalarOperator::F32Eq
        | ScalarOperator::F32Ne
        | ScalarOperator::F32Lt
        | ScalarOperator::F32Gt
        | ScalarOperator::F32Le
        | ScalarOperator::F32Ge => NumericForm::Binary(NumberType::F32, NumberType::I32),
        ScalarOperator::F64Eq
        | ScalarOperator::F64Ne
        | ScalarOperator::F64Lt
        | ScalarOperator::F64Gt
        | ScalarOperator::F64Le
        | ScalarOperator::F64Ge => NumericForm::Binary(NumberType::F64, NumberType::I32),
        ScalarOperator::I64Clz
        | ScalarOperator::I64Ctz
        | ScalarOperator::I64Popcnt
        | ScalarOperator::I64Extend8S
        | ScalarOperator::I64Extend16S
        | ScalarOperator::I64Extend32S => NumericForm::Unary(NumberType::I64, NumberType::I64),
        ScalarOperator::I64Add
        | ScalarOperator::I64Sub
        | ScalarOperator::I64Mul
        | ScalarOperator::I64DivS
        | ScalarOperator::I64DivU
        | ScalarOperator::I64RemS
        | ScalarOperator::I64RemU
        | ScalarOperator::I64And
        | ScalarOperator::I64Or
        | ScalarOperator::I64Xor
        | ScalarOperator::I64Shl
        | ScalarOperator::I64ShrS
        | ScalarOperator::I64ShrU
        | ScalarOperator::I64Rotl
        | ScalarOperator::I64Rotr => NumericForm::Binary(NumberType::I64, NumberType::I64),
        ScalarOperator::F32Abs
        | ScalarOperator::F32Neg
        | ScalarOperator::F32Ceil
        | ScalarOperator::F32Floor
        | ScalarOperator::F32Trunc
        | ScalarOperator::F32Nearest
        | ScalarOperator::F32Sqrt => NumericForm::Unary(NumberType::F32, NumberType::F32),
        ScalarOperator::F32Add
        | ScalarOperator::F32Sub
        | ScalarOperator::F32Mul
        | ScalarOperator::F32Div
        | ScalarOperator::F32Min
        | ScalarOperator::F32Max
        | ScalarOperator::F32Copysign => NumericForm::Binary(NumberType::F32, NumberType::F32),
        ScalarOperator::F64Abs
        | ScalarOperator::F64Neg
        | ScalarOperator::F64Ceil
        | ScalarOperator::F64Floor
        | ScalarOperator::F64Trunc
        | ScalarOperator::F64Nearest
        | ScalarOperator::F64Sqrt => NumericForm::Unary(NumberType::F64, NumberType::F64),
        ScalarOperator::F64Add
        | ScalarOperator::F64Sub
        | ScalarOperator::F64Mul
        | ScalarOperator::F64Div
        | ScalarOperator::F64Min
        | ScalarOperator::F64Max
        | ScalarOperator::F64Copysign => NumericForm::Binary(NumberType::F64, NumberType::F64),
        ScalarOperator::I32TruncF32S
        | ScalarOperator::I32TruncF32U
        | ScalarOperator::I32ReinterpretF32
        | ScalarOperator::I32TruncSatF32S
        | ScalarOperator::I32TruncSatF32U => NumericForm::Unary(NumberType::F32, NumberType::I32),
        ScalarOperator::I32TruncF64S
        | ScalarOperator::I32TruncF64U
        | ScalarOperator::I32TruncSatF64S
        | ScalarOperator::I32TruncSatF64U => NumericForm::Unary(NumberType::F64, NumberType::I32),
        ScalarOperator::I64ExtendI32S | ScalarOperator::I64ExtendI32U => NumericForm::Unary(
            NumberType::I32,
            NumberType::I64,
        ),
        ScalarOperator::I64TruncF32S
        | ScalarOperator::I64TruncF32U
        | ScalarOperator::I64TruncSatF32S
        | ScalarOperator::I64TruncSatF32U => NumericForm::Unary(NumberType::F32, NumberType::I64),
        ScalarOperator::I64TruncF64S
        | ScalarOperator::I64TruncF64U
        | ScalarOperator::I64ReinterpretF64
        | ScalarOperator::I64TruncSatF64S
        | ScalarOperator::I64TruncSatF64U => NumericForm::Unary(NumberType::F64, NumberType::I64),
        ScalarOperator::F32ConvertI32S
        | ScalarOperator::F32ConvertI32U
        | ScalarOperator::F32ReinterpretI32 => NumericForm::Unary(NumberType::I32, NumberType::F32),
        ScalarOperator::F32ConvertI64S | ScalarOperator::F32ConvertI64U => NumericForm::Unary(
            NumberType::I64,
            NumberType::F32,
        ),
        ScalarOperator::F32DemoteF64 => NumericForm::Unary(NumberType::F64, NumberType::F32),
        ScalarOperator::F64ConvertI32S | ScalarOperator::F64ConvertI32U => NumericForm::Unary(
            NumberType::I32,
            NumberType::F64,
        ),
        ScalarOperator::F64ConvertI64S
        | ScalarOperator::F64ConvertI64U
        | ScalarOperator::F64ReinterpretI64 => NumericForm::Unary(NumberType::I64, NumberType::F64),
        ScalarOperator::F64PromoteF32 => NumericForm::Unary(NumberType::F32, NumberType::F64),
    }
}
