//! Operands and results of plain operators on numbers, by their codes (Core Specification 3.0, Binary Format, "Numeric Instructions"). None is an
//! operator that a proposal brought.

ghost use Rattle.std.specs.Prelude.{IfSome};
ghost use Rattle.wasmparser_func_validator.specs.Plain.{IsScalarForm};

use crate::number_type::NumberType;
use crate::numeric::NumericForm;

// Returns the form of an operator on integers of 32 bits.
#[tactic(auto, unfolding(wasmparser_operators::specs::CodeTables::row_of, wasmparser_operators::specs::OperatorReading::shape_of))]
#[inline(always)]
pub(crate) fn i32_form(code: u8) -> Option<NumericForm>
    ensures { IfSome result (IsScalarForm code) }
{
    match code {
        0x45 => Some(NumericForm::Unary(NumberType::I32, NumberType::I32)),
        0x46 => Some(NumericForm::Binary(NumberType::I32, NumberType::I32)),
        0x47 => Some(NumericForm::Binary(NumberType::I32, NumberType::I32)),
        0x48 => Some(NumericForm::Binary(NumberType::I32, NumberType::I32)),
        0x49 => Some(NumericForm::Binary(NumberType::I32, NumberType::I32)),
        0x4a => Some(NumericForm::Binary(NumberType::I32, NumberType::I32)),
        0x4b => Some(NumericForm::Binary(NumberType::I32, NumberType::I32)),
        0x4c => Some(NumericForm::Binary(NumberType::I32, NumberType::I32)),
        0x4d => Some(NumericForm::Binary(NumberType::I32, NumberType::I32)),
        0x4e => Some(NumericForm::Binary(NumberType::I32, NumberType::I32)),
        0x4f => Some(NumericForm::Binary(NumberType::I32, NumberType::I32)),
        0x67 => Some(NumericForm::Unary(NumberType::I32, NumberType::I32)),
        0x68 => Some(NumericForm::Unary(NumberType::I32, NumberType::I32)),
        0x69 => Some(NumericForm::Unary(NumberType::I32, NumberType::I32)),
        0x6a => Some(NumericForm::Binary(NumberType::I32, NumberType::I32)),
        0x6b => Some(NumericForm::Binary(NumberType::I32, NumberType::I32)),
        0x6c => Some(NumericForm::Binary(NumberType::I32, NumberType::I32)),
        0x6d => Some(NumericForm::Binary(NumberType::I32, NumberType::I32)),
        0x6e => Some(NumericForm::Binary(NumberType::I32, NumberType::I32)),
        0x6f => Some(NumericForm::Binary(NumberType::I32, NumberType::I32)),
        0x70 => Some(NumericForm::Binary(NumberType::I32, NumberType::I32)),
        0x71 => Some(NumericForm::Binary(NumberType::I32, NumberType::I32)),
        0x72 => Some(NumericForm::Binary(NumberType::I32, NumberType::I32)),
        0x73 => Some(NumericForm::Binary(NumberType::I32, NumberType::I32)),
        0x74 => Some(NumericForm::Binary(NumberType::I32, NumberType::I32)),
        0x75 => Some(NumericForm::Binary(NumberType::I32, NumberType::I32)),
        0x76 => Some(NumericForm::Binary(NumberType::I32, NumberType::I32)),
        0x77 => Some(NumericForm::Binary(NumberType::I32, NumberType::I32)),
        0x78 => Some(NumericForm::Binary(NumberType::I32, NumberType::I32)),
        _ => None,
    }
}

// Returns the form of an operator on integers of 64 bits.
#[tactic(auto, unfolding(wasmparser_operators::specs::CodeTables::row_of, wasmparser_operators::specs::OperatorReading::shape_of))]
#[inline(always)]
pub(crate) fn i64_form(code: u8) -> Option<NumericForm>
    ensures { IfSome result (IsScalarForm code) }
{
    match code {
        0x50 => Some(NumericForm::Unary(NumberType::I64, NumberType::I32)),
        0x51 => Some(NumericForm::Binary(NumberType::I64, NumberType::I32)),
        0x52 => Some(NumericForm::Binary(NumberType::I64, NumberType::I32)),
        0x53 => Some(NumericForm::Binary(NumberType::I64, NumberType::I32)),
        0x54 => Some(NumericForm::Binary(NumberType::I64, NumberType::I32)),
        0x55 => Some(NumericForm::Binary(NumberType::I64, NumberType::I32)),
        0x56 => Some(NumericForm::Binary(NumberType::I64, NumberType::I32)),
        0x57 => Some(NumericForm::Binary(NumberType::I64, NumberType::I32)),
        0x58 => Some(NumericForm::Binary(NumberType::I64, NumberType::I32)),
        0x59 => Some(NumericForm::Binary(NumberType::I64, NumberType::I32)),
        0x5a => Some(NumericForm::Binary(NumberType::I64, NumberType::I32)),
        0x79 => Some(NumericForm::Unary(NumberType::I64, NumberType::I64)),
        0x7a => Some(NumericForm::Unary(NumberType::I64, NumberType::I64)),
        0x7b => Some(NumericForm::Unary(NumberType::I64, NumberType::I64)),
        0x7c => Some(NumericForm::Binary(NumberType::I64, NumberType::I64)),
        0x7d => Some(NumericForm::Binary(NumberType::I64, NumberType::I64)),
        0x7e => Some(NumericForm::Binary(NumberType::I64, NumberType::I64)),
        0x7f => Some(NumericForm::Binary(NumberType::I64, NumberType::I64)),
        0x80 => Some(NumericForm::Binary(NumberType::I64, NumberType::I64)),
        0x81 => Some(NumericForm::Binary(NumberType::I64, NumberType::I64)),
        0x82 => Some(NumericForm::Binary(NumberType::I64, NumberType::I64)),
        0x83 => Some(NumericForm::Binary(NumberType::I64, NumberType::I64)),
        0x84 => Some(NumericForm::Binary(NumberType::I64, NumberType::I64)),
        0x85 => Some(NumericForm::Binary(NumberType::I64, NumberType::I64)),
        0x86 => Some(NumericForm::Binary(NumberType::I64, NumberType::I64)),
        0x87 => Some(NumericForm::Binary(NumberType::I64, NumberType::I64)),
        0x88 => Some(NumericForm::Binary(NumberType::I64, NumberType::I64)),
        0x89 => Some(NumericForm::Binary(NumberType::I64, NumberType::I64)),
        0x8a => Some(NumericForm::Binary(NumberType::I64, NumberType::I64)),
        _ => None,
    }
}

// Returns the form of an operator on floats of 32 bits.
#[tactic(auto, unfolding(wasmparser_operators::specs::CodeTables::row_of, wasmparser_operators::specs::OperatorReading::shape_of))]
#[inline(always)]
pub(crate) fn f32_form(code: u8) -> Option<NumericForm>
    ensures { IfSome result (IsScalarForm code) }
{
    match code {
        0x5b => Some(NumericForm::Binary(NumberType::F32, NumberType::I32)),
        0x5c => Some(NumericForm::Binary(NumberType::F32, NumberType::I32)),
        0x5d => Some(NumericForm::Binary(NumberType::F32, NumberType::I32)),
        0x5e => Some(NumericForm::Binary(NumberType::F32, NumberType::I32)),
        0x5f => Some(NumericForm::Binary(NumberType::F32, NumberType::I32)),
        0x60 => Some(NumericForm::Binary(NumberType::F32, NumberType::I32)),
        0x8b => Some(NumericForm::Unary(NumberType::F32, NumberType::F32)),
        0x8c => Some(NumericForm::Unary(NumberType::F32, NumberType::F32)),
        0x8d => Some(NumericForm::Unary(NumberType::F32, NumberType::F32)),
        0x8e => Some(NumericForm::Unary(NumberType::F32, NumberType::F32)),
        0x8f => Some(NumericForm::Unary(NumberType::F32, NumberType::F32)),
        0x90 => Some(NumericForm::Unary(NumberType::F32, NumberType::F32)),
        0x91 => Some(NumericForm::Unary(NumberType::F32, NumberType::F32)),
        0x92 => Some(NumericForm::Binary(NumberType::F32, NumberType::F32)),
        0x93 => Some(NumericForm::Binary(NumberType::F32, NumberType::F32)),
        0x94 => Some(NumericForm::Binary(NumberType::F32, NumberType::F32)),
        0x95 => Some(NumericForm::Binary(NumberType::F32, NumberType::F32)),
        0x96 => Some(NumericForm::Binary(NumberType::F32, NumberType::F32)),
        0x97 => Some(NumericForm::Binary(NumberType::F32, NumberType::F32)),
        0x98 => Some(NumericForm::Binary(NumberType::F32, NumberType::F32)),
        _ => None,
    }
}

// Returns the form of an operator on floats of 64 bits.
#[tactic(auto, unfolding(wasmparser_operators::specs::CodeTables::row_of, wasmparser_operators::specs::OperatorReading::shape_of))]
#[inline(always)]
pub(crate) fn f64_form(code: u8) -> Option<NumericForm>
    ensures { IfSome result (IsScalarForm code) }
{
    match code {
        0x61 => Some(NumericForm::Binary(NumberType::F64, NumberType::I32)),
        0x62 => Some(NumericForm::Binary(NumberType::F64, NumberType::I32)),
        0x63 => Some(NumericForm::Binary(NumberType::F64, NumberType::I32)),
        0x64 => Some(NumericForm::Binary(NumberType::F64, NumberType::I32)),
        0x65 => Some(NumericForm::Binary(NumberType::F64, NumberType::I32)),
        0x66 => Some(NumericForm::Binary(NumberType::F64, NumberType::I32)),
        0x99 => Some(NumericForm::Unary(NumberType::F64, NumberType::F64)),
        0x9a => Some(NumericForm::Unary(NumberType::F64, NumberType::F64)),
        0x9b => Some(NumericForm::Unary(NumberType::F64, NumberType::F64)),
        0x9c => Some(NumericForm::Unary(NumberType::F64, NumberType::F64)),
        0x9d => Some(NumericForm::Unary(NumberType::F64, NumberType::F64)),
        0x9e => Some(NumericForm::Unary(NumberType::F64, NumberType::F64)),
        0x9f => Some(NumericForm::Unary(NumberType::F64, NumberType::F64)),
        0xa0 => Some(NumericForm::Binary(NumberType::F64, NumberType::F64)),
        0xa1 => Some(NumericForm::Binary(NumberType::F64, NumberType::F64)),
        0xa2 => Some(NumericForm::Binary(NumberType::F64, NumberType::F64)),
        0xa3 => Some(NumericForm::Binary(NumberType::F64, NumberType::F64)),
        0xa4 => Some(NumericForm::Binary(NumberType::F64, NumberType::F64)),
        0xa5 => Some(NumericForm::Binary(NumberType::F64, NumberType::F64)),
        0xa6 => Some(NumericForm::Binary(NumberType::F64, NumberType::F64)),
        _ => None,
    }
}

// Returns the form of an operator on numbers that become numbers of another type.
#[tactic(auto, unfolding(wasmparser_operators::specs::CodeTables::row_of, wasmparser_operators::specs::OperatorReading::shape_of))]
#[inline(always)]
pub(crate) fn conversion_form(code: u8) -> Option<NumericForm>
    ensures { IfSome result (IsScalarForm code) }
{
    match code {
        0xa7 => Some(NumericForm::Unary(NumberType::I64, NumberType::I32)),
        0xa8 => Some(NumericForm::Unary(NumberType::F32, NumberType::I32)),
        0xa9 => Some(NumericForm::Unary(NumberType::F32, NumberType::I32)),
        0xaa => Some(NumericForm::Unary(NumberType::F64, NumberType::I32)),
        0xab => Some(NumericForm::Unary(NumberType::F64, NumberType::I32)),
        0xac => Some(NumericForm::Unary(NumberType::I32, NumberType::I64)),
        0xad => Some(NumericForm::Unary(NumberType::I32, NumberType::I64)),
        0xae => Some(NumericForm::Unary(NumberType::F32, NumberType::I64)),
        0xaf => Some(NumericForm::Unary(NumberType::F32, NumberType::I64)),
        0xb0 => Some(NumericForm::Unary(NumberType::F64, NumberType::I64)),
        0xb1 => Some(NumericForm::Unary(NumberType::F64, NumberType::I64)),
        0xb2 => Some(NumericForm::Unary(NumberType::I32, NumberType::F32)),
        0xb3 => Some(NumericForm::Unary(NumberType::I32, NumberType::F32)),
        0xb4 => Some(NumericForm::Unary(NumberType::I64, NumberType::F32)),
        0xb5 => Some(NumericForm::Unary(NumberType::I64, NumberType::F32)),
        0xb6 => Some(NumericForm::Unary(NumberType::F64, NumberType::F32)),
        0xb7 => Some(NumericForm::Unary(NumberType::I32, NumberType::F64)),
        0xb8 => Some(NumericForm::Unary(NumberType::I32, NumberType::F64)),
        0xb9 => Some(NumericForm::Unary(NumberType::I64, NumberType::F64)),
        0xba => Some(NumericForm::Unary(NumberType::I64, NumberType::F64)),
        0xbb => Some(NumericForm::Unary(NumberType::F32, NumberType::F64)),
        0xbc => Some(NumericForm::Unary(NumberType::F32, NumberType::I32)),
        0xbd => Some(NumericForm::Unary(NumberType::F64, NumberType::I64)),
        0xbe => Some(NumericForm::Unary(NumberType::I32, NumberType::F32)),
        0xbf => Some(NumericForm::Unary(NumberType::I64, NumberType::F64)),
        _ => None,
    }
}
