//! Instructions on numbers alone: their names and their codes.

use std::alloc::Global;
use wasm_core_types::scalar_operator::ScalarOperator;
use wasm_core_write::encode::Encode;
use wasm_encoder_instructions::instruction::Instruction;
use wasm_test_rows::shown::debugs;

// Their names, in the order of their codes: one byte each from 0x45 on, and last those whose second code after 0xfc is 0 to 7.
const NAMES: &str = "
    I32Eqz I32Eq I32Ne I32LtS I32LtU I32GtS I32GtU I32LeS I32LeU I32GeS I32GeU I64Eqz I64Eq I64Ne I64LtS I64LtU I64GtS I64GtU I64LeS
    I64LeU I64GeS I64GeU F32Eq F32Ne F32Lt F32Gt F32Le F32Ge F64Eq F64Ne F64Lt F64Gt F64Le F64Ge I32Clz I32Ctz I32Popcnt I32Add
    I32Sub I32Mul I32DivS I32DivU I32RemS I32RemU I32And I32Or I32Xor I32Shl I32ShrS I32ShrU I32Rotl I32Rotr I64Clz I64Ctz I64Popcnt
    I64Add I64Sub I64Mul I64DivS I64DivU I64RemS I64RemU I64And I64Or I64Xor I64Shl I64ShrS I64ShrU I64Rotl I64Rotr F32Abs F32Neg
    F32Ceil F32Floor F32Trunc F32Nearest F32Sqrt F32Add F32Sub F32Mul F32Div F32Min F32Max F32Copysign F64Abs F64Neg F64Ceil F64Floor
    F64Trunc F64Nearest F64Sqrt F64Add F64Sub F64Mul F64Div F64Min F64Max F64Copysign I32WrapI64 I32TruncF32S I32TruncF32U
    I32TruncF64S I32TruncF64U I64ExtendI32S I64ExtendI32U I64TruncF32S I64TruncF32U I64TruncF64S I64TruncF64U F32ConvertI32S
    F32ConvertI32U F32ConvertI64S F32ConvertI64U F32DemoteF64 F64ConvertI32S F64ConvertI32U F64ConvertI64S F64ConvertI64U
    F64PromoteF32 I32ReinterpretF32 I64ReinterpretF64 F32ReinterpretI32 F64ReinterpretI64 I32Extend8S I32Extend16S I64Extend8S
    I64Extend16S I64Extend32S I32TruncSatF32S I32TruncSatF32U I32TruncSatF64S I32TruncSatF64U I64TruncSatF32S I64TruncSatF32U
    I64TruncSatF64S I64TruncSatF64U";

const SCALARS: &[ScalarOperator] = &[
    ScalarOperator::I32Eqz,
    ScalarOperator::I32Eq,
    ScalarOperator::I32Ne,
    ScalarOperator::I32LtS,
    ScalarOperator::I32LtU,
    ScalarOperator::I32GtS,
    ScalarOperator::I32GtU,
    ScalarOperator::I32LeS,
    ScalarOperator::I32LeU,
    ScalarOperator::I32GeS,
    ScalarOperator::I32GeU,
    ScalarOperator::I64Eqz,
    ScalarOperator::I64Eq,
    ScalarOperator::I64Ne,
    ScalarOperator::I64LtS,
    ScalarOperator::I64LtU,
    ScalarOperator::I64GtS,
    ScalarOperator::I64GtU,
    ScalarOperator::I64LeS,
    ScalarOperator::I64LeU,
    ScalarOperator::I64GeS,
    ScalarOperator::I64GeU,
    ScalarOperator::F32Eq,
    ScalarOperator::F32Ne,
    ScalarOperator::F32Lt,
    ScalarOperator::F32Gt,
    ScalarOperator::F32Le,
    ScalarOperator::F32Ge,
    ScalarOperator::F64Eq,
    ScalarOperator::F64Ne,
    ScalarOperator::F64Lt,
    ScalarOperator::F64Gt,
    ScalarOperator::F64Le,
    ScalarOperator::F64Ge,
    ScalarOperator::I32Clz,
    ScalarOperator::I32Ctz,
    ScalarOperator::I32Popcnt,
    ScalarOperator::I32Add,
    ScalarOperator::I32Sub,
    ScalarOperator::I32Mul,
    ScalarOperator::I32DivS,
    ScalarOperator::I32DivU,
    ScalarOperator::I32RemS,
    ScalarOperator::I32RemU,
    ScalarOperator::I32And,
    ScalarOperator::I32Or,
    ScalarOperator::I32Xor,
    ScalarOperator::I32Shl,
    ScalarOperator::I32ShrS,
    ScalarOperator::I32ShrU,
    ScalarOperator::I32Rotl,
    ScalarOperator::I32Rotr,
    ScalarOperator::I64Clz,
    ScalarOperator::I64Ctz,
    ScalarOperator::I64Popcnt,
    ScalarOperator::I64Add,
    ScalarOperator::I64Sub,
    ScalarOperator::I64Mul,
    ScalarOperator::I64DivS,
    ScalarOperator::I64DivU,
    ScalarOperator::I64RemS,
    ScalarOperator::I64RemU,
    ScalarOperator::I64And,
    ScalarOperator::I64Or,
    ScalarOperator::I64Xor,
    ScalarOperator::I64Shl,
    ScalarOperator::I64ShrS,
    ScalarOperator::I64ShrU,
    ScalarOperator::I64Rotl,
    ScalarOperator::I64Rotr,
    ScalarOperator::F32Abs,
    ScalarOperator::F32Neg,
    ScalarOperator::F32Ceil,
    ScalarOperator::F32Floor,
    ScalarOperator::F32Trunc,
    ScalarOperator::F32Nearest,
    ScalarOperator::F32Sqrt,
    ScalarOperator::F32Add,
    ScalarOperator::F32Sub,
    ScalarOperator::F32Mul,
    ScalarOperator::F32Div,
    ScalarOperator::F32Min,
    ScalarOperator::F32Max,
    ScalarOperator::F32Copysign,
    ScalarOperator::F64Abs,
    ScalarOperator::F64Neg,
    ScalarOperator::F64Ceil,
    ScalarOperator::F64Floor,
    ScalarOperator::F64Trunc,
    ScalarOperator::F64Nearest,
    ScalarOperator::F64Sqrt,
    ScalarOperator::F64Add,
    ScalarOperator::F64Sub,
    ScalarOperator::F64Mul,
    ScalarOperator::F64Div,
    ScalarOperator::F64Min,
    ScalarOperator::F64Max,
    ScalarOperator::F64Copysign,
    ScalarOperator::I32WrapI64,
    ScalarOperator::I32TruncF32S,
    ScalarOperator::I32TruncF32U,
    ScalarOperator::I32TruncF64S,
    ScalarOperator::I32TruncF64U,
    ScalarOperator::I64ExtendI32S,
    ScalarOperator::I64ExtendI32U,
    ScalarOperator::I64TruncF32S,
    ScalarOperator::I64TruncF32U,
    ScalarOperator::I64TruncF64S,
    ScalarOperator::I64TruncF64U,
    ScalarOperator::F32ConvertI32S,
    ScalarOperator::F32ConvertI32U,
    ScalarOperator::F32ConvertI64S,
    ScalarOperator::F32ConvertI64U,
    ScalarOperator::F32DemoteF64,
    ScalarOperator::F64ConvertI32S,
    ScalarOperator::F64ConvertI32U,
    ScalarOperator::F64ConvertI64S,
    ScalarOperator::F64ConvertI64U,
    ScalarOperator::F64PromoteF32,
    ScalarOperator::I32ReinterpretF32,
    ScalarOperator::I64ReinterpretF64,
    ScalarOperator::F32ReinterpretI32,
    ScalarOperator::F64ReinterpretI64,
    ScalarOperator::I32Extend8S,
    ScalarOperator::I32Extend16S,
    ScalarOperator::I64Extend8S,
    ScalarOperator::I64Extend16S,
    ScalarOperator::I64Extend32S,
    ScalarOperator::I32TruncSatF32S,
    ScalarOperator::I32TruncSatF32U,
    ScalarOperator::I32TruncSatF64S,
    ScalarOperator::I32TruncSatF64U,
    ScalarOperator::I64TruncSatF32S,
    ScalarOperator::I64TruncSatF32U,
    ScalarOperator::I64TruncSatF64S,
    ScalarOperator::I64TruncSatF64U,
];

// Checks that bytes are the code of this number: a byte, and past the last of these a second code.
fn are_code(bytes: &[u8], number: u8) -> bool {
    if number < 0xc5 {
        return bytes == [number].as_slice();
    }
    bytes == [0xfc, number - 0xc5].as_slice()
}

// Checks that this one is called so, and the code of this number is written of it.
fn is_written(alloc: Global, scalar: ScalarOperator, name: &str, number: u8) -> Option<bool> {
    let mut sink = Vec::new(alloc);
    Instruction::Scalar(scalar).encode(&mut sink).ok()?;
    Some(are_code(&sink, number) && debugs(alloc, &scalar, name))
}

// Returns how many have the names and the codes in their order.
fn count_written(alloc: Global) -> u32 {
    let mut count: u32 = 0;
    let mut number: u8 = 0x45;
    for (scalar, name) in SCALARS.iter().zip(NAMES.split_whitespace()) {
        if is_written(alloc, *scalar, name, number) == Some(true) {
            count = count.saturating_add(1);
        }
        number = number.saturating_add(1);
    }
    count
}

#[test]
fn instructions_on_numbers_have_their_codes(rt: HostRuntime) {
    assert!(rt; count_written(rt.alloc()) == 136);
}
