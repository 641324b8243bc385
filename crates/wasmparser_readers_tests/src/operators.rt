//! Codes of operators: which are in the table, and what those on numbers are called.

use std::alloc::Global;
use wasm_core_read::binary_reader::BinaryReader;
use wasmparser_error::error::ErrorKind;
use wasmparser_operators::operator::Operator;
use wasmparser_operators::operators_reader::OperatorsReader;

// The operators on numbers alone: one byte each from 0x45 on, and last those whose second code after 0xfc is 0 to 7.
const NAMES: &str = "
    I32Eqz I32Eq I32Ne I32LtS I32LtU I32GtS I32GtU I32LeS I32LeU I32GeS I32GeU I64Eqz I64Eq I64Ne I64LtS I64LtU I64GtS I64GtU I64LeS
    I64LeU I64GeS I64GeU F32Eq F32Ne F32Lt F32Gt F32Le F32Ge F64Eq F64Ne F64Lt F64Gt F64Le F64Ge I32Clz I32Ctz I32Popcnt I32Add
    I32Sub I32Mul I32DivS I32DivU I32RemS I32RemU I32And I32Or I32Xor I32Shl I32ShrS I32ShrU I32Rotl I32Rotr I64Clz I64Ctz I64Popcnt
    I64Add I64Sub I64Mul I64DivS I64DivU I64RemS I64RemU I64And I64Or I64Xor I64Shl I64ShrS I64ShrU I64Rotl I64Rotr F32Abs F32Neg
    F32Ceil F32Floor F32Trunc F32Nearest F32Sqrt F32Add F32Sub F32Mul F32Div F32Min F32Max F32Copysign F64Abs F64Neg F64Ceil F64Floor
    F64Trunc F64Nearest F64Sqrt F64Add F64Sub F64Mul F64Div F64Min F64Max F64Copysign I32WrapI64 I32TruncF32S I32TruncF32U
    I32TruncF64S I32TruncF64U I64ExtendI32S I64ExtendI32U I64TruncF32S I64TruncF32U I64TruncF64S I64TruncF64U F32ConvertI32S
    F32ConvertI32U F32ConvertI64S F32ConvertI64U F32DemoteF64 F64ConvertI32S F64ConvertI32U F64ConvertI64S F64ConvertI64U
    F64PromoteF32 I32ReinterpretF32 I64ReinterpretF64 F32ReinterpretI32 F64ReinterpretI64 I32Extend8S I32Extend16S I64Extend8S
    I64Extend16S I64Extend32S I32TruncSatF32S I32TruncSatF32U I32TruncSatF64S I32TruncSatF64U I64TruncSatF32S I64TruncSatF32U
    I64TruncSatF64S I64TruncSatF64U";

// Checks that these bytes begin with a code that is no operator's.
fn begins_other(bytes: &[u8]) -> bool {
    let mut reader = OperatorsReader::new(BinaryReader::new(bytes, 0));
    match reader.read() {
        Ok(_) => false,
        Err(error) => error.kind == ErrorKind::Operator,
    }
}

// Counts the bytes that are no operator's code, and begin none, where bytes of 0 follow.
fn count_bytes() -> u32 {
    let mut count: u32 = 0;
    for code in 0..=255u8 {
        let mut bytes = [0u8; 40];
        bytes[0] = code;
        if begins_other(&bytes) {
            count = count.saturating_add(1);
        }
    }
    count
}

#[test]
fn sixty_two_bytes_are_no_operator(rt: HostRuntime) {
    // (and 0xfd 0x00)
    assert!(rt; count_bytes() == 63);
}

// Counts the second codes below 300 that are no operator's, each written in three bytes.
fn count_second_codes(prefix: u8) -> u32 {
    let mut count: u32 = 0;
    for code in 0..300u16 {
        let mut bytes = [0u8; 40];
        bytes[0] = prefix;
        bytes[1] = (code % 128) as u8 | 0x80;
        bytes[2] = (code / 128) as u8 | 0x80;
        if begins_other(&bytes) {
            count = count.saturating_add(1);
        }
    }
    count
}

#[test]
fn twenty_seven_second_codes_are_operators(rt: HostRuntime) {
    assert!(rt; count_second_codes(0xfb) == 292);
    assert!(rt; count_second_codes(0xfc) == 282);
    assert!(rt; count_second_codes(0xfd) == 299);
}

// Checks that these bytes begin with an operator on numbers alone that has this name.
fn is_called(alloc: Global, bytes: &[u8], name: &str) -> Option<bool> {
    let mut reader = OperatorsReader::new(BinaryReader::new(bytes, 0));
    match reader.read() {
        Ok(Operator::Scalar(it)) => {
            let said = format!(in alloc; "{:?}", it).ok()?;
            Some(said.as_str() == name)
        }
        _ => None,
    }
}

// Counts the names that are those of the codes in their order.
fn count_names(alloc: Global) -> u32 {
    let mut count: u32 = 0;
    let mut code: u8 = 0x45;
    for name in NAMES.split_whitespace() {
        let bytes = if code < 0xc5 {
            [code, 0]
        } else {
            [0xfc, code - 0xc5]
        };
        if is_called(alloc, &bytes, name) == Some(true) {
            count = count.saturating_add(1);
        }
        code = code.saturating_add(1);
    }
    count
}

#[test]
fn operators_on_numbers_have_their_names(rt: HostRuntime) {
    assert!(rt; count_names(rt.alloc()) == 136);
}
