//! Constant expressions, byte for byte.

use std::alloc::Global;
use std::test::Fail;
use wasm_core_types::scalar_operator::ScalarOperator;
use wasm_core_types::types::{AbstractHeapType, HeapType};
use wasm_core_write::encode::Encode;
use wasm_core_write::encode_error::EncodeError;
use wasm_encoder_bodies::const_expr::ConstExpr;
use wasm_encoder_instructions::ieee::{Ieee32, Ieee64};
use wasm_encoder_instructions::instruction::Instruction;
use wasm_test_rows::fields::two_fields;
use wasm_test_rows::rows::check_rows;
use wasm_test_rows::values::bytes_of;

/// How expressions are made, and their bytes with the end.
pub const WRITTEN: &str = "
    empty | 0b
    raw | 41 80 00 0b
    global_get | 23 80 01 0b
    null_func | d0 70 0b
    null_type | d0 c0 00 0b
    ref_func | d2 ff ff ff ff 0f 0b
    i32_const | 41 80 80 80 80 78 0b
    i64_const | 42 ff ff ff ff ff ff ff ff ff 00 0b
    f32_const | 43 01 02 03 04 0b
    f64_const | 44 01 02 03 04 05 06 07 08 0b
    v128_const | fd 0c 02 00 00 00 00 00 00 00 00 00 00 00 00 00 00 80 0b
    sums | 41 07 41 01 6a 41 02 6b 41 03 6c 0b
    long_sums | 42 07 42 01 7c 42 02 7d 42 03 7e 0b
    extended | 41 07 41 01 6a 0b
    extended_pair | d0 6e d2 81 01 fb 06 02 0b
    extended_nothing | 0b
    all | 23 00 d0 6f d2 01 41 7f 42 7f 43 00 00 80 7f 44 00 00 00 00 00 00 f0 7f fd 0c 01 00*15 0b
";

fn sums(alloc: Global) -> Result<ConstExpr, EncodeError> {
    let first = ConstExpr::i32_const(alloc, 7)?.with_i32_const(1)?;
    let second = first.with_i32_add()?.with_i32_const(2)?;
    let third = second.with_i32_sub()?.with_i32_const(3)?;
    third.with_i32_mul()
}

fn long_sums(alloc: Global) -> Result<ConstExpr, EncodeError> {
    let first = ConstExpr::i64_const(alloc, 7)?.with_i64_const(1)?;
    let second = first.with_i64_add()?.with_i64_const(2)?;
    let third = second.with_i64_sub()?.with_i64_const(3)?;
    third.with_i64_mul()
}

fn all(alloc: Global) -> Result<ConstExpr, EncodeError> {
    let first = ConstExpr::empty(alloc).with_global_get(0)?;
    let second = first.with_ref_null(HeapType::Abstract(AbstractHeapType::Extern))?;
    let third = second.with_ref_func(1)?.with_i32_const(-1)?;
    let fourth = third.with_i64_const(-1)?;
    let fifth = fourth.with_f32_const(Ieee32::new(0x7f80_0000))?;
    let sixth = fifth.with_f64_const(Ieee64::new(0x7ff0_0000_0000_0000))?;
    sixth.with_v128_const(1)
}

fn extended(alloc: Global) -> Result<ConstExpr, EncodeError> {
    let first = Instruction::I32Const(7);
    let second = Instruction::I32Const(1);
    let sum = Instruction::Scalar(ScalarOperator::I32Add);
    ConstExpr::extended(alloc, [first, second, sum])
}

fn extended_pair(alloc: Global) -> Result<ConstExpr, EncodeError> {
    let null = Instruction::RefNull(HeapType::Abstract(AbstractHeapType::Any));
    let function = Instruction::RefFunc(129);
    ConstExpr::extended(alloc, [null, function, Instruction::ArrayNew(2)])
}

/// Returns the expression that is made so.
pub fn made(alloc: Global, name: &str) -> Result<ConstExpr, EncodeError> {
    match name {
        "raw" => ConstExpr::raw(alloc, [0x41, 0x80, 0x00]),
        "global_get" => ConstExpr::global_get(alloc, 128),
        "null_func" => ConstExpr::ref_null(alloc, HeapType::Abstract(AbstractHeapType::Func)),
        "null_type" => ConstExpr::ref_null(alloc, HeapType::Concrete(64)),
        "ref_func" => ConstExpr::ref_func(alloc, u32::MAX),
        "i32_const" => ConstExpr::i32_const(alloc, i32::MIN),
        "i64_const" => ConstExpr::i64_const(alloc, i64::MAX),
        "f32_const" => ConstExpr::f32_const(alloc, Ieee32::new(0x0403_0201)),
        "f64_const" => ConstExpr::f64_const(alloc, Ieee64::new(0x0807_0605_0403_0201)),
        "v128_const" => ConstExpr::v128_const(alloc, i128::MIN + 2),
        "sums" => sums(alloc),
        "long_sums" => long_sums(alloc),
        "extended" => extended(alloc),
        "extended_pair" => extended_pair(alloc),
        "extended_nothing" => ConstExpr::extended(alloc, []),
        "all" => all(alloc),
        _ => Ok(ConstExpr::empty(alloc)),
    }
}

// Checks that these bytes are written, so many as are told beforehand, after what stood there.
fn is_written(alloc: Global, expression: &ConstExpr, bytes: &[u8]) -> Option<bool> {
    let mut sink = Vec::new(alloc);
    sink.push(0xff).ok()?;
    expression.encode(&mut sink).ok()?;
    let len = expression.encoded_len().ok()?;
    Some(sink.strip_prefix(&[0xff]) == Some(bytes) && len == bytes.len() as u64)
}

fn holds(alloc: Global, row: &str) -> Option<bool> {
    let (name, bytes) = two_fields(row)?;
    let bytes = bytes_of(alloc, bytes)?;
    let expression = made(alloc, name).ok()?;
    is_written(alloc, &expression, &bytes)
}

#[test]
fn expressions_are_written(rt: HostRuntime) -> Result<(), Fail> {
    Ok(check_rows(rt.alloc(), WRITTEN, 17, holds)?)
}

// Bytes of expressions, and the function that each begins with a reference to.
const FUNCTIONS: &str = "
    d2 00 | 0
    d2 85 00 | 5
    d2 ff ff ff ff 0f 41 00 | 4294967295
    d2 80 80 80 80 00 | 0
    d2 ff ff ff ff 10 | none
    d2 80 80 80 80 80 00 | none
    d2 80 | none
    d2 | none
    41 00 | none
    23 d2 00 | none
    | none
";

fn is_found(alloc: Global, row: &str) -> Option<bool> {
    let (bytes, expected) = two_fields(row)?;
    let bytes = bytes_of(alloc, bytes)?;
    let expression = ConstExpr::raw(alloc, bytes).ok()?;
    Some(expression.get_ref_func() == expected.parse::<u32>().ok())
}

#[test]
fn functions_are_found(rt: HostRuntime) -> Result<(), Fail> {
    Ok(check_rows(rt.alloc(), FUNCTIONS, 11, is_found)?)
}
