//! Constant expressions, each with its operators.

use std::alloc::Global;
use std::test::Fail;
use wasm_core_read::binary_reader::BinaryReader;
use wasm_core_types::features::WasmFeatures;
use wasm_test_rows::fields::three_fields;
use wasm_test_rows::rows::check_rows;
use wasm_test_rows::shown::debugs;
use wasm_test_rows::values::{bytes_of, number_of};
use wasmparser_entries::const_expr::{ConstExpr, read_const_expr};
use wasmparser_readers::from_reader::FromReader;

// The offset of the bytes in the input.
const START: u64 = 100;

// Bytes that begin with an expression, the number of those that are left after it, and its operators; or the refusal.
const EXPRESSIONS: &str = "
    0b | 0 |
    0b 0b | 1 |
    41 2a 0b | 0 | I32Const { value: 42 }
    41 0b 0b 0b | 1 | I32Const { value: 11 }
    d0 70 0b 41 | 1 | RefNull { hty: Abstract(Func) }
    23 00 41 01 6a 0b | 0 | GlobalGet { global_index: 0 }; I32Const { value: 1 }; I32Add
    42 01 42 02 7e 42 03 7d 0b | 0 | I64Const { value: 1 }; I64Const { value: 2 }; I64Mul; I64Const { value: 3 }; I64Sub
    41 00 fb 1c 0b 00 00 | 2 | I32Const { value: 0 }; RefI31
    fd 0c 0b*16 0b | 0 | V128Const { bytes: [11, 11, 11, 11, 11, 11, 11, 11, 11, 11, 11, 11, 11, 11, 11, 11] }
    fb 00 ff ff ff ff 0f 0b | 0 | StructNew { struct_type_index: 4294967295 }
    41 80 00 0b | 0 | I32Const { value: 0 }
    41 01 41 02 0b | 0 | I32Const { value: 1 }; I32Const { value: 2 }
    | malformed |
    41 | malformed |
    41 2a | malformed |
    41 2a 6d 0b | malformed |
    fd 0c 00*15 0b | malformed |
    00 0b | malformed |
    05 0b | malformed |
";

const COUNT_OF_EXPRESSIONS: usize = 19;

/// Checks that these are the operators of an expression, in words with `;` between them.
pub fn has_operators(alloc: Global, expression: &ConstExpr<'_>, words: &str) -> bool {
    let mut operators = expression.operators();
    if words.is_empty() {
        return operators.next().is_none() && operators.next().is_none();
    }
    for word in words.split(';') {
        match operators.next() {
            Some(operator) if debugs(alloc, &operator, word.trim()) => {}
            _ => return false,
        }
    }
    operators.next().is_none() && operators.next().is_none()
}

// Checks that an expression is those of the bytes that are in front of the ones left.
fn has_bytes(expression: &ConstExpr<'_>, bytes: &[u8], left: u64) -> bool {
    let reader = expression.get_binary_reader();
    let len = reader.bytes_remaining();
    reader.original_position() == START
        && reader.features() == WasmFeatures::GC
        && len as u64 == (bytes.len() as u64).wrapping_sub(left)
        && bytes.starts_with(reader.remaining_buffer())
}

fn expression_holds(alloc: Global, row: &str) -> Option<bool> {
    let (field, left, words) = three_fields(row)?;
    let bytes = bytes_of(alloc, field)?;
    let mut reader = BinaryReader::new(&bytes, START);
    reader.set_features(WasmFeatures::GC);
    let Ok(expression) = read_const_expr(&mut reader) else {
        return Some(left == "malformed");
    };
    let left = number_of(left)?;
    Some(
        reader.bytes_remaining() as u64 == left
            && has_bytes(&expression, &bytes, left)
            && has_operators(alloc, &expression, words),
    )
}

#[test]
fn expressions_read(rt: HostRuntime) -> Result<(), Fail> {
    check_rows(
        rt.alloc(),
        EXPRESSIONS,
        COUNT_OF_EXPRESSIONS,
        expression_holds,
    )?;
    Ok(())
}

fn reads_as_an_item(alloc: Global) -> bool {
    let bytes = [0x23, 0x05, 0x0b];
    match ConstExpr::from_reader(alloc, &mut BinaryReader::new(&bytes, START)) {
        Ok(expression) => has_operators(alloc, &expression, "GlobalGet { global_index: 5 }"),
        Err(_) => false,
    }
}

#[test]
fn expressions_are_items(rt: HostRuntime) {
    assert!(rt; reads_as_an_item(rt.alloc()));
}
