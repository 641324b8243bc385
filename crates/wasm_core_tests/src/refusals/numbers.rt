//! Numbers in LEB128.

use crate::numbers::WRITTEN;
use crate::widths::write;
use std::alloc::Global;
use std::test::Fail;
use wasm_test_rows::fields::three_fields;
use wasm_test_rows::rows::check_rows;
use wasm_test_rows::values::bytes_of;

// Checks that a number is written, at the second time where memory runs out at the first and the sink is as it was.
fn is_written(sink: &mut Vec<u8>, width: &str, number: i128) -> bool {
    let before = sink.len();
    if write(sink, width, number).is_some() {
        return true;
    }
    sink.len() == before && write(sink, width, number).is_some()
}

// Checks that these bytes are written of the number at each of the widths, one after the other, into a sink without room.
fn are_written(alloc: Global, widths: &str, number: i128, bytes: &[u8]) -> bool {
    for width in widths.split_whitespace() {
        let mut sink = Vec::new(alloc);
        let are_written = is_written(&mut sink, width, number)
            && is_written(&mut sink, width, number);
        let half = sink.get(bytes.len()..);
        if !are_written || !sink.starts_with(bytes) || half != Some(bytes) {
            return false;
        }
    }
    true
}

fn holds(alloc: Global, row: &str) -> Option<bool> {
    let (widths, digits, bytes) = three_fields(row)?;
    let number = digits.parse().ok()?;
    let bytes = match bytes_of(alloc, bytes) {
        Some(bytes) => bytes,
        None => bytes_of(alloc, bytes)?,
    };
    Some(are_written(alloc, widths, number, &bytes))
}

#[test]
fn numbers_are_written(rt: HostRuntime) -> Result<(), Fail> {
    Ok(check_rows(rt.alloc(), WRITTEN, 41, holds)?)
}
