//! Modules payload by payload, and at once.

use crate::judging::{MODULES, answer_to_payloads, is_answer};
use crate::new_validator::{on_new_validator, refusal_of};
use std::alloc::Global;
use std::test::Fail;
use wasm_test_rows::fields::two_fields;
use wasm_test_rows::rows::check_rows;
use wasm_test_rows::values::bytes_of;
use wasmparser::error::ErrorKind;
use wasmparser::validator::Validator;

// Returns the bytes of a field, at the second time where memory runs out at the first.
fn field_bytes(alloc: Global, field: &str) -> Option<Vec<u8>> {
    match bytes_of(alloc, field) {
        Some(bytes) => Some(bytes),
        None => bytes_of(alloc, field),
    }
}

// Checks that the payloads of a module are answered so. None where memory runs out.
fn is_answered(alloc: Global, validator: &mut Validator, row: &str) -> Option<bool> {
    let (bytes, expected) = two_fields(row)?;
    let bytes = field_bytes(alloc, bytes)?;
    let answer = answer_to_payloads(alloc, validator, &bytes);
    match answer {
        Err(error) if error.kind == ErrorKind::Memory => None,
        other => is_answer(alloc, other, expected),
    }
}

// Checks that they are, by another validator where memory ran out.
fn holds(alloc: Global, row: &str) -> Option<bool> {
    match on_new_validator(alloc, row, is_answered) {
        Some(is_answered) => Some(is_answered),
        None => on_new_validator(alloc, row, is_answered),
    }
}

#[test]
fn payloads_are_answered(rt: HostRuntime) -> Result<(), Fail> {
    Ok(check_rows(rt.alloc(), MODULES, 21, holds)?)
}

// Checks that a module is accepted where its row has sizes, and else refused, at the second time where memory runs out at the first.
fn is_judged(alloc: Global, row: &str) -> Option<bool> {
    let (bytes, expected) = two_fields(row)?;
    let bytes = field_bytes(alloc, bytes)?;
    let refusal = match refusal_of(alloc, &bytes) {
        Some(error) if error.kind == ErrorKind::Memory => refusal_of(alloc, &bytes),
        other => other,
    };
    let is_valid = expected.contains(' ');
    match refusal {
        None => Some(is_valid),
        Some(error) => Some(!is_valid && error.kind.name() == expected),
    }
}

#[test]
fn modules_are_judged(rt: HostRuntime) -> Result<(), Fail> {
    Ok(check_rows(rt.alloc(), MODULES, 21, is_judged)?)
}
