//! Calls of a validator, one after the other.

use crate::judging::{CALLS, answer_to_call};
use crate::new_validator::on_new_validator_with;
use std::alloc::Global;
use std::test::Fail;
use wasm_core::features::{Flags, WasmFeatures};
use wasm_test_rows::rows::check_rows;
use wasmparser::validator::Validator;

// Checks that a validator shows no types and takes no more calls.
fn has_failed(validator: &mut Validator) -> bool {
    answer_to_call(validator, "types") == "none"
        && answer_to_call(validator, "version") == "failed"
        && answer_to_call(validator, "body") == "failed"
        && answer_to_call(validator, "end") == "failed"
        && answer_to_call(validator, "reset") == "notended"
}

// Checks that the calls of a row are answered so. None where memory runs out and the validator has failed.
fn answers(_alloc: Global, validator: &mut Validator, row: &str) -> Option<bool> {
    for step in row.split_whitespace() {
        let (call, expected) = step.split_once('=')?;
        let answer = answer_to_call(validator, call);
        if answer == "memory" {
            return if call.starts_with("all") || has_failed(validator) {
                None
            } else {
                Some(false)
            };
        }
        if answer != expected {
            return Some(false);
        }
    }
    Some(true)
}

// Checks that they are, by another validator where memory ran out.
fn holds(alloc: Global, row: &str) -> Option<bool> {
    match on_new_validator_with(alloc, WasmFeatures::all(), row, answers) {
        Some(are_answered) => Some(are_answered),
        None => on_new_validator_with(alloc, WasmFeatures::all(), row, answers),
    }
}

#[test]
fn calls_are_answered(rt: HostRuntime) -> Result<(), Fail> {
    Ok(check_rows(rt.alloc(), CALLS, 32, holds)?)
}
