//! Modules that the encoder makes while memory runs out.

use crate::encoded_bytes::{WRITTEN, made};
use crate::refusals::rows::row_bytes;
use std::alloc::Global;
use std::test::Fail;
use wasm_encoder::encode_error::EncodeError;
use wasm_test_rows::fields::two_fields;
use wasm_test_rows::rows::check_rows;

// Returns the module of a name, at the second time where memory runs out at the first.
fn made_again(alloc: Global, name: &str) -> Result<Vec<u8>, EncodeError> {
    match made(alloc, name) {
        Err(EncodeError::Memory) => made(alloc, name),
        answer => answer,
    }
}

fn is_written(alloc: Global, row: &str) -> Option<bool> {
    let (name, sections) = two_fields(row)?;
    let bytes = match row_bytes(alloc, sections) {
        Some(bytes) => bytes,
        None => row_bytes(alloc, sections)?,
    };
    match made_again(alloc, name) {
        Ok(found) => Some(found.as_slice() == bytes.as_slice()),
        Err(_) => None,
    }
}

#[test]
fn modules_are_written(rt: HostRuntime) -> Result<(), Fail> {
    Ok(check_rows(rt.alloc(), WRITTEN, 4, is_written)?)
}
