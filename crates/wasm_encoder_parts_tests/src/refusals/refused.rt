//! The state that a refused call leaves.

use std::alloc::Global;
use wasm_core_write::encode::Encode;
use wasm_core_write::encode_error::EncodeError;
use wasm_test_rows::values::bytes_of;

/// Checks that a call that adds an item did, or was out of memory and changed no number of items.
pub fn is_sound(answer: &Result<(), EncodeError>, before: u32, after: u32) -> bool {
    match answer {
        Ok(()) => before.checked_add(1) == Some(after),
        Err(error) => *error == EncodeError::Memory && after == before,
    }
}

/// Checks that a value is written, at the second try where the first is out of memory and leaves the sink as it was.
pub fn is_written<E: Encode>(alloc: Global, value: &E) -> bool {
    let mut sink = Vec::new(alloc);
    match value.encode(&mut sink) {
        Ok(()) => true,
        Err(error) => {
            error == EncodeError::Memory && sink.is_empty() && value.encode(&mut sink).is_ok()
        }
    }
}

/// Checks that the calls of the numbers below this one are done on a value, each at the second time where memory runs out at the first and the value is as
/// long as it was.
pub fn takes_each<T: Encode, F: Fn(Global, &mut T, u32) -> Result<(), EncodeError>>(
    alloc: Global,
    value: &mut T,
    count: u32,
    call: F,
) -> bool
    requires { F.IsAlwaysCallable call }
{
    for number in 0..count {
        let before = value.encoded_len();
        if let Err(error) = call(alloc, value, number) {
            let is_kept = error == EncodeError::Memory && value.encoded_len() == before;
            if !is_kept || call(alloc, value, number).is_err() {
                return false;
            }
        }
    }
    true
}

/// Returns the bytes of a field, at the second time where memory runs out at the first.
pub fn field_bytes(alloc: Global, field: &str) -> Option<Vec<u8>> {
    match bytes_of(alloc, field) {
        Some(bytes) => Some(bytes),
        None => bytes_of(alloc, field),
    }
}
