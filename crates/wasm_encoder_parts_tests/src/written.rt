//! The bytes that sections and other values write, into just the room that they ask for.

use std::alloc::Global;
use wasm_core_write::encode::{Encode, Section};
use wasm_test_rows::values::are_bytes;

/// Returns a section's id and what it writes.
pub fn written<S: Section>(alloc: Global, section: &S) -> Option<Vec<u8>> {
    let len = section.encoded_len().ok()?;
    let mut sink = Vec::with_capacity(alloc, len as usize + 1).ok()?;
    sink.push(section.id()).ok()?;
    section.encode(&mut sink).ok()?;
    if sink.len() as u64 == len + 1 && sink.capacity() == sink.len() {
        Some(sink)
    } else {
        None
    }
}

/// Checks that a section, with its id, is the bytes of a field.
pub fn writes<S: Section>(alloc: Global, section: &S, bytes: &str) -> bool {
    match written(alloc, section) {
        Some(found) => are_bytes(alloc, bytes, &found),
        None => false,
    }
}

// Returns what a value writes.
fn encoded<E: Encode>(alloc: Global, value: &E) -> Option<Vec<u8>> {
    let len = value.encoded_len().ok()?;
    let mut sink = Vec::with_capacity(alloc, len as usize).ok()?;
    value.encode(&mut sink).ok()?;
    if sink.len() as u64 == len && sink.capacity() == sink.len() {
        Some(sink)
    } else {
        None
    }
}

/// Checks that a value is written as the bytes of a field.
pub fn encodes<E: Encode>(alloc: Global, value: &E, bytes: &str) -> bool {
    match encoded(alloc, value) {
        Some(found) => are_bytes(alloc, bytes, &found),
        None => false,
    }
}
