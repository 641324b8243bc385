//! The bytes of modules.

use std::alloc::Global;
use wasm_test_rows::values::bytes_of;

// Returns the digits that a word stands for: those of a frequent part, or its own.
fn digits_of(word: &str) -> &str {
    match word {
        "header" => "0061736d01000000",
        "custom" => "0003016107",
        // One function type, one function of it, and its body.
        "types" => "010401600000",
        "functions" => "03020100",
        "code" => "0a05010300000b",
        // The same of two.
        "two-types" => "010702600000600000",
        "two-functions" => "0303020000",
        "two-bodies" => "0a070202000b02000b",
        // The same of none.
        "no-types" => "010100",
        "no-functions" => "030100",
        "no-bodies" => "0a0100",
        _ => word,
    }
}

// Appends the bytes of a word.
fn extend_with_word(alloc: Global, bytes: &mut Vec<u8>, word: &str) -> Option<()> {
    let part = bytes_of(alloc, digits_of(word))?;
    bytes.extend_from_slice(&part).ok()
}

// Appends the bytes of a field.
fn extend_with(alloc: Global, bytes: &mut Vec<u8>, field: &str) -> Option<()> {
    for word in field.split_whitespace() {
        extend_with_word(alloc, bytes, word)?;
    }
    Some(())
}

/// Returns the bytes of a field: hexadecimal digits, names of frequent parts, and digits so many times over, as `7f*1000`.
pub fn parts_of(alloc: Global, field: &str) -> Option<Vec<u8>> {
    let mut bytes = Vec::new(alloc);
    extend_with(alloc, &mut bytes, field)?;
    Some(bytes)
}

/// Returns the header, and the parts after it.
pub fn module_of(alloc: Global, field: &str) -> Option<Vec<u8>> {
    let mut bytes = Vec::new(alloc);
    extend_with(alloc, &mut bytes, "header")?;
    extend_with(alloc, &mut bytes, field)?;
    Some(bytes)
}
