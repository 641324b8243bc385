//! Recursive groups: what bytes read as, and that no group reads of fewer bytes.

use std::alloc::Global;
use std::test::Fail;
use wasm_core_read::binary_reader::BinaryReader;
use wasm_test_rows::fields::{two_fields, word_and_rest};
use wasm_test_rows::rows::check_rows;
use wasm_test_rows::values::bytes_of;
use wasmparser_error::error::{Error, ErrorKind};
use wasmparser_readers::from_reader::FromReader;
use wasmparser_type_words::types::{sub_type_of, sub_types_of};
use wasmparser_types::sub_type::RecGroup;

// Bytes that begin with a group, and the group, or the kind of the refusal.
const GROUPS: &str = "
    // function types
    60 00 00 | single func ->
    60 01 7f 02 7e 7d | single func i32 -> i64 f32
    60 02 7c 7b 00 | single func f64 v128 ->
    60 80 80 80 80 00 81 00 7f | single func -> i32
    60 80 80 80 80 80 00 00 | malformed
    60 01 7a 00 | malformed
    60 01 40 00 | malformed

    // references
    60 07 70 6f 6e 6d 6c 69 68 00 | single func funcref externref anyref eqref i31ref exnref contref ->
    60 02 63 70 64 70 00 | single func funcref func ->
    60 03 63 00 64 05 63 ff 00 00 | single func 0? 5 127? ->
    60 01 63 7f 00 | malformed
    60 01 63 80 7f 00 | malformed
    60 01 63 f0 ff 7f 00 | malformed
    60 01 64 80 80 80 80 00 00 | single func 0 ->

    // packed indexes end before 2^20, read ones before 2^32
    60 01 64 ff ff 3f 00 | single func 1048575 ->
    60 01 64 80 80 c0 00 00 | invalid
    60 01 64 ff ff ff ff 0f 00 | invalid
    60 01 64 ff ff ff ff 1f 00 | malformed
    60 01 64 80 80 80 80 10 00 | malformed
    50 01 80 80 40 60 00 00 | invalid
    50 01 ff ff 3f 60 00 00 | single open 1048575 : func ->
    50 01 ff ff ff ff 0f 60 00 00 | invalid
    50 01 80 80 80 80 10 60 00 00 | malformed
    5d 80 80 c0 00 | invalid
    60 00 01 64 80 80 c0 00 | invalid
    60 02 7f 64 80 80 c0 00 00 | invalid
    5f 01 63 80 80 c0 00 00 | invalid
    50 02 00 80 80 40 60 00 00 | invalid
    4e 02 5f 00 5e 63 80 80 c0 00 00 | invalid
    5f 02 63 80 80 c0 00 00 7f 02 | malformed
    4e 02 5e 63 80 80 c0 00 00 5f 00 | invalid
    4e 02 5e 63 80 80 c0 00 00 | malformed

    // structures, arrays and continuations
    5f 00 | single struct
    5f 03 78 00 77 01 7f 01 | single struct i8 mut:i16 mut:i32
    5f 01 7f 02 | malformed
    5f 01 79 00 | malformed
    5e 78 01 | single array mut:i8
    5e 64 03 00 | single array 3
    5d 00 | single cont 0
    5d ff 00 | single cont 127
    5d 7f | malformed
    5d 70 | malformed
    5e 7f 80 00 | malformed
    50 01 7f 60 00 00 | single open 127 : func ->
    5c 00 | malformed
    61 00 00 | malformed

    // sub types, and groups
    50 00 60 00 00 | single open : func ->
    4f 00 60 00 00 | single func ->
    4f 01 03 5f 00 | single 3 : struct
    50 02 00 01 5e 7f 00 | single open 0 1 : array i32
    50 01 00 50 00 60 00 00 | malformed
    4e 00 | group
    4e 01 60 00 00 | group func ->
    4e 82 00 5f 01 63 01 00 50 01 00 5f 00 | group struct 1?, open 0 : struct
    4e 01 4e 00 | malformed
    4e 02 60 00 00 | malformed
    4e ff ff ff ff 0f | malformed
    60 ff ff ff ff 0f | malformed
    | malformed
";

const COUNT_OF_GROUPS: usize = 59;

// Returns a group in words.
fn group_of(alloc: Global, words: &str) -> Option<RecGroup> {
    let (kind, types) = word_and_rest(words);
    match kind {
        "single" => Some(RecGroup::implicit(sub_type_of(alloc, types)?)),
        "group" => Some(RecGroup::explicit(sub_types_of(alloc, types)?)),
        _ => None,
    }
}

fn read(alloc: Global, bytes: &[u8]) -> Result<RecGroup, Error> {
    RecGroup::from_reader(alloc, &mut BinaryReader::new(bytes, 0))
}

fn is_malformed(alloc: Global, bytes: &[u8]) -> bool {
    match read(alloc, bytes) {
        Ok(_) => false,
        Err(e) => e.kind == ErrorKind::Malformed,
    }
}

// Checks that no group reads of the first bytes alone.
fn needs_all(alloc: Global, bytes: &[u8]) -> bool {
    for len in 0..bytes.len() {
        match bytes.get(..len) {
            Some(front) if is_malformed(alloc, front) => (),
            _ => return false,
        }
    }
    true
}

// Checks that this group reads, and no group of fewer bytes.
fn reads(alloc: Global, bytes: &[u8], group: &RecGroup) -> bool {
    match read(alloc, bytes) {
        Ok(it) => it == *group && needs_all(alloc, bytes),
        Err(_) => false,
    }
}

fn is_refused(alloc: Global, bytes: &[u8], name: &str) -> bool {
    match read(alloc, bytes) {
        Ok(_) => false,
        Err(error) => error.kind.name() == name,
    }
}

fn agrees(alloc: Global, bytes: &[u8], words: &str) -> bool {
    match group_of(alloc, words) {
        Some(group) => reads(alloc, bytes, &group),
        None => is_refused(alloc, bytes, words),
    }
}

fn holds(alloc: Global, row: &str) -> Option<bool> {
    let (field, words) = two_fields(row)?;
    Some(agrees(alloc, &bytes_of(alloc, field)?, words))
}

// Checks that a group leaves these bytes, which can be looked at without being read.
fn leaves(alloc: Global, bytes: &[u8], left: &[u8]) -> bool {
    let mut reader = BinaryReader::new(bytes, 0);
    if RecGroup::from_reader(alloc, &mut reader).is_err() {
        return false;
    }
    reader.peek() == left.first().copied()
        && reader.remaining_buffer() == left
        && reader.bytes_remaining() == left.len()
}

#[test]
fn groups_read(rt: HostRuntime) -> Result<(), Fail> {
    check_rows(rt.alloc(), GROUPS, COUNT_OF_GROUPS, holds)?;
    Ok(())
}

#[test]
fn bytes_after_a_group_are_left(rt: HostRuntime) {
    let alloc = rt.alloc();
    assert!(rt;
        leaves(alloc, &[0x60, 0, 0, 0x61, 0], &[0x61, 0]),
        "two bytes"
    );
    assert!(rt; leaves(alloc, &[0x4e, 0], &[]), "none");
}
