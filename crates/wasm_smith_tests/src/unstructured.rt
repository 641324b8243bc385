//! Values that are drawn of bytes.

use std::alloc::Global;
use std::test::Fail;
use wasm_smith_unstructured::error::{EmptyChoose, NotEnoughData};
use wasm_smith_unstructured::text::limited_str;
use wasm_smith_unstructured::unstructured::Unstructured;
use wasm_test_rows::fields::{two_fields, word_and_rest};
use wasm_test_rows::rows::check_rows;
use wasm_test_rows::values::bytes_of;

// Bytes, and what is drawn of them, one call after the other. `range 5 4` is a number from 5 to 9, and `above 1` is one from 1 to the largest.
const DRAWN: &str = "
    01 02 | range 0 300 = 258
    0c | range 5 4 = 7
    | range 5 4 = 5
    01 2c | range 0 299 = 0
    fffefdfcfbfaf9f8 f7 | above 0 = 18446460386757245432, range 7 0 = 7, u8 = 247, above 1 = 1
    // The least significant byte of a word is first.
    01 02 03 | u64 = 197121
    01 02 03 04 | u32 = 67305985
    01 02 | u32 = 513
    // To the end, and after it.
    0102030405060708 09 0a 0b | u64 = 578437695752307201, bool = 1, bool = 0, empty = 0, u8 = 11, empty = 1, u8 = 0, bool = 0
    00 | ratio 1 4 = 1
    01 | ratio 1 4 = 0
    | ratio 1 4 = 1
    03 | ratio 4 4 = 1
    // A length is drawn from the end.
    | length = 0, skip 0 = 1, empty = 1
    09 | length = 0, skip 1 = 1, empty = 1
    00 09 | length = 1, skip 1 = 1, empty = 1
    00*255 ff | length = 255, skip 255 = 1, empty = 1
    00*254 01 07 | length = 7, skip 255 = 1, empty = 1
    00*256 07 | length = 7, skip 255 = 1, empty = 1
    00*255 01 02 | length = 2, skip 255 = 1, empty = 1
    00*298 01 02 | length = 258, skip 298 = 1, empty = 1
    // The longest string.
    61 62 63 02 | string 10 = ab, u8 = 99, empty = 1
    c3 a9 c3 03 | string 10 = é, u8 = 195, empty = 1
    61 | string 10 =, u8 = 97, empty = 1
    61 62 63 03 | string 2 = ab, u8 = 99, empty = 1
    | string 10 =, u8 = 0, empty = 1
    // Bytes are looked at and taken where they are there.
    61 62 63 | peek 4 = none, take 4 = none, peek 2 = ab, take 2 = ab, take 2 = none, peek 1 = c, take 1 = c, take 0 =
";

// Returns a number that is drawn. A bool is 1 or 0.
fn number(unstructured: &mut Unstructured<'_>, call: &str) -> Option<u64> {
    match call {
        "u8" => Some(u64::from(unstructured.u8())),
        "u32" => Some(u64::from(unstructured.u32())),
        "u64" => Some(unstructured.u64()),
        "bool" => Some(u64::from(unstructured.bool())),
        "empty" => Some(u64::from(unstructured.is_empty())),
        "length" => Some(unstructured.arbitrary_len() as u64),
        "above 0" => Some(unstructured.int_in_range(0..=u64::MAX)),
        "above 1" => Some(unstructured.int_in_range(1..=u64::MAX)),
        "ratio 1 4" => Some(u64::from(unstructured.ratio(1, 4))),
        "ratio 4 4" => Some(u64::from(unstructured.ratio(4, 4))),
        _ => number_in_range(unstructured, call.strip_prefix("range ")?),
    }
}

// Returns a number of a range, whose first number and length are given.
fn number_in_range(unstructured: &mut Unstructured<'_>, range: &str) -> Option<u64> {
    let (first, more) = range.split_once(' ')?;
    let first: u32 = first.parse().ok()?;
    let more: u32 = more.parse().ok()?;
    Some(unstructured.int_in_range(u64::from(first)..=u64::from(first) + u64::from(more)))
}

// Checks that so many bytes are these, or aren't there.
fn has_bytes(unstructured: &mut Unstructured<'_>, call: &str, expected: &str) -> bool {
    let (name, digits) = word_and_rest(call);
    let Ok(len) = digits.parse() else {
        return false;
    };
    let wanted = if expected == "none" {
        None
    } else {
        Some(expected.as_bytes())
    };
    match name {
        "string" => limited_str(unstructured, len) == expected,
        "skip" => expected == "1" && unstructured.bytes(len).is_ok(),
        "peek" => unstructured.peek_bytes(len) == wanted,
        "take" => unstructured.bytes(len) == wanted.ok_or(NotEnoughData),
        _ => false,
    }
}

// Checks that the next call gives what is expected.
fn gives(unstructured: &mut Unstructured<'_>, call: &str, expected: &str) -> bool {
    match number(unstructured, call) {
        Some(number) => expected.parse().ok() == Some(number),
        None => has_bytes(unstructured, call, expected),
    }
}

// Checks that each call gives what stands after its `=`.
fn draws(bytes: &[u8], calls: &str) -> bool {
    let mut unstructured = Unstructured::new(bytes);
    for step in calls.split(',') {
        let Some((call, expected)) = step.split_once('=') else {
            return false;
        };
        if !gives(&mut unstructured, call.trim(), expected.trim()) {
            return false;
        }
    }
    true
}

fn holds(alloc: Global, row: &str) -> Option<bool> {
    let (bytes, calls) = two_fields(row)?;
    Some(draws(&bytes_of(alloc, bytes)?, calls))
}

#[test]
fn values_are_drawn_of_bytes(rt: HostRuntime) -> Result<(), Fail> {
    Ok(check_rows(rt.alloc(), DRAWN, 27, holds)?)
}

// Checks that of none, of three, of one and of two that one is chosen which the bytes say.
fn chooses_by_bytes(unstructured: &mut Unstructured<'_>) -> bool {
    let none: &[char] = &[];
    unstructured.choose(none) == Err(EmptyChoose)
        && unstructured.choose(&['a', 'b', 'c']) == Ok(&'b')
        && unstructured.choose(&['a']) == Ok(&'a')
        && unstructured.choose(&['a', 'b']) == Ok(&'b')
        && unstructured.u8() == 9
}

#[test]
fn chooses(rt: HostRuntime) {
    assert!(rt; chooses_by_bytes(&mut Unstructured::new(b"\x04\x01\x09")));
}
