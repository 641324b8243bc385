//! Numbers in LEB128: what is written of them, and that it is read back.

use crate::widths::{length, read, value, written};
use std::alloc::{AllocError, Global};
use std::test::Fail;
use wasm_core_read::binary_reader::BinaryReader;
use wasm_core_write::leb128::{len_s64, len_u64, put_s64, put_u64, write_s64, write_u32};
use wasm_test_rows::fields::three_fields;
use wasm_test_rows::rows::check_rows;
use wasm_test_rows::values::bytes_of;

// Checks that these bytes are the number at a width, are as long as it is said to be, and are all that is read. Past 33 bits a number is written at 33
// bits, and isn't read.
fn is_kept(width: &str, number: i128, bytes: &[u8]) -> bool {
    let mut reader = BinaryReader::new(bytes, 0);
    let is_readable = width != "s33" || (number >= -4_294_967_296 && number < 4_294_967_296);
    let is_read = match read(&mut reader, width) {
        Ok(found) => is_readable && found == number && reader.eof(),
        Err(_) => !is_readable,
    };
    is_read && value(width, bytes) == number && length(width, number) == Some(bytes.len())
}

// Checks that the number fills just the room of its length.
fn unsigned_fills_its_room(alloc: Global, number: u64) -> Result<bool, AllocError> {
    let mut sink = Vec::with_capacity(alloc, len_u64(number))?;
    put_u64(&mut sink, number);
    Ok(value("u64", &sink) == i128::from(number) && sink.capacity() == len_u64(number))
}

fn signed_fills_its_room(alloc: Global, number: i64) -> Result<bool, AllocError> {
    let mut sink = Vec::with_capacity(alloc, len_s64(number))?;
    put_s64(&mut sink, number);
    Ok(value("s64", &sink) == i128::from(number) && sink.capacity() == len_s64(number))
}

// Does the same for a number of 64 bits, with a sign or without one.
fn fills_its_room(alloc: Global, widths: &str, number: i128) -> Option<bool> {
    if widths.ends_with("u64") {
        unsigned_fills_its_room(alloc, number.try_into().ok()?).ok()
    } else {
        signed_fills_its_room(alloc, number.try_into().ok()?).ok()
    }
}

// Checks that these bytes are written of the number at each of the widths, and are kept.
fn is_written(alloc: Global, widths: &str, number: i128, bytes: &[u8]) -> bool {
    for width in widths.split_whitespace() {
        let is_same = written(alloc, width, number).as_deref() == Some(bytes);
        if !is_same || !is_kept(width, number, bytes) {
            return false;
        }
    }
    !widths.is_empty()
}

/// Widths, a number, and what is written of it.
pub const WRITTEN: &str = "
    u32 u64 | 0 | 00
    u32 u64 | 1 | 01
    u32 u64 | 63 | 3f
    u32 u64 | 64 | 40
    u32 u64 | 127 | 7f
    u32 u64 | 128 | 80 01
    u32 u64 | 16383 | ff 7f
    u32 u64 | 16384 | 80 80 01
    u32 u64 | 624485 | e5 8e 26
    u32 u64 | 2097152 | 80 80 80 01
    u32 u64 | 268435455 | ff ff ff 7f
    u32 u64 | 268435456 | 80 80 80 80 01
    u32 u64 | 4294967295 | ff ff ff ff 0f
    u64 | 4294967296 | 80 80 80 80 10
    u64 | 18446744073709551615 | ff ff ff ff ff ff ff ff ff 01

    s32 s33 s64 | 0 | 00
    s32 s33 s64 | 1 | 01
    s32 s33 s64 | -1 | 7f
    s32 s33 s64 | 63 | 3f
    s32 s33 s64 | 64 | c0 00
    s32 s33 s64 | -64 | 40
    s32 s33 s64 | -65 | bf 7f
    s32 s33 s64 | 127 | ff 00
    s32 s33 s64 | 128 | 80 01
    s32 s33 s64 | -127 | 81 7f
    s32 s33 s64 | -128 | 80 7f
    s32 s33 s64 | -129 | ff 7e
    s32 s33 s64 | 8191 | ff 3f
    s32 s33 s64 | 8192 | 80 c0 00
    s32 s33 s64 | -8192 | 80 40
    s32 s33 s64 | -8193 | ff bf 7f
    s32 s33 s64 | 2147483647 | ff ff ff ff 07
    s32 s33 s64 | -2147483648 | 80 80 80 80 78
    s33 s64 | 2147483648 | 80 80 80 80 08
    s33 s64 | -2147483649 | ff ff ff ff 77
    s33 s64 | 4294967295 | ff ff ff ff 0f
    s33 s64 | -4294967296 | 80 80 80 80 70
    // Past 33 bits.
    s33 s64 | 4294967296 | 80 80 80 80 10
    s33 s64 | -4294967297 | ff ff ff ff 6f
    s33 s64 | 9223372036854775807 | ff ff ff ff ff ff ff ff ff 00
    s33 s64 | -9223372036854775808 | 80 80 80 80 80 80 80 80 80 7f
";

fn holds(alloc: Global, row: &str) -> Option<bool> {
    let (widths, digits, bytes) = three_fields(row)?;
    let number = digits.parse().ok()?;
    let fits = fills_its_room(alloc, widths, number)?;
    let bytes = bytes_of(alloc, bytes)?;
    Some(fits && is_written(alloc, widths, number, &bytes))
}

#[test]
fn numbers_are_written(rt: HostRuntime) -> Result<(), Fail> {
    Ok(check_rows(rt.alloc(), WRITTEN, 41, holds)?)
}

// Checks that what is written of the number is read back.
fn is_read_at(alloc: Global, width: &str, number: i128) -> bool {
    match written(alloc, width, number) {
        Some(bytes) => is_kept(width, number, &bytes),
        None => false,
    }
}

// Checks that the number is read back at each width that it fits.
fn is_read_back(alloc: Global, number: i128) -> bool {
    for width in "u32 u64 s32 s33 s64".split(' ') {
        if length(width, number).is_some() && !is_read_at(alloc, width, number) {
            return false;
        }
    }
    true
}

// Checks that drawn numbers of each length are, without a sign and with one.
fn drawn_are_read_back(alloc: Global) -> bool {
    let mut drawn: u64 = 1;
    for turn in 0..10_000_u32 {
        drawn = drawn
            .wrapping_mul(6_364_136_223_846_793_005)
            .wrapping_add(1_442_695_040_888_963_407);
        let unsigned = i128::from(drawn >> (turn % 64));
        let signed = i128::from(drawn.cast_signed() >> (turn % 64));
        if !is_read_back(alloc, unsigned) || !is_read_back(alloc, signed) {
            return false;
        }
    }
    true
}

// Checks that all numbers of one byte are.
fn small_are_read_back(alloc: Global) -> bool {
    for number in -128..256_i64 {
        if !is_read_back(alloc, i128::from(number)) {
            return false;
        }
    }
    true
}

#[test]
fn numbers_are_read_back(rt: HostRuntime) {
    assert!(rt; small_are_read_back(rt.alloc()), "small");
    assert!(rt; drawn_are_read_back(rt.alloc()), "drawn");
}

// Returns three bytes, two numbers, and two bytes more.
fn surrounded(alloc: Global) -> Option<Vec<u8>> {
    let mut sink = b"abc".to_vec(alloc).ok()?;
    write_u32(&mut sink, 16_384).ok()?;
    write_s64(&mut sink, -65).ok()?;
    sink.extend_from_slice(b"de").ok()?;
    Some(sink)
}

#[test]
fn what_stands_around_a_number_stays(rt: HostRuntime) {
    let expected: &[u8] = b"abc\x80\x80\x01\xbf\x7fde";
    assert!(rt; surrounded(rt.alloc()).as_deref() == Some(expected));
}
