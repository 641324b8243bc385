//! Numbers that are read at each width: their bounds, padding to the limit, and what is refused. And bytes and strings between them.

use crate::widths::read;
use std::alloc::Global;
use std::test::Fail;
use wasm_core_read::binary_reader::BinaryReader;
use wasm_core_read::malformed::Malformed;
use wasm_test_rows::fields::{three_fields, word_and_rest};
use wasm_test_rows::rows::check_rows;
use wasm_test_rows::values::bytes_of;

// The place of the first byte.
const PLACE: u64 = 7;

// Numbers that are read one after the other, the bytes, and how many of these are left. A number has its width in front, and one of floating point is given by
// its bits.
const READ: &str = "
    u32 0 | 00 | 0
    u32 1 | 01 | 0
    u32 63 | 3f | 0
    u32 64 | 40 | 0
    u32 127 | 7f | 0
    u32 128 | 80 01 | 0
    u32 4294967295 | ff ff ff ff 0f | 0
    u32 0 | 80 80 80 80 00 | 0
    u32 1 | 81 80 80 80 00 | 0
    u32 127 | ff 80 80 80 00 | 0
    u32 malformed |  | 0
    u32 malformed | 80 | 1
    u32 malformed | 84 80 80 80 10 | 5
    u32 malformed | ff ff ff ff 10 | 5
    u32 malformed | 84 80 80 80 80 00 | 6
    u32 malformed | ff ff ff ff | 4
    u32 malformed | ff ff ff ff 1f | 5
    u32 malformed | 80 80 80 80 80 00 | 6

    u64 0 | 00 | 0
    u64 1 | 01 | 0
    u64 63 | 3f | 0
    u64 64 | 40 | 0
    u64 127 | 7f | 0
    u64 128 | 80 01 | 0
    u64 18446744073709551615 | ff ff ff ff ff ff ff ff ff 01 | 0
    u64 0 | 80 80 80 80 80 80 80 80 80 00 | 0
    u64 1 | 81 80 80 80 80 80 80 80 80 00 | 0
    u64 127 | ff 80 80 80 80 80 80 80 80 00 | 0
    u64 malformed |  | 0
    u64 malformed | 80 | 1
    u64 malformed | 84 80 80 80 80 80 80 80 80 02 | 10
    u64 malformed | ff ff ff ff ff ff ff ff ff 02 | 10
    u64 malformed | 84 80 80 80 80 80 80 80 80 80 00 | 11
    u64 malformed | ff ff ff ff ff ff ff ff ff | 9

    s32 0 | 00 | 0
    s32 1 | 01 | 0
    s32 -1 | 7f | 0
    s32 63 | 3f | 0
    s32 64 | c0 00 | 0
    s32 -64 | 40 | 0
    s32 -65 | bf 7f | 0
    s32 127 | ff 00 | 0
    s32 128 | 80 01 | 0
    s32 2147483647 | ff ff ff ff 07 | 0
    s32 -2147483648 | 80 80 80 80 78 | 0
    s32 0 | 80 80 80 80 00 | 0
    s32 1 | 81 80 80 80 00 | 0
    s32 -1 | ff ff ff ff 7f | 0
    s32 64 | c0 80 80 80 00 | 0
    s32 -65 | bf ff ff ff 7f | 0
    s32 malformed |  | 0
    s32 malformed | 80 | 1
    s32 malformed | 80 80 80 80 08 | 5
    s32 malformed | ff ff ff ff 77 | 5
    s32 malformed | ff ff ff ff 0f | 5
    s32 malformed | ff ff ff ff ff 7f | 6
    s32 malformed | 80 80 80 80 80 00 | 6
    s32 malformed | ff ff ff ff | 4

    s33 0 | 00 | 0
    s33 1 | 01 | 0
    s33 -1 | 7f | 0
    s33 63 | 3f | 0
    s33 64 | c0 00 | 0
    s33 -64 | 40 | 0
    s33 -65 | bf 7f | 0
    s33 127 | ff 00 | 0
    s33 128 | 80 01 | 0
    s33 4294967295 | ff ff ff ff 0f | 0
    s33 -4294967296 | 80 80 80 80 70 | 0
    s33 0 | 80 80 80 80 00 | 0
    s33 1 | 81 80 80 80 00 | 0
    s33 -1 | ff ff ff ff 7f | 0
    s33 64 | c0 80 80 80 00 | 0
    s33 -65 | bf ff ff ff 7f | 0
    s33 malformed |  | 0
    s33 malformed | 80 | 1
    s33 malformed | 80 80 80 80 10 | 5
    s33 malformed | ff ff ff ff 6f | 5
    s33 malformed | ff ff ff ff 1f | 5
    s33 malformed | ff ff ff ff ff 7f | 6
    s33 malformed | 80 80 80 80 80 00 | 6
    s33 malformed | ff ff ff ff | 4

    s64 0 | 00 | 0
    s64 1 | 01 | 0
    s64 -1 | 7f | 0
    s64 63 | 3f | 0
    s64 64 | c0 00 | 0
    s64 -64 | 40 | 0
    s64 -65 | bf 7f | 0
    s64 127 | ff 00 | 0
    s64 128 | 80 01 | 0
    s64 9223372036854775807 | ff ff ff ff ff ff ff ff ff 00 | 0
    s64 -9223372036854775808 | 80 80 80 80 80 80 80 80 80 7f | 0
    s64 0 | 80 80 80 80 80 80 80 80 80 00 | 0
    s64 1 | 81 80 80 80 80 80 80 80 80 00 | 0
    s64 -1 | ff ff ff ff ff ff ff ff ff 7f | 0
    s64 64 | c0 80 80 80 80 80 80 80 80 00 | 0
    s64 -65 | bf ff ff ff ff ff ff ff ff 7f | 0
    s64 malformed |  | 0
    s64 malformed | 80 | 1
    s64 malformed | 80 80 80 80 80 80 80 80 80 01 | 10
    s64 malformed | ff ff ff ff ff ff ff ff ff 7e | 10
    s64 malformed | ff ff ff ff ff ff ff ff ff 01 | 10
    s64 malformed | ff ff ff ff ff ff ff ff ff ff 7f | 11
    s64 malformed | 80 80 80 80 80 80 80 80 80 80 00 | 11
    s64 malformed | ff ff ff ff ff ff ff ff ff | 9

    // One after the other.
    s32 63, s33 -64, s64 64, s32 -65, u64 127, u32 128, s64 -1, s33 -128 | 3f 40 c0 00 bf 7f ff 00 80 01 7f 80 7f 05 | 1
    f32 1065353216, f64 13830561074266702337, f32 malformed, f64 malformed | 00 00 80 3f 01 02 03 04 05 06 f0 bf ff ff ff | 3
    u8 5, u32 4, string é, bytes ab, bytes, u8 3 | 05 84 80 00 02 c3 a9 61 62 03 | 0
    u8 5, u32 4, string é | 05 84 80 00 02 c3 a9 61 62 03 | 3
    u32 malformed, string malformed | 80 80 80 80 80 00 | 6
    // More bytes than there are: nine of eight, and one of none.
    bytes malformed | 80 80 80 80 80 80 80 00 | 8
    u8 malformed | | 0
";

// Checks that the value that is read next is this.
fn answer(reader: &mut BinaryReader<'_>, kind: &str, expected: &str) -> Result<bool, Malformed> {
    match kind {
        "string" => Ok(reader.read_string()? == expected),
        "bytes" => Ok(reader.read_bytes(expected.len())? == expected.as_bytes()),
        _ => Ok(expected.parse().ok() == Some(read(reader, kind)?)),
    }
}

// Checks that it is, or is refused where the reader stands and stays.
fn is_next(reader: &mut BinaryReader<'_>, value: &str) -> bool {
    let (kind, expected) = word_and_rest(value);
    let place = reader.original_position();
    match answer(reader, kind, expected) {
        Ok(is_same) => is_same,
        Err(refusal) => {
            expected == "malformed"
                && refusal.offset == place
                && reader.original_position() == place
        }
    }
}

// Checks that these values are read, and so many bytes are left.
fn reads(values: &str, bytes: &[u8], left: usize) -> bool {
    let mut reader = BinaryReader::new(bytes, PLACE);
    for value in values.split(',') {
        if !is_next(&mut reader, value) {
            return false;
        }
    }
    let end = PLACE + bytes.len() as u64;
    reader.bytes_remaining() == left
        && reader.eof() == (left == 0)
        && reader.original_position().saturating_add(left as u64) == end
}

fn holds(alloc: Global, row: &str) -> Option<bool> {
    let (values, bytes, left) = three_fields(row)?;
    let left = left.parse().ok()?;
    let bytes = bytes_of(alloc, bytes)?;
    Some(reads(values, &bytes, left))
}

#[test]
fn values_are_read(rt: HostRuntime) -> Result<(), Fail> {
    Ok(check_rows(rt.alloc(), READ, 113, holds)?)
}
