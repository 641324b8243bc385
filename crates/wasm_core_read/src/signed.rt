//! Signed numbers in LEB128.

ghost use Rattle.std.specs.Prelude.{◌≡◌, ◌<◌, ◌≤◌, ◌+◌, ◌^◌, length, IfSome};
ghost use Rattle.std.specs.Option.{option_map};
ghost use Rattle.wasm_core_read.specs.Reading.{above, last_signed, signed_at};

use crate::unsigned::has_bits;

// The number whose last byte has so few bits, and which has the low bits below these.
#[inline(always)]
fn with_last(low: u64, shift: u32, byte: u8, bits: u32) -> Option<i64>
    requires is_low { low < 2 ^ shift }
    requires is_last { byte < 128 }
    requires some_bits { 0 < bits }
    requires at_most_64 { shift + bits ≤ 64 }
    ensures { result ≡ option_map (above low (2 ^ shift)) (last_signed bits byte) }
{
    if byte < 64 {
        if !has_bits(byte, bits - 1) {
            return None;
        }
        return Some(((u64::from(byte) << shift) + low) as i64);
    }

    // A negative number is one less than the negation of its complement.
    let high = 127 - byte;
    if !has_bits(high, bits - 1) {
        return None;
    }
    let complement = (u64::from(high) << shift) + ((1 << shift) - 1 - low);
    Some(-1 - complement as i64)
}

/// The number of at most so many bits at the front, and the bytes after it.
#[inline(always)]
pub fn signed_front(bytes: &[u8], bits: u32) -> Option<(i64, &[u8])>
    requires some_bits { 0 < bits }
    requires at_most_64 { bits ≤ 64 }
    ensures read { option_map (λ x. (x.0, x.1.now)) result ≡ signed_at bits bytes.now }
    ensures shorter { IfSome result (λ x. length x.1.now ≤ length bytes.now) }
{
    match bytes.split_first() {
        Some((byte, rest)) if *byte < 128 => match with_last(0, 0, *byte, bits) {
            None => None,
            Some(value) => Some((value, rest)),
        },
        _ => many_bytes(bytes, bits),
    }
}

#[inline(never)]
fn many_bytes(bytes: &[u8], bits: u32) -> Option<(i64, &[u8])>
    requires some_bits { 0 < bits }
    requires at_most_64 { bits ≤ 64 }
    ensures read { option_map (λ x. (x.0, x.1.now)) result ≡ signed_at bits bytes.now }
    ensures shorter { IfSome result (λ x. length x.1.now ≤ length bytes.now) }
{
    let mut low = 0;
    let mut shift = 0;
    let mut rest = bytes;
    while let Some((byte, after)) = rest.split_first() {
        let left = bits - shift;
        if *byte < 128 {
            return match with_last(low, shift, *byte, left) {
                None => None,
                Some(value) => Some((value, after)),
            };
        }
        if left <= 7 {
            return None;
        }
        low += u64::from(*byte - 128) << shift;
        shift += 7;
        rest = after;
    }
    None
}
