//! Numbers at the front of some bytes, of which most are a byte long.

ghost use Rattle.std.specs.Prelude.{◌≡◌, ◌≤◌, ◌<◌, ◌^◌, IfSome, IsTrue, Some};
ghost use Rattle.wasm_core_types.specs.Features.{feature_set};
ghost use Rattle.wasmparser_operators.specs.OperatorReading as reading;
ghost use Rattle.wasm_core_read.specs.Reading.{unsigned_at};
ghost use Rattle.wasmparser_func_validator.specs.Plain.{IsPast, IsPastFloat, IsSignedEnd};

use wasm_core_read::binary_reader::BinaryReader;
use wasm_core_types::features::WasmFeatures;

// Returns an unsigned number of so many bits that is less than 16 and one byte long, and the bytes after it.
#[inline(always)]
fn last_byte(bits: u32, code: &[u8]) -> Option<(u32, &[u8])>
    requires { 4 ≤ bits }
    ensures read { IfSome result (λ x. unsigned_at bits code.now ≡ Some (x.0, x.1.now)) }
    ensures small { IfSome result (λ x. x.0 < 2 ^ 4) }
{
    match code {
        [byte, rest @ ..] if *byte < 0x10 => Some((u32::from(*byte), rest)),
        _ => None,
    }
}

// Does the same with one byte before it, or without that one.
#[inline(always)]
fn two_bytes(bits: u32, code: &[u8]) -> Option<(u32, &[u8])>
    requires { 11 ≤ bits }
    ensures read { IfSome result (λ x. unsigned_at bits code.now ≡ Some (x.0, x.1.now)) }
    ensures small { IfSome result (λ x. x.0 < 2 ^ 11) }
{
    match code {
        [byte, rest @ ..] if *byte < 0x80 => Some((u32::from(*byte), rest)),
        [byte, rest @ ..] => {
            let (high, rest) = last_byte(bits - 7, rest)?;
            Some((u32::from(*byte) - 0x80 + 0x80 * high, rest))
        }
        [] => None,
    }
}

// Does the same with one byte more.
#[inline(always)]
fn three_bytes(bits: u32, code: &[u8]) -> Option<(u32, &[u8])>
    requires { 18 ≤ bits }
    ensures read { IfSome result (λ x. unsigned_at bits code.now ≡ Some (x.0, x.1.now)) }
    ensures small { IfSome result (λ x. x.0 < 2 ^ 18) }
{
    match code {
        [byte, rest @ ..] if *byte < 0x80 => Some((u32::from(*byte), rest)),
        [byte, rest @ ..] => {
            let (high, rest) = two_bytes(bits - 7, rest)?;
            Some((u32::from(*byte) - 0x80 + 0x80 * high, rest))
        }
        [] => None,
    }
}

// Does the same with one byte more.
#[inline(always)]
fn four_bytes(bits: u32, code: &[u8]) -> Option<(u32, &[u8])>
    requires { 25 ≤ bits }
    ensures read { IfSome result (λ x. unsigned_at bits code.now ≡ Some (x.0, x.1.now)) }
    ensures small { IfSome result (λ x. x.0 < 2 ^ 25) }
{
    match code {
        [byte, rest @ ..] if *byte < 0x80 => Some((u32::from(*byte), rest)),
        [byte, rest @ ..] => {
            let (high, rest) = three_bytes(bits - 7, rest)?;
            Some((u32::from(*byte) - 0x80 + 0x80 * high, rest))
        }
        [] => None,
    }
}

// Returns an unsigned number of so many bits that fits 32 bits and is five bytes long at most, and the bytes after it.
#[inline(always)]
pub(crate) fn five_bytes(bits: u32, code: &[u8]) -> Option<(u32, &[u8])>
    requires { 32 ≤ bits }
    ensures read { IfSome result (λ x. unsigned_at bits code.now ≡ Some (x.0, x.1.now)) }
    ensures small { IfSome result (λ x. x.0 < 2 ^ 32) }
{
    match code {
        [byte, rest @ ..] if *byte < 0x80 => Some((u32::from(*byte), rest)),
        [byte, rest @ ..] => {
            let (high, rest) = four_bytes(bits - 7, rest)?;
            Some((u32::from(*byte) - 0x80 + 0x80 * high, rest))
        }
        [] => None,
    }
}

// Checks that a byte ends a signed number of so many bits. Of fewer bits than a byte has these are some, but all of four bits.
#[inline(always)]
fn ends_signed(bits: u32, byte: u8) -> bool
    requires { 4 ≤ bits }
    ensures { IsTrue result → IsSignedEnd bits byte }
{
    if byte < 0x08 {
        return true;
    }
    if byte >= 0x80 {
        return false;
    }
    byte >= 0x78 || bits >= 7
}

// Returns the bytes after a signed number of so many bits that is one byte long.
#[inline(always)]
fn past_one_byte(bits: u32, code: &[u8]) -> Option<&[u8]>
    requires { 4 ≤ bits }
    ensures { IfSome result (λ after. IsPast bits code.now after.now) }
{
    match code {
        [byte, rest @ ..] if ends_signed(bits, *byte) => Some(rest),
        _ => None,
    }
}

// Skips a signed LEB128 of at most two bytes.
#[inline(always)]
fn past_two_bytes(bits: u32, code: &[u8]) -> Option<&[u8]>
    requires { 11 ≤ bits }
    ensures { IfSome result (λ after. IsPast bits code.now after.now) }
{
    match code {
        [byte, rest @ ..] if *byte < 0x80 => Some(rest),
        [_, rest @ ..] => {
            let after = past_one_byte(bits - 7, rest)?;
            Some(after)
        }
        [] => None,
    }
}

// Does the same for three bytes.
#[inline(always)]
fn past_three_bytes(bits: u32, code: &[u8]) -> Option<&[u8]>
    requires { 18 ≤ bits }
    ensures { IfSome result (λ after. IsPast bits code.now after.now) }
{
    match code {
        [byte, rest @ ..] if *byte < 0x80 => Some(rest),
        [_, rest @ ..] => {
            let after = past_two_bytes(bits - 7, rest)?;
            Some(after)
        }
        [] => None,
    }
}

// Does the same for four bytes.
#[inline(always)]
fn past_four_bytes(bits: u32, code: &[u8]) -> Option<&[u8]>
    requires { 25 ≤ bits }
    ensures { IfSome result (λ after. IsPast bits code.now after.now) }
{
    match code {
        [byte, rest @ ..] if *byte < 0x80 => Some(rest),
        [_, rest @ ..] => {
            let after = past_three_bytes(bits - 7, rest)?;
            Some(after)
        }
        [] => None,
    }
}

// Does the same for five bytes.
#[inline(always)]
fn past_five_bytes(bits: u32, code: &[u8]) -> Option<&[u8]>
    requires { 32 ≤ bits }
    ensures { IfSome result (λ after. IsPast bits code.now after.now) }
{
    match code {
        [byte, rest @ ..] if *byte < 0x80 => Some(rest),
        [_, rest @ ..] => {
            let after = past_four_bytes(bits - 7, rest)?;
            Some(after)
        }
        [] => None,
    }
}

// Does the same for six bytes.
#[inline(always)]
fn past_six_bytes(bits: u32, code: &[u8]) -> Option<&[u8]>
    requires { 39 ≤ bits }
    ensures { IfSome result (λ after. IsPast bits code.now after.now) }
{
    match code {
        [byte, rest @ ..] if *byte < 0x80 => Some(rest),
        [_, rest @ ..] => {
            let after = past_five_bytes(bits - 7, rest)?;
            Some(after)
        }
        [] => None,
    }
}

// Returns the number of bits of an offset.
#[inline(always)]
pub(crate) fn offset_bits(features: WasmFeatures) -> u32
    ensures { result ≡ reading.offset_bits (feature_set features) }
{
    if features.memory64() { 64 } else { 32 }
}

// Returns the bytes after a signed number of 32 bits.
#[inline(always)]
pub(crate) fn past_i32(code: &[u8]) -> Option<&[u8]>
    ensures { IfSome result (λ after. IsPast 32 code.now after.now) }
{
    past_five_bytes(32, code)
}

// Does the same for 64 bits, where the number is six bytes long at most.
#[inline(always)]
pub(crate) fn past_short_i64(code: &[u8]) -> Option<&[u8]>
    ensures { IfSome result (λ after. IsPast 64 code.now after.now) }
{
    past_six_bytes(64, code)
}

// Does the same for any length.
#[inline(never)]
pub(crate) fn past_i64(code: &[u8]) -> Option<&[u8]>
    ensures { IfSome result (λ after. IsPast 64 code.now after.now) }
{
    let mut reader = BinaryReader::new(code, 0);
    match reader.read_var_i64() {
        Ok(_) => Some(reader.remaining_buffer()),
        Err(_) => None,
    }
}

// Returns the bytes after a float of four bytes.
#[inline(always)]
pub(crate) fn past_four(code: &[u8]) -> Option<&[u8]>
    ensures { IfSome result (λ after. IsPastFloat 4 code.now after.now) }
{
    match code {
        [_, _, _, _, rest @ ..] => Some(rest),
        _ => None,
    }
}

// Does the same for eight bytes.
#[inline(always)]
pub(crate) fn past_eight(code: &[u8]) -> Option<&[u8]>
    ensures { IfSome result (λ after. IsPastFloat 8 code.now after.now) }
{
    match code {
        [_, _, _, _, _, _, _, _, rest @ ..] => Some(rest),
        _ => None,
    }
}
