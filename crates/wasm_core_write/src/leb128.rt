//! Writing numbers in LEB128, each in as few bytes as there can be (Core Specification, Binary Format,
//! "Values").

ghost use Rattle.std.specs.Prelude.{◌≡◌, ◌≤◌, ◌<◌, ◌+◌, ◌^◌, ◌++◌, length, vec_len, vec_capacity};
ghost use Rattle.wasm_core_write.specs.Encoding.{Appends};
ghost use Rattle.wasm_spec.specs.Shortest.{unsigned_encoding, low_bits, magnitude_encoding, signed_encoding};

use std::alloc::AllocError;

/// Returns the number of bytes that [`write_u32`] appends.
pub fn len_u32(n: u32) -> usize
    ensures { result ≡ length (unsigned_encoding n) }
{
    len_u64(u64::from(n))
}

/// Returns the number of bytes that [`write_u64`] appends.
#[tactic(auto, using(wasm_spec::proofs::UnsignedEncodings::unsigned_steps))]
pub fn len_u64(n: u64) -> usize
    ensures bytes { result ≡ length (unsigned_encoding n) }
    ensures few { result ≤ 10 }
{
    let mut len = 1;
    let mut rest = n;
    'bytes: while rest >= 0x80 {
        len += 1;
        rest /= 0x80;
    }
    len
}

/// Returns the number of bytes that [`write_s32`] appends.
pub fn len_s32(n: i32) -> usize
    ensures { result ≡ length (signed_encoding n) }
{
    len_s64(i64::from(n))
}

/// Returns the number of bytes that [`write_s33`] appends.
pub fn len_s33(n: i64) -> usize
    ensures { result ≡ length (signed_encoding n) }
{
    len_s64(n)
}

/// Returns the number of bytes that [`write_s64`] appends.
pub fn len_s64(n: i64) -> usize
    ensures bytes { result ≡ length (signed_encoding n) }
    ensures few { result ≤ 10 }
{
    let (negative, magnitude) = parts(n);
    len_magnitude(negative, magnitude)
}

/// Appends a number.
///
/// # Errors
/// Where the sink has to grow and memory runs out. Nothing is appended then.
pub fn write_u32(sink: &mut Vec<u8>, n: u32) -> Result<(), AllocError>
    ensures { Appends sink.old sink.new result (unsigned_encoding n) }
{
    write_u64(sink, u64::from(n))
}

/// Appends a number.
///
/// # Errors
/// Where the sink has to grow and memory runs out. Nothing is appended then.
#[tactic(auto, using(wasm_spec::proofs::UnsignedEncodings::unsigned_steps))]
pub fn write_u64(sink: &mut Vec<u8>, n: u64) -> Result<(), AllocError>
    ensures { Appends sink.old sink.new result (unsigned_encoding n) }
{
    if n < 0x80 {
        return Ok(sink.push(n as u8)?);
    }
    sink.reserve(len_u64(n))?;
    put_u64(sink, n);
    Ok(())
}

/// Appends a number.
///
/// # Errors
/// Where the sink has to grow and memory runs out. Nothing is appended then.
pub fn write_s32(sink: &mut Vec<u8>, n: i32) -> Result<(), AllocError>
    ensures { Appends sink.old sink.new result (signed_encoding n) }
{
    write_s64(sink, i64::from(n))
}

/// Appends a number of 33 bits: a heap type or a block type. One that needs more bits is written all the same, as
/// [`write_s64`] does; no reader of 33 bits then takes it.
///
/// # Errors
/// Where the sink has to grow and memory runs out. Nothing is appended then.
pub fn write_s33(sink: &mut Vec<u8>, n: i64) -> Result<(), AllocError>
    ensures { Appends sink.old sink.new result (signed_encoding n) }
{
    write_s64(sink, n)
}

/// Appends a number.
///
/// # Errors
/// Where the sink has to grow and memory runs out. Nothing is appended then.
#[tactic(auto, using(wasm_spec::proofs::SignedEncodings::signed_steps))]
pub fn write_s64(sink: &mut Vec<u8>, n: i64) -> Result<(), AllocError>
    ensures { Appends sink.old sink.new result (signed_encoding n) }
{
    let (negative, magnitude) = parts(n);
    if magnitude < 0x40 {
        return Ok(sink.push(low_bits(negative, magnitude))?);
    }
    sink.reserve(len_magnitude(negative, magnitude))?;
    put_magnitude(sink, negative, magnitude);
    Ok(())
}

/// Writes a number for which there is room.
#[tactic(auto, using(wasm_spec::proofs::UnsignedEncodings::unsigned_steps))]
pub fn put_u64(sink: &mut Vec<u8>, n: u64)
    requires { vec_len sink.old + length (unsigned_encoding n) ≤ vec_capacity sink.old }
    ensures written { sink.new.items ≡ sink.old.items ++ unsigned_encoding n }
    ensures capacity { vec_capacity sink.old ≤ vec_capacity sink.new }
{
    let mut rest = n;
    'bytes: while rest >= 0x80 {
        sink.push_reserved((rest % 0x80 + 0x80) as u8);
        rest /= 0x80;
    }
    sink.push_reserved(rest as u8);
}

/// Writes a signed number for which there is room.
pub fn put_s64(sink: &mut Vec<u8>, n: i64)
    requires { vec_len sink.old + length (signed_encoding n) ≤ vec_capacity sink.old }
    ensures written { sink.new.items ≡ sink.old.items ++ signed_encoding n }
    ensures capacity { vec_capacity sink.old ≤ vec_capacity sink.new }
{
    let (negative, magnitude) = parts(n);
    put_magnitude(sink, negative, magnitude);
}

// Returns a number as its sign and m: it is m, or where it is negative -(m + 1).
fn parts(n: i64) -> (bool, u64)
    ensures bytes { magnitude_encoding result.0 result.1 ≡ signed_encoding n }
    ensures below { result.1 < 2 ^ 63 }
{
    if n < 0 {
        (true, (-(n + 1)) as u64)
    } else {
        (false, n as u64)
    }
}

// Returns the low seven bits in two's complement.
fn low_bits(negative: bool, magnitude: u64) -> u8
    ensures bits { result ≡ low_bits negative magnitude }
    ensures below { result < 128 }
{
    let low = (magnitude % 0x80) as u8;
    if negative { 0x7f - low } else { low }
}

#[tactic(auto, using(wasm_spec::proofs::SignedEncodings::signed_steps))]
fn len_magnitude(negative: bool, magnitude: u64) -> usize
    requires { magnitude < 2 ^ 63 }
    ensures bytes { result ≡ length (magnitude_encoding negative magnitude) }
    ensures few { result ≤ 10 }
{
    let mut len = 1;
    let mut rest = magnitude;
    'bytes: while rest >= 0x40 {
        len += 1;
        rest /= 0x80;
    }
    len
}

#[tactic(auto, using(wasm_spec::proofs::SignedEncodings::signed_steps))]
fn put_magnitude(sink: &mut Vec<u8>, negative: bool, magnitude: u64)
    requires { vec_len sink.old + length (magnitude_encoding negative magnitude) ≤ vec_capacity sink.old }
    ensures written { sink.new.items ≡ sink.old.items ++ magnitude_encoding negative magnitude }
    ensures capacity { vec_capacity sink.old ≤ vec_capacity sink.new }
{
    let mut rest = magnitude;
    'bytes: while rest >= 0x40 {
        sink.push_reserved(low_bits(negative, rest) + 0x80);
        rest /= 0x80;
    }
    sink.push_reserved(low_bits(negative, rest));
}
