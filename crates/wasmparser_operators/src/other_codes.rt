//! Codes that no operator has, whatever the features.

ghost use Rattle.std.specs.Prelude.{◌≡◌};
ghost use Rattle.wasm_bodies.specs.OperatorRows.{Byte, Prefixed};
ghost use Rattle.wasmparser_operators.specs.OperatorAnswers.{is_other, is_other_code};
ghost use Rattle.wasmparser_operators.specs.OperatorReading.{code_at, code_from};

use wasm_core_read::binary_reader::BinaryReader;
use wasmparser_readers::passing::fork;

// Checks that a byte that is no prefix is the code of no operator.
#[tactic(auto, using(crate::proofs::OtherCodes::other_bytes))]
fn is_other_byte(code: u8) -> bool
    ensures { result ≡ is_other_code (Byte code) }
{
    match code {
        0x00..=0x05 => false,
        0x06..=0x0a => true,
        0x0b..=0x15 => false,
        0x16..=0x19 => true,
        0x1a..=0x1c => false,
        0x1d..=0x1f => true,
        0x20..=0x26 => false,
        0x27 => true,
        0x28..=0xc4 => false,
        0xc5..=0xcf => true,
        0xd0..=0xd6 => false,
        0xd7..=0xff => true,
    }
}

// Checks that no operator of structures, arrays or references has this second code.
#[tactic(auto, unfolding(crate::specs::OperatorAnswers::is_other_code))]
fn is_other_aggregate(number: u32) -> bool
    ensures { result ≡ is_other_code (Prefixed 0xfb number) }
{
    match number {
        0 | 1 | 6 | 7 | 8 | 26 | 27 | 28 => false,
        _ => true,
    }
}

// Checks that no operator that saturates, and none on a range, has this second code.
#[tactic(auto, unfolding(crate::specs::OperatorAnswers::is_other_code))]
fn is_other_range(number: u32) -> bool
    ensures { result ≡ is_other_code (Prefixed 0xfc number) }
{
    match number {
        0 | 1 | 2 | 3 | 4 | 5 | 6 | 7 | 8 | 9 | 10 | 11 | 12 | 13 | 14 | 15 | 16 | 17 => false,
        _ => true,
    }
}

// Checks that no operator of vectors has this second code.
#[tactic(auto, unfolding(crate::specs::OperatorAnswers::is_other_code))]
fn is_other_vector(number: u32) -> bool
    ensures { result ≡ is_other_code (Prefixed 0xfd number) }
{
    number != 12
}

// Checks that the code that begins with this byte is that of no operator. A second code that does not read is not.
fn is_other_from(code: u8, reader: &mut BinaryReader<'_>) -> bool
    ensures { result ≡ is_other (code_from code reader.old.rest) }
{
    match code {
        0xfb => match reader.read_var_u32() {
            Ok(number) => is_other_aggregate(number),
            Err(_) => false,
        },
        0xfc => match reader.read_var_u32() {
            Ok(number) => is_other_range(number),
            Err(_) => false,
        },
        0xfd => match reader.read_var_u32() {
            Ok(number) => is_other_vector(number),
            Err(_) => false,
        },
        _ => is_other_byte(code),
    }
}

// Checks that a code that no operator has stands next.
#[tactic(auto, using(crate::proofs::OtherCodes::codes))]
pub(crate) fn begins_other(reader: &BinaryReader<'_>) -> bool
    ensures { result ≡ is_other (code_at reader.now.rest) }
{
    let mut ahead = fork(reader);
    match ahead.read_u8() {
        Ok(code) => is_other_from(code, &mut ahead),
        Err(_) => false,
    }
}
