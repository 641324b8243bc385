//! Numbers in LEB128 at each width: `u32`, `u64`, `s32`, `s33` and `s64`. Floating-point numbers, `f32` and `f64`, are read as their bits.

use std::alloc::Global;
use wasm_core_read::binary_reader::BinaryReader;
use wasm_core_read::malformed::Malformed;
use wasm_core_write::leb128::{
    len_s32, len_s33, len_s64, len_u32, len_u64, write_s32, write_s33, write_s64, write_u32,
    write_u64,
};

/// Returns how long a number is at a width, if it is one of that width.
pub fn length(width: &str, number: i128) -> Option<usize> {
    match width {
        "u32" => u32::try_from(number).ok().map(len_u32),
        "u64" => u64::try_from(number).ok().map(len_u64),
        "s32" => i32::try_from(number).ok().map(len_s32),
        "s33" => i64::try_from(number).ok().map(len_s33),
        "s64" => i64::try_from(number).ok().map(len_s64),
        _ => None,
    }
}

/// Writes a number at a width, if it is one of that width.
pub fn write(sink: &mut Vec<u8>, width: &str, number: i128) -> Option<()> {
    match width {
        "u32" => write_u32(sink, u32::try_from(number).ok()?).ok(),
        "u64" => write_u64(sink, u64::try_from(number).ok()?).ok(),
        "s32" => write_s32(sink, i32::try_from(number).ok()?).ok(),
        "s33" => write_s33(sink, i64::try_from(number).ok()?).ok(),
        "s64" => write_s64(sink, i64::try_from(number).ok()?).ok(),
        _ => None,
    }
}

/// Returns what is written of a number at a width.
pub fn written(alloc: Global, width: &str, number: i128) -> Option<Vec<u8>> {
    let mut sink = Vec::new(alloc);
    write(&mut sink, width, number)?;
    Some(sink)
}

/// Returns the number that is read at a width, or a byte. Another width is refused at a place where no reader stands.
pub fn read(reader: &mut BinaryReader<'_>, width: &str) -> Result<i128, Malformed> {
    match width {
        "u8" => reader.read_u8().map(i128::from),
        "u32" => reader.read_var_u32().map(i128::from),
        "u64" => reader.read_var_u64().map(i128::from),
        "s32" => reader.read_var_i32().map(i128::from),
        "s33" => reader.read_var_s33().map(i128::from),
        "s64" => reader.read_var_i64().map(i128::from),
        "f32" => reader.read_f32_bits().map(i128::from),
        "f64" => reader.read_f64_bits().map(i128::from),
        _ => Err(Malformed { offset: u64::MAX }),
    }
}

/// Returns the number of these bytes, by shifts from the last to the first.
pub fn value(width: &str, bytes: &[u8]) -> i128 {
    let is_signed = width.starts_with('s');
    let is_negative = is_signed && bytes.last().is_some_and(|last| last & 0x40 != 0);
    let mut value: i128 = if is_negative { -1 } else { 0 };
    for byte in bytes.iter().rev() {
        value = (value << 7) | i128::from(byte & 0x7f);
    }
    value
}
