//! The stacks of core dumps.

use crate::written::writes;
use std::alloc::Global;
use std::test::Fail;
use wasm_encoder_custom::core_dump_stack::{CoreDumpStackSection, CoreDumpValue};
use wasm_encoder_instructions::ieee::{Ieee32, Ieee64};
use wasm_test_rows::fields::four_fields;
use wasm_test_rows::rows::check_rows;

// Returns a value: `missing`, `i32/-1`, or `f32/BITS`.
fn value_of(word: &str) -> Option<CoreDumpValue> {
    let (kind, value) = word.split_once('/').unwrap_or((word, ""));
    match kind {
        "missing" => Some(CoreDumpValue::Missing),
        "i32" => Some(CoreDumpValue::I32(value.parse().ok()?)),
        "i64" => Some(CoreDumpValue::I64(value.parse().ok()?)),
        "f32" => Some(CoreDumpValue::F32(Ieee32::new(value.parse().ok()?))),
        "f64" => Some(CoreDumpValue::F64(Ieee64::new(value.parse().ok()?))),
        _ => None,
    }
}

// Values with spaces between them, each of which may be followed by how often it stands there.
fn put_values(values: &mut Vec<CoreDumpValue>, field: &str) -> Option<()> {
    for word in field.split_whitespace() {
        let (word, count) = word.split_once('*').unwrap_or((word, "1"));
        let value = value_of(word)?;
        for _ in 0..count.parse::<u32>().ok()? {
            values.push(value).ok()?;
        }
    }
    Some(())
}

fn values_of(alloc: Global, field: &str) -> Option<Vec<CoreDumpValue>> {
    let mut values = Vec::new(alloc);
    put_values(&mut values, field)?;
    Some(values)
}

// Returns three numbers: an instance, a function and an offset.
fn place_of(field: &str) -> Option<[u32; 3]> {
    let mut words = field.split_whitespace();
    let instance = words.next()?.parse().ok()?;
    let function = words.next()?.parse().ok()?;
    let offset = words.next()?.parse().ok()?;
    if words.next().is_none() {
        Some([instance, function, offset])
    } else {
        None
    }
}

// Adds a frame so often.
fn repeat_frame(
    section: &mut CoreDumpStackSection,
    count: u32,
    place: [u32; 3],
    locals: &[CoreDumpValue],
    operands: &[CoreDumpValue],
) -> bool {
    let [instance, function, offset] = place;
    for _ in 0..count {
        let added = section.frame(instance, function, offset, locals, operands);
        if added.is_err() {
            return false;
        }
    }
    true
}

// Adds a frame so often: its instance, function and offset, then its locals, and its operands.
fn add_frame(
    alloc: Global,
    section: &mut CoreDumpStackSection,
    count: u32,
    frame: &str,
) -> Option<bool> {
    let (place, values) = frame.split_once(':')?;
    let (locals, operands) = values.split_once(':')?;
    let place = place_of(place)?;
    let locals = values_of(alloc, locals)?;
    let operands = values_of(alloc, operands)?;
    let is_added = repeat_frame(section, count, place, &locals, &operands);
    Some(is_added)
}

// Adds frames, each before a semicolon, each so often, and answers how many they are.
fn add_frames(
    alloc: Global,
    section: &mut CoreDumpStackSection,
    count: u32,
    frames: &str,
) -> Option<u32> {
    let mut added: u32 = 0;
    for frame in frames.split_terminator(';') {
        if add_frame(alloc, section, count, frame) != Some(true) {
            return None;
        }
        added = added.saturating_add(count);
    }
    Some(added)
}

// A thread's name, how often each frame stands there, the frames, and the section.
const STACKS: &str = "
    | 0 | | 00 0d 09 63 6f 72 65 73 74 61 63 6b 00 00 00
    t | 1 | 0 1 2 : : ; | 00 14 09 63 6f 72 65 73 74 61 63 6b 00 01 74 01 00 00 01 02 00 00
    t | 1 | 64 65 66 : : ; | 00 14 09 63 6f 72 65 73 74 61 63 6b 00 01 74 01 00 40 41 42 00 00
    t | 1 | 0 1 2 : : ; 3 4 5 : missing : ; | 00 1b 09 63 6f 72 65 73 74 61 63 6b 00 01 74 02 00 00 01 02 00 00 00 03 04 05 01 01 00
    t | 1 | 128 300 4294967295 : missing i32/-1 i64/64 : f32/1 f64/2 ; | 00 2e 09 63 6f 72 65 73 74 61 63 6b 00 01 74 01 00 80 01 ac 02 ff ff ff ff 0f 03 01 7f 7f 7e c0 00 02 7d 01 00 00 00 7c 02 00 00 00 00 00 00 00
    t | 1 | 0 0 0 : i32/-2147483648 i64/9223372036854775807 i64/-9223372036854775808 : f32/2139095040 f64/9218868437227405312 ; | 00 3e 09 63 6f 72 65 73 74 61 63 6b 00 01 74 01 00 00 00 00 03 7f 80 80 80 80 78 7e ff ff ff ff ff ff ff ff ff 00 7e 80 80 80 80 80 80 80 80 80 7f 02 7d 00 00 80 7f 7c 00 00 00 00 00 00 f0 7f
    t | 100000 | 0 1 2 : : ; | 00 d0 cf 24 09 63 6f 72 65 73 74 61 63 6b 00 01 74 a0 8d 06 000001020000*100000
    t | 1 | 0 1 2 : missing*100000 : i32/0*100000 ; | 00 f8 a7 12 09 63 6f 72 65 73 74 61 63 6b 00 01 74 01 00 00 01 02 a0 8d 06 01*100000 a0 8d 06 7f00*100000
";

// Checks that the section, also as a custom section, is these bytes, and so many frames.
fn is_written(
    alloc: Global,
    section: &CoreDumpStackSection,
    frames: u32,
    bytes: &str,
) -> Option<bool> {
    let custom = section.as_custom().ok()?;
    let is_counted = section.len() == frames && section.item_len(frames).is_none();
    Some(is_counted && writes(alloc, section, bytes) && writes(alloc, &custom, bytes))
}

fn stack_row(alloc: Global, row: &str) -> Option<bool> {
    let (name, count, frames, bytes) = four_fields(row)?;
    let count = count.parse().ok()?;
    let mut section = CoreDumpStackSection::new(alloc, name).ok()?;
    let added = add_frames(alloc, &mut section, count, frames)?;
    is_written(alloc, &section, added, bytes)
}

#[test]
fn stacks(rt: HostRuntime) -> Result<(), Fail> {
    Ok(check_rows(rt.alloc(), STACKS, 8, stack_row)?)
}

fn lengths(alloc: Global) -> Option<bool> {
    let mut section = CoreDumpStackSection::new(alloc, "").ok()?;
    add_frames(
        alloc,
        &mut section,
        1,
        "0 1 2 : : ; 0 0 0 : i32/-1 : f64/0 ;",
    )?;
    Some(section.item_len(0) == Some(6) && section.item_len(1) == Some(17))
}

#[test]
fn lengths_of_frames(rt: HostRuntime) {
    assert!(rt; lengths(rt.alloc()) == Some(true));
}
