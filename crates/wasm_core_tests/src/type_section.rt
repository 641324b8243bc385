//! Type sections: what they write, and how long it is.

use std::alloc::Global;
use std::test::Fail;
use wasm_core::encode::{Encode, Section};
use wasm_core::leb128::len_u64;
use wasm_core::module::Module;
use wasm_core::type_section::TypeSection;
use wasm_core::types::{FuncType, SubType};
use wasm_test_rows::fields::{three_fields, word_and_rest};
use wasm_test_rows::rows::check_rows;
use wasm_test_rows::values::{bytes_of, numbers_of};
use wasm_test_types::types::{func_type_of, sub_type_of, sub_types_of};

fn add_func(alloc: Global, section: &mut TypeSection, field: &str) -> bool {
    let Some(ty) = func_type_of(alloc, field) else {
        return false;
    };
    section.func(ty).is_ok()
}

fn add_type(alloc: Global, section: &mut TypeSection, field: &str) -> bool {
    let Some(ty) = sub_type_of(alloc, field) else {
        return false;
    };
    section.subtype(ty).is_ok()
}

fn add_group(alloc: Global, section: &mut TypeSection, field: &str) -> bool {
    let Some(types) = sub_types_of(alloc, field) else {
        return false;
    };
    section.rec(types).is_ok()
}

/// Appends an entry to the section, if it can: `func` and a function type, `type` and a type alone, or `rec` and a group of types.
pub fn add(alloc: Global, section: &mut TypeSection, entry: &str) -> bool {
    match word_and_rest(entry) {
        ("func", ty) => add_func(alloc, section, ty),
        ("type", ty) => add_type(alloc, section, ty),
        ("rec", types) => add_group(alloc, section, types),
        _ => false,
    }
}

// Appends an entry so many times, if it can.
fn add_times(alloc: Global, section: &mut TypeSection, entry: &str, count: u32) -> bool {
    for _ in 0..count {
        if !add(alloc, section, entry) {
            return false;
        }
    }
    true
}

// Appends entries with `;` between them, if it can. An entry may be followed by how often it stands there: `func -> * 20`.
fn add_all(alloc: Global, section: &mut TypeSection, entries: &str) -> bool {
    for entry in entries.split_terminator(';') {
        let (entry, count) = entry.split_once(" * ").unwrap_or((entry, "1"));
        let count = count.trim().parse().unwrap_or(0);
        if count == 0 || !add_times(alloc, section, entry, count) {
            return false;
        }
    }
    true
}

/// Returns a section of these entries.
pub fn section_of(alloc: Global, entries: &str) -> Option<TypeSection> {
    let mut section = TypeSection::new(alloc);
    if add_all(alloc, &mut section, entries) {
        Some(section)
    } else {
        None
    }
}

// Returns how long the entries are together, with their number.
fn content_len(section: &TypeSection) -> Option<u64> {
    let mut content = len_u64(u64::from(section.len())) as u64;
    for i in 0..section.len() {
        content = content.saturating_add(section.item_len(i)?);
    }
    Some(content)
}

// Checks that the lengths of a section that writes so many bytes say so.
fn says_its_lengths(section: &TypeSection, len: u64) -> bool {
    let Some(content) = content_len(section) else {
        return false;
    };
    section.item_len(section.len()).is_none()
        && section.item_len(u32::MAX).is_none()
        && content.saturating_add(len_u64(content) as u64) == len
}

// Returns what a section writes. Its lengths are to say so, and it is to write into just the room that it asks for.
fn written(alloc: Global, section: &TypeSection) -> Option<Vec<u8>> {
    let len = section.encoded_len().ok()?;
    let mut sink = Vec::with_capacity(alloc, len as usize).ok()?;
    section.encode(&mut sink).ok()?;
    let is_full = sink.len() as u64 == len && sink.capacity() as u64 == len;
    if is_full && says_its_lengths(section, len) {
        Some(sink)
    } else {
        None
    }
}

// Checks that a section has entries of these lengths.
fn has_lengths(section: &TypeSection, lengths: &[u32]) -> bool {
    let mut count = 0u32;
    for length in lengths {
        if section.item_len(count) != Some(u64::from(*length)) {
            return false;
        }
        count = count.saturating_add(1);
    }
    section.len() == count && section.is_empty() == (count == 0) && section.id() == 1
}

// Returns a module of one section.
fn module_of(alloc: Global, section: &TypeSection) -> Option<Vec<u8>> {
    let mut module = Module::new(alloc).ok()?;
    module.push(section).ok()?;
    Some(module.finish())
}

// Checks that a section writes these bytes, and a module has just them after its header and the section's number.
fn writes(alloc: Global, section: &TypeSection, bytes: &[u8]) -> bool {
    match (written(alloc, section), module_of(alloc, section)) {
        (Some(found), Some(module)) => {
            found.as_slice() == bytes && module.strip_prefix(b"\0asm\x01\0\0\0\x01") == Some(bytes)
        }
        _ => false,
    }
}

/// Entries of a section, how long each is, and what the section writes.
pub const SECTIONS: &str = "
    | | 01 00
    func -> | 3 | 04 01 60 00 00
    func i32 i64 -> i32 ; func i64 i32 -> | 6 5 | 0c 02 60 02 7f 7e 01 7f 60 02 7e 7f 00
    func -> ; func i32 i64 f32 f64 v128 -> i64 | 3 9 | 0d 02 60 00 00 60 05 7f 7e 7d 7c 7b 01 7e
    // A group of two structures, each with a reference to the other.
    rec struct 1?, struct 0? | 12 | 0d 01 4e 02 5f 01 63 01 00 5f 01 63 00 00
    // Below a type that is not final.
    type open struct ; type open sub 0 struct i32 | 4 7 | 0c 02 50 00 5f 00 50 01 00 5f 01 7f 00
    // A final type below another.
    type sub 200 struct | 6 | 07 01 4f 01 c8 01 5f 00
    // Arrays and continuations.
    type array mut:i8 ; type array i16 ; type array mut:v128 ; type cont 0 ; type cont 64 | 3 3 3 2 3 | 0f 05 5e 78 01 5e 77 00 5e 7b 01 5d 00 5d c0 00
    // References.
    func func 100 func? 100? -> 4294967295? | 18 | 13 01 60 04 64 70 64 e4 00 70 63 e4 00 01 63 ff ff ff ff 0f
    func nocont? -> nocont | 6 | 07 01 60 01 75 01 64 75
    func noexn? -> noexn | 6 | 07 01 60 01 74 01 64 74
    func nofunc? -> nofunc | 6 | 07 01 60 01 73 01 64 73
    func noextern? -> noextern | 6 | 07 01 60 01 72 01 64 72
    func none? -> none | 6 | 07 01 60 01 71 01 64 71
    func func? -> func | 6 | 07 01 60 01 70 01 64 70
    func extern? -> extern | 6 | 07 01 60 01 6f 01 64 6f
    func any? -> any | 6 | 07 01 60 01 6e 01 64 6e
    func eq? -> eq | 6 | 07 01 60 01 6d 01 64 6d
    func i31? -> i31 | 6 | 07 01 60 01 6c 01 64 6c
    func struct? -> struct | 6 | 07 01 60 01 6b 01 64 6b
    func array? -> array | 6 | 07 01 60 01 6a 01 64 6a
    func exn? -> exn | 6 | 07 01 60 01 69 01 64 69
    func cont? -> cont | 6 | 07 01 60 01 68 01 64 68
";

// Many entries.
const MANY: &str = "
    func -> * 128 | 3*128 | 82 03 80 01 600000*128
    func -> * 1000000 | 3*1000000 | c3 8d b7 01 c0 84 3d 600000*1000000
    rec func -> * 1000 | 5*1000 | 8a 27 e8 07 4e01600000*1000
";

fn holds(alloc: Global, row: &str) -> Option<bool> {
    let (entries, lengths, bytes) = three_fields(row)?;
    let lengths = numbers_of(alloc, lengths)?;
    let bytes = bytes_of(alloc, bytes)?;
    let section = section_of(alloc, entries)?;
    Some(has_lengths(&section, &lengths) && writes(alloc, &section, &bytes))
}

#[test]
fn sections_write_their_entries(rt: HostRuntime) -> Result<(), Fail> {
    check_rows(rt.alloc(), SECTIONS, 23, holds)?;
    Ok(check_rows(rt.alloc(), MANY, 3, holds)?)
}

// Adds a group of one type, the type itself, and an empty group, each to what the call before answers.
fn add_in_turn(
    section: &mut TypeSection,
    group: Vec<SubType>,
    ty: SubType,
    none: Vec<SubType>,
) -> bool {
    let Ok(section) = section.rec(group) else {
        return false;
    };
    let Ok(section) = section.subtype(ty) else {
        return false;
    };
    section.rec(none).is_ok()
}

// Checks that these bytes are written of a section that is made in this way.
fn writes_in_turn(alloc: Global, bytes: &[u8]) -> bool {
    let (Some(group), Some(ty)) = (sub_types_of(alloc, "struct"), sub_type_of(alloc, "struct"))
    else {
        return false;
    };
    let mut section = TypeSection::new(alloc);
    add_in_turn(&mut section, group, ty, Vec::new(alloc)) && writes(alloc, &section, bytes)
}

#[test]
fn calls_go_on(rt: HostRuntime) {
    assert!(rt; writes_in_turn(rt.alloc(), b"\x09\x03\x4e\x01\x5f\0\x5f\0\x4e\0"));
}

fn no_results(alloc: Global) -> FuncType {
    FuncType::new(Vec::new(alloc), Vec::new(alloc))
}

// Returns what is written twice after three bytes.
fn written_twice(alloc: Global) -> Option<Vec<u8>> {
    let section = section_of(alloc, "func ->")?;
    let mut sink = b"abc".to_vec(alloc).ok()?;
    section.encode(&mut sink).ok()?;
    section.encode(&mut sink).ok()?;
    Some(sink)
}

#[test]
fn appends_after_what_stands_there(rt: HostRuntime) {
    let expected: &[u8] = b"abc\x04\x01\x60\0\0\x04\x01\x60\0\0";
    assert!(rt; written_twice(rt.alloc()).as_deref() == Some(expected));
}
