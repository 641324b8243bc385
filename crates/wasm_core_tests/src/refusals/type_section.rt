//! Type sections, and what they write.

use crate::type_section::{SECTIONS, add};
use std::alloc::Global;
use std::test::Fail;
use wasm_core::encode::Encode;
use wasm_core::encode_error::EncodeError;
use wasm_core::type_section::TypeSection;
use wasm_core::types::FuncType;
use wasm_test_rows::fields::three_fields;
use wasm_test_rows::rows::check_rows;
use wasm_test_rows::values::bytes_of;

// Checks that an entry goes in, at the second time where it doesn't at the first and the section is as it was.
fn takes(alloc: Global, section: &mut TypeSection, entry: &str) -> bool {
    let (count, len) = (section.len(), section.encoded_len());
    if add(alloc, section, entry) {
        return true;
    }
    let is_kept = section.len() == count && section.encoded_len() == len;
    is_kept && add(alloc, section, entry)
}

fn takes_all(alloc: Global, section: &mut TypeSection, entries: &str) -> bool {
    for entry in entries.split_terminator(';') {
        if !takes(alloc, section, entry) {
            return false;
        }
    }
    true
}

// Checks that the section is written, at the second call where the first is out of memory and leaves the sink as it was.
fn is_written(section: &TypeSection, sink: &mut Vec<u8>) -> bool {
    match section.encode(sink) {
        Ok(()) => true,
        Err(error) => {
            error == EncodeError::Memory && sink.is_empty() && section.encode(sink).is_ok()
        }
    }
}

fn writes(alloc: Global, section: &TypeSection, bytes: &[u8]) -> bool {
    let mut sink = Vec::new(alloc);
    is_written(section, &mut sink) && sink.as_slice() == bytes
}

fn holds(alloc: Global, row: &str) -> Option<bool> {
    let (entries, _, bytes) = three_fields(row)?;
    let bytes = match bytes_of(alloc, bytes) {
        Some(bytes) => bytes,
        None => bytes_of(alloc, bytes)?,
    };
    let mut section = TypeSection::new(alloc);
    let are_taken = takes_all(alloc, &mut section, entries);
    Some(are_taken && writes(alloc, &section, &bytes))
}

#[test]
fn sections_take_their_entries(rt: HostRuntime) -> Result<(), Fail> {
    Ok(check_rows(rt.alloc(), SECTIONS, 23, holds)?)
}

fn no_results(alloc: Global) -> FuncType {
    FuncType::new(Vec::new(alloc), Vec::new(alloc))
}

// Checks that one function more goes in after so many, at the second call where the first is refused.
fn takes_a_function(alloc: Global, section: &mut TypeSection, count: u32) -> bool {
    if section.len() != count {
        return false;
    }
    let refusal = section.func(no_results(alloc)).err();
    if refusal.is_none() {
        return true;
    }
    let is_kept = section.len() == count && section.item_len(count).is_none();
    refusal == Some(EncodeError::Memory) && is_kept && section.func(no_results(alloc)).is_ok()
}

#[test]
fn functions_go_in(rt: HostRuntime) {
    let mut section = TypeSection::new(rt.alloc());
    for count in 0..40_u32 {
        assert!(rt;
            takes_a_function(rt.alloc(), &mut section, count),
            "{count}"
        );
    }
    let mut sink = Vec::new(rt.alloc());
    assert!(rt; is_written(&section, &mut sink));
    let front = [0x79, 0x28, 0x60, 0x00, 0x00];
    assert!(rt; sink.len() == 122 && sink.starts_with(&front), "{sink:?}");
}
