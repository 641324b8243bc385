//! Sections of entries, as their rows tell them.

use crate::code::BODIES;
use crate::data::DATA;
use crate::elements::ELEMENTS;
use crate::entries::{Rows, holds};
use crate::exports::EXPORTS;
use crate::globals::GLOBALS;
use crate::initialised_tables::TABLES;
use crate::memories::MEMORIES;
use crate::refusals::refused::is_written;
use std::alloc::Global;
use std::test::Fail;
use wasm_encoder_expression_sections::code_section::CodeSection;
use wasm_encoder_expression_sections::data_section::DataSection;
use wasm_encoder_expression_sections::element_section::ElementSection;
use wasm_encoder_expression_sections::global_section::GlobalSection;
use wasm_encoder_expression_sections::table_section::TableSection;
use wasm_encoder_sections::export_section::ExportSection;
use wasm_encoder_sections::memory_section::MemorySection;
use wasm_test_rows::fields::three_fields;
use wasm_test_rows::rows::check_rows;

// Checks that an entry goes in, at the second time where it doesn't at the first and the section is as it was.
fn takes<S: Rows>(alloc: Global, section: &mut S, entry: &str) -> bool {
    let count = section.entry(0).0;
    let len = section.encoded_len();
    if section.add(alloc, entry).is_some() {
        return true;
    }
    let is_kept = section.entry(0).0 == count && section.encoded_len() == len;
    is_kept && section.add(alloc, entry).is_some()
}

fn takes_all<S: Rows>(alloc: Global, section: &mut S, entries: &str) -> bool {
    for entry in entries.split_terminator(';') {
        if !takes(alloc, section, entry) {
            return false;
        }
    }
    true
}

// Checks that the section is what a row says, at the second time where memory runs out on the row's words or for the bytes.
fn is_so<S: Rows>(alloc: Global, section: &S, lengths: &str, bytes: &str) -> bool {
    holds(alloc, section, lengths, bytes) == Some(true)
        || holds(alloc, section, lengths, bytes) == Some(true)
}

fn row<S: Rows + Drop>(alloc: Global, row: &str) -> Option<bool> {
    let (entries, lengths, bytes) = three_fields(row)?;
    let mut section = S::empty(alloc);
    let are_taken = takes_all(alloc, &mut section, entries);
    Some(are_taken && is_written(alloc, &section) && is_so(alloc, &section, lengths, bytes))
}

#[test]
fn memories(rt: HostRuntime) -> Result<(), Fail> {
    Ok(check_rows(rt.alloc(), MEMORIES, 5, row::<MemorySection>)?)
}

#[test]
fn exports(rt: HostRuntime) -> Result<(), Fail> {
    Ok(check_rows(rt.alloc(), EXPORTS, 3, row::<ExportSection>)?)
}

#[test]
fn tables(rt: HostRuntime) -> Result<(), Fail> {
    Ok(check_rows(rt.alloc(), TABLES, 6, row::<TableSection>)?)
}

#[test]
fn globals(rt: HostRuntime) -> Result<(), Fail> {
    Ok(check_rows(rt.alloc(), GLOBALS, 8, row::<GlobalSection>)?)
}

#[test]
fn elements(rt: HostRuntime) -> Result<(), Fail> {
    Ok(check_rows(rt.alloc(), ELEMENTS, 16, row::<ElementSection>)?)
}

#[test]
fn data(rt: HostRuntime) -> Result<(), Fail> {
    Ok(check_rows(rt.alloc(), DATA, 8, row::<DataSection>)?)
}

#[test]
fn bodies(rt: HostRuntime) -> Result<(), Fail> {
    Ok(check_rows(rt.alloc(), BODIES, 5, row::<CodeSection>)?)
}
