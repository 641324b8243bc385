//! Sections as lists of entries, each of a length.

use crate::written::writes;
use std::alloc::Global;
use wasm_core_write::encode::Section;
use wasm_encoder_expression_sections::code_section::CodeSection;
use wasm_encoder_expression_sections::data_section::DataSection;
use wasm_encoder_expression_sections::element_section::ElementSection;
use wasm_encoder_expression_sections::global_section::GlobalSection;
use wasm_encoder_expression_sections::table_section::TableSection;
use wasm_encoder_sections::export_section::ExportSection;
use wasm_encoder_sections::function_section::FunctionSection;
use wasm_encoder_sections::import_section::ImportSection;
use wasm_encoder_sections::memory_section::MemorySection;
use wasm_encoder_sections::tag_section::TagSection;
use wasm_test_rows::fields::three_fields;
use wasm_test_rows::values::numbers_of;

/// A section that has entries.
pub trait Entries: Section {
    /// Returns how many there are, whether there are none, and how many bytes one is written as, if there is such an entry. (One call tells all three, since
    /// each impl is proved.)
    fn entry(&self, i: u32) -> (u32, bool, Option<u64>);
}

impl Entries for ExportSection {
    fn entry(&self, i: u32) -> (u32, bool, Option<u64>) {
        (self.len(), self.is_empty(), self.item_len(i))
    }
}

impl Entries for FunctionSection {
    fn entry(&self, i: u32) -> (u32, bool, Option<u64>) {
        (self.len(), self.is_empty(), self.item_len(i))
    }
}

impl Entries for ImportSection {
    fn entry(&self, i: u32) -> (u32, bool, Option<u64>) {
        (self.len(), self.is_empty(), self.item_len(i))
    }
}

impl Entries for MemorySection {
    fn entry(&self, i: u32) -> (u32, bool, Option<u64>) {
        (self.len(), self.is_empty(), self.item_len(i))
    }
}

impl Entries for TagSection {
    fn entry(&self, i: u32) -> (u32, bool, Option<u64>) {
        (self.len(), self.is_empty(), self.item_len(i))
    }
}

impl Entries for CodeSection {
    fn entry(&self, i: u32) -> (u32, bool, Option<u64>) {
        (self.len(), self.is_empty(), self.item_len(i))
    }
}

impl Entries for DataSection {
    fn entry(&self, i: u32) -> (u32, bool, Option<u64>) {
        (self.len(), self.is_empty(), self.item_len(i))
    }
}

impl Entries for ElementSection {
    fn entry(&self, i: u32) -> (u32, bool, Option<u64>) {
        (self.len(), self.is_empty(), self.item_len(i))
    }
}

impl Entries for GlobalSection {
    fn entry(&self, i: u32) -> (u32, bool, Option<u64>) {
        (self.len(), self.is_empty(), self.item_len(i))
    }
}

impl Entries for TableSection {
    fn entry(&self, i: u32) -> (u32, bool, Option<u64>) {
        (self.len(), self.is_empty(), self.item_len(i))
    }
}

/// A section whose entries are told in words.
pub trait Rows: Entries {
    /// Creates one without entries.
    fn empty(alloc: Global) -> Self;

    /// Adds the entry that is told, if it can.
    fn add(&mut self, alloc: Global, entry: &str) -> Option<()>;
}

// Checks that a section has entries of these lengths, and no others.
fn has_lengths<S: Entries>(section: &S, lengths: &[u32]) -> bool {
    let mut count = 0u32;
    for length in lengths {
        if section.entry(count).2 != Some(u64::from(*length)) {
            return false;
        }
        count = count.saturating_add(1);
    }
    let (entries, is_empty, past) = section.entry(count);
    let is_counted = entries == count && is_empty == (count == 0);
    is_counted && past.is_none() && section.entry(u32::MAX).2.is_none()
}

/// Checks that a section is the bytes of a field, and its entries have the lengths of another.
pub fn holds<S: Entries>(alloc: Global, section: &S, lengths: &str, bytes: &str) -> Option<bool> {
    let lengths = numbers_of(alloc, lengths)?;
    Some(has_lengths(section, &lengths) && writes(alloc, section, bytes))
}

// Returns a section of these entries, with `;` between them.
fn section_of<S: Rows + Drop>(alloc: Global, entries: &str) -> Option<S> {
    let mut section = S::empty(alloc);
    for entry in entries.split_terminator(';') {
        section.add(alloc, entry)?;
    }
    Some(section)
}

/// Checks that a row holds: entries, how long each is, and the section. (Once for all kinds, since who owns a section proves how it is let go of.)
pub fn row<S: Rows + Drop>(alloc: Global, row: &str) -> Option<bool> {
    let (entries, lengths, bytes) = three_fields(row)?;
    let section = section_of::<S>(alloc, entries)?;
    holds(alloc, &section, lengths, bytes)
}
