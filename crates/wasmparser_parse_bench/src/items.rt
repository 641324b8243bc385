//! The items of a payload.

use std::alloc::Global;
use wasmparser_entries::element::{Element, ElementItems};
use wasmparser_payloads::payload::Payload;
use wasmparser_readers::from_reader::FromReader;
use wasmparser_readers::section_limited::SectionLimited;

// Returns the number of a section's items.
fn count_in<'a, T: FromReader<'a> + Drop>(
    alloc: Global,
    section: SectionLimited<'a, T>,
) -> Option<u64> {
    let mut count: u64 = 0;
    for item in section.into_iter(alloc) {
        item.ok()?;
        count = count.wrapping_add(1);
    }
    Some(count)
}

// Returns the number of a segment's items.
fn count_in_segment(alloc: Global, segment: Element<'_>) -> Option<u64> {
    match segment.items {
        ElementItems::Functions(functions) => count_in(alloc, functions),
        ElementItems::Expressions(_, expressions) => count_in(alloc, expressions),
    }
}

// Returns the number of element segments' items.
fn count_in_segments<'a>(alloc: Global, section: SectionLimited<'a, Element<'a>>) -> Option<u64> {
    let mut count: u64 = 0;
    for segment in section.into_iter(alloc) {
        count = count.wrapping_add(count_in_segment(alloc, segment.ok()?)?);
    }
    Some(count)
}

/// Returns the number of items of a payload, or None where one is refused.
pub fn count_items(alloc: Global, payload: Payload<'_>) -> Option<u64> {
    match payload {
        Payload::TypeSection(section) => count_in(alloc, section),
        Payload::ImportSection(section) => count_in(alloc, section),
        Payload::FunctionSection(section) => count_in(alloc, section),
        Payload::TableSection(section) => count_in(alloc, section),
        Payload::MemorySection(section) => count_in(alloc, section),
        Payload::TagSection(section) => count_in(alloc, section),
        Payload::GlobalSection(section) => count_in(alloc, section),
        Payload::ExportSection(section) => count_in(alloc, section),
        Payload::ElementSection(section) => count_in_segments(alloc, section),
        Payload::DataSection(section) => count_in(alloc, section),
        _ => Some(0),
    }
}
