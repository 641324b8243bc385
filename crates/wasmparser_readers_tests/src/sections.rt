//! Sections of indexes and of reference types, item by item.

use std::alloc::Global;
use std::test::Fail;
use wasm_core_read::binary_reader::BinaryReader;
use wasm_test_rows::fields::two_fields;
use wasm_test_rows::rows::check_rows;
use wasm_test_rows::values::{bytes_of, number_of};
use wasmparser_error::error::Error;
use wasmparser_readers::section_limited::SectionLimited;
use wasmparser_types::ref_type::RefType;

// The offset of the content in the input.
const START: u64 = 10;

// A content, and its items with their places. After a refusal nothing follows.
const SECTIONS: &str = "
    00 |
    01 05 | 5@11
    02 05 80 01 | 5@11 128@12
    03 00 80 00 ff ff ff ff 0f | 0@11 0@12 4294967295@14
    82 80 80 80 00 07 08 | 7@15 8@16
    00 05 | malformed@11
    01 05 06 | 5@11 malformed@12
    02 05 | 5@11 malformed@12
    02 80 80 | malformed@11
    02 ff ff ff ff 1f 00 | malformed@11
    ff ff ff ff 0f | malformed@15
    ff ff ff ff 0f 01 02 | 1@15 2@16 malformed@17
    80 | none
    | none
";

const COUNT_OF_SECTIONS: usize = 14;

// Checks that an item, or the refusal, is the one in words.
fn is_item(item: Result<(u64, u32), Error>, words: &str) -> Option<bool> {
    let (what, place) = words.split_once('@')?;
    let place = number_of(place)?;
    match item {
        Ok((offset, index)) => Some(offset == place && Some(u64::from(index)) == number_of(what)),
        Err(error) => Some(error.offset == place && error.kind.name() == what),
    }
}

fn section_of(bytes: &[u8]) -> Option<SectionLimited<'_, u32>> {
    SectionLimited::new(BinaryReader::new(bytes, START)).ok()
}

fn has_items(alloc: Global, bytes: &[u8], words: &str) -> Option<bool> {
    let mut expected = words.split_whitespace();
    for item in section_of(bytes)?.into_iter_with_offsets(alloc) {
        if !is_item(item, expected.next()?)? {
            return Some(false);
        }
    }
    Some(expected.next().is_none())
}

// Checks that an item without its place is the one in words.
fn is_index(item: Result<u32, Error>, words: &str) -> Option<bool> {
    let (what, _) = words.split_once('@')?;
    match item {
        Ok(index) => Some(Some(u64::from(index)) == number_of(what)),
        Err(error) => Some(error.kind.name() == what),
    }
}

fn has_indexes(alloc: Global, bytes: &[u8], words: &str) -> Option<bool> {
    let mut expected = words.split_whitespace();
    for item in section_of(bytes)?.into_iter(alloc) {
        if !is_index(item, expected.next()?)? {
            return Some(false);
        }
    }
    Some(expected.next().is_none())
}

fn holds(alloc: Global, row: &str) -> Option<bool> {
    let (field, words) = two_fields(row)?;
    let bytes = bytes_of(alloc, field)?;
    let Some(section) = section_of(&bytes) else {
        return Some(words == "none");
    };
    let range = section.range();
    if range.start != START || range.end != START + bytes.len() as u64 {
        return Some(false);
    }
    Some(has_items(alloc, &bytes, words)? && has_indexes(alloc, &bytes, words)?)
}

// A content of reference types, and how its items end: each `ok`, or the refusal with its place.
const REFERENCES: &str = "
    00 |
    02 70 6f | ok ok
    01 63 05 | ok
    01 70 70 | ok malformed@12
    02 70 63 80 80 c0 00 | ok invalid@12
    00 63 80 80 c0 00 | malformed@11
    03 70 7f 70 | ok malformed@13
";

const COUNT_OF_REFERENCES: usize = 7;

fn is_end(item: Result<RefType, Error>, words: &str) -> Option<bool> {
    match item {
        Ok(_) => Some(words == "ok"),
        Err(error) => {
            let (kind, place) = words.split_once('@')?;
            Some(error.kind.name() == kind && error.offset == number_of(place)?)
        }
    }
}

fn has_references(alloc: Global, bytes: &[u8], words: &str) -> Option<bool> {
    let mut expected = words.split_whitespace();
    let section = SectionLimited::<'_, RefType>::new(BinaryReader::new(bytes, START)).ok()?;
    for item in section.into_iter(alloc) {
        if !is_end(item, expected.next()?)? {
            return Some(false);
        }
    }
    Some(expected.next().is_none())
}

fn references_hold(alloc: Global, row: &str) -> Option<bool> {
    let (field, words) = two_fields(row)?;
    has_references(alloc, &bytes_of(alloc, field)?, words)
}

#[test]
fn references_read(rt: HostRuntime) -> Result<(), Fail> {
    check_rows(rt.alloc(), REFERENCES, COUNT_OF_REFERENCES, references_hold)?;
    Ok(())
}

fn count_of(bytes: &[u8]) -> Option<u32> {
    Some(section_of(bytes)?.count())
}

#[test]
fn counts_are_stated(rt: HostRuntime) {
    assert!(rt;
        count_of(&[0x83, 0, 1]) == Some(3),
        "of which two are missing"
    );
    assert!(rt; count_of(&[0x80]) == None, "none");
}

#[test]
fn items_read(rt: HostRuntime) -> Result<(), Fail> {
    check_rows(rt.alloc(), SECTIONS, COUNT_OF_SECTIONS, holds)?;
    Ok(())
}
