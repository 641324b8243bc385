//! Sections of indexes: functions, tags, and those that are one number.

use crate::entries::holds;
use crate::written::writes;
use std::alloc::Global;
use std::test::Fail;
use wasm_encoder_sections::data_count_section::DataCountSection;
use wasm_encoder_sections::entity_type::{TagKind, TagType};
use wasm_encoder_sections::function_section::FunctionSection;
use wasm_encoder_sections::start_section::StartSection;
use wasm_encoder_sections::tag_section::TagSection;
use wasm_test_rows::fields::{three_fields, two_fields};
use wasm_test_rows::rows::check_rows;
use wasm_test_rows::values::numbers_of;

fn functions_of(alloc: Global, indexes: &[u32]) -> Option<FunctionSection> {
    let mut section = FunctionSection::new(alloc);
    for index in indexes {
        if section.function(*index).is_err() {
            return None;
        }
    }
    Some(section)
}

fn function_row(alloc: Global, row: &str) -> Option<bool> {
    let (indexes, lengths, bytes) = three_fields(row)?;
    let indexes = numbers_of(alloc, indexes)?;
    let section = functions_of(alloc, &indexes)?;
    holds(alloc, &section, lengths, bytes)
}

// Type indexes, how long each is, and the section.
const FUNCTIONS: &str = "
    | | 03 01 00
    0 | 1 | 03 02 01 00
    0 127 128 | 1 1 2 | 03 05 03 00 7f 80 01
    4294967295 | 5 | 03 06 01 ff ff ff ff 0f
    0*200 | 1*200 | 03 ca 01 c8 01 00*200
";

#[test]
fn function_sections(rt: HostRuntime) -> Result<(), Fail> {
    check_rows(rt.alloc(), FUNCTIONS, 5, function_row)?;
    Ok(())
}

fn tags_of(alloc: Global, indexes: &[u32]) -> Option<TagSection> {
    let mut section = TagSection::new(alloc);
    for index in indexes {
        let ty = TagType {
            kind: TagKind::Exception,
            func_type_idx: *index,
        };
        if section.tag(ty).is_err() {
            return None;
        }
    }
    Some(section)
}

fn tag_row(alloc: Global, row: &str) -> Option<bool> {
    let (indexes, lengths, bytes) = three_fields(row)?;
    let indexes = numbers_of(alloc, indexes)?;
    let section = tags_of(alloc, &indexes)?;
    holds(alloc, &section, lengths, bytes)
}

const TAGS: &str = "
    | | 0d 01 00
    1 | 2 | 0d 03 01 00 01
    0 300 | 2 3 | 0d 06 02 00 00 00 ac 02
";

#[test]
fn tag_sections(rt: HostRuntime) -> Result<(), Fail> {
    check_rows(rt.alloc(), TAGS, 3, tag_row)?;
    Ok(())
}

fn start_row(alloc: Global, row: &str) -> Option<bool> {
    let (index, bytes) = two_fields(row)?;
    let function_index = index.parse().ok()?;
    Some(writes(alloc, &StartSection { function_index }, bytes))
}

const STARTS: &str = "
    0 | 08 01 00
    128 | 08 02 80 01
    4294967295 | 08 05 ff ff ff ff 0f
";

#[test]
fn start_sections(rt: HostRuntime) -> Result<(), Fail> {
    check_rows(rt.alloc(), STARTS, 3, start_row)?;
    Ok(())
}

fn data_count_row(alloc: Global, row: &str) -> Option<bool> {
    let (count, bytes) = two_fields(row)?;
    let count = count.parse().ok()?;
    Some(writes(alloc, &DataCountSection { count }, bytes))
}

const DATA_COUNTS: &str = "
    1 | 0c 01 01
    16384 | 0c 03 80 80 01
";

#[test]
fn data_count_sections(rt: HostRuntime) -> Result<(), Fail> {
    check_rows(rt.alloc(), DATA_COUNTS, 2, data_count_row)?;
    Ok(())
}
