//! Data sections.

use crate::entries::{Rows, row};
use crate::expressions::expression_of;
use std::alloc::Global;
use std::test::Fail;
use wasm_encoder_bodies::const_expr::ConstExpr;
use wasm_encoder_expression_sections::data_section::DataSection;
use wasm_encoder_expression_sections::data_segment::{DataSegment, DataSegmentMode};
use wasm_test_rows::fields::word_and_rest;
use wasm_test_rows::rows::check_rows;
use wasm_test_rows::values::bytes_of;

fn is_placed(section: &mut DataSection, memory: u32, offset: &ConstExpr, bytes: &[u8]) -> bool {
    section.active(memory, offset, bytes).is_ok()
}

fn is_active(alloc: Global, section: &mut DataSection, place: &str, bytes: &[u8]) -> bool {
    let (memory, offset) = word_and_rest(place);
    match (memory.parse(), expression_of(alloc, offset)) {
        (Ok(memory), Some(offset)) => is_placed(section, memory, &offset, bytes),
        _ => false,
    }
}

fn is_segment(section: &mut DataSection, data: &[u8]) -> bool {
    let mode = DataSegmentMode::Passive;
    section.segment(DataSegment { mode, data }).is_ok()
}

// `active`, a memory and an offset, or another call; `segment` is a passive one by the call that takes any.
fn is_added(alloc: Global, section: &mut DataSection, mode: &str, bytes: &[u8]) -> bool {
    let (name, place) = word_and_rest(mode);
    match name {
        "active" => is_active(alloc, section, place, bytes),
        "segment" => is_segment(section, bytes),
        "passive" => section.passive(bytes).is_ok(),
        "raw" => section.raw(bytes).is_ok(),
        _ => false,
    }
}

impl Rows for DataSection {
    fn empty(alloc: Global) -> DataSection {
        DataSection::new(alloc)
    }

    // A mode, and after `:` bytes.
    fn add(&mut self, alloc: Global, entry: &str) -> Option<()> {
        let (mode, bytes) = entry.split_once(':')?;
        let bytes = bytes_of(alloc, bytes)?;
        if is_added(alloc, self, mode, &bytes) {
            Some(())
        } else {
            None
        }
    }
}

/// Segments, how long each is, and the section.
pub const DATA: &str = "
    | | 0b 01 00
    active 0 41 00 : 68 69 | 7 | 0b 08 01 00 41 00 0b 02 68 69
    passive : 00 | 3 | 0b 04 01 01 01 00
    segment : 00 | 3 | 0b 04 01 01 01 00
    active 1 41 00 : | 6 | 0b 07 01 02 01 41 00 0b 00
    active 128 42 7f : ff | 8 | 0b 09 01 02 80 01 42 7f 0b 01 ff
    active 64 41 00 : 00*64 | 70 | 0b 47 01 02 40 41 00 0b 40 00*64
    raw : 01 00 ; passive : 00*200 | 2 203 | 0b ce 01 02 01 00 01 c8 01 00*200
";

#[test]
fn data_sections(rt: HostRuntime) -> Result<(), Fail> {
    check_rows(rt.alloc(), DATA, 8, row::<DataSection>)?;
    Ok(())
}
