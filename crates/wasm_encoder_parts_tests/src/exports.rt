//! Export sections.

use crate::entries::{Rows, row};
use std::alloc::Global;
use std::test::Fail;
use wasm_encoder_sections::entity_type::ExportKind;
use wasm_encoder_sections::export_section::ExportSection;
use wasm_test_rows::fields::word_and_rest;
use wasm_test_rows::rows::check_rows;

fn kind_of(word: &str) -> Option<ExportKind> {
    match word {
        "func" => Some(ExportKind::Func),
        "table" => Some(ExportKind::Table),
        "memory" => Some(ExportKind::Memory),
        "global" => Some(ExportKind::Global),
        "tag" => Some(ExportKind::Tag),
        _ => None,
    }
}

impl Rows for ExportSection {
    fn empty(alloc: Global) -> ExportSection {
        ExportSection::new(alloc)
    }

    // The kind, the index, and the name, which may be empty.
    fn add(&mut self, _alloc: Global, entry: &str) -> Option<()> {
        let (kind, rest) = word_and_rest(entry);
        let (index, name) = word_and_rest(rest);
        let kind = kind_of(kind)?;
        let index = index.parse().ok()?;
        if self.export(name, kind, index).is_err() {
            return None;
        }
        Some(())
    }
}

/// Exports, how long each is, and the section.
pub const EXPORTS: &str = "
    func 0 f | 4 | 07 05 01 01 66 00 00
    memory 0 a ; memory 0 a | 4 4 | 07 09 02 01 61 02 00 01 61 02 00
    table 1 ; global 128 äb ; tag 3 t | 3 7 4 | 07 0f 03 00 01 01 03 c3 a4 62 03 80 01 01 74 04 03
";

#[test]
fn export_sections(rt: HostRuntime) -> Result<(), Fail> {
    check_rows(rt.alloc(), EXPORTS, 3, row::<ExportSection>)?;
    Ok(())
}
