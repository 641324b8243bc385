//! Table sections.

use crate::entries::{Rows, row};
use crate::expressions::{expression_of, reference_of};
use std::alloc::Global;
use std::test::Fail;
use wasm_encoder_expression_sections::table_section::TableSection;
use wasm_encoder_sections::entity_type::TableType;
use wasm_test_rows::fields::word_and_rest;
use wasm_test_rows::rows::check_rows;
use wasm_test_rows::values::{bool_of, number_of};

// Returns the type of the elements, the least number of them, the greatest or `-`, and whether there are indexes of 64 bits.
fn table_type_of(words: &str) -> Option<TableType> {
    let (name, numbers) = word_and_rest(words);
    let mut words = numbers.split_whitespace();
    let minimum = number_of(words.next()?)?;
    let maximum = number_of(words.next()?);
    let table64 = bool_of(words.next()?)?;
    Some(TableType {
        element_type: reference_of(name)?,
        table64,
        minimum,
        maximum,
    })
}

fn add_initialised(alloc: Global, section: &mut TableSection, ty: &str, init: &str) -> Option<()> {
    let ty = table_type_of(ty)?;
    let init = expression_of(alloc, init)?;
    if section.table_with_init(ty, &init).is_err() {
        return None;
    }
    Some(())
}

impl Rows for TableSection {
    fn empty(alloc: Global) -> TableSection {
        TableSection::new(alloc)
    }

    // A type, and after `=` an expression if there is one.
    fn add(&mut self, alloc: Global, entry: &str) -> Option<()> {
        if let Some((ty, init)) = entry.split_once('=') {
            return add_initialised(alloc, self, ty, init);
        }
        let ty = table_type_of(entry)?;
        if self.table(ty).is_err() {
            return None;
        }
        Some(())
    }
}

/// Tables, how long each is, and the section.
pub const TABLES: &str = "
    | | 04 01 00
    funcref 10 - no | 3 | 04 04 01 70 00 0a
    funcref 0 128 no ; extern 1 - yes | 5 4 | 04 0a 02 70 01 00 80 01 64 6f 04 01
    funcref 64 65 no | 4 | 04 05 01 70 01 40 41
    concrete 1 1 yes | 6 | 04 07 01 63 c0 00 05 01 01
    func 1 - no = d2 00 ; funcref 0 - no | 9 3 | 04 0d 02 40 00 64 70 00 01 d2 00 0b 70 00 00
";

#[test]
fn table_sections(rt: HostRuntime) -> Result<(), Fail> {
    check_rows(rt.alloc(), TABLES, 6, row::<TableSection>)?;
    Ok(())
}
