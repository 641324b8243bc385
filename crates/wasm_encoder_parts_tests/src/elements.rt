//! Element sections.

use crate::entries::{Rows, row};
use crate::expressions::{expression_of, reference_of};
use std::alloc::Global;
use std::test::Fail;
use wasm_core_types::types::RefType;
use wasm_encoder_bodies::const_expr::ConstExpr;
use wasm_encoder_expression_sections::element_section::ElementSection;
use wasm_encoder_expression_sections::element_segment::{ElementMode, ElementSegment, Elements};
use wasm_test_rows::fields::word_and_rest;
use wasm_test_rows::rows::check_rows;
use wasm_test_rows::values::{bytes_of, numbers_of};

fn add_active(
    alloc: Global,
    section: &mut ElementSection,
    mode: &str,
    elements: Elements<'_>,
) -> Option<()> {
    let (table, offset) = word_and_rest(mode);
    let table_index = table.parse().ok();
    let offset = expression_of(alloc, offset)?;
    if section.active(table_index, &offset, elements).is_err() {
        return None;
    }
    Some(())
}

fn add_segment(section: &mut ElementSection, elements: Elements<'_>) -> Option<()> {
    let mode = ElementMode::Passive;
    if section.segment(ElementSegment { mode, elements }).is_err() {
        return None;
    }
    Some(())
}

// `active`, a table or `-` and an offset, or another mode; `segment` is a passive one by the call that takes any.
fn add_elements(
    alloc: Global,
    section: &mut ElementSection,
    mode: &str,
    elements: Elements<'_>,
) -> Option<()> {
    let is_refused = match word_and_rest(mode) {
        ("active", place) => return add_active(alloc, section, place, elements),
        ("segment", _) => return add_segment(section, elements),
        ("passive", _) => section.passive(elements).is_err(),
        ("declared", _) => section.declared(elements).is_err(),
        _ => true,
    };
    if is_refused { None } else { Some(()) }
}

fn put_expressions(alloc: Global, expressions: &mut Vec<ConstExpr>, words: &str) -> Option<()> {
    for word in words.split_terminator(',') {
        expressions.push(expression_of(alloc, word)?).ok()?;
    }
    Some(())
}

fn expressions_of(alloc: Global, words: &str) -> Option<Vec<ConstExpr>> {
    let mut expressions = Vec::new(alloc);
    put_expressions(alloc, &mut expressions, words)?;
    Some(expressions)
}

fn add_raw(alloc: Global, section: &mut ElementSection, bytes: &str) -> Option<()> {
    let bytes = bytes_of(alloc, bytes)?;
    if section.raw(&bytes).is_err() {
        return None;
    }
    Some(())
}

fn add_functions(
    alloc: Global,
    section: &mut ElementSection,
    mode: &str,
    indexes: &str,
) -> Option<()> {
    let indexes = numbers_of(alloc, indexes)?;
    add_elements(alloc, section, mode, Elements::Functions(&indexes))
}

fn add_expressions(
    alloc: Global,
    section: &mut ElementSection,
    mode: &str,
    ty: RefType,
    words: &str,
) -> Option<()> {
    let expressions = expressions_of(alloc, words)?;
    let elements = Elements::Expressions(ty, &expressions);
    add_elements(alloc, section, mode, elements)
}

impl Rows for ElementSection {
    fn empty(alloc: Global) -> ElementSection {
        ElementSection::new(alloc)
    }

    // A mode, and after `:` the word `indexes` and indexes, or a type and expressions between commas; or `raw`, and after `:` bytes.
    fn add(&mut self, alloc: Global, entry: &str) -> Option<()> {
        let (mode, elements) = entry.split_once(':')?;
        if mode.trim() == "raw" {
            return add_raw(alloc, self, elements);
        }
        let (name, items) = word_and_rest(elements);
        if name == "indexes" {
            return add_functions(alloc, self, mode, items);
        }
        add_expressions(alloc, self, mode, reference_of(name)?, items)
    }
}

/// Segments, how long each is, and the section.
pub const ELEMENTS: &str = "
    | | 09 01 00
    active - 41 00 : indexes 0 128 | 8 | 09 09 01 00 41 00 0b 02 00 80 01
    active - 41 00 : indexes 64 | 6 | 09 07 01 00 41 00 0b 01 40
    active 64 41 00 : indexes 0 | 8 | 09 09 01 02 40 41 00 0b 00 01 00
    passive : indexes 0 | 4 | 09 05 01 01 00 01 00
    active 0 41 00 : indexes | 7 | 09 08 01 02 00 41 00 0b 00 00
    active 128 41 00 : indexes 1 | 9 | 09 0a 01 02 80 01 41 00 0b 00 01 01
    declared : indexes 0 | 4 | 09 05 01 03 00 01 00
    active - 41 00 : funcref d2 00 | 8 | 09 09 01 04 41 00 0b 01 d2 00 0b
    passive : funcref d2 00 | 6 | 09 07 01 05 70 01 d2 00 0b
    segment : funcref d2 00 | 6 | 09 07 01 05 70 01 d2 00 0b
    active 1 23 00 : concrete d0 00 , d2 01 | 15 | 09 10 01 06 01 23 00 0b 63 c0 00 02 d0 00 0b d2 01 0b
    declared : func d2 00 | 7 | 09 08 01 07 64 70 01 d2 00 0b
    active - 41 00 : externref d0 6f | 10 | 09 0b 01 06 00 41 00 0b 6f 01 d0 6f 0b
    active - 41 00 : func d2 00 | 11 | 09 0c 01 06 00 41 00 0b 64 70 01 d2 00 0b
    raw : 01 00 00 ; passive : indexes 5 | 3 4 | 09 08 02 01 00 00 01 00 01 05
";

#[test]
fn element_sections(rt: HostRuntime) -> Result<(), Fail> {
    check_rows(rt.alloc(), ELEMENTS, 16, row::<ElementSection>)?;
    Ok(())
}
