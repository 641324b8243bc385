//! The tools that made a module.

use crate::written::writes;
use std::alloc::Global;
use wasm_encoder_custom::producers::{ProducersField, ProducersSection};

const LANGUAGE: &str =
    "00 1a 09 70 72 6f 64 75 63 65 72 73 01 08 6c 61 6e 67 75 61 67 65 01 01 43 02 31 31";

fn add_language(field: &mut ProducersField, section: &mut ProducersSection) -> bool {
    field.push("C", "11").is_ok() && section.push("language", field).is_ok()
}

/// Checks that the section of a language is written.
pub fn language(alloc: Global) -> bool {
    let mut field = ProducersField::new(alloc);
    let mut section = ProducersSection::new(alloc);
    let is_taken = add_language(&mut field, &mut section);
    is_taken && writes(alloc, &section, LANGUAGE)
}

#[test]
fn a_language(rt: HostRuntime) {
    assert!(rt; language(rt.alloc()));
}

fn add_tools(field: &mut ProducersField) -> bool {
    match field.value("a", "1") {
        Ok(field) => field.value("b", "").is_ok(),
        Err(_) => false,
    }
}

fn add_fields(section: &mut ProducersSection, field: &ProducersField) -> bool {
    match section.field("x", field) {
        Ok(section) => section.field("y", field).is_ok(),
        Err(_) => false,
    }
}

const TWO_FIELDS: &str = "
    00 1f 09 70 72 6f 64 75 63 65 72 73 02
    01 78 02 01 61 01 31 01 62 00
    01 79 02 01 61 01 31 01 62 00
";

/// Checks that a section of two fields is written.
pub fn two_fields(alloc: Global) -> bool {
    let mut field = ProducersField::new(alloc);
    let mut section = ProducersSection::new(alloc);
    let is_taken = add_tools(&mut field) && add_fields(&mut section, &field);
    is_taken && writes(alloc, &section, TWO_FIELDS)
}

#[test]
fn fields_go_on(rt: HostRuntime) {
    assert!(rt; two_fields(rt.alloc()));
}
