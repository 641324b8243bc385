//! Worked custom sections, which are written at the second time where memory runs out at the first.

use crate::dumps::{instances, modules, program};
use crate::hints::{one_hint, two_functions};
use crate::linking::{SECTIONS, TABLES, section_row, table_row};
use crate::names::{all_indirect_maps, all_maps, module_name};
use crate::producers::{language, two_fields};
use std::alloc::Global;
use std::test::Fail;
use wasm_test_rows::rows::check_rows;

fn symbols(alloc: Global, row: &str) -> Option<bool> {
    match table_row(alloc, row) {
        Some(true) => Some(true),
        _ => table_row(alloc, row),
    }
}

fn tables(alloc: Global, row: &str) -> Option<bool> {
    match section_row(alloc, row) {
        Some(true) => Some(true),
        _ => section_row(alloc, row),
    }
}

#[test]
fn linking_sections(rt: HostRuntime) -> Result<(), Fail> {
    check_rows(rt.alloc(), TABLES, 15, symbols)?;
    Ok(check_rows(rt.alloc(), SECTIONS, 5, tables)?)
}

#[test]
fn producers_and_names(rt: HostRuntime) {
    let alloc = rt.alloc();
    assert!(rt; language(alloc) || language(alloc));
    assert!(rt; two_fields(alloc) || two_fields(alloc));
    assert!(rt; module_name(alloc) || module_name(alloc));
    assert!(rt; all_maps(alloc) || all_maps(alloc));
    assert!(rt; all_indirect_maps(alloc) || all_indirect_maps(alloc));
}

#[test]
fn hints_and_dumps(rt: HostRuntime) {
    let alloc = rt.alloc();
    assert!(rt; one_hint(alloc) == Some(true) || one_hint(alloc) == Some(true));
    assert!(rt; two_functions(alloc) == Some(true) || two_functions(alloc) == Some(true));
    assert!(rt; program(alloc) == Some(true) || program(alloc) == Some(true));
    assert!(rt; modules(alloc) || modules(alloc));
    assert!(rt; instances(alloc) || instances(alloc));
}
