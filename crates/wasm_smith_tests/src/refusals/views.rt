//! Views of modules, by their text.

use crate::shaped::shaped_config;
use crate::views::{SHOWN, is_shown};
use std::alloc::Global;
use std::test::Fail;
use wasm_test_rows::fields::four_fields;
use wasm_test_rows::rows::check_rows;
use wasm_test_rows::values::bytes_of;

// Checks a row. None where memory runs out.
fn holds_once(alloc: Global, row: &str) -> Option<bool> {
    let (settings, shapes, bytes, expected) = four_fields(row)?;
    let config = shaped_config(alloc, settings, shapes)?;
    is_shown(alloc, &config, &bytes_of(alloc, bytes)?, expected)
}

// Checks a row, a second time where memory runs out at the first.
fn holds(alloc: Global, row: &str) -> Option<bool> {
    match holds_once(alloc, row) {
        None => holds_once(alloc, row),
        answer => answer,
    }
}

#[test]
fn modules_are_shown_so(rt: HostRuntime) -> Result<(), Fail> {
    Ok(check_rows(rt.alloc(), SHOWN, 6, holds)?)
}
