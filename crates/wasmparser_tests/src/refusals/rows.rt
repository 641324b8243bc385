//! The operators of bodies one after the other, and the items that are shown of modules.

use crate::{operators, spaces};
use std::alloc::Global;
use std::test::Fail;
use wasm_test_rows::rows::check_rows;

// Checks that operators are answered so, by other validators where memory ran out.
fn are_answered(alloc: Global, row: &str) -> Option<bool> {
    match operators::holds(alloc, row) {
        Some(are_answered) => Some(are_answered),
        None => operators::holds(alloc, row),
    }
}

#[test]
fn operators_are_answered(rt: HostRuntime) -> Result<(), Fail> {
    Ok(check_rows(rt.alloc(), operators::OPERATORS, 7, are_answered)?)
}

// Checks that items are shown so, at the second time where memory runs out at the first.
fn are_shown(alloc: Global, row: &str) -> Option<bool> {
    match spaces::holds(alloc, row) {
        Some(are_shown) => Some(are_shown),
        None => spaces::holds(alloc, row),
    }
}

#[test]
fn items_are_shown(rt: HostRuntime) -> Result<(), Fail> {
    Ok(check_rows(rt.alloc(), spaces::SHOWN, 30, are_shown)?)
}
