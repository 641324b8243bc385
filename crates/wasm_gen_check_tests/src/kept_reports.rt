//! Reports on two modules in one session, which may share groups of types.

use crate::kept_types::{FUNCTIONS, MODULES, features_of_own_ids};
use crate::reports::put_report;
use std::alloc::Global;
use std::test::Fail;
use wasm_core::features::{Flags, WasmFeatures};
use wasm_gen::session::Session;
use wasm_gen_rows::modules::module_of;
use wasm_gen_rows::new_session::{on_new_session, renew};
use wasm_test_rows::fields::{is_row, two_fields};
use wasm_test_rows::rows::check_rows;

// Returns the module of a row.
fn bytes_in(alloc: Global, row: &str) -> Option<Vec<u8>> {
    let (_groups, sections) = two_fields(row)?;
    module_of(alloc, sections)
}

// Writes the report on a module after that on another one.
fn put_after(
    alloc: Global,
    session: &mut Session,
    first: &[u8],
    second: &[u8],
    written: &mut Vec<u8>,
) -> Option<bool> {
    let mut others = Vec::new(alloc);
    put_report(alloc, session, first, &mut others)?;
    put_report(alloc, session, second, written)
}

// Checks that the report on the second module is that of a new session.
fn is_as_alone(alloc: Global, session: &mut Session, first: &[u8], second: &[u8]) -> bool {
    let mut alone = Vec::new(alloc);
    let mut after = Vec::new(alloc);
    renew(alloc, session);
    let is_valid = put_report(alloc, session, second, &mut alone);
    renew(alloc, session);
    let is_valid_after = put_after(alloc, session, first, second, &mut after);
    is_valid.is_some() && is_valid == is_valid_after && alone == after
}

// Counts the rows of a table whose reports are the same after this module.
fn count_after(alloc: Global, session: &mut Session, table: &str, first: &[u8]) -> Option<usize> {
    let mut count = 0usize;
    for row in table.lines() {
        if is_row(row) {
            let second = bytes_in(alloc, row)?;
            if is_as_alone(alloc, session, first, &second) {
                count = count.saturating_add(1);
            }
        }
    }
    Some(count)
}

fn are_as_alone(alloc: Global, session: &mut Session, first: &str) -> Option<bool> {
    let first = bytes_in(alloc, first)?;
    Some(count_after(alloc, session, MODULES, &first)? == 23)
}

fn reports_are_as_alone(alloc: Global, first: &str) -> Option<bool> {
    on_new_session(alloc, WasmFeatures::default(), first, are_as_alone)
}

fn are_as_alone_with_own_ids(alloc: Global, session: &mut Session, first: &str) -> Option<bool> {
    let first = bytes_in(alloc, first)?;
    Some(count_after(alloc, session, FUNCTIONS, &first)? == 6)
}

fn reports_with_own_ids_are_as_alone(alloc: Global, first: &str) -> Option<bool> {
    on_new_session(
        alloc,
        features_of_own_ids(),
        first,
        are_as_alone_with_own_ids,
    )
}

#[test]
fn reports_are_those_of_new_sessions(rt: HostRuntime) -> Result<(), Fail> {
    check_rows(rt.alloc(), MODULES, 23, reports_are_as_alone)?;
    Ok(check_rows(rt.alloc(), FUNCTIONS, 6, reports_with_own_ids_are_as_alone)?)
}
