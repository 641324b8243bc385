//! The ids of the types of many modules in one session while memory runs out.

use crate::kept_types::{FUNCTIONS, MODULES, Met, features_of_own_ids, is_met};
use std::alloc::Global;
use wasm_core::features::WasmFeatures;
use wasm_gen::session::Session;
use wasm_gen_rows::new_session::on_new_session;
use wasm_test_rows::fields::is_row;

// Checks that a session answers on all modules of a table as it is to. None where memory runs out.
fn are_met(alloc: Global, session: &mut Session, met: &mut Met, table: &str) -> Option<bool> {
    for row in table.lines() {
        if is_row(row) && !is_met(alloc, session, met, row)? {
            return Some(false);
        }
    }
    Some(true)
}

// Checks that it does so twice.
fn are_met_twice(alloc: Global, session: &mut Session, table: &str) -> Option<bool> {
    let mut met = Met::new(session.features().needs_type_canonicalization());
    let are_met_once = are_met(alloc, session, &mut met, table)?;
    Some(are_met_once && are_met(alloc, session, &mut met, table)?)
}

// Checks that a session does so, or another one where memory ran out.
fn holds(alloc: Global, features: WasmFeatures, table: &str) -> bool {
    let first = on_new_session(alloc, features, table, are_met_twice);
    let answer = match first {
        None => on_new_session(alloc, features, table, are_met_twice),
        answer => answer,
    };
    answer == Some(true)
}

#[test]
fn types_have_their_ids(rt: HostRuntime) {
    assert!(rt; holds(rt.alloc(), WasmFeatures::default(), MODULES));
    assert!(rt; holds(rt.alloc(), features_of_own_ids(), FUNCTIONS));
}
