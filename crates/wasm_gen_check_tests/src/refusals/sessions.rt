//! Sessions that run out of memory.

use crate::refusals::rows::joined;
use crate::sessions::{ROWS, ready};
use std::alloc::Global;
use std::test::Fail;
use wasm_core::features::{Flags, WasmFeatures};
use wasm_gen::judge::{ErrorKind, ValidatorId};
use wasm_gen::session::Session;
use wasm_gen_rows::answers::refusal_of;
use wasm_gen_rows::modules::parts_of;
use wasm_gen_rows::new_session::on_new_session;
use wasm_test_rows::fields::{four_fields, has_word, is_row, two_fields};
use wasm_test_rows::limits::limit_of;
use wasm_test_rows::rows::check_rows;
use wasm_test_rows::values::{bool_of, bytes_of};

// Modules, and what a session answers: `yes`, or the name of a refusal.
const MODULES: &str = "
    yes | 0061736d01000000
    yes | 0061736d01000000 01 11 02 4e 02 60 00 00 60 00 00 4e 02 60 00 00 60 00 00
    yes | 0061736d01000000 01 04 01 60 00 00 02 15 03 01 6d 01 61 00 00 01 6e 01 62 02 00 01 01 6d 01 61 03 7f 00
    yes | 0061736d01000000 01 04 01 60 00 00 02 0f 01 01 6d 00 7f 02 01 61 00 00 01 62 02 00 01
    yes | 0061736d01000000 02 14 02 01 6d 00 7e 03 7f 00 02 01 61 01 62 01 6d 01 61 02 00 01
    yes | 0061736d01000000 01 04 01 60 00 00 03 02 01 00 09 0b 02 01 00 01 00 05 70 01 d0 70 0b 0a 05 01 03 00 00 0b
    yes | 0061736d01000000 01 0b 02 60 02 7f 7e 01 7d 60 01 7f 00 02 07 01 01 6d 01 66 00 01 03 02 01 00 04 05 01 70 01 02 05 05 04 01 01 01 03 0d 03 01 00 01 06 06 01 7e 01 42 00 0b 07 19 06 01 61 00 00 01 62 00 01 01 74 01 00 01 6d 02 00 01 67 03 00 01 65 04 00 0a 05 01 03 00 00 0b
    yes | 0061736d01000000 01 04 01 60 00 00 03 02 01 00 0a 64 01 62 01 01646c 4100*20 0240*9 4100fb1c 2100 0b*9 1a*20 0b
    malformed | 0061736d01000000 01 05 01 60 00 00
    invalid | 0061736d01000000 01 04 01 60 00 00 02 0d 02 01 6d 01 61 00 00 01 6d 01 61 00 01
    invalid | 0061736d01000000 05 03 01 00 01 07 09 02 01 61 02 00 01 61 02 00
    body | 0061736d01000000 01 04 01 60 00 00 03 02 01 00 0a 03 01 01 00
";

// Returns the kind of refusal that a word names, as `Debug` or a line writes it.
fn kind_of(word: &str) -> Option<ErrorKind> {
    match word {
        "Malformed" | "malformed" => Some(ErrorKind::Malformed),
        "Invalid" | "invalid" => Some(ErrorKind::Invalid),
        "Body" | "body" => Some(ErrorKind::Body),
        "Operator" => Some(ErrorKind::Operator),
        "Failed" => Some(ErrorKind::Failed),
        _ => {
            let limit = word.strip_prefix("Limit(")?.strip_suffix(')')?;
            Some(ErrorKind::Limit(limit_of(limit)?))
        }
    }
}

// Returns the kind of a session's refusal, or `None` where the module is valid.
fn answer(session: &mut Session, bytes: &[u8]) -> Option<ErrorKind> {
    match refusal_of(session, bytes) {
        None => None,
        Some(error) => Some(error.kind),
    }
}

// Checks that a result is one of a field's: `yes`, or kinds of refusals.
fn is_among(field: &str, answer: Option<ErrorKind>) -> bool {
    match answer {
        None => has_word(field, "yes"),
        Some(kind) => field
            .split_whitespace()
            .any(|word| kind_of(word) == Some(kind)),
    }
}

/// Checks that a session answers so, after a restart where memory ran out and the session failed, and at the second time where it didn't fail.
pub fn answers(session: &mut Session, bytes: &[u8], expected: &str) -> bool {
    let first = answer(session, bytes);
    if first != Some(ErrorKind::Memory) {
        return is_among(expected, first);
    }
    if session.has_failed() {
        if answer(session, bytes) != Some(ErrorKind::Failed) {
            return false;
        }
        session.restart(ValidatorId::new(1));
    }
    is_among(expected, answer(session, bytes))
}

fn is_answered(alloc: Global, session: &mut Session, row: &str) -> Option<bool> {
    let (expected, field) = two_fields(row)?;
    let bytes = match bytes_of(alloc, field) {
        Some(bytes) => bytes,
        // (the allocation that is refused may be one for the bytes)
        None => bytes_of(alloc, field)?,
    };
    Some(answers(session, &bytes, expected))
}

fn holds(alloc: Global, row: &str) -> Option<bool> {
    on_new_session(alloc, WasmFeatures::all(), row, is_answered)
}

#[test]
fn sessions_go_on_after_memory_ran_out(rt: HostRuntime) -> Result<(), Fail> {
    Ok(check_rows(rt.alloc(), MODULES, 12, holds)?)
}

// Returns the bytes of a row's input.
fn input_bytes(alloc: Global, input: &str) -> Option<Vec<u8>> {
    let input = joined(alloc, input)?;
    parts_of(alloc, &input)
}

// Checks a row, before which the session is readied.
fn goes_on(alloc: Global, session: &mut Session, row: &str) -> Option<bool> {
    let (state, input, expected, has_failed) = four_fields(row)?;
    let has_failed = bool_of(has_failed)?;
    ready(alloc, session, state)?;
    let bytes = match input_bytes(alloc, input) {
        Some(bytes) => bytes,
        None => input_bytes(alloc, input)?,
    };
    let is_answer = answers(session, &bytes, expected);
    Some(is_answer && session.has_failed() == has_failed)
}

// Checks all rows of a table, one after the other.
fn goes_through(alloc: Global, session: &mut Session, table: &str) -> Option<bool> {
    for row in table.lines() {
        if is_row(row) && !goes_on(alloc, session, row)? {
            return Some(false);
        }
    }
    Some(true)
}

#[test]
fn sessions_go_on_from_module_to_module(rt: HostRuntime) {
    let holds = on_new_session(rt.alloc(), WasmFeatures::default(), ROWS, goes_through);
    assert!(rt; holds == Some(true));
}
