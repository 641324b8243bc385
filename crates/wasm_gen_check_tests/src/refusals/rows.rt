//! The rows of each table, with memory running out. A test runs once for each of its allocations and goes through its whole table each time, so each table has its
//! own test, and only rows of short modules are run.

use crate::refusals::sessions::answers;
use crate::rows::{answer_in, features_of};
use crate::{
    custom_sections, cuts, data_segments, elements, exports, function_limits, functions, globals,
    lines, other_limits, other_sections, tables, types, value_types,
};
use std::alloc::Global;
use std::test::Fail;
use wasm_core::features::{Flags, WasmFeatures};
use wasm_gen::session::Session;
use wasm_gen_rows::modules::module_of;
use wasm_gen_rows::new_session::on_new_session;
use wasm_test_rows::fields::{has_word, is_row, three_fields, word_and_rest};
use wasm_test_rows::values::number_of;

// The most times that a part is repeated in a short module: one more than limits of 1,000.
const MOST_TIMES: u64 = 1_001;

// Checks that a word of a row stands for few bytes.
fn is_short_word(word: &str) -> bool {
    match word.split_once('*') {
        Some((_digits, count)) => number_of(count).is_some_and(|it| it <= MOST_TIMES),
        None => true,
    }
}

/// Checks that a line of a table is a row of a short module. Explanations run with memory refused among the inputs.
pub fn is_short_row(line: &str) -> bool {
    is_row(line) && !has_word(line, "explained") && line.split_whitespace().all(is_short_word)
}

/// Joins neighbouring bytes of a field into one word, since each word takes two allocations to read.
pub fn joined(alloc: Global, field: &str) -> Option<String> {
    let mut joined = String::with_capacity(alloc, 512).ok()?;
    for word in field.split_whitespace() {
        let space = if word.len() == 2 { "" } else { " " };
        joined.push_str(space).ok()?;
        joined.push_str(word).ok()?;
        joined.push_str(space).ok()?;
    }
    Some(joined)
}

/// Returns the bytes of a row's module.
pub fn row_bytes(alloc: Global, sections: &str) -> Option<Vec<u8>> {
    let sections = joined(alloc, sections)?;
    module_of(alloc, &sections)
}

// Returns the features under which a row's module is validated: all of them where the row names those that it asks for.
fn row_features(way: &str) -> Option<WasmFeatures> {
    let (word, features) = word_and_rest(way);
    match word {
        "each" => Some(WasmFeatures::all()),
        "cuts" | "exports" | "ids" | "line" => features_of(features),
        _ => features_of(way),
    }
}

// Returns the result expected for a row's module, which is valid where the row names cuts, features, ids or exports.
fn row_answer<'a>(way: &str, expected: &'a str) -> &'a str {
    let (word, _features) = word_and_rest(way);
    match word {
        "cuts" | "each" | "exports" | "ids" => "yes",
        _ => answer_in(expected),
    }
}

// Checks that a session gives the result of a row.
fn is_answered(alloc: Global, session: &mut Session, row: &str) -> Option<bool> {
    let (way, sections, expected) = three_fields(row)?;
    let bytes = match row_bytes(alloc, sections) {
        Some(bytes) => bytes,
        // (the allocation that is refused may be one for the bytes)
        None => row_bytes(alloc, sections)?,
    };
    Some(answers(session, &bytes, row_answer(way, expected)))
}

// Checks a row with a new session.
fn holds(alloc: Global, row: &str) -> Option<bool> {
    let (way, _sections, _expected) = three_fields(row)?;
    on_new_session(alloc, row_features(way)?, row, is_answered)
}

// Checks that each short row of a table holds, and that there are as many as expected. The error is the first row that doesn't hold or can't be read, or a message
// where the number differs.
fn check_short_rows(
    alloc: Global,
    table: &'static str,
    expected: usize,
) -> Result<(), &'static str> {
    let mut count: usize = 0;
    for line in table.lines() {
        if is_short_row(line) {
            if holds(alloc, line) != Some(true) {
                return Err(line);
            }
            count = count.saturating_add(1);
        }
    }
    if count == expected {
        Ok(())
    } else {
        Err("another number of short rows")
    }
}

#[test]
fn custom_sections_are_answered(rt: HostRuntime) -> Result<(), Fail> {
    Ok(check_short_rows(rt.alloc(), custom_sections::ROWS, 45)?)
}

#[test]
fn cuts_are_answered(rt: HostRuntime) -> Result<(), Fail> {
    Ok(check_short_rows(rt.alloc(), cuts::ROWS, 51)?)
}

#[test]
fn data_segments_are_answered(rt: HostRuntime) -> Result<(), Fail> {
    Ok(check_short_rows(rt.alloc(), data_segments::ROWS, 41)?)
}

#[test]
fn elements_are_answered(rt: HostRuntime) -> Result<(), Fail> {
    Ok(check_short_rows(rt.alloc(), elements::ROWS, 42)?)
}

#[test]
fn exports_are_answered(rt: HostRuntime) -> Result<(), Fail> {
    Ok(check_short_rows(rt.alloc(), exports::ROWS, 51)?)
}

#[test]
fn function_limits_are_answered(rt: HostRuntime) -> Result<(), Fail> {
    Ok(check_short_rows(rt.alloc(), function_limits::ROWS, 14)?)
}

#[test]
fn functions_are_answered(rt: HostRuntime) -> Result<(), Fail> {
    Ok(check_short_rows(rt.alloc(), functions::ROWS, 59)?)
}

#[test]
fn globals_are_answered(rt: HostRuntime) -> Result<(), Fail> {
    Ok(check_short_rows(rt.alloc(), globals::ROWS, 57)?)
}

#[test]
fn lines_are_answered(rt: HostRuntime) -> Result<(), Fail> {
    Ok(check_short_rows(rt.alloc(), lines::ROWS, 19)?)
}

#[test]
fn other_limits_are_answered(rt: HostRuntime) -> Result<(), Fail> {
    Ok(check_short_rows(rt.alloc(), other_limits::ROWS, 5)?)
}

#[test]
fn other_sections_are_answered(rt: HostRuntime) -> Result<(), Fail> {
    Ok(check_short_rows(rt.alloc(), other_sections::ROWS, 62)?)
}

#[test]
fn tables_are_answered(rt: HostRuntime) -> Result<(), Fail> {
    Ok(check_short_rows(rt.alloc(), tables::ROWS, 34)?)
}

#[test]
fn types_are_answered(rt: HostRuntime) -> Result<(), Fail> {
    Ok(check_short_rows(rt.alloc(), types::ROWS, 41)?)
}

#[test]
fn value_types_are_answered(rt: HostRuntime) -> Result<(), Fail> {
    Ok(check_short_rows(rt.alloc(), value_types::ROWS, 38)?)
}
