//! Lines and reports on modules while memory runs out.

use crate::refusals::inputs::room;
use crate::refusals::rows::{is_short_row, row_bytes};
use crate::reports::is_text_of;
use crate::rows::features_of;
use crate::{lines, reports};
use std::alloc::Global;
use std::test::Fail;
use wasm_gen::error::RunError;
use wasm_gen::judge::ValidatorId;
use wasm_gen::run::{run_check, run_report};
use wasm_gen::session::Session;
use wasm_gen_rows::new_session::on_new_session;
use wasm_test_rows::fields::{three_fields, word_and_rest};

// Writes the line on a module, or the report on it.
fn run(
    alloc: Global,
    session: &mut Session,
    is_line: bool,
    bytes: &[u8],
    written: &mut Vec<u8>,
) -> Result<bool, RunError> {
    let mut reader = bytes;
    if is_line {
        return run_check(alloc, session, &mut reader, written);
    }
    run_report(alloc, session, &mut reader, written)
}

// Does the same, at the second time where memory runs out at the first and nothing is written.
fn run_again(
    alloc: Global,
    session: &mut Session,
    is_line: bool,
    bytes: &[u8],
    written: &mut Vec<u8>,
) -> Result<bool, RunError> {
    let answer = run(alloc, session, is_line, bytes, written);
    if answer != Err(RunError::Memory) || !written.is_empty() {
        return answer;
    }
    if session.has_failed() {
        session.restart(ValidatorId::new(1));
    }
    run(alloc, session, is_line, bytes, written)
}

fn is_written(alloc: Global, session: &mut Session, row: &str) -> Option<bool> {
    let (way, sections, text) = three_fields(row)?;
    let (word, _features) = word_and_rest(way);
    let bytes = match row_bytes(alloc, sections) {
        Some(bytes) => bytes,
        // (the allocation that is refused may be one for the bytes)
        None => row_bytes(alloc, sections)?,
    };
    let mut written = room(alloc)?;
    let answer = run_again(alloc, session, word == "line", &bytes, &mut written);
    Some(answer == Ok(!text.starts_with("no ")) && is_text_of(&written, text))
}

fn holds(alloc: Global, row: &str) -> Option<bool> {
    let (way, _sections, _text) = three_fields(row)?;
    let (_word, features) = word_and_rest(way);
    on_new_session(alloc, features_of(features)?, row, is_written)
}

// Checks that each row of a table that asks for this text holds, and that there are as many as expected. The error is the first row that doesn't hold, or a message
// where the number differs.
fn check_texts(
    alloc: Global,
    table: &'static str,
    asked: &str,
    expected: usize,
) -> Result<(), &'static str> {
    let mut count: usize = 0;
    for row in table.lines() {
        if is_short_row(row) && word_and_rest(row).0 == asked {
            if holds(alloc, row) != Some(true) {
                return Err(row);
            }
            count = count.saturating_add(1);
        }
    }
    if count == expected {
        Ok(())
    } else {
        Err("another number of texts")
    }
}

#[test]
fn lines_are_written_where_memory_runs_out(rt: HostRuntime) -> Result<(), Fail> {
    Ok(check_texts(rt.alloc(), lines::ROWS, "line", 17)?)
}

#[test]
fn reports_are_written_where_memory_runs_out(rt: HostRuntime) -> Result<(), Fail> {
    Ok(check_texts(rt.alloc(), reports::ROWS, "report", reports::COUNT)?)
}
