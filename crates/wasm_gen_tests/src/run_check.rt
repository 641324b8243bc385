//! Checking what a reader gives.

use crate::answers::is_front;
use crate::fakes::{NarrowWriter, ScriptedReader, TellingReader, WhenFull};
use std::alloc::Global;
use wasm_core::features::WasmFeatures;
use wasm_gen::device::Source;
use wasm_gen::error::RunError;
use wasm_gen::run::run_check;
use wasm_gen::session::Session;
use wasm_gen_rows::new_session::{on_new_session, renew};

const HEADER: &[u8] = b"\0asm\x01\0\0\0";

const CUT_HEADER: &[u8] = b"\0asm\x01\0\0";

const YES: &str =
    "yes types=0 functions=0 tables=0 memories=0 globals=0 tags=0 elements=0 exports=0\n";

// Checks that so many of these inputs are a yes in one session, which writes these lines.
fn writes(alloc: Global, session: &mut Session, inputs: &[&[u8]], count: u32, lines: &str) -> bool {
    let mut written = Vec::new(alloc);
    let mut found = 0u32;
    for input in inputs {
        let mut reader = *input;
        let answer = run_check(alloc, session, &mut reader, &mut written);
        found = found.saturating_add(u32::from(answer == Ok(true)));
    }
    found == count && written.as_slice() == lines.as_bytes()
}

fn writes_of_a_module(alloc: Global, session: &mut Session, line: &str) -> Option<bool> {
    Some(writes(alloc, session, &[HEADER], 1, line))
}

fn writes_of_refused_inputs(alloc: Global, session: &mut Session, lines: &str) -> Option<bool> {
    Some(writes(alloc, session, &[CUT_HEADER, HEADER], 0, lines))
}

#[test]
fn writes_a_line_for_each_answer(rt: HostRuntime) {
    let alloc = rt.alloc();
    let features = WasmFeatures::default();
    let line = on_new_session(alloc, features, YES, writes_of_a_module);
    assert!(rt; line == Some(true));
    let lines = "no malformed\nno failed\n";
    let lines = on_new_session(alloc, features, lines, writes_of_refused_inputs);
    assert!(rt; lines == Some(true));
}

// Checks that a writer of this room takes as much of the line of a yes, and the run is refused where that is not all.
fn fills(alloc: Global, session: &mut Session, room: usize, when_full: WhenFull) -> bool {
    let mut reader = HEADER;
    let mut writer = NarrowWriter::new(alloc, room, when_full);
    let answer = run_check(alloc, session, &mut reader, &mut writer);
    let expected = if room < YES.len() {
        Err(RunError::Write)
    } else {
        Ok(true)
    };
    answer == expected && is_front(&writer.taken, YES.as_bytes(), room)
}

// Checks that it does so in a new session for each room.
fn fills_each(alloc: Global, session: &mut Session, line: &str) -> Option<bool> {
    for room in 0..=line.len() {
        for when_full in [WhenFull::Fails, WhenFull::TakesNone] {
            renew(alloc, session);
            if !fills(alloc, session, room, when_full) {
                return Some(false);
            }
        }
    }
    Some(true)
}

#[test]
fn writes_as_much_as_there_is_room(rt: HostRuntime) {
    let holds = on_new_session(rt.alloc(), WasmFeatures::default(), YES, fills_each);
    assert!(rt; holds == Some(true));
}

// Checks that a read that fails is returned as an error, that nothing is written, and that the session is as it was.
fn is_refused<R: Source>(alloc: Global, session: &mut Session, reader: &mut R) -> bool {
    let mut written = Vec::new(alloc);
    let answer = run_check(alloc, session, reader, &mut written);
    answer == Err(RunError::Read) && written.is_empty() && !session.has_failed()
}

// Checks that it is where each of the reads of a module fails.
fn fails_at_each(alloc: Global, session: &mut Session, _row: &str) -> Option<bool> {
    for left in 0..=HEADER.len() {
        let mut reader = TellingReader::failing(HEADER, left);
        if !is_refused(alloc, session, &mut reader) {
            return Some(false);
        }
    }
    Some(true)
}

fn fails_after(alloc: Global, session: &mut Session, script: &str) -> Option<bool> {
    let mut reader = ScriptedReader::new(script);
    Some(is_refused(alloc, session, &mut reader))
}

#[test]
fn failed_read_writes_nothing(rt: HostRuntime) {
    let features = WasmFeatures::default();
    let holds = on_new_session(rt.alloc(), features, "", fails_at_each);
    assert!(rt; holds == Some(true));
    for script in ["\0a~!", "\0a~s!"] {
        let holds = on_new_session(rt.alloc(), features, script, fails_after);
        assert!(rt; holds == Some(true));
    }
}
