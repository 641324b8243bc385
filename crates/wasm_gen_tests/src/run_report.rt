//! Reporting on what a reader gives.

use crate::answers::is_front;
use crate::fakes::{NarrowWriter, ScriptedReader, TellingReader, WhenFull};
use std::alloc::Global;
use wasm_core::features::WasmFeatures;
use wasm_gen::device::Source;
use wasm_gen::error::RunError;
use wasm_gen::run::run_report;
use wasm_gen::session::Session;
use wasm_gen_rows::new_session::{on_new_session, renew};

// A function type.
const MODULE: &[u8] = b"\0asm\x01\0\0\0\x01\x04\x01\x60\0\0";

const CUT_MODULE: &[u8] = b"\0asm\x01\0\0\0\x01\x04\x01\x60\0";

const REPORT: &str = "type 0.0 final - func [] []\nindex 0 0.0\n";

const REFUSAL: &str = "no malformed\n";

// Checks that a writer of this room takes as much of the text, and the run is refused where that is not all.
fn fills(
    alloc: Global,
    session: &mut Session,
    text: &str,
    room: usize,
    when_full: WhenFull,
) -> bool {
    let is_valid = text == REPORT;
    let mut reader = if is_valid { MODULE } else { CUT_MODULE };
    let mut writer = NarrowWriter::new(alloc, room, when_full);
    let answer = run_report(alloc, session, &mut reader, &mut writer);
    let expected = if room < text.len() {
        Err(RunError::Write)
    } else {
        Ok(is_valid)
    };
    answer == expected && is_front(&writer.taken, text.as_bytes(), room)
}

// Checks that it does so in a new session for each room.
fn fills_each(alloc: Global, session: &mut Session, text: &str) -> Option<bool> {
    for room in 0..=text.len() {
        for when_full in [WhenFull::Fails, WhenFull::TakesNone] {
            renew(alloc, session);
            if !fills(alloc, session, text, room, when_full) {
                return Some(false);
            }
        }
    }
    Some(true)
}

#[test]
fn writes_as_much_as_there_is_room(rt: HostRuntime) {
    for text in [REPORT, REFUSAL] {
        let holds = on_new_session(rt.alloc(), WasmFeatures::default(), text, fills_each);
        assert!(rt; holds == Some(true));
    }
}

// Checks that a read that fails is returned as an error, that nothing is written, and that the session is as it was.
fn is_refused<R: Source>(alloc: Global, session: &mut Session, reader: &mut R) -> bool {
    let mut written = Vec::new(alloc);
    let answer = run_report(alloc, session, reader, &mut written);
    answer == Err(RunError::Read) && written.is_empty() && !session.has_failed()
}

// Checks that it is where each of the reads of a module fails.
fn fails_at_each(alloc: Global, session: &mut Session, _row: &str) -> Option<bool> {
    for left in 0..=MODULE.len() {
        let mut reader = TellingReader::failing(MODULE, left);
        if !is_refused(alloc, session, &mut reader) {
            return Some(false);
        }
    }
    Some(true)
}

fn fails_after(alloc: Global, session: &mut Session, script: &str) -> Option<bool> {
    let mut reader = ScriptedReader::new(script);
    Some(is_refused(alloc, session, &mut reader))
}

#[test]
fn failed_read_reports_nothing(rt: HostRuntime) {
    let features = WasmFeatures::default();
    let holds = on_new_session(rt.alloc(), features, "", fails_at_each);
    assert!(rt; holds == Some(true));
    for script in ["\0a~!", "\0a~s!"] {
        let holds = on_new_session(rt.alloc(), features, script, fails_after);
        assert!(rt; holds == Some(true));
    }
}
