//! The command `report`.

ghost use Rattle.std.specs.Prelude.{◌≡◌, Ok, OnErr, false, true};

use crate::fault::tell_of_file;
use std::io::Write;
use std::rt::Files;
use std::{fs, io};
use wasm_gen::check_inputs::first_session;
use wasm_gen::error::RunError;
use wasm_gen::run::run_report;
use wasm_gen::status::{Outcome, status_of};

/// Writes what the module in a file has to standard output, or why it is refused, reports each fault, and returns the program's status.
pub fn report_file<R: Files + Print + Eprint + AllocGlobal>(rt: &R, name: &str) -> u8 {
    let answer = write_report(rt, name);
    status_after(rt, answer, name)
}

// Returns the status after a run, and reports a fault.
fn status_after<R: Eprint>(rt: &R, answer: Result<bool, RunError>, name: &str) -> u8
    ensures yes { answer ≡ Ok true → result ≡ 0 }
    ensures no { answer ≡ Ok false → result ≡ 1 }
    ensures fault { OnErr answer (result ≡ 2) }
{
    match answer {
        Ok(true) => status_of(&[Outcome::Yes]),
        Ok(false) => status_of(&[Outcome::No]),
        Err(e) => tell_of_file(rt, e, name),
    }
}

// Writes the report. The bytes are flushed, so that a full disk is seen.
fn write_report<R: Files + Print + AllocGlobal>(rt: &R, name: &str) -> Result<bool, RunError> {
    let mut writer = io::writer(rt);
    let Ok(mut file) = fs::open(rt, name) else {
        return Err(RunError::Read);
    };
    let mut session = first_session(rt.alloc());
    let answer = run_report(rt.alloc(), &mut session, &mut file, &mut writer);
    drop(session);
    let is_valid = answer?;
    match writer.flush() {
        Ok(()) => Ok(is_valid),
        Err(_) => Err(RunError::Write),
    }
}
