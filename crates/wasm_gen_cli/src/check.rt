//! The command `check`.

use crate::fault::{tell, tell_explanation, tell_of_file};
use std::io::{Write, writer};
use std::rt::Files;
use std::{fs, io};
use wasm_gen::check_inputs::{Inputs, check_inputs};
use wasm_gen::error::RunError;
use wasm_gen::status::status_of;
use wasm_gen_program::asked::Check;

// The files of a runtime, by their names.
#[derive(Drop)]
struct NamedFiles<'a, R>(&'a R);

impl<R: Files + Eprint> Inputs for NamedFiles<'_, R> {
    ghost use Rattle.std.specs.Prelude.{None};

    type Input = R::File;

    ghost events = { λ _. None };

    fn open(&mut self, name: &str) -> Option<R::File> {
        fs::open(self.0, name).ok()
    }

    fn tell(&mut self, fault: RunError, name: &str) {
        let _ = tell_of_file(self.0, fault, name);
    }

    fn explain(&mut self, text: &str, name: &str) {
        tell_explanation(self.0, text, name);
    }
}

// A writer that is flushed after each write, so that a full disk is seen.
#[derive(Drop)]
struct Flushed<W>(W);

impl<W: Write> Write for Flushed<W> {
    fn write(&mut self, buffer: &[u8]) -> io::Result<usize> {
        let count = self.0.write(buffer)?;
        self.0.flush()?;
        Ok(count)
    }

    fn flush(&mut self) -> io::Result<()> {
        self.0.flush()
    }
}

/// Validates the files in turn by one session, reports each fault, explains each no where that is asked for, and returns the program's status. A failed write ends the
/// run; after any other fault the next file follows.
pub fn check_files<R: Files + Print + Eprint + AllocGlobal>(rt: &R, asked: &Check<'_>) -> u8 {
    let mut files = NamedFiles(rt);
    let names = asked.files.as_slice();
    let mut out = Flushed(writer(rt));
    match check_inputs(rt.alloc(), &mut files, names, &mut out, asked.explain) {
        Ok(outcomes) => status_of(&outcomes),
        Err(_) => tell(rt, RunError::Memory),
    }
}
