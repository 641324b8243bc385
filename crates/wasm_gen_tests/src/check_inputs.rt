//! Checking inputs one after the other, and what is told of them.

use crate::answers::is_front;
use crate::fakes::{NarrowWriter, WhenFull};
use std::alloc::{AllocError, Global};
use wasm_gen::check_inputs::{Inputs, check_inputs};
use wasm_gen::error::RunError;
use wasm_gen::status::Outcome;

const HEADER: &[u8] = b"\0asm\x01\0\0\0";

const CUT_HEADER: &[u8] = b"\0asm\x01\0\0";

// A function type, a function of it, and its body, which adds operands that aren't there.
const BODY: &[u8] = b"\0asm\x01\0\0\0\x01\x04\x01\x60\0\0\x03\x02\x01\0\x0a\x05\x01\x03\0\x6a\x0b";

const NAMES: &[&str] = &["cut", "whole", "absent", "body"];

const OUTCOMES: &[Outcome] = &[Outcome::No, Outcome::Yes, Outcome::Fault, Outcome::No];

const WRITTEN: &str = "no malformed
yes types=0 functions=0 tables=0 memories=0 globals=0 tags=0 elements=0 exports=0
no body
";

const FAULTS: &str = "absent: cannot read
";

const FAULTS_AND_EXPLANATIONS: &str = "cut: at offset 0: header
absent: cannot read
body: at offset 23: function 0, operator 0 (i32.add)
";

// Inputs by their names, and what was told of them.
#[derive(Drop)]
struct Named {
    told: String,
}

impl Named {
    // Appends the line of an input.
    fn add(&mut self, name: &str, text: &str) -> Result<(), AllocError> {
        self.told.push_str(name)?;
        self.told.push_str(": ")?;
        self.told.push_str(text)?;
        self.told.push_str("\n")
    }
}

impl Inputs for Named {
    ghost use Rattle.std.specs.Prelude.{None};

    type Input = &'static [u8];

    ghost events = { λ _. None };

    fn open(&mut self, name: &str) -> Option<&'static [u8]> {
        match name {
            "whole" => Some(HEADER),
            "cut" => Some(CUT_HEADER),
            "body" => Some(BODY),
            _ => None,
        }
    }

    fn tell(&mut self, fault: RunError, name: &str) {
        let text = match fault {
            RunError::Read => "cannot read",
            RunError::Write => "cannot write",
            _ => "another fault",
        };
        let _ = self.add(name, text);
    }

    fn explain(&mut self, text: &str, name: &str) {
        let _ = self.add(name, text);
    }
}

// Checks that the inputs come to their outcomes and their lines are written.
fn come_to_outcomes(alloc: Global, inputs: &mut Named, explain: bool) -> bool {
    let mut written = Vec::new(alloc);
    match check_inputs(alloc, inputs, NAMES, &mut written, explain) {
        Ok(outcomes) => {
            outcomes.as_slice() == OUTCOMES && written.as_slice() == WRITTEN.as_bytes()
        }
        Err(_) => false,
    }
}

// Checks that they do so, and that this is told of them.
fn tells(alloc: Global, explain: bool, expected: &str) -> bool {
    let mut inputs = Named {
        told: String::new(alloc),
    };
    come_to_outcomes(alloc, &mut inputs, explain) && inputs.told.as_str() == expected
}

// Checks that the inputs end with a fault, after so many that have a line.
fn end_after(outcomes: &[Outcome], lines: usize) -> bool {
    let Some((last, before)) = outcomes.split_last() else {
        return false;
    };
    let answers = before.iter().filter(|it| **it != Outcome::Fault).count();
    *last == Outcome::Fault && answers == lines
}

// Checks that a writer of this room takes as much of the lines, and that the inputs end with the one whose line it doesn't take.
fn end_at_a_full_writer(alloc: Global, inputs: &mut Named, room: usize) -> bool {
    let mut writer = NarrowWriter::new(alloc, room, WhenFull::Fails);
    let are_ended = match check_inputs(alloc, inputs, NAMES, &mut writer, false) {
        Ok(outcomes) => {
            let lines = writer.taken.iter().filter(|byte| **byte == b'\n').count();
            end_after(&outcomes, lines)
        }
        Err(_) => false,
    };
    are_ended && is_front(&writer.taken, WRITTEN.as_bytes(), room)
}

// Checks that they do so, and that the fault is told.
fn tells_of_a_full_writer(alloc: Global, room: usize) -> bool {
    let mut inputs = Named {
        told: String::new(alloc),
    };
    end_at_a_full_writer(alloc, &mut inputs, room)
        && inputs.told.as_str().ends_with(": cannot write\n")
}

#[test]
fn failed_write_ends_the_run(rt: HostRuntime) {
    for room in 0..WRITTEN.len() {
        assert!(rt; tells_of_a_full_writer(rt.alloc(), room));
    }
}

#[test]
fn no_is_explained_where_that_is_asked_for(rt: HostRuntime) {
    assert!(rt; tells(rt.alloc(), false, FAULTS));
    assert!(rt; tells(rt.alloc(), true, FAULTS_AND_EXPLANATIONS));
}
