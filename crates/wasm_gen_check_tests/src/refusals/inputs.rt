//! Inputs that are validated one after the other while memory runs out.

use std::alloc::Global;
use wasm_gen::check_inputs::{Inputs, check_inputs};
use wasm_gen::error::RunError;
use wasm_gen::status::Outcome;

const HEADER: &[u8] = b"\0asm\x01\0\0\0";

const CUT_HEADER: &[u8] = b"\0asm\x01\0\0";

const NAMES: &[&str] = &["whole", "cut", "absent", "whole"];

// The outcome of each where memory doesn't run out.
const OUTCOMES: &[Outcome] = &[Outcome::Yes, Outcome::No, Outcome::Fault, Outcome::Yes];

// Inputs by their names, and how many faults of theirs were told, any and those of running out of memory, and how many were explained.
#[derive(Drop)]
struct Named {
    told: u32,
    out_of_memory: u32,
    explained: u32,
}

impl Inputs for Named {
    ghost use Rattle.std.specs.Prelude.{None};

    type Input = &'static [u8];

    ghost events = { λ _. None };

    fn open(&mut self, name: &str) -> Option<&'static [u8]> {
        match name {
            "whole" => Some(HEADER),
            "cut" => Some(CUT_HEADER),
            _ => None,
        }
    }

    fn tell(&mut self, fault: RunError, _name: &str) {
        self.told = self.told.saturating_add(1);
        if fault == RunError::Memory {
            self.out_of_memory = self.out_of_memory.saturating_add(1);
        }
    }

    fn explain(&mut self, _text: &str, _name: &str) {
        self.explained = self.explained.saturating_add(1);
    }
}

// Returns the number of inputs that end as a fault, but don't by themselves, or none where one ends in another way.
fn more_faults(outcomes: &[Outcome]) -> Option<u32> {
    let mut count = 0u32;
    for (place, outcome) in outcomes.iter().enumerate() {
        if OUTCOMES.get(place)? != outcome {
            if *outcome != Outcome::Fault {
                return None;
            }
            count = count.saturating_add(1);
        }
    }
    (outcomes.len() == OUTCOMES.len()).then_some(count)
}

// Checks that each input ended as it should but where memory ran out, which was told, that there is a line for each that is no fault, and that no more is explained
// than what is a no.
fn are_expected(outcomes: &[Outcome], inputs: &Named, written: &[u8]) -> bool {
    let lines = written.iter().filter(|byte| **byte == b'\n').count();
    let answers = outcomes.iter().filter(|it| **it != Outcome::Fault).count();
    let refused = outcomes.iter().filter(|it| **it == Outcome::No).count();
    more_faults(outcomes) == Some(inputs.out_of_memory)
        && inputs.explained as usize <= refused
        && inputs.told.checked_sub(1) == Some(inputs.out_of_memory)
        && lines == answers
}

// Checks that inputs are validated so, at the second time where there was no memory for the outcomes: then nothing was told or written.
fn validates(alloc: Global, written: &mut Vec<u8>) -> bool {
    let mut inputs = Named {
        told: 0,
        out_of_memory: 0,
        explained: 0,
    };
    let mut answer = check_inputs(alloc, &mut inputs, NAMES, written, true);
    if answer.is_err() {
        if inputs.told != 0 || inputs.explained != 0 || !written.is_empty() {
            return false;
        }
        answer = check_inputs(alloc, &mut inputs, NAMES, written, true);
    }
    match answer {
        Ok(outcomes) => are_expected(&outcomes, &inputs, written),
        Err(_) => false,
    }
}

/// Allocates capacity for all that is written, so that no write fails.
pub fn room(alloc: Global) -> Option<Vec<u8>> {
    match Vec::with_capacity(alloc, 1024) {
        Ok(room) => Some(room),
        Err(_) => Vec::with_capacity(alloc, 1024).ok(),
    }
}

#[test]
fn inputs_are_validated_where_memory_runs_out(rt: HostRuntime) {
    let holds = match room(rt.alloc()) {
        Some(mut written) => validates(rt.alloc(), &mut written),
        None => false,
    };
    assert!(rt; holds);
}
