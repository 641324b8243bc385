//! Runs of the generator over a reader and a writer while memory runs out.

use crate::generated::{ITEMS, ROWS, is_module_of, is_refusal};
use crate::refusals::generated::field_bytes;
use std::alloc::Global;
use std::test::Fail;
use wasm_gen::error::RunError;
use wasm_gen::run::run_generate;
use wasm_gen::smith::Config;
use wasm_smith_config_rows::settings::config_in;
use wasm_test_rows::fields::three_fields;
use wasm_test_rows::rows::check_rows;

// Makes a module of a seed and writes it.
fn run(alloc: Global, config: &Config, seed: &[u8], written: &mut Vec<u8>) -> Result<(), RunError> {
    let mut reader = seed;
    run_generate(alloc, config, &mut reader, written)
}

// Checks that just the module of the row is written, or that the seed is refused so. Where memory runs out on the words, it doesn't a second time.
fn is_answer(alloc: Global, answer: Result<(), RunError>, written: &[u8], expected: &str) -> bool {
    match answer {
        Ok(()) => is_module_of(alloc, written, expected) || is_module_of(alloc, written, expected),
        Err(RunError::Generate(e)) => {
            let is_cause = is_refusal(alloc, e, expected) || is_refusal(alloc, e, expected);
            is_cause && written.is_empty()
        }
        Err(_) => false,
    }
}

// Checks that it is, at the second time where memory runs out at the first and nothing is written.
fn writes(
    alloc: Global,
    config: &Config,
    seed: &[u8],
    expected: &str,
    written: &mut Vec<u8>,
) -> bool {
    let mut answer = run(alloc, config, seed, written);
    if answer == Err(RunError::Memory) && written.is_empty() {
        answer = run(alloc, config, seed, written);
    }
    is_answer(alloc, answer, written, expected)
}

// Allocates capacity for all that is written, so that no write fails.
fn capacity(alloc: Global) -> Option<Vec<u8>> {
    match Vec::with_capacity(alloc, 1024) {
        Ok(written) => Some(written),
        Err(_) => Vec::with_capacity(alloc, 1024).ok(),
    }
}

fn holds(alloc: Global, row: &str) -> Option<bool> {
    let (settings, seed, expected) = three_fields(row)?;
    let config = config_in(settings)?;
    let seed = field_bytes(alloc, seed)?;
    let mut written = capacity(alloc)?;
    Some(writes(alloc, &config, &seed, expected, &mut written))
}

#[test]
fn modules_are_written(rt: HostRuntime) -> Result<(), Fail> {
    Ok(check_rows(rt.alloc(), ROWS, 32, holds)?)
}

#[test]
fn modules_of_each_item_are_written(rt: HostRuntime) -> Result<(), Fail> {
    Ok(check_rows(rt.alloc(), ITEMS, 20, holds)?)
}
