//! Modules that are made for shapes.

use crate::module::new_module;
use crate::shaped::{MADE, is_reason, is_written, shaped_config};
use std::alloc::Global;
use std::test::Fail;
use wasm_smith::config::Config;
use wasm_smith::error::Error;
use wasm_smith::module::Module;
use wasm_test_rows::fields::four_fields;
use wasm_test_rows::rows::check_rows;
use wasm_test_rows::values::bytes_of;

// Makes a module, at the second time where memory runs out at the first.
fn made(alloc: Global, config: &Config, bytes: &[u8]) -> Result<Module, Error> {
    match new_module(alloc, config, bytes) {
        Err(Error::Memory) => new_module(alloc, config, bytes),
        answer => answer,
    }
}

// Returns the configuration of a row. Where the allocation that is refused is one for it, there is none the next time.
fn row_config(alloc: Global, settings: &str, shapes: &str) -> Option<Config> {
    match shaped_config(alloc, settings, shapes) {
        Some(config) => Some(config),
        None => shaped_config(alloc, settings, shapes),
    }
}

// Returns the bytes of a field in the same way.
fn row_bytes(alloc: Global, field: &str) -> Option<Vec<u8>> {
    match bytes_of(alloc, field) {
        Some(bytes) => Some(bytes),
        None => bytes_of(alloc, field),
    }
}

// Checks that what is expected is made, or the reason of the refusal is. Where memory runs out on the bytes or words, it doesn't a second time.
fn makes(alloc: Global, config: &Config, bytes: &[u8], expected: &str) -> bool {
    let made = made(alloc, config, bytes);
    let holds = match &made {
        Ok(module) => { is_written(alloc, module, expected) || is_written(alloc, module, expected) }
        Err(error) => { is_reason(alloc, *error, expected) || is_reason(alloc, *error, expected) }
    };
    // (dropped by a call, which is cheaper to prove)
    drop(made);
    holds
}

fn holds(alloc: Global, row: &str) -> Option<bool> {
    let (settings, shapes, bytes, expected) = four_fields(row)?;
    let config = row_config(alloc, settings, shapes)?;
    let bytes = row_bytes(alloc, bytes)?;
    Some(makes(alloc, &config, &bytes, expected))
}

#[test]
fn modules_are_made_for_shapes(rt: HostRuntime) -> Result<(), Fail> {
    Ok(check_rows(rt.alloc(), MADE, 14, holds)?)
}
