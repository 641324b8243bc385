//! Modules, and their bytes.

use crate::module::{BYTES, MADE, has_parts, new_module};
use std::alloc::Global;
use std::test::Fail;
use wasm_smith::config::Config;
use wasm_smith::error::Error;
use wasm_smith::module::Module;
use wasm_smith::unstructured::Unstructured;
use wasm_smith_config_rows::settings::config_in;
use wasm_test_rows::fields::four_fields;
use wasm_test_rows::rows::check_rows;
use wasm_test_rows::shown::displays;
use wasm_test_rows::values::bytes_of;

// Makes a module, at the second time where memory runs out at the first.
fn made(alloc: Global, config: &Config, bytes: &[u8]) -> Result<Module, Error> {
    match new_module(alloc, config, bytes) {
        Err(Error::Memory) => new_module(alloc, config, bytes),
        answer => answer,
    }
}

// Checks that the bytes of a module are returned, at the second time where memory runs out at the first.
fn has_bytes(alloc: Global, module: &Module) -> bool {
    match module.to_bytes(alloc) {
        Ok(bytes) => bytes.starts_with(b"\0asm"),
        Err(error) => error == Error::Memory && module.to_bytes(alloc).is_ok(),
    }
}

// Checks that a module is what the row says. Where memory runs out on the words, it doesn't a second time.
fn is_so(alloc: Global, module: &Module, config: &Config, types: &str, rest: &str) -> bool {
    has_parts(alloc, module, config, types, rest) || has_parts(alloc, module, config, types, rest)
}

// Checks that this is the cause of a refusal, likewise.
fn is_cause(alloc: Global, error: Error, types: &str, rest: &str) -> bool {
    types == "refused" && (displays(alloc, &error, rest) || displays(alloc, &error, rest))
}

fn makes(alloc: Global, config: &Config, bytes: &[u8], types: &str, rest: &str) -> bool {
    let made = made(alloc, config, bytes);
    let holds = match &made {
        Ok(module) => is_so(alloc, module, config, types, rest) && has_bytes(alloc, module),
        Err(error) => is_cause(alloc, *error, types, rest),
    };
    // (dropped by a call, which is cheaper to prove)
    drop(made);
    holds
}

fn holds(alloc: Global, row: &str) -> Option<bool> {
    let (settings, field, types, rest) = four_fields(row)?;
    let config = config_in(settings)?;
    let bytes = match bytes_of(alloc, field) {
        Some(bytes) => bytes,
        None => bytes_of(alloc, field)?,
    };
    Some(makes(alloc, &config, &bytes, types, rest))
}

#[test]
fn modules_are_made(rt: HostRuntime) -> Result<(), Fail> {
    Ok(check_rows(rt.alloc(), MADE, 14, holds)?)
}

// Checks that a module with items of most kinds is made, and written.
fn makes_most_kinds(alloc: Global) -> bool {
    let made = made(alloc, &Config::default(), BYTES);
    let holds = match &made {
        Ok(module) => module.elems().len() == 1 && has_bytes(alloc, module),
        Err(_) => false,
    };
    drop(made);
    holds
}

#[test]
fn most_kinds_of_items(rt: HostRuntime) {
    assert!(rt; makes_most_kinds(rt.alloc()));
}

fn arbitrary(alloc: Global, bytes: &[u8]) -> Result<Module, Error> {
    Module::arbitrary(alloc, &mut Unstructured::new(bytes))
}

// Makes a module whose configuration is drawn first, likewise.
fn drawn(alloc: Global, bytes: &[u8]) -> Result<Module, Error> {
    match arbitrary(alloc, bytes) {
        Err(Error::Memory) => arbitrary(alloc, bytes),
        answer => answer,
    }
}

fn is_drawn(alloc: Global, bytes: &[u8]) -> bool {
    let drawn = drawn(alloc, bytes);
    let holds = match &drawn {
        Ok(module) => has_bytes(alloc, module),
        Err(error) => *error != Error::Memory,
    };
    drop(drawn);
    holds
}

#[test]
fn configurations_are_drawn(rt: HostRuntime) {
    assert!(rt; is_drawn(rt.alloc(), &[]) && is_drawn(rt.alloc(), BYTES));
}
