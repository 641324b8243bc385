//! Modules that are made of seeds while memory runs out.

use crate::generated::{ITEMS, ROWS, is_module_of, is_refusal};
use crate::{shaped, special};
use std::alloc::Global;
use std::test::Fail;
use wasm_gen::error::GenerateError;
use wasm_gen::generate::generate;
use wasm_gen::smith::Config;
use wasm_gen_rows::modules::parts_of;
use wasm_smith_config_rows::settings::config_in;
use wasm_smith_config_rows::shaped::with_shapes;
use wasm_test_rows::fields::{four_fields, three_fields};
use wasm_test_rows::rows::check_rows;

/// Returns the bytes of a field. Where the allocation that is refused is one for them, there is none the next time.
pub fn field_bytes(alloc: Global, field: &str) -> Option<Vec<u8>> {
    match parts_of(alloc, field) {
        Some(bytes) => Some(bytes),
        None => parts_of(alloc, field),
    }
}

// Makes a module of a seed, at the second time where memory runs out at the first.
fn made(alloc: Global, config: &Config, seed: &[u8]) -> Result<Vec<u8>, GenerateError> {
    match generate(alloc, config, seed) {
        Err(GenerateError::Memory) => generate(alloc, config, seed),
        answer => answer,
    }
}

/// Checks that exactly these sections are made of the seed, or that it is refused so. Where memory runs out on the words, it doesn't a second time.
pub fn makes(alloc: Global, config: &Config, seed: &[u8], expected: &str) -> bool {
    match made(alloc, config, seed) {
        Ok(bytes) => is_module_of(alloc, &bytes, expected) || is_module_of(alloc, &bytes, expected),
        Err(e) => is_refusal(alloc, e, expected) || is_refusal(alloc, e, expected),
    }
}

fn holds(alloc: Global, row: &str) -> Option<bool> {
    let (settings, seed, expected) = three_fields(row)?;
    let config = config_in(settings)?;
    let seed = field_bytes(alloc, seed)?;
    Some(makes(alloc, &config, &seed, expected))
}

#[test]
fn modules_are_made(rt: HostRuntime) -> Result<(), Fail> {
    Ok(check_rows(rt.alloc(), ROWS, 32, holds)?)
}

#[test]
fn modules_of_each_item_are_made(rt: HostRuntime) -> Result<(), Fail> {
    Ok(check_rows(rt.alloc(), ITEMS, 20, holds)?)
}

fn holds_specially(alloc: Global, row: &str) -> Option<bool> {
    let (settings, seed, expected, _answer) = four_fields(row)?;
    let config = config_in(settings)?;
    let seed = field_bytes(alloc, seed)?;
    Some(makes(alloc, &config, &seed, expected))
}

#[test]
fn special_modules_are_made(rt: HostRuntime) -> Result<(), Fail> {
    Ok(check_rows(rt.alloc(), special::ROWS, 50, holds_specially)?)
}

// Returns the configuration of a field with shapes, at the second time where memory runs out at the first.
fn shaped_config(alloc: Global, settings: &str, shapes: &str) -> Option<Config> {
    match with_shapes(alloc, config_in(settings)?, shapes) {
        Some(config) => Some(config),
        None => with_shapes(alloc, config_in(settings)?, shapes),
    }
}

fn holds_for_shapes(alloc: Global, row: &str) -> Option<bool> {
    let (settings, shapes, seed, expected) = four_fields(row)?;
    let config = shaped_config(alloc, settings, shapes)?;
    let seed = field_bytes(alloc, seed)?;
    Some(makes(alloc, &config, &seed, expected))
}

#[test]
fn modules_are_made_for_shapes(rt: HostRuntime) -> Result<(), Fail> {
    Ok(check_rows(rt.alloc(), shaped::MADE, 42, holds_for_shapes)?)
}

#[test]
fn shapes_are_answered(rt: HostRuntime) -> Result<(), Fail> {
    Ok(check_rows(rt.alloc(), shaped::REFUSED, 27, holds_for_shapes)?)
}
