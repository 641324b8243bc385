//! Seeds that are found for lists, and the modules that are made of them, while memory runs out.

use crate::refusals::generated::makes;
use crate::seeds::IN_WORDS;
use std::alloc::{AllocError, Global};
use std::test::Fail;
use wasm_core::types::SubType;
use wasm_gen::seed::seed_for;
use wasm_gen::smith::Config;
use wasm_smith_config_rows::settings::config_in;
use wasm_test_rows::fields::four_fields;
use wasm_test_rows::rows::check_rows;
use wasm_test_rows::values::numbers_of;
use wasm_test_types::types::groups_of;

// Looks for the seed for groups and functions, at the second time where memory runs out at the first.
fn found(
    alloc: Global,
    config: &Config,
    groups: &[Vec<SubType>],
    functions: &[u32],
) -> Result<Option<Vec<u8>>, AllocError> {
    match seed_for(alloc, config, groups, functions) {
        Ok(seed) => Ok(seed),
        Err(_) => seed_for(alloc, config, groups, functions),
    }
}

// Checks that a seed is found, of which these sections are made, or that there is to be none.
fn is_found(
    alloc: Global,
    config: &Config,
    groups: &[Vec<SubType>],
    functions: &[u32],
    expected: &str,
) -> bool {
    match found(alloc, config, groups, functions) {
        Ok(Some(seed)) => makes(alloc, config, &seed, expected),
        Ok(None) => expected == "none",
        Err(_) => false,
    }
}

// Returns the numbers of a field, at the second time where memory runs out at the first.
fn field_numbers(alloc: Global, field: &str) -> Option<Vec<u32>> {
    match numbers_of(alloc, field) {
        Some(numbers) => Some(numbers),
        None => numbers_of(alloc, field),
    }
}

// Returns the groups of a field in the same way.
fn field_groups(alloc: Global, field: &str) -> Option<Vec<Vec<SubType>>> {
    match groups_of(alloc, field) {
        Some(groups) => Some(groups),
        None => groups_of(alloc, field),
    }
}

fn holds(alloc: Global, row: &str) -> Option<bool> {
    let (settings, groups, functions, expected) = four_fields(row)?;
    let config = config_in(settings)?;
    let functions = field_numbers(alloc, functions)?;
    let groups = field_groups(alloc, groups)?;
    let holds = is_found(alloc, &config, &groups, &functions, expected);
    // (dropped by a call, which is cheaper to prove)
    drop(groups);
    Some(holds)
}

#[test]
fn seeds_are_found(rt: HostRuntime) -> Result<(), Fail> {
    Ok(check_rows(rt.alloc(), IN_WORDS, 26, holds)?)
}
