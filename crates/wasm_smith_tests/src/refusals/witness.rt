//! Seeds for lists.

use crate::witness::SEEDS;
use std::alloc::{AllocError, Global};
use std::test::Fail;
use wasm_core::types::SubType;
use wasm_smith::config::Config;
use wasm_smith::witness::witness;
use wasm_smith_config_rows::settings::config_in;
use wasm_test_rows::fields::four_fields;
use wasm_test_rows::rows::check_rows;
use wasm_test_rows::values::{are_bytes, numbers_of};
use wasm_test_types::types::groups_of;

// Looks for a seed, at the second time where memory runs out at the first.
fn found(
    alloc: Global,
    config: &Config,
    groups: &[Vec<SubType>],
    funcs: &[u32],
) -> Result<Option<Vec<u8>>, AllocError> {
    match witness(alloc, config, groups, funcs) {
        Ok(found) => Ok(found),
        Err(_) => witness(alloc, config, groups, funcs),
    }
}

// Checks that the lists have the seed that is expected, or have none.
fn has_seed(
    alloc: Global,
    config: &Config,
    groups: &[Vec<SubType>],
    funcs: &[u32],
    expected: &str,
) -> bool {
    match found(alloc, config, groups, funcs) {
        Ok(Some(seed)) => {
            expected == "some"
                || are_bytes(alloc, expected, &seed)
                || are_bytes(alloc, expected, &seed)
        }
        Ok(None) => expected == "none",
        Err(_) => false,
    }
}

// Returns the numbers of a field, at the second time where memory runs out at the first.
fn field_numbers(alloc: Global, field: &str) -> Option<Vec<u32>> {
    match numbers_of(alloc, field) {
        Some(numbers) => Some(numbers),
        None => numbers_of(alloc, field),
    }
}

// Returns the groups of a field in the same way.
fn field_groups(alloc: Global, field: &str) -> Option<Vec<Vec<SubType>>> {
    match groups_of(alloc, field) {
        Some(groups) => Some(groups),
        None => groups_of(alloc, field),
    }
}

fn holds(alloc: Global, row: &str) -> Option<bool> {
    let (settings, groups, funcs, expected) = four_fields(row)?;
    let config = config_in(settings)?;
    let funcs = field_numbers(alloc, funcs)?;
    let groups = field_groups(alloc, groups)?;
    let holds = has_seed(alloc, &config, &groups, &funcs, expected);
    // (dropped by a call, which is cheaper to prove)
    drop(groups);
    Some(holds)
}

#[test]
fn lists_have_their_seeds(rt: HostRuntime) -> Result<(), Fail> {
    Ok(check_rows(rt.alloc(), SEEDS, 52, holds)?)
}
