//! Seeds for lists.

use crate::module::new_module;
use std::alloc::Global;
use std::test::Fail;
use wasm_core::types::SubType;
use wasm_smith::config::Config;
use wasm_smith::module::Module;
use wasm_smith::witness::witness;
use wasm_smith_config_rows::settings::config_in;
use wasm_test_rows::fields::four_fields;
use wasm_test_rows::rows::check_rows;
use wasm_test_rows::shown::debugs_same;
use wasm_test_rows::values::{are_bytes, numbers_of};
use wasm_test_types::types::groups_of;

/// A configuration, groups of types, the functions' types, and the seed: its bytes, `some`, or `none`.
pub const SEEDS: &str = "
    | func -> ; | 0 | some
    | func i32 i64 f32 f64 v128 func? extern? exn? -> i32 i64 f32 f64 v128 func? extern? exn? ; | 0 | some
    allow_floats=no simd_enabled=no | func exn? i64 -> exn? i64 ; | 0 | some
    // As many as there may be, and more.
    | func i64*20 -> i64*20 ; | 0 | some
    max_types=1 max_funcs=2 multi_value_enabled=no | func i64*20 -> f32 ; | 0 | some
    | func i64*21 -> ; | 0 | none
    | func -> i64*21 ; | 0 | none
    max_types=1 max_funcs=2 multi_value_enabled=no | func -> i32 i32 ; | 0 | none
    // Types that are not enabled.
    simd_enabled=no | func v128 -> ; | 0 | none
    allow_floats=no | func f32 -> ; | 0 | none
    allow_floats=no | func -> f64 ; | 0 | none
    exceptions_enabled=no | func exn? -> ; | 0 | none
    reference_types_enabled=no | func func? -> ; | 0 | none
    // References that are not plain.
    | func func -> ; | 0 | none
    | func 0? -> ; | 0 | none
    | func any? -> ; | 0 | none
    // Configurations of which nothing is asked.
    min_types=1 | func -> ; | 0 | none
    min_funcs=1 | func -> ; | 0 | none
    min_elements=1 | func -> ; | 0 | none
    export_everything=yes | func -> ; | 0 | none
    max_types=2147483649 | func -> ; | 0 | none
    // Without references there is no garbage collection either.
    gc_enabled=yes reference_types_enabled=no | func -> ; | 0 | some
    // The bytes of seeds.
    | | | 00
    | func -> ; | 0 | 01 00 00 00 01
    max_types=1 max_funcs=2 multi_value_enabled=no | func -> ; | 0 0 | 01 00 00 01 01
    max_types=1 max_funcs=2 multi_value_enabled=no | func -> ; | 0 0 0 | none
    max_types=1 max_funcs=2 multi_value_enabled=no | func -> * 2; | | none
    // An index past the types.
    | func -> ; | 1 | none
    | | 0 | none
    | func -> * 2; | 1 | some
    // Groups that are not small.
    | func ->, func -> ; | | none
    | ; | | none
    // Types that are not plain.
    | open func -> ; | | none
    | sub 0 func -> ; | | none
    | struct mut:i8 ; | | none
    // With garbage collection: types of a group that refer to each other.
    gc_enabled=yes | func -> ; | 0 | 01 00 00 00 00 00 00 01
    gc_enabled=yes | func ->, open func -> ; | 1 | some
    gc_enabled=yes | struct 1?, struct 0? ; | | 01 01 00 01 01 00 05 00 01 01 00 00 00 01 01 00 05 00 01 00 00 00 00
    | struct 1?, struct 0? ; | | none
    // An open structure, and a group of three types after it: each bool is asked. The function names a function type, or a type that is none.
    gc_enabled=yes | open struct i8 ; array 3?, func v128 nofunc? -> f64, array 0? ; | 2 | 01 00 01 01 01 01 00 00 01 00 02 00 00 02 00 05 00 01 03 00 00 00 00 01 04 01 05 00 00 08 00 01 03 00 00 00 02 00 05 00 01 00 00 00 01
    gc_enabled=yes | open struct i8 ; array 3?, func v128 nofunc? -> f64, array 0? ; | 1 | none
    // A reference that may not be null, one to a type past the end of the group, and a supertype.
    gc_enabled=yes | array 0 ; | | none
    gc_enabled=yes | array 1? ; | | none
    gc_enabled=yes | sub 0 array 0? ; | | none
    gc_enabled=yes stack_switching_enabled=yes | array nocont? ; | | 01 00 00 02 00 05 00 00 0d 00 00
    // By default no import is asked for, and no tag where there is a type for one.
    default | | | 00 00
    default | func -> ; | 0 | 01 00 00 00 00 00 00 00 00 01
    default | func -> i32 ; | 0 | 01 00 00 00 00 01 00 00 00 00 01
    default max_imports=0 | func -> ; | 0 | 01 00 00 00 00 00 00 00 01
    default exceptions_enabled=no | func -> ; | 0 | 01 00 00 00 00 00 00 00 01
    default min_imports=1 | func -> ; | 0 | none
    default min_memories=1 | | | none
";

// The same of many types, functions and groups.
const MANY: &str = "
    max_types=10000 | func i32 -> f64 * 10000; | | some
    max_funcs=65536 | func i32 -> f64 ; | 0*65536 | some
    max_types=1000 | func -> i64 * 1000; | 999*2 | some
";

// Checks that the types are those of the groups, one group after the other.
fn are_types(alloc: Global, types: &[SubType], groups: &[Vec<SubType>]) -> bool {
    let mut rest = types;
    for group in groups {
        for expected in group {
            let Some((type_, others)) = rest.split_first() else {
                return false;
            };
            if !debugs_same(alloc, type_, expected) {
                return false;
            }
            rest = others;
        }
    }
    rest.is_empty()
}

// Checks that these are the sizes of the groups.
fn are_sizes(sizes: &[u32], groups: &[Vec<SubType>]) -> bool {
    for (size, group) in sizes.iter().zip(groups) {
        if *size as usize != group.len() {
            return false;
        }
    }
    sizes.len() == groups.len()
}

// Checks that a module has just these groups and functions, without locals.
fn has_lists(alloc: Global, module: &Module, groups: &[Vec<SubType>], funcs: &[u32]) -> bool {
    for body in module.bodies() {
        if !body.locals.is_empty() {
            return false;
        }
    }
    module.funcs() == funcs
        && module.bodies().len() == funcs.len()
        && are_sizes(module.group_sizes(), groups)
        && are_types(alloc, module.types(), groups)
}

// Checks that these are made of the seed.
fn makes(
    alloc: Global,
    config: &Config,
    groups: &[Vec<SubType>],
    funcs: &[u32],
    seed: &[u8],
) -> bool {
    let made = new_module(alloc, config, seed);
    let holds = match &made {
        Ok(module) => has_lists(alloc, module, groups, funcs),
        Err(_) => false,
    };
    // (dropped by a call, which is cheaper to prove)
    drop(made);
    holds
}

// Checks that the lists have the seed that is expected, or have none.
fn has_seed(
    alloc: Global,
    config: &Config,
    (groups, funcs): (&[Vec<SubType>], &[u32]),
    expected: &str,
) -> bool {
    match witness(alloc, config, groups, funcs) {
        Ok(Some(seed)) => {
            let is_expected = expected == "some" || are_bytes(alloc, expected, &seed);
            is_expected && makes(alloc, config, groups, funcs, &seed)
        }
        Ok(None) => expected == "none",
        Err(_) => false,
    }
}

fn holds(alloc: Global, row: &str) -> Option<bool> {
    let (settings, groups, funcs, expected) = four_fields(row)?;
    let config = config_in(settings)?;
    let funcs = numbers_of(alloc, funcs)?;
    let groups = groups_of(alloc, groups)?;
    let holds = has_seed(alloc, &config, (&groups, &funcs), expected);
    drop(groups);
    Some(holds)
}

#[test]
fn lists_have_their_seeds(rt: HostRuntime) -> Result<(), Fail> {
    check_rows(rt.alloc(), SEEDS, 52, holds)?;
    Ok(check_rows(rt.alloc(), MANY, 3, holds)?)
}
