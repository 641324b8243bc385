//! Seeds for lists of types and functions.

use crate::generated::makes;
use crate::lists::{Drawing, function_type, put};
use std::alloc::Global;
use std::test::Fail;
use wasm_core::types::{SubType, ValType};
use wasm_gen::generate::generate;
use wasm_gen::seed::seed_for;
use wasm_gen::smith::Config;
use wasm_gen_rows::modules::parts_of;
use wasm_smith_config_rows::settings::{config_in, plain_config};
use wasm_test_rows::fields::four_fields;
use wasm_test_rows::rows::check_rows;
use wasm_test_rows::values::{number_of, numbers_of};
use wasm_test_types::types;

// Checks that exactly the module is made of the seed.
fn makes_exactly(alloc: Global, seed: &[u8], module: &[u8]) -> bool {
    match generate(alloc, &plain_config(), seed) {
        Ok(made) => made.as_slice() == module,
        Err(_) => false,
    }
}

// Checks that a module with the same front is made of the seed.
fn makes_front(alloc: Global, seed: &[u8], module: &[u8], front_len: usize) -> bool {
    match generate(alloc, &plain_config(), seed) {
        Ok(made) => made.get(..front_len) == module.get(..front_len),
        Err(_) => false,
    }
}

// Checks that exactly the module is made of the seed for these groups and functions.
fn is_found(alloc: Global, groups: &[Vec<SubType>], functions: &[u32], module: &[u8]) -> bool {
    match seed_for(alloc, &plain_config(), groups, functions) {
        Ok(Some(seed)) => makes_exactly(alloc, &seed, module),
        _ => false,
    }
}

// Checks that these groups, and the functions that are drawn for them, are made from the seed that is found for both, from one that spells them, and from that with
// a tail. With the tail the types and functions are the same, since their sections, at the module's front, have the same bytes.
fn are_drawn(alloc: Global, drawing: &mut Drawing, groups: &[Vec<SubType>]) -> bool {
    let functions = drawing.functions(alloc, groups.len());
    let are_made = is_found(alloc, groups, &functions, &drawing.module)
        && makes_exactly(alloc, &drawing.seed, &drawing.module);
    for byte in [0x2a, 0x01, 0x01, 0xff, 0x00, 0x7f, 0x03, 0x02] {
        put(&mut drawing.seed, byte);
    }
    are_made && makes_front(alloc, &drawing.seed, &drawing.module, drawing.front_len)
}

// Checks that the lists of this number are made.
fn are_made(alloc: Global, number: u32, turn: u8) -> bool {
    let mut drawing = Drawing::new(alloc, number, turn);
    let groups = drawing.groups(alloc);
    let are_made = are_drawn(alloc, &mut drawing, &groups);
    // (dropped by calls, which are cheaper to prove)
    drop(groups);
    drop(drawing);
    are_made
}

#[test]
fn drawn_lists_are_made_from_seeds(rt: HostRuntime) {
    for number in 0..1000u32 {
        for turn in 1..4u8 {
            assert!(rt; are_made(rt.alloc(), number, turn));
        }
    }
}

// A configuration; how many groups there are, of how many types each, with how many parameters; the index of each function's type, a byte each; and the
// sections that are made of the seed for them, or `none` where there is no seed.
const ROWS: &str = "
    // Parameters have their bound, and types that the configuration enables.
    | 1 1 20 | 00 | 01 18 01 60 14 7b*20 00 functions code
    simd_enabled=no | 1 1 1 | 00 | none
    // Types and functions have their bounds.
    | 100 1 0 | 63*100    | 01 ad 02 64 600000*100 03 65 64 63*100 0a 91 03 64 0300000b*100
    | 100 1 0 | 63*100 00 | none
    | 101 1 0 |           | none
    // Parts that a boolean asks for are left out, and configurations out of reach refused.
    allow_invalid_funcs=yes disallow_traps=yes generate_custom_sections=yes | 1 1 0 | 00 | types functions code
    min_types=1           | 1 1 0 | 00 | none
    export_everything=yes | 1 1 0 | 00 | none
    // The limit of functions is the last that is made.
    max_funcs=2000000 | 1 1 0 | 00*1000000 | types 03 c3 84 3d c0 84 3d 00*1000000 0a 83 92 f4 01 c0 84 3d 0300000b*1000000
    max_funcs=2000000 | 1 1 0 | 00*1000001 | none
    // Many types, functions and groups.
    max_types=1000  | 1000 1 0  |          | 01 ba 17 e8 07 600000*1000
    max_types=10000 | 10000 1 0 |          | 01 b2 ea 01 90 4e 600000*10000
    max_funcs=65536 | 1 1 0     | 00*65536 | types 03 83 80 04 80 80 04 00*65536 0a 83 80 10 80 80 04 0300000b*65536
";

// Returns a group of so many function types with so many parameters.
fn group_of(alloc: Global, types: u64, params: u64) -> Vec<SubType> {
    let mut group = Vec::new(alloc);
    for _ in 0..types {
        let mut vectors = Vec::new(alloc);
        for _ in 0..params {
            put(&mut vectors, ValType::V128);
        }
        put(&mut group, function_type(vectors, Vec::new(alloc)));
    }
    group
}

// Returns so many such groups.
fn groups_of(alloc: Global, count: u64, types: u64, params: u64) -> Vec<Vec<SubType>> {
    let mut groups = Vec::new(alloc);
    for _ in 0..count {
        put(&mut groups, group_of(alloc, types, params));
    }
    groups
}

// Returns the groups of a field.
fn groups_in(alloc: Global, field: &str) -> Option<Vec<Vec<SubType>>> {
    let (count, group) = field.split_once(' ')?;
    let (types, params) = group.split_once(' ')?;
    let (types, params) = (number_of(types)?, number_of(params)?);
    Some(groups_of(alloc, number_of(count)?, types, params))
}

// Returns the functions of a field.
fn functions_in(alloc: Global, field: &str) -> Option<Vec<u32>> {
    let bytes = parts_of(alloc, field)?;
    let mut functions = Vec::new(alloc);
    for index in &bytes {
        put(&mut functions, u32::from(*index));
    }
    Some(functions)
}

// Returns the seed for the groups and functions of two fields, if there is one.
fn seed_of(
    alloc: Global,
    config: &Config,
    groups: &str,
    functions: &str,
) -> Option<Option<Vec<u8>>> {
    let functions = functions_in(alloc, functions)?;
    let groups = groups_in(alloc, groups)?;
    let seed = seed_for(alloc, config, &groups, &functions);
    drop(groups);
    seed.ok()
}

// Checks that a seed makes these sections, or that there is to be none.
fn is_expected(alloc: Global, config: &Config, seed: Option<&[u8]>, expected: &str) -> bool {
    match seed {
        Some(seed) => makes(alloc, config, seed, expected),
        None => expected == "none",
    }
}

// Checks that a row holds.
fn holds(alloc: Global, row: &str) -> Option<bool> {
    let (settings, groups, functions, expected) = four_fields(row)?;
    let config = config_in(settings)?;
    let seed = seed_of(alloc, &config, groups, functions)?;
    Some(is_expected(alloc, &config, seed.as_deref(), expected))
}

#[test]
fn seeds_are_found_within_the_bounds(rt: HostRuntime) -> Result<(), Fail> {
    Ok(check_rows(rt.alloc(), ROWS, 13, holds)?)
}

/// A configuration, groups of types in words, the index of each function's type, and the sections that are made of the seed for them, or `none`.
pub const IN_WORDS: &str = "
    // One function of one type. A group of two types, more parameters than there may be, and an index past the types.
    | func ->         | 0 | types functions code
    default | func -> | 0 | types functions code
    | func ->, func -> | 0 | none
    | func i64*21 ->  | 0 | none
    | func ->         | 1 | none
    // A reference to a type of an earlier group, two types that refer to each other, and one that refers to itself.
    gc_enabled=yes | func -> ; struct 0?    | 0 | 01 09 02 60 00 00 5f 01 63 00 00 functions code
    gc_enabled=yes | struct 1?, struct 0?   |   | 01 0d 01 4e 02 5f 01 63 01 00 5f 01 63 00 00
    gc_enabled=yes | array 0?               |   | 01 05 01 5e 63 00 00
    // A reference to a type of a later group, and one that is never null.
    gc_enabled=yes | array 1? ; func ->     |   | none
    gc_enabled=yes | array 0                |   | none
    // A supertype, and an empty group.
    gc_enabled=yes | open func -> ; sub 0 func -> | | none
    gc_enabled=yes | func -> ; ; func ->    |   | none
    // A function of a type that is a structure, and of one past the types.
    gc_enabled=yes | struct i8              | 0 | none
    gc_enabled=yes | func -> ; struct i8    | 2 | none
    // A reference to continuations.
    stack_switching_enabled=yes | func cont? -> | 0 | 01 05 01 60 01 68 00 functions code
    | func cont? -> | 0 | none
    // By default: a function and a structure that refers to its type, two structures that refer to each other, and an array of itself.
    default | func -> ; struct 0?          | 0 | 01 09 02 60 00 00 5f 01 63 00 00 functions code
    default | struct 1?, struct 0?         |   | 01 0d 01 4e 02 5f 01 63 01 00 5f 01 63 00 00
    default | array 0?                     |   | 01 05 01 5e 63 00 00
    // A reference to a type of a later group, and one that is never null, to a type of its own group and to none.
    default | array 1? ; func ->           |   | none
    default | array 0                      |   | none
    default | func func ->                 |   | none
    // A supertype, an empty group, a function of a type that is a structure, and too many fields.
    default | open func -> ; sub 0 func -> |   | none
    default | func -> ; ; func ->          |   | none
    default | struct i8                    | 0 | none
    default | struct i8 i8 i8 i8 i8 i8 i8 i8 i8 i8 i8 i8 i8 i8 i8 i8 i8 i8 i8 i8 i8 | | none
";

// Checks that the seed for these groups and functions makes these sections, or that there is to be none.
fn is_answer(
    alloc: Global,
    config: &Config,
    (groups, functions): (&[Vec<SubType>], &[u32]),
    expected: &str,
) -> bool {
    match seed_for(alloc, config, groups, functions) {
        Ok(seed) => is_expected(alloc, config, seed.as_deref(), expected),
        Err(_) => false,
    }
}

// Checks that a row with its types in words holds.
fn holds_in_words(alloc: Global, row: &str) -> Option<bool> {
    let (settings, groups, functions, expected) = four_fields(row)?;
    let config = config_in(settings)?;
    let functions = numbers_of(alloc, functions)?;
    let groups = types::groups_of(alloc, groups)?;
    let holds = is_answer(alloc, &config, (&groups, &functions), expected);
    drop(groups);
    Some(holds)
}

#[test]
fn seeds_are_found_for_types_in_words(rt: HostRuntime) -> Result<(), Fail> {
    Ok(check_rows(rt.alloc(), IN_WORDS, 26, holds_in_words)?)
}
