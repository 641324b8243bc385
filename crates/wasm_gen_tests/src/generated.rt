//! Seeds, and the modules that are made of them.

use std::alloc::Global;
use std::test::Fail;
use wasm_core::features::WasmFeatures;
use wasm_gen::error::GenerateError;
use wasm_gen::generate::generate;
use wasm_gen::smith::{Config, Error, Unstructured};
use wasm_gen_rows::answers::answers_under;
use wasm_gen_rows::modules::{module_of, parts_of};
use wasm_smith::module::Module;
use wasm_smith_config_rows::settings::{config_in, plain_config};
use wasm_test_rows::fields::three_fields;
use wasm_test_rows::rows::check_rows;

/// A configuration, a seed, and the sections that are made of it, or why none are.
pub const ROWS: &str = "
    |                                     |
    | 01 00 00 00 01                      | types functions code
    | 01 01 00 00 00 00 01                | 01 05 01 60 01 7f 00 functions code
    | 01 00 00 00 01 00 01 04             | types functions 0a 07 01 05 01 01 7b 00 0b
    // Neighbours of one type are one run of locals.
    | 01 00 00 00 01 00 01 00 01 00 01 03 | types functions 0a 09 01 07 02 02 7f 01 7c 00 0b
    // Minimums are met without a seed.
    min_types=2                         | | two-types
    // Refusals.
    max_types=0 min_funcs=1             | | refused: minimum
    max_types=0 min_types=1             | | refused: config min_types
    // With garbage collection: an open structure and its clone, two structures that refer to each other, an array of itself and its clone, whose
    // reference is shifted, and an open array and a type below it whose elements are never null.
    gc_enabled=yes | 01 00 01 01 01 01 01 00 01 01                            | 01 0d 02 50 00 5f 01 78 01 50 00 5f 01 78 01
    gc_enabled=yes | 01 01 00 01 01 00 05 00 01 01 00 00 00 01 01 00 05 00 01 | 01 0d 01 4e 02 5f 01 63 01 00 5f 01 63 00 00
    gc_enabled=yes | 01 00 00 02 00 05 00 01 00 01 01 00                      | 01 09 02 5e 63 00 00 5e 63 01 00
    gc_enabled=yes | 01 00 01 02 00 05 00 00 00 00 01 00 00 01 00 01          | 01 0d 02 50 00 5e 70 00 4f 01 00 5e 64 70 00
    // A reference to continuations.
    stack_switching_enabled=yes | 01 01 05 03 00 00 00 01 | 01 05 01 60 01 68 00 functions code
    // A structure alone, of which there is no function, and a group of more types than the limit, which is never made.
    gc_enabled=yes min_funcs=1                         | 01 00 00 01 00 00 | refused: minimum
    gc_enabled=yes max_types=2147483648                | 01 7f ff ff ff    | refused: limit Types
    // By default: nothing, a function, and a memory that is exported.
    default | |
    default | 01 00 00 00 00 00 00 00 00 01          | types functions code
    default | 00 00 00 01 00 00 00 01 00 00 01 61 01 | 05 03 01 00 01 07 05 01 01 61 02 00
    // A function that is started, a table, a tag, a global, and a segment with the function.
    default | 01 00 00 00 00 00 00 00 01 00 01 00 01 00 00 00 00 00 00 01 00 00 00 01 00 01 00 07 00 00 00 00 00 01 01 00 01 01 | 01 04 01 60 00 00 03 02 01 00 04 04 01 70 00 01 0d 03 01 00 00 06 06 01 7f 01 41 07 0b 08 01 00 09 07 01 00 41 00 0b 01 00 0a 05 01 03 00 00 0b
    // Types alone.
    default | 01 00 01 01 01 01 01 00 01 01                            | 01 0d 02 50 00 5f 01 78 01 50 00 5f 01 78 01
    default | 01 01 00 01 01 00 05 00 01 01 00 00 00 01 01 00 05 00 01 | 01 0d 01 4e 02 5f 01 63 01 00 5f 01 63 00 00
    // Imports, one by itself and one of a list.
    default                             | 00 01 02 00 00 00 00 00 6d 66 01 01          | 02 08 01 01 6d 01 66 02 00 00
    default compact_imports_enabled=yes | 00 01 01 6d 02 00 00 00 00 00 61 00 01 01    | 02 0b 01 01 6d 00 7f 01 01 61 02 00 00
    // A global of a difference, and one of the first's value; and a passive segment.
    default | 00 00 00 00 01 00 00 01 01 05 00 00 00 02 00 00 00 01 00 00 02 | 06 0e 02 7f 00 41 05 41 02 6b 0b 7f 00 23 00 0b
    default | 00 00 00 00 00 00 01 61 62 02                                  | 0c 01 01 0b 05 01 01 02 61 62
    // Refusals, and memories that may be more than their limit.
    default min_types=1 max_types=0           | | refused: config min_types
    default min_funcs=1 max_types=0           | | refused: minimum
    default min_memories=101 max_memories=101 | | refused: limit Memories
    default max_memories=101                  | |
    // Minimums in the billions: past their maximum, of what can't be made, and of the items of segments, where there is none.
    default min_memories=2147483649 max_memories=2147483648       | | refused: config min_memories
    default max_types=0 min_funcs=2147483648 max_funcs=2147483648 | | refused: minimum
    default min_elements=2147483648 max_elements=2147483648       | |
";

/// The same of items of each kind.
pub const ITEMS: &str = "
    // An import, element segments of constants, an export, operations, clones, data without a memory, names with a number, and an active segment.
    default | 00 01 | 02 06 01 00 00 03 7f 00
    default | 00 00 01 00 00 00 00 00 00 00 00 00 00 00 01 02 00 01 01 00 01 01 | 04 04 01 70 00 00 09 0a 02 07 6f 01 d0 6f 0b 05 70 00
    default | 00 00 00 01 00 00 00 00 00 00 01 | 05 03 01 00 00 07 04 01 00 02 00
    default | 00 00 00 00 01 01 00 01 00 00 00 00 00 00 00 00 00 00 00 00 00 00 00 00 00 01 00 00 01 01 | 06 11 02 7e 00 42 00 42 00 7c 0b 7f 00 41 00 41 00 6b 0b
    default | 01 00 00 01 00 01 01 00 01 01 | 01 05 02 5f 00 5f 00 02 07 01 00 00 01 70 00 00
    default | 00 00 00 00 01 02 00 00 00 00 00 01 00 00 00 00 00 00 00 00 01 00 00 00 00 01 01 | 06 0e 02 7d 00 43 00 00 00 00 0b 7f 00 41 00 0b 07 05 01 01 00 03 00 0c 01 01 0b 03 01 01 00
    default | 00 00 01 00 00 00 00 00 00 01 00 00 00 01 00 00 01 01 | 04 0a 01 40 00 70 01 00 00 d0 70 0b 07 08 02 00 01 00 01 31 01 00
    default | 00 01 47 00 00 00 00 00 01 01 00 00 01 00 00 00 00 00 00 00 00 00 01 00 7a 00 00 | 02 0e 02 00 00 02 00 00 02 00 00 00 01 70 04 00 09 06 01 04 42 00 0b 00
    // An imported tag and a supertype, the value of a global, a product, references to a function, a vector, exports by kind, and a start function.
    default | 01 01 01 00 01 00 00 00 01 00 00 01 01 00 00 00 00 00 00 01 03 01 | 01 10 01 4e 02 50 00 60 01 7f 00 4f 01 00 60 01 7f 00 02 0a 01 01 00 03 00 00 00 04 00 00 0d 03 01 00 00
    default | 00 00 01 00 00 00 00 00 00 00 00 00 01 03 00 00 00 00 00 00 00 00 00 01 03 00 01 01 05 00 00 00 00 01 00 00 01 01 00 00 01 00 | 04 04 01 70 00 00 06 17 03 7c 00 44 00 00 00 00 00 00 00 00 0b 7c 00 23 00 0b 70 00 d0 70 0b 07 04 01 00 01 00 09 04 01 01 00 00
    default | 00 00 01 00 00 00 00 00 00 00 00 01 01 00 00 00 00 00 00 00 00 00 00 01 00 01 00 00 00 00 00 00 01 01 00 01 00 01 02 00 01 | 04 04 01 70 00 00 05 03 01 04 00 09 06 01 00 41 00 0b 00 0c 01 02 0b 0c 02 01 01 00 00 42 00 42 00 7e 0b 00
    default | 01 00 00 00 01 05 00 00 00 00 00 00 00 00 01 00 01 00 00 00 00 00 00 00 00 01 01 00 00 01 | 01 05 01 60 01 70 00 03 02 01 00 04 09 01 40 00 70 00 00 d2 00 0b 07 04 01 00 00 00 0a 05 01 03 00 00 0b
    default | 00 00 00 00 01 fa 00 00 00 00 00 00 00 00 00 00 00 00 00 00 00 00 00 00 00 01 01 00 00 01 | 06 16 01 7b 00 fd 0c 00 00 00 00 00 00 00 00 00 00 00 00 00 00 00 00 0b 09 04 01 03 00 00
    default | 01 00 00 00 00 00 01 01 01 01 00 00 01 00 00 00 00 01 00 00 01 00 00 00 00 00 01 00 00 01 00 00 00 00 00 00 00 00 00 00 00 00 00 00 00 00 00 00 00 00 00 00 01 01 00 00 00 00 00 00 00 00 00 00 00 7a 00 00 01 | 01 0a 03 60 00 00 60 00 00 60 00 00 02 06 01 01 00 00 00 00 03 02 01 00 0d 03 01 00 00 07 1f 03 00 00 00 14 00 00 00 00 00 00 00 00 00 00 00 00 00 00 00 00 00 00 00 00 00 00 01 32 04 00 0a 05 01 03 00 00 0b
    default | 01 00 00 00 00 00 00 00 00 01 00 00 00 00 00 01 | 01 04 01 60 00 00 03 02 01 00 08 01 00 0a 05 01 03 00 00 0b
    // A function type, one below it and its clone; and a group of a structure and an array that refer to each other, its clone, and a structure below that of
    // the clone.
    default | 01 00 01 00 01 05 01 00 00 00 01 05 00 00 01 00 01 00 00 01 00 01 01 01 01 00 00 01 01 00 01 05 00 01 02 00 | 01 1a 03 50 00 60 01 64 70 01 6f 4f 01 00 60 01 70 01 64 6f 50 00 60 01 64 70 01 6f 02 0c 02 00 02 05 00 03 7f 01 00 00 00 00
    default | 01 01 01 01 01 00 05 00 01 01 00 00 00 00 02 00 05 00 01 00 00 01 01 01 00 00 01 01 00 01 01 01 01 00 00 | 01 25 03 4e 02 50 00 5f 01 63 01 00 5e 63 00 00 4e 02 50 00 5f 01 63 03 00 5e 63 02 00 4f 01 02 5f 02 64 03 00 78 01
    // Functions with locals, one of which refers to a type.
    default | 01 00 00 00 00 00 00 00 00 01 00 00 00 00 00 00 00 00 01 00 01 00 01 03 | 01 04 01 60 00 00 03 02 01 00 0a 09 01 07 02 02 7f 01 7c 00 0b
    default | 01 00 00 01 00 01 00 00 00 00 00 00 00 00 00 01 00 00 00 00 00 00 00 00 01 05 01 01 01 | 01 06 02 5f 00 60 00 00 03 02 01 01 0a 08 01 06 01 01 64 01 00 0b
    // Imports that share the name of their module, and their type too.
    default compact_imports_enabled=yes | 00 01 01 00 00 00 00 01 2c 00 00 | 02 11 02 00 00 7f 01 00 03 7f 00 00 00 7e 03 7f 00 01 00
";

// The same of many types and functions.
const MANY: &str = "
    min_types=10000 max_types=10000     | | 01 b2 ea 01 90 4e 600000*10000
    min_types=1000000 max_types=1000000 | | 01 c3 8d b7 01 c0 84 3d 600000*1000000
    min_types=1 min_funcs=65536 max_funcs=65536 | | types 03 83 80 04 80 80 04 00*65536 0a 83 80 10 80 80 04 0300000b*65536
    // More types than the limit.
    min_types=1000001 max_types=1000001 | | refused: limit Types
    gc_enabled=yes min_types=1000001 max_types=1000001 |                   | refused: limit Types
";

/// Makes a module for a copy of the configuration.
pub fn new_module(alloc: Global, config: &Config, seed: &[u8]) -> Result<Module, Error> {
    let config = config.try_clone(alloc)?;
    Module::new(alloc, config, &mut Unstructured::new(seed))
}

/// Returns the features of what is made for the configuration.
pub fn features_of(alloc: Global, config: &Config) -> Option<WasmFeatures> {
    let mut config = config.try_clone(alloc).ok()?;
    config.sanitize();
    Some(config.features())
}

/// Checks that a new session with the features of the configuration answers so of a module.
pub fn is_answered(alloc: Global, config: &Config, module: &[u8], answer: &str) -> bool {
    match features_of(alloc, config) {
        Some(features) => answers_under(alloc, features, module, answer),
        None => false,
    }
}

/// Checks that a new session with the features of the configuration accepts a module.
pub fn is_valid(alloc: Global, config: &Config, module: &[u8]) -> bool {
    is_answered(alloc, config, module, "yes")
}

/// Checks that these are the bytes of the header and the sections of a field.
pub fn is_module_of(alloc: Global, bytes: &[u8], field: &str) -> bool {
    match module_of(alloc, field) {
        Some(module) => module.as_slice() == bytes,
        None => false,
    }
}

/// Checks that a field says that nothing is made, and why.
pub fn is_refusal(alloc: Global, error: GenerateError, field: &str) -> bool {
    match (field.strip_prefix("refused: "), error.to_string(alloc)) {
        (Some(expected), Ok(found)) => found.as_str() == expected,
        _ => false,
    }
}

/// Checks that exactly these sections are made of the seed, or that it is refused so.
pub fn makes(alloc: Global, config: &Config, seed: &[u8], expected: &str) -> bool {
    match generate(alloc, config, seed) {
        Ok(made) => is_module_of(alloc, &made, expected) && is_valid(alloc, config, &made),
        Err(e) => is_refusal(alloc, e, expected),
    }
}

/// Checks that a module is made of the seed, and that a new session with its features accepts it.
pub fn is_accepted(alloc: Global, config: &Config, seed: &[u8]) -> bool {
    match generate(alloc, config, seed) {
        Ok(made) => is_valid(alloc, config, &made),
        Err(_) => false,
    }
}

// Checks that a module is made of each shorter front of the seed, and accepted.
fn are_fronts_accepted(alloc: Global, config: &Config, seed: &[u8]) -> bool {
    for len in 0..seed.len() {
        if !is_accepted(alloc, config, &seed[..len]) {
            return false;
        }
    }
    true
}

/// Checks that a module is made of the seed and of each of its fronts by default, and accepted.
pub fn are_fronts_made(alloc: Global, seed: &[u8]) -> bool {
    let config = Config::default();
    is_accepted(alloc, &config, seed) && are_fronts_accepted(alloc, &config, seed)
}

// Checks that one is made of each shorter front for the configuration, too, where one is made of the whole.
fn are_made_for(alloc: Global, config: &Config, seed: &[u8], expected: &str) -> bool {
    expected.starts_with("refused") || are_fronts_accepted(alloc, config, seed)
}

// Checks that a row holds.
fn holds(alloc: Global, row: &str) -> Option<bool> {
    let (settings, seed, expected) = three_fields(row)?;
    let config = config_in(settings)?;
    let seed = parts_of(alloc, seed)?;
    let is_made = makes(alloc, &config, &seed, expected);
    let are_made = are_made_for(alloc, &config, &seed, expected);
    Some(is_made && are_made && are_fronts_made(alloc, &seed))
}

#[test]
fn seeds_make_these_modules(rt: HostRuntime) -> Result<(), Fail> {
    check_rows(rt.alloc(), ROWS, 32, holds)?;
    check_rows(rt.alloc(), ITEMS, 20, holds)?;
    Ok(check_rows(rt.alloc(), MANY, 5, holds)?)
}

#[test]
fn modules_of_one_byte_are_accepted(rt: HostRuntime) {
    for byte in 0..=255u8 {
        assert!(rt; is_accepted(rt.alloc(), &Config::default(), &[byte]));
    }
}

#[test]
fn module_of_a_long_seed_is_accepted(rt: HostRuntime) {
    assert!(rt; is_accepted(rt.alloc(), &Config::default(), &[0xff; 4096]));
}

// Returns seeds of one pattern each, so that types, functions and locals come of them.
fn patterned(alloc: Global, step: u8) -> Vec<u8> {
    let mut seed = Vec::new(alloc);
    let mut byte = step;
    for _ in 0..400 {
        let _is_there = seed.push(byte).is_ok();
        byte = byte.wrapping_mul(5).wrapping_add(step);
    }
    seed
}

// Returns a configuration in which the bits of a number turn features off.
fn turned(bits: u8) -> Config {
    let mut config = plain_config();
    config.allow_floats = bits & 1 == 0;
    config.simd_enabled = bits & 2 == 0;
    config.reference_types_enabled = bits & 4 == 0;
    config.multi_value_enabled = bits & 8 == 0;
    config.exceptions_enabled = bits & 16 == 0;
    config.min_types = 3;
    config.min_funcs = 2;
    config
}

// Checks that a module of this configuration and this seed is accepted.
fn is_turned_accepted(alloc: Global, bits: u8, step: u8) -> bool {
    is_accepted(alloc, &turned(bits), &patterned(alloc, step))
}

#[test]
fn modules_of_other_configurations_are_accepted(rt: HostRuntime) {
    for bits in 0..32u8 {
        for step in [1u8, 3, 7, 11] {
            assert!(rt; is_turned_accepted(rt.alloc(), bits, step));
        }
    }
}
