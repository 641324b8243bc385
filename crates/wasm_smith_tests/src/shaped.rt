//! Modules that are made for shapes.

use crate::module::new_module;
use std::alloc::Global;
use std::test::Fail;
use wasm_smith::config::Config;
use wasm_smith::error::Error;
use wasm_smith::module::Module;
use wasm_smith_config_rows::settings::config_of;
use wasm_smith_config_rows::shaped::with_shapes;
use wasm_test_rows::fields::four_fields;
use wasm_test_rows::rows::check_rows;
use wasm_test_rows::shown::displays;
use wasm_test_rows::values::bytes_of;

/// Settings of the default configuration, its shapes, the bytes, and those of the module that is made, or why none is.
pub const MADE: &str = "
    // All of a module: imports of each form, types that refer to one another, and an item of each kind for exports.
    | module func -> ; / / f func 0, t table func 0.. | | 0061736d01000000 01 04 01 60 00 00 03 02 01 00 04 0a 01 40 00 64 70 00 00 d2 00 0b 07 09 02 01 66 00 00 01 74 01 00 0a 05 01 03 00 00 0b
    compact_imports_enabled=yes max_memories=3 | module / many m : a memory 0.. ; many m : ; same n memory 1.. : b c ; same m memory 0.. : ; / | 00*512 | 0061736d01000000 02 17 02 01 6d 00 7f 01 01 61 02 00 00 01 6e 00 7e 02 00 01 02 01 62 01 63
    max_memories=3 | module / many m : a memory 0.. ; many m : ; same n memory 1.. : b c ; same m memory 0.. : ; / | 00*512 | 0061736d01000000 02 16 03 01 6d 01 61 02 00 00 01 6e 01 62 02 00 01 01 6e 01 63 02 00 01
    | module open struct i8 ; sub 0 struct i8 mut:1?, func 0 -> ; / one m g global 1? ; / h global 2? | | 0061736d01000000 01 18 02 50 00 5f 01 78 00 4e 02 4f 01 00 5f 02 78 00 63 01 01 60 01 64 00 00 02 09 01 01 6d 01 67 03 63 01 00 06 07 01 63 02 00 d0 02 0b 07 05 01 01 68 03 01
    // Some imports, and exports, whose types stand behind a structure that is drawn.
    | imports struct ; func -> ; / one m t table 0? 0.. ; one m f func 1 ; one m g global 0? ; one m e tag 1 ; / | 01 00 00 01 00 00 01 01 01 01 | 0061736d01000000 01 08 03 5f 00 5f 00 60 00 00 02 1f 04 01 6d 01 74 01 63 01 00 00 01 6d 01 66 00 02 01 6d 01 67 03 63 01 00 01 6d 01 65 04 00 02
    | exports func -> ; / / f func 0, t tag 0, u table func? 1.., m memory 2.., g global i64 | 01 00 00 01 00 00 | 0061736d01000000 01 06 02 5f 00 60 00 00 03 02 01 01 04 04 01 70 00 01 05 03 01 00 02 0d 03 01 00 01 06 06 01 7e 00 42 00 0b 07 15 05 01 66 00 00 01 74 04 00 01 75 01 00 01 6d 02 00 01 67 03 00 0a 05 01 03 00 00 0b
    | imports func -> ; / one m f func 0 ; / & exports func i32 -> ; / / g func 0 | 01 00 00 01 00 00 01 | 0061736d01000000 01 0a 03 5f 00 60 00 00 60 01 7f 00 02 07 01 01 6d 01 66 00 01 03 02 01 02 07 05 01 01 67 00 01 0a 05 01 03 00 00 0b
    // Refusals.
    | module func 1? -> ; / / | | refused: bad shape: groups
    | imports / one m f func 0 ; / | | refused: bad shape: imports
    | exports / / f func 0 | | refused: bad shape: exports
    | imports / one m a memory 0.. ; / & exports / / b memory 0.. | | refused: bad shape: together
    | module / / & exports / / | | refused: bad configuration: module_shape
    | module / / g global extern | | refused: nothing to choose from
    min_types=2 | module func -> ; / / | | refused: incorrect format
";

/// Checks that a module is written as these bytes.
pub fn is_written(alloc: Global, module: &Module, expected: &str) -> bool {
    match (module.to_bytes(alloc), bytes_of(alloc, expected)) {
        (Ok(bytes), Some(expected)) => bytes.as_slice() == expected.as_slice(),
        _ => false,
    }
}

/// Checks that this is the reason that a field gives.
pub fn is_reason(alloc: Global, error: Error, field: &str) -> bool {
    match field.strip_prefix("refused: ") {
        Some(reason) => displays(alloc, &error, reason),
        None => false,
    }
}

/// Returns the default configuration with these settings and shapes.
pub fn shaped_config(alloc: Global, settings: &str, shapes: &str) -> Option<Config> {
    with_shapes(alloc, config_of(Config::default(), settings)?, shapes)
}

// Checks that what is expected is made of the bytes, or the reason of the refusal is.
fn makes(alloc: Global, config: &Config, bytes: &[u8], expected: &str) -> bool {
    let made = new_module(alloc, config, bytes);
    let holds = match &made {
        Ok(module) => is_written(alloc, module, expected),
        Err(error) => is_reason(alloc, *error, expected),
    };
    // (dropped by a call, which is cheaper to prove)
    drop(made);
    holds
}

fn holds(alloc: Global, row: &str) -> Option<bool> {
    let (settings, shapes, bytes, expected) = four_fields(row)?;
    let config = shaped_config(alloc, settings, shapes)?;
    let bytes = bytes_of(alloc, bytes)?;
    Some(makes(alloc, &config, &bytes, expected))
}

#[test]
fn modules_are_made_for_shapes(rt: HostRuntime) -> Result<(), Fail> {
    Ok(check_rows(rt.alloc(), MADE, 14, holds)?)
}
