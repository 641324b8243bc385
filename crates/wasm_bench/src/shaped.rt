//! For `bench/hostile.sh`: makes the module of each line of a file, which has settings, shapes and a seed in words, and prints its features and its bytes.

use std::alloc::Global;
use std::fs;
use std::rt::Files;
use wasm_core::features::Flags;
use wasm_gen::generate::generate;
use wasm_gen::smith::Config;
use wasm_smith_config_rows::settings::config_in;
use wasm_smith_config_rows::shaped::with_shapes;
use wasm_test_rows::fields::three_fields;
use wasm_test_rows::values::bytes_of;

/// Makes the modules of the file that the words name. A line that doesn't read ends it.
pub(crate) fn print_modules<R: Files + Print + AllocGlobal>(
    rt: &R,
    words: &[String],
) -> Option<()> {
    let [name] = words else {
        return None;
    };
    let bytes = fs::read(rt, name.as_str()).ok()?;
    let text = str::from_utf8(&bytes).ok()?;
    for row in text.lines() {
        print_made(rt, row)?;
    }
    Some(())
}

// Prints the features and the bytes of a row's module in hexadecimal digits, or why none is made.
fn print_made<R: Print + AllocGlobal>(rt: &R, row: &str) -> Option<()> {
    let alloc = rt.alloc();
    let (settings, shapes, seed) = three_fields(row)?;
    let config = with_shapes(alloc, config_in(settings)?, shapes)?;
    let seed = bytes_of(alloc, seed)?;
    match generate(alloc, &config, &seed) {
        Ok(module) => {
            let digits = hex::encode(alloc, &module).ok()?;
            println!(rt; "made {} {}", features_of(config), digits).ok()
        }
        Err(e) => println!(rt; "{}", e).ok(),
    }
}

// Returns the features of a configuration's modules, each as a bit.
fn features_of(config: Config) -> u32 {
    let mut config = config;
    config.sanitize();
    config.features().bits()
}
