//! For `bench/generate.sh`: cuts a file into seeds of one length and makes a module of each.

use std::alloc::Global;
use std::fs;
use std::rt::Files;
use wasm_gen::error::GenerateError;
use wasm_gen::generate::generate;
use wasm_gen::smith::Config;
use wasm_gen::transfer::{MAX_INPUT, MAX_TURNS, read_whole};

// How many modules were made, and of how many bytes.
#[derive(Default, Drop)]
struct Total {
    modules: u64,
    bytes: u64,
}

/// Makes a module of each seed in the file that the words name, and prints the totals.
pub(crate) fn measure<R: Files + Print + AllocGlobal>(
    rt: &R,
    config: &Config,
    words: &[String],
) -> Option<()> {
    let [name, length] = words else {
        return None;
    };
    let length = length.as_str().parse::<usize>().ok()?;
    let total = total_of_file(rt, config, name.as_str(), length)?;
    println!(rt; "{} modules of {} bytes", total.modules, total.bytes).ok()
}

/// Returns the default configuration where there may be 10,000 types.
pub(crate) fn gc_config() -> Config {
    let mut config = Config::default();
    config.max_types = 10_000;
    config
}

// Reads the file and makes a module of each seed.
fn total_of_file<R: Files + AllocGlobal>(
    rt: &R,
    config: &Config,
    name: &str,
    length: usize,
) -> Option<Total> {
    let alloc = rt.alloc();
    let mut file = fs::open(rt, name).ok()?;
    let bytes = read_whole(alloc, &mut file, MAX_INPUT, MAX_TURNS).ok()?;
    generate_each(alloc, config, &bytes, length).ok()
}

// Makes a module of each seed.
fn generate_each(
    alloc: Global,
    config: &Config,
    bytes: &[u8],
    length: usize,
) -> Result<Total, GenerateError> {
    let mut total = Total::default();
    for seed in bytes.chunks(length.max(1)) {
        add_module(alloc, &mut total, config, seed)?;
    }
    Ok(total)
}

// Makes a module of a seed, and adds it to the totals.
fn add_module(
    alloc: Global,
    total: &mut Total,
    config: &Config,
    seed: &[u8],
) -> Result<(), GenerateError> {
    let module = generate(alloc, config, seed)?;
    total.modules = total.modules.wrapping_add(1);
    total.bytes = total.bytes.wrapping_add(module.len() as u64);
    Ok(())
}
