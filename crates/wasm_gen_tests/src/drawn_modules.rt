//! Modules of configurations and seeds that are drawn.

use crate::generated::{is_answered, new_module};
use crate::lists::put;
use crate::numbers::Numbers;
use crate::parts::{PartCount, are_all_there, count_parts, no_parts};
use std::alloc::Global;
use wasm_gen::error::GenerateError;
use wasm_gen::generate::generate;
use wasm_gen::smith::{Config, Error, Unstructured};
use wasm_smith::module::Module;

/// Returns so many bytes, which are odd in so many more of eight draws.
pub fn drawn_bytes(alloc: Global, numbers: &mut Numbers, len: u32, made_odd: u32) -> Vec<u8> {
    let mut bytes = Vec::new(alloc);
    for _ in 0..len {
        put(&mut bytes, numbers.byte(made_odd));
    }
    bytes
}

/// Returns a configuration.
pub fn drawn_config(alloc: Global, numbers: &mut Numbers) -> Config {
    let bytes = drawn_bytes(alloc, numbers, 64, 2);
    Config::arbitrary(&mut Unstructured::new(&bytes))
}

/// Returns 10 to 4,000 bytes. Those of two thirds of the seeds are odd more often, so that growing goes on.
pub fn drawn_seed(alloc: Global, numbers: &mut Numbers) -> Vec<u8> {
    let len = numbers.below(3991).wrapping_add(10);
    let made_odd = numbers.below(3).wrapping_mul(2);
    drawn_bytes(alloc, numbers, len, made_odd)
}

// Returns what a session may answer for a module of the configuration. Bodies of raw bytes needn't be valid.
fn answer_for(config: &Config) -> &'static str {
    if config.allow_invalid_funcs {
        "yes Operator Body"
    } else {
        "yes"
    }
}

// Checks that a module is made of the seed, and answered so. Where everything is exported, it may be too much.
fn is_made(alloc: Global, config: &Config, seed: &[u8]) -> bool {
    match generate(alloc, config, seed) {
        Ok(made) => is_answered(alloc, config, &made, answer_for(config)),
        Err(e) => config.export_everything && e == GenerateError::TypeSize,
    }
}

// Counts what the module that is made of the seed has.
fn count_made(alloc: Global, counts: &mut [PartCount], config: &Config, seed: &[u8]) {
    let made = new_module(alloc, config, seed);
    if let Ok(module) = &made {
        count_parts(counts, module);
    }
    // (dropped by a call, which is cheaper to prove)
    drop(made);
}

// Checks that so many modules are made, and that each part is in one of them.
fn are_made(alloc: Global, counts: &mut [PartCount], modules: u32) -> bool {
    let mut numbers = Numbers::new(21);
    for _ in 0..modules {
        let config = drawn_config(alloc, &mut numbers);
        let seed = drawn_seed(alloc, &mut numbers);
        if !is_made(alloc, &config, &seed) {
            return false;
        }
        count_made(alloc, counts, &config, &seed);
    }
    are_all_there(counts)
}

#[test]
fn modules_of_drawn_configurations_are_made(rt: HostRuntime) {
    let mut counts = no_parts(rt.alloc());
    let holds = are_made(rt.alloc(), &mut counts, 20_000);
    assert!(rt; holds, "{counts:?}");
}

// Checks that each part is in one of so many modules of the default configuration with all that it leaves out.
fn are_reached(alloc: Global, counts: &mut [PartCount], modules: u32) -> bool {
    let mut config = Config::default();
    config.compact_imports_enabled = true;
    config.allow_invalid_funcs = true;
    config.generate_custom_sections = true;
    let mut numbers = Numbers::new(22);
    for _ in 0..modules {
        let seed = drawn_seed(alloc, &mut numbers);
        count_made(alloc, counts, &config, &seed);
    }
    are_all_there(counts)
}

#[test]
fn each_part_is_reached(rt: HostRuntime) {
    let mut counts = no_parts(rt.alloc());
    let holds = are_reached(rt.alloc(), &mut counts, 10_000);
    assert!(rt; holds, "{counts:?}");
}

// Checks that the bytes of a module are answered under the features of its configuration.
fn is_written_so(alloc: Global, module: &Module) -> bool {
    let config = module.config();
    match module.to_bytes(alloc) {
        Ok(bytes) => is_answered(alloc, config, &bytes, answer_for(config)),
        Err(_) => false,
    }
}

// Checks that a module is made of a source, and of a configuration that is drawn from it first.
fn is_arbitrary_made(alloc: Global, source: &[u8]) -> bool {
    let made = Module::arbitrary(alloc, &mut Unstructured::new(source));
    let holds = match &made {
        Ok(module) => is_written_so(alloc, module),
        Err(e) => *e == Error::TypeSize,
    };
    // (dropped by a call, which is cheaper to prove)
    drop(made);
    holds
}

fn are_arbitrary_made(alloc: Global, sources: u32) -> bool {
    let mut numbers = Numbers::new(23);
    for _ in 0..sources {
        let source = drawn_seed(alloc, &mut numbers);
        if !is_arbitrary_made(alloc, &source) {
            return false;
        }
    }
    true
}

#[test]
fn arbitrary_modules_are_made(rt: HostRuntime) {
    assert!(rt; are_arbitrary_made(rt.alloc(), 2_000));
}
