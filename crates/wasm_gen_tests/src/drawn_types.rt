//! Types that are drawn from seeds.

use crate::generated::{is_accepted, new_module};
use crate::lists::put;
use crate::marks::{Count, are_all_counted, count_module, no_counts};
use crate::numbers::Numbers;
use std::alloc::Global;
use wasm_gen::smith::Config;

const ONES: &[u8] = &[0xff; 4096];

// Checks that the module that is made of so many bytes of ones is accepted.
fn is_front_accepted(alloc: Global, len: usize) -> bool {
    match ONES.get(..len) {
        Some(seed) => is_accepted(alloc, &Config::default(), seed),
        None => false,
    }
}

#[test]
fn modules_of_ones_are_accepted(rt: HostRuntime) {
    for len in 0..64usize {
        assert!(rt; is_front_accepted(rt.alloc(), len));
    }
    for sixteens in 4..257usize {
        assert!(rt; is_front_accepted(rt.alloc(), sixteens * 16));
    }
}

// Returns one of a few maximums of types.
fn drawn_max_types(numbers: &mut Numbers) -> u32 {
    match numbers.below(16) {
        14 => 10,
        15 => 100,
        small => small / 2,
    }
}

// Returns a configuration in which the bits of a number turn features off.
fn drawn_config(numbers: &mut Numbers) -> Config {
    let mut config = Config::default();
    config.max_types = drawn_max_types(numbers);
    let bits = numbers.byte(0);
    config.allow_floats = bits & 1 == 0;
    config.simd_enabled = bits & 2 == 0;
    config.multi_value_enabled = bits & 4 == 0;
    config.exceptions_enabled = bits & 8 == 0;
    config.stack_switching_enabled = bits & 16 == 0;
    // Without references there is no garbage collection either.
    config.reference_types_enabled = bits & 224 != 0;
    config
}

// Returns at most 200 bytes. Those of two thirds of the seeds are odd more often, so that growing goes on.
fn drawn_seed(alloc: Global, numbers: &mut Numbers) -> Vec<u8> {
    let (len, made_odd) = (numbers.below(201), numbers.below(3).wrapping_mul(3));
    let mut seed = Vec::new(alloc);
    for _ in 0..len {
        put(&mut seed, numbers.byte(made_odd));
    }
    seed
}

// Counts what the types of the module that is made of the seed have. Returns false where none is made.
fn count_made(alloc: Global, counts: &mut [Count], config: &Config, seed: &[u8]) -> bool {
    let made = new_module(alloc, config, seed);
    let is_made = match &made {
        Ok(module) => {
            count_module(alloc, counts, module.types(), module.group_sizes());
            true
        }
        Err(_) => false,
    };
    // (dropped by a call, which is cheaper to prove)
    drop(made);
    is_made
}

// Checks that the module of the next configuration and seed is accepted, and counts it.
fn is_next_accepted(alloc: Global, counts: &mut [Count], numbers: &mut Numbers) -> bool {
    let config = drawn_config(numbers);
    let seed = drawn_seed(alloc, numbers);
    is_accepted(alloc, &config, &seed) && count_made(alloc, counts, &config, &seed)
}

// Checks that so many modules are accepted, and that each mark is on one of them.
fn are_accepted(alloc: Global, counts: &mut [Count], modules: u32) -> bool {
    let mut numbers = Numbers::new(20);
    for _ in 0..modules {
        if !is_next_accepted(alloc, counts, &mut numbers) {
            return false;
        }
    }
    are_all_counted(counts)
}

#[test]
fn modules_of_drawn_seeds_are_accepted(rt: HostRuntime) {
    let mut counts = no_counts(rt.alloc());
    let holds = are_accepted(rt.alloc(), &mut counts, 20_000);
    assert!(rt; holds, "{counts:?}");
}
