//! For `bench/check.sh`, `bench/sections.sh`, `bench/types.sh` and `bench/harness.sh`: reads a file once, validates it so many times, and prints
//! the verdict and the shortest time.

use crate::shortest::tell_shortest;
use std::alloc::Global;
use std::fs;
use std::rt::{Clock, Files};
use wasm_gen_c_api::check::{check, default_features};
use wasm_gen_c_api::codes::code_name;

/// Prints the verdict on the file that the words name, and the shortest time, where it is timed at all.
pub(crate) fn measure<R: Files + Print + Clock + AllocGlobal>(
    rt: &R,
    words: &[String],
) -> Option<()> {
    let [name, times] = words else {
        return None;
    };
    let times = times.as_str().parse::<u32>().ok()?;
    let bytes = fs::read(rt, name.as_str()).ok()?;
    tell(rt, &bytes, times)
}

fn tell<R: Print + Clock + AllocGlobal>(rt: &R, bytes: &[u8], times: u32) -> Option<()> {
    let alloc = rt.alloc();
    let verdict = verdict_on(alloc, bytes);
    println!(rt; "{}", verdict).ok()?;
    tell_shortest(rt, times, || {
        if verdict_on(alloc, bytes) == verdict {
            Some(())
        } else {
            None
        }
    })
}

// Returns what a validator of its own says of a module: `yes`, or the kind of the refusal.
fn verdict_on(alloc: Global, bytes: &[u8]) -> &'static str {
    code_name(check(alloc, bytes, default_features()).kind)
}
