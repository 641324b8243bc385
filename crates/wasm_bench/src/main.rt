//! The program that the scripts in `bench/` time or call. Its first word names the file here that does it; the word `then` parts one measurement
//! from the next. Parsing has a program of its own, `wasmparser_parse_bench`: beside the validator, which calls the same readers, the compiler
//! inlines fewer of them, and going over imports takes five times as long.
#![tactic(auto)]

mod check;
mod encode;
mod generate;
mod numbers;
mod sections;
mod session;
mod shaped;
mod shortest;

use std::env;
use std::process::ExitCode;
use std::rt::{Clock, Env, Files};
use wasm_gen::smith::Config;

const USAGE: &str = "\
usage: wasm_bench (generate|generate-gc) FILE LENGTH
       wasm_bench session MODULES
       wasm_bench shaped FILE
       wasm_bench check FILE TIMES
       wasm_bench encode KIND COUNT TIMES
       wasm_bench numbers (u32|s64) (short|long) COUNT TIMES
       wasm_bench ONE OF THESE then ANOTHER ..";

fn main(rt: HostRuntime) -> ExitCode {
    match run(&rt) {
        Some(()) => ExitCode::SUCCESS,
        None => {
            let _ = eprintln!(rt; "{}", USAGE);
            ExitCode::FAILURE
        }
    }
}

// Measures as the program's words say.
fn run<R: Env + Files + Print + Clock + AllocGlobal>(rt: &R) -> Option<()> {
    let args = env::args(rt).ok()?;
    let words = args.collect::<Vec<String>>(rt.alloc()).ok()?;
    measure_each(rt, words.as_slice())
}

// Measures one thing after the other. The first word is the program's own name.
fn measure_each<R: Files + Print + Clock + AllocGlobal>(rt: &R, words: &[String]) -> Option<()> {
    let [_, words @ ..] = words else {
        return None;
    };
    for words in words.split(|word| word.as_str() == "then") {
        measure(rt, words)?;
    }
    Some(())
}

fn measure<R: Files + Print + Clock + AllocGlobal>(rt: &R, words: &[String]) -> Option<()> {
    let [what, words @ ..] = words else {
        return None;
    };
    match what.as_str() {
        "generate" => generate::measure(rt, &Config::default(), words),
        "generate-gc" => generate::measure(rt, &generate::gc_config(), words),
        "session" => session::measure(rt, words),
        "shaped" => shaped::print_modules(rt, words),
        "check" => check::measure(rt, words),
        "encode" => encode::measure(rt, words),
        "numbers" => numbers::measure(rt, words),
        _ => None,
    }
}
