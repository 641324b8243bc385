//! The program of `bench/parse.sh` and `bench/real_modules.sh`: goes over the payloads of a module and the items of each section, or
//! prints the payloads.
#![tactic(auto)]

mod items;
mod lines;

use crate::items::count_items;
use crate::lines::print_payload;
use std::alloc::Global;
use std::process::ExitCode;
use std::rt::{Env, Files};
use std::{env, fs};
use wasmparser_payloads::parser::Parser;

fn main(rt: HostRuntime) -> ExitCode {
    match run(&rt) {
        Some(()) => ExitCode::SUCCESS,
        None => {
            let _ = eprintln!(rt; "usage: wasmparser_parse_bench FILE TIMES|show");
            ExitCode::FAILURE
        }
    }
}

// Runs as the program's words say.
fn run<R: Env + Files + Print + AllocGlobal>(rt: &R) -> Option<()> {
    let args = env::args(rt).ok()?;
    let words = args.collect::<Vec<String>>(rt.alloc()).ok()?;
    print_count(rt, words.as_slice())
}

// Reads the file that the words name, and shows its payloads, or goes over its items as often as they say and prints how
// many there are.
fn print_count<R: Files + Print + AllocGlobal>(rt: &R, words: &[String]) -> Option<()> {
    let [_, name, times] = words else {
        return None;
    };
    if times.as_str() == "show" {
        return show_file(rt, name.as_str());
    }
    let times = times.as_str().parse::<u32>().ok()?;
    let count = count_in_file(rt, name.as_str(), times)?;
    println!(rt; "{} items", count).ok()
}

fn count_in_file<R: Files + AllocGlobal>(rt: &R, name: &str, times: u32) -> Option<u64> {
    let alloc = rt.alloc();
    let bytes = fs::read(rt, name).ok()?;
    let mut count: u64 = 0;
    for _ in 0..times {
        count = count_in_module(alloc, &bytes)?;
    }
    Some(count)
}

// Prints a line for each payload.
fn show_file<R: Files + Print + AllocGlobal>(rt: &R, name: &str) -> Option<()> {
    let bytes = fs::read(rt, name).ok()?;
    for payload in Parser::new(0).parse_all(&bytes) {
        print_payload(rt, &payload.ok()?)?;
    }
    Some(())
}

// Returns the number of items of all sections, and of payloads.
fn count_in_module(alloc: Global, bytes: &[u8]) -> Option<u64> {
    let mut count: u64 = 0;
    for payload in Parser::new(0).parse_all(bytes) {
        count = count
            .wrapping_add(count_items(alloc, payload.ok()?)?)
            .wrapping_add(1);
    }
    Some(count)
}
