//! The program `wasm_gen`: makes WebAssembly modules of seeds, validates modules in files, and shows what they have.
#![tactic(auto)]

ghost use Rattle.std.specs.Prelude.{◌≡◌, ◌⊎◌};

mod check;
mod fault;
mod generate;
mod report;

use std::process::ExitCode;
use std::rt::{Env, Files};
use wasm_gen::error::RunError;
use wasm_gen::status::status_of;
use wasm_gen_program::arguments::read_arguments;
use wasm_gen_program::asked::{Asked, WordsError, read_words};

fn main(rt: HostRuntime) -> ExitCode {
    ExitCode::from(run(&rt))
}

// Runs the command that the words name, and gives the status.
fn run<R: Env + Files + Print + Eprint + AllocGlobal>(rt: &R) -> u8 {
    let alloc = rt.alloc();
    let Ok(words) = read_arguments(alloc, rt) else {
        return fault::tell(rt, RunError::Memory);
    };
    match read_words(alloc, words.as_slice()) {
        Ok(asked) => run_command(rt, &asked),
        Err(WordsError::Wrong(text)) => fault::tell_of_words(rt, text.as_str()),
        Err(WordsError::Memory) => fault::tell(rt, RunError::Memory),
    }
}

// Does what is asked for, and gives the status.
fn run_command<R: Files + Print + Eprint + AllocGlobal>(rt: &R, asked: &Asked<'_>) -> u8 {
    match asked {
        Asked::Generate(files) => generate::generate_from_files(rt, *files),
        Asked::Check(asked) => check::check_files(rt, asked),
        Asked::Report(name) => report::report_file(rt, name),
        Asked::Help(text) => show(rt, text.as_str()),
    }
}

// Shows a text, and gives the status.
fn show<R: Print + Eprint>(rt: &R, text: &str) -> u8
    ensures { (result ≡ 0) ⊎ (result ≡ 2) }
{
    match print!(rt; "{text}") {
        Ok(()) => status_of(&[]),
        Err(_) => fault::tell(rt, RunError::Write),
    }
}
