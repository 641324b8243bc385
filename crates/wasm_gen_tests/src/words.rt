//! Words, and what they ask for.

use clap::{ArgMatches, Error};
use std::alloc::{AllocError, Global};
use std::test::Fail;
use wasm_gen_program::asked::{Asked, Generate, WordsError, read_words};
use wasm_gen_program::command::matches_of;
use wasm_test_rows::fields::three_fields;
use wasm_test_rows::rows::check_rows;

// A question about words, the words after the program's name, and the answer.
const ROWS: &str = "
    // clap's reason for refusing them, and the exit status.
    refusal  | check a        | none
    refusal  | check a b      | none
    refusal  | --help         | DisplayHelp 0
    refusal  |                | DisplayHelpOnMissingArgumentOrSubcommand 2
    refusal  | judge          | InvalidSubcommand 2
    refusal  | check          | MissingRequiredArgument 2
    refusal  | check --fast a | UnknownArgument 2
    refusal  | report a       | none
    refusal  | report         | MissingRequiredArgument 2
    refusal  | report a b     | UnknownArgument 2
    // The files that they name, all of them in turn, or the one, and if more is to be told of refused modules; the seed, the configuration, and if more is to be told of that.
    check    | check a        | a
    check    | check b a b    | b a b
    explain  | check --explain b a | b a
    explain  | check b --explain a | b a
    report   | report a       | a
    generate | generate a     | a - -
    generate | generate --config c a           | a c -
    generate | generate --config=c a           | a c -
    generate | generate a --config c           | a c -
    generate | generate --explain --config c a | a c explain
    generate | generate --explain a            | a - explain
    // A part of the help that they ask for, and the beginning of what is wrong with them.
    help     | --help         | Usage: wasm_gen <COMMAND>
    help     | help           | Usage: wasm_gen <COMMAND>
    help     | help check     | Usage: wasm_gen check [OPTIONS] <FILE>...
    help     | check a --help | Usage: wasm_gen check [OPTIONS] <FILE>...
    help     | help report    | Usage: wasm_gen report <FILE>
    help     | help generate  | Usage: wasm_gen generate [OPTIONS] <SEED>
    wrong    |                | Makes and validates WebAssembly modules
    wrong    | judge          | error: unrecognized subcommand 'judge'
    wrong    | help judge     | error: unrecognized subcommand 'judge'
    wrong    | generate       | error: the following required arguments were not provided:
    wrong    | generate a b   | error: unexpected argument 'b' found
    wrong    | generate --config c              | error: the following required arguments were not provided:
    wrong    | generate a --config              | error: a value is required for '--config <FILE>' but none was supplied
    wrong    | generate --config c --config d a | error: the argument '--config <FILE>' cannot be used multiple times
";

// Returns the words of a command line.
fn words_of(alloc: Global, field: &str) -> Result<Vec<String>, AllocError> {
    let mut all = Vec::new(alloc);
    all.push(String::from_str(alloc, "wasm_gen")?)?;
    for word in field.split_whitespace() {
        all.push(String::from_str(alloc, word)?)?;
    }
    Ok(all)
}

// Checks that clap finds this to be wrong with the words.
fn is_found(alloc: Global, found: &Result<ArgMatches<'_>, Error>, expected: &str) -> bool {
    match found {
        Ok(_) => expected == "none",
        Err(e) => match format!(in alloc; "{:?} {}", e.kind(), e.exit_code()) {
            Ok(shown) => shown.as_str() == expected,
            Err(_) => false,
        },
    }
}

fn is_refused(alloc: Global, words: &[String], expected: &str) -> bool {
    let found = matches_of(alloc, words);
    let holds = is_found(alloc, &found, expected);
    // (dropped by a call, which is cheaper to prove)
    drop(found);
    holds
}

// Checks that the files are just those, in order.
fn are(names: &[&str], files: &str) -> bool {
    let mut left = names.iter();
    for file in files.split_whitespace() {
        match left.next() {
            Some(name) if *name == file => {}
            _ => return false,
        }
    }
    left.next().is_none()
}

// Checks that these are the files, with `-` for each part that isn't there.
fn are_files(files: &Generate<'_>, expected: &str) -> bool {
    let explain = if files.explain { "explain" } else { "-" };
    are(
        &[files.seed, files.config.unwrap_or("-"), explain],
        expected,
    )
}

// Checks that this is what is asked for.
fn is_asked(asked: &Result<Asked<'_>, WordsError>, way: &str, expected: &str) -> bool {
    match asked {
        Ok(Asked::Check(asked)) => {
            let told = if asked.explain { "explain" } else { "check" };
            way == told && are(asked.files.as_slice(), expected)
        }
        Ok(Asked::Generate(files)) => way == "generate" && are_files(files, expected),
        Ok(Asked::Report(name)) => way == "report" && *name == expected,
        Ok(Asked::Help(text)) => way == "help" && text.contains(expected),
        Err(WordsError::Wrong(text)) => way == "wrong" && text.starts_with(expected),
        Err(WordsError::Memory) => false,
    }
}

fn asks(alloc: Global, words: &[String], way: &str, expected: &str) -> bool {
    let asked = read_words(alloc, words);
    let holds = is_asked(&asked, way, expected);
    drop(asked);
    holds
}

fn holds(alloc: Global, row: &str) -> Option<bool> {
    let (way, words, expected) = three_fields(row)?;
    let words = words_of(alloc, words).ok()?;
    match way {
        "refusal" => Some(is_refused(alloc, &words, expected)),
        _ => Some(asks(alloc, &words, way, expected)),
    }
}

#[test]
fn words_ask_for_this(rt: HostRuntime) -> Result<(), Fail> {
    Ok(check_rows(rt.alloc(), ROWS, 35, holds)?)
}
