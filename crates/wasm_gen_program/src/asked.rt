//! The meaning of a command line.

ghost use Rattle.std.specs.Prelude.{◌≡◌, ◌≢◌, ◌⊎◌, IfOk, IfErr, MatchOption, [], Err, None, Some, codes, map, option_map, unwrap_or};
ghost use Rattle.std.specs.String.{string_bytes};
ghost use Rattle.clap.specs.Words.{all_of, first_of, found_of, kind_of, rows_of, subcommand_rows_of};
ghost use Rattle.wasm_gen_program.specs.Asked.{AreRefused, AskFor, Asks, CanBeAsked, IsHelp, command_of, explains, found_for, seed_of};

use crate::command::matches_of;
use clap::error::ErrorKind;
use clap::{ArgMatches, Error};
use std::alloc::{AllocError, Global};

/// The files of the command that makes a module.
#[derive(Clone, Copy, Debug)]
pub struct Generate<'a> {
    /// The name of the file that the seed is in.
    pub seed: &'a str,
    /// The name of the file that the configuration is in, where it isn't the default one.
    pub config: Option<&'a str>,
    /// True if a bad configuration is to be explained.
    pub explain: bool,
}

/// The files of the command that validates modules.
#[derive(Debug, Drop)]
pub struct Check<'a> {
    /// The names of the files that the modules are in.
    pub files: Vec<&'a str>,
    /// True if a refused module is to be explained.
    pub explain: bool,
}

/// A command of the program.
#[derive(Debug, Drop)]
pub enum Asked<'a> {
    /// To make a module.
    Generate(Generate<'a>),
    /// To validate modules.
    Check(Check<'a>),
    /// To show what the module in the file of this name has.
    Report(&'a str),
    /// To show this text.
    Help(String),
}

/// The reason why the words ask for nothing.
#[derive(Debug, Drop)]
pub enum WordsError {
    /// They are wrong, as this text says.
    Wrong(String),
    /// Memory ran out.
    Memory,
}

impl From<AllocError> for WordsError {
    ghost use Rattle.wasm_gen_program.specs.declared.asked.WordsError.TheVariants.{Memory};

    ghost from_gives = { λ _ e. e ≡ Memory };

    fn from(_error: AllocError) -> WordsError {
        WordsError::Memory
    }
}

// Returns the value of an argument of a command, where the words name that.
fn value_of<'a>(matches: &ArgMatches<'a>, command: &str, id: &str) -> Option<&'a str>
    ensures { option_map (λ name. name.now) result ≡ found_for command.now (first_of id.now) (subcommand_rows_of matches.now) }
{
    matches.subcommand_matches(command)?.get_str(id)
}

// Checks that a command has the flag to explain.
fn explains(matches: &ArgMatches<'_>, command: &str) -> bool
    ensures { result ≡ explains command.now (subcommand_rows_of matches.now) }
{
    match value_of(matches, command, "explain") {
        Some(text) => "true" == text,
        None => false,
    }
}

// Returns the files of the command that makes a module, where one is to be made.
fn generate_files<'a>(matches: &ArgMatches<'a>) -> Option<Generate<'a>>
    ensures { MatchOption result (seed_of (subcommand_rows_of matches.now) ≡ None) (λ asked. Asks (subcommand_rows_of matches.now) (Asked.Generate asked)) }
{
    let seed = value_of(matches, "generate", "SEED")?;
    let config = value_of(matches, "generate", "config");
    let explain = explains(matches, "generate");
    Some(Generate {
        seed,
        config,
        explain,
    })
}

// Returns the files that were found for `check`.
fn file_names<'a>(alloc: Global, found: &ArgMatches<'a>) -> Result<Vec<&'a str>, AllocError>
    ensures { IfOk result (λ names. map (λ name. name.now) names.items ≡ unwrap_or (all_of (codes "FILE") (rows_of (found_of found.now))) []) }
{
    match found.get_strs("FILE") {
        Some(names) => Vec::from_slice(alloc, names),
        None => Ok(Vec::new(alloc)),
    }
}

// Returns the files that are to be validated, where the words name `check`.
fn check_files<'a>(alloc: Global, matches: &ArgMatches<'a>) -> Result<Option<Check<'a>>, AllocError>
    ensures { IfOk result (λ found. MatchOption found (¬ (command_of (subcommand_rows_of matches.now) ≡ Some (codes "check")))
        (λ asked. Asks (subcommand_rows_of matches.now) (Asked.Check asked))) }
{
    let Some(found) = matches.subcommand_matches("check") else {
        return Ok(None);
    };
    let files = file_names(alloc, found)?;
    let explain = explains(matches, "check");
    Ok(Some(Check { files, explain }))
}

// Returns the command of words in which nothing is wrong.
fn asked_by<'a>(alloc: Global, matches: &ArgMatches<'a>) -> Result<Asked<'a>, WordsError>
    requires { CanBeAsked (subcommand_rows_of matches.now) }
    ensures asked { IfOk result (Asks (subcommand_rows_of matches.now)) }
    ensures memory { IfErr result (λ e. e ≡ WordsError.Memory) }
{
    if let Some(files) = generate_files(matches) {
        return Ok(Asked::Generate(files));
    }
    if let Some(name) = value_of(matches, "report", "FILE") {
        return Ok(Asked::Report(name));
    }
    match check_files(alloc, matches)? {
        Some(files) => Ok(Asked::Check(files)),
        None => unreachable!(),
    }
}

// Returns the help where that was asked for, and else the fault of the words, or that memory ran out.
fn text_of<'a>(alloc: Global, error: &Error) -> Result<Asked<'a>, WordsError>
    ensures help { IfOk result (λ asked. IsHelp asked × ((kind_of error.now ≡ ErrorKind.DisplayHelp) ⊎ (kind_of error.now ≡ ErrorKind.DisplayVersion))) }
    ensures wrong { IfErr result (λ e. e ≢ WordsError.Memory
        → (kind_of error.now ≢ ErrorKind.DisplayHelp) × (kind_of error.now ≢ ErrorKind.DisplayVersion)) }
    ensures memory { kind_of error.now ≡ ErrorKind.OutOfMemory → result ≡ Err WordsError.Memory }
{
    if error.kind() == ErrorKind::OutOfMemory {
        return Err(WordsError::Memory);
    }
    let text = format!(in alloc; "{error}")?;
    if error.use_stderr() {
        Err(WordsError::Wrong(text))
    } else {
        Ok(Asked::Help(text))
    }
}

/// Parses the words of a command line, the program's name being the first.
///
/// # Errors
/// `Wrong` where something is wrong with the words, `Memory` where memory runs out. No clause sees the texts of `Wrong` and `Help`, nor that memory did run out.
pub fn read_words<'a>(alloc: Global, words: &'a [String]) -> Result<Asked<'a>, WordsError>
    ensures asked { IfOk result (AskFor (map string_bytes words.now)) }
    ensures refused { IfErr result (AreRefused (map string_bytes words.now)) }
{
    match matches_of(alloc, words) {
        Ok(matches) => asked_by(alloc, &matches),
        Err(error) => text_of(alloc, &error),
    }
}
