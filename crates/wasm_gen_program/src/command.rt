//! The command line that the program takes.

ghost use Rattle.std.specs.Prelude.{◌≡◌, IfOk, IsOkAnd, false, map, true};
ghost use Rattle.std.specs.String.{string_bytes};
ghost use Rattle.clap.specs.Words.{FailsBy, HasMatchesOf, app_of, fault_of, rule_of, with_subcommand};
ghost use Rattle.wasm_gen_program.specs.CommandLine as line;

use clap::{Arg, ArgAction, ArgMatches, Command, Error};
use std::alloc::{AllocError, Global};

// Returns the files that `check` validates.
fn files<'a>(alloc: Global) -> Arg<'a>
    ensures rule { rule_of result ≡ line.files }
    ensures own { result.global ≡ false }
{
    Arg::new(alloc, "FILE")
        .help("Files with modules")
        .required(true)
        .num_args(1..)
        .action(ArgAction::Append)
}

// Returns the file that `generate` takes its seed from.
fn seed<'a>(alloc: Global) -> Arg<'a>
    ensures rule { rule_of result ≡ line.seed }
    ensures own { result.global ≡ false }
{
    Arg::new(alloc, "SEED")
        .help("A file with any bytes")
        .required(true)
}

// Returns the file that `generate` takes its configuration from.
fn config<'a>(alloc: Global) -> Arg<'a>
    ensures rule { rule_of result ≡ line.config }
    ensures own { result.global ≡ false }
{
    Arg::new(alloc, "config")
        .long("config")
        .value_name("FILE")
        .help("A file with a configuration in TOML")
}

// Returns the flag by which a command explains, as this help says.
fn explain<'a>(alloc: Global, help: &'a str) -> Arg<'a>
    ensures rule { rule_of result ≡ line.explain }
    ensures own { result.global ≡ false }
{
    Arg::new(alloc, "explain")
        .long("explain")
        .help(help)
        .action(ArgAction::SetTrue)
}

// Returns the file that `report` shows the module of.
fn file<'a>(alloc: Global) -> Arg<'a>
    ensures rule { rule_of result ≡ line.file }
    ensures own { result.global ≡ false }
{
    Arg::new(alloc, "FILE")
        .help("A file with a module")
        .required(true)
}

// Returns the command that validates modules.
fn check<'a>(alloc: Global) -> Result<Command<'a>, AllocError>
    ensures { IfOk result (λ c. app_of c ≡ line.check) }
{
    Command::new(alloc, "check")
        .about("Says of each file whether it holds a valid module")
        .arg(explain(alloc, "Says where a refused module is wrong"))?
        .arg(files(alloc))
}

// Returns the command that shows what a module has.
fn report<'a>(alloc: Global) -> Result<Command<'a>, AllocError>
    ensures { IfOk result (λ c. app_of c ≡ line.report) }
{
    Command::new(alloc, "report")
        .about("Lists the types, items and exports of a valid module")
        .arg(file(alloc))
}

// Returns the command that makes a module.
fn generate<'a>(alloc: Global) -> Result<Command<'a>, AllocError>
    ensures { IfOk result (λ c. app_of c ≡ line.generate) }
{
    Command::new(alloc, "generate")
        .about("Generates the module of a seed and writes it to standard output")
        .arg(config(alloc))?
        .arg(explain(alloc, "Says what is wrong with a bad configuration"))?
        .arg(seed(alloc))
}

// Returns the program with one more command, where that could be made.
fn add<'a>(
    program: Command<'a>,
    command: Result<Command<'a>, AllocError>,
) -> Result<Command<'a>, AllocError>
    ensures { IfOk result (λ c. IsOkAnd command.entry (λ added. (app_of added).top.is_plain ≡ true → app_of c ≡ with_subcommand (app_of program.entry) (app_of added).top)) }
{
    program.subcommand(command?)
}

// Returns the program without its commands.
fn program<'a>(alloc: Global) -> Result<Command<'a>, AllocError>
    ensures { IfOk result (λ c. app_of c ≡ line.alone) }
{
    Command::new(alloc, "wasm_gen")
        .about("Makes and validates WebAssembly modules")
        .subcommand_required(true)
        .arg_required_else_help(true)
        .bin_name("wasm_gen")
}

// Returns the whole command line.
fn command<'a>(alloc: Global) -> Result<Command<'a>, AllocError>
    ensures { IfOk result (λ c. app_of c ≡ line.program) }
{
    let with_generate = add(program(alloc)?, generate(alloc))?;
    let with_check = add(with_generate, check(alloc))?;
    add(with_check, report(alloc))
}

/// Returns the matches that clap finds in the words, the program's name being the first.
///
/// # Errors
/// Where something is wrong with the words, where they ask for help, and where memory runs out.
pub fn matches_of<'a>(alloc: Global, words: &'a [String]) -> Result<ArgMatches<'a>, Error>
    ensures found { IfOk result (λ m. HasMatchesOf line.program (map string_bytes words.now) m) }
    ensures refused { FailsBy (fault_of line.program (map string_bytes words.now)) result }
{
    let program = command(alloc)?;
    program.try_get_matches_from(words)
}
