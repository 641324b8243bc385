//! The program's commands over a reader and a writer.

ghost use Rattle.wasm_gen_program.specs.Run.{RunsCheck, RunsExplained, RunsReport, ValidatesInput};
ghost use Rattle.wasm_gen_program.specs.RunGenerate.{ReturnsModule, RunsGenerate};

use crate::device::{Sink, Source};
use crate::error::RunError;
use crate::explanation::{Checked, explanation_of};
use crate::report::report_of;
use crate::transfer::{MAX_INPUT, MAX_TURNS, read_whole, write_whole};
use crate::verdict::{empty_line, put_verdict};
use std::alloc::Global;
use wasm_gen_sessions::generate::generate;
use wasm_gen_sessions::judge::{Error, ErrorKind, Types};
use wasm_gen_sessions::session::Session;
use wasm_smith::config::Config;

/// Reads a module, validates it and writes the line of its verdict, which it allocates beforehand. Returns true if the verdict is yes.
///
/// After `Write` the session has validated the module. After `Memory` it is as it was, or it has failed since validating ran out of memory.
///
/// # Errors
/// `Read` where a read fails, or 2^29 of them don't come to the end; `TooLong` past 2^28 bytes; `Write` where a write fails or takes no byte; `Memory` where memory runs out.
#[tactic(auto, using(crate::proofs::ReadLaws::none_read, crate::proofs::WriteLaws::none_written))]
pub fn run_check<R: Source, W: Sink>(
    alloc: Global,
    session: &mut Session,
    reader: &mut R,
    writer: &mut W,
) -> Result<bool, RunError>
    ensures { RunsCheck session.old session.new (R.seen reader.old) (R.seen reader.new) (W.seen writer.old) (W.seen writer.new) result }
{
    match run_check_explained(alloc, session, reader, writer, false) {
        Ok(checked) => Ok(checked.is_yes),
        Err(e) => Err(e),
    }
}

/// Does what [`run_check`] does, and where that is asked for explains a no: by the line on where its error stands. Where memory doesn't suffice for that
/// line it is left out.
///
/// # Errors
/// Those of [`run_check`].
#[tactic(auto, using(crate::proofs::ReadLaws::none_read, crate::proofs::WriteLaws::none_written))]
pub fn run_check_explained<R: Source, W: Sink>(
    alloc: Global,
    session: &mut Session,
    reader: &mut R,
    writer: &mut W,
    explain: bool,
) -> Result<Checked, RunError>
    ensures { RunsExplained explain session.old session.new (R.seen reader.old) (R.seen reader.new) (W.seen writer.old) (W.seen writer.new) result }
{
    let Ok(mut line) = empty_line(alloc) else {
        return Err(RunError::Memory);
    };
    let (bytes, verdict) = check_input(alloc, session, reader)?;
    put_verdict(&mut line, &verdict);
    let explanation = explanation_of(alloc, explain, &bytes, session.features(), &verdict);
    let is_yes = verdict.is_ok();
    drop(verdict);
    drop(bytes);
    write_whole(writer, &line)?;
    Ok(Checked {
        is_yes,
        explanation,
    })
}

// Reads a module and validates it, and gives its bytes too. Running out of memory is no verdict.
fn check_input<R: Source>(
    alloc: Global,
    session: &mut Session,
    reader: &mut R,
) -> Result<(Vec<u8>, Result<Types, Error>), RunError>
    ensures { ValidatesInput session.old session.new (R.seen reader.old) (R.seen reader.new) result }
{
    let bytes = read_whole(alloc, reader, MAX_INPUT, MAX_TURNS)?;
    let verdict = session.check(&bytes);
    if let Err(e) = &verdict {
        if e.kind == ErrorKind::Memory {
            return Err(RunError::Memory);
        }
    }
    Ok((bytes, verdict))
}

/// Reads a module, validates it and writes the report on it: the text of a valid module's view, or the line of the refusal. Returns true if the module is valid.
///
/// After `Write` the session has validated the module. After `Memory` it is as it was, or has validated a module whose report had no memory, or it has failed since
/// validating ran out of memory.
///
/// # Errors
/// Those of [`run_check`].
#[tactic(auto, using(crate::proofs::ReadLaws::none_read, crate::proofs::WriteLaws::none_written))]
pub fn run_report<R: Source, W: Sink>(
    alloc: Global,
    session: &mut Session,
    reader: &mut R,
    writer: &mut W,
) -> Result<bool, RunError>
    ensures { RunsReport session.old session.new (R.seen reader.old) (R.seen reader.new) (W.seen writer.old) (W.seen writer.new) result }
{
    let Ok(line) = empty_line(alloc) else {
        return Err(RunError::Memory);
    };
    let (bytes, verdict) = check_input(alloc, session, reader)?;
    drop(bytes);
    let is_valid = verdict.is_ok();
    let Ok(report) = report_of(alloc, line, &verdict) else {
        return Err(RunError::Memory);
    };
    drop(verdict);
    write_whole(writer, &report)?;
    Ok(is_valid)
}

/// Reads a seed, makes a module of it and writes its bytes.
///
/// # Errors
/// Those of [`run_check`], and `Generate` where no module is made.
pub fn run_generate<R: Source, W: Sink>(
    alloc: Global,
    config: &Config,
    reader: &mut R,
    writer: &mut W,
) -> Result<(), RunError>
    ensures { RunsGenerate config.now (R.seen reader.old) (R.seen reader.new) (W.seen writer.old) (W.seen writer.new) result }
{
    let bytes = make_module(alloc, config, reader)?;
    write_whole(writer, &bytes)
}

// Reads a seed and makes a module of it.
fn make_module<R: Source>(
    alloc: Global,
    config: &Config,
    reader: &mut R,
) -> Result<Vec<u8>, RunError>
    ensures { ReturnsModule config.now (R.seen reader.old) (R.seen reader.new) result }
{
    let seed = read_whole(alloc, reader, MAX_INPUT, MAX_TURNS)?;
    Ok(generate(alloc, config, &seed)?)
}
