//! Validates many inputs one after the other, as the program does.

ghost use Rattle.std.specs.Prelude.{◌≡◌, ◌∷◌, [], List, Option, false, map, option_map};
ghost use Rattle.wasm_gen_program.specs.CheckInputs.{ChecksInputs, ChecksNamed, EndsInput, ValidatesNext, beginning, ends_run, outcome};
ghost use Rattle.wasm_gen_program.specs.Explanation.{answer_of};
ghost use Rattle.wasm_gen_program.specs.Inputs.{AddsEvents, Event, explained, opened, told, told_of};

use crate::device::{Sink, Source};
use crate::error::RunError;
use crate::explanation::Checked;
use crate::run::run_check_explained;
use crate::status::Outcome;
use std::alloc::{AllocError, Global};
use wasm_core::features::WasmFeatures;
use wasm_gen_sessions::judge::ValidatorId;
use wasm_gen_sessions::session::Session;

/// Inputs, which are found by their names, and reports of their faults and of where their errors stand. Std has no model of files and of standard error, so an
/// implementation over them states nothing to contracts; `check_inputs` is the same for all.
pub trait Inputs {
    /// An input that is read.
    type Input: Source + Drop;

    // The inputs opened and what was reported of them so far, where an implementation states them.
    ghost events: { Self → Option (List Event) };

    /// Returns the input of this name, where it can be opened.
    fn open(&mut self, name: &str) -> Option<Self::Input>
        ensures { AddsEvents (events self.old) (events self.new) (opened name.now (option_map Self.Input.seen result) ∷ []) };

    /// Tells a fault of the input of this name.
    fn tell(&mut self, fault: RunError, name: &str)
        ensures { AddsEvents (events self.old) (events self.new) (told fault name.now ∷ []) };

    /// Tells where the error of the input of this name stands, which was refused, by a line without a line feed.
    fn explain(&mut self, text: &str, name: &str)
        ensures { AddsEvents (events self.old) (events self.new) (explained text.now name.now ∷ []) };
}

/// Returns the session that the program begins with: under the default features.
pub fn first_session(alloc: Global) -> Session
    ensures { result ≡ beginning }
{
    Session::new(alloc, WasmFeatures::default(), ValidatorId::new(0))
}

/// Returns the outcome of the run on an input.
pub fn outcome_of(answer: Result<bool, RunError>) -> Outcome
    ensures { result ≡ outcome answer }
{
    match answer {
        Ok(true) => Outcome::Yes,
        Ok(false) => Outcome::No,
        Err(_) => Outcome::Fault,
    }
}

// Checks that the run ends by this answer: a failed write ends it, and no other fault.
fn ends_run(answer: Result<bool, RunError>) -> bool
    ensures { result ≡ ends_run answer }
{
    matches!(answer, Err(RunError::Write))
}

/// Validates an input, writes the line of its verdict, and where that is asked for explains a no, as [`run_check_explained`] does. Unless the write failed, the
/// session then validates the next input: where it failed, or memory ran out, by a new validator of the name `next`.
///
/// # Errors
/// Those of [`run_check_explained`].
pub fn check_next<R: Source, W: Sink>(
    alloc: Global,
    session: &mut Session,
    next: ValidatorId,
    reader: &mut R,
    writer: &mut W,
    explain: bool,
) -> Result<Checked, RunError>
    requires { session.old.has_failed ≡ false }
    ensures { ValidatesNext explain session.old next session.new (R.seen reader.old) (R.seen reader.new) (W.seen writer.old) (W.seen writer.new) result }
{
    let answer = run_check_explained(alloc, session, reader, writer, explain);
    if session.has_failed() || matches!(answer, Err(RunError::Memory)) {
        session.restart(next);
    }
    answer
}

// Does the same for an input that may not have been opened, which is a fault.
fn check_opened<R: Source + Drop, W: Sink>(
    alloc: Global,
    session: &mut Session,
    next: ValidatorId,
    input: Option<R>,
    writer: &mut W,
    explain: bool,
) -> Result<Checked, RunError>
    requires { session.old.has_failed ≡ false }
    ensures { EndsInput explain (option_map R.seen input) result session.old next session.new (W.seen writer.old) (W.seen writer.new) }
{
    match input {
        Some(mut reader) => check_next(alloc, session, next, &mut reader, writer, explain),
        None => Err(RunError::Read),
    }
}

// Tells the fault of an input of this name, or the explanation of a no, if there is one, and gives the answer without it.
#[tactic(auto, using(crate::proofs::CheckInputsLaws::none_told))]
fn tell_of<I: Inputs>(
    inputs: &mut I,
    answer: Result<Checked, RunError>,
    name: &str,
) -> Result<bool, RunError>
    ensures told { AddsEvents (I.events inputs.old) (I.events inputs.new) (told_of name.now answer) }
    ensures same { result ≡ answer_of answer }
{
    match answer {
        Ok(checked) => {
            if let Some(text) = &checked.explanation {
                inputs.explain(text.as_str(), name);
            }
            Ok(checked.is_yes)
        }
        Err(e) => {
            inputs.tell(e, name);
            Err(e)
        }
    }
}

// Opens the input of this name, validates it, reports its fault, and where that is asked for explains a no.
fn check_named<I: Inputs, W: Sink>(
    alloc: Global,
    session: &mut Session,
    next: ValidatorId,
    inputs: &mut I,
    name: &str,
    writer: &mut W,
    explain: bool,
) -> Result<bool, RunError>
    requires { session.old.has_failed ≡ false }
    ensures { ChecksNamed explain name.now next (record { session = session.old; sink = W.seen writer.old; events = I.events inputs.old })
        (record { session = session.new; sink = W.seen writer.new; events = I.events inputs.new }) result }
{
    let input = inputs.open(name);
    let answer = check_opened(alloc, session, next, input, writer, explain);
    tell_of(inputs, answer, name)
}

// Validates the inputs of these names in turn by a session.
fn check_all<I: Inputs, W: Sink>(
    alloc: Global,
    session: &mut Session,
    inputs: &mut I,
    names: &[&str],
    writer: &mut W,
    explain: bool,
) -> Result<Vec<Outcome>, AllocError>
    requires { session.old ≡ beginning }
    ensures { ChecksInputs explain (map (λ name. name.now) names.now) (W.seen writer.old) (W.seen writer.new) (I.events inputs.old) (I.events inputs.new) result }
{
    let mut outcomes = Vec::with_capacity(alloc, names.len())?;
    for (place, name) in names.iter().enumerate() {
        let next = ValidatorId::new(place + 1);
        let answer = check_named(alloc, session, next, inputs, name, writer, explain);
        outcomes.push_reserved(outcome_of(answer));
        if ends_run(answer) {
            break;
        }
    }
    Ok(outcomes)
}

/// Validates the inputs of these names in turn, reports each fault, explains each no where that is asked for and memory suffices, and returns how each ended. A failed
/// write ends the run; after any other fault the next input follows.
///
/// # Errors
/// Where there is no memory for the outcomes: then nothing was opened, reported or written.
pub fn check_inputs<I: Inputs, W: Sink>(
    alloc: Global,
    inputs: &mut I,
    names: &[&str],
    writer: &mut W,
    explain: bool,
) -> Result<Vec<Outcome>, AllocError>
    ensures { ChecksInputs explain (map (λ name. name.now) names.now) (W.seen writer.old) (W.seen writer.new) (I.events inputs.old) (I.events inputs.new) result }
{
    let mut session = first_session(alloc);
    let outcomes = check_all(alloc, &mut session, inputs, names, writer, explain);
    drop(session);
    outcomes
}
