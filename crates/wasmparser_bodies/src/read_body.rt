//! Bodies, read from their bytes and validated by a `BodyValidator` (Core Specification 3.0, Binary Format, "Code Section").

ghost use Rattle.std.specs.Prelude.{◌≡◌, ◌≢◌, ◌<◌, ◌≤◌, [], IfOk, length, true};
ghost use Rattle.wasm_core_read.specs.Input.{GoesOn};
ghost use Rattle.wasm_spec.specs.Limits as limits;
ghost use Rattle.wasmparser_bodies.specs.BodyAnswers.{AnswersOutcome, HasManyTypes};
ghost use Rattle.wasmparser_bodies.specs.BodyStates.{HasEnded, ReadsStep, StopsInRest, context_in, rest_outcome, with_machine_in};
ghost use Rattle.wasmparser_bodies.specs.CodeReading.{code_outcome};
ghost use Rattle.wasmparser_bodies.specs.Fronts.{StopsInOperators};

use crate::body_validator::{BodyValidator, broken};
use crate::read_locals::read_locals;
use wasm_core_read::binary_reader::BinaryReader;
use wasmparser_error::error::Error;
use wasmparser_operators::operators_reader::OperatorsReader;
use wasmparser_readers::passing::fork;

// Reads the next operator and validates it.
fn read_step<B: BodyValidator>(reader: &mut OperatorsReader<'_>, body: &mut B) -> Result<(), Error>
    requires ready { (B.state body.old).is_ready ≡ true }
    requires open { (B.state body.old).machine.frames ≢ [] }
    requires same_features { reader.old.input.features ≡ (B.state body.old).features }
    ensures kept { B.kept body.new ≡ B.kept body.old }
    ensures validated { ReadsStep (B.state body.old) (B.state body.new) reader.old.input reader.new.input result }
    ensures further { IfOk result (λ _. reader.old.input.position < reader.new.input.position) }
{
    let offset = reader.original_position();
    match reader.read() {
        Ok(operator) => body.op(offset, &operator),
        Err(error) => Err(error),
    }
}

// Returns the operators of these bytes, which are the last ones of a reader's.
fn operators_of<'a>(reader: &OperatorsReader<'a>, rest: &'a [u8]) -> OperatorsReader<'a>
    requires { length rest.now ≤ length reader.now.input.rest }
    ensures rest { result.input.rest ≡ rest.now }
    ensures goes_on { GoesOn reader.now.input result.input }
{
    let from = reader.get_binary_reader();
    let passed = from.bytes_remaining() - rest.len();
    let mut to = BinaryReader::new(rest, from.original_position() + passed as u64);
    to.set_features(from.features());
    OperatorsReader::new(to)
}

// Validates operators at once, and then reads the next one and validates it.
fn read_on<B: BodyValidator>(reader: &mut OperatorsReader<'_>, body: &mut B) -> Result<(), Error>
    requires ready { (B.state body.old).is_ready ≡ true }
    requires open { (B.state body.old).machine.frames ≢ [] }
    requires same_features { reader.old.input.features ≡ (B.state body.old).features }
    ensures kept { B.kept body.new ≡ B.kept body.old }
    ensures validated { ReadsStep (B.state body.old) (B.state body.new) reader.old.input reader.new.input result }
    ensures further { IfOk result (λ _. reader.old.input.position < reader.new.input.position) }
{
    let rest = body.run(reader.get_binary_reader().remaining_buffer());
    *reader = operators_of(reader, rest);
    read_step(reader, body)
}

// Reads operators up to the end of the body, after which nothing may stand.
fn read_code<B: BodyValidator>(reader: &mut OperatorsReader<'_>, body: &mut B) -> Result<(), Error>
    requires ready { (B.state body.old).is_ready ≡ true }
    requires same_features { reader.old.input.features ≡ (B.state body.old).features }
    ensures answers { AnswersOutcome (HasManyTypes (B.state body.old).items) (StopsInOperators (context_in (B.state body.old)) (B.state body.old).machine reader.old.input.rest) reader.old.input result (code_outcome (context_in (B.state body.old)) (B.state body.old).machine reader.old.input.rest) }
    ensures kept { B.kept body.new ≡ B.kept body.old }
    ensures ended { IfOk result (λ _. ((B.state body.new).machine.frames ≡ []) × (B.state body.new ≡ with_machine_in (B.state body.new).machine (B.state body.old))) }
{
    'operators: while !body.is_closed() {
        read_on(reader, body)?;
    }
    if !reader.eof() {
        return Err(broken(reader.original_position()));
    }
    Ok(())
}

/// Reads a body and validates it. The reader has the bytes of the body and no others. What the validator had of locals and open blocks stands first: to
/// validate a whole body it has the function's parameters, and the body's own block.
///
/// # Errors
/// `Limit` where there are too many locals, `Operator` where a code stands that no operator has, after locals and operators that a body may
/// begin with, `Body` where the body is broken otherwise or names a type whose index can't be packed, `Memory` where memory runs out, at a run of locals or an
/// operator that may come: each at a place of the body or its end.
pub fn read_body<B: BodyValidator>(reader: &mut BinaryReader<'_>, body: &mut B) -> Result<(), Error>
    requires ready { (B.state body.old).is_ready ≡ true }
    requires same_features { reader.old.features ≡ (B.state body.old).features }
    requires within { length (B.state body.old).locals ≤ limits.most limits.Locals }
    ensures answers { AnswersOutcome (HasManyTypes (B.state body.old).items) (StopsInRest (B.state body.old) reader.old.rest) reader.old result (rest_outcome (B.state body.old) reader.old.rest) }
    ensures kept { B.kept body.new ≡ B.kept body.old }
    ensures ended { IfOk result (λ _. HasEnded (B.state body.old) (B.state body.new)) }
{
    read_locals(reader, body)?;
    let mut operators = OperatorsReader::new(fork(reader));
    read_code(&mut operators, body)
}
