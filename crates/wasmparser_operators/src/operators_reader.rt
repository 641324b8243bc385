//! The operators of a body, one by one.

ghost use Rattle.std.specs.Prelude.{◌≡◌, ◌<◌, ◌↔◌, false, IfOk, IsTrue, length, slice_get, None};
ghost use Rattle.wasm_core_read.specs.Input.{IsWithin};
ghost use Rattle.wasm_spec.specs.Bytes.{AreBytes};
ghost use Rattle.wasmparser_operators.specs.OperatorAnswers.{Finishes, IsNextOperator, IsOperatorRefusal, ReadsNextOperator, begins_end};
ghost use Rattle.wasmparser_operators.specs.OperatorReading.{Packed, kept_operator_at};

use crate::operator::Operator;
use crate::operator_codes::read_operator;
use crate::other_codes::begins_other;
use std::marker::Model;
use wasm_core_read::binary_reader::BinaryReader;
use wasm_core_read::malformed::Malformed;
use wasmparser_error::error::{Error, ErrorKind};
use wasmparser_readers::passing::fork;

// The byte that ends a block, or the body.
const END: u8 = 0x0b;

// Checks that the next byte is that of an end.
fn begins_with_end(reader: &BinaryReader<'_>) -> bool
    ensures { result ≡ begins_end (slice_get reader.now.rest 0) }
{
    match reader.peek() {
        Some(code) => code == END,
        None => false,
    }
}

// Creates the error for bytes from which no operator is read.
#[inline(never)]
#[tactic(auto, using(crate::proofs::KeptLaws::refusals))]
fn refusal(malformed: Malformed, reader: &BinaryReader<'_>) -> Error
    requires unread { kept_operator_at Packed reader.now.features reader.now.rest ≡ None }
    requires within { IsWithin reader.now malformed.offset }
    ensures kind { IsOperatorRefusal result.kind reader.now.features reader.now.rest }
    ensures place { IsWithin reader.now result.offset }
{
    let kind = if begins_other(reader) {
        ErrorKind::Operator
    } else {
        ErrorKind::Body
    };
    Error {
        offset: malformed.offset,
        kind,
    }
}

// Reads the next operator, and tells whether it is an end.
#[inline(always)]
#[tactic(auto, using(crate::proofs::ReaderLaws::read_steps))]
fn next_operator<'a>(
    reader: &mut BinaryReader<'a>,
    is_ended: &mut bool,
) -> Result<Operator<'a>, Error>
    ensures exact { ReadsNextOperator (record { input = reader.old; is_ended = is_ended.old }) (record { input = reader.new; is_ended = is_ended.new }) result }
    ensures are { AreBytes reader.old.rest }
    ensures further { IfOk result (λ _. reader.old.position < reader.new.position) }
{
    let start = fork(reader);
    let ends = begins_with_end(&start);
    match read_operator(reader) {
        Ok(operator) => {
            *is_ended = ends;
            Ok(operator)
        }
        Err(malformed) => {
            *reader = start;
            Err(refusal(malformed, reader))
        }
    }
}

/// The operators of a body that are still to come. Contracts see it as the bytes that are left, and whether the last operator that
/// was read is an end.
#[derive(Clone, Debug, Drop)]
pub struct OperatorsReader<'a> {
    reader: BinaryReader<'a>,
    is_ended: bool,
}

impl<'a> Model for OperatorsReader<'a> {
    ghost use Rattle.wasmparser_operators.specs.OperatorAnswers.{OperatorsLeft};

    ghost Value = { OperatorsLeft };

    ghost view = { λ r. record { input = r.reader; is_ended = r.is_ended } };
}

impl<'a> OperatorsReader<'a> {
    /// Creates the operators that a reader has before it, which stands past the locals of a body.
    pub fn new(reader: BinaryReader<'a>) -> OperatorsReader<'a>
        ensures { result ≡ record { input = reader.entry; is_ended = false } }
    {
        OperatorsReader {
            reader,
            is_ended: false,
        }
    }

    /// Checks that no bytes are left.
    pub fn eof(&self) -> bool
        ensures { IsTrue result ↔ (length self.now.input.rest ≡ 0) }
    {
        self.reader.eof()
    }

    /// Returns the place of the next operator in the input.
    pub fn original_position(&self) -> u64
        ensures { result ≡ self.now.input.position }
    {
        self.reader.original_position()
    }

    /// Returns a reader of the bytes that are left.
    pub fn get_binary_reader(&self) -> BinaryReader<'a>
        ensures { result ≡ self.now.input }
    {
        fork(&self.reader)
    }

    /// Reads the next operator, under the reader's features: without them some immediates are written otherwise. Whether the features
    /// allow the operator is not asked.
    ///
    /// # Errors
    /// `Operator` where a code outside of the table of operators stands next, whatever the features. Else `Body`: no operator
    /// reads, or one whose value type has a type index from 2^20 on, which no module has.
    #[tactic(auto, using(crate::proofs::ReaderLaws::by_grammar))]
    pub fn read(&mut self) -> Result<Operator<'a>, Error>
        ensures exact { ReadsNextOperator self.old self.new result }
        ensures reads { IsNextOperator self.old self.new result }
        ensures further { IfOk result (λ _. self.old.input.position < self.new.input.position) }
    {
        next_operator(&mut self.reader, &mut self.is_ended)
    }

    /// Checks that all is read: the last operator that was read is an end, and no bytes are left. That each block has an end, and the
    /// body one, is a matter of typing.
    ///
    /// # Errors
    /// `Body` where it is not, at the next byte.
    pub fn finish(&self) -> Result<(), Error>
        ensures { Finishes self.now result }
    {
        if self.is_ended && self.reader.eof() {
            return Ok(());
        }
        Err(Error {
            offset: self.reader.original_position(),
            kind: ErrorKind::Body,
        })
    }
}
