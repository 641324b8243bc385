//! Bodies of functions.

ghost use Rattle.std.specs.Prelude.{◌≡◌, ◌≤◌};
ghost use Rattle.wasm_core_read.specs.Input.{end};
ghost use Rattle.wasm_spec.specs.Bytes.{AreBytes};
ghost use Rattle.wasmparser_payloads.specs.Locals.{IsPastLocals, ReadsPastLocals};

use crate::locals::read_past_locals;
use std::marker::Model;
use std::ops::Range;
use wasm_core_read::binary_reader::BinaryReader;
use wasmparser_error::error::Error;
use wasmparser_operators::operators_reader::OperatorsReader;
use wasmparser_readers::passing::fork;

/// The body of a function, without its size: its locals and its expression, unread.
#[derive(Clone, Debug, Drop)]
pub struct FunctionBody<'a> {
    reader: BinaryReader<'a>,
}

impl<'a> Model for FunctionBody<'a> {
    ghost use Rattle.wasm_core_read.specs.Input.{Input};

    ghost Value = { Input };

    ghost view = { λ b. b.reader };
}

impl<'a> FunctionBody<'a> {
    /// Creates the body that a reader has before it.
    pub fn new(reader: BinaryReader<'a>) -> FunctionBody<'a>
        ensures { result ≡ reader.entry }
    {
        FunctionBody { reader }
    }

    /// Returns a reader of the whole body, under the features of the parser.
    pub fn get_binary_reader(&self) -> BinaryReader<'a>
        ensures same { result ≡ self.now }
        ensures are { AreBytes self.now.rest }
    {
        fork(&self.reader)
    }

    /// Returns the operators of the body, which stand past its locals; none is read yet. The locals are read as the grammar has them: whether the
    /// features allow their types, and whether there are too many, is not asked.
    ///
    /// # Errors
    /// `Body` where the body doesn't begin with a list of locals.
    #[tactic(auto, using(crate::proofs::LocalLaws::by_grammar))]
    pub fn get_operators_reader(&self) -> Result<OperatorsReader<'a>, Error>
        ensures exact { ReadsPastLocals self.now result }
        ensures reads { IsPastLocals self.now result }
    {
        read_past_locals(&self.reader)
    }

    /// Returns the bytes of the body.
    pub fn as_bytes(&self) -> &'a [u8]
        ensures { result.now ≡ self.now.rest }
    {
        self.reader.remaining_buffer()
    }

    /// Returns the place of the body in the input.
    pub fn range(&self) -> Range<u64>
        ensures start { result.start ≡ self.now.position }
        ensures end { result.end ≡ end self.now }
        ensures ordered { result.start ≤ result.end }
    {
        let start = self.reader.original_position();
        start..start + self.reader.bytes_remaining() as u64
    }
}
