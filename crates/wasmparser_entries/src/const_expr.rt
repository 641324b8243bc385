//! Constant expressions (Core Specification 3.0, Binary Format, "Expressions").

ghost use Rattle.std.specs.Prelude.{◌≡◌, ◌∷◌, ⊤, IfOk, IfSome, [], length};
ghost use Rattle.wasm_core_read.specs.ConstantReading.{expression_at};
ghost use Rattle.wasm_core_read.specs.Reading.{Answers};
ghost use Rattle.wasm_spec.specs.Constants.{ConstantExpression};
ghost use Rattle.wasmparser_readers.specs.Answers.{ReadsItem};
ghost use Rattle.wasmparser_readers.specs.Passing.{Passes, passed};
ghost use Rattle.wasmparser_entries.specs.ConstExprs.{IsExpression, PassesShort, PassesStep, ReadsStep, expression_of, takes_number};
ghost use Rattle.wasmparser_entries.specs.ConstOperators.{const_operator};

use crate::const_operator::{ConstOperator, read_operator};
use std::alloc::Global;
use std::iter::Iterator;
use std::marker::Model;
use wasm_core_read::binary_reader::BinaryReader;
use wasm_core_read::malformed::Malformed;
use wasmparser_error::error::Error;
use wasmparser_readers::from_reader::{FromReader, Item};
use wasmparser_readers::passing::{Pass, fork, passed_part};

// The last byte of an expression.
const END: u8 = 0x0b;

// Reads the next operator of an expression, or none at its end.
#[inline(always)]
#[tactic(auto, using(crate::proofs::ExpressionLaws::expression_steps))]
fn read_next(reader: &mut BinaryReader<'_>) -> Result<Option<ConstOperator>, Malformed>
    ensures { ReadsStep reader.old reader.new result }
{
    let bytes = reader.remaining_buffer();
    match bytes.first().copied() {
        Some(END) => {
            reader.read_u8()?;
            Ok(None)
        }
        Some(_) => Ok(Some(read_operator(reader)?)),
        None => Err(Malformed {
            offset: reader.original_position(),
        }),
    }
}

// Passes over the next operator of an expression, or over its end, and tells whether that was the end.
#[inline(always)]
#[tactic(auto, using(crate::proofs::ExpressionLaws::passed_one))]
fn passes_end(reader: &mut BinaryReader<'_>) -> Result<bool, Malformed>
    ensures { PassesStep reader.old reader.new result }
{
    match read_next(reader) {
        Ok(Some(_)) => Ok(false),
        Ok(None) => Ok(true),
        Err(malformed) => Err(malformed),
    }
}

// Checks that a number stands after a code, and nothing else: that of a global or of a function, or a constant.
#[inline(always)]
fn takes_number(code: u8) -> bool
    ensures { result ≡ takes_number code }
{
    code == 0x23 || code == 0x41 || code == 0x42 || code == 0xd2
}

// Passes over an expression of three bytes, as most are: a code, its number and the end. Else nothing is passed.
#[inline(always)]
#[tactic(auto, using(crate::proofs::ShortLaws::short_read))]
fn passes_short(reader: &mut BinaryReader<'_>) -> bool
    ensures { PassesShort reader.old reader.new result }
{
    let [code, number, last, ..] = reader.remaining_buffer() else {
        return false;
    };
    if *last != END || *number >= 128 || !takes_number(*code) {
        return false;
    }
    match reader.read_bytes(3) {
        Ok(_) => true,
        Err(_) => false,
    }
}

// Returns the operator of an expression of three bytes, as most are: a code, a number below 64 and the end. Of others it has none.
#[inline(always)]
#[tactic(auto, using(crate::proofs::ShortLaws::short_operators))]
fn short_operator(bytes: &[u8]) -> Option<ConstOperator>
    ensures { IfSome result (λ operator. expression_of bytes.now ≡ const_operator operator ∷ []) }
{
    let [code, number, last] = bytes else {
        return None;
    };
    if *last != END || *number >= 64 {
        return None;
    }
    match *code {
        0x23 => Some(ConstOperator::GlobalGet {
            global_index: u32::from(*number),
        }),
        0x41 => Some(ConstOperator::I32Const {
            value: i32::from(*number),
        }),
        0x42 => Some(ConstOperator::I64Const {
            value: i64::from(*number),
        }),
        0xd2 => Some(ConstOperator::RefFunc {
            function_index: u32::from(*number),
        }),
        _ => None,
    }
}

/// A constant expression: the part of an input that reads as one. Contracts see it as a reader of these bytes, the end
/// among them.
#[derive(Clone, Debug, Drop)]
pub struct ConstExpr<'a> {
    reader: BinaryReader<'a>,
}

impl<'a> Model for ConstExpr<'a> {
    ghost use Rattle.wasm_core_read.specs.Input.{Input};
    ghost use Rattle.wasmparser_entries.specs.ConstExprs.{IsExpression};

    ghost Value = { Input };

    ghost view = { λ c. c.reader };

    ghost invariant = { λ c. IsExpression c.reader.rest };
}

impl<'a> ConstExpr<'a> {
    /// Returns a reader of the expression's bytes, the end among them.
    pub fn get_binary_reader(&self) -> BinaryReader<'a>
        ensures bytes { result ≡ self.now }
        ensures are { IsExpression self.now.rest }
    {
        fork(&self.reader)
    }

    /// Returns a copy to lend to a rarely made call, so that the original can stay in registers.
    #[inline(always)]
    pub fn fork(&self) -> ConstExpr<'a>
        ensures { result ≡ self.now }
    {
        ConstExpr {
            reader: fork(&self.reader),
        }
    }

    /// Returns a fast way to the operator of most expressions: those of three bytes, which are a code, a number below 64 and the end. It has none where the
    /// expression isn't like that, of one operator too.
    #[inline(always)]
    pub fn short_operator(&self) -> Option<ConstOperator>
        ensures { IfSome result (λ operator. expression_of self.now.rest ≡ const_operator operator ∷ []) }
    {
        short_operator(self.reader.remaining_buffer())
    }

    /// Returns the operators one by one, the end aside.
    pub fn operators(&self) -> ConstOperators<'a>
        ensures { result ≡ expression_of self.now.rest }
    {
        ConstOperators {
            reader: fork(&self.reader),
        }
    }
}

// Passes over an expression operator by operator.
#[inline(never)]
#[tactic(auto, using(crate::proofs::ExpressionLaws::pass_steps))]
fn pass_operators(reader: &mut BinaryReader<'_>) -> Result<(), Malformed>
    ensures { Passes reader.old reader.new result (expression_at reader.old.rest) }
{
    while !passes_end(reader)? {}
    Ok(())
}

/// An expression that is passed over.
pub struct Expression;

impl Pass for Expression {
    ghost Passed = { ConstantExpression };

    ghost passed_at = { expression_at };

    #[inline(always)]
    fn pass(reader: &mut BinaryReader<'_>) -> Result<(), Malformed> {
        if passes_short(reader) {
            return Ok(());
        }
        // (a copy, so that the reader needs no memory where this isn't called)
        let mut copy = fork(reader);
        let result = pass_operators(&mut copy);
        *reader = copy;
        result
    }
}

/// Reads an expression. Its operators can then be read one by one, again.
///
/// # Errors
/// Where none reads.
#[tactic(auto, using(crate::proofs::ExpressionLaws::expression_again))]
pub fn read_const_expr<'a>(reader: &mut BinaryReader<'a>) -> Result<ConstExpr<'a>, Malformed>
    ensures reads { Answers (λ c. expression_of c.rest) reader.old reader.new result (expression_at reader.old.rest) }
    ensures part { IfOk result (λ c. c ≡ passed reader.old (length reader.new.rest)) }
{
    let start = fork(reader);
    Expression::pass(reader)?;
    Ok(ConstExpr {
        reader: passed_part(start, reader.bytes_remaining()),
    })
}

impl<'a> Item for ConstExpr<'a> {
    ghost Form = { ConstantExpression };

    ghost form = { λ c. expression_of c.rest };

    ghost form_at = { λ _. expression_at };

    ghost indexes = { λ _. [] };

    ghost IsOfModule = { λ _. ⊤ };

    ghost TakesMemory = { ⊥ };
}

impl<'a> FromReader<'a> for ConstExpr<'a> {
    fn from_reader(_alloc: Global, reader: &mut BinaryReader<'a>) -> Result<ConstExpr<'a>, Error>
        ensures reads { ReadsItem (λ c. expression_of c.rest) (λ _. ⊤) ⊥ (λ _. []) reader.old reader.new result (expression_at reader.old.rest) }
        ensures part { IfOk result (λ c. c ≡ passed reader.old (length reader.new.rest)) }
    {
        Ok(read_const_expr(reader)?)
    }
}

/// The operators of an expression that are still to come. Contracts see it as these.
#[derive(Debug, Drop)]
pub struct ConstOperators<'a> {
    reader: BinaryReader<'a>,
}

impl<'a> Model for ConstOperators<'a> {
    ghost use Rattle.wasm_spec.specs.Constants.{ConstantExpression};
    ghost use Rattle.wasmparser_entries.specs.ConstExprs.{AreOperators, expression_of};

    ghost Value = { ConstantExpression };

    ghost view = { λ s. expression_of s.reader.rest };

    ghost invariant = { λ s. AreOperators s.reader.rest };
}

impl<'a> ConstOperators<'a> {
    ghost use Rattle.wasmparser_entries.specs.ConstExprs.{are_none};

    /// Checks that no operator is left.
    #[inline(always)]
    #[tactic(auto, using(crate::proofs::ExpressionLaws::last_steps))]
    pub fn is_empty(&self) -> bool
        ensures { result ≡ are_none self.now }
    {
        match self.reader.peek() {
            Some(END) | None => true,
            Some(_) => false,
        }
    }
}

impl<'a> Iterator for ConstOperators<'a> {
    ghost use Rattle.wasmparser_entries.specs.ConstExprs.{GivesOperator, at_most_these};

    type Item = ConstOperator;

    ghost next_gives = { λ old next new. GivesOperator old new next };

    ghost remaining = { at_most_these };

    #[inline(always)]
    #[tactic(auto, using(crate::proofs::ExpressionLaws::operator_steps))]
    fn next(&mut self) -> Option<ConstOperator> {
        match read_next(&mut self.reader) {
            Ok(next) => next,
            Err(_) => None,
        }
    }
}
