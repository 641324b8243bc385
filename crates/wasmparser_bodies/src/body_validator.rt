//! The validator of a body, as `read_body` sees it: `FuncValidator` of `wasmparser_func_validator`, which implements it in its own `body_validator.rt`.

ghost use Rattle.std.specs.Prelude.{◌≡◌, ◌≢◌, ◌↔◌, [], IsTrue, true};
ghost use Rattle.wasm_bodies.specs.BodyContext.{written};
ghost use Rattle.wasmparser_bodies.specs.BodyStates.{BodyState, ValidatesOperator};
ghost use Rattle.wasmparser_bodies.specs.LocalsAnswers.{DefinesRun};
ghost use Rattle.wasmparser_bodies.specs.Runs.{RunsOn};
ghost use Rattle.wasmparser_error.specs.declared.error.ErrorKind.TheVariants as kinds;
ghost use Rattle.wasmparser_operators.specs.OperatorValues.{IsOfModule, IsWhole, module_type, operator};

use wasmparser_error::error::{Error, ErrorKind};
use wasmparser_operators::operator::Operator;
use wasmparser_types::val_type::ValType;

/// Validates a body: first its locals, run by run, and then its operators. After a refusal it is done with. This is a trait, though it has one
/// implementation, so that reading is proved over the state of a body alone, without the stacks and the rules behind it.
pub trait BodyValidator {
    // The context in which the body is validated, and the part of it that was validated.
    ghost state: { Self → BodyState };

    // The part that stays the same, whatever is returned.
    ghost Kept: { Type 0 };

    ghost kept: { Self → Kept };

    /// Adds so many locals of a type, whose type index, if it has one, is one of the module.
    ///
    /// # Errors
    /// At the offset: `Body` where the type is not allowed or there is no such type, `Limit` where there would be too many locals, or `Memory`.
    fn define_locals(&mut self, offset: u64, count: u32, ty: ValType) -> Result<(), Error>
        requires of_module { IsOfModule ty }
        requires ready { (state self.old).is_ready ≡ true }
        ensures defined { DefinesRun offset count (written (state self.old).features (state self.old).items (module_type ty)) (state self.old) (state self.new) result }
        ensures kept { kept self.new ≡ kept self.old };

    /// Validates the next operator, which is as a reader gives it.
    ///
    /// # Errors
    /// At the offset: `Body` where it may not stand there, or `Memory`.
    fn op(&mut self, offset: u64, it: &Operator<'_>) -> Result<(), Error>
        requires whole { IsWhole it.now }
        requires ready { (state self.old).is_ready ≡ true }
        ensures validated { ValidatesOperator offset (operator it.now) (state self.old) (state self.new) result }
        ensures kept { kept self.new ≡ kept self.old };

    /// Validates operators at the front of the bytes, as many as it likes, up to the body's last one, and gives the bytes that are left. What it would
    /// refuse it leaves.
    fn run<'a>(&mut self, code: &'a [u8]) -> &'a [u8]
        requires ready { (state self.old).is_ready ≡ true }
        requires open { (state self.old).machine.frames ≢ [] }
        ensures runs { RunsOn (state self.old) (state self.new) code.now result.now }
        ensures kept { kept self.new ≡ kept self.old };

    /// Checks that all blocks have ended, the body too.
    fn is_closed(&self) -> bool
        ensures { IsTrue result ↔ ((state self.now).machine.frames ≡ []) };
}

pub(crate) fn broken(offset: u64) -> Error
    ensures { result ≡ record { offset = offset; kind = kinds.Body } }
{
    Error {
        offset,
        kind: ErrorKind::Body,
    }
}
