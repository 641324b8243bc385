//! Operators without types that are looked up.

ghost use Rattle.std.specs.Prelude.{◌≡◌, ◌≢◌, [], option_map};
ghost use Rattle.std.specs.Option.{option_and_then};
ghost use Rattle.wasm_bodies.specs.Operands.{applied};
ghost use Rattle.wasm_bodies.specs.Operators as spec;
ghost use Rattle.wasmparser_bodies.specs.StackViews.{operand};
ghost use Rattle.wasmparser_func_validator.specs.Steps.{HasEffect, Takes, body_context};
ghost use Rattle.wasmparser_operators.specs.ScalarValues.{scalar_row};
ghost use Rattle.wasm_bodies.specs.Operands as operands;
ghost use Rattle.wasmparser_types.specs.ValTypes.{val_type};

use crate::body::Body;
use crate::numeric::{NumericForm, form_of};
use crate::refusal::Refusal;
use crate::type_list::Types;
use std::slice;
use wasm_core_types::scalar_operator::ScalarOperator;
use wasmparser_bodies::module_resources::WasmModuleResources;
use wasmparser_bodies::operand::Operand;
use wasmparser_bodies::stacks::Stacks;
use wasmparser_types::val_type::ValType;

fn are_same_plain(a: &ValType, b: &ValType) -> bool
    ensures { result ≡ operands.are_same_plain (val_type a.now) (val_type b.now) }
{
    match (a, b) {
        (ValType::I32, ValType::I32) => true,
        (ValType::I64, ValType::I64) => true,
        (ValType::F32, ValType::F32) => true,
        (ValType::F64, ValType::F64) => true,
        (ValType::V128, ValType::V128) => true,
        _ => false,
    }
}

// Returns the result of a choice without a type between two operands.
fn selected(a: &Operand, b: &Operand) -> Option<Operand>
    ensures { option_map operand result ≡ operands.selected (operand a.now) (operand b.now) }
{
    match (a, b) {
        (Operand::Known(x), Operand::Known(y)) => {
            if are_same_plain(x, y) {
                Some(Operand::Known(*x))
            } else {
                None
            }
        }
        (Operand::Unknown, Operand::Known(y)) => {
            if y.is_ref() {
                None
            } else {
                Some(Operand::Known(*y))
            }
        }
        (Operand::Unknown, Operand::Unknown) => Some(Operand::Unknown),
        (Operand::UnknownRef, _) => None,
        (Operand::Known(_), Operand::Unknown) => None,
        (Operand::Known(_), Operand::UnknownRef) => None,
        (Operand::Unknown, Operand::UnknownRef) => None,
    }
}

impl<R: WasmModuleResources> Body<R> {
    #[inline(always)]
    pub(crate) fn drop_one(&self, stacks: &mut Stacks) -> Result<(), Refusal>
        ensures { HasEffect (body_context R.resources self.now) spec.Drop stacks.old stacks.new result }
    {
        match stacks.pop() {
            Some(_) => Ok(()),
            None => Err(Refusal::Invalid),
        }
    }

    #[tactic(auto, using(crate::proofs::OperandLaws::selects))]
    pub(crate) fn select(&self, stacks: &mut Stacks) -> Result<(), Refusal>
        ensures { HasEffect (body_context R.resources self.now) spec.Select stacks.old stacks.new result }
    {
        if !self.accepts(stacks, 0, &Types(slice::from_ref(&ValType::I32))) {
            return Err(Refusal::Invalid);
        }
        let Some(b) = stacks.peek(1) else {
            return Err(Refusal::Invalid);
        };
        let Some(a) = stacks.peek(2) else {
            return Err(Refusal::Invalid);
        };
        let Some(x) = selected(&a, &b) else {
            return Err(Refusal::Invalid);
        };
        stacks.replace_with(3, &[], &x)?;
        Ok(())
    }

    pub(crate) fn scalar(
        &self,
        stacks: &mut Stacks,
        operator: ScalarOperator,
    ) -> Result<(), Refusal>
        ensures { HasEffect (body_context R.resources self.now) (spec.Scalar (scalar_row operator)) stacks.old stacks.new result }
    {
        match form_of(operator) {
            NumericForm::Unary(from, to) => {
                self.apply(stacks, &[from.val_type()], &[to.val_type()])
            }
            NumericForm::Binary(of, to) => {
                self.apply(stacks, &[of.val_type(), of.val_type()], &[to.val_type()])
            }
        }
    }
}
