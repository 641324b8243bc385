//! The second of three ways to validate operators: those that `quick` leaves, since they call something or take memory, but that are frequent enough
//! to go straight from the bytes, one at a time and without an `Operator`; what is rarer, or would be refused, it leaves as it was to `step`.

ghost use Rattle.std.specs.Prelude.{◌≡◌, ◌≢◌, ◌∷◌, ◌<◌, [], IsTrue, MatchOption, Some};
ghost use Rattle.wasm_bodies.specs.Effects.{effect_of};
ghost use Rattle.wasm_bodies.specs.OperatorGates.{block_gate};
ghost use Rattle.wasm_bodies.specs.Operators as spec;
ghost use Rattle.wasm_bodies_laws.specs.Machine.{labels_of};
ghost use Rattle.wasmparser_bodies.specs.Runs.{LeadsOn};
ghost use Rattle.wasmparser_func_validator.specs.Plain.{IsNumber, IsStep, NumbersFit, TriesBare, TriesBlock, TriesEffect, TriesNumber};
ghost use Rattle.wasmparser_func_validator.specs.Steps.{body_context, items_in};
ghost use Rattle.wasmparser_operators.specs.OperatorValues.{IsBlockOfModule, block_type};
ghost use Rattle.wasmparser_types.specs.ValTypes.{val_type};

use crate::body::Body;
use crate::plain_numbers::{five_bytes, past_i32, past_i64};
use crate::plain_rows::plain_block_type;
use std::slice;
use wasmparser_bodies::frame::FrameKind;
use wasmparser_bodies::module_resources::WasmModuleResources;
use wasmparser_bodies::stacks::Stacks;
use wasmparser_operators::immediates::BlockType;
use wasmparser_types::val_type::ValType;

// Checks that a type is one of numbers.
#[inline(always)]
pub(crate) fn is_number(ty: &ValType) -> bool
    ensures { IsTrue result → IsNumber (val_type ty.now) }
{
    match ty {
        ValType::I32 | ValType::I64 | ValType::F32 | ValType::F64 => true,
        ValType::V128 | ValType::Ref(_) => false,
    }
}

impl<R: WasmModuleResources> Body<R> {
    // Checks that each type of numbers is below itself, as it is in modules.
    fn numbers_fit(&self) -> bool
        ensures { IsTrue result → NumbersFit (items_in R.resources self.now) }
    {
        self.resources.is_subtype(ValType::I32, ValType::I32)
            && self.resources.is_subtype(ValType::I64, ValType::I64)
            && self.resources.is_subtype(ValType::F32, ValType::F32)
            && self.resources.is_subtype(ValType::F64, ValType::F64)
    }

    #[inline(always)]
    pub(crate) fn set_local(&self, stacks: &mut Stacks, index: u32) -> bool
        requires fit { NumbersFit (items_in R.resources self.now) }
        ensures { TriesEffect (effect_of (body_context R.resources self.now) (labels_of (items_in R.resources self.now) stacks.old.frames) stacks.old.now (spec.LocalSet index)) stacks.old stacks.new result }
    {
        let Some(local) = self.kept_local(index) else {
            return false;
        };
        if !local.is_set || !is_number(&local.value_type) {
            return false;
        }
        stacks.pop_known(&local.value_type)
    }

    #[inline(always)]
    pub(crate) fn tee_local(&self, stacks: &mut Stacks, index: u32) -> bool
        requires fit { NumbersFit (items_in R.resources self.now) }
        ensures { TriesEffect (effect_of (body_context R.resources self.now) (labels_of (items_in R.resources self.now) stacks.old.frames) stacks.old.now (spec.LocalTee index)) stacks.old stacks.new result }
    {
        let Some(local) = self.kept_local(index) else {
            return false;
        };
        if !local.is_set || !is_number(&local.value_type) {
            return false;
        }
        stacks.are_known(0, slice::from_ref(&local.value_type))
    }

    #[inline(always)]
    pub(crate) fn set_global(&self, stacks: &mut Stacks, index: u32) -> bool
        requires fit { NumbersFit (items_in R.resources self.now) }
        ensures { TriesEffect (effect_of (body_context R.resources self.now) (labels_of (items_in R.resources self.now) stacks.old.frames) stacks.old.now (spec.GlobalSet index)) stacks.old stacks.new result }
    {
        let Some(global) = self.resources.global_at(index) else {
            return false;
        };
        if !global.mutable || !is_number(&global.content_type) {
            return false;
        }
        stacks.pop_known(&global.content_type)
    }

    // Validates a jump to a label, where the operand on top isn't 0.
    #[inline(always)]
    fn jump_if(&self, stacks: &mut Stacks, label: u32) -> bool
        requires fit { NumbersFit (items_in R.resources self.now) }
        ensures { TriesEffect (effect_of (body_context R.resources self.now) (labels_of (items_in R.resources self.now) stacks.old.frames) stacks.old.now (spec.BrIf label)) stacks.old stacks.new result }
    {
        let Some((kind, block_type)) = self.target(stacks, label) else {
            return false;
        };
        if !self.label(kind, &block_type).is_empty() {
            return self.br_if(stacks, label).is_ok();
        }
        stacks.pop_known(&ValType::I32)
    }

    // Validates an operator after whose code a number stands.
    #[inline(always)]
    fn with_number(&self, code: u8, stacks: &mut Stacks, number: u32) -> bool
        requires inside { stacks.old.frames ≢ [] }
        requires fit { NumbersFit (items_in R.resources self.now) }
        ensures { TriesNumber (body_context R.resources self.now) stacks.old stacks.new code number result }
    {
        match code {
            0x0c => self.br(stacks, number).is_ok(),
            0x0d => self.jump_if(stacks, number),
            0x10 => self.call(stacks, number).is_ok(),
            0x20 => self.local_get(stacks, number).is_ok(),
            0x21 => self.set_local(stacks, number),
            0x22 => self.tee_local(stacks, number),
            0x23 => self.global_get(stacks, number).is_ok(),
            0x24 => self.set_global(stacks, number),
            _ => false,
        }
    }

    // Opens a block that takes nothing.
    #[inline(always)]
    fn open_plain(&self, code: u8, stacks: &mut Stacks, ty: &BlockType) -> bool
        requires inside { stacks.old.frames ≢ [] }
        requires plain { block_gate (block_type ty.now) ≡ [] }
        requires of_module { IsBlockOfModule ty.now }
        ensures { TriesBlock (body_context R.resources self.now) stacks.old stacks.new code (block_type ty.now) result }
    {
        match code {
            0x02 => self.open(stacks, FrameKind::Block, ty).is_ok(),
            0x03 => self.open(stacks, FrameKind::Loop, ty).is_ok(),
            0x04 => self.open_if(stacks, ty).is_ok(),
            _ => false,
        }
    }

    #[inline(always)]
    fn plain_block<'a>(&self, code: u8, stacks: &mut Stacks, rest: &'a [u8]) -> Option<&'a [u8]>
        requires inside { stacks.old.frames ≢ [] }
        requires fit { NumbersFit (items_in R.resources self.now) }
        ensures { MatchOption result (stacks.new ≡ stacks.old) (λ after. IsStep (body_context R.resources self.now) stacks.old stacks.new (code ∷ rest.now) after.now) }
    {
        let [ty, rest @ ..] = rest else {
            return None;
        };
        let ty = plain_block_type(*ty)?;
        if self.open_plain(code, stacks, &ty) {
            Some(rest)
        } else {
            None
        }
    }

    // Validates an operator that is its code.
    #[inline(always)]
    fn bare(&self, code: u8, stacks: &mut Stacks) -> bool
        requires inside { stacks.old.frames ≢ [] }
        requires fit { NumbersFit (items_in R.resources self.now) }
        ensures { TriesBare (body_context R.resources self.now) stacks.old stacks.new code result }
    {
        match code {
            0x01 => true,
            0x05 => self.else_(stacks).is_ok(),
            0x0b => stacks.frame_count() > 1 && self.close(stacks).is_ok(),
            0x0f => self.return_(stacks).is_ok(),
            0x1b => self.select(stacks).is_ok(),
            _ => false,
        }
    }

    #[inline(always)]
    fn plain_bare<'a>(&self, code: u8, stacks: &mut Stacks, rest: &'a [u8]) -> Option<&'a [u8]>
        requires inside { stacks.old.frames ≢ [] }
        requires fit { NumbersFit (items_in R.resources self.now) }
        ensures { MatchOption result (stacks.new ≡ stacks.old) (λ after. IsStep (body_context R.resources self.now) stacks.old stacks.new (code ∷ rest.now) after.now) }
    {
        if self.bare(code, stacks) {
            Some(rest)
        } else {
            None
        }
    }

    #[inline(always)]
    fn plain_number<'a>(&self, code: u8, stacks: &mut Stacks, rest: &'a [u8]) -> Option<&'a [u8]>
        requires inside { stacks.old.frames ≢ [] }
        requires fit { NumbersFit (items_in R.resources self.now) }
        ensures { MatchOption result (stacks.new ≡ stacks.old) (λ after. IsStep (body_context R.resources self.now) stacks.old stacks.new (code ∷ rest.now) after.now) }
    {
        let (number, rest) = five_bytes(32, rest)?;
        if self.with_number(code, stacks, number) {
            Some(rest)
        } else {
            None
        }
    }

    #[inline(always)]
    fn plain_constant<'a>(&self, code: u8, stacks: &mut Stacks, rest: &'a [u8]) -> Option<&'a [u8]>
        requires inside { stacks.old.frames ≢ [] }
        ensures { MatchOption result (stacks.new ≡ stacks.old) (λ after. IsStep (body_context R.resources self.now) stacks.old stacks.new (code ∷ rest.now) after.now) }
    {
        match code {
            0x41 => {
                let after = past_i32(rest)?;
                match stacks.push_known(ValType::I32) {
                    Ok(()) => Some(after),
                    Err(_) => None,
                }
            }
            0x42 => {
                let after = past_i64(rest)?;
                match stacks.push_known(ValType::I64) {
                    Ok(()) => Some(after),
                    Err(_) => None,
                }
            }
            _ => None,
        }
    }

    // Returns the operator at the front, if it is plain, and the bytes after it.
    #[inline(never)]
    fn plain<'a>(&self, stacks: &mut Stacks, code: &'a [u8]) -> Option<&'a [u8]>
        requires inside { stacks.old.frames ≢ [] }
        requires fit { NumbersFit (items_in R.resources self.now) }
        ensures { MatchOption result (stacks.new ≡ stacks.old) (λ after. IsStep (body_context R.resources self.now) stacks.old stacks.new code.now after.now) }
    {
        let [first, rest @ ..] = code else {
            return None;
        };
        match *first {
            0x01 | 0x05 | 0x0b | 0x0f | 0x1b => self.plain_bare(*first, stacks, rest),
            0x02 | 0x03 | 0x04 => self.plain_block(*first, stacks, rest),
            0x41 | 0x42 => self.plain_constant(*first, stacks, rest),
            _ => self.plain_number(*first, stacks, rest),
        }
    }

    // Validates plain operators at the front, and returns the bytes that are left.
    pub(crate) fn run<'a>(&self, stacks: &mut Stacks, code: &'a [u8]) -> &'a [u8]
        requires inside { stacks.old.frames ≢ [] }
        ensures { LeadsOn (body_context R.resources self.now) stacks.old stacks.new code.now result.now }
    {
        if !self.numbers_fit() {
            return code;
        }
        let mut rest = self.run_quickly(stacks, code);
        'operators: while let Some(after) = self.plain(stacks, rest) {
            rest = self.run_quickly(stacks, after);
        }
        rest
    }
}
