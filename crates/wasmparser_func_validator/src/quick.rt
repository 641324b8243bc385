//! The fastest of three ways to validate operators: the most frequent ones from their bytes, in a loop that calls nothing and takes no memory, so that
//! what it needs of the stacks stays at hand; what is rarer, or needs more, it leaves as it was to `plain`.

ghost use Rattle.std.specs.Prelude.{◌≡◌, ◌≢◌, ◌∷◌, ◌<◌, [], IsTrue, IfSome, MatchOption, Some, map, slice_get};
ghost use Rattle.wasm_bodies.specs.Effects.{effect_of};
ghost use Rattle.wasm_bodies.specs.OperatorRows.{value_type};
ghost use Rattle.wasm_bodies.specs.Operands.{applied};
ghost use Rattle.wasm_bodies.specs.Operators as spec;
ghost use Rattle.wasm_bodies.specs.Signatures.{from_to};
ghost use Rattle.wasm_bodies_laws.specs.Machine.{labels_of};
ghost use Rattle.wasm_core_types.specs.Features.{feature_set};
ghost use Rattle.wasmparser_bodies.specs.Runs.{LeadsOn};
ghost use Rattle.wasmparser_func_validator.specs.NumericForms.{form_gives, form_takes};
ghost use Rattle.wasmparser_func_validator.specs.Plain.{AreItself, IsScalarForm, IsStep, NumbersFit, TriesBare, TriesBlock, TriesEffect, TriesNumber};
ghost use Rattle.wasmparser_func_validator.specs.Steps.{body_context, items_in};
ghost use Rattle.wasmparser_operators.specs.OperatorReading.{memory_argument_at};
ghost use Rattle.wasmparser_operators.specs.OperatorValues.{block_type, memory_argument};
ghost use Rattle.wasmparser_types.specs.ValTypes.{val_type};

use crate::body::Body;
use crate::gates::{are_floats_on, is_number_on};
use crate::number_type::NumberType;
use crate::numeric::NumericForm;
use crate::plain_classes::{Class, class_of};
use crate::plain_numbers::{
    five_bytes, offset_bits, past_eight, past_four, past_i32, past_short_i64,
};
use crate::plain_rows::{load_form, store_form};
use crate::plain_scalars::{conversion_form, f32_form, f64_form, i32_form, i64_form};
use wasmparser_bodies::frame::FrameKind;
use wasmparser_bodies::module_resources::WasmModuleResources;
use wasmparser_bodies::stacks::Stacks;
use wasmparser_operators::immediates::{BlockType, MemArg};
use wasmparser_types::val_type::ValType;

impl<R: WasmModuleResources> Body<R> {
    // ---- locals, globals and jumps

    #[inline(always)]
    fn push_local(&self, stacks: &mut Stacks, index: u32) -> bool
        ensures { TriesEffect (effect_of (body_context R.resources self.now) (labels_of (items_in R.resources self.now) stacks.old.frames) stacks.old.now (spec.LocalGet index)) stacks.old stacks.new result }
    {
        let Some(local) = self.kept_local(index) else {
            return false;
        };
        local.is_set && stacks.push_within_capacity(local.value_type)
    }

    #[inline(always)]
    fn push_global(&self, stacks: &mut Stacks, index: u32) -> bool
        ensures { TriesEffect (effect_of (body_context R.resources self.now) (labels_of (items_in R.resources self.now) stacks.old.frames) stacks.old.now (spec.GlobalGet index)) stacks.old stacks.new result }
    {
        match self.resources.global_at(index) {
            Some(global) => stacks.push_within_capacity(global.content_type),
            None => false,
        }
    }

    // Checks that a jump to a label takes nothing, as far as that shows without a look at types.
    #[inline(always)]
    fn is_empty_label(&self, stacks: &Stacks, label: u32) -> bool
        ensures { IsTrue result → slice_get (labels_of (items_in R.resources self.now) stacks.now.frames) label ≡ Some [] }
    {
        let Some((kind, block_type)) = self.target(stacks, label) else {
            return false;
        };
        match block_type {
            BlockType::Empty => self.label(kind, &BlockType::Empty).is_empty(),
            BlockType::Type(_) | BlockType::FuncType(_) => false,
        }
    }

    #[inline(always)]
    fn jump(&self, stacks: &mut Stacks, label: u32) -> bool
        requires inside { stacks.old.frames ≢ [] }
        ensures { TriesEffect (effect_of (body_context R.resources self.now) (labels_of (items_in R.resources self.now) stacks.old.frames) stacks.old.now (spec.Br label)) stacks.old stacks.new result }
    {
        if !self.is_empty_label(stacks, label) {
            return false;
        }
        stacks.mark_unreachable();
        true
    }

    #[inline(always)]
    fn jump_quickly_if(&self, stacks: &mut Stacks, label: u32) -> bool
        requires fit { NumbersFit (items_in R.resources self.now) }
        ensures { TriesEffect (effect_of (body_context R.resources self.now) (labels_of (items_in R.resources self.now) stacks.old.frames) stacks.old.now (spec.BrIf label)) stacks.old stacks.new result }
    {
        self.is_empty_label(stacks, label) && stacks.pop_known(&ValType::I32)
    }

    #[inline(always)]
    fn with_small_number(&self, code: u8, stacks: &mut Stacks, number: u32) -> bool
        requires inside { stacks.old.frames ≢ [] }
        requires fit { NumbersFit (items_in R.resources self.now) }
        ensures { TriesNumber (body_context R.resources self.now) stacks.old stacks.new code number result }
    {
        match code {
            0x0c => self.jump(stacks, number),
            0x0d => self.jump_quickly_if(stacks, number),
            0x20 => self.push_local(stacks, number),
            0x21 => self.set_local(stacks, number),
            0x22 => self.tee_local(stacks, number),
            0x23 => self.push_global(stacks, number),
            0x24 => self.set_global(stacks, number),
            _ => false,
        }
    }

    // Returns an operator with a number of one byte.
    #[inline(always)]
    fn quick_number<'a>(&self, code: u8, stacks: &mut Stacks, rest: &'a [u8]) -> Option<&'a [u8]>
        requires inside { stacks.old.frames ≢ [] }
        requires fit { NumbersFit (items_in R.resources self.now) }
        ensures { MatchOption result (stacks.new ≡ stacks.old) (λ after. IsStep (body_context R.resources self.now) stacks.old stacks.new (code ∷ rest.now) after.now) }
    {
        match rest {
            [byte, after @ ..] if *byte < 0x80 => {
                if self.with_small_number(code, stacks, u32::from(*byte)) {
                    Some(after)
                } else {
                    None
                }
            }
            _ => None,
        }
    }

    // ---- numbers

    // Takes operands that are of exactly these types, and gives another one.
    #[inline(always)]
    fn exchange(&self, stacks: &mut Stacks, takes: &[ValType], gives: ValType) -> bool
        requires some { takes.now ≢ [] }
        requires fit { AreItself (items_in R.resources self.now) (map val_type takes.now) }
        ensures { TriesEffect (applied (items_in R.resources self.now) (from_to (map val_type takes.now) (val_type gives ∷ [])) stacks.old.now) stacks.old stacks.new result }
    {
        if !stacks.are_known(0, takes) {
            return false;
        }
        stacks.exchange(takes.len(), gives);
        true
    }

    // Validates an operator on numbers by its form.
    #[inline(always)]
    fn compute(&self, stacks: &mut Stacks, form: NumericForm) -> bool
        requires fit { NumbersFit (items_in R.resources self.now) }
        ensures { TriesEffect (applied (items_in R.resources self.now) (from_to (map value_type (form_takes form)) (value_type (form_gives form) ∷ [])) stacks.old.now) stacks.old stacks.new result }
    {
        match form {
            NumericForm::Unary(from, to) => {
                self.exchange(stacks, &[from.val_type()], to.val_type())
            }
            NumericForm::Binary(of, to) => {
                self.exchange(stacks, &[of.val_type(), of.val_type()], to.val_type())
            }
        }
    }

    // Returns an operator on numbers.
    #[inline(always)]
    fn quick_scalar<'a>(
        &self,
        code: u8,
        form: Option<NumericForm>,
        stacks: &mut Stacks,
        rest: &'a [u8],
    ) -> Option<&'a [u8]>
        requires inside { stacks.old.frames ≢ [] }
        requires fit { NumbersFit (items_in R.resources self.now) }
        requires formed { IfSome form (IsScalarForm code) }
        ensures { MatchOption result (stacks.new ≡ stacks.old) (λ after. IsStep (body_context R.resources self.now) stacks.old stacks.new (code ∷ rest.now) after.now) }
    {
        let form = form?;
        if are_floats_on(self.features, form) && self.compute(stacks, form) {
            Some(rest)
        } else {
            None
        }
    }

    #[inline(always)]
    fn quick_constant<'a>(&self, code: u8, stacks: &mut Stacks, rest: &'a [u8]) -> Option<&'a [u8]>
        requires inside { stacks.old.frames ≢ [] }
        ensures { MatchOption result (stacks.new ≡ stacks.old) (λ after. IsStep (body_context R.resources self.now) stacks.old stacks.new (code ∷ rest.now) after.now) }
    {
        match code {
            0x41 => {
                let after = past_i32(rest)?;
                if stacks.push_within_capacity(ValType::I32) {
                    Some(after)
                } else {
                    None
                }
            }
            0x42 => {
                let after = past_short_i64(rest)?;
                if stacks.push_within_capacity(ValType::I64) {
                    Some(after)
                } else {
                    None
                }
            }
            _ => None,
        }
    }

    #[inline(always)]
    fn quick_float<'a>(&self, code: u8, stacks: &mut Stacks, rest: &'a [u8]) -> Option<&'a [u8]>
        requires inside { stacks.old.frames ≢ [] }
        ensures { MatchOption result (stacks.new ≡ stacks.old) (λ after. IsStep (body_context R.resources self.now) stacks.old stacks.new (code ∷ rest.now) after.now) }
    {
        if !self.features.floats() {
            return None;
        }
        match code {
            0x43 => {
                let after = past_four(rest)?;
                if stacks.push_within_capacity(ValType::F32) {
                    Some(after)
                } else {
                    None
                }
            }
            0x44 => {
                let after = past_eight(rest)?;
                if stacks.push_within_capacity(ValType::F64) {
                    Some(after)
                } else {
                    None
                }
            }
            _ => None,
        }
    }

    // ---- memories

    // Reads the memory argument of an operator, and returns it with the bytes after it.
    #[inline(always)]
    fn memarg<'a>(&self, max_align: u8, code: &'a [u8]) -> Option<(MemArg, &'a [u8])>
        ensures { IfSome result (λ x. memory_argument_at (feature_set self.now.features) code.now ≡ Some (memory_argument x.0, x.1.now)) }
    {
        let [align, rest @ ..] = code else {
            return None;
        };
        if *align >= 0x40 {
            return None;
        }
        let (offset, rest) = five_bytes(offset_bits(self.features), rest)?;
        let memarg = MemArg {
            align: *align,
            max_align,
            offset: u64::from(offset),
            memory: 0,
        };
        Some((memarg, rest))
    }

    #[inline(always)]
    fn quick_load<'a>(&self, code: u8, stacks: &mut Stacks, rest: &'a [u8]) -> Option<&'a [u8]>
        requires inside { stacks.old.frames ≢ [] }
        requires fit { NumbersFit (items_in R.resources self.now) }
        ensures { MatchOption result (stacks.new ≡ stacks.old) (λ after. IsStep (body_context R.resources self.now) stacks.old stacks.new (code ∷ rest.now) after.now) }
    {
        let (ty, exponent) = load_form(code)?;
        if !is_number_on(self.features, ty) {
            return None;
        }
        let (memarg, rest) = self.memarg(exponent, rest)?;
        let address = self.accessed(&memarg, exponent)?;
        if self.exchange(stacks, &[address], ty.val_type()) {
            Some(rest)
        } else {
            None
        }
    }

    #[inline(always)]
    fn quick_store<'a>(&self, code: u8, stacks: &mut Stacks, rest: &'a [u8]) -> Option<&'a [u8]>
        requires inside { stacks.old.frames ≢ [] }
        requires fit { NumbersFit (items_in R.resources self.now) }
        ensures { MatchOption result (stacks.new ≡ stacks.old) (λ after. IsStep (body_context R.resources self.now) stacks.old stacks.new (code ∷ rest.now) after.now) }
    {
        let (ty, exponent) = store_form(code)?;
        if !is_number_on(self.features, ty) {
            return None;
        }
        let (memarg, rest) = self.memarg(exponent, rest)?;
        let address = self.accessed(&memarg, exponent)?;
        if stacks.are_known(0, &[address, ty.val_type()]) {
            stacks.lower(2);
            Some(rest)
        } else {
            None
        }
    }

    // ---- blocks

    // Opens a block without types.
    #[inline(always)]
    fn open_empty(&self, code: u8, stacks: &mut Stacks) -> bool
        requires inside { stacks.old.frames ≢ [] }
        requires fit { NumbersFit (items_in R.resources self.now) }
        ensures { TriesBlock (body_context R.resources self.now) stacks.old stacks.new code spec.Empty result }
    {
        match code {
            0x02 => stacks.enter_within_capacity(FrameKind::Block, BlockType::Empty, 0),
            0x03 => stacks.enter_within_capacity(FrameKind::Loop, BlockType::Empty, 0),
            0x04 => {
                stacks.are_known(0, &[ValType::I32])
                    && stacks.enter_within_capacity(FrameKind::If, BlockType::Empty, 1)
            }
            _ => false,
        }
    }

    #[inline(always)]
    fn quick_block<'a>(&self, code: u8, stacks: &mut Stacks, rest: &'a [u8]) -> Option<&'a [u8]>
        requires inside { stacks.old.frames ≢ [] }
        requires fit { NumbersFit (items_in R.resources self.now) }
        ensures { MatchOption result (stacks.new ≡ stacks.old) (λ after. IsStep (body_context R.resources self.now) stacks.old stacks.new (code ∷ rest.now) after.now) }
    {
        match rest {
            [byte, after @ ..] if *byte == 0x40 => {
                if self.open_empty(code, stacks) {
                    Some(after)
                } else {
                    None
                }
            }
            _ => None,
        }
    }

    // Closes a block without types that isn't the body's own.
    #[inline(always)]
    fn close_empty(&self, stacks: &mut Stacks) -> bool
        ensures { TriesBare (body_context R.resources self.now) stacks.old stacks.new 0x0b result }
    {
        let Some(frame) = stacks.frame_at(0) else {
            return false;
        };
        let BlockType::Empty = frame.block_type else {
            return false;
        };
        if stacks.known_len() > 0 || stacks.frame_count() < 2 {
            return false;
        }
        stacks.leave_empty();
        true
    }

    #[inline(always)]
    fn quick_end<'a>(&self, stacks: &mut Stacks, rest: &'a [u8]) -> Option<&'a [u8]>
        ensures { MatchOption result (stacks.new ≡ stacks.old) (λ after. IsStep (body_context R.resources self.now) stacks.old stacks.new (0x0b ∷ rest.now) after.now) }
    {
        if self.close_empty(stacks) {
            Some(rest)
        } else {
            None
        }
    }

    // ---- operators that are their code

    #[inline(always)]
    fn bare_quickly(&self, code: u8, stacks: &mut Stacks) -> bool
        requires inside { stacks.old.frames ≢ [] }
        ensures { TriesBare (body_context R.resources self.now) stacks.old stacks.new code result }
    {
        match code {
            0x00 => {
                stacks.mark_unreachable();
                true
            }
            0x1a => self.drop_one(stacks).is_ok(),
            _ => false,
        }
    }

    #[inline(always)]
    fn quick_bare<'a>(&self, code: u8, stacks: &mut Stacks, rest: &'a [u8]) -> Option<&'a [u8]>
        requires inside { stacks.old.frames ≢ [] }
        ensures { MatchOption result (stacks.new ≡ stacks.old) (λ after. IsStep (body_context R.resources self.now) stacks.old stacks.new (code ∷ rest.now) after.now) }
    {
        if self.bare_quickly(code, stacks) {
            Some(rest)
        } else {
            None
        }
    }

    // ---- the loop

    // Returns the operator at the front, if it is one of these, and the bytes after it. The two most frequent ones are told by tests of their own, which cost less
    // than a jump by a table that is guessed wrongly.
    #[inline(always)]
    fn quick<'a>(&self, stacks: &mut Stacks, code: &'a [u8]) -> Option<&'a [u8]>
        requires inside { stacks.old.frames ≢ [] }
        requires fit { NumbersFit (items_in R.resources self.now) }
        ensures { MatchOption result (stacks.new ≡ stacks.old) (λ after. IsStep (body_context R.resources self.now) stacks.old stacks.new code.now after.now) }
    {
        let [first, rest @ ..] = code else {
            return None;
        };
        let code = *first;
        if code == 0x20 {
            return self.quick_number(0x20, stacks, rest);
        }
        if code == 0x41 {
            return self.quick_constant(0x41, stacks, rest);
        }
        match class_of(code) {
            Class::LocalSet if code == 0x21 => self.quick_number(0x21, stacks, rest),
            Class::LocalTee if code == 0x22 => self.quick_number(0x22, stacks, rest),
            Class::GlobalGet if code == 0x23 => self.quick_number(0x23, stacks, rest),
            Class::GlobalSet if code == 0x24 => self.quick_number(0x24, stacks, rest),
            Class::Br if code == 0x0c => self.quick_number(0x0c, stacks, rest),
            Class::BrIf if code == 0x0d => self.quick_number(0x0d, stacks, rest),
            Class::End if code == 0x0b => self.quick_end(stacks, rest),
            Class::Bare => self.quick_bare(code, stacks, rest),
            Class::Block => self.quick_block(code, stacks, rest),
            Class::Load => self.quick_load(code, stacks, rest),
            Class::Store => self.quick_store(code, stacks, rest),
            Class::I64Const if code == 0x42 => self.quick_constant(0x42, stacks, rest),
            Class::Float => self.quick_float(code, stacks, rest),
            Class::I32 => self.quick_scalar(code, i32_form(code), stacks, rest),
            Class::I64 => self.quick_scalar(code, i64_form(code), stacks, rest),
            Class::F32 => self.quick_scalar(code, f32_form(code), stacks, rest),
            Class::F64 => self.quick_scalar(code, f64_form(code), stacks, rest),
            Class::Conversion => self.quick_scalar(code, conversion_form(code), stacks, rest),
            _ => None,
        }
    }

    // Validates these operators at the front, and returns the bytes that are left.
    #[inline(never)]
    pub(crate) fn run_quickly<'a>(&self, stacks: &mut Stacks, code: &'a [u8]) -> &'a [u8]
        requires inside { stacks.old.frames ≢ [] }
        requires fit { NumbersFit (items_in R.resources self.now) }
        ensures { LeadsOn (body_context R.resources self.now) stacks.old stacks.new code.now result.now }
    {
        let mut rest = code;
        'operators: while let Some(after) = self.quick(stacks, rest) {
            rest = after;
        }
        rest
    }
}
