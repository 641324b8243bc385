//! Operands that operators take and give, and the locals of a body.

ghost use Rattle.std.specs.Prelude.{◌≡◌, ◌≢◌, ◌+◌, ◌≤◌, [], IfSome, length, map, option_map, slice_get, Some};
ghost use Rattle.wasm_bodies.specs.BodyContext.{are_below, provided};
ghost use Rattle.wasm_bodies.specs.Effects.{leaves};
ghost use Rattle.wasm_bodies.specs.Operands.{all_taken, applied, fits};
ghost use Rattle.wasm_bodies.specs.Signatures.{after_one_more, from_to};
ghost use Rattle.wasm_spec.specs.Limits as limits;
ghost use Rattle.wasmparser_bodies.specs.LocalRuns.{local_seen};
ghost use Rattle.wasmparser_bodies.specs.StackChanges.{lowered};
ghost use Rattle.wasmparser_bodies.specs.StackViews.{operand};
ghost use Rattle.wasmparser_func_validator.specs.Steps.{Takes, items_in, locals_in_body};
ghost use Rattle.wasmparser_types.specs.ValTypes.{val_type};

use crate::lookups::params_at;
use crate::refusal::Refusal;
use crate::type_list::{TypeList, Types};
use std::slice;
use wasm_core_types::features::WasmFeatures;
use wasmparser_bodies::locals::{Local, Locals};
use wasmparser_bodies::module_resources::WasmModuleResources;
use wasmparser_bodies::operand::Operand;
use wasmparser_bodies::stacks::Stacks;
use wasmparser_types::val_type::ValType;

/// The part of a validator that stays the same while a body is validated, its locals aside.
#[derive(Drop)]
pub struct Body<R> {
    pub(crate) resources: R,
    pub(crate) features: WasmFeatures,
    pub(crate) locals: Locals,
    // The type index of the function.
    pub(crate) ty: u32,
}

impl<R: WasmModuleResources> Body<R> {
    // Returns how many locals there are.
    pub(crate) fn local_count(&self) -> u32
        ensures count { result ≡ length (locals_in_body R.resources self.now) }
        ensures within { length (locals_in_body R.resources self.now) ≤ limits.most limits.Locals }
    {
        self.locals.len()
    }

    // Returns the local of an index, if it is kept: a parameter past the first 64 is not.
    #[inline(always)]
    pub(crate) fn kept_local(&self, index: u32) -> Option<&Local>
        ensures { IfSome result (λ local. slice_get (locals_in_body R.resources self.now) index ≡ Some (local_seen local.now)) }
    {
        self.locals.get(index)
    }

    // Returns the local of an index.
    #[tactic(auto, unfolding(crate::specs::Steps::locals_in_body))]
    pub(crate) fn local_at(&self, index: u32) -> Option<Local>
        ensures { option_map local_seen result ≡ slice_get (locals_in_body R.resources self.now) index }
    {
        match self.kept_local(index) {
            Some(local) => Some(*local),
            None => self.locals.find(params_at(&self.resources, self.ty), index),
        }
    }

    // Checks that an operand may stand where one of the type is wanted.
    fn fits(&self, wanted: ValType, x: &Operand) -> bool
        ensures { result ≡ fits (items_in R.resources self.now) (val_type wanted) (operand x.now) }
    {
        match x {
            Operand::Known(known) => self.resources.is_subtype(*known, wanted),
            Operand::Unknown => true,
            Operand::UnknownRef => wanted.is_ref(),
        }
    }

    // Checks that operands of these types are there, below the last one or from the last one on.
    pub(crate) fn accepts<L: TypeList>(&self, stacks: &Stacks, above: usize, types: &L) -> bool
        requires { above ≤ 1 }
        ensures { all_taken (items_in R.resources self.now) (L.types types.now) (lowered above stacks.now.now) ≡ provided result (Some (lowered (above + length (L.types types.now)) stacks.now.now)) }
    {
        let count = types.count();
        let mut left = count;
        while left > 0 {
            let depth = above + (count - left);
            let Some(x) = stacks.peek(depth) else {
                return false;
            };
            if depth >= stacks.known_len() {
                return true;
            }
            left -= 1;
            if !self.fits(types.type_at(left), &x) {
                return false;
            }
        }
        true
    }

    // Takes operands and gives others.
    pub(crate) fn apply(
        &self,
        stacks: &mut Stacks,
        takes: &[ValType],
        gives: &[ValType],
    ) -> Result<(), Refusal>
        ensures { Takes (applied (items_in R.resources self.now) (from_to (map val_type takes.now) (map val_type gives.now)) stacks.old.now) stacks.old stacks.new result }
    {
        if !self.accepts(stacks, 0, &Types(takes)) {
            return Err(Refusal::Invalid);
        }
        stacks.replace(takes.len(), gives)?;
        Ok(())
    }

    // Checks that an operand of a type is there, and others below it.
    pub(crate) fn accepts_with_last(
        &self,
        stacks: &Stacks,
        takes: &[ValType],
        last: &ValType,
    ) -> bool
        ensures { all_taken (items_in R.resources self.now) (after_one_more (val_type last.now) (from_to (map val_type takes.now) [])).params stacks.now.now ≡ provided result (Some (lowered (length takes.now + 1) stacks.now.now)) }
    {
        self.accepts(stacks, 0, &Types(slice::from_ref(last)))
            && self.accepts(stacks, 1, &Types(takes))
    }

    // Takes an operand, and others below it, and gives others.
    pub(crate) fn apply_with_last(
        &self,
        stacks: &mut Stacks,
        takes: &[ValType],
        last: &ValType,
        gives: &[ValType],
    ) -> Result<(), Refusal>
        ensures { Takes (applied (items_in R.resources self.now) (after_one_more (val_type last.now) (from_to (map val_type takes.now) (map val_type gives.now))) stacks.old.now) stacks.old stacks.new result }
    {
        if !self.accepts_with_last(stacks, takes, last) {
            return Err(Refusal::Invalid);
        }
        stacks.replace(takes.len() + 1, gives)?;
        Ok(())
    }

    // Takes operands, and never goes on.
    pub(crate) fn leave(&self, stacks: &mut Stacks, takes: &[ValType]) -> Result<(), Refusal>
        requires { stacks.old.frames ≢ [] }
        ensures { Takes (leaves (items_in R.resources self.now) (map val_type takes.now) stacks.old.now) stacks.old stacks.new result }
    {
        if !self.accepts(stacks, 0, &Types(takes)) {
            return Err(Refusal::Invalid);
        }
        stacks.mark_unreachable();
        Ok(())
    }

    // Takes an operand, and others below it, and never goes on.
    pub(crate) fn leave_with_last(
        &self,
        stacks: &mut Stacks,
        takes: &[ValType],
        last: &ValType,
    ) -> Result<(), Refusal>
        requires { stacks.old.frames ≢ [] }
        ensures { Takes (leaves (items_in R.resources self.now) (after_one_more (val_type last.now) (from_to (map val_type takes.now) [])).params stacks.old.now) stacks.old stacks.new result }
    {
        if !self.accepts_with_last(stacks, takes, last) {
            return Err(Refusal::Invalid);
        }
        stacks.mark_unreachable();
        Ok(())
    }

    // Checks that both lists have equal length and each type is a subtype of its counterpart.
    pub(crate) fn are_below(&self, types: &[ValType], wanted: &[ValType]) -> bool
        ensures { result ≡ are_below (items_in R.resources self.now) (map val_type types.now) (map val_type wanted.now) }
    {
        if types.len() != wanted.len() {
            return false;
        }
        for index in 0..types.len() {
            if !self.resources.is_subtype(types[index], wanted[index]) {
                return false;
            }
        }
        true
    }
}
