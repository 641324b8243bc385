//! Locals and globals (Core Specification 3.0, Validation, "Variable Instructions").

ghost use Rattle.std.specs.Prelude.{◌≡◌};
ghost use Rattle.wasm_bodies.specs.Operators as spec;
ghost use Rattle.wasmparser_func_validator.specs.Steps.{HasEffect, body_context};

use crate::body::Body;
use crate::refusal::Refusal;
use crate::type_list::Types;
use std::slice;
use wasmparser_bodies::module_resources::WasmModuleResources;
use wasmparser_bodies::stacks::Stacks;

impl<R: WasmModuleResources> Body<R> {
    #[inline(always)]
    pub(crate) fn local_get(&self, stacks: &mut Stacks, index: u32) -> Result<(), Refusal>
        ensures { HasEffect (body_context R.resources self.now) (spec.LocalGet index) stacks.old stacks.new result }
    {
        let Some(local) = self.local_at(index) else {
            return Err(Refusal::Invalid);
        };
        if !local.is_set && !stacks.is_assigned(index) {
            return Err(Refusal::Invalid);
        }
        stacks.push_known(local.value_type)?;
        Ok(())
    }

    pub(crate) fn local_set(&self, stacks: &mut Stacks, index: u32) -> Result<(), Refusal>
        ensures { HasEffect (body_context R.resources self.now) (spec.LocalSet index) stacks.old stacks.new result }
    {
        let Some(local) = self.local_at(index) else {
            return Err(Refusal::Invalid);
        };
        if !self.accepts(stacks, 0, &Types(slice::from_ref(&local.value_type))) {
            return Err(Refusal::Invalid);
        }
        if !local.is_set {
            stacks.assign(index)?;
        }
        stacks.lower(1);
        Ok(())
    }

    pub(crate) fn local_tee(&self, stacks: &mut Stacks, index: u32) -> Result<(), Refusal>
        ensures { HasEffect (body_context R.resources self.now) (spec.LocalTee index) stacks.old stacks.new result }
    {
        let Some(local) = self.local_at(index) else {
            return Err(Refusal::Invalid);
        };
        let types = slice::from_ref(&local.value_type);
        if !self.accepts(stacks, 0, &Types(types)) {
            return Err(Refusal::Invalid);
        }
        if local.is_set {
            stacks.replace(1, types)?;
        } else {
            stacks.replace_and_assign(1, types, index)?;
        }
        Ok(())
    }

    pub(crate) fn global_get(&self, stacks: &mut Stacks, index: u32) -> Result<(), Refusal>
        ensures { HasEffect (body_context R.resources self.now) (spec.GlobalGet index) stacks.old stacks.new result }
    {
        match self.resources.global_at(index) {
            Some(global) => {
                stacks.push_known(global.content_type)?;
                Ok(())
            }
            None => Err(Refusal::Invalid),
        }
    }

    pub(crate) fn global_set(&self, stacks: &mut Stacks, index: u32) -> Result<(), Refusal>
        ensures { HasEffect (body_context R.resources self.now) (spec.GlobalSet index) stacks.old stacks.new result }
    {
        let Some(global) = self.resources.global_at(index) else {
            return Err(Refusal::Invalid);
        };
        if !global.mutable {
            return Err(Refusal::Invalid);
        }
        self.apply(stacks, slice::from_ref(&global.content_type), &[])
    }
}
