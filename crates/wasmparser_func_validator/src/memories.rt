//! Memories and data segments (Core Specification 3.0, Validation, "Memory Instructions").

ghost use Rattle.std.specs.Prelude.{◌≡◌};
ghost use Rattle.wasm_bodies.specs.OperatorRows.{access};
ghost use Rattle.wasm_bodies.specs.Signatures.{has_data};
ghost use Rattle.wasmparser_func_validator.specs.NumericForms.{number};
ghost use Rattle.wasmparser_operators.specs.OperatorValues.{memory_argument};
ghost use Rattle.wasm_bodies.specs.Operators as spec;
ghost use Rattle.wasmparser_func_validator.specs.Steps.{HasEffect, body_context, items_in};

use crate::body::Body;
use crate::lookups::{address_type, fill_types};
use crate::number_type::NumberType;
use crate::refusal::Refusal;
use wasmparser_bodies::module_resources::WasmModuleResources;
use wasmparser_bodies::stacks::Stacks;
use wasmparser_operators::immediates::MemArg;
use wasmparser_types::val_type::ValType;

impl<R: WasmModuleResources> Body<R> {
    pub(crate) fn load(
        &self,
        stacks: &mut Stacks,
        memarg: &MemArg,
        max_align: u8,
        ty: NumberType,
    ) -> Result<(), Refusal>
        ensures { HasEffect (body_context R.resources self.now) (spec.Load (access 0 (number ty) max_align) (memory_argument memarg.now)) stacks.old stacks.new result }
    {
        match self.accessed(memarg, max_align) {
            Some(address) => self.apply(stacks, &[address], &[ty.val_type()]),
            None => Err(Refusal::Invalid),
        }
    }

    pub(crate) fn store(
        &self,
        stacks: &mut Stacks,
        memarg: &MemArg,
        max_align: u8,
        ty: NumberType,
    ) -> Result<(), Refusal>
        ensures { HasEffect (body_context R.resources self.now) (spec.Store (access 0 (number ty) max_align) (memory_argument memarg.now)) stacks.old stacks.new result }
    {
        match self.accessed(memarg, max_align) {
            Some(address) => self.apply(stacks, &[address, ty.val_type()], &[]),
            None => Err(Refusal::Invalid),
        }
    }

    pub(crate) fn memory_size(&self, stacks: &mut Stacks, memory: u32) -> Result<(), Refusal>
        ensures { HasEffect (body_context R.resources self.now) (spec.MemorySize memory) stacks.old stacks.new result }
    {
        match self.address_of(memory) {
            Some(address) => self.apply(stacks, &[], &[address]),
            None => Err(Refusal::Invalid),
        }
    }

    pub(crate) fn memory_grow(&self, stacks: &mut Stacks, memory: u32) -> Result<(), Refusal>
        ensures { HasEffect (body_context R.resources self.now) (spec.MemoryGrow memory) stacks.old stacks.new result }
    {
        match self.address_of(memory) {
            Some(address) => {
                let types = [address];
                self.apply(stacks, &types, &types)
            }
            None => Err(Refusal::Invalid),
        }
    }

    pub(crate) fn memory_fill(&self, stacks: &mut Stacks, memory: u32) -> Result<(), Refusal>
        ensures { HasEffect (body_context R.resources self.now) (spec.MemoryFill memory) stacks.old stacks.new result }
    {
        match self.address_of(memory) {
            Some(address) => self.apply(stacks, &fill_types(&address, &ValType::I32), &[]),
            None => Err(Refusal::Invalid),
        }
    }

    pub(crate) fn memory_copy(&self, stacks: &mut Stacks, to: u32, from: u32) -> Result<(), Refusal>
        ensures { HasEffect (body_context R.resources self.now) (spec.MemoryCopy to from) stacks.old stacks.new result }
    {
        let Some(to) = self.resources.memory_at(to) else {
            return Err(Refusal::Invalid);
        };
        let Some(from) = self.resources.memory_at(from) else {
            return Err(Refusal::Invalid);
        };
        let takes = [
            address_type(to.memory64),
            address_type(from.memory64),
            address_type(to.memory64 && from.memory64),
        ];
        self.apply(stacks, &takes, &[])
    }

    // Checks that a data count covers the segment.
    fn has_data(&self, segment: u32) -> bool
        ensures { result ≡ has_data (items_in R.resources self.now) segment }
    {
        match self.resources.data_count() {
            Some(count) => segment < count,
            None => false,
        }
    }

    pub(crate) fn memory_init(
        &self,
        stacks: &mut Stacks,
        segment: u32,
        memory: u32,
    ) -> Result<(), Refusal>
        ensures { HasEffect (body_context R.resources self.now) (spec.MemoryInit segment memory) stacks.old stacks.new result }
    {
        if !self.has_data(segment) {
            return Err(Refusal::Invalid);
        }
        match self.address_of(memory) {
            Some(address) => self.apply(stacks, &[address, ValType::I32, ValType::I32], &[]),
            None => Err(Refusal::Invalid),
        }
    }

    pub(crate) fn data_drop(&self, stacks: &mut Stacks, segment: u32) -> Result<(), Refusal>
        ensures { HasEffect (body_context R.resources self.now) (spec.DataDrop segment) stacks.old stacks.new result }
    {
        if !self.has_data(segment) {
            return Err(Refusal::Invalid);
        }
        Ok(())
    }
}
