//! Tables and element segments (Core Specification 3.0, Validation, "Table Instructions").

ghost use Rattle.std.specs.Prelude.{◌≡◌};
ghost use Rattle.wasm_bodies.specs.Operators as spec;
ghost use Rattle.wasmparser_func_validator.specs.Steps.{HasEffect, body_context};

use crate::body::Body;
use crate::lookups::{address_type, fill_types};
use crate::refusal::Refusal;
use wasmparser_bodies::module_resources::WasmModuleResources;
use wasmparser_bodies::stacks::Stacks;
use wasmparser_types::val_type::ValType;

impl<R: WasmModuleResources> Body<R> {
    pub(crate) fn table_get(&self, stacks: &mut Stacks, table: u32) -> Result<(), Refusal>
        ensures { HasEffect (body_context R.resources self.now) (spec.TableGet table) stacks.old stacks.new result }
    {
        match self.table_types(table) {
            Some((index, item)) => self.apply(stacks, &[index], &[item]),
            None => Err(Refusal::Invalid),
        }
    }

    pub(crate) fn table_set(&self, stacks: &mut Stacks, table: u32) -> Result<(), Refusal>
        ensures { HasEffect (body_context R.resources self.now) (spec.TableSet table) stacks.old stacks.new result }
    {
        match self.table_types(table) {
            Some((index, item)) => self.apply(stacks, &[index, item], &[]),
            None => Err(Refusal::Invalid),
        }
    }

    pub(crate) fn table_size(&self, stacks: &mut Stacks, table: u32) -> Result<(), Refusal>
        ensures { HasEffect (body_context R.resources self.now) (spec.TableSize table) stacks.old stacks.new result }
    {
        match self.table_types(table) {
            Some((index, _)) => self.apply(stacks, &[], &[index]),
            None => Err(Refusal::Invalid),
        }
    }

    pub(crate) fn table_grow(&self, stacks: &mut Stacks, table: u32) -> Result<(), Refusal>
        ensures { HasEffect (body_context R.resources self.now) (spec.TableGrow table) stacks.old stacks.new result }
    {
        match self.table_types(table) {
            Some((index, item)) => {
                let gives = [index];
                self.apply(stacks, &[item, gives[0]], &gives)
            }
            None => Err(Refusal::Invalid),
        }
    }

    pub(crate) fn table_fill(&self, stacks: &mut Stacks, table: u32) -> Result<(), Refusal>
        ensures { HasEffect (body_context R.resources self.now) (spec.TableFill table) stacks.old stacks.new result }
    {
        match self.table_types(table) {
            Some((index, item)) => self.apply(stacks, &fill_types(&index, &item), &[]),
            None => Err(Refusal::Invalid),
        }
    }

    pub(crate) fn table_copy(&self, stacks: &mut Stacks, to: u32, from: u32) -> Result<(), Refusal>
        ensures { HasEffect (body_context R.resources self.now) (spec.TableCopy to from) stacks.old stacks.new result }
    {
        let Some(to) = self.resources.table_at(to) else {
            return Err(Refusal::Invalid);
        };
        let Some(from) = self.resources.table_at(from) else {
            return Err(Refusal::Invalid);
        };
        let lies_below = self.resources.is_subtype(
            ValType::Ref(from.element_type),
            ValType::Ref(to.element_type),
        );
        if !lies_below {
            return Err(Refusal::Invalid);
        }
        let takes = [
            address_type(to.table64),
            address_type(from.table64),
            address_type(to.table64 && from.table64),
        ];
        self.apply(stacks, &takes, &[])
    }

    pub(crate) fn table_init(
        &self,
        stacks: &mut Stacks,
        segment: u32,
        table: u32,
    ) -> Result<(), Refusal>
        ensures { HasEffect (body_context R.resources self.now) (spec.TableInit segment table) stacks.old stacks.new result }
    {
        let Some(segment) = self.segment_type(segment) else {
            return Err(Refusal::Invalid);
        };
        let Some((index, item)) = self.table_types(table) else {
            return Err(Refusal::Invalid);
        };
        if !self.resources.is_subtype(segment, item) {
            return Err(Refusal::Invalid);
        }
        self.apply(stacks, &[index, ValType::I32, ValType::I32], &[])
    }

    pub(crate) fn elem_drop(&self, stacks: &mut Stacks, segment: u32) -> Result<(), Refusal>
        ensures { HasEffect (body_context R.resources self.now) (spec.ElemDrop segment) stacks.old stacks.new result }
    {
        match self.segment_type(segment) {
            Some(_) => Ok(()),
            None => Err(Refusal::Invalid),
        }
    }
}
