//! Structures and arrays (Core Specification 3.0, Validation, "Aggregate Instructions").

ghost use Rattle.std.specs.Prelude.{◌≡◌, map};
ghost use Rattle.std.specs.List.{list_all};
ghost use Rattle.wasm_bodies.specs.BodyContext.{is_defaultable, unpacked};
ghost use Rattle.wasm_bodies.specs.Signatures.{makes};
ghost use Rattle.std.specs.Option.{option_and_then};
ghost use Rattle.wasm_bodies.specs.Operands.{applied};
ghost use Rattle.wasmparser_types.specs.ValTypes.{field_type, val_type};
ghost use Rattle.wasm_bodies.specs.Operators as spec;
ghost use Rattle.wasmparser_func_validator.specs.Steps.{HasEffect, Takes, body_context, items_in};

use crate::body::Body;
use crate::refusal::Refusal;
use crate::type_list::{Copies, Fields, TypeList, Types};
use std::iter::Iterator;
use wasmparser_bodies::module_resources::WasmModuleResources;
use wasmparser_bodies::stacks::Stacks;
use wasmparser_types::val_type::{FieldType, ValType};

fn are_defaultable(fields: &[FieldType]) -> bool
    ensures { result ≡ list_all is_defaultable (map unpacked (map field_type fields.now)) }
{
    fields
        .iter()
        .all(|it| it.element_type.unpack().is_defaultable())
}

impl<R: WasmModuleResources> Body<R> {
    // Takes operands, and gives a reference to a new value of the type.
    fn make<L: TypeList>(
        &self,
        stacks: &mut Stacks,
        type_index: u32,
        takes: &L,
    ) -> Result<(), Refusal>
        ensures { Takes (option_and_then (λ signature. applied (items_in R.resources self.now) signature stacks.old.now) (makes (items_in R.resources self.now) type_index (L.types takes.now))) stacks.old stacks.new result }
    {
        let Some(reference) = self.reference_at(false, type_index) else {
            return Err(Refusal::Invalid);
        };
        if !self.accepts(stacks, 0, takes) {
            return Err(Refusal::Invalid);
        }
        stacks.replace(takes.count(), &[reference])?;
        Ok(())
    }

    pub(crate) fn struct_new(&self, stacks: &mut Stacks, type_index: u32) -> Result<(), Refusal>
        ensures { HasEffect (body_context R.resources self.now) (spec.StructNew type_index) stacks.old stacks.new result }
    {
        match self.fields_at(type_index) {
            Some(fields) => self.make(stacks, type_index, &Fields(fields)),
            None => Err(Refusal::Invalid),
        }
    }

    pub(crate) fn struct_new_default(
        &self,
        stacks: &mut Stacks,
        type_index: u32,
    ) -> Result<(), Refusal>
        ensures { HasEffect (body_context R.resources self.now) (spec.StructNewDefault type_index) stacks.old stacks.new result }
    {
        match self.fields_at(type_index) {
            Some(fields) => {
                if !are_defaultable(fields) {
                    return Err(Refusal::Invalid);
                }
                self.make(stacks, type_index, &Types(&[]))
            }
            None => Err(Refusal::Invalid),
        }
    }

    pub(crate) fn array_new(&self, stacks: &mut Stacks, type_index: u32) -> Result<(), Refusal>
        ensures { HasEffect (body_context R.resources self.now) (spec.ArrayNew type_index) stacks.old stacks.new result }
    {
        match self.element_at(type_index) {
            Some(element) => self.make(stacks, type_index, &Types(&[element, ValType::I32])),
            None => Err(Refusal::Invalid),
        }
    }

    pub(crate) fn array_new_default(
        &self,
        stacks: &mut Stacks,
        type_index: u32,
    ) -> Result<(), Refusal>
        ensures { HasEffect (body_context R.resources self.now) (spec.ArrayNewDefault type_index) stacks.old stacks.new result }
    {
        match self.element_at(type_index) {
            Some(element) => {
                if !element.is_defaultable() {
                    return Err(Refusal::Invalid);
                }
                self.make(stacks, type_index, &Types(&[ValType::I32]))
            }
            None => Err(Refusal::Invalid),
        }
    }

    pub(crate) fn array_new_fixed(
        &self,
        stacks: &mut Stacks,
        type_index: u32,
        count: u32,
    ) -> Result<(), Refusal>
        ensures { HasEffect (body_context R.resources self.now) (spec.ArrayNewFixed type_index count) stacks.old stacks.new result }
    {
        match self.element_at(type_index) {
            Some(value_type) => self.make(stacks, type_index, &Copies { count, value_type }),
            None => Err(Refusal::Invalid),
        }
    }
}
