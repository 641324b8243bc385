//! Structures and arrays in constant expressions (Core Specification 3.0, Validation, "Aggregate Reference Instructions").

ghost use Rattle.std.specs.Prelude.{◌≡◌, map, replicate, reverse};
ghost use Rattle.std.specs.List.{AllByRecursion, list_all};
ghost use Rattle.wasm_spec.specs.Constants.{ArrayNew, ArrayNewDefault, ArrayNewFixed, StructNew, StructNewDefault};
ghost use Rattle.wasm_validity.specs.ConstantTyping.{effect};
ghost use Rattle.wasmparser_constants.specs.Operands.{AreKnown, meant_type};
ghost use Rattle.wasmparser_constants.specs.Scopes.{context, features_of, field_values, known};
ghost use Rattle.wasmparser_constants.specs.Steps.{IsWanted, Steps, TakesAll};
ghost use Rattle.wasmparser_types.specs.ValTypes.{is_defaultable, val_type};

use crate::operands::Operands;
use crate::scope::Scope;
use wasmparser_error::error::Error;
use wasmparser_types::val_type::{FieldType, ValType};

impl<'a> Scope<'a> {
    // Takes off what the fields of a structure are made of.
    fn take_fields(&self, operands: &mut Operands, fields: &[FieldType]) -> Result<(), Error>
        requires known { AreKnown (known self.now) operands.old }
        requires wanted { AllByRecursion (IsWanted (known self.now)) (field_values fields.now) }
        ensures { TakesAll (known self.now) self.now.offset (reverse (map (meant_type (known self.now)) (field_values fields.now))) operands.old result operands.new }
    {
        let mut left = fields;
        'fields: while let Some((field, rest)) = left.split_last() {
            self.take(operands, &field.element_type.unpack())?;
            left = rest;
        }
        Ok(())
    }

    // Takes off so many operands below one type.
    fn take_items(&self, operands: &mut Operands, item: &ValType, count: u32) -> Result<(), Error>
        requires known { AreKnown (known self.now) operands.old }
        requires wanted { IsWanted (known self.now) (val_type item.now) }
        ensures { TakesAll (known self.now) self.now.offset (replicate count (meant_type (known self.now) (val_type item.now))) operands.old result operands.new }
    {
        for _ in 0..count {
            self.take(operands, item)?;
        }
        Ok(())
    }

    pub(crate) fn new_structure(&self, operands: &mut Operands, index: u32) -> Result<(), Error>
        requires known { AreKnown (known self.now) operands.old }
        ensures { Steps (known self.now) self.now.offset (effect (features_of self.now) (context self.now) (StructNew index)) operands.old result operands.new }
    {
        if !self.types.features().gc() {
            return Err(self.broken());
        }
        let (Some(fields), Some(ty)) = (self.fields(index), self.reference_to(index)) else {
            return Err(self.broken());
        };
        self.take_fields(operands, fields)?;
        operands.push(ty)
    }

    pub(crate) fn default_structure(&self, operands: &mut Operands, index: u32) -> Result<(), Error>
        requires known { AreKnown (known self.now) operands.old }
        ensures { Steps (known self.now) self.now.offset (effect (features_of self.now) (context self.now) (StructNewDefault index)) operands.old result operands.new }
    {
        if !self.types.features().gc() {
            return Err(self.broken());
        }
        let (Some(fields), Some(ty)) = (self.fields(index), self.reference_to(index)) else {
            return Err(self.broken());
        };
        if !are_defaultable(fields) {
            return Err(self.broken());
        }
        operands.push(ty)
    }

    pub(crate) fn new_array(&self, operands: &mut Operands, index: u32) -> Result<(), Error>
        requires known { AreKnown (known self.now) operands.old }
        ensures { Steps (known self.now) self.now.offset (effect (features_of self.now) (context self.now) (ArrayNew index)) operands.old result operands.new }
    {
        if !self.types.features().gc() {
            return Err(self.broken());
        }
        let (Some(item), Some(ty)) = (self.element(index), self.reference_to(index)) else {
            return Err(self.broken());
        };
        self.take(operands, &ValType::I32)?;
        self.take(operands, &item)?;
        operands.push(ty)
    }

    pub(crate) fn default_array(&self, operands: &mut Operands, index: u32) -> Result<(), Error>
        requires known { AreKnown (known self.now) operands.old }
        ensures { Steps (known self.now) self.now.offset (effect (features_of self.now) (context self.now) (ArrayNewDefault index)) operands.old result operands.new }
    {
        if !self.types.features().gc() {
            return Err(self.broken());
        }
        let (Some(item), Some(ty)) = (self.element(index), self.reference_to(index)) else {
            return Err(self.broken());
        };
        if !item.is_defaultable() {
            return Err(self.broken());
        }
        self.take(operands, &ValType::I32)?;
        operands.push(ty)
    }

    pub(crate) fn fixed_array(
        &self,
        operands: &mut Operands,
        index: u32,
        count: u32,
    ) -> Result<(), Error>
        requires known { AreKnown (known self.now) operands.old }
        ensures { Steps (known self.now) self.now.offset (effect (features_of self.now) (context self.now) (ArrayNewFixed index count)) operands.old result operands.new }
    {
        if !self.types.features().gc() {
            return Err(self.broken());
        }
        let (Some(item), Some(ty)) = (self.element(index), self.reference_to(index)) else {
            return Err(self.broken());
        };
        self.take_items(operands, &item, count)?;
        operands.push(ty)
    }
}

// Checks that each field has a value if none is given.
fn are_defaultable(fields: &[FieldType]) -> bool
    ensures { result ≡ list_all is_defaultable (field_values fields.now) }
{
    fields
        .iter()
        .all(|field| field.element_type.unpack().is_defaultable())
}
