//! Constant expressions of a type.

ghost use Rattle.std.specs.Prelude.{◌≡◌, ◌≤◌, ◌⊎◌, true, false, length, IfOk, IfErr, IsTrue};
ghost use Rattle.wasm_core_types.specs.CoreTypes.{val_type};
ghost use Rattle.wasm_smith_definitions.specs.Constants.{Fits, Gives, has_plain, IsInteger, IsOnIntegers, IsPlain, MayWrite};
ghost use Rattle.wasm_smith_definitions.specs.Items.{expression};
ghost use Rattle.wasm_smith_validity.specs.ValidGroups.{AllKeepTypeRules};

use crate::candidates::{Candidates, Form, can_get, can_refer};
use crate::constant::{Constant, Operation};
use crate::draws::{bits32, bits64, index_below};
use crate::index_spaces::IndexSpaces;
use std::alloc::{AllocError, Global};
use wasm_core_types::types::ValType;
use wasm_smith_config::config::Config;
use wasm_smith_config::error::Error;
use wasm_smith_unstructured::unstructured::Unstructured;

/// Draws constant expressions. It keeps the globals and functions that constants may name, so it is made once for the index spaces of a module, and looks
/// at each global and function once.
#[derive(Debug, Drop)]
pub struct Constants {
    candidates: Candidates,
}

// Checks that a type has plain constants.
fn is_plain(ty: &ValType) -> bool
    ensures { result ≡ has_plain (val_type ty.now) }
{
    match ty {
        ValType::Ref(reference) => reference.nullable,
        _ => true,
    }
}

// Checks that a type is one of integers.
fn is_integer(ty: &ValType) -> bool
    ensures { IsTrue result → IsInteger (val_type ty.now) }
{
    matches!(ty, ValType::I32 | ValType::I64)
}

// Returns the number of forms of constants of a type that name no global and no function.
fn nameless_forms(config: &Config, ty: &ValType) -> usize {
    if !is_plain(ty) {
        return 0;
    }
    if config.extended_const_enabled && is_integer(ty) {
        return 2;
    }
    1
}

// Draws a plain constant.
fn plain(unstructured: &mut Unstructured<'_>, ty: ValType) -> Constant
    requires { has_plain (val_type ty) ≡ true }
    ensures plain { IsPlain (val_type ty) (expression result) }
    ensures taken { length unstructured.new ≤ length unstructured.old }
{
    match ty {
        ValType::I32 => Constant::I32(bits32(unstructured).cast_signed()),
        ValType::I64 => Constant::I64(bits64(unstructured).cast_signed()),
        ValType::F32 => Constant::F32(bits32(unstructured)),
        ValType::F64 => Constant::F64(bits64(unstructured)),
        ValType::V128 => {
            let low = bits64(unstructured);
            let high = bits64(unstructured);
            Constant::V128((u128::from(low) + (u128::from(high) << 64)).cast_signed())
        }
        ValType::Ref(reference) => Constant::Null(reference.heap_type),
    }
}

// Draws an operation.
fn operation(unstructured: &mut Unstructured<'_>) -> Operation
    ensures taken { length unstructured.new ≤ length unstructured.old }
{
    match index_below(unstructured, 3) {
        0 => Operation::Add,
        1 => Operation::Sub,
        _ => Operation::Mul,
    }
}

// Draws an operation, and then two integers.
fn on_integers(unstructured: &mut Unstructured<'_>, ty: ValType) -> Constant
    requires { IsInteger (val_type ty) }
    ensures made { IsOnIntegers (val_type ty) (expression result) }
    ensures taken { length unstructured.new ≤ length unstructured.old }
{
    let operation = operation(unstructured);
    if let ValType::I32 = ty {
        let a = bits32(unstructured).cast_signed();
        let b = bits32(unstructured).cast_signed();
        return Constant::I32Operation(operation, a, b);
    }
    let a = bits64(unstructured).cast_signed();
    let b = bits64(unstructured).cast_signed();
    Constant::I64Operation(operation, a, b)
}

// Draws a constant of a form.
fn constant_of(
    unstructured: &mut Unstructured<'_>,
    config: &Config,
    spaces: &IndexSpaces<'_>,
    form: Form,
    ty: ValType,
) -> Constant
    requires fits { Fits config.now spaces.now (val_type ty) form }
    requires written { MayWrite config.now spaces.now (val_type ty) }
    ensures gives { Gives config.now spaces.now (val_type ty) (expression result) }
    ensures taken { length unstructured.new ≤ length unstructured.old }
{
    match form {
        Form::Plain => plain(unstructured, ty),
        Form::Operation => on_integers(unstructured, ty),
        Form::Global(global) => Constant::Global(global),
        Form::Function(function) => Constant::Function(function),
    }
}

// Checks that there are constants of a type in a form.
fn fits(config: &Config, spaces: &IndexSpaces<'_>, form: &Form, ty: &ValType) -> bool
    ensures { AllKeepTypeRules spaces.now.types → IsTrue result → Fits config.now spaces.now (val_type ty.now) form.now }
{
    match form {
        Form::Plain => is_plain(ty),
        Form::Operation => config.extended_const_enabled && is_integer(ty),
        Form::Global(global) => can_get(config, spaces, *global, ty),
        Form::Function(function) => can_refer(config, spaces, *function, ty),
    }
}

// Returns the plain form, where constants of a type have it.
fn plain_form(ty: &ValType) -> Result<Form, Error>
    ensures plain { IfOk result (λ form. (form ≡ Form.Plain) × (has_plain (val_type ty.now) ≡ true)) }
    ensures refused { IfErr result (λ e. (e ≡ Error.EmptyChoose) × (has_plain (val_type ty.now) ≡ false)) }
{
    if is_plain(ty) {
        return Ok(Form::Plain);
    }
    Err(Error::EmptyChoose)
}

impl Constants {
    /// Returns a source of constants that has looked at no global and no function.
    pub fn new(alloc: Global) -> Constants {
        Constants {
            candidates: Candidates::new(alloc),
        }
    }

    // Draws the form of a constant: an own form of its type, or a global, or a function.
    fn form(
        &mut self,
        alloc: Global,
        unstructured: &mut Unstructured<'_>,
        config: &Config,
        spaces: &IndexSpaces<'_>,
        ty: &ValType,
    ) -> Result<Form, Error>
        requires { AllKeepTypeRules spaces.now.types }
        ensures fits { IfOk result (λ form. Fits config.now spaces.now (val_type ty.now) form) }
        ensures refused { IfErr result (λ e. (e ≡ Error.Memory) ⊎ ((e ≡ Error.EmptyChoose) × (has_plain (val_type ty.now) ≡ false))) }
        ensures taken { length unstructured.new ≤ length unstructured.old }
    {
        self.candidates.update(alloc, config, spaces)?;
        let nameless = nameless_forms(config, ty);
        if let Some(form) = self
            .candidates
            .choose(unstructured, spaces.types(), ty, nameless)
        {
            if fits(config, spaces, &form, ty) {
                return Ok(form);
            }
        }
        plain_form(ty)
    }

    /// Draws a constant of a type.
    ///
    /// # Errors
    /// [`EmptyChoose`](Error::EmptyChoose) only for a reference that can't be null, and [`Memory`](Error::Memory).
    pub fn draw(
        &mut self,
        alloc: Global,
        unstructured: &mut Unstructured<'_>,
        config: &Config,
        spaces: &IndexSpaces<'_>,
        ty: ValType,
    ) -> Result<Constant, Error>
        requires rules { AllKeepTypeRules spaces.now.types }
        requires written { MayWrite config.now spaces.now (val_type ty) }
        ensures gives { IfOk result (λ constant. Gives config.now spaces.now (val_type ty) (expression constant)) }
        ensures refused { IfErr result (λ e. (e ≡ Error.Memory) ⊎ ((e ≡ Error.EmptyChoose) × (has_plain (val_type ty) ≡ false))) }
        ensures taken { length unstructured.new ≤ length unstructured.old }
    {
        let form = self.form(alloc, unstructured, config, spaces, &ty)?;
        Ok(constant_of(unstructured, config, spaces, form, ty))
    }
}
