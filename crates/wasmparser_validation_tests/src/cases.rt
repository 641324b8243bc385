//! An operator after others, in a body of a function of the example.

use crate::states::{are_operands, is_state, state_of};
use std::alloc::Global;
use wasm_core_types::features::{Flags, WasmFeatures};
use wasmparser_bodies::module_resources::WasmModuleResources;
use wasmparser_error::error::{Error, ErrorKind};
use wasmparser_func_validator::func_to_validate::FuncValidatorAllocations;
use wasmparser_func_validator::func_validator::FuncValidator;
use wasmparser_types::ref_type::RefType;
use wasmparser_types::val_type::ValType;
use wasmparser_validation_rows::failures::has_failed;
use wasmparser_validation_rows::listed_resources::ListedResources;
use wasmparser_validation_rows::running::{run, try_first};
use wasmparser_validation_rows::validators::{define_locals, validator_in};

/// The outcome of an operator that is refused.
pub const REFUSED: &str = "refused";

/// Returns the validator of the body of a function of this type.
pub fn validator_of_type(
    alloc: Global,
    resources: &ListedResources,
    ty: u32,
    features: WasmFeatures,
) -> Option<FuncValidator<&ListedResources>> {
    let room = FuncValidatorAllocations::new(alloc);
    match validator_in(resources, ty, features, room)? {
        Ok(validator) => Some(validator),
        Err(_) => None,
    }
}

/// Returns the validator of a body that takes an `i32` and an `i64` and gives an `i32`.
pub fn validator_of(
    alloc: Global,
    resources: &ListedResources,
    features: WasmFeatures,
) -> Option<FuncValidator<&ListedResources>> {
    validator_of_type(alloc, resources, 1, features)
}

// Adds two locals, of which the second has no value at the start, under the default features and more.
pub(crate) fn declare<R: WasmModuleResources>(validator: &mut FuncValidator<R>) -> Option<()> {
    if !validator.features().contains(WasmFeatures::default()) {
        return Some(());
    }
    define_locals(validator, 0, 1, ValType::F64)?.ok()?;
    define_locals(validator, 0, 1, ValType::Ref(RefType::FUNC))?.ok()
}

// Checks that a refusal of an operator at this place changes nothing if it's tried, and is the last thing else.
fn refusal_holds<R: WasmModuleResources>(
    validator: &mut FuncValidator<R>,
    error: Error,
    operator: &[u8],
    offset: u32,
) -> bool {
    if error.kind != ErrorKind::Body || error.offset < u64::from(offset) {
        return false;
    }
    match run(validator, operator, offset) {
        Ok(()) => false,
        // (an operator that doesn't read never comes to the validator)
        Err(again) => again == error && (error.offset > u64::from(offset) || has_failed(validator)),
    }
}

// Checks that an operator that is tried leaves these operands, or is refused without changing anything.
fn is_tried<R: WasmModuleResources>(
    alloc: Global,
    validator: &mut FuncValidator<R>,
    operator: &[u8],
    offset: u32,
    expected: &str,
) -> Option<bool> {
    let state = state_of(alloc, validator)?;
    let answer = try_first(validator, operator, offset);
    let stays = is_state(alloc, validator, &state);
    match answer {
        Ok(()) => Some(are_operands(alloc, validator, expected)),
        Err(error) => Some(
            expected == REFUSED && stays && refusal_holds(validator, error, operator, offset),
        ),
    }
}

fn has_outcome_in<R: WasmModuleResources>(
    alloc: Global,
    validator: &mut FuncValidator<R>,
    before: &[u8],
    operator: &[u8],
    expected: &str,
) -> Option<bool> {
    declare(validator)?;
    run(validator, before, 0).ok()?;
    let offset = u32::try_from(before.len()).ok()?;
    is_tried(alloc, validator, operator, offset, expected)
}

/// Checks that an operator that is tried after others leaves these operands, or is `refused` without changing anything. None where another one is refused.
pub fn has_outcome(
    alloc: Global,
    resources: &ListedResources,
    features: WasmFeatures,
    before: &[u8],
    operator: &[u8],
    expected: &str,
) -> Option<bool> {
    let mut validator = validator_of(alloc, resources, features)?;
    let holds = has_outcome_in(alloc, &mut validator, before, operator, expected);
    drop(validator);
    holds
}

fn gives_in<R: WasmModuleResources>(
    alloc: Global,
    validator: &mut FuncValidator<R>,
    before: &[u8],
    operator: &[u8],
    expected: &str,
) -> Option<bool> {
    declare(validator)?;
    run(validator, before, 0).ok()?;
    run(validator, operator, u32::try_from(before.len()).ok()?).ok()?;
    Some(are_operands(alloc, validator, expected))
}

/// Checks that an operator that comes after others leaves these operands.
pub fn gives(
    alloc: Global,
    resources: &ListedResources,
    features: WasmFeatures,
    before: &[u8],
    operator: &[u8],
    expected: &str,
) -> Option<bool> {
    let mut validator = validator_of(alloc, resources, features)?;
    let holds = gives_in(alloc, &mut validator, before, operator, expected);
    drop(validator);
    holds
}
