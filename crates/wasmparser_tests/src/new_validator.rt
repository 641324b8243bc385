//! Validators that are made for a row, or for a module.

use std::alloc::Global;
use wasm_core::features::WasmFeatures;
use wasmparser::error::Error;
use wasmparser::types::TypesRef;
use wasmparser::validator::{Validator, validate};
use wasmparser::validator_id::ValidatorId;

/// Checks that a row holds of a new validator with the default features, whose id is 5.
pub fn on_new_validator<F: Fn(Global, &mut Validator, &str) -> Option<bool>>(
    alloc: Global,
    row: &str,
    holds: F,
) -> Option<bool>
    requires { F.IsAlwaysCallable holds }
{
    let mut validator = Validator::new(alloc, ValidatorId::new(5));
    let found = holds(alloc, &mut validator, row);
    drop(validator);
    found
}

/// Does the same for one with these features.
pub fn on_new_validator_with<F: Fn(Global, &mut Validator, &str) -> Option<bool>>(
    alloc: Global,
    features: WasmFeatures,
    row: &str,
    holds: F,
) -> Option<bool>
    requires { F.IsAlwaysCallable holds }
{
    let mut validator = Validator::new_with_features(alloc, features, ValidatorId::new(5));
    let found = holds(alloc, &mut validator, row);
    drop(validator);
    found
}

/// Checks that a row holds of the types that are shown of a module, which is valid under these features.
pub fn on_types<F: Fn(Global, TypesRef<'_>, &[u8], &str) -> Option<bool>>(
    alloc: Global,
    features: WasmFeatures,
    bytes: &[u8],
    row: &str,
    holds: F,
) -> Option<bool>
    requires { F.IsAlwaysCallable holds }
{
    let mut validator = Validator::new_with_features(alloc, features, ValidatorId::new(7));
    let verdict = validator.validate_all(bytes);
    drop(validator);
    let found = match &verdict {
        Ok(types) => holds(alloc, types.as_ref(), bytes, row),
        Err(_) => None,
    };
    drop(verdict);
    found
}

/// Returns the answer to a module under these features.
pub fn answer_under(alloc: Global, features: WasmFeatures, bytes: &[u8]) -> Result<(), Error> {
    let mut validator = Validator::new_with_features(alloc, features, ValidatorId::new(0));
    let verdict = validator.validate_all(bytes);
    drop(validator);
    let answer = match &verdict {
        Ok(_) => Ok(()),
        Err(e) => Err(*e),
    };
    drop(verdict);
    answer
}

/// Returns the error for a module that isn't valid under the default features.
pub fn refusal_of(alloc: Global, bytes: &[u8]) -> Option<Error> {
    let verdict = validate(alloc, bytes);
    let refusal = match &verdict {
        Ok(_) => None,
        Err(e) => Some(*e),
    };
    drop(verdict);
    refusal
}
