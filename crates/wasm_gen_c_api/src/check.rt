//! Judging one module.

ghost use Rattle.std.specs.Prelude.{◌≡◌, ◌<◌, ◌≤◌, ◌^◌, [], None, IsSomeAnd};
ghost use Rattle.wasm_core.specs.Features.{feature_set};
ghost use Rattle.wasm_gen_c_api.specs.Verdicts.{IsChecked, IsJudged};
ghost use Rattle.wasm_spec.specs.Features.{default_features};
ghost use Rattle.wasmparser_validator.specs.Validation.{IsValidated};

use crate::codes::UNKNOWN_FEATURES;
use crate::verdict::{Verdict, refused, verdict_of};
use std::alloc::Global;
use wasm_core::features::{Flags, WasmFeatures};
use wasmparser_error::error::Error;
use wasmparser_validator::types::Types;
use wasmparser_validator::validator::Validator;
use wasmparser_validator::validator_id::ValidatorId;

// The bit above all features.
const FEATURES_END: u32 = 1 << 22;

/// Returns the features that are on where nothing else is said, each as a bit.
pub fn default_features() -> u32
    ensures { result ≡ default_features }
{
    WasmFeatures::default().bits()
}

// Returns the features of these bits, if each is one.
pub(crate) fn features_of(bits: u32) -> Option<WasmFeatures>
    ensures known { bits < 2 ^ 22 → IsSomeAnd result (λ features. feature_set features ≡ bits) }
    ensures unknown { 2 ^ 22 ≤ bits → result ≡ None }
{
    if bits >= FEATURES_END {
        return None;
    }
    Some(<WasmFeatures as Flags>::from_bits_retain(bits))
}

// Validates the bytes by a validator of their own.
pub(crate) fn validate(alloc: Global, bytes: &[u8], features: WasmFeatures) -> Result<Types, Error>
    ensures { IsValidated (feature_set features) [] bytes.now result }
{
    let mut validator = Validator::new_with_features(alloc, features, ValidatorId::new(0));
    let answer = validator.validate_all(bytes);
    // (dropped by a call, which is cheaper to prove)
    drop(validator);
    answer
}

// Validates the bytes by a validator of their own.
fn judge(alloc: Global, bytes: &[u8], features: WasmFeatures) -> Verdict
    ensures { IsJudged (feature_set features) bytes.now result }
{
    let answer = validate(alloc, bytes, features);
    let verdict = verdict_of(&answer);
    // (dropped by a call, which is cheaper to prove)
    drop(answer);
    verdict
}

/// Validates the bytes of a module under the features whose bits are set, by a validator of its own. Where a bit is no feature, nothing is
/// validated, and the code is `UNKNOWN_FEATURES`.
pub fn check(alloc: Global, bytes: &[u8], features: u32) -> Verdict
    ensures { IsChecked features bytes.now result }
{
    match features_of(features) {
        Some(features) => judge(alloc, bytes, features),
        None => refused(UNKNOWN_FEATURES, 0),
    }
}
