//! The explanation of a refusal.

ghost use Rattle.std.specs.Prelude.{option_map, string_bytes};
ghost use Rattle.wasm_core.specs.Features.{feature_set};
ghost use Rattle.wasm_gen_program.specs.Explanation.{IsExplanation};

use std::alloc::Global;
use wasm_core::features::WasmFeatures;
use wasm_gen_explain::explain::explain;
use wasm_gen_sessions::judge::{Error, Types};

/// The answer to an input, and the explanation of a no.
#[derive(Debug, Drop)]
pub struct Checked {
    /// True if the verdict is yes.
    pub is_yes: bool,
    /// The line on where the error of a no stands, without a line feed, where that was asked for and memory sufficed for it.
    pub explanation: Option<String>,
}

/// Returns the line on where the error of a refusal stands, where that is asked for and memory suffices for it.
pub fn explanation_of(
    alloc: Global,
    asked: bool,
    bytes: &[u8],
    features: WasmFeatures,
    verdict: &Result<Types, Error>,
) -> Option<String>
    ensures { IsExplanation asked (feature_set features) bytes.now verdict.now (option_map (λ text. string_bytes text) result) }
{
    match verdict {
        Err(e) if asked => explain(alloc, bytes, features, e).ok(),
        _ => None,
    }
}
