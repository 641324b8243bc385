//! Names of imports, exports and custom sections, which are limited by their bytes.

ghost use Rattle.std.specs.Prelude.{◌≡◌, ◌≤◌, ◌<◌, IfErr, IfOk, length};
ghost use Rattle.wasm_core_types.specs.declared.limits.Limit.TheVariants as limits;
ghost use Rattle.wasm_spec.specs.Limits.{Name, most};
ghost use Rattle.wasmparser_error.specs.declared.error.ErrorKind.TheVariants as kinds;

use crate::module_state::refusal;
use wasm_core_types::limits::{Limit, MAX_WASM_STRING_SIZE};
use wasmparser_error::error::{Error, ErrorKind};

// Lets a name pass that is no longer than may be.
pub(crate) fn check_name(name: &str, offset: u64) -> Result<(), Error>
    ensures short { IfOk result (λ _. length name.now ≤ most Name) }
    ensures long { IfErr result (λ e. (e ≡ record { offset = offset; kind = kinds.Limit limits.Name }) × (most Name < length name.now)) }
{
    if name.len() as u64 > MAX_WASM_STRING_SIZE {
        return Err(refusal(offset, ErrorKind::Limit(Limit::Name)));
    }
    Ok(())
}
