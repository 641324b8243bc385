//! Bodies of functions.

ghost use Rattle.std.specs.Prelude.{◌≡◌, ◌≢◌, IfErr};
ghost use Rattle.wasm_validity.specs.Entries.{OfBody};
ghost use Rattle.wasmparser_error.specs.declared.error.ErrorKind.TheVariants as kinds;
ghost use Rattle.wasmparser_module_state.specs.History.{held};
ghost use Rattle.wasmparser_module_state.specs.Judging.{Adds};
ghost use Rattle.wasmparser_module_state.specs.State.{context, features_of};

use crate::module_state::{ModuleState, refusal};
use wasm_core_types::limits::{Limit, MAX_WASM_FUNCTION_SIZE};
use wasmparser_error::error::{Error, ErrorKind};

impl ModuleState {
    /// Judges the size of a body. What is in it is judged later.
    ///
    /// # Errors
    /// `Limit` where its bytes, without their number, are more than that limit.
    pub fn code_section_entry(&self, body: &[u8], offset: u64) -> Result<(), Error>
        ensures judged { Adds (features_of self.now) (context self.now) (held self.now) (OfBody body.now) offset result (context self.now) }
        ensures memory { IfErr result (λ e. e.kind ≢ kinds.Memory) }
    {
        if body.len() as u64 > MAX_WASM_FUNCTION_SIZE {
            return Err(refusal(offset, ErrorKind::Limit(Limit::BodySize)));
        }
        Ok(())
    }
}
