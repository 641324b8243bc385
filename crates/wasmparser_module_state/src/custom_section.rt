//! Custom sections (Core Specification 3.0, Binary Format, "Custom Section").

ghost use Rattle.std.specs.Prelude.{◌≡◌, ◌≢◌, IfErr};
ghost use Rattle.wasm_validity.specs.Entries.{OfCustom};
ghost use Rattle.wasmparser_error.specs.declared.error.ErrorKind.TheVariants as kinds;
ghost use Rattle.wasmparser_module_state.specs.History.{held};
ghost use Rattle.wasmparser_module_state.specs.Judging.{Adds};
ghost use Rattle.wasmparser_module_state.specs.State.{context, features_of};

use crate::module_state::ModuleState;
use crate::names::check_name;
use wasmparser_error::error::Error;

impl ModuleState {
    /// Judges a custom section of this name, which adds nothing.
    ///
    /// # Errors
    /// `Limit` where the name is longer than its limit, in bytes.
    pub fn custom_section(&self, name: &str, offset: u64) -> Result<(), Error>
        ensures judged { Adds (features_of self.now) (context self.now) (held self.now) (OfCustom name.now) offset result (context self.now) }
        ensures memory { IfErr result (λ e. e.kind ≢ kinds.Memory) }
    {
        check_name(name, offset)
    }
}
