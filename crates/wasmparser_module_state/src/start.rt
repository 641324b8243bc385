//! The start function (Core Specification 3.0, Validation, "Start Function").

ghost use Rattle.std.specs.Prelude.{◌≡◌, ◌≢◌, slice_get, IfErr};
ghost use Rattle.wasm_validity.specs.Context.{functions_in};
ghost use Rattle.wasm_validity.specs.Entries.{OfStart};
ghost use Rattle.wasm_validity.specs.Rules.{is_unit, keeps_start};
ghost use Rattle.wasm_validity.specs.DefinedTypes.{func_type_at};
ghost use Rattle.wasmparser_error.specs.declared.error.ErrorKind.TheVariants as kinds;
ghost use Rattle.wasmparser_module_state.specs.History.{held};
ghost use Rattle.wasmparser_module_state.specs.Judging.{Adds};
ghost use Rattle.wasmparser_module_state.specs.State.{context, features_of};

use crate::module_state::{ModuleState, refusal};
use wasmparser_constants::scope::item_at;
use wasmparser_error::error::{Error, ErrorKind};

impl ModuleState {
    ghost use Rattle.std.specs.Prelude.{◌≡◌};

    /// Returns the type index of a function, if there is that function.
    pub fn type_of_function(&self, function: u32) -> Option<u32>
        ensures { result ≡ slice_get (functions_in (context self.now)) function }
    {
        item_at(
            &self.imported_functions,
            &self.own_functions,
            function as usize,
        )
    }

    // Checks that an index names the type of functions that take and give nothing.
    #[tactic(auto, using(crate::proofs::UnitTypes::unit_steps))]
    fn is_unit_type(&self, index: u32) -> bool
        ensures { result ≡ is_unit (func_type_at (context self.now).types index) }
    {
        match self.types.func_type(index) {
            None => false,
            Some(ty) => ty.params().is_empty() && ty.results().is_empty(),
        }
    }

    /// Judges the start function, which adds nothing.
    ///
    /// # Errors
    /// `Invalid` where there is no such function, or it takes or gives something.
    pub fn start_section(&self, function: u32, offset: u64) -> Result<(), Error>
        ensures judged { Adds (features_of self.now) (context self.now) (held self.now) (OfStart function) offset result (context self.now) }
        ensures memory { IfErr result (λ e. e.kind ≢ kinds.Memory) }
    {
        match self.type_of_function(function) {
            Some(index) if self.is_unit_type(index) => Ok(()),
            _ => Err(refusal(offset, ErrorKind::Invalid)),
        }
    }
}
