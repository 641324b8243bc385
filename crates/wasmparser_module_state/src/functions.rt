//! Functions of a module's own (Core Specification 3.0, Validation, "Functions").

ghost use Rattle.std.specs.Prelude.{◌≡◌, ◌+◌, refl, is_some, length, nat_le, slice_get, false};
ghost use Rattle.wasm_validity.specs.DefinedTypes.{func_type_at};
ghost use Rattle.wasm_validity.specs.Entries.{OfFunction};
ghost use Rattle.wasmparser_payloads.specs.EntryReading.{function_entry_at};
ghost use Rattle.wasmparser_module_state.specs.State.{context};

use crate::entry::Entry;
use crate::module_state::{ModuleState, refusal};
use wasm_core_types::limits::{Limit, MAX_WASM_FUNCTIONS};
use wasmparser_error::error::{Error, ErrorKind};

impl ModuleState {
    /// Returns the number of functions of the module's own.
    pub fn own_function_count(&self) -> usize
        ensures { result ≡ length (context self.now).own_functions }
    {
        self.own_functions.len()
    }

    /// Returns the type index of a function of the module's own, by its place among these, if there is that function.
    pub fn type_of_own_function(&self, place: usize) -> Option<u32>
        ensures { result ≡ slice_get (context self.now).own_functions place }
    {
        self.own_functions.get(place).copied()
    }

    /// Checks that a type index names a function type.
    #[tactic(auto, using(crate::proofs::FuncTypes::func_steps))]
    pub(crate) fn is_func_type(&self, index: u32) -> bool
        ensures { result ≡ is_some (func_type_at (context self.now).types index) }
    {
        self.types.func_type(index).is_some()
    }

    /// Checks that there are as many functions as there may be.
    pub(crate) fn has_all_functions(&self) -> bool
        ensures { result ≡ nat_le 1000000 (length (context self.now).imported_functions + length (context self.now).own_functions) }
    {
        let imported = self.imported_functions.len() as u64;
        let own = self.own_functions.len() as u64;
        imported >= MAX_WASM_FUNCTIONS || own >= MAX_WASM_FUNCTIONS - imported
    }
}

// The type index of a function.
impl Entry for u32 {
    ghost entry = { λ x. OfFunction x };

    ghost entry_at = { function_entry_at };

    ghost adds_types = { false };

    ghost is_made = { record { made = λ x. OfFunction x; is = λ x. refl; reads = λ _ bytes. refl; breaks = λ _ _ _ _ large _. large } };

    fn add(self, state: &mut ModuleState, offset: u64) -> Result<(), Error> {
        if !state.is_func_type(self) {
            return Err(refusal(offset, ErrorKind::Invalid));
        }
        if state.has_all_functions() {
            return Err(refusal(offset, ErrorKind::Limit(Limit::Functions)));
        }
        state.own_functions.push(self)?;
        Ok(())
    }
}
