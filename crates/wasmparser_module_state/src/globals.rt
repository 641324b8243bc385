//! The space of globals (Core Specification 3.0, Validation, "Globals").

ghost use Rattle.std.specs.Prelude.{◌≡◌, ◌+◌, ◌++◌, ◌∷◌, [], refl, IfErr, IfOk, length, nat_le, option_map, slice_get, false};
ghost use Rattle.wasm_validity.specs.Context.{globals_in};
ghost use Rattle.wasm_validity.specs.Entries.{OfGlobal};
ghost use Rattle.wasmparser_entries.specs.Entries.{global_of, packed_global};
ghost use Rattle.wasmparser_error.specs.declared.error.ErrorKind.TheVariants as kinds;
ghost use Rattle.wasmparser_payloads.specs.EntryReading.{global_entry_at};
ghost use Rattle.wasmparser_module_state.specs.LargeIndexes.{large_global};
ghost use Rattle.wasmparser_module_state.specs.State.{context, features_of, global};

use crate::entry::Entry;
use crate::module_state::{ModuleState, refusal};
use wasm_core_types::limits::{Limit, MAX_WASM_GLOBALS};
use wasmparser_constants::scope::item_at;
use wasmparser_entries::global::Global;
use wasmparser_error::error::{Error, ErrorKind};
use wasmparser_readers::global_type::GlobalType;
use wasmparser_types::val_type::ValType;

impl ModuleState {
    /// Returns the type of the global with this index, if there is one.
    #[tactic(auto, using(crate::proofs::ExportLaws::global_steps))]
    pub fn global_at(&self, index: u32) -> Option<GlobalType>
        ensures { option_map global result ≡ slice_get (globals_in (context self.now)) index }
    {
        item_at(&self.imported_globals, &self.own_globals, index as usize)
    }

    /// Checks that there are as many globals as there may be.
    pub(crate) fn has_all_globals(&self) -> bool
        ensures { result ≡ nat_le 1000000 (length (context self.now).imported_globals + length (context self.now).own_globals) }
    {
        let imported = self.imported_globals.len() as u64;
        let own = self.own_globals.len() as u64;
        imported >= MAX_WASM_GLOBALS || own >= MAX_WASM_GLOBALS - imported
    }

    fn push_own_global(&mut self, content_type: ValType, mutable: bool) -> Result<(), Error>
        ensures pushed { IfOk result (λ _. context self.new ≡ record (context self.old) { own_globals = (context self.old).own_globals ++ global (record { content_type = content_type; mutable = mutable }) ∷ [] }) }
        ensures refused { IfErr result (λ e. (e ≡ record { offset = 0; kind = kinds.Memory }) × (context self.new ≡ context self.old)) }
        ensures declared { self.new.declared ≡ self.old.declared }
        ensures types { self.new.types ≡ self.old.types }
    {
        self.own_globals.push(GlobalType {
            content_type,
            mutable,
        })?;
        Ok(())
    }
}

impl<'a> Entry for Global<'a> {
    ghost entry = { λ x. OfGlobal (global_of (packed_global x)) };

    ghost entry_at = { global_entry_at };

    ghost adds_types = { false };

    ghost is_made = { record { made = λ x. OfGlobal x; is = λ x. refl; reads = λ _ bytes. refl; breaks = large_global } };

    fn add(self, state: &mut ModuleState, offset: u64) -> Result<(), Error> {
        if !state.is_value(&self.ty.content_type) {
            return Err(refusal(offset, ErrorKind::Invalid));
        }
        if state.has_all_globals() {
            return Err(refusal(offset, ErrorKind::Limit(Limit::Globals)));
        }
        state.check_initialiser(&self.init_expr, &self.ty.content_type, offset)?;
        state.make_room()?;
        state.push_own_global(self.ty.content_type, self.ty.mutable)?;
        state.declare_named(&self.init_expr);
        Ok(())
    }
}
