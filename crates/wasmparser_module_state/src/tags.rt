//! Tags of a module's own (Core Specification 3.0, Validation, "Tags").

ghost use Rattle.std.specs.Prelude.{◌≡◌, ◌≢◌, refl, IfErr, slice_get, false};
ghost use Rattle.wasm_validity.specs.Entries.{OfTag, OfTags};
ghost use Rattle.wasmparser_readers.specs.ItemTypes.{tag_type};
ghost use Rattle.wasmparser_payloads.specs.EntryReading.{tag_entry_at};
ghost use Rattle.wasmparser_error.specs.declared.error.ErrorKind.TheVariants as kinds;
ghost use Rattle.wasmparser_module_state.specs.History.{held};
ghost use Rattle.wasmparser_module_state.specs.Judging.{Adds};
ghost use Rattle.wasmparser_module_state.specs.State.{context, features_of};

use crate::entry::Entry;
use crate::module_state::{ModuleState, refusal};
use wasm_core_types::limits::{Limit, MAX_WASM_TAGS};
use wasmparser_error::error::{Error, ErrorKind};
use wasmparser_readers::tag_type::TagType;

impl ModuleState {
    /// Returns the type index of a tag, if there is that tag.
    pub fn type_of_tag(&self, tag: u32) -> Option<u32>
        ensures { result ≡ slice_get (context self.now).tags tag }
    {
        self.tags.get(tag as usize).copied()
    }

    /// Judges that there is a tag section, which may be empty.
    ///
    /// # Errors
    /// `Invalid` where exceptions are off.
    pub fn tag_section(&self, offset: u64) -> Result<(), Error>
        ensures judged { Adds (features_of self.now) (context self.now) (held self.now) OfTags offset result (context self.now) }
        ensures memory { IfErr result (λ e. e.kind ≢ kinds.Memory) }
    {
        if !self.features().exceptions() {
            return Err(refusal(offset, ErrorKind::Invalid));
        }
        Ok(())
    }
}

impl Entry for TagType {
    ghost entry = { λ x. OfTag (tag_type x) };

    ghost entry_at = { tag_entry_at };

    ghost adds_types = { false };

    ghost is_made = { record { made = λ x. OfTag x; is = λ x. refl; reads = λ _ bytes. refl; breaks = λ _ _ _ _ large _. large } };

    fn add(self, state: &mut ModuleState, offset: u64) -> Result<(), Error> {
        if !state.is_tag_type(self.func_type_idx) {
            return Err(refusal(offset, ErrorKind::Invalid));
        }
        if state.tags.len() as u64 >= MAX_WASM_TAGS {
            return Err(refusal(offset, ErrorKind::Limit(Limit::Tags)));
        }
        state.tags.push(self.func_type_idx)?;
        Ok(())
    }
}
