//! Recursive groups of a module.

ghost use Rattle.std.specs.Prelude.{refl, true};
ghost use Rattle.wasm_spec.specs.TypeReferences.{group_refs};
ghost use Rattle.wasm_validity.specs.Entries.{OfType};
ghost use Rattle.wasmparser_payloads.specs.EntryReading.{type_entry_at};
ghost use Rattle.wasmparser_module_state.specs.Judging.{has_none};
ghost use Rattle.wasmparser_rec_groups.specs.Contexts.{in_section};
ghost use Rattle.wasmparser_types.specs.RecGroups.{rec_group};

use crate::entry::Entry;
use crate::module_state::ModuleState;
use wasmparser_error::error::Error;
use wasmparser_types::sub_type::RecGroup;

impl Entry for RecGroup {
    ghost entry = { λ x. OfType (in_section (rec_group x)) };

    ghost entry_at = { type_entry_at };

    ghost adds_types = { true };

    ghost is_made = { record { made = λ x. OfType x; is = λ x. refl; reads = λ _ bytes. refl; breaks = λ _ _ group _ large keeps. has_none (group_refs group) keeps.small large } };

    fn add(self, state: &mut ModuleState, offset: u64) -> Result<(), Error> {
        state.types.add_rec_group(self, offset)
    }
}
