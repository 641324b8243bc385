//! Entries of sections, each of which is judged and added.

ghost use Rattle.std.specs.Prelude.{◌≡◌, Bool, IfErr, IfOk, false, true};
ghost use Rattle.wasm_validity.specs.Entries.{Entry};
ghost use Rattle.wasmparser_payloads.specs.EntryReading.{EntryReading};
ghost use Rattle.wasmparser_module_state.specs.History.{EntersEntry, grows, held};
ghost use Rattle.wasmparser_module_state.specs.Judging.{Adds, AddsEntries, IsMadeOf};
ghost use Rattle.wasmparser_error.specs.declared.error.ErrorKind.TheVariants as kinds;
ghost use Rattle.wasmparser_module_state.specs.State.{IsFull, context, features_of};

use crate::module_state::ModuleState;
use std::alloc::Global;
use wasmparser_error::error::Error;
use wasmparser_readers::from_reader::{FromReader, Item};
use wasmparser_readers::section_limited::SectionLimited;

/// An item of a section with a rule.
pub trait Entry: Item {
    // The item as an entry of the specification.
    ghost entry: { Self → Entry };

    // The reading of bytes as such an entry.
    ghost entry_at: { EntryReading };

    // True if such entries are groups of types.
    ghost adds_types: { Bool };

    /// Judges the item, which stands at this offset, after the entries before it, and adds it to them.
    ///
    /// # Errors
    /// `Invalid` where it breaks a rule, `Limit` where it passes that limit, `Total` where the list of types has no room for it, at the offset; `Memory`, at an open
    /// place, where memory runs out. Then nothing is added; but the types may be gone, where it was a recursive group, and where it was a group of imports, it is open which of them stand,
    /// and of an element segment some of the functions may be declared that it names.
    fn add(self, state: &mut ModuleState, offset: u64) -> Result<(), Error>
        requires of_module { Self.Item.IsOfModule self }
        requires grows { grows state.old ≡ true }
        ensures added { Adds (features_of state.old) (context state.old) (held state.old) (entry self) offset result (context state.new) }
        ensures full { IfErr result (λ e. e.kind ≡ kinds.Memory → IsFull state.old (entry self)) }
        ensures entered { IfOk result (λ _. EntersEntry (features_of state.old) (context state.old) (held state.old) (entry self) (held state.new)) }
        ensures features { features_of state.new ≡ features_of state.old }
        ensures types { adds_types ≡ false → state.new.types ≡ state.old.types }
        ensures grows { grows state.new ≡ true };

    // The entry is made of what contracts see of the item, and so reads as the item does.
    ghost is_made: { IsMadeOf Self.Item.form Self.Item.indexes Self.Item.form_at entry entry_at };
}

/// Judges the items of a section one by one as they are read, and adds them (Core Specification 3.0, Validation, "Modules").
///
/// # Errors
/// `Malformed` where the items don't read or bytes are left after them, `Invalid` where an item breaks a rule, `Limit` where one passes that limit, `Total` where the
/// list of types has no room for one, `Memory` where memory runs out, each at a place of the section. Then it is open what the state holds.
pub fn add_entries<'a, T: FromReader<'a> + Entry>(
    alloc: Global,
    state: &mut ModuleState,
    section: SectionLimited<'a, T>,
) -> Result<(), Error>
    requires grows { grows state.old ≡ true }
    ensures added { AddsEntries (features_of state.old) T.entry_at T.TakesMemory (context state.old) (held state.old) section.entry.left result (context state.new) (held state.new) }
    ensures features { features_of state.new ≡ features_of state.old }
    ensures types { T.adds_types ≡ false → state.new.types ≡ state.old.types }
    ensures grows { grows state.new ≡ true }
{
    // (what a proof knows of the number of types it knows by this call)
    let _ = state.type_count();
    let mut items = section.into_iter_with_offsets(alloc);
    'items: while let Some(item) = items.next() {
        let (offset, item) = item?;
        match item.add(state, offset) {
            Ok(()) => {}
            Err(error) => return Err(error.placed(offset)),
        }
    }
    Ok(())
}
