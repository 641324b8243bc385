//! A type section whose groups may be anything.

use crate::module_group::module_group;
use crate::type_space::TypeSpace;
use std::alloc::Global;
use std::marker::Model;
use wasm_core_types::features::WasmFeatures;
use wasmparser_error::error::Error;
use wasmparser_rec_groups::intern::InternRecGroup;
use wasmparser_type_list::type_identifier::TypeIdentifier;
use wasmparser_type_list::type_list::TypeList;
use wasmparser_types::index::CoreTypeId;
use wasmparser_types::sub_type::RecGroup;

// More types than any section has.
const MANY: usize = 1 << 24;

/// The types of a module, and the list that knows them. A group that `InternRecGroup` doesn't ask for is answered None.
#[derive(Drop)]
pub struct CheckedSection {
    list: TypeList,
    space: TypeSpace,
}

impl Model for CheckedSection {
    ghost use Rattle.wasmparser_type_list.specs.TypeTables.{TypeTables};
    ghost use Rattle.wasmparser_interning_rows.specs.CheckedSections.{IsChecked};

    ghost Value = { TypeTables };

    ghost view = { λ section. section.list };

    ghost invariant = { λ section. IsChecked section.list section.space.ids.items };
}

impl CheckedSection {
    /// Creates a section without types, and a new list.
    pub fn new(alloc: Global, features: WasmFeatures) -> CheckedSection {
        CheckedSection {
            list: TypeList::new(alloc),
            space: TypeSpace::new(alloc, features),
        }
    }

    /// Returns the ids of the types, by type index.
    pub fn type_ids(&self) -> &[CoreTypeId] {
        self.space.type_ids()
    }

    /// Returns the number of types in the list.
    pub fn list_len(&self) -> usize {
        CoreTypeId::list(&self.list).len()
    }

    /// The section of another module, whose types are known to the same list.
    pub fn next_module(&mut self, alloc: Global, features: WasmFeatures) {
        self.space = TypeSpace::new(alloc, features);
    }

    /// Adds a group.
    pub fn add(&mut self, group: RecGroup, offset: u64) -> Option<Result<(), Error>> {
        let group = module_group(group)?;
        if self.space.type_ids().len() > MANY || group.types().len() > MANY {
            return None;
        }
        Some(
            self.space
                .canonicalize_and_intern_rec_group(&mut self.list, group, offset),
        )
    }
}

/// Checks that a row holds of a new section. Who owns a section proves how each of its parts is let go of, so the tests leave that to this call.
pub fn on_new_section<F: Fn(Global, &mut CheckedSection, &str) -> Option<bool>>(
    alloc: Global,
    features: WasmFeatures,
    row: &str,
    holds: F,
) -> Option<bool>
    requires { F.IsAlwaysCallable holds }
{
    let mut section = CheckedSection::new(alloc, features);
    holds(alloc, &mut section, row)
}
