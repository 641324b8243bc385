//! Ids by which data are found in a list of types.

use crate::type_list::TypeList;
use std::fmt::Debug;
use std::ops::Range;
use wasmparser_type_relations::snapshot_list::SnapshotList;
use wasmparser_types::index::{CoreTypeId, RecGroupId};
use wasmparser_types::sub_type::SubType;

/// An id in a list of types: a number that counts in one of its lists.
pub trait TypeIdentifier: Debug + Copy + Eq {
    ghost use Rattle.std.specs.Prelude.{◌≡◌, ℕ, List};
    ghost use Rattle.std.specs.Borrow.{Lends, sem};
    ghost use Rattle.wasmparser_type_relations.specs.contracts.snapshot_list.SnapshotList.{the_row as list_row};
    ghost use Rattle.wasmparser_type_list.specs.TypeTables.{TypeTables};
    ghost use Rattle.wasmparser_type_list.specs.contracts.type_list.TypeList.{the_row as tables_row};

    /// The data that such an id stands for.
    type Data: Drop;

    // The number.
    ghost number: { Self → ℕ };

    // The data of all ids, in order.
    ghost listed: { TypeTables → List Self.Data };

    // A list of types with other data, which leaves the other kinds of data as they are.
    ghost with_listed: { TypeTables → List Self.Data → TypeTables };

    /// Returns the id with this number.
    fn from_index(index: u32) -> Self
        ensures { number result ≡ index };

    /// Returns the data of all such ids.
    fn list(types: &TypeList) -> &SnapshotList<Self::Data>
        ensures { result.now.items ≡ listed types.now };

    /// Returns the data of all such ids, to be changed. No other table follows: unless each change is made in all of them, the tables no longer agree, which most
    /// calls ask for.
    fn list_mut(types: &mut TypeList) -> &mut SnapshotList<Self::Data>
        ensures* lends { sem 𝓛 (Lends tables_row (list_row Self.Data.row) types.entry result (λ list. with_listed types.old list.items)) }
        ensures value { result.now.items ≡ listed types.old };

    /// Returns the number.
    fn index(&self) -> usize
        ensures { result ≡ number self.now };

    // The data are as they were made, and such data as there were change nothing.
    ghost listed_again: { (tables : TypeTables) (changed : List Self.Data) → listed (with_listed tables changed) ≡ changed };

    ghost same_listed: { (tables : TypeTables) → with_listed tables (listed tables) ≡ tables };
}

impl TypeIdentifier for CoreTypeId {
    ghost use Rattle.std.specs.Prelude.{refl};
    ghost use Rattle.wasmparser_type_list.specs.TypeTables.{with_types};

    type Data = SubType;

    ghost number = { λ id. id };

    ghost listed = { λ tables. tables.types };

    ghost with_listed = { with_types };

    ghost listed_again = { λ _ _. refl };

    ghost same_listed = { λ _. refl };

    fn from_index(index: u32) -> CoreTypeId {
        CoreTypeId::from_index(index)
    }

    fn list(types: &TypeList) -> &SnapshotList<SubType> {
        types.core_types()
    }

    fn list_mut(types: &mut TypeList) -> &mut SnapshotList<SubType> {
        types.core_types_mut()
    }

    fn index(&self) -> usize {
        CoreTypeId::index(self)
    }
}

impl TypeIdentifier for RecGroupId {
    ghost use Rattle.std.specs.Prelude.{refl};
    ghost use Rattle.wasmparser_type_list.specs.TypeTables.{with_groups};

    type Data = Range<CoreTypeId>;

    ghost number = { λ id. id };

    ghost listed = { λ tables. tables.groups };

    ghost with_listed = { with_groups };

    ghost listed_again = { λ _ _. refl };

    ghost same_listed = { λ _. refl };

    fn from_index(index: u32) -> RecGroupId {
        RecGroupId::from_index(index)
    }

    fn list(types: &TypeList) -> &SnapshotList<Range<CoreTypeId>> {
        types.groups()
    }

    fn list_mut(types: &mut TypeList) -> &mut SnapshotList<Range<CoreTypeId>> {
        types.groups_mut()
    }

    fn index(&self) -> usize {
        RecGroupId::index(self)
    }
}
