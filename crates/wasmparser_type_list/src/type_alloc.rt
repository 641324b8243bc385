//! A list of types that a validator fills.

use crate::type_identifier::TypeIdentifier;
use crate::type_list::TypeList;
use std::alloc::Global;
use std::marker::Model;
use std::ops::Index;

/// A list of types that a validator fills.
#[derive(Drop)]
pub struct TypeAlloc {
    list: TypeList,
}

impl Model for TypeAlloc {
    ghost use Rattle.wasmparser_type_list.specs.TypeTables.{TypeTables};

    ghost Value = { TypeTables };

    ghost view = { λ types. types.list };
}

impl TypeAlloc {
    ghost use Rattle.std.specs.Prelude.{◌≡◌};
    ghost use Rattle.std.specs.Borrow.{sem};
    ghost use Rattle.wasmparser_type_list.specs.Lending.{LendsList};
    ghost use Rattle.wasmparser_type_list.specs.TypeTables.{TablesAgree, no_types};

    /// Creates a list without types.
    pub fn new(alloc: Global) -> TypeAlloc
        ensures empty { result ≡ no_types }
        ensures agree { TablesAgree result }
    {
        TypeAlloc {
            list: TypeList::new(alloc),
        }
    }

    /// Returns the list.
    pub fn list(&self) -> &TypeList
        ensures { result.now ≡ self.now }
    {
        &self.list
    }

    /// Returns the list, to be changed.
    pub fn list_mut(&mut self) -> &mut TypeList
        ensures* lends { sem 𝓛 (LendsList self.entry result) }
        ensures value { result.now ≡ self.old }
    {
        &mut self.list
    }
}

impl<T: TypeIdentifier> Index<T> for TypeAlloc {
    ghost use Rattle.std.specs.Prelude.{◌≡◌, ◌<◌, Some, length, slice_get};

    type Output = T::Data;

    ghost can_index = { λ tables id. T.number id < length (T.listed tables) };

    ghost index_gives = { λ tables id element. slice_get (T.listed tables) (T.number id) ≡ Some element };

    /// Returns the data that a known id stands for.
    fn index(&self, id: T) -> &T::Data {
        &self.list[id]
    }
}
