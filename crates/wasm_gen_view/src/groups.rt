//! Distinct groups by their numbers.

ghost use Rattle.std.specs.Prelude.{◌≡◌, [], IfOk, length, map};
ghost use Rattle.wasm_gen_view.specs.Numbers.{IsNumbered, group_types};

use crate::types::SubType;
use indexmap::IndexSet;
use std::alloc::{AllocError, Global};
use std::fmt;
use std::hash::{BuildHasher, DefaultHasher};
use std::marker::Model;

/// Hashes groups, from a hash of all types of the module on, so that groups can't be chosen to collide without changing where hashes start.
#[derive(Clone, Copy)]
pub(crate) struct GroupHasher {
    start: DefaultHasher,
}

impl GroupHasher {
    /// Creates a hasher that goes on from the hash of a module's types.
    pub(crate) fn after(start: DefaultHasher) -> GroupHasher {
        GroupHasher { start }
    }
}

impl BuildHasher for GroupHasher {
    type Hasher = DefaultHasher;

    ghost build_hasher = { λ hasher. hasher.start };

    fn build_hasher(&self) -> DefaultHasher {
        self.start
    }
}

impl fmt::Debug for GroupHasher {
    fn fmt<W: fmt::Write>(&self, f: &mut fmt::Formatter<W>) -> fmt::Result {
        f.write_str("GroupHasher")
    }
}

/// Distinct groups, numbered in the order in which they came. Contracts see the list of their types.
#[derive(Drop)]
pub(crate) struct Groups {
    set: IndexSet<Vec<SubType>, GroupHasher>,
}

impl Model for Groups {
    ghost use Rattle.std.specs.Prelude.{List, map};
    ghost use Rattle.wasm_gen_view.specs.Numbers.{group_types};
    ghost use Rattle.wasm_gen_view.specs.declared.types.TypeReference.{TypeReference};
    ghost use Rattle.wasm_spec.specs.Types as spec;

    ghost Value = { List (List (spec.SubType TypeReference)) };

    ghost view = { λ groups. map group_types groups.set.keys };
}

impl Groups {
    /// Creates a list without groups.
    pub(crate) fn new(alloc: Global, hasher: GroupHasher) -> Groups
        ensures { result ≡ [] }
    {
        Groups {
            set: IndexSet::with_hasher(alloc, hasher),
        }
    }

    /// Returns the number of a group: that of an equal one, or the next number where there is none.
    ///
    /// # Errors
    /// Where memory runs out.
    #[tactic(auto, using(crate::proofs::GroupLaws::numbered))]
    pub(crate) fn number(&mut self, group: Vec<SubType>) -> Result<usize, AllocError>
        ensures { IfOk result (λ number. IsNumbered (group_types group) self.old number self.new) }
    {
        let (number, _) = self.set.insert_full(group)?;
        Ok(number)
    }

    /// Returns the number of groups.
    pub(crate) fn len(&self) -> usize
        ensures { result ≡ length self.now }
    {
        self.set.len()
    }

    /// Returns the groups in order.
    ///
    /// # Errors
    /// Where memory runs out.
    pub(crate) fn into_list(self, alloc: Global) -> Result<Vec<Vec<SubType>>, AllocError>
        ensures { IfOk result (λ groups. map group_types groups.items ≡ self) }
    {
        self.set.into_iter().collect(alloc)
    }
}
