//! Recursive groups by their keys.

use std::alloc::{AllocError, Global};
use std::collections::BTreeMap;
use std::marker::Model;
use wasmparser_types::index::RecGroupId;

/// Groups by their keys. It is ordered, so that no choice of keys makes it slow.
#[derive(Drop)]
pub struct GroupMap {
    map: BTreeMap<Vec<u32>, RecGroupId>,
}

impl Model for GroupMap {
    ghost use Rattle.std.specs.Prelude.{ℕ, List};
    ghost use Rattle.wasmparser_type_relations.specs.GroupMaps.{keyed};

    ghost Value = { List (List ℕ × ℕ) };

    ghost view = { λ groups. keyed groups.map.entries };
}

impl GroupMap {
    ghost use Rattle.std.specs.Prelude.{◌≡◌, ◌≢◌, ℕ, List, [], Some, IfErr, IfOk};
    ghost use Rattle.wasmparser_type_relations.specs.GroupMaps.{found};

    /// Creates a map without groups.
    pub fn new(alloc: Global) -> GroupMap
        ensures { result ≡ [] }
    {
        GroupMap {
            map: BTreeMap::new(alloc),
        }
    }

    /// Returns the group with this key.
    pub fn get(&self, key: &[u32]) -> Option<RecGroupId>
        ensures { result ≡ found self.now key.now }
    {
        self.map.get(key).copied()
    }

    /// Enters a group.
    ///
    /// # Errors
    /// Where memory runs out; then nothing changes.
    pub fn insert(&mut self, key: Vec<u32>, group: RecGroupId) -> Result<(), AllocError>
        ensures entered { IfOk result (λ _. found self.new key.items ≡ Some group) }
        ensures others { IfOk result (λ _. (other : List ℕ) → other ≢ key.items → found self.new other ≡ found self.old other) }
        ensures refused { IfErr result (λ _. self.new ≡ self.old) }
    {
        self.map.insert(key, group)?;
        Ok(())
    }
}
