//! The numbers of groups that a validator knows, by the ids of their first types.

ghost use Rattle.std.specs.Prelude.{◌≡◌, [], ℕ, IfOk, Some, nat_eq, if◌then◌else◌};
ghost use Rattle.wasm_gen_view.specs.KnownReferences.{number_in};

use std::alloc::{AllocError, Global};
use std::collections::HashMap;
use std::marker::Model;

/// The numbers of groups, by the ids of their first types. Contracts see them as a list of pairs.
#[derive(Debug, Drop)]
pub(crate) struct GroupNumbers {
    numbers: HashMap<usize, usize>,
}

impl Model for GroupNumbers {
    ghost use Rattle.std.specs.Prelude.{ℕ, List};

    ghost Value = { List (ℕ × ℕ) };

    ghost view = { λ it. it.numbers.entries };
}

impl GroupNumbers {
    /// Creates a list without numbers.
    pub(crate) fn new(alloc: Global) -> GroupNumbers
        ensures { result ≡ [] }
    {
        GroupNumbers {
            numbers: HashMap::new(alloc),
        }
    }

    /// Returns the number of the group with this first id.
    pub(crate) fn get(&self, first: usize) -> Option<usize>
        ensures { result ≡ number_in self.now first }
    {
        let number = self.numbers.get(&first)?;
        Some(*number)
    }

    /// Sets the number of the group with this first id.
    ///
    /// # Errors
    /// Where memory runs out.
    pub(crate) fn insert(&mut self, first: usize, number: usize) -> Result<(), AllocError>
        ensures { IfOk result (λ _. (other : ℕ) → number_in self.new other ≡ if nat_eq first other then Some number else number_in self.old other) }
    {
        self.numbers.insert(first, number)?;
        Ok(())
    }
}
