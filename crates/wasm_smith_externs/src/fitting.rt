//! Functions and tags whose types fit into what is left.

ghost use Rattle.std.specs.List.{AllByRecursion, filter};
ghost use Rattle.std.specs.Prelude.{◌≡◌, ◌≤◌, ◌++◌, ◌∷◌, [], ◌==◌, IfOk, length};
ghost use Rattle.wasm_smith_externs.specs.Fitting.{fits};

use std::alloc::{AllocError, Global};
use std::marker::Model;

/// An item that may be exported.
#[derive(Clone, Copy, Debug)]
pub struct SizedItem {
    /// Its index, in the index space of its kind.
    pub index: u32,
    /// The size of its type.
    pub size: usize,
}

/// Functions or tags whose types fit into what is left. What is left only falls, so the list is gone through at most once for each size.
#[derive(Debug, Drop)]
pub struct Fitting {
    items: Vec<SizedItem>,
    // at least the size of the largest type
    greatest: usize,
}

impl Model for Fitting {
    ghost use Rattle.std.specs.Prelude.{◌≤◌, List};
    ghost use Rattle.std.specs.List.{AllByRecursion};
    ghost use Rattle.wasm_smith_externs.specs.declared.fitting.SizedItem.{SizedItem};

    ghost Value = { List SizedItem };

    ghost view = { λ fitting. fitting.items.items };

    ghost invariant = { λ fitting. AllByRecursion (λ item. item.size ≤ fitting.greatest) fitting.items.items };
}

impl Fitting {
    /// Returns an empty list.
    pub fn new(alloc: Global) -> Fitting
        ensures { result ≡ [] }
    {
        Fitting {
            items: Vec::new(alloc),
            greatest: 0,
        }
    }

    /// Returns the items.
    pub fn items(&self) -> &[SizedItem]
        ensures { result.now ≡ self.now }
    {
        &self.items
    }

    /// Returns true if there are no items.
    pub fn is_empty(&self) -> bool
        ensures { result ≡ (length self.now == 0) }
    {
        self.items().is_empty()
    }

    /// Adds an item.
    ///
    /// # Errors
    /// Where memory runs out.
    pub fn push(&mut self, item: SizedItem) -> Result<(), AllocError>
        ensures { IfOk result (λ _. self.new ≡ self.old ++ item ∷ []) }
    {
        self.items.push(item)?;
        self.greatest = self.greatest.max(item.size);
        Ok(())
    }

    /// Removes the items whose types are larger than `left`.
    pub fn keep(&mut self, left: usize)
        ensures { self.new ≡ filter (fits left) self.old }
    {
        if self.greatest <= left {
            return;
        }
        self.items.retain(|item| item.size <= left);
        self.greatest = greatest_size(&self.items);
    }
}

// Returns the size of the largest type, or 0 if there is none.
fn greatest_size(items: &[SizedItem]) -> usize
    ensures { AllByRecursion (λ item. item.size ≤ result) items.now }
{
    let mut greatest: usize = 0;
    for item in items {
        greatest = greatest.max(item.size);
    }
    greatest
}
