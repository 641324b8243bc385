//! Groups that fit into what is left, and so may be cloned.

ghost use Rattle.std.specs.Prelude.{◌≡◌, ◌<◌, ◌≤◌, ◌++◌, ◌∷◌, [], ℕ, List, IfOk};
ghost use Rattle.std.specs.List.{AllByRecursion};
ghost use Rattle.wasm_smith_types.specs.Drawing.{total};
ghost use Rattle.wasm_smith_types.specs.Fitting.{AreFitting, AreChoices};

use std::alloc::{AllocError, Global};

/// A group: the index of its first type, and the number of its types.
#[derive(Clone, Copy, Debug)]
pub struct Span {
    /// The index of its first type.
    pub start: u32,
    /// The number of its types.
    pub size: u32,
}

/// The groups that have at most as many types as are left. That number only falls, so the list is gone through at most once for each size.
#[derive(Debug, Drop)]
pub struct Fitting {
    spans: Vec<Span>,
    // the size of the largest group
    greatest: u32,
}

impl Fitting {
    /// Returns an empty list.
    pub fn new(alloc: Global) -> Fitting
        ensures { (left : ℕ) → AreFitting [] left result }
    {
        Fitting {
            spans: Vec::new(alloc),
            greatest: 0,
        }
    }

    /// Returns the groups.
    pub fn spans(&self) -> &[Span]
        ensures { result.now ≡ self.now.spans.items }
    {
        &self.spans
    }

    /// Removes the groups of more than `left` types.
    pub fn keep(&mut self, left: u32)
        ensures { (sizes : List ℕ) (more : ℕ) → left ≤ more → AreFitting sizes more self.old
            → AreFitting sizes left self.new × AreChoices sizes left self.new.spans.items }
    {
        if self.greatest <= left {
            return;
        }
        self.spans.retain(|span| span.size <= left);
        self.greatest = greatest_size(&self.spans);
    }

    /// Adds the last group.
    ///
    /// # Errors
    /// Where memory runs out.
    pub fn push(&mut self, span: Span) -> Result<(), AllocError>
        requires some { 0 < span.size }
        ensures { IfOk result (λ _. (sizes : List ℕ) (left : ℕ) → total sizes ≡ span.start → AreFitting sizes left self.old
            → AreFitting (sizes ++ span.size ∷ []) left self.new) }
    {
        self.spans.push(span)?;
        self.greatest = self.greatest.max(span.size);
        Ok(())
    }
}

// Returns the size of the largest group, or 0 if there is none.
fn greatest_size(spans: &[Span]) -> u32
    ensures { AllByRecursion (λ span. span.size ≤ result) spans.now }
{
    let mut greatest: u32 = 0;
    for span in spans {
        greatest = greatest.max(span.size);
    }
    greatest
}
