//! Imported items.

ghost use Rattle.std.specs.Prelude.{◌≡◌, ◌++◌, ◌∷◌, [], OnErr, OnOk, IfOk};

use std::alloc::{AllocError, Global};
use std::marker::Model;
use wasmparser_readers::export::ExternalKind;

/// The item that an import is.
#[derive(Clone, Copy, Debug, PartialEq, Eq)]
pub struct ImportedItem {
    /// Its kind.
    pub kind: ExternalKind,
    /// Its index among those of its kind.
    pub index: u32,
}

/// The items that are imported by the same names, of which there is one nearly always. Contracts see them as their list.
#[derive(Debug, Drop)]
pub struct ImportedItems {
    first: ImportedItem,
    others: Option<Box<Vec<ImportedItem>>>,
}

impl Model for ImportedItems {
    ghost use Rattle.std.specs.Prelude.{List, ◌∷◌};
    ghost use Rattle.wasmparser_names.specs.ImportedItems.{others_in};
    ghost use Rattle.wasmparser_names.specs.declared.imported_items.ImportedItem.{ImportedItem};

    ghost Value = { List ImportedItem };

    ghost view = { λ items. items.first ∷ others_in items.others };
}

impl ImportedItems {
    /// Creates a list of one item.
    pub fn new(item: ImportedItem) -> ImportedItems
        ensures { result ≡ item ∷ [] }
    {
        ImportedItems {
            first: item,
            others: None,
        }
    }

    /// Adds an item after the others.
    ///
    /// # Errors
    /// Where memory runs out; then nothing changes.
    pub fn push(&mut self, alloc: Global, item: ImportedItem) -> Result<(), AllocError>
        ensures added { OnOk result (self.new ≡ self.old ++ item ∷ []) }
        ensures refused { OnErr result (self.new ≡ self.old) }
    {
        if let Some(others) = &mut self.others {
            others.push(item)?;
            return Ok(());
        }
        self.others = Some(only(alloc, item)?);
        Ok(())
    }

    /// Returns the first item, and those after it.
    pub fn parts(&self) -> (&ImportedItem, &[ImportedItem])
        ensures { self.now ≡ result.0.now ∷ result.1.now }
    {
        match &self.others {
            Some(others) => (&self.first, others.as_slice()),
            None => (&self.first, &[]),
        }
    }
}

// Allocates a list of one item.
fn only(alloc: Global, item: ImportedItem) -> Result<Box<Vec<ImportedItem>>, AllocError>
    ensures { IfOk result (λ items. items.value.items ≡ item ∷ []) }
{
    let mut items = Vec::new(alloc);
    items.push(item)?;
    Ok(Box::new(alloc, items)?)
}
