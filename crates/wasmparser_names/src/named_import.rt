//! Imports with their names, as they are shown.

use crate::imported_items::ImportedItem;
use std::iter::Iterator;
use std::marker::Model;
use std::vec::IntoIter;

/// An import with its names.
#[derive(Clone, Copy, Debug)]
pub struct NamedImport<'a> {
    /// The name of the module that it comes from.
    pub module: &'a str,
    /// Its name there.
    pub name: &'a str,
    /// The imported item.
    pub item: ImportedItem,
}

/// The imports that are still to come, in order. Contracts see them as their list.
#[derive(Drop)]
pub struct NamedImports<'a> {
    pub(crate) left: IntoIter<NamedImport<'a>>,
}

impl<'a> Model for NamedImports<'a> {
    ghost use Rattle.std.specs.Vec.Iter.{into_iter_items};
    ghost use Rattle.std.specs.Prelude.{List, map};
    ghost use Rattle.wasm_validity.specs.ImportedItems.{Imported};
    ghost use Rattle.wasmparser_names.specs.ImportNames.{named_import};

    ghost Value = { List Imported };

    ghost view = { λ it. map named_import (into_iter_items it.left) };
}

impl<'a> Iterator for NamedImports<'a> {
    ghost use Rattle.std.specs.Iterator.{YieldsFirstBy, item_count};
    ghost use Rattle.wasmparser_names.specs.ImportNames.{named_import};

    type Item = NamedImport<'a>;

    ghost next_gives = { YieldsFirstBy named_import (λ it. it) };

    ghost remaining = { item_count (λ it. it) };

    fn next(&mut self) -> Option<NamedImport<'a>> {
        self.left.next()
    }
}
