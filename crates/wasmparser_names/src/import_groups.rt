//! Imports by their two names.

ghost use Rattle.std.specs.Prelude.{◌≡◌, [], ◌<◌, IfOk, OnErr, OnOk, bytes_eq, length, map};
ghost use Rattle.std.specs.Vec.Iter.{into_iter_items};
ghost use Rattle.std.specs.List.{IsDistinct};
ghost use Rattle.wasm_validity.specs.ImportedItems.{with_import, with_imports};
ghost use Rattle.wasmparser_names.specs.ImportNames.{imported, module_at, named_import};
ghost use Rattle.wasmparser_names.specs.KeptImports.{AreOfModules, kept_imports};

use crate::import_key::ImportKey;
use crate::import_names::KeptImport;
use crate::imported_items::{ImportedItem, ImportedItems};
use crate::module_names::ModuleNames;
use crate::name_hasher::NameHasher;
use crate::named_import::NamedImport;
use indexmap::IndexMap;
use indexmap::map::Iter;
use std::alloc::{AllocError, Global};
use std::iter::Iterator;
use std::marker::Model;
use std::vec::IntoIter;

/// Imports by their two names, in order of the first of each. Imports of the same two names stand together. Contracts see the names of their modules, in
/// order of their numbers, and the list of the imports.
#[derive(Drop)]
pub(crate) struct ImportGroups<'a> {
    modules: &'a ModuleNames,
    map: IndexMap<ImportKey<'a>, ImportedItems, NameHasher>,
}

impl<'a> Model for ImportGroups<'a> {
    ghost use Rattle.indexmap.specs.IndexMap.{hasher_of};
    ghost use Rattle.std.specs.List.{IsDistinct};
    ghost use Rattle.std.specs.Prelude.{◌≡◌, bytes_eq};
    ghost use Rattle.wasmparser_names.specs.ImportNames.{Kept, imports_in, AreKept};

    ghost Value = { Kept };

    ghost view = { λ groups. record { modules = groups.modules.now.names; imports = imports_in groups.modules.now.names groups.map.entries; hasher = groups.modules.now.hasher } };

    ghost invariant = { λ groups. IsDistinct bytes_eq groups.modules.now.names × AreKept groups.modules.now.names groups.map.entries × (hasher_of groups.map ≡ groups.modules.now.hasher) };
}

impl<'a> ImportGroups<'a> {
    /// Creates a list without imports, for these modules.
    pub(crate) fn new(alloc: Global, modules: &'a ModuleNames) -> ImportGroups<'a>
        requires { IsDistinct bytes_eq modules.now.names }
        ensures modules { result.modules ≡ modules.now.names }
        ensures imports { result.imports ≡ [] }
    {
        ImportGroups {
            modules,
            map: IndexMap::with_hasher(alloc, modules.hasher()),
        }
    }

    /// Adds an import from the module whose name has this number: after the last of the same two names, and else after all.
    ///
    /// # Errors
    /// Where memory runs out; then nothing changes.
    pub(crate) fn push(
        &mut self,
        origin: usize,
        name: &'a str,
        item: ImportedItem,
    ) -> Result<(), AllocError>
        requires { origin < length self.old.modules }
        ensures added { OnOk result (self.new ≡ record self.old { imports = with_import self.old.imports (imported (module_at self.old.modules origin) name.now item) }) }
        ensures refused { OnErr result (self.new ≡ self.old) }
    {
        let alloc = *self.map.allocator();
        let key = ImportKey { origin, name };
        if let Some(items) = self.map.get_mut(&key) {
            items.push(alloc, item)?;
            return Ok(());
        }
        self.map.insert(key, ImportedItems::new(item))?;
        Ok(())
    }

    // Returns the imports in order.
    fn iter<'b>(&'b self) -> ImportGroupsIter<'b, 'a>
        ensures { result ≡ self.now.imports }
    {
        ImportGroupsIter {
            modules: self.modules,
            module: "",
            name: "",
            items: &[],
            rest: self.map.iter(),
        }
    }

    /// Returns the imports in order, without what finds them.
    ///
    /// # Errors
    /// Where memory runs out.
    pub(crate) fn in_order(&self) -> Result<IntoIter<NamedImport<'a>>, AllocError>
        ensures { IfOk result (λ imports. map named_import (into_iter_items imports) ≡ self.now.imports) }
    {
        let mut imports = Vec::new(*self.map.allocator());
        let mut left = self.iter();
        'left: while let Some(import) = left.next() {
            imports.push(import)?;
        }
        Ok(imports.into_iter())
    }
}

// Groups imports from modules of these names.
pub(crate) fn group<'a>(
    alloc: Global,
    modules: &'a ModuleNames,
    imports: &'a [KeptImport],
) -> Result<ImportGroups<'a>, AllocError>
    requires distinct { IsDistinct bytes_eq modules.now.names }
    requires known { AreOfModules modules.now.names imports.now }
    ensures { IfOk result (λ groups. groups.imports ≡ with_imports [] (kept_imports modules.now.names imports.now)) }
{
    let mut groups = ImportGroups::new(alloc, modules);
    for import in imports {
        groups.push(import.origin, import.name.as_str(), import.item)?;
    }
    Ok(groups)
}

// The imports that are still to come, in order. Contracts see them as their list.
#[derive(Drop)]
struct ImportGroupsIter<'b, 'a> {
    modules: &'a ModuleNames,
    module: &'a str,
    name: &'a str,
    items: &'b [ImportedItem],
    rest: Iter<'b, ImportKey<'a>, ImportedItems>,
}

impl<'b, 'a> Model for ImportGroupsIter<'b, 'a> {
    ghost use Rattle.std.specs.Prelude.{List};
    ghost use Rattle.wasm_validity.specs.ImportedItems.{Imported};
    ghost use Rattle.wasmparser_names.specs.ImportNames.{AreKept, imports_left};

    ghost Value = { List Imported };

    ghost view = { λ it. imports_left it.modules.now.names it.«module».now it.name.now it.items.now it.rest };

    ghost invariant = { λ it. AreKept it.modules.now.names it.rest };
}

impl<'b, 'a> Iterator for ImportGroupsIter<'b, 'a> {
    ghost use Rattle.std.specs.Iterator.{YieldsFirstBy, item_count};

    type Item = NamedImport<'a>;

    ghost next_gives = { YieldsFirstBy named_import (λ it. it) };

    ghost remaining = { item_count (λ it. it) };

    fn next(&mut self) -> Option<NamedImport<'a>> {
        let item = match self.items.split_first() {
            Some((item, items)) => {
                self.items = items;
                item
            }
            None => {
                let (key, items) = self.rest.next()?;
                let Some(module) = self.modules.get(key.origin) else {
                    unreachable!()
                };
                let (first, others) = items.parts();
                self.module = module;
                self.name = key.name;
                self.items = others;
                first
            }
        };
        Some(NamedImport {
            module: self.module,
            name: self.name,
            item: *item,
        })
    }
}
