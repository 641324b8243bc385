//! Entries of import sections: an import, or a group of imports, which are judged one after the other.

ghost use Rattle.std.specs.Prelude.{◌≡◌, ◌≤◌, ◌<◌, refl, suc, IfErr, IfOk, length, map, false};
ghost use Rattle.std.specs.List.{AllByRecursion};
ghost use Rattle.wasm_core_types.specs.declared.limits.Limit.TheVariants as limits;
ghost use Rattle.wasm_core_read.specs.PartReading.{import_item_at};
ghost use Rattle.wasm_core_read.specs.Reading.{name_at};
ghost use Rattle.wasm_validity.specs.Context.{next_import, next_imports};
ghost use Rattle.wasm_validity.specs.Entries.{OfImport};
ghost use Rattle.wasm_validity.specs.ImportedItems.{with_import, with_imports};
ghost use Rattle.wasmparser_error.specs.declared.error.ErrorKind.TheVariants as kinds;
ghost use Rattle.wasmparser_names.specs.ImportNames.{module_at};
ghost use Rattle.wasmparser_entries.specs.ImportEntries.{IsEntryOfModule, import_entry};
ghost use Rattle.wasmparser_entries.specs.ImportGroups.{AreRead, items_of};
ghost use Rattle.wasmparser_entries.specs.ImportItems.{items_refs};
ghost use Rattle.wasmparser_payloads.specs.EntryReading.{import_entry_at};
ghost use Rattle.wasmparser_module_state.specs.Items.{AddsGroup, AddsImports, AddsNamed, NamesImports};
ghost use Rattle.wasmparser_module_state.specs.LargeIndexes.{large_import};
ghost use Rattle.wasmparser_module_state.specs.State.{context, features_of, item, unnamed};
ghost use Rattle.wasmparser_types.specs.Index.{packable};

use crate::entry::Entry;
use crate::imported_names::kind_of;
use crate::module_state::{ModuleState, refusal};
use crate::names::check_name;
use wasm_core_types::limits::{Limit, MAX_WASM_IMPORTS};
use wasmparser_entries::import_item::ImportItemCompact;
use wasmparser_entries::imports::Imports;
use wasmparser_error::error::{Error, ErrorKind};
use wasmparser_names::imported_items::ImportedItem;
use wasmparser_readers::section_limited::SectionLimited;
use wasmparser_readers::type_ref::TypeRef;

impl ModuleState {
    // Returns the number of entries of import sections with one more.
    fn grown_imports(&self, offset: u64) -> Result<u32, Error>
        ensures grown { IfOk result (λ grown. (grown ≡ suc (context self.now).imports) × (grown ≤ 1000000)) }
        ensures full { IfErr result (λ e. (e ≡ record { offset = offset; kind = kinds.Limit limits.Imports }) × (1000000 < suc (context self.now).imports)) }
    {
        if u64::from(self.imports) >= MAX_WASM_IMPORTS {
            return Err(refusal(offset, ErrorKind::Limit(Limit::Imports)));
        }
        Ok(self.imports + 1)
    }

    // Judges an import from the module whose name has this number, and adds it.
    #[tactic(auto, using(crate::proofs::ImportLaws::named_steps))]
    fn import_named(
        &mut self,
        origin: usize,
        name: &str,
        ty: &TypeRef,
        offset: u64,
    ) -> Result<(), Error>
        requires { origin < length self.old.imported.modules }
        ensures added { AddsNamed (features_of self.old) (unnamed self.old) name.now (item ty.now) offset result (unnamed self.new) }
        ensures named { IfOk result (λ _. self.new.imported ≡ record self.old.imported { imports = with_import self.old.imported.imports (next_import (unnamed self.old) (module_at self.old.imported.modules origin) name.now (item ty.now)) }) }
        ensures refused { IfErr result (λ _. self.new.imported ≡ self.old.imported) }
        ensures types { self.new.types ≡ self.old.types }
    {
        check_name(name, offset)?;
        let kind = kind_of(ty);
        let place = self.next_index(kind);
        let type_size = self.type_size;
        self.import_item(ty, offset)?;
        let index = place as u32;
        self.keep_names(origin, name, ImportedItem { kind, index }, type_size)
    }

    // Judges the imports of a group one after the other, and adds them.
    fn import_items<'a>(
        &mut self,
        origin: usize,
        group: SectionLimited<'a, ImportItemCompact<'a>>,
        offset: u64,
    ) -> Result<(), Error>
        requires known { origin < length self.old.imported.modules }
        requires read { AreRead import_item_at group }
        requires small { AllByRecursion (λ n. n < packable) (items_refs (items_of import_item_at group)) }
        ensures added { AddsGroup (features_of self.old) (unnamed self.old) (map (λ item. item.name) (items_of import_item_at group.entry)) (map (λ item. item.type) (items_of import_item_at group.entry)) offset result (unnamed self.new) }
        ensures named { IfOk result (λ _. self.new.imported.imports ≡ with_imports self.old.imported.imports (next_imports (unnamed self.old) (module_at self.old.imported.modules origin) (map (λ item. item.name) (items_of import_item_at group.entry)) (map (λ item. item.type) (items_of import_item_at group.entry)))) }
        ensures types { self.new.types ≡ self.old.types }
    {
        let mut items = group.into_iter(*self.tags.allocator());
        'items: while let Some(item) = items.next() {
            match item {
                Ok(item) => self.import_named(origin, item.name, &item.ty, offset)?,
                Err(error) => return Err(error),
            }
        }
        Ok(())
    }

    // Does the same for a group whose imports have one type.
    fn import_names<'a>(
        &mut self,
        origin: usize,
        ty: &TypeRef,
        group: SectionLimited<'a, &'a str>,
        offset: u64,
    ) -> Result<(), Error>
        requires known { origin < length self.old.imported.modules }
        requires read { AreRead name_at group }
        ensures added { AddsGroup (features_of self.old) (unnamed self.old) (items_of name_at group.entry) (map (λ name. item ty.now) (items_of name_at group.entry)) offset result (unnamed self.new) }
        ensures named { IfOk result (λ _. self.new.imported.imports ≡ with_imports self.old.imported.imports (next_imports (unnamed self.old) (module_at self.old.imported.modules origin) (items_of name_at group.entry) (map (λ name. item ty.now) (items_of name_at group.entry)))) }
        ensures types { self.new.types ≡ self.old.types }
    {
        let mut names = group.into_iter(*self.tags.allocator());
        'names: while let Some(name) = names.next() {
            let name = name?;
            self.import_named(origin, name, ty, offset)?;
        }
        Ok(())
    }

    // Judges the imports of an entry, and adds them. A name of a module is looked up once, however many imports of a group share it.
    #[tactic(auto, using(crate::proofs::ImportLaws::origin_steps))]
    fn add_imports<'a>(&mut self, entry: Imports<'a>, offset: u64) -> Result<(), Error>
        requires { IsEntryOfModule entry }
        ensures added { AddsImports (features_of self.old) (unnamed self.old) (import_entry entry.entry) offset result (unnamed self.new) }
        ensures named { NamesImports (unnamed self.old) (import_entry entry.entry) self.old.imported.imports result self.new.imported.imports }
        ensures types { self.new.types ≡ self.old.types }
    {
        match entry {
            Imports::Single(_, import) => {
                check_name(import.module, offset)?;
                let origin = self.imported.number_of(import.module)?;
                self.import_named(origin, import.name, &import.ty, offset)
            }
            Imports::Compact1 { module, items } => {
                check_name(module, offset)?;
                let origin = self.imported.number_of(module)?;
                self.import_items(origin, items, offset)
            }
            Imports::Compact2 { module, ty, names } => {
                check_name(module, offset)?;
                let origin = self.imported.number_of(module)?;
                self.import_names(origin, &ty, names, offset)
            }
        }
    }
}

impl<'a> Entry for Imports<'a> {
    ghost entry = { λ x. OfImport (import_entry x) };

    ghost entry_at = { import_entry_at };

    ghost adds_types = { false };

    ghost is_made = { record { made = λ x. OfImport x; is = λ x. refl; reads = λ _ bytes. refl; breaks = large_import } };

    fn add(self, state: &mut ModuleState, offset: u64) -> Result<(), Error> {
        let imports = state.grown_imports(offset)?;
        state.add_imports(self, offset)?;
        state.imports = imports;
        Ok(())
    }
}
