//! Imports with their names, as they are kept.

ghost use Rattle.std.specs.List.{IsDistinct};
ghost use Rattle.std.specs.Prelude.{◌≡◌, [], ◌∷◌, ◌++◌, ◌<◌, ◌≤◌, ◌⊎◌, List, ℕ, Some, IfOk, OnErr, OnOk, bytes_eq, length, slice_get, vec_capacity};
ghost use Rattle.wasm_validity.specs.ImportedItems.{with_import, with_imports};
ghost use Rattle.wasmparser_names.specs.ImportNames.{imported, module_at};
ghost use Rattle.wasmparser_names.specs.KeptImports.{AreOfModules, kept_imports};
ghost use Rattle.wasmparser_names.specs.ModuleNames.{with_name};

use crate::import_groups::group;
use crate::imported_items::ImportedItem;
use crate::kept_name::KeptName;
use crate::module_names::ModuleNames;
use crate::name_hasher::NameHasher;
use crate::named_import::NamedImports;
use std::alloc::{AllocError, Global};
use std::marker::Model;

// An import as it is kept.
#[derive(Debug, Drop)]
pub(crate) struct KeptImport {
    // the number of its module's name
    pub(crate) origin: usize,
    pub(crate) name: KeptName,
    pub(crate) item: ImportedItem,
}

/// Imports in the order in which they came. Contracts see the names of their modules, in order of their numbers, and the list of the imports, those of the same
/// two names together where the first of them stands. They are grouped only when they are shown.
#[derive(Debug, Drop)]
pub struct ImportNames {
    modules: ModuleNames,
    imports: Vec<KeptImport>,
}

impl Model for ImportNames {
    ghost use Rattle.std.specs.List.{IsDistinct};
    ghost use Rattle.std.specs.Prelude.{[], bytes_eq};
    ghost use Rattle.wasm_validity.specs.ImportedItems.{with_imports};
    ghost use Rattle.wasmparser_names.specs.ImportNames.{Kept};
    ghost use Rattle.wasmparser_names.specs.KeptImports.{AreOfModules, kept_imports};

    ghost Value = { Kept };

    ghost view = { λ names. record {
      modules = names.modules.names;
      imports = with_imports [] (kept_imports names.modules.names names.imports.items);
      hasher = names.modules.hasher;
    } };

    ghost invariant = { λ names. IsDistinct bytes_eq names.modules.names × AreOfModules names.modules.names names.imports.items };
}

impl ImportNames {
    /// Creates a list without imports.
    pub fn new(alloc: Global) -> ImportNames
        ensures modules { result.modules ≡ [] }
        ensures imports { result.imports ≡ [] }
    {
        ImportNames {
            modules: ModuleNames::new(alloc, NameHasher::new()),
            imports: Vec::new(alloc),
        }
    }

    /// Makes room for so many imports more, if there is memory for it. Where there are no names yet, those of modules are hashed by `hasher` from now on: where it
    /// starts after all names that are to come, finding them takes no longer where they were chosen to make it slow.
    pub fn start_with(&mut self, hasher: NameHasher, count: usize)
        ensures modules { self.new.modules ≡ self.old.modules }
        ensures imports { self.new.imports ≡ self.old.imports }
        ensures hashed { self.old.modules ≡ [] → self.new.hasher ≡ hasher }
    {
        if self.modules.is_empty() {
            self.modules = ModuleNames::new(*self.imports.allocator(), hasher);
        }
        // (without room, each import asks for its own)
        let _ = self.imports.reserve(count);
    }

    /// Returns the number of a module's name, which is kept if it is new.
    ///
    /// # Errors
    /// Where memory runs out; then nothing changes.
    pub fn number_of(&mut self, module: &str) -> Result<usize, AllocError>
        ensures found { IfOk result (λ number. slice_get self.new.modules number ≡ Some «module».now) }
        ensures kept { OnOk result (self.new ≡ record self.old { modules = with_name self.old.modules «module».now }) }
        ensures refused { OnErr result (self.new ≡ self.old) }
    {
        self.modules.number(module)
    }

    /// Adds an import from the module whose name has this number: after the last of the same two names, and else after all.
    ///
    /// # Errors
    /// Where memory runs out; then nothing changes.
    pub fn push(&mut self, origin: usize, name: &str, item: ImportedItem) -> Result<(), AllocError>
        requires { origin < length self.old.modules }
        ensures added { OnOk result (self.new ≡ record self.old { imports = with_import self.old.imports (imported (module_at self.old.modules origin) name.now item) }) }
        ensures refused { OnErr result (self.new ≡ self.old) }
    {
        push(&mut self.imports, origin, name, item)
    }

    /// Returns the imports in order, those of the same two names together.
    ///
    /// # Errors
    /// Where memory runs out.
    pub fn grouped(&self) -> Result<NamedImports<'_>, AllocError>
        ensures { IfOk result (λ imports. imports ≡ self.now.imports) }
    {
        let groups = group(*self.imports.allocator(), &self.modules, &self.imports)?;
        Ok(NamedImports {
            left: groups.in_order()?,
        })
    }
}

// Adds an import to those that are kept.
fn push(
    imports: &mut Vec<KeptImport>,
    origin: usize,
    name: &str,
    item: ImportedItem,
) -> Result<(), AllocError>
    ensures added { (modules : List (List ℕ)) → OnOk result (kept_imports modules imports.new.items ≡ kept_imports modules imports.old.items ++ imported (module_at modules origin) name.now item ∷ []) }
    ensures known { (modules : List (List ℕ)) → origin < length modules → AreOfModules modules imports.old.items → AreOfModules modules imports.new.items }
    ensures refused { OnErr result (imports.new.items ≡ imports.old.items) }
    ensures no_room { OnErr result ((16 < length name.now) ⊎ (vec_capacity imports.old ≤ length imports.old.items)) }
{
    let name = KeptName::new(*imports.allocator(), name)?;
    imports.push(KeptImport { origin, name, item })?;
    Ok(())
}
