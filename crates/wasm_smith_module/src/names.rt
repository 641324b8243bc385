//! Names of imports and exports that are longer than they may be.

ghost use Rattle.std.specs.Prelude.{◌≡◌, map};
ghost use Rattle.std.specs.List.{flat_map, list_any};
ghost use Rattle.std.specs.String.{string_bytes};
ghost use Rattle.wasm_smith_definitions.specs.Items.{export};
ghost use Rattle.wasm_smith_module.specs.Measured.{is_long_name};
ghost use Rattle.wasm_smith_shapes.specs.Imports.{import_entry, import_item};
ghost use Rattle.wasm_validity.specs.Context.{names_of};
ghost use Rattle.wasm_validity.specs.Rules.{import_names};

use wasm_core_types::limits::Limit;
use wasm_smith_definitions::items::Export;
use wasm_smith_shapes::imports::{ImportEntry, ImportItem};

// Checks that a name is longer than it may be.
fn is_long(name: &str) -> bool
    ensures { result ≡ is_long_name name.now }
{
    name.len() as u64 > Limit::Name.max()
}

// Checks that one of the names is longer than it may be.
fn has_long(names: &[String]) -> bool
    ensures { result ≡ list_any is_long_name (map string_bytes names.now) }
{
    names.iter().any(|name| is_long(name))
}

// Checks that the name of one of the imports is longer than it may be.
fn has_long_item(items: &[ImportItem]) -> bool
    ensures { result ≡ list_any is_long_name (map (λ item. item.name) (map import_item items.now)) }
{
    items.iter().any(|item| is_long(&item.name))
}

// Checks that one of the names that an entry writes is longer than it may be.
fn has_long_name(entry: &ImportEntry) -> bool
    ensures { result ≡ list_any is_long_name (import_names (import_entry entry.now)) }
{
    match entry {
        ImportEntry::Single { module, name, .. } => is_long(module) || is_long(name),
        ImportEntry::Compact1 { module, items } => is_long(module) || has_long_item(items),
        ImportEntry::Compact2 { module, names, .. } => is_long(module) || has_long(names),
    }
}

/// Checks that one of the names that the imports write is longer than it may be.
pub fn has_long_import(imports: &[ImportEntry]) -> bool
    ensures { result ≡ list_any is_long_name (flat_map import_names (map import_entry imports.now)) }
{
    imports.iter().any(|entry| has_long_name(entry))
}

/// Checks that the name of one of the exports is longer than it may be.
pub fn has_long_export(exports: &[Export]) -> bool
    ensures { result ≡ list_any is_long_name (names_of (map export exports.now)) }
{
    exports.iter().any(|export| is_long(&export.name))
}
