//! The size of the types of imports, as the limit on types counts it. A sum that has no room in 64 bits stays at the greatest number.

ghost use Rattle.std.specs.Prelude.{◌≡◌, ◌*◌, ◌-◌, ◌^◌, length, map, min};
ghost use Rattle.wasm_core_types.specs.SubTypes.{sub_type};
ghost use Rattle.wasm_encoder_sections.specs.CoreItems.{entity_type};
ghost use Rattle.wasm_spec.specs.Syntax.{imported_by};
ghost use Rattle.wasm_smith_shapes.specs.Imports.{import_entry, import_item};
ghost use Rattle.wasm_smith_externs.specs.Candidates.{type_size, type_sizes};
ghost use Rattle.wasm_smith_externs.specs.Named.{all_named, types_of};

use crate::importer::type_size;
use wasm_core_types::types::SubType;
use wasm_smith_shapes::imports::{ImportEntry, ImportItem};

// Returns the size of the types of items.
fn items_size(types: &[SubType], items: &[ImportItem]) -> u64
    ensures { result ≡ min (type_sizes (map sub_type types.now) (map (λ item. item.type) (map import_item items.now))) (2 ^ 64 - 1) }
{
    let mut size: u64 = 0;
    for item in items {
        size = size.saturating_add(type_size(types, &item.ty));
    }
    size
}

// Returns the size of the types of items with these names, each of this size.
fn named_size(size: u64, names: &[String]) -> u64
    ensures { result ≡ min (length names.now * size) (2 ^ 64 - 1) }
{
    (names.len() as u64).saturating_mul(size)
}

// Returns the size of the types that an entry imports.
fn entry_size(types: &[SubType], entry: &ImportEntry) -> u64
    ensures { result ≡ min (type_sizes (map sub_type types.now) (imported_by (import_entry entry.now))) (2 ^ 64 - 1) }
{
    match entry {
        ImportEntry::Single { ty, .. } => type_size(types, ty),
        ImportEntry::Compact1 { items, .. } => items_size(types, items),
        ImportEntry::Compact2 { ty, names, .. } => named_size(type_size(types, ty), names),
    }
}

/// Returns the size of the types of these imports, as the limit on types of imports and exports counts them.
pub fn imports_size(types: &[SubType], entries: &[ImportEntry]) -> usize
    ensures { result ≡ min (type_sizes (map sub_type types.now) (types_of (all_named (map import_entry entries.now)))) (2 ^ 64 - 1) }
{
    let mut size: u64 = 0;
    for entry in entries {
        size = size.saturating_add(entry_size(types, entry));
    }
    size as usize
}
