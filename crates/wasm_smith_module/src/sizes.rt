//! The size of the types of imports and exports, as its limit counts it. A sum that has no room in 64 bits stays at the greatest number.

ghost use Rattle.std.specs.Prelude.{◌≡◌, ◌*◌, length, map};
ghost use Rattle.std.specs.List.{flat_map, sum_by};
ghost use Rattle.wasm_core_types.specs.SubTypes.{composite_type, sub_type};
ghost use Rattle.wasm_encoder_sections.specs.CoreItems.{entity_type};
ghost use Rattle.wasm_smith_shapes.specs.Imports.{import_entry, import_item};
ghost use Rattle.wasm_smith_module.specs.Measured.{saturated};
ghost use Rattle.wasm_smith_module.specs.Measures.{size_of, size_of_func};
ghost use Rattle.wasm_smith_validity.specs.Spaces.{func_type_at};
ghost use Rattle.wasm_spec.specs.Syntax.{imported_by};
ghost use Rattle.wasm_validity.specs.DefinedTypes.{func_in};

use wasm_core_types::types::{CompositeType, SubType};
use wasm_encoder_sections::entity_type::EntityType;
use wasm_smith_shapes::imports::{ImportEntry, ImportItem};

// Returns the size of a function type.
fn size_of_composite(ty: &CompositeType) -> u64
    ensures { result ≡ size_of_func (func_in (composite_type ty.now)) }
{
    match ty {
        CompositeType::Func(function) => {
            2 + (function.params().len() as u64 + function.results().len() as u64)
        }
        CompositeType::Array(_) | CompositeType::Struct(_) | CompositeType::Cont(_) => 0,
    }
}

/// Returns the size of the function type of this index.
#[tactic(auto, using(wasm_smith_definitions::proofs::SpaceLaws::got_mapped))]
pub fn size_of_function(types: &[SubType], index: u32) -> u64
    ensures { result ≡ size_of_func (func_type_at (map sub_type types.now) index) }
{
    match types.get(index as usize) {
        Some(ty) => size_of_composite(&ty.composite_type),
        None => 0,
    }
}

// Returns the size of the type of an item.
fn size_of(types: &[SubType], ty: &EntityType) -> u64
    ensures { result ≡ size_of (map sub_type types.now) (entity_type ty.now) }
{
    match ty {
        EntityType::Function(index) => size_of_function(types, *index),
        EntityType::Tag(ty) => size_of_function(types, ty.func_type_idx),
        EntityType::Table(_) | EntityType::Memory(_) | EntityType::Global(_) => 1,
    }
}

// Returns the size of the types of items.
fn items_size(types: &[SubType], items: &[ImportItem]) -> u64
    ensures { result ≡ saturated (sum_by (size_of (map sub_type types.now)) (map (λ item. item.type) (map import_item items.now))) }
{
    let mut size: u64 = 0;
    for item in items {
        size = size.saturating_add(size_of(types, &item.ty));
    }
    size
}

// Returns the size of the types of items with these names, each of this size.
fn named_size(size: u64, names: &[String]) -> u64
    ensures { result ≡ saturated (length names.now * size) }
{
    (names.len() as u64).saturating_mul(size)
}

// Returns the size of the types that an entry imports.
fn entry_size(types: &[SubType], entry: &ImportEntry) -> u64
    ensures { result ≡ saturated (sum_by (size_of (map sub_type types.now)) (imported_by (import_entry entry.now))) }
{
    match entry {
        ImportEntry::Single { ty, .. } => size_of(types, ty),
        ImportEntry::Compact1 { items, .. } => items_size(types, items),
        ImportEntry::Compact2 { ty, names, .. } => named_size(size_of(types, ty), names),
    }
}

/// Returns the size of the types of all imported items.
pub fn imports_size(types: &[SubType], imports: &[ImportEntry]) -> u64
    ensures { result ≡ saturated (sum_by (size_of (map sub_type types.now)) (flat_map imported_by (map import_entry imports.now))) }
{
    let mut size: u64 = 0;
    for entry in imports {
        size = size.saturating_add(entry_size(types, entry));
    }
    size
}
