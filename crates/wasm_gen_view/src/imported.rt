//! Imported items.

ghost use Rattle.std.specs.Prelude.{◌≡◌, ◌++◌, IfOk, flat_map, map, string_bytes};
ghost use Rattle.wasm_encoder_sections.specs.CoreItems.{entity_type};
ghost use Rattle.wasm_gen_view.specs.ItemReferences.{refer};
ghost use Rattle.wasm_gen_view.specs.Views.{item_type};
ghost use Rattle.wasm_smith_shapes.specs.Imports.{import_entry, import_item};
ghost use Rattle.wasm_spec.specs.Syntax.{imported_by};
ghost use Rattle.wasm_spec.specs.TypeReferences.{external_map};

use crate::type_numbers::TypeNumbers;
use crate::view::Item;
use std::alloc::{AllocError, Global};
use wasm_encoder_sections::entity_type::EntityType;
use wasm_smith_shapes::imports::{ImportEntry, ImportItem};

// Appends imports from one module.
fn push_items(
    numbers: &TypeNumbers,
    items: &[ImportItem],
    imported: &mut Vec<Item>,
) -> Result<(), AllocError>
    ensures { IfOk result (λ _. map item_type imported.new.items ≡ map item_type imported.old.items ++ map (external_map (refer numbers.now)) (map (λ item. item.type) (map import_item items.now))) }
{
    for item in items {
        imported.push(numbers.item(&item.ty))?;
    }
    Ok(())
}

// Appends imports of one type.
fn push_named(
    numbers: &TypeNumbers,
    ty: &EntityType,
    names: &[String],
    imported: &mut Vec<Item>,
) -> Result<(), AllocError>
    ensures { IfOk result (λ _. map item_type imported.new.items ≡ map item_type imported.old.items ++ map (external_map (refer numbers.now)) (map (λ name. entity_type ty.now) (map string_bytes names.now))) }
{
    let item = numbers.item(ty);
    for _name in names {
        imported.push(item)?;
    }
    Ok(())
}

// Appends the imports of an entry.
fn push_entry(
    numbers: &TypeNumbers,
    entry: &ImportEntry,
    imported: &mut Vec<Item>,
) -> Result<(), AllocError>
    ensures { IfOk result (λ _. map item_type imported.new.items ≡ map item_type imported.old.items ++ map (external_map (refer numbers.now)) (imported_by (import_entry entry.now))) }
{
    match entry {
        ImportEntry::Single { ty, .. } => Ok(imported.push(numbers.item(ty))?),
        ImportEntry::Compact1 { items, .. } => push_items(numbers, items, imported),
        ImportEntry::Compact2 { ty, names, .. } => push_named(numbers, ty, names, imported),
    }
}

/// Returns the imported items.
///
/// # Errors
/// Where memory runs out.
pub(crate) fn imported_items(
    alloc: Global,
    numbers: &TypeNumbers,
    imports: &[ImportEntry],
) -> Result<Vec<Item>, AllocError>
    ensures { IfOk result (λ items. map item_type items.items ≡ map (external_map (refer numbers.now)) (flat_map imported_by (map import_entry imports.now))) }
{
    let mut imported = Vec::new(alloc);
    for entry in imports {
        push_entry(numbers, entry, &mut imported)?;
    }
    Ok(imported)
}
