//! The index spaces of what a made module imports.

ghost use Rattle.std.specs.Prelude.{◌≡◌, IfOk, map};
ghost use Rattle.std.specs.List.{flat_map};
ghost use Rattle.wasm_core_types.specs.SubTypes.{sub_type};
ghost use Rattle.wasm_encoder_sections.specs.CoreItems.{entity_type};
ghost use Rattle.wasm_smith_shapes.specs.Imports.{import_entry, import_item};
ghost use Rattle.wasm_smith_module.specs.Measured.{HasNoOwn};
ghost use Rattle.wasm_smith_validity.specs.Spaces.{spaces_of_types, with_items};
ghost use Rattle.wasm_spec.specs.Syntax.{imported_by};

use std::alloc::{AllocError, Global};
use wasm_core_types::types::SubType;
use wasm_encoder_sections::entity_type::EntityType;
use wasm_smith_definitions::index_spaces::IndexSpaces;
use wasm_smith_shapes::imports::{ImportEntry, ImportItem};

// Adds items.
fn push_items(spaces: &mut IndexSpaces<'_>, items: &[ImportItem]) -> Result<(), AllocError>
    ensures { IfOk result (λ _. spaces.new ≡ with_items spaces.old (map (λ item. item.type) (map import_item items.now))) }
{
    for item in items {
        spaces.push_import(item.ty)?;
    }
    Ok(())
}

// Adds an item for each name.
fn push_named(
    spaces: &mut IndexSpaces<'_>,
    ty: &EntityType,
    names: &[String],
) -> Result<(), AllocError>
    ensures { IfOk result (λ _. spaces.new ≡ with_items spaces.old (map (λ name. entity_type ty.now) names.now)) }
{
    for _name in names {
        spaces.push_import(*ty)?;
    }
    Ok(())
}

// Adds the items of an entry.
#[tactic(auto, using(crate::proofs::ImportedLimits::named_alike))]
fn push_entry(spaces: &mut IndexSpaces<'_>, entry: &ImportEntry) -> Result<(), AllocError>
    ensures { IfOk result (λ _. spaces.new ≡ with_items spaces.old (imported_by (import_entry entry.now))) }
{
    match entry {
        ImportEntry::Single { ty, .. } => spaces.push_import(*ty),
        ImportEntry::Compact1 { items, .. } => push_items(spaces, items),
        ImportEntry::Compact2 { ty, names, .. } => push_named(spaces, ty, names),
    }
}

/// Returns the index spaces of these types and of the imported items.
///
/// # Errors
/// Where memory runs out.
pub fn imported_spaces<'a>(
    alloc: Global,
    types: &'a [SubType],
    imports: &[ImportEntry],
) -> Result<IndexSpaces<'a>, AllocError>
    ensures exact { IfOk result (λ spaces. spaces ≡ with_items (spaces_of_types (map sub_type types.now)) (flat_map imported_by (map import_entry imports.now))) }
    ensures alone { IfOk result HasNoOwn }
{
    let mut spaces = IndexSpaces::new(alloc, types);
    for entry in imports {
        push_entry(&mut spaces, entry)?;
    }
    Ok(spaces)
}
