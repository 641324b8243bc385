//! The parts of a shape as flat lists.

ghost use Rattle.std.specs.List.{flat_map};
ghost use Rattle.std.specs.Prelude.{◌≡◌, ◌↔◌, ◌≤◌, ◌++◌, IfOk, IsTrue, length, map};
ghost use Rattle.std.specs.String.{string_bytes};
ghost use Rattle.wasm_core_types.specs.SubTypes.{sub_type};
ghost use Rattle.wasm_encoder_sections.specs.CoreItems.{entity_type};
ghost use Rattle.wasm_smith_shapes.specs.Imports.{import_entry, import_item};
ghost use Rattle.wasm_smith_shapes.specs.Shapes.{group_of, named_item};
ghost use Rattle.wasm_smith_validity.specs.ValidGroups.{types_of};
ghost use Rattle.wasm_spec.specs.Syntax.{imported_by};

use crate::copies::copied;
use crate::imports::{ImportEntry, ImportItem};
use crate::shape::ShapeExport;
use std::alloc::{AllocError, Global};
use wasm_core_types::types::SubType;
use wasm_encoder_sections::entity_type::EntityType;

/// Checks that groups have at most so many types.
pub fn have_few_types(groups: &[Vec<SubType>], most: usize) -> bool
    ensures { IsTrue result ↔ (length (types_of (map group_of groups.now)) ≤ most) }
{
    let mut left = most;
    for group in groups {
        if group.len() > left {
            return false;
        }
        left -= group.len();
    }
    true
}

// Adds copies of types.
fn push_types(alloc: Global, types: &mut Vec<SubType>, group: &[SubType]) -> Result<(), AllocError>
    ensures { IfOk result (λ _. map sub_type types.new.items ≡ map sub_type types.old.items ++ map sub_type group.now) }
{
    for type_ in group {
        types.push(copied(alloc, type_)?)?;
    }
    Ok(())
}

/// Returns copies of the types of groups.
///
/// # Errors
/// Where memory runs out.
pub fn types_of_groups(alloc: Global, groups: &[Vec<SubType>]) -> Result<Vec<SubType>, AllocError>
    ensures { IfOk result (λ types. map sub_type types.items ≡ types_of (map group_of groups.now)) }
{
    let mut types = Vec::new(alloc);
    for group in groups {
        push_types(alloc, &mut types, group)?;
    }
    Ok(types)
}

// Returns the number of imports of an entry.
fn import_count(entry: &ImportEntry) -> usize
    ensures { result ≡ length (imported_by (import_entry entry.now)) }
{
    match entry {
        ImportEntry::Single { .. } => 1,
        ImportEntry::Compact1 { items, .. } => items.len(),
        ImportEntry::Compact2 { names, .. } => names.len(),
    }
}

/// Checks that entries have at most so many imports.
pub fn have_few_imports(imports: &[ImportEntry], most: usize) -> bool
    ensures { IsTrue result ↔ (length (flat_map imported_by (map import_entry imports.now)) ≤ most) }
{
    let mut left = most;
    for entry in imports {
        let count = import_count(entry);
        if count > left {
            return false;
        }
        left -= count;
    }
    true
}

// Adds the types of imports.
fn push_items(types: &mut Vec<EntityType>, items: &[ImportItem]) -> Result<(), AllocError>
    ensures { IfOk result (λ _. map entity_type types.new.items ≡ map entity_type types.old.items ++ map (λ item. item.type) (map import_item items.now)) }
{
    for item in items {
        types.push(item.ty)?;
    }
    Ok(())
}

// Adds a type for each name.
fn push_named(
    types: &mut Vec<EntityType>,
    ty: EntityType,
    names: &[String],
) -> Result<(), AllocError>
    ensures { IfOk result (λ _. map entity_type types.new.items ≡ map entity_type types.old.items ++ map (λ name. entity_type ty) (map string_bytes names.now)) }
{
    for _name in names {
        types.push(ty)?;
    }
    Ok(())
}

// Adds the types of the imports of an entry.
fn push_imports(types: &mut Vec<EntityType>, entry: &ImportEntry) -> Result<(), AllocError>
    ensures { IfOk result (λ _. map entity_type types.new.items ≡ map entity_type types.old.items ++ imported_by (import_entry entry.now)) }
{
    match entry {
        ImportEntry::Single { ty, .. } => types.push(*ty)?,
        ImportEntry::Compact1 { items, .. } => push_items(types, items)?,
        ImportEntry::Compact2 { ty, names, .. } => push_named(types, *ty, names)?,
    }
    Ok(())
}

/// Returns the types of the imports of all entries.
///
/// # Errors
/// Where memory runs out.
pub fn types_of_imports(
    alloc: Global,
    imports: &[ImportEntry],
) -> Result<Vec<EntityType>, AllocError>
    ensures { IfOk result (λ types. map entity_type types.items ≡ flat_map imported_by (map import_entry imports.now)) }
{
    let mut types = Vec::new(alloc);
    for entry in imports {
        push_imports(&mut types, entry)?;
    }
    Ok(types)
}

/// Returns the types of what is exported.
///
/// # Errors
/// Where memory runs out.
pub fn types_of_exports(
    alloc: Global,
    exports: &[ShapeExport],
) -> Result<Vec<EntityType>, AllocError>
    ensures { IfOk result (λ types. map entity_type types.items ≡ map (λ export. export.type) (map named_item exports.now)) }
{
    let mut types = Vec::new(alloc);
    for export in exports {
        types.push(export.ty)?;
    }
    Ok(types)
}
