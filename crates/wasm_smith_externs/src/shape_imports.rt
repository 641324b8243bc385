//! The imports of a module from the entries of a shape.

ghost use Rattle.std.specs.Prelude.{◌≡◌, ◌≤◌, ◌∷◌, ◌++◌, [], true, false, IfOk, length, map};
ghost use Rattle.std.specs.List.{flat_map};
ghost use Rattle.std.specs.String.{string_bytes};
ghost use Rattle.wasm_encoder_sections.specs.CoreItems.{entity_type};
ghost use Rattle.wasm_spec.specs.Syntax.{CompactItems, CompactNames, imported_by};
ghost use Rattle.wasm_spec.specs.TypeReferences.{external_map};
ghost use Rattle.wasm_smith_shapes.specs.Imports.{import_entry, import_item};
ghost use Rattle.wasm_smith_types.specs.Copies.{shifted_index};
ghost use Rattle.wasm_smith_unstructured.specs.Draws.{IsDrawn};
ghost use Rattle.wasm_smith_validity.specs.Spaces.{with_items};
ghost use Rattle.wasm_smith_externs.specs.Named.{named, named_item};
ghost use Rattle.wasm_smith_externs.specs.ShapeImports.{chosen_at, entry_map, import_map, lone, shape_imports_at, takes_at, written};

use std::alloc::{AllocError, Global};
use wasm_encoder_sections::entity_type::EntityType;
use wasm_smith_config::config::Config;
use wasm_smith_definitions::index_spaces::IndexSpaces;
use wasm_smith_definitions::own_items::shifted_entity;
use wasm_smith_shapes::imports::{ImportEntry, ImportItem};
use wasm_smith_types::shifts::Shift;
use wasm_smith_unstructured::unstructured::Unstructured;

// Returns true if an entry is taken: each, unless a bool is drawn for it.
fn takes(unstructured: &mut Unstructured<'_>, drawn: bool) -> bool
    ensures exact { IsDrawn (λ b. b) result unstructured.new (takes_at drawn unstructured.old) }
    ensures taken { length unstructured.new ≤ length unstructured.old }
{
    !drawn || unstructured.bool()
}

// Returns imports of one module with their types shifted.
fn shifted_items(
    alloc: Global,
    items: &[ImportItem],
    shift: Shift,
) -> Result<Vec<ImportItem>, AllocError>
    ensures { IfOk result (λ shifted. map import_item shifted.items ≡ map (import_map (shifted_index shift.start shift.by)) (map import_item items.now)) }
{
    let mut shifted = Vec::new(alloc);
    for item in items {
        let name = item.name.clone()?;
        let ty = shifted_entity(shift, &item.ty);
        shifted.push(ImportItem { name, ty })?;
    }
    Ok(shifted)
}

// Returns copies of names.
fn copied(alloc: Global, names: &[String]) -> Result<Vec<String>, AllocError>
    ensures { IfOk result (λ copy. map string_bytes copy.items ≡ map string_bytes names.now) }
{
    let mut copy = Vec::new(alloc);
    for name in names {
        copy.push(name.clone()?)?;
    }
    Ok(copy)
}

// Adds an import by itself.
fn push_single(
    alloc: Global,
    imports: &mut Vec<ImportEntry>,
    origin: &str,
    name: &str,
    ty: EntityType,
) -> Result<(), AllocError>
    ensures { IfOk result (λ _. map import_entry imports.new.items ≡ map import_entry imports.old.items ++ lone (named origin.now (entity_type ty) name.now) ∷ []) }
{
    let module = String::from_str(alloc, origin)?;
    let name = String::from_str(alloc, name)?;
    imports.push(ImportEntry::Single { module, name, ty })?;
    Ok(())
}

// Adds each of these imports by itself, with its type shifted.
fn push_items(
    alloc: Global,
    imports: &mut Vec<ImportEntry>,
    origin: &str,
    items: &[ImportItem],
    shift: Shift,
) -> Result<(), AllocError>
    ensures { IfOk result (λ _. map import_entry imports.new.items ≡ map import_entry imports.old.items ++ written false (entry_map (shifted_index shift.start shift.by) (CompactItems origin.now (map import_item items.now)))) }
{
    for item in items {
        let ty = shifted_entity(shift, &item.ty);
        push_single(alloc, imports, origin, &item.name, ty)?;
    }
    Ok(())
}

// Adds an import of this type by itself for each name.
fn push_names(
    alloc: Global,
    imports: &mut Vec<ImportEntry>,
    origin: &str,
    names: &[String],
    ty: EntityType,
) -> Result<(), AllocError>
    ensures { IfOk result (λ _. map import_entry imports.new.items ≡ map import_entry imports.old.items ++ written false (CompactNames origin.now (entity_type ty) (map string_bytes names.now))) }
{
    for name in names {
        push_single(alloc, imports, origin, name, ty)?;
    }
    Ok(())
}

// Adds an entry as it is written with compact forms, its types shifted: a group of no import isn't.
fn push_compact(
    alloc: Global,
    imports: &mut Vec<ImportEntry>,
    entry: &ImportEntry,
    shift: Shift,
) -> Result<(), AllocError>
    ensures { IfOk result (λ _. map import_entry imports.new.items ≡ map import_entry imports.old.items ++ written true (entry_map (shifted_index shift.start shift.by) (import_entry entry.now))) }
{
    match entry {
        ImportEntry::Single { module, name, ty } => {
            push_single(alloc, imports, module, name, shifted_entity(shift, ty))?;
        }
        ImportEntry::Compact1 { module, items } => {
            if !items.is_empty() {
                let items = shifted_items(alloc, items, shift)?;
                let module = module.clone()?;
                imports.push(ImportEntry::Compact1 { module, items })?;
            }
        }
        ImportEntry::Compact2 { module, ty, names } => {
            if !names.is_empty() {
                let names = copied(alloc, names)?;
                let module = module.clone()?;
                let ty = shifted_entity(shift, ty);
                imports.push(ImportEntry::Compact2 { module, ty, names })?;
            }
        }
    }
    Ok(())
}

// Adds each import of an entry by itself, with its type shifted.
fn push_apart(
    alloc: Global,
    imports: &mut Vec<ImportEntry>,
    entry: &ImportEntry,
    shift: Shift,
) -> Result<(), AllocError>
    ensures { IfOk result (λ _. map import_entry imports.new.items ≡ map import_entry imports.old.items ++ written false (entry_map (shifted_index shift.start shift.by) (import_entry entry.now))) }
{
    match entry {
        ImportEntry::Single { module, name, ty } => {
            push_single(alloc, imports, module, name, shifted_entity(shift, ty))
        }
        ImportEntry::Compact1 { module, items } => {
            push_items(alloc, imports, module, items, shift)
        }
        ImportEntry::Compact2 { module, ty, names } => {
            push_names(alloc, imports, module, names, shifted_entity(shift, ty))
        }
    }
}

// Adds an entry as it is written, its types shifted.
fn push_written(
    alloc: Global,
    imports: &mut Vec<ImportEntry>,
    entry: &ImportEntry,
    compact: bool,
    shift: Shift,
) -> Result<(), AllocError>
    ensures { IfOk result (λ _. map import_entry imports.new.items ≡ map import_entry imports.old.items ++ written compact (entry_map (shifted_index shift.start shift.by) (import_entry entry.now))) }
{
    if compact {
        return push_compact(alloc, imports, entry, shift);
    }
    push_apart(alloc, imports, entry, shift)
}

// Returns the entries that are taken, as they are written, their types shifted.
fn write_entries(
    alloc: Global,
    unstructured: &mut Unstructured<'_>,
    drawn: bool,
    entries: &[ImportEntry],
    compact: bool,
    shift: Shift,
) -> Result<Vec<ImportEntry>, AllocError>
    ensures imports { IfOk result (λ v. (map import_entry v.items, unstructured.new) ≡ shape_imports_at drawn compact (shifted_index shift.start shift.by) (map import_entry entries.now) unstructured.old) }
    ensures taken { length unstructured.new ≤ length unstructured.old }
{
    let mut imports = Vec::new(alloc);
    for entry in entries {
        if takes(unstructured, drawn) {
            push_written(alloc, &mut imports, entry, compact, shift)?;
        }
    }
    Ok(imports)
}

// Adds imports of one module to index spaces.
fn add_items(spaces: &mut IndexSpaces<'_>, items: &[ImportItem]) -> Result<(), AllocError>
    ensures { IfOk result (λ _. spaces.new ≡ with_items spaces.old (map (λ item. item.type) (map import_item items.now))) }
{
    for item in items {
        spaces.push_import(item.ty)?;
    }
    Ok(())
}

// Adds an import of this type to index spaces for each name.
fn add_named(
    spaces: &mut IndexSpaces<'_>,
    ty: EntityType,
    names: &[String],
) -> Result<(), AllocError>
    ensures { IfOk result (λ _. spaces.new ≡ with_items spaces.old (map (λ name. entity_type ty) (map string_bytes names.now))) }
{
    for _name in names {
        spaces.push_import(ty)?;
    }
    Ok(())
}

// Adds the imports of an entry to index spaces.
fn add_entry(spaces: &mut IndexSpaces<'_>, entry: &ImportEntry) -> Result<(), AllocError>
    ensures { IfOk result (λ _. spaces.new ≡ with_items spaces.old (imported_by (import_entry entry.now))) }
{
    match entry {
        ImportEntry::Single { ty, .. } => spaces.push_import(*ty),
        ImportEntry::Compact1 { items, .. } => add_items(spaces, items),
        ImportEntry::Compact2 { ty, names, .. } => add_named(spaces, *ty, names),
    }
}

// Adds the imports of entries to index spaces.
fn add_entries(spaces: &mut IndexSpaces<'_>, entries: &[ImportEntry]) -> Result<(), AllocError>
    ensures { IfOk result (λ _. spaces.new ≡ with_items spaces.old (flat_map imported_by (map import_entry entries.now))) }
{
    for entry in entries {
        add_entry(spaces, entry)?;
    }
    Ok(())
}

/// Makes the imports of a module from the entries of a shape, and adds their items to the index spaces. All entries are taken or, where `drawn` is true,
/// each after a bool that is true. References to types are shifted. A group of no import isn't written, and without compact imports each import is written by itself.
///
/// # Errors
/// Where memory runs out. Some of the source's bytes may be taken by then.
pub fn shape_imports(
    alloc: Global,
    unstructured: &mut Unstructured<'_>,
    config: &Config,
    drawn: bool,
    entries: &[ImportEntry],
    shift: Shift,
    spaces: &mut IndexSpaces<'_>,
) -> Result<Vec<ImportEntry>, AllocError>
    ensures imports { IfOk result (λ v. (map import_entry v.items, unstructured.new) ≡ shape_imports_at drawn config.now.compact_imports_enabled (shifted_index shift.start shift.by) (map import_entry entries.now) unstructured.old) }
    ensures spaces { IfOk result (λ v. spaces.new ≡ with_items spaces.old (flat_map imported_by (map import_entry v.items))) }
    ensures taken { length unstructured.new ≤ length unstructured.old }
{
    let compact = config.compact_imports_enabled;
    let imports = write_entries(alloc, unstructured, drawn, entries, compact, shift)?;
    add_entries(spaces, &imports)?;
    Ok(imports)
}
