//! The entries of imports, each of one of three forms.

ghost use Rattle.std.specs.Prelude.{◌≡◌, ◌≤◌, ◌<◌, ◌++◌, IfOk, IfErr, IsTrue, true, length, map};
ghost use Rattle.std.specs.List.{AllByRecursion};
ghost use Rattle.std.specs.Option.{option_to_list};
ghost use Rattle.std.specs.String.{string_bytes};
ghost use Rattle.wasm_encoder_sections.specs.CoreItems.{entity_type};
ghost use Rattle.wasm_spec.specs.Types.{kind_of};
ghost use Rattle.wasm_smith_shapes.specs.Imports.{import_entry, import_item};
ghost use Rattle.wasm_smith_externs.specs.Added.{AreAdded, IsImporterFor};
ghost use Rattle.wasm_smith_externs.specs.Candidates.{IsOfferedImport, can_import, can_import_some};
ghost use Rattle.wasm_smith_externs.specs.Imports.{IsMadeEntry};
ghost use Rattle.wasm_smith_externs.specs.Named.{all_named, named, named_item};

use crate::importer::{Importer, kind_of};
use crate::names::draw_name;
use crate::progress::Progress;
use std::alloc::{AllocError, Global};
use wasm_encoder_sections::entity_type::EntityType;
use wasm_smith_config::error::Error;
use wasm_smith_definitions::index_spaces::IndexSpaces;
use wasm_smith_shapes::imports::{ImportEntry, ImportItem};
use wasm_smith_unstructured::unstructured::Unstructured;

/// Adds a thing, if there is one, to a list.
///
/// # Errors
/// Where memory runs out.
pub fn push_some<T: Drop>(list: &mut Vec<T>, thing: Option<T>) -> Result<(), AllocError>
    ensures { IfOk result (λ _. list.new.items ≡ list.old.items ++ option_to_list thing) }
{
    if let Some(thing) = thing {
        list.push(thing)?;
    }
    Ok(())
}

// Draws the name of an import of this type, and adds the import. Returns no name where its type is too large.
fn import_of_type(
    alloc: Global,
    unstructured: &mut Unstructured<'_>,
    importer: &Importer<'_>,
    spaces: &mut IndexSpaces<'_>,
    progress: &mut Progress,
    origin: &str,
    ty: &EntityType,
) -> Result<Option<String>, Error>
    requires importer { IsImporterFor spaces.old.types importer.now }
    requires left { 0 < progress.old.left }
    requires origin { length origin.now ≤ 1000 }
    requires offered { IsOfferedImport importer.now.config.now spaces.old.types (entity_type ty.now) }
    requires can { can_import importer.now.config.now importer.now.bounds spaces.old (kind_of (entity_type ty.now)) ≡ true }
    ensures added { IfOk result (λ name. AreAdded importer.now.config.now importer.now.bounds spaces.old spaces.new progress.old progress.new (map (named origin.now (entity_type ty.now)) (map string_bytes (option_to_list name)))) }
    ensures fewer { IfOk result (λ _. progress.new.left < progress.old.left) }
    ensures taken { length unstructured.new ≤ length unstructured.old }
    ensures refused { IfErr result (λ e. e ≡ Error.Memory) }
{
    let name = progress.draw_name(alloc, unstructured, origin)?;
    let size = importer.type_size(ty);
    let added = progress.add(spaces, ty, size)?;
    if added {
        return Ok(Some(name));
    }
    Ok(None)
}

// Draws an import of the module of this name. Returns none where its type is too large.
fn item(
    alloc: Global,
    unstructured: &mut Unstructured<'_>,
    importer: &Importer<'_>,
    spaces: &mut IndexSpaces<'_>,
    progress: &mut Progress,
    origin: &str,
) -> Result<Option<ImportItem>, Error>
    requires importer { IsImporterFor spaces.old.types importer.now }
    requires left { 0 < progress.old.left }
    requires origin { length origin.now ≤ 1000 }
    requires can { can_import_some importer.now.config.now importer.now.bounds spaces.old ≡ true }
    ensures added { IfOk result (λ item. AreAdded importer.now.config.now importer.now.bounds spaces.old spaces.new progress.old progress.new (map (named_item origin.now) (map import_item (option_to_list item)))) }
    ensures fewer { IfOk result (λ _. progress.new.left < progress.old.left) }
    ensures taken { length unstructured.new ≤ length unstructured.old }
    ensures refused { IfErr result (λ e. e ≡ Error.Memory) }
{
    let kind = importer.choose_kind(unstructured, spaces);
    let ty = importer.draw_type(unstructured, spaces, kind);
    match import_of_type(alloc, unstructured, importer, spaces, progress, origin, &ty)? {
        Some(name) => Ok(Some(ImportItem { name, ty })),
        None => Ok(None),
    }
}

// Draws an import by itself.
fn single(
    alloc: Global,
    unstructured: &mut Unstructured<'_>,
    importer: &Importer<'_>,
    spaces: &mut IndexSpaces<'_>,
    progress: &mut Progress,
) -> Result<Option<ImportEntry>, Error>
    requires importer { IsImporterFor spaces.old.types importer.now }
    requires left { 0 < progress.old.left }
    requires can { can_import_some importer.now.config.now importer.now.bounds spaces.old ≡ true }
    ensures added { IfOk result (λ entry. AreAdded importer.now.config.now importer.now.bounds spaces.old spaces.new progress.old progress.new (all_named (map import_entry (option_to_list entry)))) }
    ensures made { IfOk result (λ entry. AllByRecursion (IsMadeEntry importer.now.config.now) (map import_entry (option_to_list entry))) }
    ensures fewer { IfOk result (λ _. progress.new.left < progress.old.left) }
    ensures taken { length unstructured.new ≤ length unstructured.old }
    ensures refused { IfErr result (λ e. e ≡ Error.Memory) }
{
    let kind = importer.choose_kind(unstructured, spaces);
    let ty = importer.draw_type(unstructured, spaces, kind);
    let module = draw_name(alloc, unstructured)?;
    let origin = module.as_str();
    match import_of_type(alloc, unstructured, importer, spaces, progress, origin, &ty)? {
        Some(name) => Ok(Some(ImportEntry::Single { module, name, ty })),
        None => Ok(None),
    }
}

// Returns true if there is one more import of several, for which there is room where `can` is true: as long as the next bool is true.
fn has_more(unstructured: &mut Unstructured<'_>, left: u32, can: bool) -> bool
    ensures left { IsTrue result → 0 < left }
    ensures can { IsTrue result → can ≡ true }
    ensures taken { length unstructured.new ≤ length unstructured.old }
{
    if left == 0 || !can {
        return false;
    }
    unstructured.bool()
}

// Draws the imports of an entry, each with a type of its own.
fn items(
    alloc: Global,
    unstructured: &mut Unstructured<'_>,
    importer: &Importer<'_>,
    spaces: &mut IndexSpaces<'_>,
    progress: &mut Progress,
    origin: &str,
) -> Result<Vec<ImportItem>, Error>
    requires importer { IsImporterFor spaces.old.types importer.now }
    requires left { 0 < progress.old.left }
    requires origin { length origin.now ≤ 1000 }
    requires can { can_import_some importer.now.config.now importer.now.bounds spaces.old ≡ true }
    ensures added { IfOk result (λ items. AreAdded importer.now.config.now importer.now.bounds spaces.old spaces.new progress.old progress.new (map (named_item origin.now) (map import_item items.items))) }
    ensures fewer { IfOk result (λ _. progress.new.left < progress.old.left) }
    ensures taken { length unstructured.new ≤ length unstructured.old }
    ensures refused { IfErr result (λ e. e ≡ Error.Memory) }
{
    let mut items = Vec::new(alloc);
    let first = item(alloc, unstructured, importer, spaces, progress, origin)?;
    push_some(&mut items, first)?;
    'items: while has_more(
        unstructured,
        progress.left(),
        importer.can_import_some(spaces),
    ) {
        let next = item(alloc, unstructured, importer, spaces, progress, origin)?;
        push_some(&mut items, next)?;
    }
    Ok(items)
}

// Draws the names of the imports of an entry, all of this type.
fn names(
    alloc: Global,
    unstructured: &mut Unstructured<'_>,
    importer: &Importer<'_>,
    spaces: &mut IndexSpaces<'_>,
    progress: &mut Progress,
    origin: &str,
    ty: &EntityType,
) -> Result<Vec<String>, Error>
    requires importer { IsImporterFor spaces.old.types importer.now }
    requires left { 0 < progress.old.left }
    requires origin { length origin.now ≤ 1000 }
    requires offered { IsOfferedImport importer.now.config.now spaces.old.types (entity_type ty.now) }
    requires can { can_import importer.now.config.now importer.now.bounds spaces.old (kind_of (entity_type ty.now)) ≡ true }
    ensures added { IfOk result (λ names. AreAdded importer.now.config.now importer.now.bounds spaces.old spaces.new progress.old progress.new (map (named origin.now (entity_type ty.now)) (map string_bytes names.items))) }
    ensures fewer { IfOk result (λ _. progress.new.left < progress.old.left) }
    ensures taken { length unstructured.new ≤ length unstructured.old }
    ensures refused { IfErr result (λ e. e ≡ Error.Memory) }
{
    let mut names = Vec::new(alloc);
    let first = import_of_type(alloc, unstructured, importer, spaces, progress, origin, ty)?;
    push_some(&mut names, first)?;
    'names: while has_more(
        unstructured,
        progress.left(),
        importer.can_import(spaces, kind_of(ty)),
    ) {
        let next = import_of_type(alloc, unstructured, importer, spaces, progress, origin, ty)?;
        push_some(&mut names, next)?;
    }
    Ok(names)
}

// Draws imports of one module, each with a type of its own.
fn compact1(
    alloc: Global,
    unstructured: &mut Unstructured<'_>,
    importer: &Importer<'_>,
    spaces: &mut IndexSpaces<'_>,
    progress: &mut Progress,
) -> Result<Option<ImportEntry>, Error>
    requires importer { IsImporterFor spaces.old.types importer.now }
    requires compact { importer.now.config.now.compact_imports_enabled ≡ true }
    requires left { 0 < progress.old.left }
    requires can { can_import_some importer.now.config.now importer.now.bounds spaces.old ≡ true }
    ensures added { IfOk result (λ entry. AreAdded importer.now.config.now importer.now.bounds spaces.old spaces.new progress.old progress.new (all_named (map import_entry (option_to_list entry)))) }
    ensures made { IfOk result (λ entry. AllByRecursion (IsMadeEntry importer.now.config.now) (map import_entry (option_to_list entry))) }
    ensures fewer { IfOk result (λ _. progress.new.left < progress.old.left) }
    ensures taken { length unstructured.new ≤ length unstructured.old }
    ensures refused { IfErr result (λ e. e ≡ Error.Memory) }
{
    let module = draw_name(alloc, unstructured)?;
    let origin = module.as_str();
    let items = items(alloc, unstructured, importer, spaces, progress, origin)?;
    if items.is_empty() {
        return Ok(None);
    }
    Ok(Some(ImportEntry::Compact1 { module, items }))
}

// Draws imports of one module and one type.
fn compact2(
    alloc: Global,
    unstructured: &mut Unstructured<'_>,
    importer: &Importer<'_>,
    spaces: &mut IndexSpaces<'_>,
    progress: &mut Progress,
) -> Result<Option<ImportEntry>, Error>
    requires importer { IsImporterFor spaces.old.types importer.now }
    requires compact { importer.now.config.now.compact_imports_enabled ≡ true }
    requires left { 0 < progress.old.left }
    requires can { can_import_some importer.now.config.now importer.now.bounds spaces.old ≡ true }
    ensures added { IfOk result (λ entry. AreAdded importer.now.config.now importer.now.bounds spaces.old spaces.new progress.old progress.new (all_named (map import_entry (option_to_list entry)))) }
    ensures made { IfOk result (λ entry. AllByRecursion (IsMadeEntry importer.now.config.now) (map import_entry (option_to_list entry))) }
    ensures fewer { IfOk result (λ _. progress.new.left < progress.old.left) }
    ensures taken { length unstructured.new ≤ length unstructured.old }
    ensures refused { IfErr result (λ e. e ≡ Error.Memory) }
{
    let kind = importer.choose_kind(unstructured, spaces);
    let ty = importer.draw_type(unstructured, spaces, kind);
    let module = draw_name(alloc, unstructured)?;
    let origin = module.as_str();
    let names = names(alloc, unstructured, importer, spaces, progress, origin, &ty)?;
    if names.is_empty() {
        return Ok(None);
    }
    Ok(Some(ImportEntry::Compact2 { module, ty, names }))
}

/// Draws an entry of imports, of one of the forms that the configuration enables. Returns none where the type of the first import is too large.
///
/// # Errors
/// [`Memory`](Error::Memory) alone. Some of the source's bytes may be taken by then.
pub fn entry(
    alloc: Global,
    unstructured: &mut Unstructured<'_>,
    importer: &Importer<'_>,
    spaces: &mut IndexSpaces<'_>,
    progress: &mut Progress,
) -> Result<Option<ImportEntry>, Error>
    requires importer { IsImporterFor spaces.old.types importer.now }
    requires left { 0 < progress.old.left }
    requires can { can_import_some importer.now.config.now importer.now.bounds spaces.old ≡ true }
    ensures added { IfOk result (λ entry. AreAdded importer.now.config.now importer.now.bounds spaces.old spaces.new progress.old progress.new (all_named (map import_entry (option_to_list entry)))) }
    ensures made { IfOk result (λ entry. AllByRecursion (IsMadeEntry importer.now.config.now) (map import_entry (option_to_list entry))) }
    ensures fewer { IfOk result (λ _. progress.new.left < progress.old.left) }
    ensures taken { length unstructured.new ≤ length unstructured.old }
    ensures refused { IfErr result (λ e. e ≡ Error.Memory) }
{
    if !importer.config().compact_imports_enabled {
        return single(alloc, unstructured, importer, spaces, progress);
    }
    match unstructured.int_in_range(0..=2) {
        0 => single(alloc, unstructured, importer, spaces, progress),
        1 => compact1(alloc, unstructured, importer, spaces, progress),
        _ => compact2(alloc, unstructured, importer, spaces, progress),
    }
}
