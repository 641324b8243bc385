//! Exports of everything there is.

ghost use Rattle.std.specs.Prelude.{◌≡◌, ◌⊎◌, ◌∷◌, ◌+◌, ◌-◌, ◌<◌, ◌≤◌, ◌^◌, [], IfOk, IfErr, length, map, min};
ghost use Rattle.std.specs.Option.{option_and_then};
ghost use Rattle.wasm_core_types.specs.SubTypes.{sub_type};
ghost use Rattle.wasm_encoder_sections.specs.CoreItems.{export_kind};
ghost use Rattle.wasm_spec.specs.Types.{ExternalKind};
ghost use Rattle.wasm_smith_definitions.specs.FunctionTypes.{func_size};
ghost use Rattle.wasm_smith_definitions.specs.Items.{export};
ghost use Rattle.wasm_smith_definitions.specs.Kinds.{count_of};
ghost use Rattle.wasm_smith_unstructured.specs.Draws.{text_at};
ghost use Rattle.wasm_smith_validity.specs.Spaces.{func_type_at, functions_of};
ghost use Rattle.wasm_smith_externs.specs.AllExports.{AreExported, IsAllExported, all_of, everything, items_size};
ghost use Rattle.wasm_smith_externs.specs.Exports.{AreNames, IsAddedName};
ghost use Rattle.wasm_smith_externs.specs.Sizes.{exports_size, item_size};

use std::alloc::{AllocError, Global};
use wasm_core_types::types::SubType;
use wasm_encoder_sections::entity_type::ExportKind;
use wasm_smith_config::config::Config;
use wasm_smith_config::error::Error;
use wasm_smith_definitions::function_types::function_size;
use wasm_smith_definitions::index_spaces::IndexSpaces;
use wasm_smith_definitions::items::Export;
use wasm_smith_unstructured::names::UniqueNames;
use wasm_smith_unstructured::text::unique_string;
use wasm_smith_unstructured::unstructured::Unstructured;

/// The most bytes of a drawn name, a number at its end aside.
pub const MAX_NAME: usize = 1000;

// Returns the size of the function type of this index, if there is an index.
fn size_of_index(types: &[SubType], index: Option<u32>) -> usize
    ensures { result ≡ func_size (option_and_then (func_type_at (map sub_type types.now)) index) }
{
    match index {
        Some(index) => function_size(types, index),
        None => 1,
    }
}

// Returns the size of the type of an item.
fn item_size(spaces: &IndexSpaces<'_>, kind: ExportKind, index: u32) -> usize
    ensures { result ≡ item_size spaces.now.types (functions_of spaces.now) spaces.now.tags (export_kind kind) index }
{
    match kind {
        ExportKind::Func => size_of_index(spaces.types(), spaces.function(index)),
        ExportKind::Table => 1,
        ExportKind::Memory => 1,
        ExportKind::Global => 1,
        ExportKind::Tag => size_of_index(spaces.types(), spaces.tag(index)),
    }
}

// Returns the size of the types of all items of a kind. A sum that has no room in 64 bits stays at the greatest number.
fn size_of_kind(spaces: &IndexSpaces<'_>, kind: ExportKind) -> usize
    requires few { count_of spaces.now (export_kind kind) < 2 ^ 32 }
    ensures { result ≡ min (items_size spaces.now (all_of spaces.now (export_kind kind))) (2 ^ 64 - 1) }
{
    let mut size: usize = 0;
    for index in 0..spaces.count_of(kind) as u32 {
        size = size.saturating_add(item_size(spaces, kind, index));
    }
    size
}

// Returns the size of the types of everything. A sum that has no room in 64 bits stays at the greatest number.
fn size_of_everything(spaces: &IndexSpaces<'_>) -> usize
    requires few_functions { length (functions_of spaces.now) < 2 ^ 32 }
    requires few_tags { length spaces.now.tags < 2 ^ 32 }
    ensures { result ≡ min (items_size spaces.now (everything spaces.now)) (2 ^ 64 - 1) }
{
    let functions = size_of_kind(spaces, ExportKind::Func);
    let tags = size_of_kind(spaces, ExportKind::Tag);
    functions
        .saturating_add(spaces.count_of(ExportKind::Table))
        .saturating_add(spaces.count_of(ExportKind::Memory))
        .saturating_add(spaces.count_of(ExportKind::Global))
        .saturating_add(tags)
}

// Returns an export of an item, with a name that is new.
fn named_export(
    alloc: Global,
    unstructured: &mut Unstructured<'_>,
    names: &mut UniqueNames,
    kind: ExportKind,
    index: u32,
) -> Result<Export, AllocError>
    ensures kind { IfOk result (λ item. (export item).kind ≡ export_kind kind) }
    ensures index { IfOk result (λ item. (export item).index ≡ index) }
    ensures name { IfOk result (λ item. IsAddedName names.old names.new (export item).name) }
    ensures drawn { IfOk result (λ _. unstructured.new ≡ (text_at 1000 unstructured.old).1) }
    ensures taken { length unstructured.new ≤ length unstructured.old }
{
    let name = unique_string(alloc, unstructured, MAX_NAME, names)?;
    Ok(Export { name, kind, index })
}

// Exports an item.
fn export_item(
    alloc: Global,
    unstructured: &mut Unstructured<'_>,
    spaces: &mut IndexSpaces<'_>,
    names: &mut UniqueNames,
    kind: ExportKind,
    index: u32,
) -> Result<(), AllocError>
    requires there { index < count_of spaces.old (export_kind kind) }
    requires names { AreNames names.old spaces.old.exports }
    ensures exported { IfOk result (λ _. AreExported spaces.old unstructured.old spaces.new unstructured.new ((export_kind kind, index) ∷ [])) }
    ensures names { IfOk result (λ _. AreNames names.new spaces.new.exports) }
    ensures taken { length unstructured.new ≤ length unstructured.old }
{
    let export = named_export(alloc, unstructured, names, kind, index)?;
    spaces.push_export(export)
}

// Exports all items of a kind, by increasing index.
fn export_items(
    alloc: Global,
    unstructured: &mut Unstructured<'_>,
    spaces: &mut IndexSpaces<'_>,
    names: &mut UniqueNames,
    kind: ExportKind,
) -> Result<(), AllocError>
    requires few { count_of spaces.old (export_kind kind) < 2 ^ 32 }
    requires names { AreNames names.old spaces.old.exports }
    ensures exported { IfOk result (λ _. AreExported spaces.old unstructured.old spaces.new unstructured.new (all_of spaces.old (export_kind kind))) }
    ensures names { IfOk result (λ _. AreNames names.new spaces.new.exports) }
    ensures taken { length unstructured.new ≤ length unstructured.old }
{
    for index in 0..spaces.count_of(kind) as u32 {
        export_item(alloc, unstructured, spaces, names, kind, index)?;
    }
    Ok(())
}

// Exports all functions, then all tables, memories, globals and tags.
fn export_kinds(
    alloc: Global,
    unstructured: &mut Unstructured<'_>,
    spaces: &mut IndexSpaces<'_>,
    names: &mut UniqueNames,
) -> Result<(), AllocError>
    requires few { (kind : ExternalKind) → count_of spaces.old kind < 2 ^ 32 }
    requires names { AreNames names.old spaces.old.exports }
    ensures exported { IfOk result (λ _. AreExported spaces.old unstructured.old spaces.new unstructured.new (everything spaces.old)) }
    ensures taken { length unstructured.new ≤ length unstructured.old }
{
    export_items(alloc, unstructured, spaces, names, ExportKind::Func)?;
    export_items(alloc, unstructured, spaces, names, ExportKind::Table)?;
    export_items(alloc, unstructured, spaces, names, ExportKind::Memory)?;
    export_items(alloc, unstructured, spaces, names, ExportKind::Global)?;
    export_items(alloc, unstructured, spaces, names, ExportKind::Tag)
}

/// Exports everything: all functions, then all tables, memories, globals and tags, imported ones first. Only names are drawn.
///
/// # Errors
/// `TypeSize` where the sizes of the types of all imports, `imports_size`, and of everything come to more than `max_type_size`. Nothing is drawn then.
/// `Memory`, and some of the source's bytes may be taken then.
pub fn all_exports(
    alloc: Global,
    unstructured: &mut Unstructured<'_>,
    config: &Config,
    imports_size: usize,
    spaces: &mut IndexSpaces<'_>,
) -> Result<(), Error>
    requires first { spaces.old.exports ≡ [] }
    requires few_functions { length (functions_of spaces.old) < 2 ^ 32 }
    requires few_tags { length spaces.old.tags < 2 ^ 32 }
    ensures all { IfOk result (λ _. IsAllExported spaces.old unstructured.old spaces.new unstructured.new) }
    ensures size { IfOk result (λ _. exports_size spaces.new ≤ config.now.max_type_size - imports_size) }
    ensures taken { length unstructured.new ≤ length unstructured.old }
    ensures unread { IfErr result (λ e. e ≡ Error.TypeSize → unstructured.new ≡ unstructured.old) }
    ensures refused { IfErr result (λ e. (e ≡ Error.Memory) ⊎ ((e ≡ Error.TypeSize) × (config.now.max_type_size < imports_size + items_size spaces.old (everything spaces.old)))) }
{
    let size = imports_size.saturating_add(size_of_everything(spaces));
    if size > config.max_type_size as usize {
        return Err(Error::TypeSize);
    }
    let mut names = UniqueNames::new(alloc);
    export_kinds(alloc, unstructured, spaces, &mut names)?;
    Ok(())
}
