//! The index spaces of a whole made module: imported items, and behind them the module's own, in its lists.

ghost use Rattle.std.specs.Prelude.{◌≡◌, ◌+◌, ◌++◌, ℕ, List, length, map, nat_lt, slice_get};
ghost use Rattle.std.specs.List.{sum_by};
ghost use Rattle.std.specs.Option.{option_and_then};
ghost use Rattle.wasm_encoder_sections.specs.CoreItems.{export_kind};
ghost use Rattle.wasm_smith_definitions.specs.Items.{export};
ghost use Rattle.wasm_smith_definitions.specs.Kinds.{count_of};
ghost use Rattle.wasm_smith_module.specs.Measured.{HasNoOwn, own_of, saturated};
ghost use Rattle.wasm_smith_module.specs.Measures.{size_of_export, size_of_func, with_own};
ghost use Rattle.wasm_smith_sections.specs.ModuleItems.{made_of};
ghost use Rattle.wasm_smith_validity.specs.Spaces.{func_type_at, functions_of};

use crate::sizes::size_of_function;
use wasm_encoder_sections::entity_type::ExportKind;
use wasm_smith_definitions::index_spaces::IndexSpaces;
use wasm_smith_definitions::items::Export;
use wasm_smith_sections::module_items::ModuleItems;

// Returns the number of items of a kind that the module defines.
fn own_count(items: &ModuleItems<'_>, kind: ExportKind) -> usize
    ensures { result ≡ own_of (made_of items.now) (export_kind kind) }
{
    match kind {
        ExportKind::Func => items.funcs.len(),
        ExportKind::Table => items.tables.len(),
        ExportKind::Memory => items.memories.len(),
        ExportKind::Global => items.globals.len(),
        ExportKind::Tag => items.tags.len(),
    }
}

/// Returns the number of items of a kind. One that has no room in 64 bits is the greatest number.
pub fn count_of(imported: &IndexSpaces<'_>, items: &ModuleItems<'_>, kind: ExportKind) -> u64
    requires alone { HasNoOwn imported.now }
    ensures { result ≡ saturated (count_of (with_own imported.now (made_of items.now)) (export_kind kind)) }
{
    let count = imported.count_of(kind) as u64;
    count.saturating_add(own_count(items, kind) as u64)
}

// Checks that there is an item of a kind with this index.
fn has_item(
    imported: &IndexSpaces<'_>,
    items: &ModuleItems<'_>,
    kind: ExportKind,
    index: u32,
) -> bool
    requires alone { HasNoOwn imported.now }
    ensures { result ≡ nat_lt index (count_of (with_own imported.now (made_of items.now)) (export_kind kind)) }
{
    (index as u64) < count_of(imported, items, kind)
}

// Returns the item of an index in two lists, one after the other. Of the first its item of this index and its length are given.
fn get_after(first: Option<u32>, count: usize, second: &[u32], index: u32) -> Option<u32>
    ensures { (front : List ℕ) → first ≡ slice_get front index → count ≡ length front → result ≡ slice_get (front ++ second.now) index }
{
    let index = index as usize;
    if index < count {
        return first;
    }
    second.get(index - count).copied()
}

// Returns the type index of a function.
fn function(imported: &IndexSpaces<'_>, items: &ModuleItems<'_>, index: u32) -> Option<u32>
    requires alone { HasNoOwn imported.now }
    ensures { result ≡ slice_get (functions_of (with_own imported.now (made_of items.now))) index }
{
    let count = imported.count_of(ExportKind::Func);
    get_after(imported.function(index), count, items.funcs, index)
}

// Returns the type index of a tag.
fn tag(imported: &IndexSpaces<'_>, items: &ModuleItems<'_>, index: u32) -> Option<u32>
    ensures { result ≡ slice_get (with_own imported.now (made_of items.now)).tags index }
{
    let count = imported.count_of(ExportKind::Tag);
    get_after(imported.tag(index), count, items.tags, index)
}

// Returns the size of a function's or a tag's type, if there is one.
fn size_of_index(imported: &IndexSpaces<'_>, index: Option<u32>) -> u64
    ensures { result ≡ size_of_func (option_and_then (func_type_at imported.now.types) index) }
{
    match index {
        Some(index) => size_of_function(imported.types(), index),
        None => 0,
    }
}

// Returns the size of the type of an exported item.
fn export_size(imported: &IndexSpaces<'_>, items: &ModuleItems<'_>, item: &Export) -> u64
    requires alone { HasNoOwn imported.now }
    ensures { result ≡ size_of_export (with_own imported.now (made_of items.now)) (export item.now) }
{
    match item.kind {
        ExportKind::Func => size_of_index(imported, function(imported, items, item.index)),
        ExportKind::Tag => size_of_index(imported, tag(imported, items, item.index)),
        ExportKind::Table | ExportKind::Memory | ExportKind::Global => {
            u64::from(has_item(imported, items, item.kind, item.index))
        }
    }
}

/// Returns the size of the types of all exports. A sum that has no room in 64 bits stays at the greatest number.
pub fn exports_size(imported: &IndexSpaces<'_>, items: &ModuleItems<'_>) -> u64
    requires alone { HasNoOwn imported.now }
    ensures { result ≡ saturated (sum_by (size_of_export (with_own imported.now (made_of items.now))) (map export items.now.exports.now)) }
{
    let mut size: u64 = 0;
    for item in items.exports {
        size = size.saturating_add(export_size(imported, items, item));
    }
    size
}
