//! Shapes in words: groups, imports and exports, with `/` between them, as
//! `open struct ; func 0? -> ; / one m f func 1 ; / g table func? 0..10, h global mut:i32`. The groups are those of `wasm_test_types`, with `;` after each. An entry
//! of the imports, with `;` after it too, is one of
//!
//! - `one MODULE NAME ITEM`;
//! - `many MODULE : NAME ITEM, NAME ITEM`;
//! - `same MODULE ITEM : NAME NAME`.
//!
//! An export is `NAME ITEM`, with commas between them. The name `-` is empty. An item is one of
//!
//! - `func TYPE` and `tag TYPE`, of a type's index;
//! - `table REFERENCE BOUNDS` and `table64 REFERENCE BOUNDS`, where bounds are `1..` or `1..10`;
//! - `memory BOUNDS` and `memory64 BOUNDS`, followed by `shared` and by `page` and a power of two where they are so;
//! - `global VALUE` and `global mut:VALUE`.

use std::alloc::Global;
use wasm_core_types::types::{RefType, ValType};
use wasm_encoder_sections::entity_type::{
    EntityType, GlobalType, MemoryType, TableType, TagKind, TagType,
};
use wasm_smith_shapes::imports::{ImportEntry, ImportItem};
use wasm_smith_shapes::shape::{Shape, ShapeExport};
use wasm_test_rows::fields::word_and_rest;
use wasm_test_types::types::{groups_of, val_type_of};

// Returns bounds: the lower one, and after two dots the upper one, if there is one.
fn bounds_of(word: &str) -> Option<(u64, Option<u64>)> {
    let (minimum, maximum) = word.split_once("..")?;
    let minimum = minimum.parse().ok()?;
    if maximum.is_empty() {
        return Some((minimum, None));
    }
    Some((minimum, Some(maximum.parse().ok()?)))
}

// Returns a reference type.
fn reference_of(word: &str) -> Option<RefType> {
    match val_type_of(word) {
        Some(ValType::Ref(reference)) => Some(reference),
        _ => None,
    }
}

fn table_of(field: &str, table64: bool) -> Option<TableType> {
    let (element, bounds) = word_and_rest(field);
    let (minimum, maximum) = bounds_of(bounds)?;
    Some(TableType {
        element_type: reference_of(element)?,
        table64,
        minimum,
        maximum,
    })
}

// Returns the power of two after `page`, or none where the field is empty.
fn page_size_of(field: &str) -> Option<Option<u32>> {
    match word_and_rest(field) {
        ("", _) => Some(None),
        ("page", power) => Some(Some(power.parse().ok()?)),
        _ => None,
    }
}

fn memory_of(field: &str, memory64: bool) -> Option<MemoryType> {
    let (bounds, rest) = word_and_rest(field);
    let (minimum, maximum) = bounds_of(bounds)?;
    let (shared, page) = match word_and_rest(rest) {
        ("shared", page) => (true, page),
        _ => (false, rest),
    };
    Some(MemoryType {
        minimum,
        maximum,
        memory64,
        shared,
        page_size_log2: page_size_of(page)?,
    })
}

fn global_of(word: &str) -> Option<GlobalType> {
    let name = word.strip_prefix("mut:").unwrap_or(word);
    Some(GlobalType {
        val_type: val_type_of(name)?,
        mutable: name.len() < word.len(),
    })
}

/// Returns the type of an item.
pub fn item_of(field: &str) -> Option<EntityType> {
    let (kind, rest) = word_and_rest(field);
    match kind {
        "func" => Some(EntityType::Function(rest.parse().ok()?)),
        "table" => Some(EntityType::Table(table_of(rest, false)?)),
        "table64" => Some(EntityType::Table(table_of(rest, true)?)),
        "memory" => Some(EntityType::Memory(memory_of(rest, false)?)),
        "memory64" => Some(EntityType::Memory(memory_of(rest, true)?)),
        "global" => Some(EntityType::Global(global_of(rest)?)),
        "tag" => Some(EntityType::Tag(TagType {
            kind: TagKind::Exception,
            func_type_idx: rest.parse().ok()?,
        })),
        _ => None,
    }
}

// Returns a name, where `-` stands for an empty one.
fn name_of(alloc: Global, word: &str) -> Option<String> {
    let name = if word == "-" { "" } else { word };
    String::from_str(alloc, name).ok()
}

fn names_of(alloc: Global, field: &str) -> Option<Vec<String>> {
    let mut names = Vec::new(alloc);
    for word in field.split_whitespace() {
        names.push(name_of(alloc, word)?).ok()?;
    }
    Some(names)
}

// Returns an import of an entry that has several.
fn import_item_of(alloc: Global, field: &str) -> Option<ImportItem> {
    let (name, item) = word_and_rest(field);
    let ty = item_of(item)?;
    Some(ImportItem {
        name: name_of(alloc, name)?,
        ty,
    })
}

// Returns imports of an entry, with commas between them, or none.
fn import_items_of(alloc: Global, field: &str) -> Option<Vec<ImportItem>> {
    let mut items = Vec::new(alloc);
    if field.trim().is_empty() {
        return Some(items);
    }
    for part in field.split(',') {
        items.push(import_item_of(alloc, part)?).ok()?;
    }
    Some(items)
}

fn single_of(alloc: Global, field: &str) -> Option<ImportEntry> {
    let (module, rest) = word_and_rest(field);
    let (name, item) = word_and_rest(rest);
    let ty = item_of(item)?;
    let module = name_of(alloc, module)?;
    Some(ImportEntry::Single {
        module,
        name: name_of(alloc, name)?,
        ty,
    })
}

fn compact1_of(alloc: Global, field: &str) -> Option<ImportEntry> {
    let (module, items) = field.split_once(':')?;
    let module = name_of(alloc, module.trim())?;
    Some(ImportEntry::Compact1 {
        module,
        items: import_items_of(alloc, items)?,
    })
}

fn compact2_of(alloc: Global, field: &str) -> Option<ImportEntry> {
    let (front, names) = field.rsplit_once(':')?;
    let (module, item) = word_and_rest(front);
    let ty = item_of(item)?;
    let module = name_of(alloc, module)?;
    Some(ImportEntry::Compact2 {
        module,
        ty,
        names: names_of(alloc, names)?,
    })
}

// Returns an entry of the imports.
fn entry_of(alloc: Global, field: &str) -> Option<ImportEntry> {
    let (form, rest) = word_and_rest(field);
    match form {
        "one" => single_of(alloc, rest),
        "many" => compact1_of(alloc, rest),
        "same" => compact2_of(alloc, rest),
        _ => None,
    }
}

// Returns entries of the imports, with `;` after each.
fn imports_of(alloc: Global, field: &str) -> Option<Vec<ImportEntry>> {
    let mut imports = Vec::new(alloc);
    for entry in field.split_terminator(';') {
        imports.push(entry_of(alloc, entry)?).ok()?;
    }
    Some(imports)
}

fn export_of(alloc: Global, field: &str) -> Option<ShapeExport> {
    let (name, item) = word_and_rest(field);
    let ty = item_of(item)?;
    Some(ShapeExport {
        name: name_of(alloc, name)?,
        ty,
    })
}

// Returns exports with commas between them, or none.
fn exports_of(alloc: Global, field: &str) -> Option<Vec<ShapeExport>> {
    let mut exports = Vec::new(alloc);
    if field.trim().is_empty() {
        return Some(exports);
    }
    for part in field.split(',') {
        exports.push(export_of(alloc, part)?).ok()?;
    }
    Some(exports)
}

/// Returns the shape of a text.
pub fn shape_of(alloc: Global, text: &str) -> Option<Shape> {
    let (groups, rest) = text.split_once('/')?;
    let (imports, exports) = rest.split_once('/')?;
    let groups = groups_of(alloc, groups.trim())?;
    let imports = imports_of(alloc, imports.trim())?;
    Some(Shape {
        groups,
        imports,
        exports: exports_of(alloc, exports)?,
    })
}
