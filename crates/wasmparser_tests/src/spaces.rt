//! Items that a valid module shows.

use crate::new_validator::on_types;
use std::alloc::Global;
use std::test::Fail;
use wasm_core::features::{Flags, WasmFeatures};
use wasm_test_rows::fields::three_fields;
use wasm_test_rows::rows::check_rows;
use wasm_test_rows::values::{bytes_of, number_of};
use wasmparser::composite_type::CompositeType;
use wasmparser::entity_type::EntityType;
use wasmparser::export::{Export, ExternalKind};
use wasmparser::imports::Imports;
use wasmparser::index::CoreTypeId;
use wasmparser::parser::Parser;
use wasmparser::payload::Payload;
use wasmparser::ref_type::RefType;
use wasmparser::types::TypesRef;
use wasmparser::val_type::ValType;

/// The items that are shown of a module: the kinds of its types, the ids of its types and of their supertypes, the types of its element segments, the first
/// item of each index space, its exports and imports, or its imports with their names. A function and a tag show the id of their type, and how many parameters
/// and results it has. In rows of own ids types aren't canonicalized.
pub const SHOWN: &str = "
    types | 0061736d01000000 01 0b 03 60 00 00 5f 01 7f 00 5e 7f 00 | func struct array
    types | 0061736d01000000 | 
    ids | 0061736d01000000 01 0b 03 60 00 00 60 01 7f 00 60 00 00 | 0 1 0
    own ids | 0061736d01000000 01 0b 03 60 00 00 60 01 7f 00 60 00 00 | 0 1 2
    ids | 0061736d01000000 01 11 02 4e 02 60 00 00 60 00 00 4e 02 60 00 00 60 00 00 | 0 1 0 1
    ids | 0061736d01000000 01 0c 02 60 00 00 4e 02 60 00 00 60 00 00 | 0 1 2
    ids | 0061736d01000000 01 09 02 60 00 00 4e 01 60 00 00 | 0 0
    ids | 0061736d01000000 01 08 03 4e 00 60 00 00 4e 00 | 0
    ids | 0061736d01000000 01 09 02 60 00 00 50 00 60 00 00 | 0 1
    ids | 0061736d01000000 01 0b 02 5f 01 63 00 00 5f 01 63 01 00 | 0 0
    ids | 0061736d01000000 01 0b 02 5f 01 63 00 00 5f 01 63 00 00 | 0 1
    ids | 0061736d01000000 01 0a 02 5f 00 4e 02 5f 00 5e 7f 00 | 0 1 2
    ids | 0061736d01000000 01 07 02 5f 00 4e 01 5f 00 | 0 0
    ids | 0061736d01000000 01 19 02 4e 02 5f 01 63 01 00 5f 01 63 00 00 4e 02 5f 01 63 03 00 5f 01 63 02 00 | 0 1 0 1
    ids | 0061736d01000000 01 0c 02 60 02 7f 7e 01 7f 60 02 7e 7f 00 03 02 01 00 04 04 01 70 00 0a 05 04 01 01 01 05 0d 03 01 00 01 06 06 01 7f 01 41 00 0b 09 07 01 05 70 01 d2 00 0b 0a 06 01 04 00 41 00 0b | 0 1
    supertypes | 0061736d01000000 01 0c 02 50 00 5f 00 50 01 00 5f 01 7f 00 | - 0
    supertypes | 0061736d01000000 01 15 03 50 00 5f 00 50 00 5f 00 4e 02 50 01 01 5f 00 4f 01 02 5f 00 | - - 0 1
    items | 0061736d01000000 01 0c 02 60 02 7f 7e 01 7f 60 02 7e 7f 00 03 02 01 00 04 04 01 70 00 0a 05 04 01 01 01 05 0d 03 01 00 01 06 06 01 7f 01 41 00 0b 09 07 01 05 70 01 d2 00 0b 0a 06 01 04 00 41 00 0b | func #0 2 1; table funcref 10 None; memory 1 Some(5); global i32 true; tag #1 2 0
    elements | 0061736d01000000 01 0c 02 60 02 7f 7e 01 7f 60 02 7e 7f 00 03 02 01 00 04 04 01 70 00 0a 05 04 01 01 01 05 0d 03 01 00 01 06 06 01 7f 01 41 00 0b 09 07 01 05 70 01 d2 00 0b 0a 06 01 04 00 41 00 0b | funcref
    elements | 0061736d01000000 01 04 01 60 00 00 03 02 01 00 09 0b 02 01 00 01 00 05 70 01 d0 70 0b 0a 05 01 03 00 00 0b | ref funcref
    elements | 0061736d01000000 01 04 01 60 00 00 09 08 01 05 63 00 01 d0 00 0b | refnull
    exports | 0061736d01000000 05 03 01 00 01 07 09 02 01 61 02 00 01 62 02 00 | a memory 1 None; b memory 1 None
    exports | 0061736d01000000 01 0b 02 60 02 7f 7e 01 7d 60 01 7f 00 02 07 01 01 6d 01 66 00 01 03 02 01 00 04 05 01 70 01 02 05 05 04 01 01 01 03 0d 03 01 00 01 06 06 01 7e 01 42 00 0b 07 19 06 01 61 00 00 01 62 00 01 01 74 01 00 01 6d 02 00 01 67 03 00 01 65 04 00 0a 05 01 03 00 00 0b | a func #1 1 0; b func #0 2 1; t table funcref 2 Some(5); m memory 1 Some(3); g global i64 true; e tag #1 1 0
    exports | 0061736d01000000 01 03 01 5f 00 06 07 01 63 00 00 d0 00 0b 07 05 01 01 67 03 00 | g global refnull false
    imports | 0061736d01000000 01 0b 02 60 02 7f 7e 01 7d 60 01 7f 00 02 24 05 01 6d 01 66 00 01 01 6d 01 74 01 6f 00 04 01 6d 01 6d 02 00 03 01 6d 01 67 03 7f 00 01 6d 01 65 04 00 01 | func #1 1 0; table externref 4 None; memory 3 None; global i32 false; tag #1 1 0
    named | 0061736d01000000 | 
    named | 0061736d01000000 01 04 01 60 00 00 02 15 03 01 6d 01 61 00 00 01 6e 01 62 02 00 01 01 6d 01 61 03 7f 00 | m.a func #0 0 0; m.a global i32 false; n.b memory 1 None
    named | 0061736d01000000 02 19 03 01 61 02 62 63 02 00 01 02 61 62 01 63 03 7f 00 01 61 02 62 63 03 7f 01 | a.bc memory 1 None; a.bc global i32 true; ab.c global i32 false
    named | 0061736d01000000 01 04 01 60 00 00 02 0f 01 01 6d 00 7f 02 01 61 00 00 01 62 02 00 01 | m.a func #0 0 0; m.b memory 1 None
    named | 0061736d01000000 02 14 02 01 6d 00 7e 03 7f 00 02 01 61 01 62 01 6d 01 61 02 00 01 | m.a global i32 false; m.a memory 1 None; m.b global i32 false
";

fn type_text(alloc: Global, view: TypesRef<'_>, word: &str, id: CoreTypeId) -> Option<String> {
    let ty = view.get(id)?.composite_type.as_func()?;
    let (params, results) = (ty.params().len(), ty.results().len());
    format!(in alloc; "{word} #{} {params} {results}", id.index()).ok()
}

fn word_of(ty: ValType) -> &'static str {
    match ty {
        ValType::I32 => "i32",
        ValType::I64 => "i64",
        ValType::Ref(ty) => word_of_reference(ty),
        _ => "another",
    }
}

fn word_of_reference(ty: RefType) -> &'static str {
    if ty == RefType::FUNCREF {
        "funcref"
    } else if ty == RefType::EXTERNREF {
        "externref"
    } else if ty.is_nullable() {
        "refnull"
    } else {
        "ref"
    }
}

fn entity_text(alloc: Global, view: TypesRef<'_>, entity: EntityType) -> Option<String> {
    let text = match entity {
        EntityType::Func(id) => return type_text(alloc, view, "func", id),
        EntityType::Tag(id) => return type_text(alloc, view, "tag", id),
        EntityType::Table(ty) => {
            let word = word_of_reference(ty.element_type);
            format!(in alloc; "table {word} {} {:?}", ty.initial, ty.maximum)
        }
        EntityType::Memory(ty) => format!(in alloc; "memory {} {:?}", ty.initial, ty.maximum),
        EntityType::Global(ty) => {
            let word = word_of(ty.content_type);
            format!(in alloc; "global {word} {}", ty.mutable)
        }
    };
    text.ok()
}

// Returns the item of a kind with an index, by the call for its kind.
fn entity_at(view: TypesRef<'_>, kind: ExternalKind, index: u32) -> Option<EntityType> {
    match kind {
        ExternalKind::Func if index < view.function_count() => {
            Some(EntityType::Func(view.core_function_at(index)))
        }
        ExternalKind::Table if index < view.table_count() => {
            Some(EntityType::Table(view.table_at(index)))
        }
        ExternalKind::Memory if index < view.memory_count() => {
            Some(EntityType::Memory(view.memory_at(index)))
        }
        ExternalKind::Global if index < view.global_count() => {
            Some(EntityType::Global(view.global_at(index)))
        }
        ExternalKind::Tag if index < view.tag_count() => Some(EntityType::Tag(view.tag_at(index))),
        _ => None,
    }
}

// Checks that an item is what the text says. None where memory runs out.
fn is_shown(alloc: Global, view: TypesRef<'_>, entity: EntityType, text: &str) -> Option<bool> {
    let shown = entity_text(alloc, view, entity)?;
    Some(shown.as_str() == text)
}

// Returns the texts after that of the first item of a kind, which is what its text says; all of them where there is no such item.
fn shown_item<'a>(
    alloc: Global,
    view: TypesRef<'_>,
    kind: ExternalKind,
    texts: &'a str,
) -> Option<&'a str> {
    let Some(entity) = entity_at(view, kind, 0) else {
        return Some(texts);
    };
    let (text, rest) = texts.split_once("; ").unwrap_or((texts, ""));
    if is_shown(alloc, view, entity, text)? {
        Some(rest)
    } else {
        None
    }
}

// Checks that the first item of each index space that has one is what the text says.
fn has_items(alloc: Global, view: TypesRef<'_>, expected: &str) -> Option<bool> {
    let texts = shown_item(alloc, view, ExternalKind::Func, expected)?;
    let texts = shown_item(alloc, view, ExternalKind::Table, texts)?;
    let texts = shown_item(alloc, view, ExternalKind::Memory, texts)?;
    let texts = shown_item(alloc, view, ExternalKind::Global, texts)?;
    let texts = shown_item(alloc, view, ExternalKind::Tag, texts)?;
    Some(texts.is_empty())
}

// Checks that an export is what the text says, a name and what it stands for.
fn is_export(
    alloc: Global,
    view: TypesRef<'_>,
    export: &Export<'_>,
    expected: &str,
) -> Option<bool> {
    let Some((name, text)) = expected.split_once(' ') else {
        return Some(false);
    };
    let Some(entity) = view.entity_type_from_export(export) else {
        return Some(false);
    };
    let Some(found) = entity_at(view, export.kind, export.index) else {
        return Some(false);
    };
    if name != export.name || entity != found {
        return Some(false);
    }
    is_shown(alloc, view, entity, text)
}

fn has_exports(alloc: Global, view: TypesRef<'_>, expected: &str) -> Option<bool> {
    let mut exports = view.core_exports()?;
    for text in expected.split("; ") {
        let Some(export) = exports.next() else {
            return Some(false);
        };
        if !is_export(alloc, view, &export, text)? {
            return Some(false);
        }
    }
    Some(exports.next().is_none())
}

// Checks that the single imports of a module are what the text says.
fn has_imports(alloc: Global, view: TypesRef<'_>, bytes: &[u8], expected: &str) -> Option<bool> {
    let mut texts = expected.split("; ");
    for payload in Parser::new(0).parse_all(bytes) {
        let Ok(Payload::ImportSection(section)) = payload else {
            continue;
        };
        for entry in section.into_iter(alloc) {
            let Ok(Imports::Single(_, import)) = entry else {
                return None;
            };
            let entity = view.entity_type_from_import(&import)?;
            if entity_text(alloc, view, entity)?.as_str() != texts.next()? {
                return Some(false);
            }
        }
    }
    Some(texts.next().is_none())
}

// Checks that an import is what the text says, its two names and its type.
fn is_import(
    alloc: Global,
    view: TypesRef<'_>,
    names: [&str; 2],
    entity: EntityType,
    expected: &str,
) -> Option<bool> {
    let (name, text) = expected.split_once(' ')?;
    let (module, name) = name.split_once('.')?;
    let is_shown = is_shown(alloc, view, entity, text)?;
    Some(module == names[0] && name == names[1] && is_shown)
}

// Checks that the imports with their names are what the text says.
fn has_named_imports(alloc: Global, view: TypesRef<'_>, expected: &str) -> Option<bool> {
    let mut imports = view.core_imports().ok()??;
    for text in expected.split("; ") {
        if text.is_empty() {
            continue;
        }
        let Some((module, name, entity)) = imports.next() else {
            return Some(false);
        };
        if !is_import(alloc, view, [module, name], entity, text)? {
            return Some(false);
        }
    }
    Some(imports.next().is_none())
}

fn has_types(view: TypesRef<'_>, expected: &str) -> Option<bool> {
    let mut words = expected.split_whitespace();
    for index in 0..view.core_type_count_in_module() {
        let ty = view.get(view.core_type_at_in_module(index))?;
        let word = match &ty.composite_type {
            CompositeType::Func(_) => "func",
            CompositeType::Array(_) => "array",
            CompositeType::Struct(_) => "struct",
            CompositeType::Cont(_) => "cont",
        };
        if words.next() != Some(word) {
            return Some(false);
        }
    }
    Some(words.next().is_none())
}

fn has_ids(view: TypesRef<'_>, expected: &str) -> Option<bool> {
    let mut words = expected.split_whitespace();
    for index in 0..view.core_type_count_in_module() {
        let id = view.core_type_at_in_module(index).index() as u64;
        if number_of(words.next()?)? != id {
            return Some(false);
        }
    }
    Some(words.next().is_none())
}

// Checks that the supertypes of the types have these ids, `-` where a type has none.
fn has_supertypes(view: TypesRef<'_>, expected: &str) -> Option<bool> {
    let mut words = expected.split_whitespace();
    for index in 0..view.core_type_count_in_module() {
        let above = match view.supertype_of(view.core_type_at_in_module(index)) {
            Some(id) => Some(id.index() as u64),
            None => None,
        };
        if number_of(words.next()?) != above {
            return Some(false);
        }
    }
    Some(words.next().is_none())
}

fn has_elements(view: TypesRef<'_>, expected: &str) -> bool {
    let mut words = expected.split_whitespace();
    for index in 0..view.element_count() {
        if words.next() != Some(word_of_reference(view.element_at(index))) {
            return false;
        }
    }
    words.next().is_none()
}

fn features_for(kind: &str) -> WasmFeatures {
    if kind != "own ids" {
        return WasmFeatures::all();
    }
    let canonical = WasmFeatures::GC
        .union(WasmFeatures::FUNCTION_REFERENCES)
        .union(WasmFeatures::STACK_SWITCHING);
    WasmFeatures::all().difference(canonical)
}

// Checks that a view of a module has what a row says. None where memory runs out.
fn has(alloc: Global, view: TypesRef<'_>, bytes: &[u8], row: &str) -> Option<bool> {
    let (kind, _, expected) = three_fields(row)?;
    match kind {
        "types" => has_types(view, expected),
        "ids" | "own ids" => has_ids(view, expected),
        "supertypes" => has_supertypes(view, expected),
        "items" => has_items(alloc, view, expected),
        "elements" => Some(has_elements(view, expected)),
        "exports" => has_exports(alloc, view, expected),
        "imports" => has_imports(alloc, view, bytes, expected),
        "named" => has_named_imports(alloc, view, expected),
        _ => None,
    }
}

/// Checks a row. None where memory runs out.
pub fn holds(alloc: Global, row: &str) -> Option<bool> {
    let (kind, bytes, _) = three_fields(row)?;
    on_types(
        alloc,
        features_for(kind),
        &bytes_of(alloc, bytes)?,
        row,
        has,
    )
}

#[test]
fn modules_show_what_they_have(rt: HostRuntime) -> Result<(), Fail> {
    Ok(check_rows(rt.alloc(), SHOWN, 30, holds)?)
}
