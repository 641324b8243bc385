//! Answers of the example.

use std::alloc::Global;
use std::rc::Rc;
use std::test::Fail;
use wasm_core_types::features::{Flags, WasmFeatures};
use wasm_test_rows::fields::{three_fields, two_fields, word_and_rest};
use wasm_test_rows::rows::check_rows;
use wasm_test_rows::values::bool_of;
use wasmparser_bodies::module_resources::WasmModuleResources;
use wasmparser_error::error::{Error, ErrorKind};
use wasmparser_readers::val_type::val_is_of_module;
use wasmparser_type_words::types::{id_of, sub_type_of, val_type_of};
use wasmparser_types::index::CoreTypeId;
use wasmparser_types::val_type::ValType;
use wasmparser_validation_rows::listed_resources::ListedResources;

// The place in the bytes that calls are handed.
const OFFSET: u64 = 7;

// Questions and their answers, by the first word of a row.
const QUESTIONS: &str = "
    // kinds of items, indexes, and the types of the items, `-` where there is none. Indexes of 64 bits, and what can be set, have a `mut:`.
    item | table | 0 | funcref
    item | table | 1 | mut:externref
    item | table | 2 | anyref
    item | table | 3 | #1?
    item | table | 4 | -
    item | table | 4294967295 | -
    item | memory | 0 | i32
    item | memory | 1 | mut:i32
    item | memory | 2 | -
    item | global | 0 | i32
    item | global | 1 | mut:i64
    item | global | 2 | mut:funcref
    item | global | 3 | #8
    item | global | 4 | -
    item | element | 0 | funcref
    item | element | 1 | externref
    item | element | 2 | -

    // type indexes, and their types.
    type | 0 | func ->
    type | 1 | func i32 i64 -> i32
    type | 2 | func -> i32 i64
    type | 3 | struct i32 mut:i8 funcref
    type | 4 | array mut:i64
    type | 5 | struct func
    type | 8 | func ->
    type | 9 | open : struct i32
    type | 10 | #8 : struct i32 i64
    type | 11 | func #8? -> #8
    type | 12 | -
    type | 4294967295 | -

    // functions: their indexes; type indexes and ids of types, or `-`; and whether each is declared and of an exact type.
    function | 0 | 0 #1 | yes no
    function | 1 | 1 #2 | no yes
    function | 2 | 2 #4 | yes yes
    function | 3 | 7 #7 | no yes
    function | 4 | 11 #10 | yes yes
    function | 5 | - | no no
    function | 4294967295 | - | no no

    // value types, what they become, `-` where they stand for nothing, and what is above them.
    written | i32 | i32 | i32
    written | v128 | v128 | v128
    written | funcref | funcref | funcref
    written | func | func | funcref
    written | eqref | eqref | anyref
    written | i31ref | i31ref | anyref
    written | externref | externref | externref
    written | 0? | #1? | funcref
    written | 8 | #1 | funcref
    written | 3? | #3? | anyref
    written | 4 | #0 | anyref
    written | 11 | #10 | funcref
    written | 12? | - | -
    written | 1000 | - | -

    // types, and whether the first is below the second.
    below | i32 i32 | yes
    below | i32 i64 | no
    below | f32 f64 | no
    below | v128 v128 | yes
    below | i32 funcref | no
    below | funcref i32 | no
    below | func funcref | yes
    below | funcref func | no
    below | funcref externref | no
    below | i31ref eqref | yes
    below | eqref anyref | yes
    below | anyref eqref | no
    below | #1 funcref | yes
    below | #1? func | no
    below | #1 #1? | yes
    below | #1? #1 | no
    below | #1 #2 | no
    below | #9 #8 | yes
    below | #8 #9 | no
    below | #9? #8 | no
    below | #3? eqref | yes
    below | #0 anyref | yes
    below | #0 i31ref | no
    below | #5 funcref | no
    below | func #1 | no
    below | #77 anyref | yes
";

// Returns an item's type, and what `mut:` says of it.
fn item_at<R: WasmModuleResources>(resources: &R, kind: &str, at: u32) -> Option<(ValType, bool)> {
    match kind {
        "table" => match resources.table_at(at) {
            Some(it) => Some((ValType::Ref(it.element_type), it.table64)),
            None => None,
        },
        "memory" => match resources.memory_at(at) {
            Some(it) => Some((ValType::I32, it.memory64)),
            None => None,
        },
        "global" => match resources.global_at(at) {
            Some(it) => Some((it.content_type, it.mutable)),
            None => None,
        },
        _ => match resources.element_type_at(at) {
            Some(it) => Some((ValType::Ref(it), false)),
            None => None,
        },
    }
}

fn item_holds<R: WasmModuleResources>(resources: &R, row: &str) -> Option<bool> {
    let (kind, at, expected) = three_fields(row)?;
    match item_at(resources, kind, at.parse().ok()?) {
        Some((ty, flag)) => {
            let word = expected.strip_prefix("mut:").unwrap_or(expected);
            Some(val_type_of(word) == Some(ty) && flag == (word.len() < expected.len()))
        }
        None => Some(expected == "-"),
    }
}

fn type_holds<R: WasmModuleResources>(alloc: Global, resources: &R, row: &str) -> Option<bool> {
    let (index, expected) = two_fields(row)?;
    match resources.sub_type_at(index.parse().ok()?) {
        Some(it) => Some(*it == sub_type_of(alloc, expected)?),
        None => Some(expected == "-"),
    }
}

fn function_holds<R: WasmModuleResources>(resources: &R, row: &str) -> Option<bool> {
    let (index, ids, answers) = three_fields(row)?;
    let function = index.parse().ok()?;
    let (type_index, id) = word_and_rest(ids);
    let (is_declared, is_exact) = word_and_rest(answers);
    Some(
        Some(resources.is_function_referenced(function)) == bool_of(is_declared)
            && Some(resources.has_function_exact_type(function)) == bool_of(is_exact)
            && resources.type_index_of_function(function) == type_index.parse().ok()
            && resources.type_id_of_function(function) == id_of(id),
    )
}

fn top_of<R: WasmModuleResources>(resources: &R, ty: &ValType, top: &ValType) -> bool {
    match (ty, top) {
        (ValType::Ref(a), ValType::Ref(b)) => resources.top_type(&a.heap_type()) == b.heap_type(),
        _ => ty == top,
    }
}

// Checks that a type becomes another under some features, or stays as it is and is refused.
fn becomes<R: WasmModuleResources>(
    resources: &R,
    written: &ValType,
    features: &WasmFeatures,
    expected: Option<ValType>,
) -> bool {
    if !val_is_of_module(written) {
        return false;
    }
    let mut ty = *written;
    match resources.check_value_type(&mut ty, features, OFFSET) {
        Ok(()) => Some(ty) == expected,
        Err(Error { offset, kind }) => {
            expected.is_none() && ty == *written && offset == OFFSET && kind == ErrorKind::Invalid
        }
    }
}

fn written_holds<R: WasmModuleResources>(resources: &R, row: &str) -> Option<bool> {
    let (word, meant, top) = three_fields(row)?;
    let ty = val_type_of(word)?;
    let meant = val_type_of(meant);
    let is_below_top = match (&meant, val_type_of(top)) {
        (Some(it), Some(top)) => top_of(resources, it, &top) && resources.is_subtype(*it, top),
        (None, None) => true,
        _ => false,
    };
    let features = WasmFeatures::default();
    let none = features.difference(WasmFeatures::GC);
    let is_refused = becomes(resources, &ty, &none, None);
    let is_of_gc = word == "eqref" || word == "i31ref" || meant.is_none();
    Some(is_below_top && becomes(resources, &ty, &features, meant) && is_refused == is_of_gc)
}

fn below_holds<R: WasmModuleResources>(resources: &R, row: &str) -> Option<bool> {
    let (types, expected) = two_fields(row)?;
    let (a, b) = word_and_rest(types);
    let is_below = resources.is_subtype(val_type_of(a)?, val_type_of(b)?);
    Some(Some(is_below) == bool_of(expected))
}

// Checks the parameters of tags, and what is counted.
fn counts_hold<R: WasmModuleResources>(resources: &R) -> bool {
    let are_tags = match (
        resources.tag_at(0),
        resources.tag_at(1),
        resources.tag_at(2),
    ) {
        (Some(a), Some(b), None) => a.params().is_empty() && b.params().len() == 1,
        _ => false,
    };
    are_tags && resources.element_count() == 2 && resources.data_count() == Some(2)
}

fn holds<R: WasmModuleResources>(alloc: Global, resources: &R, row: &str) -> Option<bool> {
    let (kind, fields) = row.split_once('|')?;
    match kind.trim() {
        "item" => item_holds(resources, fields),
        "type" => type_holds(alloc, resources, fields),
        "function" => function_holds(resources, fields),
        "written" => written_holds(resources, fields),
        "below" => below_holds(resources, fields),
        _ => None,
    }
}

fn rows_hold<R: WasmModuleResources>(alloc: Global, resources: &R) -> Result<(), &'static str> {
    check_rows(
        alloc,
        QUESTIONS,
        76,
        |alloc, row| holds(alloc, resources, row),
    )
}

// Checks that ids stand for the types of type indexes, and an id past the list for a structure without fields.
fn ids_hold(resources: &ListedResources) -> bool {
    let by_reference = &resources;
    let (first, last) = (CoreTypeId::from_index(1), CoreTypeId::from_index(77));
    let are_told = match resources.sub_type_at(8) {
        Some(it) => {
            *it == *resources.sub_type_at_id(first) && *it == *by_reference.sub_type_at_id(first)
        }
        None => false,
    };
    let other = by_reference.sub_type_at_id(last).composite_type.as_struct();
    are_told && other.is_some()
}

// Checks that the first id stands for an array, where the example is shared.
fn is_array(shared: &Rc<ListedResources>) -> bool {
    let first = shared.sub_type_at_id(CoreTypeId::from_index(0));
    first.composite_type.as_array().is_some()
}

// Checks that the example answers by itself, by reference and where it is shared.
fn all_hold(alloc: Global, shared: &Rc<ListedResources>) -> Result<(), &'static str> {
    let resources: &ListedResources = shared;
    rows_hold(alloc, resources)?;
    rows_hold(alloc, &resources)?;
    rows_hold(alloc, shared)?;
    if counts_hold(&resources) && counts_hold(shared) && ids_hold(resources) && is_array(shared) {
        Ok(())
    } else {
        Err("what is counted, or what ids stand for")
    }
}

#[test]
fn the_example_answers(rt: HostRuntime) -> Result<(), Fail> {
    let alloc = rt.alloc();
    let Some(resources) = ListedResources::example(alloc) else {
        assert!(rt; false);
        return Ok(());
    };
    let shared = Rc::new(alloc, resources)?;
    let result = all_hold(alloc, &shared);
    drop(shared);
    Ok(result?)
}
