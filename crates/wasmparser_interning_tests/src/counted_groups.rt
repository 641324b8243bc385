//! Types that are counted, as those that reach the limits on the types of a section and that pass them.

use std::alloc::Global;
use wasm_test_rows::fields::word_and_rest;
use wasmparser_types::composite_type::{CompositeType, FuncType, StructType};
use wasmparser_types::index::PackedIndex;
use wasmparser_types::sub_type::{RecGroup, SubType};
use wasmparser_types::val_type::{FieldType, StorageType, ValType};

// Returns the index of the last type of so many, if there is one.
fn last_of(count: usize) -> Option<PackedIndex> {
    PackedIndex::from_module_index(u32::try_from(count.checked_sub(1)?).ok()?)
}

// Returns an open structure without fields below the last type of so many.
fn below(alloc: Global, count: usize) -> Option<RecGroup> {
    let mut supertype_idxs = Vec::new(alloc);
    if let Some(index) = last_of(count) {
        supertype_idxs.push(index).ok()?;
    }
    Some(RecGroup::implicit(SubType {
        is_final: false,
        supertype_idxs,
        composite_type: CompositeType::Struct(StructType {
            fields: Vec::new(alloc),
        }),
    }))
}

fn numbers(alloc: Global, count: usize) -> Option<Vec<ValType>> {
    vec![in alloc; ValType::I32; count].ok()
}

fn func(alloc: Global, counts: &str) -> Option<RecGroup> {
    let (params, results) = word_and_rest(counts);
    let params = numbers(alloc, params.parse().ok()?)?;
    let results = numbers(alloc, results.parse().ok()?)?;
    Some(RecGroup::implicit(SubType::func(alloc, FuncType::new(params, results))))
}

fn structure(alloc: Global, count: usize) -> Option<RecGroup> {
    let field = FieldType {
        element_type: StorageType::I8,
        mutable: false,
    };
    let fields = vec![in alloc; field; count].ok()?;
    Some(RecGroup::implicit(SubType {
        is_final: true,
        supertype_idxs: Vec::new(alloc),
        composite_type: CompositeType::Struct(StructType { fields }),
    }))
}

/// Returns a group of one type that is counted, in a section of so many types: `below` is an open structure without fields below the last one, `func` a function type of so
/// many parameters and results, and `struct` a structure of so many fields.
pub fn counted_group(alloc: Global, count: usize, words: &str) -> Option<RecGroup> {
    let (kind, counts) = word_and_rest(words);
    match kind {
        "below" => below(alloc, count),
        "func" => func(alloc, counts),
        "struct" => structure(alloc, counts.parse().ok()?),
        _ => None,
    }
}
