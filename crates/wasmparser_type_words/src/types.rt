//! Types in words. A number or vector type is its name, as is a reference to what is no defined type (`funcref`). A reference to a defined type is its
//! place in the group (`own.1`), its id (`#1`) or its index in a module (`1`), followed by `?` where it may be null. A function type is `i32 #1? -> f32`.

use crate::names::named_val_type;
use std::alloc::Global;
use wasm_test_rows::fields::word_and_rest;
use wasmparser_types::composite_type::{ArrayType, CompositeType, ContType, FuncType, StructType};
use wasmparser_types::index::{CoreTypeId, PackedIndex};
use wasmparser_types::ref_type::RefType;
use wasmparser_types::sub_type::{RecGroup, SubType};
use wasmparser_types::val_type::{FieldType, StorageType, ValType};

/// Returns the id after `#`.
pub fn id_of(word: &str) -> Option<CoreTypeId> {
    Some(CoreTypeId::from_index(word.strip_prefix('#')?.parse().ok()?))
}

/// Checks that these are the ids, in words.
pub fn are_ids(ids: &[CoreTypeId], expected: &str) -> bool {
    let mut words = expected.split_whitespace();
    for id in ids {
        match words.next() {
            Some(word) if id_of(word) == Some(*id) => {}
            _ => return false,
        }
    }
    words.next().is_none()
}

/// Returns an id, the place after `own.`, or an index in a module.
pub fn index_of(word: &str) -> Option<PackedIndex> {
    if let Some(place) = word.strip_prefix("own.") {
        return PackedIndex::from_rec_group_index(place.parse().ok()?);
    }
    match id_of(word) {
        Some(id) => PackedIndex::from_id(id),
        None => PackedIndex::from_module_index(word.parse().ok()?),
    }
}

/// Returns a value type.
pub fn val_type_of(word: &str) -> Option<ValType> {
    if let Some(it) = named_val_type(word) {
        return Some(it);
    }
    let name = word.strip_suffix('?').unwrap_or(word);
    let is_nullable = name.len() < word.len();
    Some(ValType::Ref(RefType::concrete(is_nullable, index_of(name)?)))
}

fn val_types_of(alloc: Global, field: &str) -> Option<Vec<ValType>> {
    let mut types = Vec::new(alloc);
    for word in field.split_whitespace() {
        types.push(val_type_of(word)?).ok()?;
    }
    Some(types)
}

/// Returns a function type: its parameters, `->`, and its results.
pub fn func_type_of(alloc: Global, field: &str) -> Option<FuncType> {
    let (params, results) = field.split_once("->")?;
    let params = val_types_of(alloc, params)?;
    Some(FuncType::new(params, val_types_of(alloc, results)?))
}

// Fields with spaces between them, each after `mut:` where it can be set.
fn fields_of(alloc: Global, field: &str) -> Option<Vec<FieldType>> {
    let mut fields = Vec::new(alloc);
    for word in field.split_whitespace() {
        let name = word.strip_prefix("mut:").unwrap_or(word);
        let element_type = match name {
            "i8" => StorageType::I8,
            "i16" => StorageType::I16,
            _ => StorageType::Val(val_type_of(name)?),
        };
        let mutable = name.len() < word.len();
        fields
            .push(FieldType {
                element_type,
                mutable,
            })
            .ok()?;
    }
    Some(fields)
}

// Returns a composite type: `func`, `struct`, `array` or `cont`, and what it is made of.
fn composite_type_of(alloc: Global, field: &str) -> Option<CompositeType> {
    let (kind, rest) = word_and_rest(field);
    match kind {
        "func" => Some(CompositeType::Func(func_type_of(alloc, rest)?)),
        "struct" => {
            let fields = fields_of(alloc, rest)?;
            Some(CompositeType::Struct(StructType { fields }))
        }
        "array" => Some(CompositeType::Array(ArrayType(fields_of(alloc, rest)?.pop()?))),
        "cont" => Some(CompositeType::Cont(ContType(index_of(rest)?))),
        _ => None,
    }
}

fn indexes_of(alloc: Global, field: &str) -> Option<Vec<PackedIndex>> {
    let mut indexes = Vec::new(alloc);
    for word in field.split_whitespace() {
        indexes.push(index_of(word)?).ok()?;
    }
    Some(indexes)
}

/// Returns a sub type: its composite type. In front of that and ` : ` stand `open`, where it isn't final, and its supertypes.
pub fn sub_type_of(alloc: Global, field: &str) -> Option<SubType> {
    let (head, shape) = field.split_once(" : ").unwrap_or(("", field));
    let supertypes = head.trim().strip_prefix("open");
    let is_final = supertypes.is_none();
    let supertype_idxs = indexes_of(alloc, supertypes.unwrap_or(head))?;
    let composite_type = composite_type_of(alloc, shape)?;
    Some(SubType {
        is_final,
        supertype_idxs,
        composite_type,
    })
}

/// Returns the sub types of a field with commas between them, or none.
pub fn sub_types_of(alloc: Global, field: &str) -> Option<Vec<SubType>> {
    let mut types = Vec::new(alloc);
    for part in field.split_terminator(',') {
        types.push(sub_type_of(alloc, part)?).ok()?;
    }
    Some(types)
}

/// Returns a group: the word `single` and a sub type, or `group` or `apart` and sub types.
pub fn group_of(alloc: Global, word: &str, types: &str) -> Option<RecGroup> {
    match word {
        "single" => Some(RecGroup::implicit(sub_type_of(alloc, types)?)),
        "group" | "apart" => Some(RecGroup::explicit(sub_types_of(alloc, types)?)),
        _ => None,
    }
}
