//! Types in words. A number or vector type is its name. A reference to a heap type is the name or index of that type, followed by `?` where it may be
//! null: `func?`, `7`. A function type is `i32 i64 -> f32`.

ghost use Rattle.std.specs.Prelude.{◌≡◌, IfSome};
ghost use Rattle.wasm_test_types.specs.TypeWords.{heap_word, number_word, packed_word};

use std::alloc::Global;
use wasm_core_types::types::{
    AbstractHeapType, ArrayType, CompositeType, ContType, FieldType, FuncType, HeapType, RefType,
    StorageType, StructType, SubType, ValType,
};
use wasm_test_rows::fields::word_and_rest;

// Returns the abstract heap type of this name.
fn abstract_heap_type_of(word: &str) -> Option<AbstractHeapType>
    ensures { IfSome result (λ type. heap_word type ≡ word.now) }
{
    match word {
        "func" => Some(AbstractHeapType::Func),
        "extern" => Some(AbstractHeapType::Extern),
        "any" => Some(AbstractHeapType::Any),
        "none" => Some(AbstractHeapType::None),
        "noextern" => Some(AbstractHeapType::NoExtern),
        "nofunc" => Some(AbstractHeapType::NoFunc),
        "eq" => Some(AbstractHeapType::Eq),
        "struct" => Some(AbstractHeapType::Struct),
        "array" => Some(AbstractHeapType::Array),
        "i31" => Some(AbstractHeapType::I31),
        "exn" => Some(AbstractHeapType::Exn),
        "noexn" => Some(AbstractHeapType::NoExn),
        "cont" => Some(AbstractHeapType::Cont),
        "nocont" => Some(AbstractHeapType::NoCont),
        _ => None,
    }
}

// Returns the heap type of this name or index.
fn heap_type_of(word: &str) -> Option<HeapType> {
    match word.parse() {
        Ok(index) => Some(HeapType::Concrete(index)),
        Err(_) => Some(HeapType::Abstract(abstract_heap_type_of(word)?)),
    }
}

// Returns the reference type of this word.
fn ref_type_of(word: &str) -> Option<RefType> {
    let name = word.strip_suffix('?').unwrap_or(word);
    Some(RefType {
        nullable: name.len() < word.len(),
        heap_type: heap_type_of(name)?,
    })
}

/// Returns a value type.
pub fn val_type_of(word: &str) -> Option<ValType>
    ensures { IfSome result (λ type. IfSome (number_word type) (λ it. it ≡ word.now)) }
{
    match word {
        "i32" => Some(ValType::I32),
        "i64" => Some(ValType::I64),
        "f32" => Some(ValType::F32),
        "f64" => Some(ValType::F64),
        "v128" => Some(ValType::V128),
        _ => Some(ValType::Ref(ref_type_of(word)?)),
    }
}

/// Returns value types with spaces between them. A type may be followed by how often it stands there: `i64*20`.
pub fn val_types_of(alloc: Global, field: &str) -> Option<Vec<ValType>> {
    let mut types = Vec::new(alloc);
    for word in field.split_whitespace() {
        let (name, count) = word.split_once('*').unwrap_or((word, "1"));
        let val_type = val_type_of(name)?;
        for _ in 0..count.parse::<u32>().ok()? {
            types.push(val_type).ok()?;
        }
    }
    Some(types)
}

/// Returns a function type: its parameters, `->`, and its results.
pub fn func_type_of(alloc: Global, field: &str) -> Option<FuncType> {
    let (params, results) = field.split_once("->")?;
    let params = val_types_of(alloc, params)?;
    Some(FuncType::new(params, val_types_of(alloc, results)?))
}

// Returns what a field holds.
fn storage_type_of(word: &str) -> Option<StorageType>
    ensures { IfSome result (λ type. IfSome (packed_word type) (λ it. it ≡ word.now)) }
{
    match word {
        "i8" => Some(StorageType::I8),
        "i16" => Some(StorageType::I16),
        _ => Some(StorageType::Val(val_type_of(word)?)),
    }
}

// Returns a field: what it holds, after `mut:` where it can be set.
fn field_type_of(word: &str) -> Option<FieldType> {
    let name = word.strip_prefix("mut:").unwrap_or(word);
    Some(FieldType {
        element_type: storage_type_of(name)?,
        mutable: name.len() < word.len(),
    })
}

/// Fields of a structure, with spaces between them: `i8 mut:i16 func?`.
pub fn field_types_of(alloc: Global, field: &str) -> Option<Vec<FieldType>> {
    let mut types = Vec::new(alloc);
    for word in field.split_whitespace() {
        types.push(field_type_of(word)?).ok()?;
    }
    Some(types)
}

// Returns a composite type: `func`, `struct`, `array` or `cont`, and what it is made of.
fn composite_type_of(alloc: Global, field: &str) -> Option<CompositeType> {
    let (kind, rest) = word_and_rest(field);
    match kind {
        "func" => Some(CompositeType::Func(func_type_of(alloc, rest)?)),
        "struct" => Some(CompositeType::Struct(StructType::new(field_types_of(alloc, rest)?))),
        "array" => Some(CompositeType::Array(ArrayType(field_type_of(rest)?))),
        "cont" => Some(CompositeType::Cont(ContType(rest.parse().ok()?))),
        _ => None,
    }
}

// Returns the index after `sub`, where that stands in front, and what is left.
fn supertype_of(field: &str) -> Option<(Option<u32>, &str)> {
    match word_and_rest(field) {
        ("sub", rest) => {
            let (index, left) = word_and_rest(rest);
            Some((Some(index.parse().ok()?), left))
        }
        _ => Some((None, field)),
    }
}

/// Returns a sub type: `open` where it isn't final, `sub` and an index where it has a supertype, and its composite type.
pub fn sub_type_of(alloc: Global, field: &str) -> Option<SubType> {
    let (is_final, rest) = match word_and_rest(field) {
        ("open", rest) => (false, rest),
        _ => (true, field),
    };
    let (supertype_idx, shape) = supertype_of(rest)?;
    Some(SubType {
        is_final,
        supertype_idx,
        composite_type: composite_type_of(alloc, shape)?,
    })
}

/// Returns sub types with commas between them, or none.
pub fn sub_types_of(alloc: Global, field: &str) -> Option<Vec<SubType>> {
    let mut types = Vec::new(alloc);
    if field.trim().is_empty() {
        return Some(types);
    }
    for part in field.split(',') {
        types.push(sub_type_of(alloc, part)?).ok()?;
    }
    Some(types)
}

// Appends a group of these types so many times.
fn push_groups(
    alloc: Global,
    groups: &mut Vec<Vec<SubType>>,
    types: &str,
    count: u32,
) -> Option<()> {
    for _ in 0..count {
        groups.push(sub_types_of(alloc, types)?).ok()?;
    }
    Some(())
}

/// Groups of sub types, with `;` after each. The types may be followed by how often such a group stands there: `func -> * 20;`.
pub fn groups_of(alloc: Global, field: &str) -> Option<Vec<Vec<SubType>>> {
    let mut groups = Vec::new(alloc);
    for group in field.split_terminator(';') {
        let (types, count) = group.split_once(" * ").unwrap_or((group, "1"));
        push_groups(alloc, &mut groups, types, count.parse().ok()?)?;
    }
    Some(groups)
}
