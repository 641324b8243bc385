//! Recursive groups written out as numbers, by which equal groups are found.

ghost use Rattle.std.specs.Prelude.{◌≡◌, ◌++◌, ◌<◌, ◌^◌, IfOk, map};
ghost use Rattle.wasmparser_type_relations.specs.GroupKeys as spec;
ghost use Rattle.wasmparser_types.specs.CompositeTypes.{func_type, struct_fields, composite_type};
ghost use Rattle.wasmparser_types.specs.SubTypes.{sub_type};
ghost use Rattle.wasmparser_types.specs.ValTypes.{val_type, storage_type, field_type};

use std::alloc::{AllocError, Global};
use wasmparser_types::composite_type::{CompositeType, FuncType};
use wasmparser_types::index::PackedIndex;
use wasmparser_types::sub_type::SubType;
use wasmparser_types::val_type::{FieldType, StorageType, ValType};

// The number that ends a list. No item begins with it.
const END: u32 = 0;

// The number of a reference type is its bits, and this above them.
const FIRST_REF: u32 = 6;

// The first number of a sub type.
const OPEN: u32 = 1;

const FINAL: u32 = 2;

// The first number of a composite type.
const FUNC: u32 = 1;

const STRUCT: u32 = 2;

const ARRAY: u32 = 3;

const CONT: u32 = 4;

// Types that are written as one number, which is above `END`.

fn val_number(it: &ValType) -> u32
    ensures number { result ≡ spec.val_number (val_type it.now) }
    ensures small { result < 2 ^ 25 }
{
    match it {
        ValType::I32 => 1,
        ValType::I64 => 2,
        ValType::F32 => 3,
        ValType::F64 => 4,
        ValType::V128 => 5,
        ValType::Ref(it) => FIRST_REF + it.bits(),
    }
}

fn storage_number(it: &StorageType) -> u32
    ensures number { result ≡ spec.storage_number (storage_type it.now) }
    ensures small { result < 2 ^ 26 }
{
    match it {
        StorageType::I8 => 1,
        StorageType::I16 => 2,
        StorageType::Val(it) => 2 + val_number(it),
    }
}

fn field_number(it: &FieldType) -> u32
    ensures { result ≡ spec.field_number (field_type it.now) }
{
    2 * storage_number(&it.element_type) + u32::from(it.mutable)
}

fn index_number(it: &PackedIndex) -> u32
    ensures { result ≡ spec.index_number it.now }
{
    1 + it.bits()
}

// Appends the numbers of a list, and what ends it.
fn put_val_types(key: &mut Vec<u32>, types: &[ValType]) -> Result<(), AllocError>
    ensures { IfOk result (λ _. key.new.items ≡ key.old.items ++ spec.numbers spec.val_number (map val_type types.now)) }
{
    key.reserve(types.len())?;
    for it in types {
        key.push(val_number(it))?;
    }
    key.push(END)?;
    Ok(())
}

// Appends the numbers of fields, as `put_val_types` does those of value types.
fn put_fields(key: &mut Vec<u32>, fields: &[FieldType]) -> Result<(), AllocError>
    ensures { IfOk result (λ _. key.new.items ≡ key.old.items ++ spec.numbers spec.field_number (map field_type fields.now)) }
{
    key.reserve(fields.len())?;
    for it in fields {
        key.push(field_number(it))?;
    }
    key.push(END)?;
    Ok(())
}

// Appends the numbers of supertypes, as `put_val_types` does those of value types.
fn put_supertypes(key: &mut Vec<u32>, supertypes: &[PackedIndex]) -> Result<(), AllocError>
    ensures { IfOk result (λ _. key.new.items ≡ key.old.items ++ spec.numbers spec.index_number supertypes.now) }
{
    key.reserve(supertypes.len())?;
    for it in supertypes {
        key.push(index_number(it))?;
    }
    key.push(END)?;
    Ok(())
}

// Appends the numbers of a type.
fn put_func_type(key: &mut Vec<u32>, it: &FuncType) -> Result<(), AllocError>
    ensures { IfOk result (λ _. key.new.items ≡ key.old.items ++ (spec.numbers spec.val_number (func_type it.now).params ++ spec.numbers spec.val_number (func_type it.now).results)) }
{
    put_val_types(key, it.params())?;
    put_val_types(key, it.results())
}

// Appends the numbers of a composite type.
fn put_composite_type(key: &mut Vec<u32>, it: &CompositeType) -> Result<(), AllocError>
    ensures { IfOk result (λ _. key.new.items ≡ key.old.items ++ spec.composite_key (composite_type it.now)) }
{
    match it {
        CompositeType::Func(it) => {
            key.push(FUNC)?;
            put_func_type(key, it)
        }
        CompositeType::Struct(it) => {
            key.push(STRUCT)?;
            put_fields(key, &it.fields)
        }
        CompositeType::Array(it) => key.extend_from_slice(&[ARRAY, field_number(&it.0)]),
        CompositeType::Cont(it) => key.extend_from_slice(&[CONT, index_number(&it.0)]),
    }
}

// Appends the numbers of a sub type.
fn put_sub_type(key: &mut Vec<u32>, it: &SubType) -> Result<(), AllocError>
    ensures { IfOk result (λ _. key.new.items ≡ key.old.items ++ spec.sub_key (sub_type it.now)) }
{
    let parts = match &it.composite_type {
        CompositeType::Func(it) => it.params().len().saturating_add(it.results().len()),
        CompositeType::Struct(it) => it.fields.len(),
        CompositeType::Array(_) | CompositeType::Cont(_) => 0,
    };
    let indexes = it.supertype_idxs.len();
    // Finality, kind, up to three ends of lists, and that of the group: so a type by itself takes memory once.
    key.reserve(parts.saturating_add(indexes).saturating_add(6))?;
    key.push(if it.is_final { FINAL } else { OPEN })?;
    put_supertypes(key, &it.supertype_idxs)?;
    put_composite_type(key, &it.composite_type)
}

/// Returns the numbers that stand for a group: equal exactly for equal groups.
///
/// # Errors
/// Where memory runs out.
pub fn group_key(alloc: Global, types: &[SubType]) -> Result<Vec<u32>, AllocError>
    ensures { IfOk result (λ key. key.items ≡ spec.group_key (map sub_type types.now)) }
{
    let mut key = Vec::new(alloc);
    for it in types {
        put_sub_type(&mut key, it)?;
    }
    key.push(END)?;
    Ok(key)
}
