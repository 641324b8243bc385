//! Types that a module may write under a set of features.

ghost use Rattle.std.specs.Prelude.{◌≡◌, map};
ghost use Rattle.std.specs.List.{list_all};
ghost use Rattle.wasm_core_types.specs.CoreTypes.{abstract_heap_type, field_type, heap_type, storage_type, val_type};
ghost use Rattle.wasm_core_types.specs.Features.{feature_set};
ghost use Rattle.wasm_core_types.specs.SubTypes.{composite_type, sub_type};
ghost use Rattle.wasm_smith_validity.specs.ValidGroups.{entry};
ghost use Rattle.wasm_spec.specs.Gates as spec;

use wasm_core_types::features::WasmFeatures;
use wasm_core_types::types::{
    AbstractHeapType, ArrayType, CompositeType, FieldType, FuncType, HeapType, RefType,
    StorageType, SubType, ValType,
};

fn is_allowed_abstract(features: WasmFeatures, nullable: bool, heap: AbstractHeapType) -> bool
    ensures { result ≡ spec.is_allowed_abstract (feature_set features) nullable (abstract_heap_type heap) }
{
    match heap {
        AbstractHeapType::Func => nullable || features.function_references(),
        AbstractHeapType::Extern => {
            features.gc_types() && (nullable || features.function_references())
        }
        AbstractHeapType::Any
        | AbstractHeapType::None
        | AbstractHeapType::NoExtern
        | AbstractHeapType::NoFunc
        | AbstractHeapType::Eq
        | AbstractHeapType::Struct
        | AbstractHeapType::Array
        | AbstractHeapType::I31 => features.gc_types() && features.gc(),
        AbstractHeapType::Exn => features.exceptions(),
        AbstractHeapType::NoExn => features.gc_types() && features.exceptions(),
        AbstractHeapType::Cont | AbstractHeapType::NoCont => {
            features.gc_types() && features.stack_switching()
        }
    }
}

fn is_allowed_heap(features: WasmFeatures, nullable: bool, heap: HeapType) -> bool
    ensures { result ≡ spec.is_allowed_heap (feature_set features) nullable (heap_type heap) }
{
    match heap {
        HeapType::Abstract(heap) => is_allowed_abstract(features, nullable, heap),
        HeapType::Concrete(_) => features.gc() || features.function_references(),
    }
}

/// Checks that a module may write a value type.
pub fn is_allowed(features: WasmFeatures, type_: ValType) -> bool
    ensures { result ≡ spec.is_allowed (feature_set features) (val_type type_) }
{
    match type_ {
        ValType::I32 | ValType::I64 => true,
        ValType::F32 | ValType::F64 => features.floats(),
        ValType::V128 => features.simd(),
        ValType::Ref(
            RefType {
                nullable,
                heap_type,
            },
        ) => features.reference_types() && is_allowed_heap(features, nullable, heap_type),
    }
}

fn are_allowed(features: WasmFeatures, types: &[ValType]) -> bool
    ensures { result ≡ list_all (spec.is_allowed (feature_set features)) (map val_type types.now) }
{
    types.iter().all(|type_| is_allowed(features, *type_))
}

fn is_allowed_func(features: WasmFeatures, function: &FuncType) -> bool
    ensures { result ≡ spec.is_allowed_func (feature_set features) function.now }
{
    are_allowed(features, function.params())
        && are_allowed(features, function.results())
        && (function.results().len() <= 1 || features.multi_value())
}

fn is_allowed_storage(features: WasmFeatures, storage: StorageType) -> bool
    ensures { result ≡ spec.is_allowed_storage (feature_set features) (storage_type storage) }
{
    match storage {
        StorageType::I8 | StorageType::I16 => true,
        StorageType::Val(type_) => is_allowed(features, type_),
    }
}

fn are_allowed_fields(features: WasmFeatures, fields: &[FieldType]) -> bool
    ensures { result ≡ list_all (λ field. spec.is_allowed_storage (feature_set features) field.element_type) (map field_type fields.now) }
{
    fields
        .iter()
        .all(|field| is_allowed_storage(features, field.element_type))
}

fn is_allowed_composite(features: WasmFeatures, type_: &CompositeType) -> bool
    ensures { result ≡ spec.is_allowed_composite (feature_set features) (composite_type type_.now) }
{
    match type_ {
        CompositeType::Func(function) => is_allowed_func(features, function),
        CompositeType::Struct(structure) => {
            features.gc() && features.gc_types() && are_allowed_fields(features, structure.fields())
        }
        CompositeType::Array(ArrayType(field)) => {
            features.gc() && features.gc_types() && is_allowed_storage(features, field.element_type)
        }
        CompositeType::Cont(_) => features.stack_switching() && features.gc_types(),
    }
}

fn is_allowed_sub(features: WasmFeatures, type_: &SubType) -> bool
    ensures { result ≡ spec.is_allowed_sub (feature_set features) (sub_type type_.now) }
{
    (type_.is_final && type_.supertype_idx.is_none() || features.gc())
        && is_allowed_composite(features, &type_.composite_type)
}

fn are_allowed_subs(features: WasmFeatures, types: &[SubType]) -> bool
    ensures { result ≡ list_all (spec.is_allowed_sub (feature_set features)) (map sub_type types.now) }
{
    types.iter().all(|type_| is_allowed_sub(features, type_))
}

/// Checks that a module may write the group of these types. A group of one type is written as that type alone.
pub fn is_allowed_group(features: WasmFeatures, types: &[SubType]) -> bool
    ensures { result ≡ spec.is_allowed_group (feature_set features) (entry (map sub_type types.now)) }
{
    if types.len() == 1 {
        return are_allowed_subs(features, types);
    }
    features.gc() && are_allowed_subs(features, types)
}
