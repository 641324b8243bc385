//! Types that a module may write under a set of features.

ghost use Rattle.std.specs.Prelude.{◌≡◌, map};
ghost use Rattle.std.specs.List.{list_all};
ghost use Rattle.wasm_core_types.specs.Features.{feature_set};
ghost use Rattle.wasm_spec.specs.Gates as spec;
ghost use Rattle.wasm_spec.specs.Types.{Ref};
ghost use Rattle.wasmparser_types.specs.CompositeTypes.{composite_type, func_type};
ghost use Rattle.wasmparser_types.specs.HeapTypes.{abstract_heap_type, heap_type};
ghost use Rattle.wasmparser_types.specs.RecGroups.{rec_group};
ghost use Rattle.wasmparser_types.specs.SubTypes.{sub_type};
ghost use Rattle.wasmparser_types.specs.ValTypes.{field_type, storage_type, val_type};

use wasm_core_types::features::WasmFeatures;
use wasmparser_types::composite_type::{CompositeType, FuncType};
use wasmparser_types::heap_type::{AbstractHeapType, HeapType};
use wasmparser_types::ref_type::RefType;
use wasmparser_types::sub_type::{RecGroup, SubType};
use wasmparser_types::val_type::{FieldType, StorageType, ValType};

fn is_allowed_abstract(features: WasmFeatures, nullable: bool, heap: AbstractHeapType) -> bool
    ensures { result ≡ spec.is_allowed_abstract (feature_set features) nullable (abstract_heap_type heap) }
{
    match heap {
        AbstractHeapType::Func => nullable || features.function_references(),
        AbstractHeapType::Extern => {
            features.gc_types() && (nullable || features.function_references())
        }
        AbstractHeapType::Any
        | AbstractHeapType::None
        | AbstractHeapType::NoExtern
        | AbstractHeapType::NoFunc
        | AbstractHeapType::Eq
        | AbstractHeapType::Struct
        | AbstractHeapType::Array
        | AbstractHeapType::I31 => features.gc_types() && features.gc(),
        AbstractHeapType::Exn => features.exceptions(),
        AbstractHeapType::NoExn => features.gc_types() && features.exceptions(),
        AbstractHeapType::Cont | AbstractHeapType::NoCont => {
            features.gc_types() && features.stack_switching()
        }
    }
}

fn is_allowed_heap(features: WasmFeatures, nullable: bool, heap: HeapType) -> bool
    ensures { result ≡ spec.is_allowed_heap (feature_set features) nullable (heap_type heap) }
{
    match heap {
        HeapType::Abstract(heap) => is_allowed_abstract(features, nullable, heap),
        HeapType::Concrete(_) => features.gc() || features.function_references(),
    }
}

// Checks that a module may write a reference type.
#[inline(never)]
fn is_allowed_reference(features: WasmFeatures, it: RefType) -> bool
    ensures { result ≡ spec.is_allowed (feature_set features) (Ref it.nullable it.heap_type) }
{
    features.reference_types() && is_allowed_heap(features, it.is_nullable(), it.heap_type())
}

/// Checks that a module may write a value type under these features.
#[inline(always)]
pub fn is_allowed(features: WasmFeatures, it: &ValType) -> bool
    ensures { result ≡ spec.is_allowed (feature_set features) (val_type it.now) }
{
    match it {
        ValType::I32 | ValType::I64 => true,
        ValType::F32 | ValType::F64 => features.floats(),
        ValType::V128 => features.simd(),
        ValType::Ref(it) => is_allowed_reference(features, *it),
    }
}

fn are_allowed(features: WasmFeatures, types: &[ValType]) -> bool
    ensures { result ≡ list_all (spec.is_allowed (feature_set features)) (map val_type types.now) }
{
    types.iter().all(|it| is_allowed(features, it))
}

fn is_allowed_func(features: WasmFeatures, it: &FuncType) -> bool
    ensures { result ≡ spec.is_allowed_func (feature_set features) (func_type it.now) }
{
    are_allowed(features, it.params())
        && are_allowed(features, it.results())
        && (it.results().len() <= 1 || features.multi_value())
}

fn is_allowed_storage(features: WasmFeatures, it: &StorageType) -> bool
    ensures { result ≡ spec.is_allowed_storage (feature_set features) (storage_type it.now) }
{
    match it {
        StorageType::I8 | StorageType::I16 => true,
        StorageType::Val(it) => is_allowed(features, it),
    }
}

fn are_allowed_fields(features: WasmFeatures, fields: &[FieldType]) -> bool
    ensures { result ≡ list_all (λ field. spec.is_allowed_storage (feature_set features) field.element_type) (map field_type fields.now) }
{
    fields
        .iter()
        .all(|it| is_allowed_storage(features, &it.element_type))
}

fn is_allowed_composite(features: WasmFeatures, it: &CompositeType) -> bool
    ensures { result ≡ spec.is_allowed_composite (feature_set features) (composite_type it.now) }
{
    match it {
        CompositeType::Func(it) => is_allowed_func(features, it),
        CompositeType::Struct(it) => {
            features.gc() && features.gc_types() && are_allowed_fields(features, &it.fields)
        }
        CompositeType::Array(it) => {
            features.gc() && features.gc_types() && is_allowed_storage(features, &it.0.element_type)
        }
        CompositeType::Cont(_) => features.stack_switching() && features.gc_types(),
    }
}

fn is_allowed_sub(features: WasmFeatures, it: &SubType) -> bool
    ensures { result ≡ spec.is_allowed_sub (feature_set features) (sub_type it.now) }
{
    (it.is_final && it.supertype_idxs.is_empty() || features.gc())
        && is_allowed_composite(features, &it.composite_type)
}

fn are_allowed_subs(features: WasmFeatures, types: &[SubType]) -> bool
    ensures { result ≡ list_all (spec.is_allowed_sub (feature_set features)) (map sub_type types.now) }
{
    types.iter().all(|it| is_allowed_sub(features, it))
}

/// Checks that a module may write a recursive group under these features.
pub fn is_allowed_group(features: WasmFeatures, it: &RecGroup) -> bool
    ensures { result ≡ spec.is_allowed_group (feature_set features) (rec_group it.now) }
{
    (!it.is_explicit_rec_group() || features.gc()) && are_allowed_subs(features, it.types())
}
