//! Types with ids in place of the type indexes by which they name others.

ghost use Rattle.std.specs.Prelude.{◌≡◌, ◌<◌, option_map};
ghost use Rattle.std.specs.List.{AllByRecursion};
ghost use Rattle.wasm_spec.specs.TypeReferences.{ref_map, val_map};
ghost use Rattle.wasmparser_module_types.specs.WithIds.{heap_by_ids, index_at, ref_by_ids, val_by_ids};
ghost use Rattle.wasmparser_types.specs.HeapTypes.{heap_type};
ghost use Rattle.wasmparser_types.specs.Index.{Module, number_of, packable};
ghost use Rattle.wasmparser_types.specs.UnpackedIndex as unpacked;
ghost use Rattle.wasmparser_types.specs.ValTypes.{val_type};

use crate::kept_types::id_at;
use wasmparser_types::heap_type::HeapType;
use wasmparser_types::index::{CoreTypeId, PackedIndex, UnpackedIndex};
use wasmparser_types::ref_type::RefType;
use wasmparser_types::val_type::ValType;

// Returns the number of an index, of whichever kind.
fn number_of(it: UnpackedIndex) -> usize
    ensures { result ≡ number_of (unpacked.index it) }
{
    match it {
        UnpackedIndex::Module(index) => index as usize,
        UnpackedIndex::RecGroup(index) => index as usize,
        UnpackedIndex::Id(id) => id.index(),
    }
}

// Returns a heap type with an id in place of the index that it has; none where the index has no id.
pub(crate) fn heap_with_ids(ids: &[CoreTypeId], ty: HeapType) -> Option<HeapType>
    ensures { option_map heap_type result ≡ heap_by_ids ids.now (heap_type ty) }
{
    match ty {
        HeapType::Abstract(_) => Some(ty),
        HeapType::Concrete(it) => {
            let id = id_at(ids, number_of(it))?;
            Some(HeapType::Concrete(UnpackedIndex::Id(id)))
        }
    }
}

// Returns a reference type, likewise.
pub(crate) fn ref_with_ids(ids: &[CoreTypeId], ty: RefType) -> Option<RefType>
    requires { AllByRecursion (λ id. id < packable) ids.now }
    ensures { result ≡ ref_by_ids ids.now ty }
{
    let Some(index) = ty.type_index() else {
        return Some(ty);
    };
    let id = id_at(ids, number_of(index.unpack()))?;
    let index = PackedIndex::from_id(id).unwrap();
    Some(RefType::concrete(ty.is_nullable(), index))
}

// Returns a value type, likewise.
pub(crate) fn val_with_ids(ids: &[CoreTypeId], ty: ValType) -> Option<ValType>
    requires { AllByRecursion (λ id. id < packable) ids.now }
    ensures { option_map val_type result ≡ val_by_ids ids.now (val_type ty) }
{
    match ty {
        ValType::Ref(ty) => Some(ValType::Ref(ref_with_ids(ids, ty)?)),
        _ => Some(ty),
    }
}

// Returns the type index that an index counts as, by its number.
fn as_type_index(it: PackedIndex) -> PackedIndex
    ensures { result ≡ Module (number_of it) }
{
    // (whose clauses tell that the number is small)
    let _ = it.bits();
    PackedIndex::from_module_index(number_of(it.unpack()) as u32).unwrap()
}

// Returns a reference type with an id in place of the index that it has; an index without an id becomes a type index.
pub(crate) fn listed_ref(ids: &[CoreTypeId], ty: RefType) -> RefType
    requires { AllByRecursion (λ id. id < packable) ids.now }
    ensures { result ≡ ref_map (index_at ids.now) (ref_map number_of ty) }
{
    let Some(index) = ty.type_index() else {
        return ty;
    };
    let listed = match id_at(ids, number_of(index.unpack())) {
        Some(id) => PackedIndex::from_id(id).unwrap(),
        None => as_type_index(index),
    };
    RefType::concrete(ty.is_nullable(), listed)
}

// Returns a value type, likewise.
pub(crate) fn listed_val(ids: &[CoreTypeId], ty: ValType) -> ValType
    requires { AllByRecursion (λ id. id < packable) ids.now }
    ensures { val_type result ≡ val_map (index_at ids.now) (val_map number_of (val_type ty)) }
{
    match ty {
        ValType::Ref(ty) => ValType::Ref(listed_ref(ids, ty)),
        _ => ty,
    }
}
