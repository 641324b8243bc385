//! Types over type indexes, turned into types over places.

ghost use Rattle.std.specs.Prelude.{◌≡◌, IfOk, map};
ghost use Rattle.wasm_core_types.specs.CoreTypes as written;
ghost use Rattle.wasm_core_types.specs.SubTypes as written_types;
ghost use Rattle.wasm_gen_view.specs.TypeNumbers.{reference_by};
ghost use Rattle.wasm_gen_view.specs.Types.{composite_type, field_type, func_type, heap_type, ref_type, storage_type, sub_type, val_type};
ghost use Rattle.wasm_spec.specs.Types as spec;
ghost use Rattle.wasm_spec.specs.TypeReferences.{composite_map, field_map, func_map, heap_map, ref_map, storage_map, sub_map, val_map};

use crate::types::{
    CompositeType, FieldType, FuncType, HeapType, RefType, StorageType, SubType, TypePlace,
    TypeReference, ValType,
};
use std::alloc::{AllocError, Global};
use wasm_core_types::types;

/// The places of the types so far, by type index.
#[derive(Clone, Copy, Debug)]
pub(crate) struct References<'a> {
    /// The places of types.
    pub(crate) places: &'a [TypePlace],
    /// The number of groups, for references that stand in none. In groups, an index behind the places is one of the group's own types.
    pub(crate) outside: Option<usize>,
}

impl References<'_> {
    fn reference(&self, index: u32) -> TypeReference
        ensures { result ≡ reference_by self.now.outside self.now.places.now index }
    {
        let index = index as usize;
        match (self.places.get(index), self.outside) {
            (Some(place), _) => TypeReference::Other(*place),
            (None, None) => TypeReference::Own(index - self.places.len()),
            (None, Some(group)) => TypeReference::Other(TypePlace { group, place: 0 }),
        }
    }

    fn heap_type(&self, ty: types::HeapType) -> HeapType
        ensures { heap_type result ≡ heap_map (reference_by self.now.outside self.now.places.now) (written.heap_type ty) }
    {
        match ty {
            types::HeapType::Abstract(ty) => named(ty),
            types::HeapType::Concrete(index) => HeapType::Defined(self.reference(index)),
        }
    }

    /// Returns the reference type over places.
    pub(crate) fn ref_type(&self, ty: types::RefType) -> RefType
        ensures { ref_type result ≡ ref_map (reference_by self.now.outside self.now.places.now) (record { nullable = ty.nullable; heap_type = written.heap_type ty.heap_type }) }
    {
        RefType {
            nullable: ty.nullable,
            heap_type: self.heap_type(ty.heap_type),
        }
    }

    /// Returns the value type over places.
    pub(crate) fn val_type(&self, ty: types::ValType) -> ValType
        ensures { val_type result ≡ val_map (reference_by self.now.outside self.now.places.now) (written.val_type ty) }
    {
        match ty {
            types::ValType::I32 => ValType::I32,
            types::ValType::I64 => ValType::I64,
            types::ValType::F32 => ValType::F32,
            types::ValType::F64 => ValType::F64,
            types::ValType::V128 => ValType::V128,
            types::ValType::Ref(ty) => ValType::Ref(self.ref_type(ty)),
        }
    }

    fn storage_type(&self, ty: types::StorageType) -> StorageType
        ensures { storage_type result ≡ storage_map (reference_by self.now.outside self.now.places.now) (written.storage_type ty) }
    {
        match ty {
            types::StorageType::I8 => StorageType::I8,
            types::StorageType::I16 => StorageType::I16,
            types::StorageType::Val(ty) => StorageType::Val(self.val_type(ty)),
        }
    }

    fn field_type(&self, ty: types::FieldType) -> FieldType
        ensures { field_type result ≡ field_map (reference_by self.now.outside self.now.places.now) (written.field_type ty) }
    {
        FieldType {
            element_type: self.storage_type(ty.element_type),
            mutable: ty.mutable,
        }
    }

    fn val_types(&self, alloc: Global, types: &[types::ValType]) -> Result<Vec<ValType>, AllocError>
        ensures { IfOk result (λ v. map val_type v.items ≡ map (val_map (reference_by self.now.outside self.now.places.now)) (map written.val_type types.now)) }
    {
        let mut numbered = Vec::new(alloc);
        for ty in types {
            numbered.push(self.val_type(*ty))?;
        }
        Ok(numbered)
    }

    fn field_types(
        &self,
        alloc: Global,
        fields: &[types::FieldType],
    ) -> Result<Vec<FieldType>, AllocError>
        ensures { IfOk result (λ v. map field_type v.items ≡ map (field_map (reference_by self.now.outside self.now.places.now)) (map written.field_type fields.now)) }
    {
        let mut numbered = Vec::new(alloc);
        for field in fields {
            numbered.push(self.field_type(*field))?;
        }
        Ok(numbered)
    }

    fn func_type(&self, alloc: Global, ty: &types::FuncType) -> Result<FuncType, AllocError>
        ensures { IfOk result (λ t. func_type t ≡ func_map (reference_by self.now.outside self.now.places.now) ty.now) }
    {
        Ok(FuncType {
            params: self.val_types(alloc, ty.params())?,
            results: self.val_types(alloc, ty.results())?,
        })
    }

    fn composite_type(
        &self,
        alloc: Global,
        ty: &types::CompositeType,
    ) -> Result<CompositeType, AllocError>
        ensures { IfOk result (λ t. composite_type t ≡ composite_map (reference_by self.now.outside self.now.places.now) (written_types.composite_type ty.now)) }
    {
        Ok(match ty {
            types::CompositeType::Func(ty) => CompositeType::Func(self.func_type(alloc, ty)?),
            types::CompositeType::Struct(ty) => CompositeType::Struct(self.field_types(
                alloc,
                ty.fields(),
            )?),
            types::CompositeType::Array(ty) => CompositeType::Array(self.field_type(ty.0)),
            types::CompositeType::Cont(ty) => CompositeType::Cont(self.reference(ty.0)),
        })
    }

    fn sub_type(&self, alloc: Global, ty: &types::SubType) -> Result<SubType, AllocError>
        ensures { IfOk result (λ t. sub_type t ≡ sub_map (reference_by self.now.outside self.now.places.now) (written_types.sub_type ty.now)) }
    {
        let composite_type = self.composite_type(alloc, &ty.composite_type)?;
        let supertype = match ty.supertype_idx {
            Some(index) => Some(self.reference(index)),
            None => None,
        };
        Ok(SubType {
            is_final: ty.is_final,
            supertype,
            composite_type,
        })
    }

    /// Returns the types over places.
    ///
    /// # Errors
    /// Where memory runs out.
    pub(crate) fn sub_types(
        &self,
        alloc: Global,
        types: &[types::SubType],
    ) -> Result<Vec<SubType>, AllocError>
        ensures { IfOk result (λ v. map sub_type v.items ≡ map (sub_map (reference_by self.now.outside self.now.places.now)) (map written_types.sub_type types.now)) }
    {
        let mut numbered = Vec::new(alloc);
        for ty in types {
            numbered.push(self.sub_type(alloc, ty)?)?;
        }
        Ok(numbered)
    }
}

/// Returns a heap type that has a name.
pub(crate) fn named(ty: types::AbstractHeapType) -> HeapType
    ensures { heap_type result ≡ spec.Abstract (written.abstract_heap_type ty) }
{
    match ty {
        types::AbstractHeapType::Func => HeapType::Func,
        types::AbstractHeapType::Extern => HeapType::Extern,
        types::AbstractHeapType::Any => HeapType::Any,
        types::AbstractHeapType::None => HeapType::None,
        types::AbstractHeapType::NoExtern => HeapType::NoExtern,
        types::AbstractHeapType::NoFunc => HeapType::NoFunc,
        types::AbstractHeapType::Eq => HeapType::Eq,
        types::AbstractHeapType::Struct => HeapType::Struct,
        types::AbstractHeapType::Array => HeapType::Array,
        types::AbstractHeapType::I31 => HeapType::I31,
        types::AbstractHeapType::Exn => HeapType::Exn,
        types::AbstractHeapType::NoExn => HeapType::NoExn,
        types::AbstractHeapType::Cont => HeapType::Cont,
        types::AbstractHeapType::NoCont => HeapType::NoCont,
    }
}
