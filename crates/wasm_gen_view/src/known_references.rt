//! The types of a group that a validator knows by ids, turned into types of a view.

ghost use Rattle.std.specs.Prelude.{◌≡◌, ◌≤◌, ◌+◌, IfOk, length, map};
ghost use Rattle.std.specs.List.{range_with_len};
ghost use Rattle.wasm_gen_view.specs.KnownReferences.{refer, referring, with_first_supertype};
ghost use Rattle.wasm_gen_view.specs.Types.{composite_type, field_type, func_type, heap_type, ref_type, storage_type, sub_type, val_type};
ghost use Rattle.wasm_spec.specs.TypeReferences.{composite_map, field_map, func_map, heap_map, ref_map, storage_map, sub_map, val_map};
ghost use Rattle.wasmparser_module_types.specs.ModuleTypes.{ids_of_group};
ghost use Rattle.wasmparser_types.specs.CompositeTypes as known_types;
ghost use Rattle.wasmparser_types.specs.HeapTypes as known_heaps;
ghost use Rattle.wasmparser_types.specs.SubTypes as known_subs;
ghost use Rattle.wasmparser_types.specs.Index.{number_of};
ghost use Rattle.wasmparser_types.specs.UnpackedIndex as unpacked;
ghost use Rattle.wasmparser_types.specs.ValTypes as known_values;
ghost use Rattle.wasmparser_validator.specs.Shown.{known};

use crate::group_numbers::GroupNumbers;
use crate::known_group::{KnownGroup, place_of};
use crate::references::named;
use crate::types::{
    CompositeType, FieldType, FuncType, HeapType, RefType, StorageType, SubType, TypePlace,
    TypeReference, ValType,
};
use crate::written_types::written_heap_type;
use std::alloc::{AllocError, Global};
use wasmparser_types::index::{CoreTypeId, UnpackedIndex};
use wasmparser_types::{composite_type, heap_type, ref_type, sub_type, val_type};
use wasmparser_validator::types::TypesRef;

/// The references of the types of a group.
#[derive(Clone, Copy)]
pub(crate) struct KnownReferences<'a, 't> {
    /// The types that ids stand for.
    pub(crate) types: &'a TypesRef<'t>,
    /// The numbers of the groups before this one.
    pub(crate) numbers: &'a GroupNumbers,
    /// The group.
    pub(crate) group: &'a KnownGroup,
}

// Returns the id that an index is.
fn id_of(index: UnpackedIndex) -> CoreTypeId
    ensures { result ≡ number_of (unpacked.index index) }
{
    match index {
        UnpackedIndex::Module(number) | UnpackedIndex::RecGroup(number) => {
            CoreTypeId::from_index(number)
        }
        UnpackedIndex::Id(id) => id,
    }
}

impl KnownReferences<'_, '_> {
    fn reference(&self, it: UnpackedIndex) -> TypeReference
        ensures { result ≡ refer self.now (unpacked.index it) }
    {
        let id = id_of(it);
        let number = id.index();
        if number >= self.group.first && number - self.group.first < self.group.count {
            return TypeReference::Own(number - self.group.first);
        }
        let place = place_of(self.types, id);
        match self.numbers.get(number.saturating_sub(place)) {
            Some(group) => TypeReference::Other(TypePlace { group, place }),
            None => TypeReference::Own(place),
        }
    }

    fn heap_type(&self, ty: heap_type::HeapType) -> HeapType
        ensures { heap_type result ≡ heap_map (refer self.now) (known_heaps.heap_type ty) }
    {
        match ty {
            heap_type::HeapType::Abstract(ty) => named(written_heap_type(ty)),
            heap_type::HeapType::Concrete(it) => HeapType::Defined(self.reference(it)),
        }
    }

    fn ref_type(&self, ty: ref_type::RefType) -> RefType
        ensures { ref_type result ≡ ref_map (refer self.now) ty }
    {
        RefType {
            nullable: ty.is_nullable(),
            heap_type: self.heap_type(ty.heap_type()),
        }
    }

    fn val_type(&self, ty: &val_type::ValType) -> ValType
        ensures { val_type result ≡ val_map (refer self.now) (known_values.val_type ty.now) }
    {
        match ty {
            val_type::ValType::I32 => ValType::I32,
            val_type::ValType::I64 => ValType::I64,
            val_type::ValType::F32 => ValType::F32,
            val_type::ValType::F64 => ValType::F64,
            val_type::ValType::V128 => ValType::V128,
            val_type::ValType::Ref(ty) => ValType::Ref(self.ref_type(*ty)),
        }
    }

    fn storage_type(&self, ty: &val_type::StorageType) -> StorageType
        ensures { storage_type result ≡ storage_map (refer self.now) (known_values.storage_type ty.now) }
    {
        match ty {
            val_type::StorageType::I8 => StorageType::I8,
            val_type::StorageType::I16 => StorageType::I16,
            val_type::StorageType::Val(ty) => StorageType::Val(self.val_type(ty)),
        }
    }

    fn field_type(&self, ty: &val_type::FieldType) -> FieldType
        ensures { field_type result ≡ field_map (refer self.now) (known_values.field_type ty.now) }
    {
        FieldType {
            element_type: self.storage_type(&ty.element_type),
            mutable: ty.mutable,
        }
    }

    fn val_types(
        &self,
        alloc: Global,
        types: &[val_type::ValType],
    ) -> Result<Vec<ValType>, AllocError>
        ensures { IfOk result (λ v. map val_type v.items ≡ map (val_map (refer self.now)) (map known_values.val_type types.now)) }
    {
        let mut numbered = Vec::new(alloc);
        for ty in types {
            numbered.push(self.val_type(ty))?;
        }
        Ok(numbered)
    }

    fn field_types(
        &self,
        alloc: Global,
        fields: &[val_type::FieldType],
    ) -> Result<Vec<FieldType>, AllocError>
        ensures { IfOk result (λ v. map field_type v.items ≡ map (field_map (refer self.now)) (map known_values.field_type fields.now)) }
    {
        let mut numbered = Vec::new(alloc);
        for field in fields {
            numbered.push(self.field_type(field))?;
        }
        Ok(numbered)
    }

    fn func_type(
        &self,
        alloc: Global,
        ty: &composite_type::FuncType,
    ) -> Result<FuncType, AllocError>
        ensures { IfOk result (λ t. func_type t ≡ func_map (refer self.now) (known_types.func_type ty.now)) }
    {
        Ok(FuncType {
            params: self.val_types(alloc, ty.params())?,
            results: self.val_types(alloc, ty.results())?,
        })
    }

    fn composite_type(
        &self,
        alloc: Global,
        ty: &composite_type::CompositeType,
    ) -> Result<CompositeType, AllocError>
        ensures { IfOk result (λ t. composite_type t ≡ composite_map (refer self.now) (known_types.composite_type ty.now)) }
    {
        Ok(match ty {
            composite_type::CompositeType::Func(ty) => {
                CompositeType::Func(self.func_type(alloc, ty)?)
            }
            composite_type::CompositeType::Struct(ty) => {
                CompositeType::Struct(self.field_types(alloc, &ty.fields)?)
            }
            composite_type::CompositeType::Array(ty) => {
                CompositeType::Array(self.field_type(&ty.0))
            }
            composite_type::CompositeType::Cont(ty) => {
                CompositeType::Cont(self.reference(ty.0.unpack()))
            }
        })
    }

    fn sub_type(&self, alloc: Global, ty: &sub_type::SubType) -> Result<SubType, AllocError>
        ensures { IfOk result (λ t. sub_type t ≡ sub_map (refer self.now) (with_first_supertype (known_subs.sub_type ty.now))) }
    {
        let composite_type = self.composite_type(alloc, &ty.composite_type)?;
        let supertype = match ty.supertype_idxs.first() {
            Some(it) => Some(self.reference(it.unpack())),
            None => None,
        };
        Ok(SubType {
            is_final: ty.is_final,
            supertype,
            composite_type,
        })
    }

    /// Returns the types of the group.
    ///
    /// # Errors
    /// Where memory runs out.
    pub(crate) fn sub_types(&self, alloc: Global) -> Result<Vec<SubType>, AllocError>
        requires ids { ids_of_group (known self.now.types.now) self.now.group.now.id ≡ range_with_len self.now.group.now.first self.now.group.now.count }
        requires known { self.now.group.now.first + self.now.group.now.count ≤ length (known self.now.types.now).interned }
        ensures { IfOk result (λ v. map sub_type v.items ≡ map (referring self.now) (range_with_len self.now.group.now.first self.now.group.now.count)) }
    {
        let mut types = Vec::new(alloc);
        for id in self.types.rec_group_elements(self.group.id) {
            let Some(ty) = self.types.get(id) else {
                unreachable!()
            };
            types.push(self.sub_type(alloc, ty)?)?;
        }
        Ok(types)
    }
}
