//! Types with their references shifted.

ghost use Rattle.std.specs.Prelude.{◌≡◌, ◌++◌, IfOk, map};
ghost use Rattle.wasm_core_types.specs.CoreTypes.{val_type, field_type};
ghost use Rattle.wasm_core_types.specs.SubTypes.{composite_type, sub_type};
ghost use Rattle.wasm_spec.specs.TypeReferences.{val_map, field_map, composite_map, sub_map};
ghost use Rattle.wasm_smith_types.specs.Copies.{shifted_index};

use std::alloc::{AllocError, Global};
use wasm_core_types::types::{
    ArrayType, CompositeType, ContType, FieldType, FuncType, HeapType, RefType, StorageType,
    StructType, SubType, ValType,
};

/// A shift of references to types.
#[derive(Clone, Copy, Debug)]
pub struct Shift {
    /// The first index that is shifted.
    pub start: u32,
    /// The number that is added to it and to each that follows.
    pub by: u32,
}

impl Shift {
    /// Returns the index of a type, shifted. Numbers wrap at 2^32.
    pub fn index(self, index: u32) -> u32
        ensures { result ≡ shifted_index self.start self.by index }
    {
        if index < self.start {
            index
        } else {
            index.wrapping_add(self.by)
        }
    }

    /// Returns the value type with its reference shifted. Numbers wrap at 2^32.
    pub fn value(self, type_: ValType) -> ValType
        ensures { val_type result ≡ val_map (shifted_index self.start self.by) (val_type type_) }
    {
        match type_ {
            ValType::Ref(
                RefType {
                    nullable,
                    heap_type: HeapType::Concrete(index),
                },
            ) => ValType::Ref(RefType {
                nullable,
                heap_type: HeapType::Concrete(self.index(index)),
            }),
            _ => type_,
        }
    }

    fn field(self, field: FieldType) -> FieldType
        ensures { field_type result ≡ field_map (shifted_index self.start self.by) (field_type field) }
    {
        match field.element_type {
            StorageType::Val(type_) => FieldType {
                element_type: StorageType::Val(self.value(type_)),
                mutable: field.mutable,
            },
            _ => field,
        }
    }

    fn values(self, alloc: Global, types: &[ValType]) -> Result<Vec<ValType>, AllocError>
        ensures { IfOk result (λ v. map val_type v.items ≡ map (val_map (shifted_index self.start self.by)) (map val_type types.now)) }
    {
        let mut shifted = Vec::new(alloc);
        for type_ in types {
            shifted.push(self.value(*type_))?;
        }
        Ok(shifted)
    }

    fn fields(self, alloc: Global, fields: &[FieldType]) -> Result<Vec<FieldType>, AllocError>
        ensures { IfOk result (λ v. map field_type v.items ≡ map (field_map (shifted_index self.start self.by)) (map field_type fields.now)) }
    {
        let mut shifted = Vec::new(alloc);
        for field in fields {
            shifted.push(self.field(*field))?;
        }
        Ok(shifted)
    }

    fn composite(self, alloc: Global, type_: &CompositeType) -> Result<CompositeType, AllocError>
        ensures { IfOk result (λ c. composite_type c ≡ composite_map (shifted_index self.start self.by) (composite_type type_.now)) }
    {
        match type_ {
            CompositeType::Func(function) => {
                let params = self.values(alloc, function.params())?;
                let results = self.values(alloc, function.results())?;
                Ok(CompositeType::Func(FuncType::new(params, results)))
            }
            CompositeType::Struct(structure) => {
                let fields = self.fields(alloc, structure.fields())?;
                Ok(CompositeType::Struct(StructType::new(fields)))
            }
            CompositeType::Array(ArrayType(field)) => Ok(CompositeType::Array(ArrayType(self.field(
                *field,
            )))),
            CompositeType::Cont(ContType(index)) => Ok(CompositeType::Cont(ContType(self.index(
                *index,
            )))),
        }
    }

    /// Returns the type with its references shifted. Numbers wrap at 2^32.
    ///
    /// # Errors
    /// Where memory runs out.
    pub fn sub_type(self, alloc: Global, type_: &SubType) -> Result<SubType, AllocError>
        ensures { IfOk result (λ t. sub_type t ≡ sub_map (shifted_index self.start self.by) (sub_type type_.now)) }
    {
        let composite_type = self.composite(alloc, &type_.composite_type)?;
        let supertype_idx = match type_.supertype_idx {
            Some(index) => Some(self.index(index)),
            None => None,
        };
        Ok(SubType {
            is_final: type_.is_final,
            supertype_idx,
            composite_type,
        })
    }

    /// Adds types with their references shifted.
    ///
    /// # Errors
    /// Where memory runs out.
    pub fn push_all(
        self,
        alloc: Global,
        types: &mut Vec<SubType>,
        more: &[SubType],
    ) -> Result<(), AllocError>
        ensures { IfOk result (λ _. map sub_type types.new.items ≡ map sub_type types.old.items
            ++ map (sub_map (shifted_index self.start self.by)) (map sub_type more.now)) }
    {
        for type_ in more {
            types.push(self.sub_type(alloc, type_)?)?;
        }
        Ok(())
    }
}
