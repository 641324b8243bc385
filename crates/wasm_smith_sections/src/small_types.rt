//! Types that bytes can state. The functions do nothing.

ghost use Rattle.std.specs.Prelude.{◌≡◌, map};
ghost use Rattle.std.specs.List.{AllByRecursion};
ghost use Rattle.std.specs.Option.{option_to_list};
ghost use Rattle.wasm_core_types.specs.CoreTypes.{field_type, heap_type, val_type};
ghost use Rattle.wasm_core_types.specs.SubTypes.{composite_type};
ghost use Rattle.wasm_spec.specs.SmallIndexes.{IsSmallComposite, IsSmallField, IsSmallHeap, IsSmallIndex, IsSmallValue};

use crate::small::{Small, are_small, narrow_is_small, wide_is_small};
use wasm_core_types::types::{
    CompositeType, ContType, FieldType, HeapType, StorageType, SubType, ValType,
};
use wasm_encoder_sections::entity_type::{EntityType, GlobalType, MemoryType, TableType, TagType};

/// Does nothing.
pub fn heap_is_small(heap: &HeapType)
    ensures { IsSmallHeap (heap_type heap.now) }
{
    if let HeapType::Concrete(index) = heap {
        let _index = *index;
    }
}

impl Small for ValType {
    ghost use Rattle.wasm_core_types.specs.CoreTypes.{val_type};
    ghost use Rattle.wasm_spec.specs.SmallIndexes.{IsSmallValue};

    ghost fits = { λ ty. IsSmallValue (val_type ty) };

    fn is_small(&self) {
        if let ValType::Ref(reference) = self {
            heap_is_small(&reference.heap_type);
        }
    }
}

impl Small for FieldType {
    ghost use Rattle.wasm_core_types.specs.CoreTypes.{field_type};
    ghost use Rattle.wasm_spec.specs.SmallIndexes.{IsSmallField};

    ghost fits = { λ field. IsSmallField (field_type field) };

    fn is_small(&self) {
        if let StorageType::Val(ty) = &self.element_type {
            ty.is_small();
        }
    }
}

/// Does nothing.
pub fn values_are_small(types: &[ValType])
    ensures { AllByRecursion IsSmallValue (map val_type types.now) }
{
    are_small(types);
}

fn fields_are_small(fields: &[FieldType])
    ensures { AllByRecursion IsSmallField (map field_type fields.now) }
{
    are_small(fields);
}

fn composite_is_small(ty: &CompositeType)
    ensures { IsSmallComposite (composite_type ty.now) }
{
    match ty {
        CompositeType::Func(ty) => {
            values_are_small(ty.params());
            values_are_small(ty.results());
        }
        CompositeType::Array(ty) => ty.0.is_small(),
        CompositeType::Struct(ty) => fields_are_small(ty.fields()),
        CompositeType::Cont(ty) => cont_is_small(ty),
    }
}

fn cont_is_small(ty: &ContType)
    ensures { IsSmallIndex ty.now.0 }
{
    let _index = ty.0;
}

fn supertype_is_small(index: Option<u32>)
    ensures { AllByRecursion IsSmallIndex (option_to_list index) }
{
    if let Some(index) = index {
        let _index = index;
    }
}

impl Small for SubType {
    ghost use Rattle.wasm_core_types.specs.SubTypes.{sub_type};
    ghost use Rattle.wasm_spec.specs.SmallIndexes.{IsSmallSub};

    ghost fits = { λ ty. IsSmallSub (sub_type ty) };

    fn is_small(&self) {
        supertype_is_small(self.supertype_idx);
        composite_is_small(&self.composite_type);
    }
}

impl Small for MemoryType {
    ghost use Rattle.wasm_encoder_sections.specs.CoreItems.{memory_type};
    ghost use Rattle.wasm_encoder_sections.specs.SmallItems.{IsSmallLimits};

    ghost fits = { λ ty. IsSmallLimits (memory_type ty) };

    fn is_small(&self) {
        let _minimum = self.minimum;
        wide_is_small(self.maximum);
        narrow_is_small(self.page_size_log2);
    }
}

impl Small for TableType {
    ghost use Rattle.wasm_encoder_sections.specs.CoreItems.{table_type};
    ghost use Rattle.wasm_encoder_sections.specs.SmallItems.{IsSmallTable};

    ghost fits = { λ ty. IsSmallTable (table_type ty) };

    fn is_small(&self) {
        heap_is_small(&self.element_type.heap_type);
        let _minimum = self.minimum;
        wide_is_small(self.maximum);
    }
}

impl Small for GlobalType {
    ghost use Rattle.wasm_encoder_sections.specs.CoreItems.{global_type};
    ghost use Rattle.wasm_encoder_sections.specs.SmallItems.{IsSmallGlobal};

    ghost fits = { λ ty. IsSmallGlobal (global_type ty) };

    fn is_small(&self) {
        self.val_type.is_small();
    }
}

fn tag_is_small(ty: &TagType)
    ensures { IsSmallIndex ty.now.func_type_idx }
{
    let _index = ty.func_type_idx;
}

impl Small for EntityType {
    ghost use Rattle.wasm_encoder_sections.specs.CoreItems.{entity_type};
    ghost use Rattle.wasm_encoder_sections.specs.SmallItems.{IsSmallExternal};

    ghost fits = { λ ty. IsSmallExternal (entity_type ty) };

    fn is_small(&self) {
        match self {
            EntityType::Function(index) => {
                let _index = *index;
            }
            EntityType::Table(ty) => ty.is_small(),
            EntityType::Memory(ty) => ty.is_small(),
            EntityType::Global(ty) => ty.is_small(),
            EntityType::Tag(ty) => tag_is_small(ty),
        }
    }
}
