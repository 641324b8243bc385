//! The types of items, with references of a view.

ghost use Rattle.std.specs.Prelude.{◌≡◌};
ghost use Rattle.wasm_encoder_sections.specs.CoreItems as written;
ghost use Rattle.wasm_gen_view.specs.ItemReferences.{refer};
ghost use Rattle.wasm_gen_view.specs.Views.{item_type, global_type, memory_type, table_type};
ghost use Rattle.wasm_gen_view.specs.declared.types.TypeReference.TheVariants.{Other};
ghost use Rattle.wasm_spec.specs.TypeReferences.{external_map, global_map, table_map};

use crate::type_numbers::TypeNumbers;
use crate::types::TypePlace;
use crate::view::{GlobalType, Item, MemoryType, TableType};
use wasm_encoder_sections::entity_type;
use wasm_encoder_sections::entity_type::EntityType;

/// Returns the memory type.
pub(crate) fn memory_type(ty: &entity_type::MemoryType) -> MemoryType
    ensures { memory_type result ≡ written.memory_type ty.now }
{
    MemoryType {
        minimum: ty.minimum,
        maximum: ty.maximum,
        memory64: ty.memory64,
        shared: ty.shared,
        page_size_log2: ty.page_size_log2,
    }
}

impl TypeNumbers {
    /// Returns the place of the type of an index.
    pub(crate) fn place(&self, index: u32) -> TypePlace
        ensures { Other result ≡ refer self.now index }
    {
        match self.places().get(index as usize) {
            Some(place) => *place,
            None => TypePlace {
                group: self.group_count(),
                place: 0,
            },
        }
    }

    /// Returns the table type over places.
    pub(crate) fn table_type(&self, ty: &entity_type::TableType) -> TableType
        ensures { table_type result ≡ table_map (refer self.now) (written.table_type ty.now) }
    {
        TableType {
            element_type: self.references().ref_type(ty.element_type),
            minimum: ty.minimum,
            maximum: ty.maximum,
            table64: ty.table64,
        }
    }

    /// Returns the global type over places.
    pub(crate) fn global_type(&self, ty: &entity_type::GlobalType) -> GlobalType
        ensures { global_type result ≡ global_map (refer self.now) (written.global_type ty.now) }
    {
        GlobalType {
            value_type: self.references().val_type(ty.val_type),
            mutable: ty.mutable,
        }
    }

    /// Returns the type of an item over places.
    pub(crate) fn item(&self, ty: &EntityType) -> Item
        ensures { item_type result ≡ external_map (refer self.now) (written.entity_type ty.now) }
    {
        match ty {
            EntityType::Function(index) => Item::Function(self.place(*index)),
            EntityType::Table(ty) => Item::Table(self.table_type(ty)),
            EntityType::Memory(ty) => Item::Memory(memory_type(ty)),
            EntityType::Global(ty) => Item::Global(self.global_type(ty)),
            EntityType::Tag(ty) => Item::Tag(self.place(ty.func_type_idx)),
        }
    }
}
