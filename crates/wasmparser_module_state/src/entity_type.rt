//! Types of imported and exported items.

ghost use Rattle.std.specs.Prelude.{◌≡◌, IfSome, option_map};
ghost use Rattle.std.specs.Option.{option_and_then};
ghost use Rattle.wasm_validity.specs.Context.{item_at};
ghost use Rattle.wasmparser_readers.specs.Exports.{external_kind};
ghost use Rattle.wasmparser_module_state.specs.Entities.{entity_refs, entity_type, meant_item};
ghost use Rattle.wasmparser_module_state.specs.State.{context, item};
ghost use Rattle.wasmparser_module_types.specs.ModuleTypes.{AreIds};

use crate::by_ids::{global_by_ids, table_by_ids};
use crate::module_state::ModuleState;
use wasmparser_readers::export::ExternalKind;
use wasmparser_readers::global_type::GlobalType;
use wasmparser_readers::memory_type::MemoryType;
use wasmparser_readers::table_type::TableType;
use wasmparser_readers::type_ref::TypeRef;
use wasmparser_types::index::CoreTypeId;

/// The type of an imported or exported item.
#[derive(Clone, Copy, Debug, PartialEq, Eq)]
pub enum EntityType {
    /// A function of the type with this id.
    Func(CoreTypeId),
    /// A table. What the validator tells of an import as it is written keeps the type index (`TypesRef::entity_type_from_import`).
    Table(TableType),
    /// A memory.
    Memory(MemoryType),
    /// A global, likewise.
    Global(GlobalType),
    /// A tag whose function type has this id.
    Tag(CoreTypeId),
}

impl ModuleState {
    // Returns the type of an item with ids in place of type indexes, or None where the module has no type of such an index.
    #[tactic(auto, using(crate::proofs::IdLaws::entity_steps))]
    fn entity(&self, ty: TypeRef) -> Option<EntityType>
        ensures same { option_map (entity_type self.now.types) result ≡ meant_item (context self.now).types (item ty) }
        ensures ids { IfSome result (λ entity. AreIds self.now.types (entity_refs entity)) }
    {
        match ty {
            TypeRef::Func(index) => Some(EntityType::Func(self.types.type_id(index)?)),
            TypeRef::Table(ty) => Some(EntityType::Table(table_by_ids(&self.types, ty)?)),
            TypeRef::Memory(ty) => Some(EntityType::Memory(ty)),
            TypeRef::Global(ty) => Some(EntityType::Global(global_by_ids(&self.types, ty)?)),
            TypeRef::Tag(ty) => Some(EntityType::Tag(self.types.type_id(ty.func_type_idx)?)),
        }
    }

    /// Returns the item of a kind with an index, with ids in place of type indexes, or None where there is no such item or its type has an index
    /// that names no type.
    pub fn entity_at(&self, kind: ExternalKind, index: u32) -> Option<EntityType>
        ensures same { option_map (entity_type self.now.types) result ≡ option_and_then (meant_item (context self.now).types) (item_at (context self.now) (external_kind kind) index) }
        ensures ids { IfSome result (λ entity. AreIds self.now.types (entity_refs entity)) }
    {
        match self.exported_type(kind, index) {
            Some(ty) => self.entity(ty),
            None => None,
        }
    }
}
