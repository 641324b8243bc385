//! The items in the index spaces of a valid module, with ids in place of type indexes.

ghost use Rattle.std.specs.Prelude.{◌≡◌, ◌<◌, IfSome, IsSome, Some, length, option_map, slice_get, true};
ghost use Rattle.std.specs.List.{flat_map, range_with_len};
ghost use Rattle.std.specs.Option.{option_and_then, option_copied};
ghost use Rattle.wasm_spec.specs.Features.{needs_type_canonicalization};
ghost use Rattle.wasm_spec.specs.Trees.{AreDistinct, type_at, unrolled};
ghost use Rattle.wasm_spec.specs.TypeReferences.{external_map, global_map, global_refs, ref_map, ref_refs, sub_map, sub_refs, table_map, table_refs};
ghost use Rattle.wasmparser_type_list.specs.IdTypes.{IsWholeGroup};
ghost use Rattle.wasmparser_readers.specs.Exports.{export_item, external_kind};
ghost use Rattle.wasmparser_readers.specs.ItemTypes.{global_type, memory_type, table_type};
ghost use Rattle.wasmparser_module_state.specs.Entities.{entity_refs, entity_type};
ghost use Rattle.wasmparser_module_types.specs.ModuleTypes.{AreIds, IsGroupOf, ids_of_group, stands_for};
ghost use Rattle.wasmparser_types.specs.SubTypes.{sub_type};
ghost use Rattle.wasmparser_validator.specs.Shown.{IsImported, declared_supertype, exported, known, spaces, supertype_in};
ghost use Rattle.wasmparser_validator.specs.ShownImports.{shown_item};

use crate::types::{Types, TypesRef};
use std::ops::Index;
use wasmparser_entries::imports::Import;
use wasmparser_module_state::by_ids::{global_by_ids, ref_by_ids, table_by_ids};
use wasmparser_module_state::entity_type::EntityType;
use wasmparser_readers::export::{Export, ExternalKind};
use wasmparser_readers::global_type::GlobalType;
use wasmparser_readers::memory_type::MemoryType;
use wasmparser_readers::table_type::TableType;
use wasmparser_readers::type_ref::TypeRef;
use wasmparser_type_list::rec_group_elements::RecGroupElements;
use wasmparser_types::index::{CoreTypeId, RecGroupId};
use wasmparser_types::ref_type::RefType;
use wasmparser_types::sub_type::SubType;

// Returns the id that a type has for its supertype.
fn supertype_in(ty: &SubType) -> Option<CoreTypeId>
    ensures { result ≡ supertype_in (sub_type ty.now) }
{
    ty.supertype_idxs.first()?.as_core_type_id()
}

impl<'a> TypesRef<'a> {
    /// Returns the sub type that an id stands for, which names others by ids, or None where there is no such id.
    pub fn get(&self, id: CoreTypeId) -> Option<&'a SubType>
        ensures all { id < length (known self.now).interned → IsSome result }
        ensures known { IfSome result (λ _. id < length (known self.now).interned) }
        ensures unrolled { IfSome result (λ ty. unrolled (type_at (known self.now).interned id) ≡ Some (sub_map (stands_for (known self.now)) (sub_type ty.now))) }
        ensures ids { IfSome result (λ ty. AreIds (known self.now) (sub_refs (sub_type ty.now))) }
        ensures exact { option_map sub_type (option_copied result) ≡ slice_get (known self.now).sub_types id }
    {
        self.state().types().get(id)
    }

    /// Returns the id of the supertype that a type declares, if it does. The id is one of these types'.
    #[tactic(auto, using(crate::proofs::SpaceLaws::supertype_steps))]
    pub fn supertype_of(&self, id: CoreTypeId) -> Option<CoreTypeId>
        requires { id < length (known self.now).interned }
        ensures same { option_map (type_at (known self.now).interned) result ≡ declared_supertype (type_at (known self.now).interned id) }
        ensures known { IfSome result (λ it. it < length (known self.now).interned) }
    {
        supertype_in(self.state().types().sub_type(id))
    }

    /// Returns the group that the type of an id came in, which is one of these types'.
    pub fn rec_group_id_of(&self, id: CoreTypeId) -> RecGroupId
        requires { id < length (known self.now).interned }
        ensures { IsGroupOf (known self.now) id result }
    {
        self.state().types().rec_group_id_of(id)
    }

    /// Returns the ids of a group's types, in the order in which it has them. A group that isn't one of these types' has none.
    pub fn rec_group_elements(&self, id: RecGroupId) -> RecGroupElements
        ensures ids { result ≡ ids_of_group (known self.now) id }
        ensures whole { id < length (known self.now).interned_groups → IsWholeGroup (known self.now).interned result }

        // Each id is in one group, and they are in order.
        ensures parts { flat_map (λ ids. ids) (known self.now).interned_groups ≡ range_with_len 0 (length (known self.now).interned) }
    {
        self.state().types().rec_group_elements(id)
    }

    /// Returns the id of the type with this index, which is below their number.
    #[tactic(auto, using(crate::proofs::SpaceLaws::found_steps))]
    pub fn core_type_at_in_module(&self, index: u32) -> CoreTypeId
        requires { index < length (spaces self.now).types }
        ensures same { slice_get (spaces self.now).types index ≡ Some (type_at (known self.now).interned result) }
        ensures known { result < length (known self.now).interned }

        // Where types are canonicalized, no type has two ids.
        ensures distinct { needs_type_canonicalization (known self.now).features ≡ true → AreDistinct (known self.now).interned }
    {
        self.state().types().type_id(index).unwrap()
    }

    /// Returns the id of the type of the function with this index, which is below their number.
    #[tactic(auto, using(crate::proofs::SpaceLaws::found_steps))]
    pub fn core_function_at(&self, index: u32) -> CoreTypeId
        requires { index < length (spaces self.now).functions }
        ensures same { option_and_then (slice_get (spaces self.now).types) (slice_get (spaces self.now).functions index) ≡ Some (type_at (known self.now).interned result) }
        ensures known { result < length (known self.now).interned }
    {
        let state = self.state();
        let Some(ty) = state.type_of_function(index) else {
            unreachable!()
        };
        let Some(id) = state.types().type_id(ty) else {
            unreachable!()
        };
        id
    }

    /// Returns the type of the table with this index, which is below their number.
    pub fn table_at(&self, index: u32) -> TableType
        requires { index < length (spaces self.now).tables }
        ensures same { option_map (table_map (type_at (spaces self.now).types)) (slice_get (spaces self.now).tables index) ≡ Some (table_map (stands_for (known self.now)) (table_type result)) }
        ensures ids { AreIds (known self.now) (table_refs (table_type result)) }
    {
        let state = self.state();
        let Some(ty) = state.table_at(index) else {
            unreachable!()
        };
        let Some(ty) = table_by_ids(state.types(), ty) else {
            unreachable!()
        };
        ty
    }

    /// Returns the type of the memory with this index, which is below their number.
    #[tactic(auto, using(crate::proofs::SpaceLaws::found_steps))]
    pub fn memory_at(&self, index: u32) -> MemoryType
        requires { index < length (spaces self.now).memories }
        ensures { slice_get (spaces self.now).memories index ≡ Some (memory_type result) }
    {
        self.state().memory_at(index).unwrap()
    }

    /// Returns the type of the global with this index, which is below their number.
    pub fn global_at(&self, index: u32) -> GlobalType
        requires { index < length (spaces self.now).globals }
        ensures same { option_map (global_map (type_at (spaces self.now).types)) (slice_get (spaces self.now).globals index) ≡ Some (global_map (stands_for (known self.now)) (global_type result)) }
        ensures ids { AreIds (known self.now) (global_refs (global_type result)) }
    {
        let state = self.state();
        let Some(ty) = state.global_at(index) else {
            unreachable!()
        };
        let Some(ty) = global_by_ids(state.types(), ty) else {
            unreachable!()
        };
        ty
    }

    /// Returns the id of the function type of the tag with this index, which is below their number.
    #[tactic(auto, using(crate::proofs::SpaceLaws::found_steps))]
    pub fn tag_at(&self, index: u32) -> CoreTypeId
        requires { index < length (spaces self.now).tags }
        ensures same { option_and_then (slice_get (spaces self.now).types) (slice_get (spaces self.now).tags index) ≡ Some (type_at (known self.now).interned result) }
        ensures known { result < length (known self.now).interned }
    {
        let state = self.state();
        let Some(ty) = state.type_of_tag(index) else {
            unreachable!()
        };
        let Some(id) = state.types().type_id(ty) else {
            unreachable!()
        };
        id
    }

    /// Returns the type of the items of the element segment with this index, which is below their number.
    pub fn element_at(&self, index: u32) -> RefType
        requires { index < length (spaces self.now).elements }
        ensures same { option_map (ref_map (type_at (spaces self.now).types)) (slice_get (spaces self.now).elements index) ≡ Some (ref_map (stands_for (known self.now)) result) }
        ensures ids { AreIds (known self.now) (ref_refs result) }
    {
        let state = self.state();
        let Some(ty) = state.element_type_at(index) else {
            unreachable!()
        };
        let Some(ty) = ref_by_ids(state.types(), ty) else {
            unreachable!()
        };
        ty
    }

    // Returns the item of a kind with an index, or None where there is no such item.
    pub(crate) fn entity(&self, kind: ExternalKind, index: u32) -> Option<EntityType>
        ensures same { option_map (entity_type (known self.now)) result ≡ shown_item self.now.types.now.state (external_kind kind) index }
        ensures ids { IfSome result (λ entity. AreIds (known self.now) (entity_refs entity)) }
    {
        self.state().entity_at(kind, index)
    }

    /// Returns the item that an export names, or `None` where the module has no item of its kind with its index.
    pub fn entity_type_from_export(&self, export: &Export<'_>) -> Option<EntityType>
        ensures same { option_map (entity_type (known self.now)) result ≡ option_map (external_map (type_at (spaces self.now).types)) (exported self.now (export_item export.now)) }
        ensures ids { IfSome result (λ entity. AreIds (known self.now) (entity_refs entity)) }
    {
        self.entity(export.kind, export.index)
    }

    /// Returns the item that an import declares, or `None` where it is a function or a tag whose type index the module doesn't have. The types of tables and globals stay as the
    /// import writes them.
    pub fn entity_type_from_import(&self, import: &Import<'_>) -> Option<EntityType>
        ensures { IsImported (known self.now) import.now.ty result }
    {
        let types = self.state().types();
        match import.ty {
            TypeRef::Func(index) => Some(EntityType::Func(types.type_id(index)?)),
            TypeRef::Table(ty) => Some(EntityType::Table(ty)),
            TypeRef::Memory(ty) => Some(EntityType::Memory(ty)),
            TypeRef::Global(ty) => Some(EntityType::Global(ty)),
            TypeRef::Tag(ty) => Some(EntityType::Tag(types.type_id(ty.func_type_idx)?)),
        }
    }
}

impl<'a> Index<CoreTypeId> for TypesRef<'a> {
    ghost use Rattle.std.specs.Prelude.{◌<◌, length};
    ghost use Rattle.wasmparser_types.specs.SubTypes.{sub_type};
    ghost use Rattle.wasmparser_validator.specs.Shown.{StandsFor, known};

    type Output = SubType;

    ghost can_index = { λ types id. id < length (known types).interned };

    ghost index_gives = { λ types id ty. StandsFor (known types) id (sub_type ty) };

    /// Returns the sub type that a known id stands for, as [`TypesRef::get`] gives it.
    fn index(&self, id: CoreTypeId) -> &SubType {
        self.state().types().sub_type(id)
    }
}

impl Index<CoreTypeId> for Types {
    ghost use Rattle.std.specs.Prelude.{◌<◌, length};
    ghost use Rattle.wasmparser_types.specs.SubTypes.{sub_type};
    ghost use Rattle.wasmparser_validator.specs.Shown.{StandsFor};

    type Output = SubType;

    ghost can_index = { λ types id. id < length types.state.types.interned };

    ghost index_gives = { λ types id ty. StandsFor types.state.types id (sub_type ty) };

    /// Returns the sub type that a known id stands for, as [`TypesRef::get`] gives it.
    fn index(&self, id: CoreTypeId) -> &SubType {
        let types = self.state().types();
        types.sub_type(id)
    }
}
