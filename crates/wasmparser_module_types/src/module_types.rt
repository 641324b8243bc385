//! The types of a module, and the list of types that knows them and those of earlier modules.

ghost use Rattle.std.specs.Prelude.{◌≡◌, ◌≤◌, ◌+◌, ℕ, suc, IfErr, IfOk, IsSome, length};
ghost use Rattle.wasm_core_types.specs.Features.{feature_set};
ghost use Rattle.wasm_spec.specs.Groups.{IsWellFormedGroup};
ghost use Rattle.wasm_spec.specs.Limits.{Groups, Types, most};
ghost use Rattle.wasm_spec.specs.Trees.{types_after, types_of_group};
ghost use Rattle.wasmparser_error.specs.declared.error.ErrorKind.TheVariants as kinds;
ghost use Rattle.wasmparser_module_types.specs.History.{Enters};
ghost use Rattle.wasmparser_module_types.specs.ModuleTypes.{IsTooMany, KnowsModule, RefusesGroup, interned_types, known_types, module_types};
ghost use Rattle.wasmparser_rec_groups.specs.Contexts.{in_section};
ghost use Rattle.wasmparser_rec_groups.specs.Interning.{NamesModuleTypes};
ghost use Rattle.wasmparser_types.specs.RecGroups as spec;
ghost use Rattle.wasmparser_types.specs.RecGroups.{members};

use crate::kept_types::{func_type_in, id_at, sub_type_in};
use crate::tops::composite_top;
use crate::type_space::TypeSpace;
use crate::with_ids::{heap_with_ids, listed_ref, listed_val, ref_with_ids, val_with_ids};
use std::alloc::{AllocError, Global};
use std::marker::Model;
use std::mem;
use wasm_core_types::features::WasmFeatures;
use wasm_core_types::limits::{Limit, MAX_WASM_REC_GROUPS, MAX_WASM_TYPES};
use wasmparser_error::error::{Error, ErrorKind};
use wasmparser_rec_groups::intern::InternRecGroup;
use wasmparser_rec_groups::laws::{
    accepted_groups_are_well_formed, context_stays, refused_groups_are_ill_formed,
};
use wasmparser_type_list::rec_group_elements::RecGroupElements;
use wasmparser_type_list::type_list::TypeList;
use wasmparser_type_relations::subtyping::abstract_top;
use wasmparser_types::composite_type::FuncType;
use wasmparser_types::heap_type::{AbstractHeapType, HeapType};
use wasmparser_types::index::{CoreTypeId, RecGroupId, UnpackedIndex};
use wasmparser_types::ref_type::RefType;
use wasmparser_types::sub_type::{RecGroup, SubType};
use wasmparser_types::val_type::ValType;

// Returns a limit that is passed.
fn passed(limit: Limit, offset: u64) -> Error
    ensures { result ≡ record { offset = offset; kind = kinds.Limit limit } }
{
    Error {
        offset,
        kind: ErrorKind::Limit(limit),
    }
}

// Checks that a module with so many groups and types may have one group more, of so many types.
fn check_counts(groups: u32, types: usize, added: usize, offset: u64) -> Result<(), Error>
    requires { types ≤ most Types }
    ensures groups { IfOk result (λ _. suc groups ≤ most Groups) }
    ensures types { IfOk result (λ _. types + added ≤ most Types) }
    ensures refused { IfErr result (IsTooMany groups (types + added) offset) }
{
    if u64::from(groups) >= MAX_WASM_REC_GROUPS {
        return Err(passed(Limit::Groups, offset));
    }
    if added as u64 > MAX_WASM_TYPES - types as u64 {
        return Err(passed(Limit::Types, offset));
    }
    Ok(())
}

// Interns a group, and adds the ids of its types. After a refusal the list may have types that the module has not.
fn intern(
    space: &mut TypeSpace,
    list: &mut TypeList,
    group: RecGroup,
    offset: u64,
) -> Result<(), Error>
    requires knows { KnowsModule (feature_set space.old.features) list.old space.old.ids.items }
    requires grows { IsSome list.old.known }
    requires indexes { NamesModuleTypes (spec.rec_group group) }
    requires room { length space.old.ids.items + length (members (spec.rec_group group)) ≤ most Types }
    ensures features { feature_set space.new.features ≡ feature_set space.old.features }
    ensures knows { IfOk result (λ _. KnowsModule (feature_set space.old.features) list.new space.new.ids.items) }
    ensures grows { IsSome list.new.known }
    ensures accepted { IfOk result (λ _. IsWellFormedGroup (feature_set space.old.features) (module_types list.old space.old.ids.items) (in_section (spec.rec_group group))) }
    ensures added { IfOk result (λ _. module_types list.new space.new.ids.items ≡ types_after (module_types list.old space.old.ids.items) (in_section (spec.rec_group group))) }
    ensures entered { IfOk result (λ _. Enters (feature_set space.old.features) (interned_types list.old) (types_of_group (module_types list.old space.old.ids.items) (in_section (spec.rec_group group))) (interned_types list.new)) }
    ensures refused { (groups : ℕ) → suc groups ≤ most Groups → IfErr result (RefusesGroup (known_types (feature_set space.old.features) list.old space.old.ids.items groups) (in_section (spec.rec_group group)) offset) }
{
    // The laws that the clauses follow from, which do nothing.
    accepted_groups_are_well_formed();
    refused_groups_are_ill_formed();
    context_stays();
    space.canonicalize_and_intern_rec_group(list, group, offset)
}

// Adds a group. After a refusal the module has no types, nor has the list, in which those of the refused group may stand.
#[tactic(auto, using(crate::proofs::AddedGroups::knows_nothing))]
fn add(
    space: &mut TypeSpace,
    list: &mut TypeList,
    alloc: Global,
    group: RecGroup,
    offset: u64,
) -> Result<(), Error>
    requires knows { KnowsModule (feature_set space.old.features) list.old space.old.ids.items }
    requires grows { IsSome list.old.known }
    requires indexes { NamesModuleTypes (spec.rec_group group) }
    requires room { length space.old.ids.items + length (members (spec.rec_group group)) ≤ most Types }
    ensures features { feature_set space.new.features ≡ feature_set space.old.features }
    ensures knows { KnowsModule (feature_set space.new.features) list.new space.new.ids.items }
    ensures grows { IsSome list.new.known }
    ensures accepted { IfOk result (λ _. IsWellFormedGroup (feature_set space.old.features) (module_types list.old space.old.ids.items) (in_section (spec.rec_group group))) }
    ensures added { IfOk result (λ _. module_types list.new space.new.ids.items ≡ types_after (module_types list.old space.old.ids.items) (in_section (spec.rec_group group))) }
    ensures entered { IfOk result (λ _. Enters (feature_set space.old.features) (interned_types list.old) (types_of_group (module_types list.old space.old.ids.items) (in_section (spec.rec_group group))) (interned_types list.new)) }
    ensures refused { (groups : ℕ) → suc groups ≤ most Groups → IfErr result (RefusesGroup (known_types (feature_set space.old.features) list.old space.old.ids.items groups) (in_section (spec.rec_group group)) offset) }
{
    match intern(space, list, group, offset) {
        Ok(()) => Ok(()),
        Err(error) => {
            let features = space.features();
            *space = TypeSpace::new(alloc, features);
            *list = TypeList::new(alloc);
            Err(error)
        }
    }
}

/// The types of a module, whose groups are judged by features and added one after the other, and a list of types that knows them. Groups of modules that have ended
/// stay in the list.
#[derive(Drop)]
pub struct ModuleTypes {
    alloc: Global,
    space: TypeSpace,
    list: TypeList,
    groups: u32,
}

impl Model for ModuleTypes {
    ghost use Rattle.std.specs.Prelude.{◌≤◌};
    ghost use Rattle.wasm_core_types.specs.Features.{feature_set};
    ghost use Rattle.wasm_spec.specs.Limits.{Groups, most};
    ghost use Rattle.wasmparser_module_types.specs.ModuleTypes.{KnownTypes, KnowsModule, known_types, known_types_code};

    ghost Value = { KnownTypes };

    ghost coded = { known_types_code };

    ghost view = { λ it. known_types (feature_set it.space.features) it.list it.space.ids.items it.groups };

    ghost invariant = { λ it. KnowsModule (feature_set it.space.features) it.list it.space.ids.items × (it.groups ≤ most Groups) };
}

impl ModuleTypes {
    ghost use Rattle.std.specs.Prelude.{◌≡◌, ◌<◌, ◌≤◌, [], IfErr, IfOk, IfSome, IsSome, IsTrue, Some, false, is_some, length, option_map, slice_get, true};
    ghost use Rattle.std.specs.List.{flat_map, range_with_len};
    ghost use Rattle.std.specs.Option.{option_copied};
    ghost use Rattle.wasm_core_types.specs.Features.{feature_set};
    ghost use Rattle.wasm_spec.specs.Limits.{Types, most};
    ghost use Rattle.wasm_spec.specs.Subtyping.{ValBelow};
    ghost use Rattle.wasm_spec.specs.Features.{needs_type_canonicalization};
    ghost use Rattle.wasm_spec.specs.Trees.{AreDistinct, type_at, unrolled};
    ghost use Rattle.wasm_spec.specs.TypeReferences.{func_refs, heap_map, heap_refs, ref_map, sub_map, sub_refs, val_map, val_refs};
    ghost use Rattle.wasm_spec.specs.Types.{Concrete};
    ghost use Rattle.wasmparser_type_relations.specs.Chains.{by_id};
    ghost use Rattle.wasmparser_type_relations.specs.Tops.{top_above};
    ghost use Rattle.wasmparser_module_types.specs.Greatest.{greatest_above};
    ghost use Rattle.wasmparser_module_types.specs.ModuleTypes.{AddsGroup, AreIds, AreKnownTypes, CanCompare, IsFuncTypeAt, IsGroupOf, RefusesGroup, func_type_of_index, ids_of_group, stands_for, sub_type_of_index};
    ghost use Rattle.wasmparser_type_relations.specs.Decision.{is_val_below};
    ghost use Rattle.wasmparser_type_list.specs.IdTypes.{IsWholeGroup};
    ghost use Rattle.wasmparser_module_types.specs.WithIds.{heap_by_ids, index_at, names_only, names_only_heap, ref_by_ids, val_by_ids};
    ghost use Rattle.wasmparser_rec_groups.specs.Contexts.{in_section};
    ghost use Rattle.wasmparser_rec_groups.specs.Interning.{NamesModuleTypes};
    ghost use Rattle.wasmparser_types.specs.CompositeTypes.{func_type};
    ghost use Rattle.wasmparser_types.specs.HeapTypes.{abstract_heap_type, heap_type};
    ghost use Rattle.wasmparser_types.specs.Index.{number_of};
    ghost use Rattle.wasmparser_types.specs.RecGroups as spec;
    ghost use Rattle.wasmparser_types.specs.SubTypes.{sub_type};
    ghost use Rattle.wasmparser_types.specs.UnpackedIndex as unpacked;
    ghost use Rattle.wasmparser_types.specs.ValTypes.{val_type};

    /// Creates a module without types, and a list without types.
    #[tactic(auto, using(crate::proofs::AddedGroups::knows_nothing))]
    pub fn new(alloc: Global, features: WasmFeatures) -> ModuleTypes
        ensures { result ≡ record { features = feature_set features; types = []; groups = 0; interned = []; interned_groups = []; grows = true; ids = []; sub_types = [] } }
    {
        ModuleTypes {
            alloc,
            space: TypeSpace::new(alloc, features),
            list: TypeList::new(alloc),
            groups: 0,
        }
    }

    /// Adds a group, which names types by their places in the module. After a refusal it is left open which types the module and the list have.
    ///
    /// # Errors
    /// Each at the offset: `Limit` where the group is one too many, its types are too many, or one of them passes a limit. `Invalid` where it breaks a rule. `Total`
    /// where the types of the list and of the group are more than 1,048,576, whether or not the list has the group. `Memory` where memory runs out, for a group that is
    /// within all limits but that on depth, is allowed, and refers to types that are there.
    pub fn add_rec_group(&mut self, group: RecGroup, offset: u64) -> Result<(), Error>
        requires grows { self.old.grows ≡ true }
        requires indexes { NamesModuleTypes (spec.rec_group group) }
        ensures added { IfOk result (λ _. AddsGroup self.old self.new (in_section (spec.rec_group group))) }
        ensures refused { IfErr result (RefusesGroup self.old (in_section (spec.rec_group group)) offset) }
        ensures same_features { self.new.features ≡ self.old.features }
        ensures grows { self.new.grows ≡ true }
    {
        let types = self.space.type_ids().len();
        check_counts(self.groups, types, group.types().len(), offset)?;
        add(&mut self.space, &mut self.list, self.alloc, group, offset)?;
        self.groups += 1;
        Ok(())
    }

    /// Ends the module: gives its types with a copy of the list, which shares the types and doesn't grow, and goes on with the list and no module.
    ///
    /// # Errors
    /// Where memory runs out, nothing changes.
    #[tactic(auto, using(crate::proofs::AddedGroups::copies))]
    pub fn end_module(&mut self) -> Result<ModuleTypes, AllocError>
        ensures ended { IfOk result (λ ended. ended ≡ record self.old { grows = false }) }
        ensures kept { IfOk result (λ _. self.new ≡ record self.old { types = []; groups = 0; ids = [] }) }
        ensures refused { IfErr result (λ _. self.new ≡ self.old) }
    {
        let list = self.list.commit()?;
        let none = TypeSpace::new(self.alloc, self.space.features());
        Ok(ModuleTypes {
            alloc: self.alloc,
            space: mem::replace(&mut self.space, none),
            list,
            groups: mem::replace(&mut self.groups, 0),
        })
    }

    /// Returns a copy of the module's types, with a copy of the list that shares the types and doesn't grow.
    ///
    /// # Errors
    /// Where memory runs out.
    #[tactic(auto, using(crate::proofs::AddedGroups::copies))]
    pub fn copy(&mut self) -> Result<ModuleTypes, AllocError>
        ensures copied { IfOk result (λ copy. copy ≡ record self.old { grows = false }) }
        ensures same { self.new ≡ self.old }
    {
        let list = self.list.commit()?;
        let space = self.space.copy(self.alloc)?;
        Ok(ModuleTypes {
            alloc: self.alloc,
            space,
            list,
            groups: self.groups,
        })
    }

    /// Does nothing: its contract states what always holds.
    pub fn are_known(&self)
        ensures { AreKnownTypes self.now }
    {
        // (whose invariant it is)
        let _ = &self.list;
    }

    /// Goes on with the list, and without the module.
    #[tactic(auto, using(crate::proofs::AddedGroups::copies))]
    pub fn forget_module(&mut self)
        ensures { self.new ≡ record self.old { types = []; groups = 0; ids = [] } }
    {
        self.space = TypeSpace::new(self.alloc, self.space.features());
        self.groups = 0;
    }

    /// Returns the function type that a type index names, by ids of the list, or None where the index names another kind of type or none.
    pub fn func_type(&self, index: u32) -> Option<&FuncType>
        ensures named { IsFuncTypeAt self.now index (option_map func_type (option_copied result)) }
        ensures ids { IfSome result (λ ty. AreIds self.now (func_refs (func_type ty.now))) }
        ensures exact { option_map func_type (option_copied result) ≡ func_type_of_index self.now index }
    {
        func_type_in(&self.list, self.space.type_ids(), index)
    }

    /// Returns the id of the type that a type index names, or None where the index names none.
    pub fn type_id(&self, index: u32) -> Option<CoreTypeId>
        ensures named { slice_get self.now.types index ≡ option_map (type_at self.now.interned) result }
        ensures known { IfSome result (λ id. id < length self.now.interned) }
        ensures exact { result ≡ slice_get self.now.ids index }

        // Where types are canonicalized, no type has two ids.
        ensures distinct { needs_type_canonicalization self.now.features ≡ true → AreDistinct self.now.interned }
    {
        id_at(self.space.type_ids(), index as usize)
    }

    /// Returns the sub type that an id stands for. It names others by ids.
    pub fn sub_type(&self, id: CoreTypeId) -> &SubType
        requires { id < length self.now.interned }
        ensures unrolled { unrolled (type_at self.now.interned id) ≡ Some (sub_map (stands_for self.now) (sub_type result.now)) }
        ensures ids { AreIds self.now (sub_refs (sub_type result.now)) }
        ensures exact { Some (sub_type result.now) ≡ slice_get self.now.sub_types id }
    {
        sub_type_in(&self.list, id)
    }

    /// Returns the group that the type of a known id came in.
    pub fn rec_group_id_of(&self, id: CoreTypeId) -> RecGroupId
        requires { id < length self.now.interned }
        ensures { IsGroupOf self.now id result }
    {
        self.list.rec_group_id_of(id)
    }

    /// Returns the ids of a group's types, in the order in which it has them. An unknown group has none.
    pub fn rec_group_elements(&self, id: RecGroupId) -> RecGroupElements
        ensures ids { result ≡ ids_of_group self.now id }
        ensures whole { id < length self.now.interned_groups → IsWholeGroup self.now.interned result }

        // Each id is in one group, and they are in order.
        ensures parts { flat_map (λ ids. ids) self.now.interned_groups ≡ range_with_len 0 (length self.now.interned) }
    {
        self.list.rec_group_elements(id)
    }

    /// Does the same for any id, or None where the list doesn't know it.
    pub fn get(&self, id: CoreTypeId) -> Option<&SubType>
        ensures all { id < length self.now.interned → IsSome result }
        ensures known { IfSome result (λ _. id < length self.now.interned) }
        ensures unrolled { IfSome result (λ ty. unrolled (type_at self.now.interned id) ≡ Some (sub_map (stands_for self.now) (sub_type ty.now))) }
        ensures ids { IfSome result (λ ty. AreIds self.now (sub_refs (sub_type ty.now))) }
        ensures exact { option_map sub_type (option_copied result) ≡ slice_get self.now.sub_types id }
    {
        self.list.get(id)
    }

    /// Returns the sub type that a type index names, or None where the index names none. It names others by ids.
    pub fn sub_type_at(&self, index: u32) -> Option<&SubType>
        ensures { option_map sub_type (option_copied result) ≡ sub_type_of_index self.now index }
    {
        self.get(self.type_id(index)?)
    }

    /// Returns a heap type with an id in place of the type index that it has, or None where the module has no type of that index. An index of any kind counts as a type
    /// index, by its number.
    pub fn heap_with_ids(&self, ty: HeapType) -> Option<HeapType>
        ensures named { is_some result ≡ names_only_heap self.now.types (heap_map number_of (heap_type ty)) }
        ensures same { IfSome result (λ new. heap_map (stands_for self.now) (heap_type new) ≡ heap_map (type_at self.now.types) (heap_map number_of (heap_type ty))) }
        ensures ids { IfSome result (λ new. AreIds self.now (heap_refs (heap_type new))) }
        ensures exact { option_map heap_type result ≡ heap_by_ids self.now.ids (heap_type ty) }
    {
        heap_with_ids(self.space.type_ids(), ty)
    }

    /// Returns a reference type, likewise.
    pub fn ref_with_ids(&self, ty: RefType) -> Option<RefType>
        ensures { result ≡ ref_by_ids self.now.ids ty }
    {
        ref_with_ids(self.space.type_ids(), ty)
    }

    /// Returns a value type with an id in place of the type index that it has, as [`ModuleTypes::heap_with_ids`] gives heap types.
    pub fn with_ids(&self, ty: ValType) -> Option<ValType>
        ensures named { is_some result ≡ names_only self.now.types (val_map number_of (val_type ty)) }
        ensures same { IfSome result (λ new. val_map (stands_for self.now) (val_type new) ≡ val_map (type_at self.now.types) (val_map number_of (val_type ty))) }
        ensures ids { IfSome result (λ new. AreIds self.now (val_refs (val_type new))) }
        ensures exact { option_map val_type result ≡ val_by_ids self.now.ids (val_type ty) }
    {
        val_with_ids(self.space.type_ids(), ty)
    }

    /// Returns a reference type with an id in place of the type index that it has, if the module has a type of that index. An index of any kind counts as a type index, by
    /// its number.
    pub fn listed_ref(&self, ty: RefType) -> RefType
        ensures { result ≡ ref_map (index_at self.now.ids) (ref_map number_of ty) }
    {
        listed_ref(self.space.type_ids(), ty)
    }

    /// Returns a value type, likewise.
    pub fn listed_val(&self, ty: ValType) -> ValType
        ensures { val_type result ≡ val_map (index_at self.now.ids) (val_map number_of (val_type ty)) }
    {
        listed_val(self.space.type_ids(), ty)
    }

    /// Returns the greatest type above a heap type that names a type by its id: the type itself, where an index stands for no known type.
    pub fn top_type(&self, ty: &HeapType) -> HeapType
        ensures { heap_type result ≡ greatest_above (by_id (slice_get self.now.sub_types)) (heap_type ty.now) }
    {
        match ty {
            HeapType::Abstract(heap) => HeapType::Abstract(abstract_top(*heap)),
            HeapType::Concrete(index) => match self.top_of_index(index) {
                Some(top) => HeapType::Abstract(top),
                None => *ty,
            },
        }
    }

    // Returns the greatest type above the type that an index stands for, if it stands for one.
    fn top_of_index(&self, index: &UnpackedIndex) -> Option<AbstractHeapType>
        ensures { option_map abstract_heap_type result ≡ top_above (by_id (slice_get self.now.sub_types)) (Concrete (unpacked.index index.now)) }
    {
        let ty = self.get(index.as_core_type_id()?)?;
        Some(composite_top(&ty.composite_type))
    }

    /// Checks that a value type is below another one, where both name types by ids. Where types aren't canonicalized, equal types may have several ids, which
    /// count as several types here.
    pub fn is_subtype(&self, a: ValType, b: ValType) -> bool
        ensures below { IsTrue result → ValBelow unrolled (val_map (stands_for self.now) (val_type a)) (val_map (stands_for self.now) (val_type b)) }
        ensures all { AreIds self.now (val_refs (val_type a)) → AreIds self.now (val_refs (val_type b)) → CanCompare self.now.features (val_refs (val_type a)) (val_refs (val_type b))
            → ValBelow unrolled (val_map (stands_for self.now) (val_type a)) (val_map (stands_for self.now) (val_type b)) → IsTrue result }
        ensures exact { result ≡ is_val_below (by_id (slice_get self.now.sub_types)) (val_type a) (val_type b) }
    {
        self.list.valtype_is_subtype(a, b)
    }

    /// Returns the number of types of the module.
    pub fn len(&self) -> usize
        ensures count { result ≡ length self.now.types }
        ensures few { result ≤ most Types }
    {
        self.space.type_ids().len()
    }

    /// Returns the features by which groups are judged.
    pub fn features(&self) -> WasmFeatures
        ensures { feature_set result ≡ self.now.features }
    {
        self.space.features()
    }
}
