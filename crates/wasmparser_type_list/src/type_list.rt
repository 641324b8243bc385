//! The types that a validator knows, in which equal ones are one.

ghost use Rattle.std.specs.Prelude.{◌≡◌, ◌⊎◌, ◌≤◌, ◌<◌, IfErr, IfOk, map};
ghost use Rattle.std.specs.Option.{option_copied};
ghost use Rattle.wasmparser_types.specs.RecGroups.{members};
ghost use Rattle.wasmparser_types.specs.SubTypes.{sub_type};
ghost use Rattle.wasmparser_type_list.specs.TypeTables.{Adds, AreWithin, EntersKey, Interns, IsKeyOf, IsNoIntern, TablesAgree, found_by, has_room, max_types};

use crate::absolute::make_absolute;
use crate::type_identifier::TypeIdentifier;
use std::alloc::{AllocError, Global};
use std::fmt;
use std::marker::Model;
use std::ops::{Index, Range};
use wasmparser_error::error::{Error, ErrorKind};
use wasmparser_type_relations::chain::{Chain, group_chains};
use wasmparser_type_relations::group_key::group_key;
use wasmparser_type_relations::group_map::GroupMap;
use wasmparser_type_relations::snapshot_list::SnapshotList;
use wasmparser_types::composite_type::FuncType;
use wasmparser_types::index::{CoreTypeId, PackedIndex, RecGroupId, UnpackedIndex};
use wasmparser_types::sub_type::{RecGroup, SubType};

// The most types that a list holds, which is `MAX_WASM_TOTAL_TYPES`.
const MAX_TYPES: usize = 1 << 20;

// Reserves capacity in all tables for a group of so many types.
fn reserve(
    types: &mut SnapshotList<SubType>,
    rec_groups: &mut SnapshotList<RecGroupId>,
    chains: &mut SnapshotList<Option<Chain>>,
    groups: &mut SnapshotList<Range<CoreTypeId>>,
    count: usize,
) -> Result<(), AllocError>
    ensures types { types.new.items ≡ types.old.items }
    ensures rec_groups { rec_groups.new.items ≡ rec_groups.old.items }
    ensures chains { chains.new.items ≡ chains.old.items }
    ensures groups { groups.new.items ≡ groups.old.items }
    ensures room { IfOk result (λ _. (count ≤ types.new.room) × (count ≤ rec_groups.new.room) × (count ≤ chains.new.room) × (1 ≤ groups.new.room)) }
    ensures no_room { IfErr result (λ _. (types.old.room < count) ⊎ ((rec_groups.old.room < count) ⊎ ((chains.old.room < count) ⊎ (groups.old.room < 1)))) }
{
    types.reserve(count)?;
    rec_groups.reserve(count)?;
    chains.reserve(count)?;
    groups.reserve(1)
}

// Enters a group where equal ones are to be found.
fn enter(
    known: &mut Option<GroupMap>,
    key: Option<Vec<u32>>,
    id: RecGroupId,
) -> Result<(), AllocError>
    ensures entered { IfOk result (λ _. EntersKey known.old known.new key id) }
    ensures refused { IfErr result (λ _. known.new ≡ known.old) }
{
    match (known, key) {
        (Some(groups), Some(key)) => groups.insert(key, id),
        _ => Ok(()),
    }
}

// Returns the key under which a group is sought, where equal ones are to be one.
fn key_of(
    alloc: Global,
    is_canonical: bool,
    types: &[SubType],
) -> Result<Option<Vec<u32>>, AllocError>
    ensures { IfOk result (IsKeyOf is_canonical (map sub_type types.now)) }
{
    if is_canonical {
        Ok(Some(group_key(alloc, types)?))
    } else {
        Ok(None)
    }
}

/// The types that a validator knows. Two of them have one id exactly when they are equal, where two definitions count as two types if either was interned
/// without canonicalization. A group that names a type by its index in a module is kept as it is: such an index stands for nothing here.
#[derive(Drop)]
pub struct TypeList {
    alloc: Global,
    core_types: SnapshotList<SubType>,
    core_type_to_rec_group: SnapshotList<RecGroupId>,
    core_type_to_chain: SnapshotList<Option<Chain>>,
    rec_group_elements: SnapshotList<Range<CoreTypeId>>,
    // None in a committed copy, which doesn't grow on.
    canonical_rec_groups: Option<GroupMap>,
}

impl Model for TypeList {
    ghost use Rattle.wasmparser_type_list.specs.TypeTables.{TypeTables};

    ghost Value = { TypeTables };

    ghost view = { λ list. record {
      types = list.core_types.items;
      rec_groups = list.core_type_to_rec_group.items;
      chains = list.core_type_to_chain.items;
      groups = list.rec_group_elements.items;
      known = list.canonical_rec_groups;
    } };
}

impl TypeList {
    ghost use Rattle.std.specs.Prelude.{◌≡◌, ◌+◌, ◌≤◌, [], Some, None, IfErr, IfOk, IsSome, OnOk, Bool, ℕ, ◌<◌, ◌^◌, ◌∷◌, length, map, nat_le, slice_get, true};
    ghost use Rattle.wasmparser_error.specs.declared.error.ErrorKind.TheVariants as kinds;
    ghost use Rattle.wasmparser_types.specs.UnpackedIndex as unpacked;
    ghost use Rattle.wasmparser_type_relations.specs.Chains.{chain_of};
    ghost use Rattle.wasmparser_type_list.specs.TypeTables.{committed, final_func, id_of, local_id, supertype_at};
    ghost use Rattle.wasmparser_types.specs.CompositeTypes.{func_type};
    ghost use Rattle.wasmparser_types.specs.RecGroups as spec;
    ghost use Rattle.std.specs.Borrow.{sem};
    ghost use Rattle.wasmparser_type_list.specs.Lending.{LendsGroups, LendsTypes};

    /// Creates a list without types.
    pub fn new(alloc: Global) -> TypeList
        ensures empty { result ≡ record { types = []; rec_groups = []; chains = []; groups = []; known = Some [] } }
        ensures agree { TablesAgree result }
    {
        TypeList {
            alloc,
            core_types: SnapshotList::new(alloc),
            core_type_to_rec_group: SnapshotList::new(alloc),
            core_type_to_chain: SnapshotList::new(alloc),
            rec_group_elements: SnapshotList::new(alloc),
            canonical_rec_groups: Some(GroupMap::new(alloc)),
        }
    }

    // Returns the number of the next group, unless there are as many as a `u32` counts.
    fn next_group(&self) -> Result<RecGroupId, AllocError>
        ensures next { IfOk result (λ id. id ≡ length self.now.groups) }
        ensures full { IfErr result (λ _. 2 ^ 32 ≤ length self.now.groups) }
    {
        match u32::try_from(self.rec_group_elements.len()) {
            Ok(number) => Ok(RecGroupId::from_index(number)),
            Err(_) => Err(AllocError),
        }
    }

    // Adds a group. All that may be refused comes before the first change.
    fn add(
        &mut self,
        mut types: Vec<SubType>,
        key: Option<Vec<u32>>,
    ) -> Result<RecGroupId, AllocError>
        requires agree { TablesAgree self.old }
        requires room { length self.old.types + length types.items ≤ max_types }
        requires within { AreWithin (length self.old.types) (map sub_type types.items) }
        ensures added { IfOk result (Adds self.old self.new (map sub_type types.items)) }
        ensures entered { IfOk result (EntersKey self.old.known self.new.known key) }
        ensures refused { IfErr result (λ _. self.new ≡ self.old) }
    {
        let count = types.len();
        let first = self.core_types.len() as u32;
        let id = self.next_group()?;
        make_absolute(&mut types, first);
        let chains = group_chains(self.alloc, &self.core_type_to_chain, &types)?;
        let rec_groups = vec![in self.alloc; id; count]?;
        reserve(
            &mut self.core_types,
            &mut self.core_type_to_rec_group,
            &mut self.core_type_to_chain,
            &mut self.rec_group_elements,
            count,
        )?;
        enter(&mut self.canonical_rec_groups, key, id)?;
        self.core_types.append_reserved(types);
        self.core_type_to_rec_group.append_reserved(rec_groups);
        self.core_type_to_chain.append_reserved(chains);
        let end = CoreTypeId::from_index(first + count as u32);
        self.rec_group_elements
            .push_reserved(CoreTypeId::from_index(first)..end);
        Ok(id)
    }

    // Returns the types, by id.
    pub(crate) fn core_types(&self) -> &SnapshotList<SubType>
        ensures { result.now.items ≡ self.now.types }
    {
        &self.core_types
    }

    // Returns the types, to be changed.
    pub(crate) fn core_types_mut(&mut self) -> &mut SnapshotList<SubType>
        ensures* lends { sem 𝓛 (LendsTypes self.entry result) }
        ensures value { result.now.items ≡ self.old.types }
    {
        &mut self.core_types
    }

    // Returns the ids of each group, to be changed.
    pub(crate) fn groups_mut(&mut self) -> &mut SnapshotList<Range<CoreTypeId>>
        ensures* lends { sem 𝓛 (LendsGroups self.entry result) }
        ensures value { result.now.items ≡ self.old.groups }
    {
        &mut self.rec_group_elements
    }

    // Returns the chain of a type, where it is known and has one.
    pub(crate) fn chain(&self, id: CoreTypeId) -> Option<&Chain>
        ensures { option_copied result ≡ chain_of (slice_get self.now.chains id) }
    {
        self.core_type_to_chain.get(id.index())?.as_ref()
    }

    // Returns the ids of each group.
    pub(crate) fn groups(&self) -> &SnapshotList<Range<CoreTypeId>>
        ensures { result.now.items ≡ self.now.groups }
    {
        &self.rec_group_elements
    }

    /// Returns the data that an id stands for, if it is known.
    pub fn get<T: TypeIdentifier>(&self, id: T) -> Option<&T::Data>
        ensures { option_copied result ≡ slice_get (T.listed self.now) (T.number id) }
    {
        T::list(self).get(id.index())
    }

    // Checks that so many types more can be held.
    fn has_room(&self, count: usize) -> bool
        ensures { result ≡ nat_le (length self.now.types + count) max_types }
    {
        count <= MAX_TYPES && self.core_types.len() <= MAX_TYPES - count
    }

    // Returns the group with this key.
    fn find(&self, key: &Option<Vec<u32>>) -> Option<RecGroupId>
        ensures { result ≡ found_by self.now.known key.now }
    {
        match (&self.canonical_rec_groups, key) {
            (Some(groups), Some(key)) => groups.get(key),
            _ => None,
        }
    }

    /// Interns a recursive group, whose references to types of its own are places in it and to earlier types are ids. Answers its id, and whether it is
    /// new: where equal types are to be one (`needs_type_canonicalization`), a group that is known is not added again.
    ///
    /// # Errors
    /// At the offset: `Total` where the list's types and the group's are more than 1,048,576, whether or not the group is known, `Memory` where memory runs out,
    /// or the group would be one past 2^32. The list is as it was.
    pub fn intern_canonical_rec_group(
        &mut self,
        needs_type_canonicalization: bool,
        rec_group: RecGroup,
        offset: u64,
    ) -> Result<(bool, RecGroupId), Error>
        requires agree { TablesAgree self.old }
        requires grows { IsSome self.old.known }
        requires within { AreWithin (length self.old.types) (members (spec.rec_group rec_group)) }
        ensures agree { TablesAgree self.new }
        ensures grows { IsSome self.new.known }
        ensures interned { IfOk result (λ answer. Interns self.old self.new needs_type_canonicalization (members (spec.rec_group rec_group)) answer.0 answer.1) }
        ensures known { IfOk result (λ answer. answer.1 < length self.new.groups) }
        ensures room { OnOk result (has_room self.old (members (spec.rec_group rec_group)) ≡ true) }
        ensures refusal { IfErr result (λ e. IsNoIntern (has_room self.old (members (spec.rec_group rec_group))) e offset) }
        ensures refused { IfErr result (λ _. self.new ≡ self.old) }
    {
        if !self.has_room(rec_group.types().len()) {
            return Err(Error {
                offset,
                kind: ErrorKind::Total,
            });
        }
        match self.intern_with_room(needs_type_canonicalization, rec_group) {
            Ok(interned) => Ok(interned),
            Err(_) => Err(Error::out_of_memory(offset)),
        }
    }

    // Interns a group for whose types the list has room.
    fn intern_with_room(
        &mut self,
        needs_type_canonicalization: bool,
        rec_group: RecGroup,
    ) -> Result<(bool, RecGroupId), AllocError>
        requires agree { TablesAgree self.old }
        requires grows { IsSome self.old.known }
        requires within { AreWithin (length self.old.types) (members (spec.rec_group rec_group)) }
        requires room { has_room self.old (members (spec.rec_group rec_group)) ≡ true }
        ensures agree { TablesAgree self.new }
        ensures grows { IsSome self.new.known }
        ensures interned { IfOk result (λ answer. Interns self.old self.new needs_type_canonicalization (members (spec.rec_group rec_group)) answer.0 answer.1) }
        ensures known { IfOk result (λ answer. answer.1 < length self.new.groups) }
        ensures refused { IfErr result (λ _. self.new ≡ self.old) }
    {
        let key = key_of(self.alloc, needs_type_canonicalization, rec_group.types())?;
        if let Some(id) = self.find(&key) {
            return Ok((false, id));
        }
        let types = rec_group.into_types(self.alloc)?;
        let id = self.add(types, key)?;
        Ok((true, id))
    }

    /// Interns a sub type as a group of one, under any features so that equal ones are one, and answers its id.
    ///
    /// # Errors
    /// As for [`TypeList::intern_canonical_rec_group`].
    pub fn intern_sub_type(&mut self, it: SubType, offset: u64) -> Result<CoreTypeId, Error>
        requires agree { TablesAgree self.old }
        requires grows { IsSome self.old.known }
        requires within { AreWithin (length self.old.types) (sub_type it ∷ []) }
        ensures agree { TablesAgree self.new }
        ensures grows { IsSome self.new.known }
        ensures interned { IfOk result (λ id. (is_new : Bool) × (number : ℕ) × Interns self.old self.new true (sub_type it ∷ []) is_new number × (local_id self.new number 0 ≡ Some id)) }
        ensures known { IfOk result (λ id. id < length self.new.types) }
        ensures room { OnOk result (has_room self.old (sub_type it ∷ []) ≡ true) }
        ensures refusal { IfErr result (λ e. IsNoIntern (has_room self.old (sub_type it ∷ [])) e offset) }
        ensures refused { IfErr result (λ _. self.new ≡ self.old) }
    {
        let (_, group) = self.intern_canonical_rec_group(true, RecGroup::implicit(it), offset)?;
        Ok(self.rec_group_elements[group.index()].start)
    }

    /// Interns a final function type as [`TypeList::intern_sub_type`] does.
    ///
    /// # Errors
    /// As for [`TypeList::intern_canonical_rec_group`].
    pub fn intern_func_type(&mut self, it: FuncType, offset: u64) -> Result<CoreTypeId, Error>
        requires agree { TablesAgree self.old }
        requires grows { IsSome self.old.known }
        requires within { AreWithin (length self.old.types) (final_func (func_type it) ∷ []) }
        ensures agree { TablesAgree self.new }
        ensures grows { IsSome self.new.known }
        ensures interned { IfOk result (λ id. (is_new : Bool) × (number : ℕ) × Interns self.old self.new true (final_func (func_type it) ∷ []) is_new number × (local_id self.new number 0 ≡ Some id)) }
        ensures known { IfOk result (λ id. id < length self.new.types) }
        ensures room { OnOk result (has_room self.old (final_func (func_type it) ∷ []) ≡ true) }
        ensures refusal { IfErr result (λ e. IsNoIntern (has_room self.old (final_func (func_type it) ∷ [])) e offset) }
        ensures refused { IfErr result (λ _. self.new ≡ self.old) }
    {
        self.intern_sub_type(SubType::func(self.alloc, it), offset)
    }

    /// Returns the supertype that a type declares, if it does.
    pub fn supertype_of(&self, id: CoreTypeId) -> Option<CoreTypeId>
        ensures { result ≡ supertype_at self.now id }
    {
        self.core_types
            .get(id.index())?
            .supertype_idxs
            .first()?
            .as_core_type_id()
    }

    /// Returns the group that a known type was defined in.
    pub fn rec_group_id_of(&self, id: CoreTypeId) -> RecGroupId
        requires agree { TablesAgree self.now }
        requires known { id < length self.now.types }
        ensures { slice_get self.now.rec_groups id ≡ Some result }
    {
        self.core_type_to_rec_group[id.index()]
    }

    // Returns the id of a place in a group, if the group is known and has such a place.
    pub(crate) fn place_in_group(&self, rec_group: RecGroupId, place: u32) -> Option<CoreTypeId>
        requires { TablesAgree self.now }
        ensures { result ≡ local_id self.now rec_group place }
    {
        let elements = self.get(rec_group)?;
        let start = elements.start.index();
        let place = place as usize;
        if place < elements.end.index() - start {
            Some(CoreTypeId::from_index((start + place) as u32))
        } else {
            None
        }
    }

    /// Returns the id of the type at a place in a group.
    ///
    /// # Errors
    /// `Invalid` at the offset where the group has no such place, or is unknown.
    pub fn rec_group_local_id(
        &self,
        rec_group: RecGroupId,
        index: u32,
        offset: u64,
    ) -> Result<CoreTypeId, Error>
        requires agree { TablesAgree self.now }
        ensures found { IfOk result (λ id. local_id self.now rec_group index ≡ Some id) }
        ensures absent { IfErr result (λ e. (local_id self.now rec_group index ≡ None) × (e ≡ record { offset = offset; kind = kinds.Invalid })) }
    {
        match self.place_in_group(rec_group, index) {
            Some(id) => Ok(id),
            None => Err(Error {
                offset,
                kind: ErrorKind::Invalid,
            }),
        }
    }

    /// Returns the id that an index of a type in a group stands for.
    ///
    /// # Errors
    /// `Invalid` at the offset where the group has no such place or is unknown, or for a type index in a module.
    pub fn at_canonicalized_unpacked_index(
        &self,
        rec_group: RecGroupId,
        index: UnpackedIndex,
        offset: u64,
    ) -> Result<CoreTypeId, Error>
        requires agree { TablesAgree self.now }
        ensures found { IfOk result (λ id. id_of self.now rec_group (unpacked.index index) ≡ Some id) }
        ensures absent { IfErr result (λ e. (id_of self.now rec_group (unpacked.index index) ≡ None) × (e ≡ record { offset = offset; kind = kinds.Invalid })) }
    {
        match index {
            UnpackedIndex::RecGroup(place) => self.rec_group_local_id(rec_group, place, offset),
            UnpackedIndex::Module(_) => Err(Error {
                offset,
                kind: ErrorKind::Invalid,
            }),
            UnpackedIndex::Id(id) => Ok(id),
        }
    }

    /// Returns the id that a packed index of a type in a group stands for.
    ///
    /// # Errors
    /// `Invalid` at the offset where the group has no such place or is unknown, or for a type index in a module.
    pub fn at_canonicalized_packed_index(
        &self,
        rec_group: RecGroupId,
        index: PackedIndex,
        offset: u64,
    ) -> Result<CoreTypeId, Error>
        requires agree { TablesAgree self.now }
        ensures found { IfOk result (λ id. id_of self.now rec_group index ≡ Some id) }
        ensures absent { IfErr result (λ e. (id_of self.now rec_group index ≡ None) × (e ≡ record { offset = offset; kind = kinds.Invalid })) }
    {
        self.at_canonicalized_unpacked_index(rec_group, index.unpack(), offset)
    }

    /// Gives a list of the same types, which are shared and not copied, and which doesn't grow on.
    ///
    /// # Errors
    /// Where memory runs out, the list is as it was.
    pub fn commit(&mut self) -> Result<TypeList, AllocError>
        ensures same { self.new ≡ self.old }
        ensures copy { IfOk result (λ list. list ≡ committed self.old) }
        ensures agree { TablesAgree self.old → IfOk result TablesAgree }
    {
        Ok(TypeList {
            alloc: self.alloc,
            core_types: self.core_types.commit()?,
            core_type_to_rec_group: self.core_type_to_rec_group.commit()?,
            core_type_to_chain: self.core_type_to_chain.commit()?,
            rec_group_elements: self.rec_group_elements.commit()?,
            canonical_rec_groups: None,
        })
    }
}

/// Shows how many types and groups there are, and none of them.
impl fmt::Debug for TypeList {
    fn fmt<W: fmt::Write>(&self, f: &mut fmt::Formatter<W>) -> fmt::Result {
        f.debug_struct("TypeList")
            .field("types", &self.core_types.len())
            .field("groups", &self.rec_group_elements.len())
            .finish_non_exhaustive()
    }
}

impl<T: TypeIdentifier> Index<T> for TypeList {
    ghost use Rattle.std.specs.Prelude.{◌≡◌, ◌<◌, Some, length, slice_get};

    type Output = T::Data;

    ghost can_index = { λ tables id. T.number id < length (T.listed tables) };

    ghost index_gives = { λ tables id element. slice_get (T.listed tables) (T.number id) ≡ Some element };

    /// Returns the data that a known id stands for.
    fn index(&self, id: T) -> &T::Data {
        self.get(id).unwrap()
    }
}
