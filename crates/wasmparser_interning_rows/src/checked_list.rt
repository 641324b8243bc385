//! A list of types whose calls may be made with anything.

use crate::within::{func_type_within, group_within, sub_type_within};
use std::alloc::{AllocError, Global};
use std::marker::Model;
use wasmparser_error::error::Error;
use wasmparser_type_list::type_identifier::TypeIdentifier;
use wasmparser_type_list::type_list::TypeList;
use wasmparser_types::composite_type::FuncType;
use wasmparser_types::index::{CoreTypeId, PackedIndex, RecGroupId, UnpackedIndex};
use wasmparser_types::sub_type::{RecGroup, SubType};

/// A list of types. What the calls of a `TypeList` ask of their callers is tested when they are made, and a call that asks for more than is so answers
/// None: so the rows of a test are plain data.
#[derive(Drop)]
pub struct CheckedList {
    alloc: Global,
    list: TypeList,
    // `true` if it is no committed copy.
    grows: bool,
}

impl Model for CheckedList {
    ghost use Rattle.wasmparser_type_list.specs.TypeTables.{TypeTables};
    ghost use Rattle.wasmparser_interning_rows.specs.CheckedLists.{IsChecked};

    ghost Value = { TypeTables };

    ghost view = { λ it. it.list };

    ghost invariant = { λ it. IsChecked it.list it.grows };
}

impl CheckedList {
    ghost use Rattle.std.specs.Prelude.{◌≡◌, slice_get};
    ghost use Rattle.wasmparser_type_relations.specs.Chains.{IsDepth};
    ghost use Rattle.wasmparser_type_list.specs.TypeTables.{TablesAgree, sub_types};

    /// Creates a list without types.
    pub fn new(alloc: Global) -> CheckedList {
        CheckedList {
            alloc,
            list: TypeList::new(alloc),
            grows: true,
        }
    }

    /// Returns the list.
    pub fn list(&self) -> &TypeList
        ensures same { result.now ≡ self.now }
        ensures agree { TablesAgree result.now }
    {
        &self.list
    }

    /// Returns the number of types.
    pub fn len(&self) -> usize {
        CoreTypeId::list(&self.list).len()
    }

    /// Returns the number of groups.
    pub fn group_count(&self) -> usize {
        RecGroupId::list(&self.list).len()
    }

    /// Calls `TypeList::get`.
    pub fn get<T: TypeIdentifier>(&self, id: T) -> Option<&T::Data> {
        self.list.get(id)
    }

    /// Returns the data that `TypeList`'s `Index` gives for a known id.
    pub fn at<T: TypeIdentifier>(&self, id: T) -> Option<&T::Data> {
        if id.index() < T::list(&self.list).len() {
            Some(&self.list[id])
        } else {
            None
        }
    }

    /// Calls `TypeList::supertype_of`.
    pub fn supertype_of(&self, id: CoreTypeId) -> Option<CoreTypeId> {
        self.list.supertype_of(id)
    }

    /// Calls `TypeList::set_subtyping_depth`, which asks for the depth that the type has.
    pub fn set_subtyping_depth(&mut self, id: CoreTypeId, depth: u8)
        requires { IsDepth (slice_get (sub_types self.old)) id depth }
        ensures { self.new ≡ self.old }
    {
        self.list.set_subtyping_depth(id, depth);
    }

    /// Calls `TypeList::rec_group_id_of` for a known id.
    pub fn rec_group_id_of(&self, id: CoreTypeId) -> Option<RecGroupId> {
        if id.index() < CoreTypeId::list(&self.list).len() {
            Some(self.list.rec_group_id_of(id))
        } else {
            None
        }
    }

    /// Calls `TypeList::rec_group_local_id` for a known group.
    pub fn rec_group_local_id(
        &self,
        group: RecGroupId,
        place: u32,
        offset: u64,
    ) -> Option<Result<CoreTypeId, Error>> {
        if group.index() < RecGroupId::list(&self.list).len() {
            Some(self.list.rec_group_local_id(group, place, offset))
        } else {
            None
        }
    }

    /// Calls `TypeList::at_canonicalized_unpacked_index` for a known group, and an index that isn't one in a module.
    pub fn at_canonicalized_unpacked_index(
        &self,
        group: RecGroupId,
        index: UnpackedIndex,
        offset: u64,
    ) -> Option<Result<CoreTypeId, Error>> {
        if group.index() < RecGroupId::list(&self.list).len() && !index.is_module_index() {
            Some(
                self.list
                    .at_canonicalized_unpacked_index(group, index, offset),
            )
        } else {
            None
        }
    }

    /// Does the same for a packed index.
    pub fn at_canonicalized_packed_index(
        &self,
        group: RecGroupId,
        index: PackedIndex,
        offset: u64,
    ) -> Option<Result<CoreTypeId, Error>> {
        if group.index() < RecGroupId::list(&self.list).len() && !index.is_module_index() {
            Some(
                self.list
                    .at_canonicalized_packed_index(group, index, offset),
            )
        } else {
            None
        }
    }

    /// Calls `TypeList::intern_canonical_rec_group` in a list that grows, of a group that refers to its own types and to earlier ones.
    pub fn intern(
        &mut self,
        is_canonical: bool,
        group: RecGroup,
        offset: u64,
    ) -> Option<Result<(bool, RecGroupId), Error>> {
        let group = group_within(CoreTypeId::list(&self.list).len(), group)?;
        if !self.grows {
            return None;
        }
        Some(
            self.list
                .intern_canonical_rec_group(is_canonical, group, offset),
        )
    }

    /// Calls `TypeList::intern_sub_type`, likewise.
    pub fn intern_sub_type(
        &mut self,
        it: SubType,
        offset: u64,
    ) -> Option<Result<CoreTypeId, Error>> {
        let it = sub_type_within(CoreTypeId::list(&self.list).len(), it)?;
        if !self.grows {
            return None;
        }
        Some(self.list.intern_sub_type(it, offset))
    }

    /// Calls `TypeList::intern_func_type`, likewise.
    pub fn intern_func_type(
        &mut self,
        it: FuncType,
        offset: u64,
    ) -> Option<Result<CoreTypeId, Error>> {
        let it = func_type_within(self.alloc, CoreTypeId::list(&self.list).len(), it)?;
        if !self.grows {
            return None;
        }
        Some(self.list.intern_func_type(it, offset))
    }

    /// Calls `TypeList::commit`. The copy doesn't grow on.
    pub fn commit(&mut self) -> Result<CheckedList, AllocError> {
        let list = self.list.commit()?;
        Ok(CheckedList {
            alloc: self.alloc,
            list,
            grows: false,
        })
    }
}
