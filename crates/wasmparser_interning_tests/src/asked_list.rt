//! A list of types that may be asked about subtyping, with any ids.

use crate::earlier::are_below_earlier;
use std::marker::Model;
use wasmparser_type_list::read_counter::ReadCounter;
use wasmparser_type_list::type_identifier::TypeIdentifier;
use wasmparser_type_list::type_list::TypeList;
use wasmparser_type_relations::lookup::{Lookup, id_is_subtype_counted};
use wasmparser_types::index::CoreTypeId;
use wasmparser_types::ref_type::RefType;
use wasmparser_types::val_type::ValType;

/// A list whose types are below nothing, or below one earlier type of their own kind each, so that nothing is asked of who asks about them.
#[derive(Drop)]
pub struct AskedList<'a> {
    list: &'a TypeList,
}

impl<'a> Model for AskedList<'a> {
    ghost use Rattle.wasmparser_type_list.specs.TypeTables.{CanAskSubtyping, TypeTables};

    ghost Value = { TypeTables };

    ghost view = { λ asked. asked.list.now };

    ghost invariant = { λ asked. CanAskSubtyping asked.list.now };
}

impl<'a> AskedList<'a> {
    ghost use Rattle.std.specs.Prelude.{◌≡◌, IfSome, slice_get};
    ghost use Rattle.wasmparser_type_relations.specs.Chains.{IsDepth};
    ghost use Rattle.wasmparser_type_list.specs.TypeTables.{TablesAgree, sub_types};

    /// Creates the list, if its types are so.
    pub fn new(list: &'a TypeList) -> Option<AskedList<'a>>
        requires { TablesAgree list.now }
        ensures { IfSome result (λ asked. asked ≡ list.now) }
    {
        if are_below_earlier(list) {
            Some(AskedList { list })
        } else {
            None
        }
    }

    /// Calls `TypeList::matches`.
    pub fn matches(&self, a: CoreTypeId, b: CoreTypeId) -> bool {
        self.list.matches(a, b)
    }

    /// Calls `TypeList::id_is_subtype`.
    pub fn id_is_subtype(&self, a: CoreTypeId, b: CoreTypeId) -> bool {
        self.list.id_is_subtype(a, b)
    }

    /// Calls `TypeList::reftype_is_subtype`.
    pub fn reftype_is_subtype(&self, a: RefType, b: RefType) -> bool {
        self.list.reftype_is_subtype(a, b)
    }

    /// Calls `TypeList::valtype_is_subtype`.
    pub fn valtype_is_subtype(&self, a: ValType, b: ValType) -> bool {
        self.list.valtype_is_subtype(a, b)
    }

    /// Calls `TypeList::get_subtyping_depth` for a known type that `TypeList::is_within_depth`.
    pub fn depth(&self, id: CoreTypeId) -> Option<u8>
        ensures { IfSome result (IsDepth (slice_get (sub_types self.now)) id) }
    {
        if id.index() >= CoreTypeId::list(self.list).len() {
            return None;
        }
        if !self.list.is_within_depth(id) {
            return None;
        }
        Some(self.list.get_subtyping_depth(id))
    }

    /// Returns the answer of `id_is_subtype_counted` for types that have a depth, and the number of its reads.
    pub fn counted(&self, a: CoreTypeId, b: CoreTypeId) -> Option<(bool, u64)> {
        self.depth(a)?;
        self.depth(b)?;
        let mut counter = ReadCounter::new(self.list);
        let answer = id_is_subtype_counted(&mut counter, a, b);
        Some((answer, counter.reads()))
    }
}
