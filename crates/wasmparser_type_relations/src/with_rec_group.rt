//! Parts of types that know which recursive group their places are in.

ghost use Rattle.std.specs.Prelude.{◌≡◌, ◌↔◌, IsTrue};
ghost use Rattle.wasmparser_type_relations.specs.WithRecGroups.{InGroup};

use crate::known_types::KnownTypes;
use crate::matches::Matches;
use std::marker::Model;
use wasmparser_types::index::{CoreTypeId, RecGroupId};

/// A part of a type, and the recursive group that it stands in.
#[derive(Clone, Copy, Debug)]
pub struct WithRecGroup<T> {
    inner: T,
    rec_group_id: RecGroupId,
}

impl<T> Model for WithRecGroup<T> {
    ghost Value = { InGroup T };

    ghost view = { λ it. record { inner = it.inner; rec_group_id = it.rec_group_id } };

    ghost inverse = { λ it. record { inner = it.inner; rec_group_id = it.rec_group_id } };
}

impl WithRecGroup<CoreTypeId> {
    /// Creates a known id, with the group that it was defined in.
    pub fn new<L: KnownTypes>(types: &L, id: CoreTypeId) -> WithRecGroup<CoreTypeId>
        requires can_ask { L.can_ask types.now }
        requires known { L.is_known types.now id }
        ensures inner { result.inner ≡ id }
        ensures rec_group_id { L.is_group_of types.now id result.rec_group_id }
    {
        WithRecGroup {
            inner: id,
            rec_group_id: types.rec_group_id_of(id),
        }
    }
}

impl<T> WithRecGroup<T> {
    /// Returns the part.
    pub fn inner(&self) -> &T
        ensures { result.now ≡ self.now.inner }
    {
        &self.inner
    }

    /// Returns the group.
    pub fn rec_group_id(&self) -> RecGroupId
        ensures { result ≡ self.now.rec_group_id }
    {
        self.rec_group_id
    }

    /// Returns a part of this part, or what it stands for, in the same group.
    pub fn map<U, F: FnOnce(T) -> U>(self, part: F) -> WithRecGroup<U>
        requires { F.pre part self.inner }
        ensures inner { F.post part self.inner result.inner }
        ensures rec_group_id { result.rec_group_id ≡ self.rec_group_id }
    {
        WithRecGroup {
            inner: part(self.inner),
            rec_group_id: self.rec_group_id,
        }
    }
}

impl<T: Matches + Copy> WithRecGroup<T> {
    /// Checks that a part of a type matches another one, where each has its places in its own group.
    pub fn matches<L: KnownTypes>(types: &L, a: WithRecGroup<T>, b: WithRecGroup<T>) -> bool
        requires { L.can_ask types.now }
        ensures { IsTrue result ↔ T.matching (L.sub_at types.now) (T.mapped (L.resolved types.now a.rec_group_id) (T.meaning a.inner)) (T.mapped (L.resolved types.now b.rec_group_id) (T.meaning b.inner)) }
    {
        a.inner
            .matches(a.rec_group_id, &b.inner, b.rec_group_id, types)
    }
}
