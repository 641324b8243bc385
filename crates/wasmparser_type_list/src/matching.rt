//! Matching of types in a list of types.

ghost use Rattle.std.specs.Prelude.{◌≡◌, ◌↔◌, IsTrue, slice_get};
ghost use Rattle.wasm_spec.specs.Subtyping.{RefBelow, ValBelow};
ghost use Rattle.wasmparser_type_relations.specs.Chains.{AreBelowEarlier};
ghost use Rattle.wasmparser_type_list.specs.TypeTables.{IdMatches, TablesAgree, sub_types, type_by_id};
ghost use Rattle.wasmparser_type_relations.specs.Tops.{IsTop};
ghost use Rattle.wasmparser_types.specs.HeapTypes.{heap_type};
ghost use Rattle.wasmparser_types.specs.UnpackedIndex.{index};
ghost use Rattle.wasmparser_types.specs.ValTypes.{val_type};

use crate::type_list::TypeList;
use wasmparser_type_relations::known_types::KnownTypes;
use wasmparser_type_relations::subtyping;
use wasmparser_type_relations::with_rec_group::WithRecGroup;
use wasmparser_types::composite_type::CompositeType;
use wasmparser_types::heap_type::HeapType;
use wasmparser_types::index::{CoreTypeId, RecGroupId, UnpackedIndex};
use wasmparser_types::ref_type::RefType;
use wasmparser_types::val_type::ValType;

fn same_index(a: &UnpackedIndex, b: &UnpackedIndex) -> bool
    ensures { IsTrue result ↔ (index a.now ≡ index b.now) }
{
    a == b
}

impl KnownTypes for TypeList {
    ghost use Rattle.std.specs.Prelude.{◌<◌, Some, length};
    ghost use Rattle.wasmparser_type_list.specs.TypeTables.{CanAskSubtyping, resolved_in, type_by_id};

    ghost sub_at = { type_by_id };

    ghost resolved = { resolved_in };

    ghost can_ask = { CanAskSubtyping };

    ghost is_known = { λ tables id. id < length tables.types };

    ghost is_group_of = { λ tables id group. slice_get tables.rec_groups id ≡ Some group };

    fn composite_type(&self, it: UnpackedIndex) -> Option<&CompositeType> {
        match it {
            UnpackedIndex::Id(id) => Some(&self.get(id)?.composite_type),
            _ => None,
        }
    }

    fn index_is_subtype(&self, a: UnpackedIndex, b: UnpackedIndex) -> bool {
        match (&a, &b) {
            (UnpackedIndex::Id(a), UnpackedIndex::Id(b)) => self.id_is_subtype(*a, *b),
            _ => same_index(&a, &b),
        }
    }

    fn resolve(&self, rec_group: RecGroupId, it: UnpackedIndex) -> UnpackedIndex {
        match it {
            UnpackedIndex::RecGroup(place) => match self.place_in_group(rec_group, place) {
                Some(id) => UnpackedIndex::Id(id),
                None => UnpackedIndex::RecGroup(place),
            },
            _ => it,
        }
    }

    fn rec_group_id_of(&self, id: CoreTypeId) -> RecGroupId {
        TypeList::rec_group_id_of(self, id)
    }
}

impl TypeList {
    /// Checks that the composite type of the first id matches that of the second. Finality, order and depth aren't asked, and an unknown id matches nothing.
    /// Before types of a group are matched, all supertypes in it have to be earlier ones of the same kind.
    pub fn matches(&self, a: CoreTypeId, b: CoreTypeId) -> bool
        requires agree { TablesAgree self.now }
        requires earlier { AreBelowEarlier (slice_get (sub_types self.now)) }
        ensures { IsTrue result ↔ IdMatches self.now a b }
    {
        match (self.get(a), self.get(b)) {
            (Some(lower), Some(upper)) => {
                let a = WithRecGroup::new(self, a).map(|_| lower);
                let b = WithRecGroup::new(self, b).map(|_| upper);
                WithRecGroup::matches(self, a, b)
            }
            _ => false,
        }
    }

    /// Checks that one reference type is below another. An index that isn't an id is below itself alone.
    pub fn reftype_is_subtype(&self, a: RefType, b: RefType) -> bool
        requires agree { TablesAgree self.now }
        requires earlier { AreBelowEarlier (slice_get (sub_types self.now)) }
        ensures { IsTrue result ↔ RefBelow (type_by_id self.now) a b }
    {
        subtyping::ref_is_subtype(self, a, b)
    }

    /// Checks that one value type is below another. An index that isn't an id is below itself alone.
    pub fn valtype_is_subtype(&self, a: ValType, b: ValType) -> bool
        requires agree { TablesAgree self.now }
        requires earlier { AreBelowEarlier (slice_get (sub_types self.now)) }
        ensures { IsTrue result ↔ ValBelow (type_by_id self.now) (val_type a) (val_type b) }
    {
        subtyping::val_is_subtype(self, a, b)
    }

    /// Returns the greatest type above a heap type: the type itself, where an index stands for no known type.
    pub fn top_type(&self, it: &HeapType) -> HeapType
        ensures { IsTop (type_by_id self.now) (heap_type it.now) (heap_type result) }
    {
        subtyping::top_type(self, it)
    }
}
