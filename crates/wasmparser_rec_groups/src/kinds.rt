//! Supertypes of a type's own kind.

ghost use Rattle.std.specs.Prelude.{◌≡◌, ◌↔◌, IsTrue, map, option_map};
ghost use Rattle.std.specs.List.{list_all};
ghost use Rattle.std.specs.Option.{option_copied};
ghost use Rattle.wasmparser_rec_groups.specs.KindTests as spec;
ghost use Rattle.wasmparser_rec_groups.specs.Kinds as kinds;
ghost use Rattle.wasmparser_rec_groups.specs.Kinds.{HaveSupertypesOfKind};
ghost use Rattle.wasmparser_types.specs.CompositeTypes.{composite_type};
ghost use Rattle.wasmparser_types.specs.SubTypes.{sub_type};

use wasmparser_type_list::type_list::TypeList;
use wasmparser_types::composite_type::CompositeType;
use wasmparser_types::index::{PackedIndex, UnpackedIndex};
use wasmparser_types::sub_type::SubType;

fn is_of_one_kind(a: &CompositeType, b: &CompositeType) -> bool
    ensures { result ≡ spec.is_of_one_kind (composite_type a.now) (composite_type b.now) }
{
    matches!(
        (a, b),
        (CompositeType::Func(_), CompositeType::Func(_))
            | (CompositeType::Struct(_), CompositeType::Struct(_))
            | (CompositeType::Array(_), CompositeType::Array(_))
            | (CompositeType::Cont(_), CompositeType::Cont(_))
    )
}

// Returns the type that an index in a group in canonical form stands for.
fn earlier_or_own<'a>(
    types: &'a TypeList,
    group: &'a [SubType],
    index: PackedIndex,
) -> Option<&'a SubType>
    ensures { option_map sub_type (option_copied result) ≡ kinds.earlier_or_own types.now (map sub_type group.now) index }
{
    match index.unpack() {
        UnpackedIndex::Id(id) => types.get(id),
        UnpackedIndex::RecGroup(place) => group.get(place as usize),
        UnpackedIndex::Module(_) => None,
    }
}

// Checks that an index in a group in canonical form stands for a type of this kind.
fn is_like(types: &TypeList, group: &[SubType], index: PackedIndex, it: &CompositeType) -> bool
    ensures { result ≡ spec.is_like (composite_type it.now) (kinds.earlier_or_own types.now (map sub_type group.now) index) }
{
    match earlier_or_own(types, group, index) {
        Some(supertype) => is_of_one_kind(&supertype.composite_type, it),
        None => false,
    }
}

fn has_supertypes_of_kind(types: &TypeList, group: &[SubType], it: &SubType) -> bool
    ensures { result ≡ spec.has_supertypes_of_kind (kinds.earlier_or_own types.now (map sub_type group.now)) (sub_type it.now) }
{
    it.supertype_idxs
        .iter()
        .all(|index| is_like(types, group, *index, &it.composite_type))
}

// Checks that all supertypes in a group in canonical form are of their subtypes' kinds.
pub(crate) fn have_supertypes_of_kind(types: &TypeList, group: &[SubType]) -> bool
    ensures { IsTrue result ↔ HaveSupertypesOfKind (kinds.earlier_or_own types.now (map sub_type group.now)) (map sub_type group.now) }
{
    group
        .iter()
        .all(|it| has_supertypes_of_kind(types, group, it))
}
