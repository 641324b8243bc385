//! Tests that each type of a list is below nothing, or below one earlier type of its own kind, as calls about subtyping ask.

ghost use Rattle.std.specs.Prelude.{◌≡◌, IsTrue, slice_get};
ghost use Rattle.wasm_spec.specs.Subtyping.{IsOfKind, abstract_of};
ghost use Rattle.wasmparser_type_relations.specs.Chains.{AreBelowEarlier, IsBelowEarlier};
ghost use Rattle.wasmparser_type_list.specs.TypeTables.{sub_types, type_by_id};
ghost use Rattle.wasmparser_interning_tests.specs.Earlier.{IsBelowEarlierAt};
ghost use Rattle.wasmparser_types.specs.CompositeTypes.{composite_type};
ghost use Rattle.wasmparser_types.specs.SubTypes.{sub_type};

use wasmparser_type_list::type_identifier::TypeIdentifier;
use wasmparser_type_list::type_list::TypeList;
use wasmparser_type_relations::known_types::KnownTypes;
use wasmparser_types::composite_type::CompositeType;
use wasmparser_types::index::{CoreTypeId, PackedIndex};
use wasmparser_types::sub_type::SubType;

fn are_of_one_kind(a: &CompositeType, b: &CompositeType) -> bool
    ensures { IsTrue result → abstract_of (composite_type a.now) ≡ abstract_of (composite_type b.now) }
{
    match (a, b) {
        (CompositeType::Func(_), CompositeType::Func(_)) => true,
        (CompositeType::Struct(_), CompositeType::Struct(_)) => true,
        (CompositeType::Array(_), CompositeType::Array(_)) => true,
        (CompositeType::Cont(_), CompositeType::Cont(_)) => true,
        _ => false,
    }
}

// Checks that an index stands for a type of the same kind as this one.
fn is_of_kind(list: &TypeList, index: PackedIndex, it: &CompositeType) -> bool
    ensures { IsTrue result → IsOfKind (type_by_id list.now) index (abstract_of (composite_type it.now)) }
{
    match list.composite_type(index.unpack()) {
        Some(found) => are_of_one_kind(found, it),
        None => false,
    }
}

fn is_below_earlier(list: &TypeList, id: CoreTypeId, it: &SubType) -> bool
    ensures { IsTrue result → IsBelowEarlier (slice_get (sub_types list.now)) id (sub_type it.now) }
{
    match it.supertype_idxs.as_slice() {
        [] => true,
        [supertype] => match supertype.as_core_type_id() {
            Some(above) if above.index() < id.index() => {
                is_of_kind(list, *supertype, &it.composite_type)
            }
            _ => false,
        },
        _ => false,
    }
}

// Checks that a type is known, and is so.
fn is_known_below_earlier(list: &TypeList, index: usize) -> bool
    ensures { IsTrue result → IsBelowEarlierAt list.now index }
{
    let Ok(number) = u32::try_from(index) else {
        return false;
    };
    let id = CoreTypeId::from_index(number);
    match list.get(id) {
        Some(it) => is_below_earlier(list, id, it),
        None => false,
    }
}

/// Checks that all types are so.
pub(crate) fn are_below_earlier(list: &TypeList) -> bool
    ensures { IsTrue result → AreBelowEarlier (slice_get (sub_types list.now)) }
{
    for index in 0..CoreTypeId::list(list).len() {
        if !is_known_below_earlier(list, index) {
            return false;
        }
    }
    true
}
