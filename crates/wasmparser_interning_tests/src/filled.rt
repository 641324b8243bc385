//! Values that a validator fills and shares.

use std::alloc::{AllocError, Global};
use std::test::Fail;
use wasmparser_type_list::maybe_owned::MaybeOwned;
use wasmparser_type_list::type_alloc::TypeAlloc;
use wasmparser_type_list::type_identifier::TypeIdentifier;
use wasmparser_type_list::type_list::TypeList;
use wasmparser_types::composite_type::{CompositeType, StructType};
use wasmparser_types::index::{CoreTypeId, RecGroupId};
use wasmparser_types::sub_type::SubType;

// Checks that a value is held so, by its one owner or shared.
fn holds(held: &MaybeOwned<u32>, value: u32, is_shared: bool) -> bool {
    let is_value = *held.get() == value;
    match held.shared() {
        Some(shared) => is_value && is_shared && **shared == value,
        None => is_value && !is_shared,
    }
}

fn shares(held: &mut MaybeOwned<u32>) -> Result<bool, AllocError> {
    let shared = held.rc()?;
    Ok(**shared == 8)
}

#[test]
fn values_have_one_owner_until_they_are_shared(rt: HostRuntime) -> Result<(), Fail> {
    let mut held = MaybeOwned::new(rt.alloc(), 7u32);
    assert!(rt; holds(&held, 7, false));
    *held.assert_mut() = 8;
    assert!(rt; holds(&held, 8, false));
    assert!(rt; shares(&mut held)? && holds(&held, 8, true));
    assert!(rt; shares(&mut held)? && holds(&held, 8, true));
    Ok(())
}

// Returns a structure without fields.
fn structure(alloc: Global) -> SubType {
    SubType {
        is_final: false,
        supertype_idxs: Vec::new(alloc),
        composite_type: CompositeType::Struct(StructType {
            fields: Vec::new(alloc),
        }),
    }
}

// Checks that there are so many types and groups.
fn counts(list: &TypeList, types: usize, groups: usize) -> bool {
    CoreTypeId::list(list).len() == types && RecGroupId::list(list).len() == groups
}

// Checks that a list has a type, by both ways to ask.
fn is_structure(types: &TypeAlloc, id: CoreTypeId, it: &SubType) -> bool {
    if id.index() >= CoreTypeId::list(types.list()).len() {
        return false;
    }
    types.list().get(id) == Some(it) && types[id] == *it
}

// Checks that a structure that is pushed gets this id, and is there then.
fn takes(alloc: Global, types: &mut TypeAlloc, id: CoreTypeId) -> bool {
    let is_pushed = types.list_mut().push(structure(alloc)) == Ok(id);
    is_pushed && is_structure(types, id, &structure(alloc))
}

// Checks that a range of ids that is pushed gets this number of a group.
fn takes_group(types: &mut TypeAlloc, id: CoreTypeId, group: RecGroupId) -> bool {
    types.list_mut().push(id..id) == Ok(group)
}

fn fills(alloc: Global) -> bool {
    let (id, group) = (CoreTypeId::from_index(0), RecGroupId::from_index(0));
    let mut types = TypeAlloc::new(alloc);
    takes(alloc, &mut types, id) && takes_group(&mut types, id, group) && counts(types.list(), 1, 1)
}

#[test]
fn a_validator_fills_a_list(rt: HostRuntime) {
    assert!(rt; fills(rt.alloc()));
}
