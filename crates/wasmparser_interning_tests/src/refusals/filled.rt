//! Values that a validator fills and shares.

use std::alloc::{AllocError, Global};
use wasmparser_type_list::maybe_owned::MaybeOwned;
use wasmparser_type_list::type_alloc::TypeAlloc;
use wasmparser_type_list::type_identifier::TypeIdentifier;
use wasmparser_types::composite_type::{CompositeType, FuncType, StructType};
use wasmparser_types::index::{CoreTypeId, RecGroupId};
use wasmparser_types::sub_type::{RecGroup, SubType};

// Shares a value by one of the two calls, and answers whether it is this.
fn shares(held: &mut MaybeOwned<u32>, by_name: bool) -> Result<bool, AllocError> {
    if by_name {
        held.make_shared()?;
        return Ok(*held.get() == 7);
    }
    let shared = held.rc()?;
    Ok(**shared == 7)
}

// Checks that a value is shared, at the second time where memory runs out at the first and it still has one owner.
fn is_shared(alloc: Global, by_name: bool) -> bool {
    let mut held = MaybeOwned::new(alloc, 7u32);
    let is_right = match shares(&mut held, by_name) {
        Ok(is_right) => is_right,
        Err(_) => {
            let is_kept = held.shared().is_none() && *held.get() == 7;
            is_kept && shares(&mut held, by_name) == Ok(true)
        }
    };
    // (what is shared asks for nothing)
    is_right && held.shared().is_some() && shares(&mut held, by_name) == Ok(true)
}

#[test]
fn values_are_shared(rt: HostRuntime) {
    assert!(rt; is_shared(rt.alloc(), false) && is_shared(rt.alloc(), true));
}

// Returns a structure without fields.
fn structure(alloc: Global) -> SubType {
    SubType {
        is_final: false,
        supertype_idxs: Vec::new(alloc),
        composite_type: CompositeType::Struct(StructType {
            fields: Vec::new(alloc),
        }),
    }
}

// Checks that a structure is pushed and gets this id, at the second time where memory runs out at the first and the list is as it was.
fn takes(alloc: Global, types: &mut TypeAlloc, id: CoreTypeId) -> bool {
    match types.list_mut().push(structure(alloc)) {
        Ok(given) => given == id,
        Err(_) => {
            let is_kept = CoreTypeId::list(types.list()).len() == id.index();
            is_kept && types.list_mut().push(structure(alloc)) == Ok(id)
        }
    }
}

// Does the same for a range of ids as a group.
fn takes_group(types: &mut TypeAlloc, group: RecGroupId) -> bool {
    let id = CoreTypeId::from_index(0);
    match types.list_mut().push(id..id) {
        Ok(given) => given == group,
        Err(_) => {
            let is_kept = RecGroupId::list(types.list()).len() == group.index();
            is_kept && types.list_mut().push(id..id) == Ok(group)
        }
    }
}

fn takes_all(alloc: Global) -> bool {
    let mut types = TypeAlloc::new(alloc);
    for index in 0..10_u32 {
        let is_taken = takes(alloc, &mut types, CoreTypeId::from_index(index));
        if !is_taken || !takes_group(&mut types, RecGroupId::from_index(index)) {
            return false;
        }
    }
    true
}

#[test]
fn lists_are_filled(rt: HostRuntime) {
    assert!(rt; takes_all(rt.alloc()));
}

// Returns how many types a group has that is a function type by itself.
fn count_of_types(alloc: Global) -> Result<usize, AllocError> {
    let signature = FuncType::new(Vec::new(alloc), Vec::new(alloc));
    let group = RecGroup::implicit(SubType::func(alloc, signature));
    Ok(group.into_types(alloc)?.len())
}

#[test]
fn types_are_taken_out_of_a_group(rt: HostRuntime) {
    let alloc = rt.alloc();
    assert!(rt; count_of_types(alloc) == Ok(1) || count_of_types(alloc) == Ok(1));
}
