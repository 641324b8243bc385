//! Chains of types, each of which is declared below the one before.

ghost use Rattle.std.specs.Prelude.{IfSome, slice_get};
ghost use Rattle.wasmparser_type_relations.specs.Chains.{IsDepth};
ghost use Rattle.wasmparser_type_list.specs.TypeTables.{sub_types};

use crate::asked_list::AskedList;
use std::alloc::Global;
use std::test::Fail;
use wasm_test_rows::rows::check_rows;
use wasmparser_interning_rows::checked_list::CheckedList;
use wasmparser_interning_rows::new_list::on_new_list;
use wasmparser_types::composite_type::{CompositeType, StructType};
use wasmparser_types::index::{CoreTypeId, PackedIndex};
use wasmparser_types::sub_type::SubType;

// The most types that may be above one.
const MAX_DEPTH: u32 = 63;

// Returns an open structure without fields, below the type with this id.
fn structure(alloc: Global, above: Option<u32>) -> Option<SubType> {
    let mut supertype_idxs = Vec::new(alloc);
    if let Some(above) = above {
        let index = PackedIndex::from_id(CoreTypeId::from_index(above))?;
        supertype_idxs.push(index).ok()?;
    }
    Some(SubType {
        is_final: false,
        supertype_idxs,
        composite_type: CompositeType::Struct(StructType {
            fields: Vec::new(alloc),
        }),
    })
}

/// Interns the structure with this number in a chain, which is below the one before.
pub fn add_structure(alloc: Global, list: &mut CheckedList, number: u32) -> Option<()> {
    let it = structure(alloc, number.checked_sub(1))?;
    list.intern_sub_type(it, 0)?.ok()?;
    Some(())
}

fn add_chain(alloc: Global, list: &mut CheckedList, count: u32) -> Option<()> {
    for number in 0..count {
        add_structure(alloc, list, number)?;
    }
    Some(())
}

// Returns the number of supertypes of a type, or `most` where it has more.
fn links_above(list: &CheckedList, id: u32, most: u32) -> u32 {
    let (mut at, mut links) = (CoreTypeId::from_index(id), 0u32);
    for _ in 0..most {
        if let Some(above) = list.supertype_of(at) {
            at = above;
            links = links.saturating_add(1);
        }
    }
    links
}

// Checks that one type is below another, and is found so by two reads, where both are within the limit on depth.
fn is_pair(asked: &AskedList, a: u32, b: u32) -> bool {
    let (lower, upper) = (CoreTypeId::from_index(a), CoreTypeId::from_index(b));
    let are_within = a <= MAX_DEPTH && b <= MAX_DEPTH;
    let is_counted = match asked.counted(lower, upper) {
        Some((answer, reads)) => are_within && answer == (b <= a) && reads <= 2,
        None => !are_within,
    };
    asked.id_is_subtype(lower, upper) == (b <= a) && is_counted
}

// Checks that a type has as many supertypes as types come before it, and these are the types above it.
fn is_placed(list: &CheckedList, asked: &AskedList, id: u32, count: u32) -> bool {
    let depth = asked.depth(CoreTypeId::from_index(id));
    let is_within = match depth {
        Some(depth) => u32::from(depth) == id,
        None => id > MAX_DEPTH,
    };
    for other in 0..count {
        if !is_pair(asked, id, other) {
            return false;
        }
    }
    is_within && links_above(list, id, count) == id
}

fn have_places(list: &CheckedList, asked: &AskedList, count: u32) -> bool {
    for id in 0..count {
        if !is_placed(list, asked, id, count) {
            return false;
        }
    }
    true
}

/// Checks that the types of a chain have their places.
pub fn are_placed(list: &CheckedList, count: u32) -> bool {
    match AskedList::new(list.list()) {
        Some(asked) => have_places(list, &asked, count),
        None => false,
    }
}

// Returns the depth of a type.
fn depth(list: &CheckedList, id: CoreTypeId) -> Option<u8>
    ensures { IfSome result (IsDepth (slice_get (sub_types list.now)) id) }
{
    match AskedList::new(list.list()) {
        Some(asked) => asked.depth(id),
        None => None,
    }
}

// Sets the depth that a type has, which changes nothing.
fn set_depth(list: &mut CheckedList, id: CoreTypeId) {
    if let Some(found) = depth(list, id) {
        list.set_subtyping_depth(id, found);
    }
}

fn is_chain(alloc: Global, list: &mut CheckedList, row: &str) -> Option<bool> {
    let count = row.trim().parse().ok()?;
    add_chain(alloc, list, count)?;
    set_depth(list, CoreTypeId::from_index(count / 2));
    Some(are_placed(list, count))
}

fn holds(alloc: Global, row: &str) -> Option<bool> {
    on_new_list(alloc, row, is_chain)
}

// In a chain of 64 types the last has 63 above it, which is the limit; in one of 65 it has 64.
const LENGTHS: &str = "1\n2\n64\n65\n70";

#[test]
fn chains_are_walked_by_two_reads(rt: HostRuntime) -> Result<(), Fail> {
    Ok(check_rows(rt.alloc(), LENGTHS, 5, holds)?)
}
