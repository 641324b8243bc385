//! A chain of types.

use crate::chains::{add_structure, are_placed};
use std::alloc::Global;
use wasmparser_interning_rows::checked_list::CheckedList;
use wasmparser_interning_rows::new_list::on_new_list;

// Checks that a structure is interned, at the second time where memory runs out at the first and the list is as it was.
fn takes(alloc: Global, list: &mut CheckedList, number: u32) -> bool {
    let types = list.len();
    if add_structure(alloc, list, number).is_some() {
        return true;
    }
    list.len() == types && add_structure(alloc, list, number).is_some()
}

// Checks that a chain as long as may be is interned.
fn takes_all(alloc: Global, list: &mut CheckedList, _row: &str) -> Option<bool> {
    for number in 0..64_u32 {
        if !takes(alloc, list, number) {
            return Some(false);
        }
    }
    Some(are_placed(list, 64))
}

#[test]
fn a_chain_is_interned(rt: HostRuntime) {
    assert!(rt; on_new_list(rt.alloc(), "", takes_all) == Some(true));
}
