//! The ids of a group's types.

use std::alloc::Global;
use std::iter::{ExactSizeIterator, Iterator};
use std::test::Fail;
use wasm_test_rows::fields::two_fields;
use wasm_test_rows::rows::check_rows;
use wasmparser_interning_rows::checked_list::CheckedList;
use wasmparser_interning_rows::new_list::on_new_list;
use wasmparser_interning_rows::steps::steps_hold;
use wasmparser_type_list::rec_group_elements::RecGroupElements;
use wasmparser_type_words::types::id_of;
use wasmparser_types::index::RecGroupId;

// Groups of one, of three, of none, and again of one.
const GROUPS: &str =
    "func -> = #0; group struct own.1?, array i8, struct own.0? = new #1 #2 #3; group = new; func i32 -> = #4";

// A group, and the ids of its types.
const ELEMENTS: &str = "
    0 | #0
    1 | #1 #2 #3
    2 |
    3 | #4
    4 |
";

// Checks that this id comes next, and so many were still to come.
fn is_next(elements: &mut RecGroupElements, left: usize, id: &str) -> bool {
    let is_told = elements.len() == left && elements.size_hint() == (left, Some(left));
    match (elements.next(), id_of(id)) {
        (Some(found), Some(id)) => is_told && found == id,
        _ => false,
    }
}

// Checks that these ids are to come, in order, and none after them.
fn gives(elements: &mut RecGroupElements, ids: &str) -> bool {
    let mut left = ids.split_whitespace().count();
    for id in ids.split_whitespace() {
        if !is_next(elements, left, id) {
            return false;
        }
        left = left.saturating_sub(1);
    }
    elements.len() == 0 && elements.next().is_none() && elements.next().is_none()
}

fn has_elements(list: &CheckedList, group: RecGroupId, ids: &str) -> bool {
    let mut elements = list.list().rec_group_elements(group);
    gives(&mut elements, ids)
}

fn row_is_so(alloc: Global, list: &mut CheckedList, row: &str) -> Option<bool> {
    let (group, ids) = two_fields(row)?;
    let group = RecGroupId::from_index(group.parse().ok()?);
    Some(steps_hold(alloc, list, GROUPS) && has_elements(list, group, ids))
}

fn holds(alloc: Global, row: &str) -> Option<bool> {
    on_new_list(alloc, row, row_is_so)
}

#[test]
fn groups_give_their_ids(rt: HostRuntime) -> Result<(), Fail> {
    Ok(check_rows(rt.alloc(), ELEMENTS, 5, holds)?)
}
