//! Lists of which copies are kept.

use std::alloc::{AllocError, Global};
use wasmparser_type_relations::snapshot_list::SnapshotList;

// Checks that a list has the numbers from 0 on, as many as it says.
fn counts_to(list: &SnapshotList<usize>, len: usize) -> bool {
    for number in 0..len {
        if list.get(number) != Some(&number) {
            return false;
        }
    }
    list.len() == len && list.get(len).is_none()
}

// Checks that a copy has so many numbers; none where it is refused.
fn is_copied(list: &mut SnapshotList<usize>, len: usize) -> Option<bool> {
    match list.commit() {
        Ok(copy) => Some(counts_to(&copy, len)),
        Err(_) => None,
    }
}

// Checks that a copy of so many numbers is taken, at the second call where the first is refused.
fn copies(list: &mut SnapshotList<usize>, len: usize) -> bool {
    match is_copied(list, len) {
        Some(is_right) => is_right,
        None => is_copied(list, len) == Some(true) && counts_to(list, len),
    }
}

// Checks that a number goes in after those below it and a copy is taken, at the second call where the first is refused.
fn takes(list: &mut SnapshotList<usize>, number: usize) -> bool {
    let is_pushed = list.push(number).is_ok();
    if !is_pushed && !(counts_to(list, number) && list.push(number).is_ok()) {
        return false;
    }
    copies(list, number.saturating_add(1))
}

// Checks that all numbers below this one do.
fn takes_each(list: &mut SnapshotList<usize>, len: usize) -> bool {
    for number in 0..len {
        if !takes(list, number) {
            return false;
        }
    }
    counts_to(list, len)
}

fn takes_all(alloc: Global, len: usize) -> bool {
    let mut list = SnapshotList::new(alloc);
    takes_each(&mut list, len)
}

#[test]
fn refusals_change_nothing(rt: HostRuntime) {
    assert!(rt; takes_all(rt.alloc(), 20));
}

// Reserves room for more numbers, and adds them from this one on.
fn add_reserved(
    alloc: Global,
    list: &mut SnapshotList<usize>,
    from: usize,
) -> Result<(), AllocError> {
    let mut more = Vec::new(alloc);
    for number in 0..4_usize {
        more.push(from.saturating_add(number))?;
    }
    list.reserve(more.len())?;
    if list.len().checked_add(more.len()).is_none() {
        return Err(AllocError);
    }
    list.append_reserved(more);
    Ok(())
}

// Checks that they are added, at the second time where memory runs out at the first and the list is as it was, and copied.
fn takes_reserved(alloc: Global, list: &mut SnapshotList<usize>, from: usize) -> bool {
    let is_added = add_reserved(alloc, list, from).is_ok();
    if !is_added && !(counts_to(list, from) && add_reserved(alloc, list, from).is_ok()) {
        return false;
    }
    copies(list, from.saturating_add(4))
}

fn takes_all_reserved(alloc: Global) -> bool {
    let mut list = SnapshotList::new(alloc);
    for turn in 0..4_usize {
        if !takes_reserved(alloc, &mut list, turn.saturating_mul(4)) {
            return false;
        }
    }
    counts_to(&list, 16)
}

#[test]
fn reserved_numbers_are_added(rt: HostRuntime) {
    assert!(rt; takes_all_reserved(rt.alloc()));
}
