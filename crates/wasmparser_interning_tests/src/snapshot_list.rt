//! Lists of which copies are kept: what they hold, and what their copies hold.

use std::alloc::{AllocError, Global};
use std::test::Fail;
use wasmparser_type_relations::snapshot_list::SnapshotList;

// Checks that a list and a copy of it, which was made when it had one number, each grow by themselves.
fn grow_apart(
    list: &mut SnapshotList<usize>,
    kept: &mut SnapshotList<usize>,
) -> Result<bool, AllocError> {
    list.push(8)?;
    let has_grown = list.len() == 2 && list[1] == 8;
    let is_as_it_was = kept.len() == 1 && kept.get(0) == Some(&7) && kept.get(1).is_none();
    kept.push(9)?;
    let are_apart = kept.len() == 2 && kept[1] == 9 && list.len() == 2 && list[1] == 8;
    Ok(has_grown && is_as_it_was && are_apart)
}

fn grows_apart(list: &mut SnapshotList<usize>) -> Result<bool, AllocError> {
    list.push(7)?;
    let mut kept = list.commit()?;
    grow_apart(list, &mut kept)
}

#[test]
fn copy_stays_as_it_was(rt: HostRuntime) -> Result<(), Fail> {
    let mut list = SnapshotList::new(rt.alloc());
    assert!(rt; list.is_empty() && grows_apart(&mut list)?);
    Ok(())
}

// Pushes two numbers after a first one that was committed, within reserved capacity, and appends two more within capacity for as many.
fn in_room(alloc: Global) -> Result<SnapshotList<usize>, AllocError> {
    let mut list = SnapshotList::new(alloc);
    list.push(0)?;
    list.commit()?;
    list.reserve(2)?;
    list.push_reserved(1);
    list.push_reserved(2);
    let more = vec![in alloc; 3, 4]?;
    list.reserve(more.len())?;
    list.append_reserved(more);
    Ok(list)
}

#[test]
fn room_is_made(rt: HostRuntime) -> Result<(), Fail> {
    assert!(rt; counts_to(&in_room(rt.alloc())?, 5));
    Ok(())
}

// Checks that a list has the numbers from 0 on, as many as it says, and nothing after them.
fn counts_to(list: &SnapshotList<usize>, len: usize) -> bool {
    for number in 0..len {
        if list.get(number) != Some(&number) {
            return false;
        }
    }
    list.len() == len && list.get(len).is_none() && list.get(usize::MAX).is_none()
}

// Pushes the numbers from 0 on, one after the other, and takes a copy after each so many of them.
fn push_numbers(
    list: &mut SnapshotList<usize>,
    copies: &mut Vec<SnapshotList<usize>>,
    len: usize,
    step: usize,
) -> Result<(), AllocError> {
    for number in 0..len {
        list.push(number)?;
        if list.len() % step.max(1) == 0 {
            copies.push(list.commit()?)?;
        }
    }
    Ok(())
}

// Checks that there are so many numbers, and the copies have one step more each.
fn are_counted(
    list: &SnapshotList<usize>,
    copies: &[SnapshotList<usize>],
    len: usize,
    step: usize,
) -> bool {
    let mut are_kept = counts_to(list, len);
    let mut count: usize = 0;
    for copy in copies {
        count = count.saturating_add(step);
        are_kept = are_kept && counts_to(copy, count);
    }
    are_kept && copies.len() == len / step.max(1)
}

// Checks that copies that are taken after each so many numbers stay as they were.
fn keeps_copies(alloc: Global, len: usize, step: usize) -> Result<bool, AllocError> {
    let (mut list, mut copies) = (SnapshotList::new(alloc), Vec::new(alloc));
    push_numbers(&mut list, &mut copies, len, step)?;
    Ok(are_counted(&list, &copies, len, step))
}

#[test]
fn copies_are_kept(rt: HostRuntime) -> Result<(), Fail> {
    for (len, step) in [(130, 1), (1_000, 3), (1_000, 1_001)] {
        assert!(rt; keeps_copies(rt.alloc(), len, step)?, "after each {step}");
    }
    Ok(())
}

// Does the same for so many numbers, without a copy being kept.
fn takes_copies(list: &mut SnapshotList<usize>, len: usize) -> Result<bool, AllocError> {
    for number in 0..len {
        list.push(number)?;
        list.commit()?;
    }
    Ok(counts_to(list, len))
}

#[test]
fn a_million_copies_share_their_elements(rt: HostRuntime) -> Result<(), Fail> {
    let mut list = SnapshotList::new(rt.alloc());
    assert!(rt; takes_copies(&mut list, 1_000_000)?, "all are there");
    Ok(())
}
