//! Lists that are made and let go of. Who owns a list proves how each of its parts is let go of, so the tests leave that to these calls.

use crate::checked_list::CheckedList;
use crate::steps::steps_hold;
use std::alloc::Global;

/// Checks that a row holds of a new list.
pub fn on_new_list<F: Fn(Global, &mut CheckedList, &str) -> Option<bool>>(
    alloc: Global,
    row: &str,
    holds: F,
) -> Option<bool>
    requires { F.IsAlwaysCallable holds }
{
    let mut list = CheckedList::new(alloc);
    holds(alloc, &mut list, row)
}

/// Checks that a copy is taken, and then some steps hold on the list, and others on the copy.
pub fn copy_stays(alloc: Global, list: &mut CheckedList, after: &str, of_copy: &str) -> bool {
    match list.commit() {
        Ok(mut copy) => steps_hold(alloc, list, after) && steps_hold(alloc, &mut copy, of_copy),
        Err(_) => false,
    }
}
