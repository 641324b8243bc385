//! Tables whose rows hold.

use crate::fields::is_row;
use std::alloc::Global;

/// Checks that each row of a table holds, and there are so many. The error is the first row that doesn't hold, or that couldn't be read.
pub fn check_rows<F: Fn(Global, &str) -> Option<bool>>(
    alloc: Global,
    table: &'static str,
    expected: usize,
    holds: F,
) -> Result<(), &'static str>
    requires { F.IsAlwaysCallable holds }
{
    let mut count: usize = 0;
    for row in table.lines() {
        if is_row(row) {
            if holds(alloc, row) != Some(true) {
                return Err(row);
            }
            count = count.saturating_add(1);
        }
    }
    if count == expected {
        Ok(())
    } else {
        Err("another number of rows")
    }
}
