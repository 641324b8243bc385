//! What values show.

use std::alloc::Global;
use std::fmt::{Debug, Display};

/// Checks that a value displays this.
pub fn displays<T: Display>(alloc: Global, value: &T, expected: &str) -> bool {
    match format!(in alloc; "{value}") {
        Ok(shown) => shown.as_str() == expected,
        Err(_) => false,
    }
}

/// Checks that a value's `Debug` is this.
pub fn debugs<T: Debug>(alloc: Global, value: &T, expected: &str) -> bool {
    match format!(in alloc; "{value:?}") {
        Ok(shown) => shown.as_str() == expected,
        Err(_) => false,
    }
}

/// Checks that two values have the same `Debug`.
pub fn debugs_same<T: Debug, U: Debug>(alloc: Global, value: &T, other: &U) -> bool {
    match format!(in alloc; "{other:?}") {
        Ok(shown) => debugs(alloc, value, &shown),
        Err(_) => false,
    }
}
