//! A body with one local.

use crate::one_local;
use crate::refusals::bodies::example;
use std::alloc::Global;

// Checks that operators are answered so, by another validator where memory ran out.
fn holds(alloc: Global) -> Option<bool> {
    let resources = example(alloc)?;
    let holds = match one_local::holds(alloc, &resources) {
        Some(are_answered) => Some(are_answered),
        None => one_local::holds(alloc, &resources),
    };
    drop(resources);
    holds
}

#[test]
fn operators_are_answered(rt: HostRuntime) {
    assert!(rt; holds(rt.alloc()) == Some(true));
}
