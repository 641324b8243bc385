//! Hints on branches.

use crate::written::writes;
use std::alloc::Global;
use wasm_encoder_custom::branch_hints::{BranchHint, BranchHints};

const HINT: BranchHint = BranchHint {
    branch_func_offset: 5,
    branch_hint_value: 1,
};

const LATER: BranchHint = BranchHint {
    branch_func_offset: 300,
    branch_hint_value: 0,
};

/// Checks that a section of one hint is written.
pub fn one_hint(alloc: Global) -> Option<bool> {
    let mut section = BranchHints::new(alloc);
    section.function_hints(0, &[HINT]).ok()?;
    let is_told = section.len() == 1 && !section.is_empty() && section.item_len(0) == Some(5);
    Some(is_told && writes(alloc, &section, ONE))
}

const ONE: &str = "
    00 20 19 6d 65 74 61 64 61 74 61 2e 63 6f 64 65 2e 62 72 61 6e 63 68 5f 68 69 6e 74
    01 00 01 05 01 01
";

#[test]
fn a_hint(rt: HostRuntime) {
    assert!(rt; one_hint(rt.alloc()) == Some(true));
}

/// Checks that a section of two functions is written.
pub fn two_functions(alloc: Global) -> Option<bool> {
    let mut section = BranchHints::new(alloc);
    section.function_hints(0, &[]).ok()?;
    section.function_hints(1, &[HINT, LATER]).ok()?;
    let is_told = section.item_len(1) == Some(9) && section.item_len(2).is_none();
    Some(is_told && writes(alloc, &section, TWO))
}

const TWO: &str = "
    00 26 19 6d 65 74 61 64 61 74 61 2e 63 6f 64 65 2e 62 72 61 6e 63 68 5f 68 69 6e 74
    02 00 00 01 02 05 01 01 ac 02 01 00
";

#[test]
fn functions_in_order(rt: HostRuntime) {
    assert!(rt; two_functions(rt.alloc()) == Some(true));
}
