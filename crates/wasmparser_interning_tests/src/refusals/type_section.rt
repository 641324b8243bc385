//! A module's groups in a list of types.

use std::alloc::Global;
use std::test::Fail;
use wasm_core_types::features::WasmFeatures;
use wasm_test_rows::fields::two_fields;
use wasm_test_rows::rows::check_rows;
use wasmparser_error::error::ErrorKind;
use wasmparser_interning_rows::checked_section::{CheckedSection, on_new_section};
use wasmparser_type_words::types::{are_ids, sub_types_of};
use wasmparser_types::sub_type::RecGroup;

// Groups that are added one after the other, and the ids that their types get.
const SECTIONS: &str = "
    struct 1?, struct 0?; struct 3?, struct 2?; func 0 -> 2 | #0 #1 #0 #1 #2
    open : struct, 0 : struct i8; open : struct, 2 : struct i8; array mut:1 | #0 #1 #0 #1 #2
";

// Returns a group in words. Where memory runs out on them, it doesn't a second time.
fn group_of(alloc: Global, types: &str) -> Option<RecGroup> {
    if let Some(types) = sub_types_of(alloc, types) {
        return Some(RecGroup::explicit(types));
    }
    Some(RecGroup::explicit(sub_types_of(alloc, types)?))
}

// Checks that a group is added, at the second time where it is refused. A refusal changes nothing.
fn takes(alloc: Global, section: &mut CheckedSection, types: &str) -> Option<bool> {
    let (ids, len) = (section.type_ids().len(), section.list_len());
    match section.add(group_of(alloc, types)?, 3)? {
        Ok(()) => Some(true),
        Err(error) => {
            let is_kept = section.type_ids().len() == ids && section.list_len() == len;
            let again = section.add(group_of(alloc, types)?, 3)?;
            Some(is_kept && error.kind == ErrorKind::Memory && again.is_ok())
        }
    }
}

fn takes_all(alloc: Global, section: &mut CheckedSection, row: &str) -> Option<bool> {
    let (groups, ids) = two_fields(row)?;
    for types in groups.split_terminator(';') {
        if !takes(alloc, section, types)? {
            return Some(false);
        }
    }
    Some(are_ids(section.type_ids(), ids))
}

fn holds(alloc: Global, row: &str) -> Option<bool> {
    on_new_section(alloc, WasmFeatures::default(), row, takes_all)
}

#[test]
fn refusals_add_no_ids(rt: HostRuntime) -> Result<(), Fail> {
    Ok(check_rows(rt.alloc(), SECTIONS, 2, holds)?)
}
