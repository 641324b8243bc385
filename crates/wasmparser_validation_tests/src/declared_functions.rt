//! The functions that sections declare, and the data count that one states.

use std::alloc::Global;
use std::test::Fail;
use wasm_core_types::features::WasmFeatures;
use wasm_test_rows::fields::three_fields;
use wasm_test_rows::rows::check_rows;
use wasm_test_rows::values::number_of;
use wasmparser_module_state::module_state::ModuleState;
use wasmparser_validation_rows::judged::{JudgedState, are_accepted, on_new_state};

// Sections after four functions, which are accepted; of each function whether it is declared; and the data count, if one is stated.
const DECLARED: &str = "
    | 00000 | none

    // exports
    exports 01 01 61 00 02 | 00100 | none
    exports 02 01 61 00 02 01 62 00 00 | 10100 | none
    memories 03 00 01 00 01 00 01; exports 01 01 61 02 02 | 00000 | none

    // the start function
    start 1 | 00000 | none

    // element segments
    elements 01 01 00 02 03 01 | 01010 | none
    elements 01 03 00 01 03 | 00010 | none
    tables 01 70 00 01; elements 01 00 41000b 02 00 03 | 10010 | none
    elements 01 05 70 03 d2000b d0700b d2020b | 10100 | none
    elements 01 07 70 01 d2010b | 01000 | none
    elements 02 01 00 01 03 01 00 01 00 | 10010 | none

    // constant expressions
    globals 01 70 00 d2030b | 00010 | none
    globals 02 70 00 d2030b 70 00 d0700b | 00010 | none
    tables 01 40 00 70 00 01 d2010b | 01000 | none
    globals 01 70 00 d2030b; exports 01 01 61 00 01; elements 01 01 00 01 00 | 11010 | none

    // data counts
    data_count 0 | 00000 | 0
    data_count 7; data 01 01 00 | 00000 | 7
    data 01 01 00 | 00000 | none
";

const COUNT_OF_DECLARED: usize = 18;

const FUNCTIONS: &str = "types 01 60 00 00; functions 04 00 00 00 00";

fn are_declared(state: &ModuleState, flags: &str) -> bool {
    for (place, flag) in flags.bytes().enumerate() {
        let function = u32::try_from(place).unwrap_or(0);
        if state.is_declared(function) != (flag == b'1') {
            return false;
        }
    }
    true
}

fn is_stated(state: &ModuleState, count: &str) -> bool {
    match state.stated_data_count() {
        None => count == "none",
        Some(stated) => number_of(count) == Some(u64::from(stated)),
    }
}

fn declare(alloc: Global, state: &mut JudgedState, row: &str) -> Option<bool> {
    let (sections, flags, count) = three_fields(row)?;
    let accepted = are_accepted(alloc, state, FUNCTIONS)? && are_accepted(alloc, state, sections)?;
    let known = state.known();
    Some(accepted && are_declared(known, flags) && is_stated(known, count))
}

fn holds(alloc: Global, row: &str) -> Option<bool> {
    on_new_state(alloc, WasmFeatures::default(), row, declare)
}

#[test]
fn functions_are_declared(rt: HostRuntime) -> Result<(), Fail> {
    Ok(check_rows(rt.alloc(), DECLARED, COUNT_OF_DECLARED, holds)?)
}
