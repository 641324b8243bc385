//! Results of getters after each operator.

use crate::cases::validator_of;
use crate::states::is_state;
use std::alloc::Global;
use std::test::Fail;
use wasm_core_types::features::WasmFeatures;
use wasm_test_rows::fields::two_fields;
use wasm_test_rows::values::bytes_of;
use wasmparser_bodies::module_resources::WasmModuleResources;
use wasmparser_func_validator::func_validator::FuncValidator;
use wasmparser_validation_rows::listed_resources::ListedResources;
use wasmparser_validation_rows::running::run;
use wasmparser_validation_rows::validators::FUNCTION;

// Operators one after the other, and what stands after each: operands, and the open blocks with their types, heights, and a mark where the rest isn't
// reached; and the locals.
const STEPS: &str = "
    4100 | i, b1:0 | il
    4200 | il, b1:0 | il
    0240 | il, b:2 b1:0 | il
    2000 | ili, b:2 b1:0 | il
    0440 | il, c:2 b:2 b1:0 | il
    00 | il, c:2! b:2 b1:0 | il
    4100 | ili, c:2! b:2 b1:0 | il
    1a | il, c:2! b:2 b1:0 | il
    05 | il, e:2 b:2 b1:0 | il
    0c00 | il, e:2! b:2 b1:0 | il
    d4 | il?, e:2! b:2 b1:0 | il
    1a | il, e:2! b:2 b1:0 | il
    0b | il, b:2 b1:0 | il
    0b | il, b1:0 | il
    0301 | il, o1:0 b1:0 | il
    2300 | ili, o1:0 b1:0 | il
    2300 | ilii, o1:0 b1:0 | il
    0407 | ili, c7:2 o1:0 b1:0 | il
    0b | ili, o1:0 b1:0 | il
    1a | il, o1:0 b1:0 | il
    1a | i, o1:0 b1:0 | il
    0b | i, b1:0 | il
    026309 | i, bp:1 b1:0 | il
    d009 | ip, bp:1 b1:0 | il
    0b | ip, b1:0 | il
    1a | i, b1:0 | il
    0f | , b1:0! | il
    1b | ?, b1:0! | il
    0b | i,  | il
";

// Checks that an operator leaves the state that a row says.
fn step_holds<R: WasmModuleResources>(
    alloc: Global,
    validator: &mut FuncValidator<R>,
    row: &str,
) -> Option<bool> {
    let (operator, state) = two_fields(row)?;
    run(validator, &bytes_of(alloc, operator)?, 0).ok()?;
    Some(is_state(alloc, validator, state))
}

// The first row that doesn't hold.
fn steps_hold<R: WasmModuleResources>(
    alloc: Global,
    validator: &mut FuncValidator<R>,
) -> Result<(), &'static str> {
    for row in STEPS.lines() {
        if !row.trim().is_empty() && step_holds(alloc, validator, row) != Some(true) {
            return Err(row);
        }
    }
    Ok(())
}

// Checks that this is told from the start on.
fn is_told(alloc: Global, validator: &FuncValidator<&ListedResources>) -> bool {
    validator.index() == FUNCTION
        && *validator.features() == WasmFeatures::default()
        && validator.resources().imported_functions == 1
        && validator.len_locals() == 2
        && validator.get_operand_type(0).is_none()
        && validator.get_control_frame(1).is_none()
        && is_state(alloc, validator, ", b1:0 | il")
}

fn holds(alloc: Global, resources: &ListedResources) -> Result<(), &'static str> {
    let features = WasmFeatures::default();
    let Some(validator) = validator_of(alloc, resources, features) else {
        return Err("no validator");
    };
    let mut validator = validator;
    let is_told = is_told(alloc, &validator);
    let answer = steps_hold(alloc, &mut validator);
    drop(validator);
    if is_told { answer } else { Err("the start") }
}

#[test]
fn getters_tell_of_each_step(rt: HostRuntime) -> Result<(), Fail> {
    let alloc = rt.alloc();
    let Some(resources) = ListedResources::example(alloc) else {
        assert!(rt; false);
        return Ok(());
    };
    let result = holds(alloc, &resources);
    drop(resources);
    Ok(result?)
}
