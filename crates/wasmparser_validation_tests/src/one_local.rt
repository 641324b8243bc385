//! The body of a function that takes and gives nothing, with one local, which has no value at the start.

use crate::cases::validator_of_type;
use std::alloc::Global;
use wasm_core_types::features::WasmFeatures;
use wasm_test_rows::fields::{is_row, three_fields};
use wasm_test_rows::values::{bytes_of, number_of};
use wasmparser_bodies::module_resources::WasmModuleResources;
use wasmparser_error::error::ErrorKind;
use wasmparser_func_validator::func_validator::FuncValidator;
use wasmparser_types::ref_type::RefType;
use wasmparser_types::val_type::ValType;
use wasmparser_validation_rows::listed_resources::ListedResources;
use wasmparser_validation_rows::running::try_first;
use wasmparser_validation_rows::validators::define_locals;

// Operators that are tried one after the other, why each is refused or `ok`, and the number of operands then.
const TRIED: &str = "
    4100 | ok   | 1
    2100 | body | 1
    2000 | body | 1
";

// Checks that an operator is answered so. None where memory runs out.
fn is_answered<R: WasmModuleResources>(
    alloc: Global,
    validator: &mut FuncValidator<R>,
    row: &str,
) -> Option<bool> {
    let (operator, expected, height) = three_fields(row)?;
    let bytes = bytes_of(alloc, operator)?;
    let answer = try_first(validator, &bytes, 0);
    let are_counted = number_of(height) == Some(validator.operand_stack_height() as u64);
    match answer {
        Ok(()) => Some(are_counted && expected == "ok"),
        Err(error) if error.kind == ErrorKind::Memory => None,
        Err(error) => Some(are_counted && error.kind.name() == expected),
    }
}

fn are_answered<R: WasmModuleResources>(
    alloc: Global,
    validator: &mut FuncValidator<R>,
) -> Option<bool> {
    define_locals(validator, 0, 1, ValType::Ref(RefType::FUNC))?.ok()?;
    for row in TRIED.lines() {
        if is_row(row) && !is_answered(alloc, validator, row)? {
            return Some(false);
        }
    }
    Some(true)
}

/// Checks that the operators are answered so. None where memory runs out.
pub fn holds(alloc: Global, resources: &ListedResources) -> Option<bool> {
    let mut validator = validator_of_type(alloc, resources, 0, WasmFeatures::default())?;
    let holds = are_answered(alloc, &mut validator);
    drop(validator);
    holds
}

fn example_holds(alloc: Global) -> Option<bool> {
    let resources = ListedResources::example(alloc)?;
    let holds = holds(alloc, &resources);
    drop(resources);
    holds
}

#[test]
fn local_is_set_to_its_type_and_read_once_it_is_set(rt: HostRuntime) {
    assert!(rt; example_holds(rt.alloc()) == Some(true));
}
