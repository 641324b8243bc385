//! Many operands, blocks, labels, parameters and locals.

use crate::cases::validator_of;
use std::alloc::Global;
use std::test::Fail;
use wasm_core_types::features::WasmFeatures;
use wasm_core_types::limits::Limit;
use wasm_test_rows::rows::check_rows;
use wasm_test_rows::values::bytes_of;
use wasmparser_bodies::module_resources::WasmModuleResources;
use wasmparser_error::error::{Error, ErrorKind};
use wasmparser_func_validator::func_to_validate::FuncValidatorAllocations;
use wasmparser_func_validator::func_validator::FuncValidator;
use wasmparser_types::composite_type::FuncType;
use wasmparser_types::sub_type::SubType;
use wasmparser_types::val_type::ValType;
use wasmparser_validation_rows::failures::has_failed;
use wasmparser_validation_rows::listed_resources::ListedResources;
use wasmparser_validation_rows::running::run;
use wasmparser_validation_rows::validators::{define_locals, validator_in};

// Operators that are accepted: many operands, which are dropped again or never reached; many blocks, also with operands below them; jumps to many labels, and to the
// body out of as many blocks.
const BODIES: &str = "
    4100*100000 1a*100000
    4100*100000 00 4100*100000 00
    0240*100000 0b*100000
    4100*50000 0340*50000 0b*50000 1a*50000
    4100 4100 0e a08d06 00*100000 00
    0240*100000 4100 0c a08d06
    0240*100000 4100 4100 0e 01 a08d06 a08d06
    4100*100000 6a*99999 0b
";

fn is_body_accepted(alloc: Global, resources: &ListedResources, bytes: &[u8]) -> Option<bool> {
    let mut validator = validator_of(alloc, resources, WasmFeatures::default())?;
    let result = run(&mut validator, bytes, 0);
    drop(validator);
    Some(result.is_ok())
}

fn is_accepted(alloc: Global, resources: &ListedResources, row: &str) -> Option<bool> {
    is_body_accepted(alloc, resources, &bytes_of(alloc, row)?)
}

fn bodies_hold(alloc: Global, resources: &ListedResources) -> Result<(), &'static str> {
    check_rows(
        alloc,
        BODIES,
        8,
        |alloc, row| is_accepted(alloc, resources, row),
    )
}

#[test]
fn bodies_are_large(rt: HostRuntime) -> Result<(), Fail> {
    let alloc = rt.alloc();
    let Some(resources) = ListedResources::example(alloc) else {
        assert!(rt; false);
        return Ok(());
    };
    let result = bodies_hold(alloc, &resources);
    drop(resources);
    Ok(result?)
}

fn types_of(alloc: Global, count: usize) -> Option<Vec<ValType>> {
    let mut types = Vec::new(alloc);
    types.resize(count, ValType::I64).ok()?;
    Some(types)
}

fn wide_type(alloc: Global, count: usize) -> Option<SubType> {
    let params = types_of(alloc, count)?;
    match types_of(alloc, count) {
        Some(results) => Some(SubType::func(alloc, FuncType::new(params, results))),
        None => None,
    }
}

// Gives the module a function that takes so many `i64` and gives as many.
fn add_wide(alloc: Global, resources: &mut ListedResources, count: usize) -> Option<()> {
    resources.types.known.push(wide_type(alloc, count)?).ok()?;
    resources.types.ids.push(0).ok()?;
    resources.functions.push(0).ok()
}

// Checks that a body of a function of so many parameters has as many locals, and calls itself again and again.
fn calls<R: WasmModuleResources>(alloc: Global, validator: &mut FuncValidator<R>) -> Option<bool> {
    let bytes = bytes_of(alloc, "4200*1000 1000*100 0b")?;
    let has_locals = validator.len_locals() == 1_000;
    run(validator, &bytes, 0).ok()?;
    Some(has_locals && validator.operand_stack_height() == 1_000)
}

// Checks that as many locals as there may be are there, and one more is refused.
fn is_full<R: WasmModuleResources>(validator: &mut FuncValidator<R>) -> Option<bool> {
    let has_locals = validator.len_locals() == 50_000 && validator.get_local_type(49_999).is_some();
    define_locals(validator, 5, 0, ValType::I32)?.ok()?;
    let is_limit = match define_locals(validator, 6, 1, ValType::I32)? {
        Ok(()) => false,
        Err(Error { offset, kind }) => offset == 6 && kind == ErrorKind::Limit(Limit::Locals),
    };
    Some(has_locals && is_limit && has_failed(validator))
}

fn wide_holds(alloc: Global, resources: &ListedResources, count: usize) -> Option<bool> {
    let room = FuncValidatorAllocations::new(alloc);
    match validator_in(resources, 0, WasmFeatures::default(), room)? {
        Ok(validator) => {
            let mut validator = validator;
            let holds = if count == 1_000 {
                calls(alloc, &mut validator)
            } else {
                is_full(&mut validator)
            };
            drop(validator);
            holds
        }
        Err(Error { offset, kind }) => {
            Some(count > 50_000 && offset == 0 && kind == ErrorKind::Limit(Limit::Locals))
        }
    }
}

// Checks the body of a function of so many parameters, which is refused past the limit on locals.
fn is_wide(alloc: Global, count: usize) -> Option<bool> {
    let mut resources = ListedResources::new(alloc, Vec::new(alloc));
    let holds = match add_wide(alloc, &mut resources, count) {
        Some(()) => wide_holds(alloc, &resources, count),
        None => None,
    };
    drop(resources);
    holds
}

#[test]
fn functions_have_many_parameters(rt: HostRuntime) {
    let alloc = rt.alloc();
    assert!(rt; is_wide(alloc, 1_000) == Some(true));
    assert!(rt; is_wide(alloc, 50_000) == Some(true));
    assert!(rt; is_wide(alloc, 50_001) == Some(true));
}

// Locals up to the limit, after two parameters.
fn locals_hold<R: WasmModuleResources>(validator: &mut FuncValidator<R>) -> Option<bool> {
    define_locals(validator, 3, 49_997, ValType::F64)?.ok()?;
    define_locals(validator, 4, 1, ValType::FUNCREF)?.ok()?;
    let are_told = validator.get_local_type(49_998) == Some(ValType::F64)
        && validator.get_local_type(49_999) == Some(ValType::FUNCREF)
        && validator.get_local_type(50_000).is_none();
    Some(are_told && is_full(validator)?)
}

fn many_locals(alloc: Global, resources: &ListedResources) -> Result<(), &'static str> {
    match validator_of(alloc, resources, WasmFeatures::default()) {
        Some(validator) => {
            let mut validator = validator;
            let holds = locals_hold(&mut validator);
            drop(validator);
            if holds == Some(true) {
                Ok(())
            } else {
                Err("locals")
            }
        }
        None => Err("no validator"),
    }
}

#[test]
fn locals_are_many(rt: HostRuntime) -> Result<(), Fail> {
    let alloc = rt.alloc();
    let Some(resources) = ListedResources::example(alloc) else {
        assert!(rt; false);
        return Ok(());
    };
    let result = many_locals(alloc, &resources);
    drop(resources);
    Ok(result?)
}
