//! Operators that the validators of a module's bodies are handed one after the other.

use crate::new_validator::on_new_validator;
use std::alloc::Global;
use std::test::Fail;
use wasm_core::binary_reader::BinaryReader;
use wasm_test_rows::fields::two_fields;
use wasm_test_rows::rows::check_rows;
use wasm_test_rows::values::{bytes_of, number_of};
use wasmparser::error::{Error, ErrorKind};
use wasmparser::func_to_validate::FuncValidatorAllocations;
use wasmparser::func_validator::FuncValidator;
use wasmparser::module_resources::WasmModuleResources;
use wasmparser::operators_reader::OperatorsReader;
use wasmparser::parser::Parser;
use wasmparser::payload::Payload;
use wasmparser::valid_payload::ValidPayload;
use wasmparser::validator::Validator;

/// Modules, and operators that are handed to the validator of each body, or tried where there is a `?`: how many operands there are then, or the kind of the
/// refusal.
pub const OPERATORS: &str = "
    0061736d01000000 010401600000 03020100 0a040102000b | 01=0 4100=1 0240=1 4100=2
    0061736d01000000 010401600000 03020100 0a040102000b | ?6a=body 6a=body 6a=failed ?01=failed
    0061736d01000000 010401600000 03020100 0a040102000b | 4100=1 ?6a=body 4100=2 ?6a=1 6a=body ?01=failed
    0061736d01000000 010401600000 03020100 0a040102000b | 00=0 4100=1 ?7c=body 7c=body
    // As many items of an array as a number can say, where no code is reached.
    0061736d01000000 01 09 02 5e7f00 6000016400 03020101 0a16011400 00fb0800ffffffff0f 00fb0800ffffffff0f 0b | 00=0 fb0800ffffffff0f=1 00=0 fb0800ffffffff0f=1 0b=1
    // A function that nothing names outside of bodies, and one that an export names.
    0061736d01000000 010401600000 03020100 0a040102000b | ?d200=body d200=body
    0061736d01000000 010401600000 03020100 07050101660000 0a040102000b | d200=1 1a=0 0b=0
";

// Hands the validator the operator of these bytes, or tries it.
fn answer<R: WasmModuleResources>(
    validator: &mut FuncValidator<R>,
    bytes: &[u8],
    is_tried: bool,
) -> Result<(), Error> {
    let mut reader = BinaryReader::new(bytes, 0);
    reader.set_features(*validator.features());
    let mut operators = OperatorsReader::new(reader);
    let operator = operators.read()?;
    if is_tried {
        validator.try_op(0, &operator)
    } else {
        validator.op(0, &operator)
    }
}

// Checks that an operator is answered so. One that is tried and refused leaves as many operands. None where memory runs out.
fn is_answered<R: WasmModuleResources>(
    alloc: Global,
    validator: &mut FuncValidator<R>,
    step: &str,
) -> Option<bool> {
    let (operator, expected) = step.split_once('=')?;
    let digits = operator.trim_start_matches('?');
    let is_tried = digits.len() < operator.len();
    let bytes = bytes_of(alloc, digits)?;
    let before = validator.operand_stack_height();
    let answer = answer(validator, &bytes, is_tried);
    let after = validator.operand_stack_height();
    let is_kept = after == before || !is_tried;
    match answer {
        Ok(()) => Some(number_of(expected) == Some(after as u64)),
        Err(e) if e.kind == ErrorKind::Memory && is_kept => None,
        Err(e) => Some(e.kind.name() == expected && is_kept),
    }
}

fn are_answered<R: WasmModuleResources>(
    alloc: Global,
    validator: &mut FuncValidator<R>,
    steps: &str,
) -> Option<bool> {
    for step in steps.split_whitespace() {
        if !is_answered(alloc, validator, step)? {
            return Some(false);
        }
    }
    Some(true)
}

// Checks that a payload is accepted, and if it is a body, that the operators are answered so.
fn payload_holds(
    alloc: Global,
    validator: &mut Validator,
    payload: &Payload<'_>,
    steps: &str,
) -> Result<Option<bool>, Error> {
    match validator.payload(payload)? {
        ValidPayload::Ok => Ok(Some(true)),
        ValidPayload::Func(function, _body) => {
            let mut validator = function.into_validator(FuncValidatorAllocations::new(alloc))?;
            let holds = are_answered(alloc, &mut validator, steps);
            drop(validator);
            Ok(holds)
        }
        ValidPayload::End(types) => {
            drop(types);
            Ok(Some(true))
        }
    }
}

fn module_holds(alloc: Global, validator: &mut Validator, row: &str) -> Option<bool> {
    let (bytes, steps) = two_fields(row)?;
    let bytes = bytes_of(alloc, bytes)?;
    for payload in Parser::new(0).parse_all(&bytes) {
        let Ok(payload) = payload else {
            return None;
        };
        if !payload_holds(alloc, validator, &payload, steps).ok()?? {
            return Some(false);
        }
    }
    Some(true)
}

/// Checks a row with a new validator. None where memory runs out.
pub fn holds(alloc: Global, row: &str) -> Option<bool> {
    on_new_validator(alloc, row, module_holds)
}

#[test]
fn operators_are_answered_in_turn(rt: HostRuntime) -> Result<(), Fail> {
    Ok(check_rows(rt.alloc(), OPERATORS, 7, holds)?)
}
