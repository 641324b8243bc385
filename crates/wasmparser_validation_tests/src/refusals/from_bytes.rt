//! Bodies that are validated from their bytes, by a validator that is refused an allocation.

use crate::from_bytes::validate_by_steps;
use crate::refusals::bodies::{bytes, example, is_memory, validator_of};
use std::alloc::Global;
use std::test::Fail;
use wasm_core_read::binary_reader::BinaryReader;
use wasm_test_rows::fields::two_fields;
use wasm_test_rows::rows::check_rows;
use wasmparser_error::error::Error;
use wasmparser_func_validator::func_to_validate::FuncValidatorAllocations;
use wasmparser_func_validator::func_validator::FuncValidator;
use wasmparser_payloads::function_body::FunctionBody;
use wasmparser_validation_rows::failures::has_failed;
use wasmparser_validation_rows::listed_resources::ListedResources;

// Bodies of a function that takes an `i32` and an `i64` and gives an `i32`, and why they are refused. They take room for runs of locals, operands, blocks in
// blocks with a local that is set in them, second lists and jumps.
const BODIES: &str = "
    4e 017c 016470 017e017f*38 4100*20 0240*9 d200 2103 2003 1a 4100 047f 4200 a7 05 4100 0b 1a 0b*9 1a*20 2000 0b | ok
    00 4100 4200 0201 1a 0b 0f 0b | ok
    00 0240*9 4100 0e0400010203 04 0b*9 4100 0b | ok
    4e 017c 016470 017e017f*38 4100*20 0240*9 0b*9 | body
    01 016470 0240*9 d200 2102 0b 2002 | body
    00 0240*9 4100*20 06 | operator
    4d 017c 016470 017e017f*37 ffff03 7f | limit
";

// Validates a body at once, or its locals and then its operators one by one.
fn validate(
    validator: &mut FuncValidator<&ListedResources>,
    bytes: &[u8],
    is_at_once: bool,
) -> Option<Result<(), Error>> {
    if !is_at_once {
        return validate_by_steps(validator, bytes);
    }
    let body = FunctionBody::new(BinaryReader::new(bytes, 0));
    Some(validator.validate(&body))
}

fn is_answer(answer: &Result<(), Error>, expected: &str) -> bool {
    match answer {
        Ok(()) => expected == "ok",
        Err(Error { kind, .. }) => kind.name() == expected,
    }
}

// Validates the body, and answers whether memory ran out: None where another answer is given than what is expected else.
fn ran_out(
    validator: &mut FuncValidator<&ListedResources>,
    bytes: &[u8],
    is_at_once: bool,
    expected: &str,
) -> Option<bool> {
    let answer = validate(validator, bytes, is_at_once)?;
    let is_memory = is_memory(&answer);
    let holds = if is_memory {
        has_failed(validator)
    } else {
        is_answer(&answer, expected)
    };
    if holds { Some(is_memory) } else { None }
}

// Checks that a body has its answer, by a second validator in the room of the first where memory ran out. It runs out once.
fn is_answered(
    alloc: Global,
    resources: &ListedResources,
    bytes: &[u8],
    is_at_once: bool,
    expected: &str,
) -> Option<bool> {
    let mut first = validator_of(alloc, resources, FuncValidatorAllocations::new(alloc))?;
    let at_first = ran_out(&mut first, bytes, is_at_once, expected);
    let mut second = validator_of(alloc, resources, first.into_allocations())?;
    let again = ran_out(&mut second, bytes, is_at_once, expected);
    drop(second);
    Some(at_first.is_some() && again == Some(false))
}

fn holds(alloc: Global, row: &str) -> Option<bool> {
    let (field, expected) = two_fields(row)?;
    let bytes = bytes(alloc, field)?;
    let resources = example(alloc)?;
    let at_once = is_answered(alloc, &resources, &bytes, true, expected);
    let by_steps = is_answered(alloc, &resources, &bytes, false, expected);
    drop(resources);
    Some(at_once? && by_steps?)
}

#[test]
fn refused_bodies_have_their_answers_in_their_room(rt: HostRuntime) -> Result<(), Fail> {
    Ok(check_rows(rt.alloc(), BODIES, 7, holds)?)
}
