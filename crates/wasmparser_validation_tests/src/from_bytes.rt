//! Bodies validated from their bytes, at once and operator by operator.

use crate::cases::validator_of;
use std::alloc::Global;
use std::test::Fail;
use wasm_core_read::binary_reader::BinaryReader;
use wasm_core_types::features::WasmFeatures;
use wasm_test_rows::fields::{two_fields, word_and_rest};
use wasm_test_rows::rows::check_rows;
use wasm_test_rows::values::bytes_of;
use wasmparser_error::error::{Error, ErrorKind};
use wasmparser_func_validator::func_validator::FuncValidator;
use wasmparser_operators::operators_reader::OperatorsReader;
use wasmparser_payloads::function_body::FunctionBody;
use wasmparser_validation_rows::failures::{has_failed, is_failed};
use wasmparser_validation_rows::listed_resources::ListedResources;

// The offset of bodies in the input.
const START: u64 = 100;

// Bodies of a function that takes an `i32` and an `i64` and gives an `i32`, and why they are refused, with how many bytes stand before.
const BODIES: &str = "
    00 2000 0b | ok
    01 017e 2002 a7 0b | ok
    02 017e 027f 2004 0b | ok
    00 0240 0b 2000 0b | ok
    00 2000 0440 05 0b 2000 0b | ok
    00 00 0b | ok
    00 2000 0f 0b | ok
    01 01 6400 2000 0b | ok
    01 01 6400 d200 2102 2002 1a 2000 0b | ok
    01 ce8603 7f 2000 0b | ok
    01 00 7f 2000 0b | ok

    // operators that may not stand there
    00 0b | body 1
    00 2001 0b | body 3
    00 1a ff | body 1
    00 2000 0b 01 | body 4
    00 2000 0b 0b | body 4
    00 2000 0440 05 05 0b 2000 0b | body 6
    01 01 6400 2002 1a 2000 0b | body 4
    00 2002 0b | body 1

    // no end, or no operator that reads
    00 | body
    00 2000 | body
    00 0240 2000 0b | body
    00 41 | body
    00 2000 0240 0b | body

    // codes of no operator
    00 ff | operator
    00 2000 06 | operator
    00 fd00 0b | operator
    00 2000 0b ff | body 4
    00 0b ff | body 1

    // locals
    | body
    01 | body
    80 | body
    01 01 | body
    01 01 00 2000 0b | body
    01 01 640c 2000 0b | body
    01 cf8603 7f 2000 0b | limit 1
    02 ce8603 7f 01 7e 2000 0b | limit 5
";

// Checks that a place is that of a row, or else one of the body, which has so many bytes.
fn is_place(offset: u64, before: &str, len: usize) -> Option<bool> {
    let place = offset.checked_sub(START)?;
    if before.is_empty() {
        return Some(place <= len as u64);
    }
    Some(place == u64::from(before.parse::<u32>().ok()?))
}

// Checks that an answer is as a row says it.
fn is_answer(answer: &Result<(), Error>, expected: &str, len: usize) -> Option<bool> {
    match answer {
        Ok(()) => Some(expected == "ok"),
        Err(Error { offset, kind }) => {
            let (name, before) = word_and_rest(expected);
            Some(kind.name() == name && is_place(*offset, before, len)?)
        }
    }
}

fn is_same(answer: &Result<(), Error>, other: &Result<(), Error>) -> bool {
    match (answer, other) {
        (Ok(()), Ok(())) => true,
        (Err(a), Err(b)) => a == b,
        _ => false,
    }
}

// Validates a body at once.
fn validate(validator: &mut FuncValidator<&ListedResources>, bytes: &[u8]) -> Result<(), Error> {
    let body = FunctionBody::new(BinaryReader::new(bytes, START));
    validator.validate(&body)
}

fn broken(offset: u64) -> Result<(), Error> {
    Err(Error {
        offset,
        kind: ErrorKind::Body,
    })
}

// Validates operators one by one, up to the end of the body.
fn step_through(
    validator: &mut FuncValidator<&ListedResources>,
    operators: &mut OperatorsReader<'_>,
    count: usize,
) -> Result<(), Error> {
    for _ in 0..count {
        if validator.control_stack_height() == 0 {
            break;
        }
        let offset = operators.original_position();
        let operator = operators.read()?;
        validator.op(offset, &operator)?;
    }
    if operators.eof() {
        return Ok(());
    }
    broken(operators.original_position())
}

/// Validates a body's locals, and then its operators one by one.
pub fn validate_by_steps(
    validator: &mut FuncValidator<&ListedResources>,
    bytes: &[u8],
) -> Option<Result<(), Error>> {
    let mut reader = BinaryReader::new(bytes, START);
    reader.set_features(*validator.features());
    if let Err(error) = validator.read_locals(&mut reader) {
        let stands = reader.original_position() == START;
        return if stands { Some(Err(error)) } else { None };
    }
    let mut operators = OperatorsReader::new(reader);
    Some(step_through(validator, &mut operators, bytes.len()))
}

// Returns the answer to a body. After a refusal all is refused, the same body at its first byte.
fn answer_at_once(
    validator: &mut FuncValidator<&ListedResources>,
    bytes: &[u8],
) -> Option<Result<(), Error>> {
    let answer = validate(validator, bytes);
    let holds = if answer.is_ok() {
        validator.control_stack_height() == 0
    } else {
        is_failed(validate(validator, bytes), START) && has_failed(validator)
    };
    if holds { Some(answer) } else { None }
}

// Does the same, at once or by steps.
fn answer_of(
    alloc: Global,
    resources: &ListedResources,
    bytes: &[u8],
    is_at_once: bool,
) -> Option<Result<(), Error>> {
    let mut validator = validator_of(alloc, resources, WasmFeatures::default())?;
    let answer = if is_at_once {
        answer_at_once(&mut validator, bytes)
    } else {
        validate_by_steps(&mut validator, bytes)
    };
    drop(validator);
    answer
}

// Checks that a body is answered as expected, at once and by steps.
fn holds_of(
    alloc: Global,
    resources: &ListedResources,
    bytes: &[u8],
    expected: &str,
) -> Option<bool> {
    let answer = answer_of(alloc, resources, bytes, true)?;
    let other = answer_of(alloc, resources, bytes, false)?;
    Some(is_answer(&answer, expected, bytes.len())? && is_same(&answer, &other))
}

fn holds(alloc: Global, resources: &ListedResources, row: &str) -> Option<bool> {
    let (bytes, expected) = two_fields(row)?;
    let bytes = bytes_of(alloc, bytes)?;
    holds_of(alloc, resources, &bytes, expected)
}

fn rows_hold(alloc: Global, resources: &ListedResources) -> Result<(), &'static str> {
    check_rows(alloc, BODIES, 37, |alloc, row| holds(alloc, resources, row))
}

#[test]
fn bodies_are_validated_at_once_as_by_steps(rt: HostRuntime) -> Result<(), Fail> {
    let alloc = rt.alloc();
    let Some(resources) = ListedResources::example(alloc) else {
        assert!(rt; false);
        return Ok(());
    };
    let result = rows_hold(alloc, &resources);
    drop(resources);
    Ok(result?)
}

// Bodies in a module with one more type than value types can name: the last of these two is refused only where a body names it.
const PAST_NAMED_TYPES: &str = "
    00 2000 0b | ok
    01 01 63ffff3f 2000 0b | ok
    01 01 638080c000 2000 0b | body 1
    00 02 638080c000 00 0b 1a 2000 0b | body
";

// Adds types, so that a module has so many.
fn with_types(mut resources: ListedResources, count: usize) -> Option<ListedResources> {
    for _ in resources.types.ids.len()..count {
        resources.types.ids.push(0).ok()?;
    }
    Some(resources)
}

fn rows_past_named_types_hold(
    alloc: Global,
    resources: ListedResources,
) -> Result<(), &'static str> {
    let Some(resources) = with_types(resources, (1 << 20) + 1) else {
        return Err("no memory");
    };
    let result = check_rows(alloc, PAST_NAMED_TYPES, 4, |alloc, row| {
        holds(alloc, &resources, row)
    });
    drop(resources);
    result
}

#[test]
fn a_type_that_cannot_be_named_is_a_broken_body(rt: HostRuntime) -> Result<(), Fail> {
    let alloc = rt.alloc();
    let Some(resources) = ListedResources::example(alloc) else {
        assert!(rt; false);
        return Ok(());
    };
    Ok(rows_past_named_types_hold(alloc, resources)?)
}
