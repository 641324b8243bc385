//! The texts of errors.

use std::alloc::{AllocError, Global};
use std::test::Fail;
use wasm_smith::error::{EmptyChoose, Error, NotEnoughData};
use wasm_smith::unstructured::Unstructured;
use wasm_test_rows::fields::two_fields;
use wasm_test_rows::rows::check_rows;
use wasm_test_rows::shown::displays;

// Errors and what they print.
const PRINTED: &str = "
    IncorrectFormat | incorrect format
    EmptyChoose | nothing to choose from
    NotEnoughData | not enough data
    BadConfig | bad configuration: max_types
    BadShape | bad shape: tables
    TypeSize | type size
    Memory | out of memory
    TooLong | too long
    // Those of draws.
    choose | nothing to choose from
    bytes | not enough data
";

fn error_of(name: &str) -> Option<Error> {
    match name {
        "IncorrectFormat" => Some(Error::IncorrectFormat),
        "EmptyChoose" => Some(Error::EmptyChoose),
        "NotEnoughData" => Some(Error::NotEnoughData),
        "BadConfig" => Some(Error::BadConfig("max_types")),
        "BadShape" => Some(Error::BadShape("tables")),
        "TypeSize" => Some(Error::TypeSize),
        "Memory" => Some(Error::Memory),
        "TooLong" => Some(Error::TooLong),
        _ => None,
    }
}

fn holds(alloc: Global, row: &str) -> Option<bool> {
    let (name, text) = two_fields(row)?;
    match name {
        "choose" => Some(displays(alloc, &EmptyChoose, text)),
        "bytes" => Some(displays(alloc, &NotEnoughData, text)),
        _ => Some(displays(alloc, &error_of(name)?, text)),
    }
}

#[test]
fn errors_print_their_causes(rt: HostRuntime) -> Result<(), Fail> {
    Ok(check_rows(rt.alloc(), PRINTED, 10, holds)?)
}

#[test]
fn is_memory_where_none_is_left(rt: HostRuntime) {
    assert!(rt; Error::from(AllocError) == Error::Memory);
}

// Draws one of these values and then a byte.
fn draw(bytes: &[u8], values: &[u8]) -> Result<u8, Error> {
    let mut source = Unstructured::new(bytes);
    let value = *source.choose(values)?;
    source.bytes(1)?;
    Ok(value)
}

#[test]
fn draws_are_refused_with_the_generators_errors(rt: HostRuntime) {
    assert!(rt; draw(&[], &[]) == Err(Error::EmptyChoose));
    assert!(rt; draw(&[], &[7]) == Err(Error::NotEnoughData));
    assert!(rt; draw(&[0], &[7]) == Ok(7));
}
