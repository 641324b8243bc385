//! Shapes, and what is checked of them.

use crate::shapes::{
    Asked, COUNTED, EXPORTS, IMPORTS, SUPERTYPES, TYPES, checked, is_answer, parts_of,
};
use std::alloc::Global;
use std::test::Fail;
use wasm_smith::error::Error;
use wasm_smith_config_rows::shapes::shape_of;
use wasm_smith_shapes::shape::Shape;
use wasm_test_rows::rows::check_rows;

// Returns the shape of a text, at the second time where memory runs out at the first.
fn read(alloc: Global, text: &str) -> Option<Shape> {
    match shape_of(alloc, text) {
        Some(shape) => Some(shape),
        None => shape_of(alloc, text),
    }
}

// Checks that a shape is answered so, or that memory runs out, and it is answered so the next time.
fn is_answered(alloc: Global, shape: &Shape, asked: Asked, expected: &str) -> bool {
    match checked(alloc, shape, asked) {
        Err(Error::Memory) => is_answer(checked(alloc, shape, asked), expected),
        answer => is_answer(answer, expected),
    }
}

fn holds(alloc: Global, row: &str) -> Option<bool> {
    let (asked, text, expected) = parts_of(row)?;
    let shape = read(alloc, text)?;
    Some(is_answered(alloc, &shape, asked, expected))
}

#[test]
fn types_are_checked(rt: HostRuntime) -> Result<(), Fail> {
    check_rows(rt.alloc(), TYPES, 75, holds)?;
    Ok(check_rows(rt.alloc(), SUPERTYPES, 48, holds)?)
}

#[test]
fn imports_and_exports_are_checked(rt: HostRuntime) -> Result<(), Fail> {
    check_rows(rt.alloc(), IMPORTS, 78, holds)?;
    check_rows(rt.alloc(), EXPORTS, 50, holds)?;
    Ok(check_rows(rt.alloc(), COUNTED, 35, holds)?)
}
