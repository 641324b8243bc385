//! Names that differ.

use std::alloc::{AllocError, Global};
use std::ops::Range;
use std::test::Fail;
use wasm_smith_unstructured::names::UniqueNames;
use wasm_smith_unstructured::text::unique_string;
use wasm_smith_unstructured::unstructured::Unstructured;
use wasm_test_rows::fields::two_fields;
use wasm_test_rows::rows::check_rows;

/// Texts that are drawn one after the other, and the names that they get.
pub const NAMED: &str = "
    a a a | a a1 a2
    é é | é é1
    // Names that end in numbers are passed over.
    a a1 a | a a1 a2
    a a2 a a | a a2 a3 a4
    a a1 a1 | a a1 a12
    a3 a4 a a a | a3 a4 a a5 a6
    a a10 a10 a a | a a10 a102 a3 a4
    // A number is at least the number of names.
    a a b c d a | a a1 b c d a5
    a a b b a | a a1 b b3 a4
";

// Checks the name that is drawn for a text.
fn is_named(alloc: Global, names: &mut UniqueNames, text: &str, expected: &str) -> Option<bool> {
    let mut bytes = text.as_bytes().to_vec(alloc).ok()?;
    bytes.push(u8::try_from(text.len()).ok()?).ok()?;
    let name = unique_string(alloc, &mut Unstructured::new(&bytes), 100, names).ok()?;
    Some(name.as_str() == expected && names.contains(expected))
}

fn holds(alloc: Global, row: &str) -> Option<bool> {
    let (texts, expected) = two_fields(row)?;
    let mut names = UniqueNames::new(alloc);
    let mut expected = expected.split(' ');
    for text in texts.split(' ') {
        if !is_named(alloc, &mut names, text, expected.next()?)? {
            return Some(false);
        }
    }
    Some(expected.next().is_none())
}

#[test]
fn texts_get_the_least_numbers(rt: HostRuntime) -> Result<(), Fail> {
    Ok(check_rows(rt.alloc(), NAMED, 9, holds)?)
}

// Adds `a` with each of these numbers at its end.
fn add_numbered(
    alloc: Global,
    names: &mut UniqueNames,
    numbers: Range<u32>,
) -> Result<(), AllocError> {
    for number in numbers {
        names.add(alloc, format!(in alloc; "a{number}")?.as_str())?;
    }
    Ok(())
}

// Checks that `a` gets one of these numbers after the other.
fn get_numbers(
    alloc: Global,
    names: &mut UniqueNames,
    numbers: Range<u32>,
) -> Result<bool, AllocError> {
    for number in numbers {
        if names.add(alloc, "a")? != format!(in alloc; "a{number}")? {
            return Ok(false);
        }
    }
    Ok(true)
}

fn are_numbered(alloc: Global) -> Result<bool, AllocError> {
    let mut names = UniqueNames::new(alloc);
    add_numbered(alloc, &mut names, 10_000..20_000)?;
    names.add(alloc, "a")?;
    Ok(get_numbers(alloc, &mut names, 20_000..30_000)? && names.len() == 20_001)
}

// It would take minutes if numbers were tried again.
#[test]
fn numbers_are_tried_once(rt: HostRuntime) -> Result<(), Fail> {
    assert!(rt; are_numbered(rt.alloc())?);
    Ok(())
}
