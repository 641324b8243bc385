//! Names that differ.

use crate::names::NAMED;
use std::alloc::Global;
use std::test::Fail;
use wasm_smith::names::{DuplicateImportsBehavior, ImportNames};
use wasm_smith_unstructured::names::UniqueNames;
use wasm_smith_unstructured::text::unique_string;
use wasm_smith_unstructured::unstructured::Unstructured;
use wasm_test_rows::fields::two_fields;
use wasm_test_rows::rows::check_rows;

// Draws a name from a text, and checks that it is this. None where memory runs out.
fn is_named(alloc: Global, names: &mut UniqueNames, text: &str, expected: &str) -> Option<bool> {
    let mut bytes = text.as_bytes().to_vec(alloc).ok()?;
    bytes.push(u8::try_from(text.len()).ok()?).ok()?;
    let name = unique_string(alloc, &mut Unstructured::new(&bytes), 100, names).ok()?;
    Some(name.as_str() == expected && names.contains(expected))
}

// Checks that it is, at the second time where memory runs out at the first and no name is added.
fn takes(alloc: Global, names: &mut UniqueNames, text: &str, expected: &str) -> bool {
    let before = names.len();
    match is_named(alloc, names, text, expected) {
        Some(is_right) => is_right,
        None => names.len() == before && is_named(alloc, names, text, expected) == Some(true),
    }
}

fn holds(alloc: Global, row: &str) -> Option<bool> {
    let (texts, expected) = two_fields(row)?;
    let mut names = UniqueNames::new(alloc);
    let mut expected = expected.split(' ');
    for text in texts.split(' ') {
        if !takes(alloc, &mut names, text, expected.next()?) {
            return Some(false);
        }
    }
    Some(expected.next().is_none())
}

#[test]
fn texts_get_their_names(rt: HostRuntime) -> Result<(), Fail> {
    Ok(check_rows(rt.alloc(), NAMED, 9, holds)?)
}

// Checks that the next import whose text is empty gets this name. None where memory runs out.
fn is_drawn(alloc: Global, names: &mut ImportNames, expected: &str) -> Option<bool> {
    let name = names.draw(alloc, &mut Unstructured::new(&[]), "m").ok()?;
    Some(name.as_str() == expected)
}

// Checks that imports get these names, each at the second time where memory runs out at the first.
fn are_drawn(alloc: Global, names: &mut ImportNames, expected: &str) -> bool {
    for name in expected.split(' ') {
        let is_right = match is_drawn(alloc, names, name) {
            Some(is_right) => is_right,
            None => is_drawn(alloc, names, name) == Some(true),
        };
        if !is_right {
            return false;
        }
    }
    true
}

fn imports_differ(alloc: Global) -> bool {
    let mut names = ImportNames::new(alloc, DuplicateImportsBehavior::Disallowed);
    are_drawn(alloc, &mut names, " 1 2 3 4 5")
}

#[test]
fn imports_get_their_names(rt: HostRuntime) {
    assert!(rt; imports_differ(rt.alloc()));
}
