//! The texts of errors.

use std::alloc::Global;
use wasm_core::limits::Limit;
use wasm_gen::error::{GenerateError, RunError};

// Errors, each with its text.
const ROWS: &[(RunError, &str)] = &[
    (RunError::Read, "cannot read"),
    (RunError::Write, "cannot write"),
    (RunError::TooLong, "input too long"),
    (RunError::Memory, "out of memory"),
    (
        RunError::Generate(GenerateError::Config("max_types")),
        "config max_types",
    ),
    (
        RunError::Generate(GenerateError::Shape("tables")),
        "shape tables",
    ),
    (RunError::Generate(GenerateError::Minimum), "minimum"),
    (
        RunError::Generate(GenerateError::EmptyChoice),
        "empty choice",
    ),
    (RunError::Generate(GenerateError::TypeSize), "type size"),
    (
        RunError::Generate(GenerateError::Limit(Limit::Memories)),
        "limit Memories",
    ),
    (RunError::Generate(GenerateError::Memory), "out of memory"),
];

// Checks that the error shows this text.
fn shows(alloc: Global, error: RunError, text: &str) -> bool {
    match error.to_string(alloc) {
        Ok(shown) => shown.as_str() == text,
        Err(_) => false,
    }
}

#[test]
fn error_has_its_text(rt: HostRuntime) {
    for (error, text) in ROWS {
        assert!(rt; shows(rt.alloc(), *error, text));
    }
}
