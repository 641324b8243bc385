//! Refusals as they are printed.

use std::alloc::Global;
use std::test::Fail;
use wasm_core::limits::Limit;
use wasm_core::malformed::Malformed;
use wasm_test_rows::rows::check_rows;
use wasmparser::error::{Error, ErrorKind};

// Kinds of refusals by their names.
const KINDS: &str = "
    malformed
    invalid
    limit
    operator
    body
    total
    order
    failed
    memory
";

fn kind_of(name: &str) -> Option<ErrorKind> {
    match name {
        "malformed" => Some(ErrorKind::Malformed),
        "invalid" => Some(ErrorKind::Invalid),
        "limit" => Some(ErrorKind::Limit(Limit::Tags)),
        "operator" => Some(ErrorKind::Operator),
        "body" => Some(ErrorKind::Body),
        "total" => Some(ErrorKind::Total),
        "order" => Some(ErrorKind::Order),
        "failed" => Some(ErrorKind::Failed),
        "memory" => Some(ErrorKind::Memory),
        _ => None,
    }
}

fn holds(alloc: Global, row: &str) -> Option<bool> {
    let name = row.trim();
    let kind = kind_of(name)?;
    let printed = kind.to_string(alloc).ok()?;
    Some(kind.name() == name && printed.as_str() == name)
}

#[test]
fn kinds_print_their_names(rt: HostRuntime) -> Result<(), Fail> {
    Ok(check_rows(rt.alloc(), KINDS, 9, holds)?)
}

#[test]
fn errors_print_kind_and_place(rt: HostRuntime) {
    let error = Error::from(Malformed { offset: 12 });
    assert!(rt; error.kind == ErrorKind::Malformed && error.offset == 12);
    let printed = error.to_string(rt.alloc());
    assert!(rt; printed.is_ok_and(|it| it.as_str() == "malformed at 12"));
}
