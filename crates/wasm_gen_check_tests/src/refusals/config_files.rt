//! Texts of configurations.

use crate::config_files::holds;
use std::alloc::Global;
use std::test::Fail;
use wasm_test_rows::rows::check_rows;

const TEXTS: &str = "
    max_types = 7\\ngc_enabled = false   | ok max_types=7 gc_enabled=no
    allowed_instructions = \"Numeric\" | shows allowed_instructions: InstructionKinds { bits: 3 }
    max_types = 3                      | ok max_types=3
    max_typez = 3                      | key max_typez isn't a field
    max_types = -1                     | key max_types takes a whole number from 0 to 4294967295
    max_types =                        | text
    \\xFF                               | text
";

// Checks a row, a second time where memory runs out at the first.
fn holds_then(alloc: Global, row: &str) -> Option<bool> {
    match holds(alloc, row) {
        Some(true) => Some(true),
        _ => holds(alloc, row),
    }
}

#[test]
fn texts_give_this(rt: HostRuntime) -> Result<(), Fail> {
    Ok(check_rows(rt.alloc(), TEXTS, 7, holds_then)?)
}
