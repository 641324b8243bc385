//! Code sections.

use crate::entries::{Rows, row};
use std::alloc::Global;
use std::test::Fail;
use wasm_encoder_bodies::function::Function;
use wasm_encoder_expression_sections::code_section::CodeSection;
use wasm_test_rows::fields::word_and_rest;
use wasm_test_rows::rows::check_rows;
use wasm_test_rows::values::bytes_of;

// Returns a body without locals, of these instructions.
fn body_of(alloc: Global, instructions: &str) -> Option<Function> {
    let instructions = bytes_of(alloc, instructions)?;
    let mut body = Function::new(alloc, []).ok()?;
    body.push_raw(&instructions).ok()?;
    Some(body)
}

impl Rows for CodeSection {
    fn empty(alloc: Global) -> CodeSection {
        CodeSection::new(alloc)
    }

    // Adds the instructions of a body, which goes in as it is or as its bytes.
    fn add(&mut self, alloc: Global, entry: &str) -> Option<()> {
        let (way, instructions) = word_and_rest(entry);
        let body = body_of(alloc, instructions)?;
        if way == "raw" {
            return self.push_raw(&body.into_raw_body()).ok();
        }
        self.push(&body).ok()
    }
}

/// Bodies, how long each is, and the section.
pub const BODIES: &str = "
    | | 0a 01 00
    function 00 0b | 4 | 0a 05 01 03 00 00 0b
    raw 00 0b | 4 | 0a 05 01 03 00 00 0b
    function 41 00 0b | 5 | 0a 06 01 04 00 41 00 0b
    raw 0b ; function 01*126 0b ; raw | 3 130 2 | 0a 88 01 03 02 00 0b 80 01 00 01*126 0b 01 00
";

#[test]
fn code_sections(rt: HostRuntime) -> Result<(), Fail> {
    check_rows(rt.alloc(), BODIES, 5, row::<CodeSection>)?;
    Ok(())
}
