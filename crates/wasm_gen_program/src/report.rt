//! The report on a module.

ghost use Rattle.std.specs.Prelude.{◌≡◌, ◌≤◌, [], IfErr, IfOk, IsErr, IsOk, OnErr, vec_capacity};
ghost use Rattle.wasm_gen_program.specs.Report.{IsReport};

use crate::verdict::put_verdict;
use std::alloc::{AllocError, Global};
use wasm_gen_sessions::judge::{Error, Types};
use wasm_gen_view::types_text::text_of_types;

/// Returns the report on a verdict: the text of the module's view, or `no` and the kind of the refusal, which is put into the line and takes no memory.
///
/// # Errors
/// Where memory runs out, which it does at a valid module alone.
pub fn report_of(
    alloc: Global,
    mut line: Vec<u8>,
    verdict: &Result<Types, Error>,
) -> Result<Vec<u8>, AllocError>
    requires empty { line.items ≡ [] }
    requires room { 300 ≤ vec_capacity line }
    ensures report { IfOk result (λ text. IsReport verdict.now text.items) }
    ensures refused { OnErr result (IsOk verdict.now) }
{
    match verdict {
        Ok(types) => text_of_types(alloc, types.as_ref()),
        Err(_) => {
            put_verdict(&mut line, verdict);
            Ok(line)
        }
    }
}
