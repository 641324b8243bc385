//! Bytes that are taken from the source as they are.

ghost use Rattle.std.specs.Prelude.{◌≤◌, ◌+◌, IfOk, length};
ghost use Rattle.wasm_smith_module.specs.Contents.{contents_at};
ghost use Rattle.wasm_smith_types.specs.Growing.{Draws};

use std::alloc::{AllocError, Global};
use wasm_smith_unstructured::unstructured::Unstructured;

/// Draws a length, and takes so many bytes.
///
/// # Errors
/// Where memory runs out. The bytes are taken by then.
#[tactic(auto, unfolding(wasm_smith_unstructured::specs::Draws::bytes_at, crate::specs::Contents::contents_at))]
pub fn contents(alloc: Global, unstructured: &mut Unstructured<'_>) -> Result<Vec<u8>, AllocError>
    ensures drawn { Draws (λ v. v.items) unstructured.new result (contents_at unstructured.old) }
    ensures within { IfOk result (λ v. length v.items + length unstructured.new ≤ length unstructured.old) }
    ensures taken { length unstructured.new ≤ length unstructured.old }
{
    let len = unstructured.arbitrary_len();
    let bytes = unstructured.bytes(len).unwrap();
    let contents = Vec::from_slice(alloc, bytes)?;
    Ok(contents)
}
