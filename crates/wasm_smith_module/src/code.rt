//! The bodies of functions.

ghost use Rattle.std.specs.Prelude.{◌≤◌, ◌+◌, map, length, IfOk};
ghost use Rattle.wasm_smith_definitions.specs.Items.{made_body, raw_bytes};
ghost use Rattle.wasm_smith_module.specs.Code.{body_at, code_at, raw_at};
ghost use Rattle.wasm_smith_module.specs.Contents.{raw_length, raw_total};
ghost use Rattle.wasm_smith_types.specs.Growing.{Draws};

use crate::choices::push_owned;
use crate::contents::contents;
use std::alloc::{AllocError, Global};
use wasm_smith_definitions::code::{Code, Instructions};
use wasm_smith_types::growing::bool_if;
use wasm_smith_types::value_types::Offers;
use wasm_smith_unstructured::unstructured::Unstructured;

// The most locals of a function.
const MAX_LOCALS: usize = 100;

// Draws the operators of a body.
fn instructions(
    alloc: Global,
    unstructured: &mut Unstructured<'_>,
    allow_raw: bool,
) -> Result<Instructions, AllocError>
    ensures drawn { Draws raw_bytes unstructured.new result (raw_at allow_raw unstructured.old) }
    ensures within { IfOk result (λ it. raw_length (raw_bytes it) + length unstructured.new ≤ length unstructured.old) }
    ensures taken { length unstructured.new ≤ length unstructured.old }
{
    if bool_if(unstructured, allow_raw) {
        let raw = contents(alloc, unstructured)?;
        return Ok(Instructions::Raw(raw));
    }
    Ok(Instructions::Unreachable)
}

// Draws a body: its locals, and then its operators.
#[tactic(auto, unfolding(crate::specs::Code::body_at))]
fn body(
    alloc: Global,
    unstructured: &mut Unstructured<'_>,
    offers: &Offers,
    bound: u32,
    allow_raw: bool,
) -> Result<Code, AllocError>
    ensures drawn { Draws made_body unstructured.new result (body_at allow_raw offers.now bound unstructured.old) }
    ensures within { IfOk result (λ code. raw_length (made_body code).raw + length unstructured.new ≤ length unstructured.old) }
    ensures taken { length unstructured.new ≤ length unstructured.old }
{
    let locals = offers.values(alloc, unstructured, bound, MAX_LOCALS)?;
    let instructions = instructions(alloc, unstructured, allow_raw)?;
    Ok(Code {
        locals,
        instructions,
    })
}

/// Draws the bodies of this many functions. References of locals go to types with indexes below `bound`.
///
/// # Errors
/// Where memory runs out. Some of the source's bytes may be taken by then.
pub fn code(
    alloc: Global,
    unstructured: &mut Unstructured<'_>,
    offers: &Offers,
    bound: u32,
    count: usize,
    allow_raw: bool,
) -> Result<Vec<Code>, AllocError>
    ensures drawn { Draws (λ v. map made_body v.items) unstructured.new result (code_at allow_raw offers.now bound count unstructured.old) }
    ensures within { IfOk result (λ v. raw_total (map made_body v.items) + length unstructured.new ≤ length unstructured.old) }
    ensures taken { length unstructured.new ≤ length unstructured.old }
{
    let mut bodies = Vec::new(alloc);
    for _ in 0..count {
        let own = body(alloc, unstructured, offers, bound, allow_raw)?;
        push_owned(&mut bodies, own)?;
    }
    Ok(bodies)
}
