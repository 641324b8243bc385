//! For `bench/sections.sh`: one session judges so many modules, each with a type of its own, and the types of all of them are kept.

use std::alloc::{AllocError, Global};
use wasm_core::features::WasmFeatures;
use wasm_gen::judge::{Types, ValidatorId};
use wasm_gen::session::Session;

/// Keeps the types of so many modules as the words say, and prints how many types they show.
pub(crate) fn measure<R: Print + AllocGlobal>(rt: &R, words: &[String]) -> Option<()> {
    let [count] = words else {
        return None;
    };
    let count = count.as_str().parse::<u32>().ok()?;
    let mut kept = Vec::new(rt.alloc());
    let is_told = keep_and_tell(rt, &mut kept, count);
    drop(kept);
    is_told
}

// (A vector of types and a session are each owned where there is one exit: letting go of them is dear to prove.)
fn keep_and_tell<R: Print + AllocGlobal>(rt: &R, kept: &mut Vec<Types>, count: u32) -> Option<()> {
    keep_types(rt.alloc(), kept, count)?;
    let types = count_types(kept.as_slice());
    println!(rt; "{} modules show {} types", kept.len(), types).ok()
}

// Judges so many modules in one session, and keeps the types of each.
fn keep_types(alloc: Global, kept: &mut Vec<Types>, count: u32) -> Option<()> {
    let mut session = Session::new(alloc, WasmFeatures::default(), ValidatorId::new(0));
    let is_kept = keep_each(alloc, &mut session, kept, count);
    drop(session);
    is_kept
}

fn keep_each(
    alloc: Global,
    session: &mut Session,
    kept: &mut Vec<Types>,
    count: u32,
) -> Option<()> {
    for number in 0..count {
        let types = types_of(alloc, session, number)?;
        kept.push(types).ok()?;
    }
    Some(())
}

// Returns the types of the module of a number.
fn types_of(alloc: Global, session: &mut Session, number: u32) -> Option<Types> {
    let bytes = module_of(alloc, number).ok()?;
    session.check(&bytes).ok()
}

// Returns a module with one function type, whose 32 parameters tell the bits of a number.
fn module_of(alloc: Global, number: u32) -> Result<Vec<u8>, AllocError> {
    let mut bytes = Vec::new(alloc);
    bytes.extend_from_slice(b"\0asm\x01\0\0\0\x01\x24\x01\x60\x20")?;
    let mut left = number;
    for _ in 0..32 {
        bytes.push(if left % 2 == 0 { 0x7f } else { 0x7e })?;
        left /= 2;
    }
    bytes.push(0)?;
    Ok(bytes)
}

fn count_types(kept: &[Types]) -> u64 {
    let mut count = 0u64;
    for types in kept {
        count = count.saturating_add(u64::from(types.as_ref().core_type_count_in_module()));
    }
    count
}
