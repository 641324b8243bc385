//! The arguments that the program was started with.

ghost use Rattle.std.specs.Prelude.{◌≡◌, ◌++◌, ◌∷◌, [], IfOk};
ghost use Rattle.std.specs.Str.{IsUtf8};
ghost use Rattle.std.specs.Str.Lossy.{utf8_lossy};
ghost use Rattle.std.specs.String.{string_bytes};

use std::alloc::{AllocError, Global};
use std::env::{Env, FillError};

// Number of bytes of an argument that are read at first.
const LEAST_CAPACITY: usize = 256;

// Reads an argument into so many bytes; `Err` where it is longer, or there is none.
fn fill<R: Env>(rt: &R, place: usize, bytes: &mut Vec<u8>) -> Result<(), FillError> {
    let count = rt.arg(place, bytes.as_mut_slice())?;
    bytes.truncate(count);
    Ok(())
}

// Returns the bytes of the argument at a place, if there is one.
fn argument<R: Env>(alloc: Global, rt: &R, place: usize) -> Result<Option<Vec<u8>>, AllocError> {
    let mut capacity = LEAST_CAPACITY;
    for _ in 0..usize::BITS {
        let mut bytes = Vec::new(alloc);
        bytes.resize(capacity, 0u8)?;
        match fill(rt, place, &mut bytes) {
            Ok(()) => return Ok(Some(bytes)),
            Err(FillError::NotPresent) => return Ok(None),
            Err(FillError::TooLong) => capacity = capacity.saturating_add(capacity),
        }
    }
    Err(AllocError)
}

/// Returns the text of an argument. One that isn't UTF-8 ends with a NUL, which no file's name has, after a text in which U+FFFD stands for each part that isn't.
///
/// # Errors
/// Where memory runs out.
pub fn text_of(alloc: Global, bytes: &[u8]) -> Result<String, AllocError>
    ensures text { IfOk result (λ text. IsUtf8 bytes.now → string_bytes text ≡ bytes.now) }
    ensures other { IfOk result (λ text. ¬ (IsUtf8 bytes.now) → string_bytes text ≡ utf8_lossy bytes.now ++ 0 ∷ []) }
{
    match str::from_utf8(bytes) {
        Ok(text) => String::from_str(alloc, text),
        Err(_) => {
            let mut text = String::from_utf8_lossy(alloc, bytes)?;
            text.push('\0')?;
            Ok(text)
        }
    }
}

/// Returns the texts of all arguments, the program's name being the first.
///
/// # Errors
/// Where memory runs out.
pub fn read_arguments<R: Env>(alloc: Global, rt: &R) -> Result<Vec<String>, AllocError> {
    let mut words = Vec::new(alloc);
    for place in 0..usize::MAX {
        match argument(alloc, rt, place)? {
            Some(bytes) => words.push(text_of(alloc, &bytes)?)?,
            None => break,
        }
    }
    Ok(words)
}
