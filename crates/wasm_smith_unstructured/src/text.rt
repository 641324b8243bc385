//! Texts from bytes.

ghost use Rattle.std.specs.Prelude.{◌≡◌, ◌≤◌, ◌+◌, ◌||◌, ℕ, List, IfOk, OnErr, bytes_eq, length, string_bytes, take};
ghost use Rattle.std.specs.Str.Lossy.{utf8_valid_len};
ghost use Rattle.wasm_smith_unstructured.specs.Draws.{IsDrawn, text_at};
ghost use Rattle.wasm_smith_unstructured.specs.Names.{is_name};
ghost use Rattle.wasm_smith_unstructured.specs.Texts.{IsLongestText, IsNewName};

pub use crate::names::UniqueNames;
use crate::unstructured::Unstructured;
use std::alloc::{AllocError, Global};

// Returns the longest text at the front of the bytes.
fn text_front(bytes: &[u8]) -> &str
    ensures { result.now ≡ take (utf8_valid_len bytes.now) bytes.now }
{
    match str::from_utf8(bytes) {
        Ok(text) => text,
        Err(e) => str::from_utf8(&bytes[..e.valid_up_to()]).unwrap(),
    }
}

/// Returns an encoding of at most `max` bytes: the longest at the front of so many bytes as
/// [`arbitrary_len`](Unstructured::arbitrary_len) draws, or of `max` where that is less.
#[tactic(auto, unfolding(crate::specs::Draws::text_at, crate::specs::Draws::bytes_at))]
pub fn limited_str<'a>(unstructured: &mut Unstructured<'a>, max: usize) -> &'a str
    ensures exact { IsDrawn (λ text. text.now) result unstructured.new (text_at max unstructured.old) }
    ensures taken { length unstructured.new ≤ length unstructured.old }
    ensures longest { IsLongestText max unstructured.old result.now unstructured.new }
{
    let len = unstructured.arbitrary_len().min(max);
    let text = text_front(unstructured.peek_bytes(len).unwrap());
    unstructured.bytes(text.len()).unwrap();
    text
}

/// Draws a text of at most `max` bytes, as [`limited_str`] does, and returns it as a name that isn't among `names`. A text that is among
/// them gets a number at its end. Adds the name to them.
///
/// # Errors
/// Where memory runs out. Nothing is added then, and nothing is taken from the source.
pub fn unique_string(
    alloc: Global,
    unstructured: &mut Unstructured<'_>,
    max: usize,
    names: &mut UniqueNames,
) -> Result<String, AllocError>
    ensures drawn { IfOk result (λ _. unstructured.new ≡ (text_at max unstructured.old).1) }
    ensures taken { length unstructured.new ≤ length unstructured.old }
    ensures named { IfOk result (λ name. IsNewName (is_name names.old) (length names.old) (text_at max unstructured.old).0 (string_bytes name)) }
    ensures short { IfOk result (λ name. length (string_bytes name) ≤ max + 20) }
    ensures added { IfOk result (λ name. (text : List ℕ) → is_name names.new text ≡ (bytes_eq (string_bytes name) text || is_name names.old text)) }
    ensures one_more { IfOk result (λ _. length names.new ≡ length names.old + 1) }
    ensures refused { OnErr result (names.new ≡ names.old) }
    ensures untaken { OnErr result (unstructured.new ≡ unstructured.old) }
{
    let mut ahead = unstructured.fork();
    let name = names.add(alloc, limited_str(&mut ahead, max))?;
    *unstructured = ahead;
    Ok(name)
}
