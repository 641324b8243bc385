//! Values that have an encoding in the binary format, and how lists and frames of them are written: each is
//! measured first, so that the sink grows once, and then written without taking memory.

ghost use Rattle.std.specs.Prelude.{◌≡◌, ℕ, ◌+◌, ◌≤◌, ◌<◌, ◌^◌, ◌++◌, List, length, vec_len, vec_capacity, IfOk};
ghost use Rattle.wasm_core_write.specs.Encoding.{Measures, Encodes, TellsItem};
ghost use Rattle.wasm_spec.specs.Shortest.{unsigned_encoding, list_encoding, framed_encoding};

use crate::encode_error::EncodeError;
use crate::leb128::{len_u64, put_u64};

/// The greatest count or length that the format can state.
const MAX_LENGTH: u64 = 4_294_967_295;

/// A value with an encoding, which it measures before it writes it. Neither call takes memory.
pub trait Encoding {
    ghost encoding: { Self → List ℕ };

    /// Returns the number of bytes of the encoding.
    fn size(&self) -> Result<u64, EncodeError>
        ensures { Measures result (length (encoding self.now)) (length (encoding self.now)) };

    /// Writes the encoding, for which there is room.
    fn put(&self, sink: &mut Vec<u8>)
        requires { vec_len sink.old + length (encoding self.now) ≤ vec_capacity sink.old }
        ensures written { sink.new.items ≡ sink.old.items ++ encoding self.now }
        ensures capacity { vec_capacity sink.old ≤ vec_capacity sink.new };
}

// An index.
impl Encoding for u32 {
    ghost encoding = { unsigned_encoding };

    #[tactic(auto, using(wasm_spec::proofs::UnsignedEncodings::at_most_five))]
    fn size(&self) -> Result<u64, EncodeError> {
        Ok(len_u64(u64::from(*self)) as u64)
    }

    fn put(&self, sink: &mut Vec<u8>) {
        put_u64(sink, u64::from(*self));
    }
}

/// Returns the length of two encodings, one after the other.
///
/// # Errors
/// `TooLong` alone, exactly where that is more than 4,294,967,295.
pub fn add_sizes(first: u64, second: u64) -> Result<u64, EncodeError>
    requires first { first < 2 ^ 32 }
    requires second { second < 2 ^ 32 }
    ensures { Measures result (first + second) (first + second) }
{
    let sum = first + second;
    if sum > MAX_LENGTH {
        return Err(EncodeError::TooLong);
    }
    Ok(sum)
}

/// Returns the number of bytes of a list with its count.
///
/// # Errors
/// `TooLong` alone, exactly where that is more than 4,294,967,295.
#[tactic(auto, using(wasm_spec::proofs::ListEncodings::list_steps), unfolding(wasm_spec::specs::Shortest::list_encoding))]
pub fn list_size<T: Encoding>(items: &[T]) -> Result<u64, EncodeError>
    ensures { Measures result (length (list_encoding T.encoding items.now)) (length (list_encoding T.encoding items.now)) }
{
    let mut total = len_u64(items.len() as u64) as u64;
    for item in items {
        total = add_sizes(total, item.size()?)?;
    }
    Ok(total)
}

/// Writes a list, for which there is room.
#[tactic(auto, using(wasm_spec::proofs::ListEncodings::list_steps), unfolding(wasm_spec::specs::Shortest::list_encoding))]
pub fn put_list<T: Encoding>(items: &[T], sink: &mut Vec<u8>)
    requires { vec_len sink.old + length (list_encoding T.encoding items.now) ≤ vec_capacity sink.old }
    ensures written { sink.new.items ≡ sink.old.items ++ list_encoding T.encoding items.now }
    ensures capacity { vec_capacity sink.old ≤ vec_capacity sink.new }
{
    put_u64(sink, items.len() as u64);
    for item in items {
        item.put(sink);
    }
}

/// Returns the number of bytes of a list's encoding that are those of an item. Where the list's encoding is too long, an item's
/// that is too long itself is told as 0.
#[tactic(auto, using(wasm_spec::proofs::ListEncodings::item_steps))]
pub fn item_len<T: Encoding>(items: &[T], i: u32) -> Option<u64>
    ensures { TellsItem T.encoding items.now i result }
{
    let item = items.get(i as usize)?;
    Some(item.size().unwrap_or(0))
}

/// Returns the number of bytes of a content after its size.
///
/// # Errors
/// `TooLong` alone, exactly where the content is past 4,294,967,295 bytes.
#[tactic(auto, using(wasm_spec::proofs::ListEncodings::framed_steps, wasm_spec::proofs::UnsignedEncodings::at_most_five))]
pub fn framed_len<T: Encoding>(content: &T) -> Result<u64, EncodeError>
    ensures exact { Measures result (length (framed_encoding (T.encoding content.now))) (length (T.encoding content.now)) }
    ensures below { IfOk result (λ n. n < 2 ^ 33) }
{
    let size = content.size()?;
    Ok(size + len_u64(size) as u64)
}

/// Appends a content after its size: measures, grows the sink once, and writes.
///
/// # Errors
/// `TooLong` exactly where the content is past 4,294,967,295 bytes, and else `Memory` where the sink cannot grow. Its bytes are then as they were.
#[tactic(auto, using(wasm_spec::proofs::ListEncodings::framed_steps))]
pub fn encode_framed<T: Encoding>(content: &T, sink: &mut Vec<u8>) -> Result<(), EncodeError>
    ensures { Encodes sink.old sink.new result (framed_encoding (T.encoding content.now)) (length (T.encoding content.now)) }
{
    let size = content.size()?;
    sink.reserve(size as usize + len_u64(size))?;
    put_u64(sink, size);
    content.put(sink);
    Ok(())
}

/// Returns the number of these bytes.
///
/// # Errors
/// `TooLong` alone, exactly where there are more than 4,294,967,295.
pub fn bytes_size(bytes: &[u8]) -> Result<u64, EncodeError>
    ensures { Measures result (length bytes.now) (length bytes.now) }
{
    let len = bytes.len() as u64;
    if len > MAX_LENGTH {
        return Err(EncodeError::TooLong);
    }
    Ok(len)
}

/// Writes bytes for which there is room.
pub fn put_bytes(bytes: &[u8], sink: &mut Vec<u8>)
    requires { vec_len sink.old + length bytes.now ≤ vec_capacity sink.old }
    ensures written { sink.new.items ≡ sink.old.items ++ bytes.now }
    ensures capacity { vec_capacity sink.old ≤ vec_capacity sink.new }
{
    // There is room, so that this takes no memory.
    let _copied = sink.extend_from_slice(bytes);
}
