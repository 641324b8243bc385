//! Custom sections around contents that have an encoding: measured first, and then written without taking memory.

ghost use Rattle.std.specs.Prelude.{◌≡◌, ◌↔◌, ◌≤◌, ◌<◌, ◌^◌, length, Err, IfOk};
ghost use Rattle.wasm_core_write.specs.Encoding.{Measures, Encodes};
ghost use Rattle.wasm_encoder_custom.specs.CustomSections.{custom_content};
ghost use Rattle.wasm_encoder_sections.specs.ItemEncodings.{name_encoding};
ghost use Rattle.wasm_spec.specs.Shortest.{framed_encoding};

use std::alloc::Global;
use wasm_core_write::encode_error::EncodeError;
use wasm_core_write::encoding::{Encoding, add_sizes};
use wasm_core_write::leb128::{len_u64, put_u64};
use wasm_encoder_sections::names::{name_size, put_name};

// Returns the number of bytes of a section's name and of what it holds.
#[tactic(auto, using(wasm_spec::proofs::ListEncodings::parts), unfolding(crate::specs::CustomSections::custom_content))]
fn content_size<T: Encoding>(name: &str, content: &T) -> Result<u64, EncodeError>
    ensures { Measures result (length (custom_content name.now (T.encoding content.now))) (length (custom_content name.now (T.encoding content.now))) }
{
    add_sizes(name_size(name)?, content.size()?)
}

/// Returns the number of bytes of a custom section after its id.
///
/// # Errors
/// `TooLong` alone, exactly where the name after its length and the content are together past 4,294,967,295 bytes.
#[tactic(auto, using(wasm_spec::proofs::ListEncodings::framed_steps, wasm_spec::proofs::UnsignedEncodings::at_most_five))]
pub fn custom_len<T: Encoding>(name: &str, content: &T) -> Result<u64, EncodeError>
    ensures exact { Measures result (length (framed_encoding (custom_content name.now (T.encoding content.now)))) (length (custom_content name.now (T.encoding content.now))) }
    ensures below { IfOk result (λ n. n < 2 ^ 33) }
{
    let size = content_size(name, content)?;
    Ok(size + len_u64(size) as u64)
}

/// Appends a custom section without its id: measures, grows the sink once, and writes.
///
/// # Errors
/// `TooLong` exactly where the name after its length and the content are together past 4,294,967,295 bytes, and else `Memory` where the sink cannot
/// grow. Its bytes are then as they were.
#[tactic(auto, using(wasm_spec::proofs::ListEncodings::framed_steps, crate::proofs::Custom::custom_steps))]
pub fn encode_custom<T: Encoding>(
    name: &str,
    content: &T,
    sink: &mut Vec<u8>,
) -> Result<(), EncodeError>
    ensures { Encodes sink.old sink.new result (framed_encoding (custom_content name.now (T.encoding content.now))) (length (custom_content name.now (T.encoding content.now))) }
{
    let size = content_size(name, content)?;
    sink.reserve(size as usize + len_u64(size))?;
    put_u64(sink, size);
    put_name(name, sink);
    content.put(sink);
    Ok(())
}

/// Returns what a value is written as, by itself.
///
/// # Errors
/// `TooLong` exactly where that is more than 4,294,967,295 bytes, and else `Memory`.
pub fn written<T: Encoding>(alloc: Global, value: &T) -> Result<Vec<u8>, EncodeError>
    ensures bytes { IfOk result (λ v. v.items ≡ T.encoding value.now) }
    ensures short { IfOk result (λ v. length v.items < 2 ^ 32) }
    ensures too_long { (result ≡ Err EncodeError.TooLong) ↔ (2 ^ 32 ≤ length (T.encoding value.now)) }
{
    let size = value.size()?;
    let mut bytes = Vec::with_capacity(alloc, size as usize)?;
    value.put(&mut bytes);
    Ok(bytes)
}

/// Returns what a name is written as.
///
/// # Errors
/// `TooLong` exactly where the name after its length is past 4,294,967,295 bytes, and else `Memory`.
pub fn written_name(alloc: Global, name: &str) -> Result<Vec<u8>, EncodeError>
    ensures bytes { IfOk result (λ v. v.items ≡ name_encoding name.now) }
    ensures too_long { (result ≡ Err EncodeError.TooLong) ↔ (2 ^ 32 ≤ length (name_encoding name.now)) }
{
    let size = name_size(name)?;
    let mut bytes = Vec::with_capacity(alloc, size as usize)?;
    put_name(name, &mut bytes);
    Ok(bytes)
}

/// Returns the number of bytes of a value by itself.
///
/// # Errors
/// `TooLong` alone, exactly where the value is written as more than 4,294,967,295 bytes.
pub fn alone_len<T: Encoding>(value: &T) -> Result<u64, EncodeError>
    ensures exact { Measures result (length (T.encoding value.now)) (length (T.encoding value.now)) }
    ensures below { IfOk result (λ n. n < 2 ^ 33) }
{
    value.size()
}

/// Appends a value by itself: measures, grows the sink once, and writes.
///
/// # Errors
/// `TooLong` exactly where the value is written as more than 4,294,967,295 bytes, and else `Memory` where the sink cannot grow. Its bytes are then as
/// they were.
pub fn encode_alone<T: Encoding>(value: &T, sink: &mut Vec<u8>) -> Result<(), EncodeError>
    ensures { Encodes sink.old sink.new result (T.encoding value.now) (length (T.encoding value.now)) }
{
    let size = value.size()?;
    sink.reserve(size as usize)?;
    value.put(sink);
    Ok(())
}
