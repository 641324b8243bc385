//! Writing one value, with no frame around it.

ghost use Rattle.std.specs.Prelude.{length};
ghost use Rattle.wasm_core_write.specs.Encoding.{Encodes};

use wasm_core_write::encode_error::EncodeError;
use wasm_core_write::encoding::Encoding;

/// Appends the encoding of a value: measures, grows the sink once, and writes.
///
/// # Errors
/// `TooLong` exactly where the encoding is past 4,294,967,295 bytes, and else `Memory` where the sink cannot grow. Its bytes are then as they were.
pub fn encode_alone<T: Encoding>(value: &T, sink: &mut Vec<u8>) -> Result<(), EncodeError>
    ensures { Encodes sink.old sink.new result (T.encoding value.now) (length (T.encoding value.now)) }
{
    let size = value.size()?;
    sink.reserve(size as usize)?;
    value.put(sink);
    Ok(())
}
