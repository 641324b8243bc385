//! Writing into a caller's buffer.

ghost use Rattle.std.specs.Prelude.{◌≡◌, length, nat_le};
ghost use Rattle.wasm_gen_c_api.specs.Buffers.{buffer_with};

/// Writes the bytes at the buffer's front where they fit, and returns true if they do. What stands after them stays, and where they don't fit
/// the whole buffer does.
pub fn put(bytes: &[u8], buffer: &mut [u8]) -> bool
    ensures written { buffer.new ≡ buffer_with bytes.now buffer.old }
    ensures fits { result ≡ nat_le (length bytes.now) (length buffer.old) }
{
    if bytes.len() > buffer.len() {
        return false;
    }
    buffer[..bytes.len()].copy_from_slice(bytes);
    true
}
