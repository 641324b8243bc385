//! Bytes that are kept until they are written.

ghost use Rattle.std.specs.Prelude.{◌≡◌, IfOk, IfErr};
ghost use Rattle.wasm_spec.specs.Shortest.{framed_encoding};

use std::alloc::Global;
use std::marker::Model;
use wasm_core_write::encode_error::EncodeError;
use wasm_core_write::encoding::{Encoding, add_sizes, bytes_size, put_bytes};
use wasm_core_write::leb128::{len_u64, put_u64};

fn copied(alloc: Global, bytes: &[u8]) -> Result<Vec<u8>, EncodeError>
    ensures copied { IfOk result (λ kept. kept.items ≡ bytes.now) }
    ensures memory_alone { IfErr result (λ e. e ≡ EncodeError.Memory) }
{
    let mut kept = Vec::with_capacity(alloc, bytes.len())?;
    put_bytes(bytes, &mut kept);
    Ok(kept)
}

/// Bytes that are written as they are.
#[derive(Debug, Drop)]
pub struct RawBytes {
    bytes: Vec<u8>,
}

impl Model for RawBytes {
    ghost use Rattle.std.specs.Prelude.{List, ℕ};

    ghost Value = { List ℕ };

    ghost view = { λ b. b.bytes.items };
}

impl RawBytes {
    /// Creates a copy of these bytes.
    ///
    /// # Errors
    /// `Memory` alone.
    pub fn new(alloc: Global, bytes: &[u8]) -> Result<RawBytes, EncodeError>
        ensures copied { IfOk result (λ b. b ≡ bytes.now) }
        ensures memory_alone { IfErr result (λ e. e ≡ EncodeError.Memory) }
    {
        let bytes = copied(alloc, bytes)?;
        Ok(RawBytes { bytes })
    }
}

impl Encoding for RawBytes {
    ghost encoding = { λ b. b };

    fn size(&self) -> Result<u64, EncodeError> {
        bytes_size(&self.bytes)
    }

    fn put(&self, sink: &mut Vec<u8>) {
        put_bytes(&self.bytes, sink);
    }
}

/// Bytes that are written after their number.
#[derive(Debug, Drop)]
pub struct CountedBytes {
    bytes: Vec<u8>,
}

impl Model for CountedBytes {
    ghost use Rattle.std.specs.Prelude.{List, ℕ};

    ghost Value = { List ℕ };

    ghost view = { λ b. b.bytes.items };
}

impl CountedBytes {
    /// Creates a copy of these bytes.
    ///
    /// # Errors
    /// `Memory` alone.
    pub fn new(alloc: Global, bytes: &[u8]) -> Result<CountedBytes, EncodeError>
        ensures copied { IfOk result (λ b. b ≡ bytes.now) }
        ensures memory_alone { IfErr result (λ e. e ≡ EncodeError.Memory) }
    {
        let bytes = copied(alloc, bytes)?;
        Ok(CountedBytes { bytes })
    }
}

impl Encoding for CountedBytes {
    ghost encoding = { framed_encoding };

    #[tactic(auto, using(wasm_spec::proofs::ListEncodings::framed_steps))]
    fn size(&self) -> Result<u64, EncodeError> {
        let size = bytes_size(&self.bytes)?;
        add_sizes(len_u64(size) as u64, size)
    }

    #[tactic(auto, using(wasm_spec::proofs::ListEncodings::framed_steps, wasm_spec::proofs::ListEncodings::parts))]
    fn put(&self, sink: &mut Vec<u8>) {
        put_u64(sink, self.bytes.len() as u64);
        put_bytes(&self.bytes, sink);
    }
}
