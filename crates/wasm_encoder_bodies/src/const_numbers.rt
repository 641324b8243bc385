//! Immediates of constants.

ghost use Rattle.std.specs.Prelude.{◌≡◌, ◌≤◌, ◌∷◌, [], length};
ghost use Rattle.wasm_encoder_instructions.specs.Instructions.{vector_bytes};
ghost use Rattle.wasm_spec.specs.Shortest.{signed_encoding};

use wasm_core_write::encode_error::EncodeError;
use wasm_core_write::encoding::{Encoding, put_bytes};
use wasm_core_write::leb128::{len_s64, put_s64};

// A number that is written signed.
#[derive(Clone, Copy)]
pub(crate) struct SignedNumber(pub(crate) i64);

impl Encoding for SignedNumber {
    ghost use Rattle.wasm_spec.specs.Shortest.{signed_encoding};

    ghost encoding = { λ number. signed_encoding number.0 };

    fn size(&self) -> Result<u64, EncodeError> {
        Ok(len_s64(self.0) as u64)
    }

    fn put(&self, sink: &mut Vec<u8>) {
        put_s64(sink, self.0);
    }
}

// Returns a number to be written so, which takes ten bytes at most.
pub(crate) fn signed(value: i64) -> SignedNumber
    ensures value { result.0 ≡ value }
    ensures short { length (signed_encoding value) ≤ 10 }
{
    let _few = len_s64(value);
    SignedNumber(value)
}

// A byte.
#[derive(Clone, Copy)]
pub(crate) struct Byte(pub(crate) u8);

impl Encoding for Byte {
    ghost encoding = { λ byte. byte.0 ∷ [] };

    fn size(&self) -> Result<u64, EncodeError> {
        Ok(1)
    }

    fn put(&self, sink: &mut Vec<u8>) {
        sink.push_reserved(self.0);
    }
}

// The bytes of a vector.
#[derive(Clone, Copy)]
pub(crate) struct Vector(pub(crate) [u8; 16]);

// Returns the bytes of a vector, the lowest first.
#[tactic(auto, unfolding(wasm_encoder_instructions::specs::Instructions::vector_bytes))]
pub(crate) fn bytes_of(value: i128) -> Vector
    ensures { result.0 ≡ vector_bytes value }
{
    Vector(value.to_le_bytes())
}

impl Encoding for Vector {
    ghost encoding = { λ vector. vector.0 };

    fn size(&self) -> Result<u64, EncodeError> {
        Ok(16)
    }

    fn put(&self, sink: &mut Vec<u8>) {
        put_bytes(&self.0, sink);
    }
}
