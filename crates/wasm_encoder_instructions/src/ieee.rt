//! Floating-point numbers as their bits.
//!
//! They have no `Model`: an enum that holds a value with one, and an enum that holds enums, can't be made by a function which doesn't name these.

ghost use Rattle.std.specs.Prelude.{◌≡◌};

use wasm_core_write::encode_error::EncodeError;
use wasm_core_write::encoding::{Encoding, put_bytes};

/// A floating-point number of 32 bits. Contracts see its bits.
#[derive(Clone, Copy, Debug, PartialEq, Eq, PartialOrd, Ord, Hash)]
pub struct Ieee32 {
    bits: u32,
}

impl Ieee32 {
    /// Creates the number with these bits.
    pub fn new(bits: u32) -> Ieee32
        ensures { result.bits ≡ bits }
    {
        Ieee32 { bits }
    }

    /// Returns the bits.
    pub fn bits(self) -> u32
        ensures { result ≡ self.bits }
    {
        self.bits
    }
}

impl Encoding for Ieee32 {
    ghost use Rattle.std.specs.Int.{w32, to_le_bytes};

    ghost encoding = { λ value. to_le_bytes w32 value.bits };

    fn size(&self) -> Result<u64, EncodeError> {
        Ok(4)
    }

    fn put(&self, sink: &mut Vec<u8>) {
        put_bytes(&self.bits.to_le_bytes(), sink);
    }
}

/// A floating-point number of 64 bits. Contracts see its bits.
#[derive(Clone, Copy, Debug, PartialEq, Eq, PartialOrd, Ord, Hash)]
pub struct Ieee64 {
    bits: u64,
}

impl Ieee64 {
    /// Creates the number with these bits.
    pub fn new(bits: u64) -> Ieee64
        ensures { result.bits ≡ bits }
    {
        Ieee64 { bits }
    }

    /// Returns the bits.
    pub fn bits(self) -> u64
        ensures { result ≡ self.bits }
    {
        self.bits
    }
}

impl Encoding for Ieee64 {
    ghost use Rattle.std.specs.Int.{w64, to_le_bytes};

    ghost encoding = { λ value. to_le_bytes w64 value.bits };

    fn size(&self) -> Result<u64, EncodeError> {
        Ok(8)
    }

    fn put(&self, sink: &mut Vec<u8>) {
        put_bytes(&self.bits.to_le_bytes(), sink);
    }
}
