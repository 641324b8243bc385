//! A reader of the front of some bytes.

ghost use Rattle.std.specs.Prelude.{◌≡◌, ℕ, ◌+◌, ◌<◌, ◌≤◌, ◌^◌, ◌↔◌, length, IsTrue, slice_get};
ghost use Rattle.wasm_core_types.specs.Features.{feature_set};
ghost use Rattle.wasm_spec.specs.Bytes.{AreBytes, IsOneByte, IsU32, IsU64, IsS32, IsS33, IsS64, IsF32, IsF64, IsBytesOf, IsName};
ghost use Rattle.wasm_spec.specs.Features.{default_features};
ghost use Rattle.wasm_core_read.specs.Input.{end};
ghost use Rattle.wasm_core_read.specs.Laws.{Reads};
ghost use Rattle.wasm_core_read.specs.Reading.{Gives, byte_at, unsigned_at, signed_at, bytes_at, float_at, name_at};

use crate::malformed::Malformed;
use crate::signed::signed_front;
use crate::unsigned::unsigned_front;
use crate::utf8::utf8;
use std::marker::Model;
use wasm_core_types::features::WasmFeatures;

/// A reader over bytes that stand in a larger input. Strings and slices that it gives are parts of the
/// input, and no call takes memory.
///
/// Contracts see a reader as the bytes that are left, the place of the first of them in the input, and
/// the features under which operators are read.
#[derive(Clone, Debug, Drop)]
pub struct BinaryReader<'a> {
    rest: &'a [u8],
    position: u64,
    features: WasmFeatures,
}

impl<'a> Model for BinaryReader<'a> {
    ghost use Rattle.std.specs.Prelude.{◌+◌, ◌<◌, ◌^◌, length};
    ghost use Rattle.wasm_core_types.specs.Features.{feature_set};
    ghost use Rattle.wasm_spec.specs.Bytes.{AreBytes};
    ghost use Rattle.wasm_core_read.specs.Input.{Input};

    ghost Value = { Input };

    ghost view = { λ r. record { rest = r.rest.now; position = r.position; features = feature_set r.features } };

    ghost invariant = { λ r. (r.position + length r.rest.now < 2 ^ 64) × AreBytes r.rest.now };
}

impl<'a> BinaryReader<'a> {
    /// A reader of all of the bytes under the default features; the first byte stands at
    /// `original_position` of the input.
    pub fn new(bytes: &'a [u8], original_position: u64) -> Self
        requires { original_position + length bytes.now < 2 ^ 64 }
        ensures { result ≡ record { rest = bytes.now; position = original_position; features = default_features } }
    {
        BinaryReader {
            rest: bytes,
            position: original_position,
            features: WasmFeatures::default(),
        }
    }

    /// The features under which operators are read.
    pub fn features(&self) -> WasmFeatures
        ensures { feature_set result ≡ self.now.features }
    {
        self.features
    }

    /// Sets the features under which operators are read.
    pub fn set_features(&mut self, features: WasmFeatures)
        ensures { self.new ≡ record self.old { features = feature_set features } }
    {
        self.features = features;
    }

    /// The place of the next byte in the input.
    pub fn original_position(&self) -> u64
        ensures place { result ≡ self.now.position }
        ensures end_fits { end self.now < 2 ^ 64 }
    {
        self.position
    }

    /// The number of bytes that are left.
    pub fn bytes_remaining(&self) -> usize
        ensures { result ≡ length self.now.rest }
    {
        self.rest.len()
    }

    /// The bytes that are left, which stay unread.
    pub fn remaining_buffer(&self) -> &'a [u8]
        ensures bytes { result.now ≡ self.now.rest }
        ensures are { AreBytes self.now.rest }
    {
        self.rest
    }

    /// Checks that no bytes are left.
    pub fn eof(&self) -> bool
        ensures { IsTrue result ↔ (length self.now.rest ≡ 0) }
    {
        self.rest.is_empty()
    }

    /// The next byte, which stays unread.
    pub fn peek(&self) -> Option<u8>
        ensures { result ≡ slice_get self.now.rest 0 }
    {
        self.rest.first().copied()
    }

    /// Reads one byte.
    ///
    /// # Errors
    /// If no byte is left; the reader doesn't move.
    #[tactic(auto, unfolding(crate::specs::Reading::byte_at))]
    pub fn read_u8(&mut self) -> Result<u8, Malformed>
        ensures exact { Gives (λ b. b) self.old self.new result (byte_at self.old.rest) }
        ensures reads { Reads IsOneByte (λ b. b) self.old self.new result }
    {
        match self.rest {
            [] => Err(Malformed {
                offset: self.position,
            }),
            [byte, rest @ ..] => {
                self.rest = rest;
                self.position += 1;
                Ok(*byte)
            }
        }
    }

    /// Reads an unsigned number of 32 bits in LEB128, padded or not: at most five bytes.
    ///
    /// # Errors
    /// If the next bytes aren't such a number; the reader doesn't move.
    pub fn read_var_u32(&mut self) -> Result<u32, Malformed>
        ensures exact { Gives (λ n. n) self.old self.new result (unsigned_at 32 self.old.rest) }
        ensures reads { Reads IsU32 (λ n. n) self.old self.new result }
    {
        // A proof knows the invariant once a field is used.
        let _ = &self.rest;
        self.var_u32()
    }

    #[inline(always)]
    fn var_u32(&mut self) -> Result<u32, Malformed>
        ensures { Gives (λ n. n) self.old self.new result (unsigned_at 32 self.old.rest) }
    {
        match unsigned_front(self.rest, 32) {
            None => Err(Malformed {
                offset: self.position,
            }),
            Some((value, rest)) => {
                self.position += (self.rest.len() - rest.len()) as u64;
                self.rest = rest;
                Ok(value as u32)
            }
        }
    }

    /// Reads an unsigned number of 64 bits in LEB128, padded or not: at most ten bytes.
    ///
    /// # Errors
    /// If the next bytes aren't such a number; the reader doesn't move.
    pub fn read_var_u64(&mut self) -> Result<u64, Malformed>
        ensures exact { Gives (λ n. n) self.old self.new result (unsigned_at 64 self.old.rest) }
        ensures reads { Reads IsU64 (λ n. n) self.old self.new result }
    {
        // A proof knows the invariant once a field is used.
        let _ = &self.rest;
        self.var_u64()
    }

    #[inline(always)]
    fn var_u64(&mut self) -> Result<u64, Malformed>
        ensures { Gives (λ n. n) self.old self.new result (unsigned_at 64 self.old.rest) }
    {
        match unsigned_front(self.rest, 64) {
            None => Err(Malformed {
                offset: self.position,
            }),
            Some((value, rest)) => {
                self.position += (self.rest.len() - rest.len()) as u64;
                self.rest = rest;
                Ok(value)
            }
        }
    }

    /// Reads a signed number of 32 bits in LEB128, padded or not: at most five bytes.
    ///
    /// # Errors
    /// If the next bytes aren't such a number; the reader doesn't move.
    pub fn read_var_i32(&mut self) -> Result<i32, Malformed>
        ensures exact { Gives (λ n. n) self.old self.new result (signed_at 32 self.old.rest) }
        ensures reads { Reads IsS32 (λ n. n) self.old self.new result }
    {
        // A proof knows the invariant once a field is used.
        let _ = &self.rest;
        self.var_i32()
    }

    #[inline(always)]
    fn var_i32(&mut self) -> Result<i32, Malformed>
        ensures { Gives (λ n. n) self.old self.new result (signed_at 32 self.old.rest) }
    {
        match signed_front(self.rest, 32) {
            None => Err(Malformed {
                offset: self.position,
            }),
            Some((value, rest)) => {
                self.position += (self.rest.len() - rest.len()) as u64;
                self.rest = rest;
                Ok(value as i32)
            }
        }
    }

    /// Reads a signed number of 33 bits in LEB128, padded or not: at most five bytes.
    ///
    /// # Errors
    /// If the next bytes aren't such a number; the reader doesn't move.
    pub fn read_var_s33(&mut self) -> Result<i64, Malformed>
        ensures exact { Gives (λ n. n) self.old self.new result (signed_at 33 self.old.rest) }
        ensures reads { Reads IsS33 (λ n. n) self.old self.new result }
    {
        // A proof knows the invariant once a field is used.
        let _ = &self.rest;
        self.signed(33)
    }

    /// Reads a signed number of 64 bits in LEB128, padded or not: at most ten bytes.
    ///
    /// # Errors
    /// If the next bytes aren't such a number; the reader doesn't move.
    pub fn read_var_i64(&mut self) -> Result<i64, Malformed>
        ensures exact { Gives (λ n. n) self.old self.new result (signed_at 64 self.old.rest) }
        ensures reads { Reads IsS64 (λ n. n) self.old self.new result }
    {
        // A proof knows the invariant once a field is used.
        let _ = &self.rest;
        self.signed(64)
    }

    #[inline(always)]
    fn signed(&mut self, bits: u32) -> Result<i64, Malformed>
        requires some_bits { 0 < bits }
        requires at_most_64 { bits ≤ 64 }
        ensures { Gives (λ n. n) self.old self.new result (signed_at bits self.old.rest) }
    {
        match signed_front(self.rest, bits) {
            None => Err(Malformed {
                offset: self.position,
            }),
            Some((value, rest)) => {
                self.position += (self.rest.len() - rest.len()) as u64;
                self.rest = rest;
                Ok(value)
            }
        }
    }

    /// Reads the bits of a floating-point number of 32 bits.
    ///
    /// # Errors
    /// If fewer than four bytes are left; the reader doesn't move.
    pub fn read_f32_bits(&mut self) -> Result<u32, Malformed>
        ensures exact { Gives (λ n. n) self.old self.new result (float_at 4 self.old.rest) }
        ensures reads { Reads IsF32 (λ n. n) self.old self.new result }
    {
        // A proof knows the invariant once a field is used.
        let _ = &self.rest;
        self.f32_bits()
    }

    #[inline(always)]
    #[tactic(auto, using(crate::proofs::NumberForms::no_float, crate::proofs::NumberForms::four_bytes))]
    fn f32_bits(&mut self) -> Result<u32, Malformed>
        ensures { Gives (λ n. n) self.old self.new result (float_at 4 self.old.rest) }
    {
        let [a, b, c, d, rest @ ..] = self.rest else {
            return Err(Malformed {
                offset: self.position,
            });
        };
        self.rest = rest;
        self.position += 4;
        Ok(u32::from_le_bytes([*a, *b, *c, *d]))
    }

    /// Reads the bits of a floating-point number of 64 bits.
    ///
    /// # Errors
    /// If fewer than eight bytes are left; the reader doesn't move.
    pub fn read_f64_bits(&mut self) -> Result<u64, Malformed>
        ensures exact { Gives (λ n. n) self.old self.new result (float_at 8 self.old.rest) }
        ensures reads { Reads IsF64 (λ n. n) self.old self.new result }
    {
        // A proof knows the invariant once a field is used.
        let _ = &self.rest;
        self.f64_bits()
    }

    #[inline(always)]
    #[tactic(auto, using(crate::proofs::NumberForms::no_float, crate::proofs::NumberForms::eight_bytes))]
    fn f64_bits(&mut self) -> Result<u64, Malformed>
        ensures { Gives (λ n. n) self.old self.new result (float_at 8 self.old.rest) }
    {
        let [a, b, c, d, e, f, g, h, rest @ ..] = self.rest else {
            return Err(Malformed {
                offset: self.position,
            });
        };
        self.rest = rest;
        self.position += 8;
        Ok(u64::from_le_bytes([*a, *b, *c, *d, *e, *f, *g, *h]))
    }

    /// Reads so many bytes.
    ///
    /// # Errors
    /// If fewer are left; the reader doesn't move.
    pub fn read_bytes(&mut self, len: usize) -> Result<&'a [u8], Malformed>
        ensures exact { Gives (λ b. b.now) self.old self.new result (bytes_at len self.old.rest) }
        ensures reads { Reads (IsBytesOf len) (λ b. b.now) self.old self.new result }
    {
        // A proof knows the invariant once a field is used.
        let _ = &self.rest;
        self.bytes(len)
    }

    #[tactic(auto, unfolding(crate::specs::Reading::bytes_at))]
    fn bytes(&mut self, len: usize) -> Result<&'a [u8], Malformed>
        ensures { Gives (λ b. b.now) self.old self.new result (bytes_at len self.old.rest) }
    {
        if self.rest.len() < len {
            return Err(Malformed {
                offset: self.position,
            });
        }
        let (front, rest) = self.rest.split_at(len);
        self.rest = rest;
        self.position += len as u64;
        Ok(front)
    }

    /// Reads a name: the number of its bytes, and these bytes, which are UTF-8.
    ///
    /// # Errors
    /// If the next bytes aren't a length as a u32 and as many bytes of UTF-8; the reader doesn't move.
    pub fn read_string(&mut self) -> Result<&'a str, Malformed>
        ensures exact { Gives (λ s. s.now) self.old self.new result (name_at self.old.rest) }
        ensures reads { Reads IsName (λ s. s.now) self.old self.new result }
    {
        // A proof knows the invariant once a field is used.
        let _ = &self.rest;
        self.string()
    }

    #[tactic(auto, using(crate::proofs::Names::utf8, crate::proofs::Names::not_utf8), unfolding(crate::specs::Reading::name_at, crate::specs::Reading::bytes_at))]
    fn string(&mut self) -> Result<&'a str, Malformed>
        ensures { Gives (λ s. s.now) self.old self.new result (name_at self.old.rest) }
    {
        let malformed = Malformed {
            offset: self.position,
        };
        let Some((len, rest)) = unsigned_front(self.rest, 32) else {
            return Err(malformed);
        };
        let len = len as usize;
        if rest.len() < len {
            return Err(malformed);
        }
        let (name, rest) = rest.split_at(len);
        let Some(name) = utf8(name) else {
            return Err(malformed);
        };
        self.position += (self.rest.len() - rest.len()) as u64;
        self.rest = rest;
        Ok(name)
    }
}
