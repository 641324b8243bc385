//! The bounds of a memory or a table, as they are written (Core Specification, Binary Format, Types, "Limits").

ghost use Rattle.std.specs.Prelude.{◌≡◌, ◌≤◌, ◌<◌, ◌+◌, ◌++◌, length, vec_len, vec_capacity};
ghost use Rattle.wasm_encoder_sections.specs.CoreItems.{limits, limits_bytes};
ghost use Rattle.wasm_encoder_sections.specs.ItemEncodings.{optional_encoding};
ghost use Rattle.wasm_spec.specs.TypeGrammar.{limits_flags};

use wasm_core_write::encode_error::EncodeError;
use wasm_core_write::encoding::Encoding;
use wasm_core_write::leb128::{len_u64, put_u64};

const MAXIMUM: u8 = 0x01;

const SHARED: u8 = 0x02;

const OF_64_BITS: u8 = 0x04;

const PAGE_SIZE: u8 = 0x08;

/// The parts of limits; a table has neither of the last two.
#[derive(Clone, Copy)]
pub struct Limits {
    pub minimum: u64,
    pub maximum: Option<u64>,
    pub is_64: bool,
    pub shared: bool,
    pub page_size_log2: Option<u32>,
}

impl Limits {
    // Returns the byte that limits begin with.
    fn flags(&self) -> u8
        ensures { result ≡ limits_flags (limits self.now) }
    {
        let maximum = if self.maximum.is_some() { MAXIMUM } else { 0 };
        let shared = if self.shared { SHARED } else { 0 };
        let is_64 = if self.is_64 { OF_64_BITS } else { 0 };
        let page_size = if self.page_size_log2.is_some() {
            PAGE_SIZE
        } else {
            0
        };
        maximum + shared + is_64 + page_size
    }
}

// Returns the number of bytes of a number that may be absent.
#[tactic(auto, unfolding(crate::specs::ItemEncodings::optional_encoding))]
fn optional_size(number: Option<u64>) -> u64
    ensures bytes { result ≡ length (optional_encoding number) }
    ensures few { result ≤ 10 }
{
    match number {
        Some(n) => len_u64(n) as u64,
        None => 0,
    }
}

#[tactic(auto, unfolding(crate::specs::ItemEncodings::optional_encoding))]
fn put_optional(number: Option<u64>, sink: &mut Vec<u8>)
    requires { vec_len sink.old + length (optional_encoding number) ≤ vec_capacity sink.old }
    ensures written { sink.new.items ≡ sink.old.items ++ optional_encoding number }
    ensures capacity { vec_capacity sink.old ≤ vec_capacity sink.new }
{
    if let Some(n) = number {
        put_u64(sink, n);
    }
}

// Returns the page's size as a number of 64 bits.
fn wide(number: Option<u32>) -> Option<u64>
    ensures { result ≡ number }
{
    match number {
        Some(n) => Some(u64::from(n)),
        None => None,
    }
}

impl Encoding for Limits {
    ghost encoding = { limits_bytes };

    #[tactic(auto, using(wasm_spec::proofs::ListEncodings::parts), unfolding(crate::specs::CoreItems::limits_bytes, crate::specs::ItemEncodings::limits_encoding))]
    fn size(&self) -> Result<u64, EncodeError> {
        let minimum = len_u64(self.minimum) as u64;
        let maximum = optional_size(self.maximum);
        let page_size = optional_size(wide(self.page_size_log2));
        Ok(1 + minimum + maximum + page_size)
    }

    #[tactic(auto, using(wasm_spec::proofs::ListEncodings::parts), unfolding(crate::specs::CoreItems::limits_bytes, crate::specs::ItemEncodings::limits_encoding))]
    fn put(&self, sink: &mut Vec<u8>) {
        sink.push_reserved(self.flags());
        put_u64(sink, self.minimum);
        put_optional(self.maximum, sink);
        put_optional(wide(self.page_size_log2), sink);
    }
}
