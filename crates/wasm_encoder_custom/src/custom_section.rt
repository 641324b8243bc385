//! Custom sections (Core Specification, Binary Format, Modules, "Custom Section").

ghost use Rattle.std.specs.Prelude.{◌≡◌, length};
ghost use Rattle.wasm_core_write.specs.Encoding.{Measures};
ghost use Rattle.std.specs.Cow.{cow_str_bytes, cow_slice_items};
ghost use Rattle.wasm_encoder_custom.specs.CustomSections.{custom_content};
ghost use Rattle.wasm_spec.specs.Shortest.{framed_encoding};

use std::alloc::Global;
use std::borrow::{CowSlice, CowStr};
use wasm_core_write::encode::{Encode, Section};
use wasm_core_write::encode_error::EncodeError;
use wasm_core_write::encoding::{add_sizes, bytes_size, put_bytes};
use wasm_core_write::leb128::{len_u64, put_u64};
use wasm_encoder_sections::names::{name_size, put_name};

/// A section that engines pass over: a name, and any bytes.
#[derive(Drop)]
pub struct CustomSection<'a> {
    /// Its name.
    pub name: CowStr<'a, Global>,
    /// What it holds.
    pub data: CowSlice<'a, u8, Global>,
}

impl CustomSection<'_> {
    // Returns the number of bytes of its content.
    #[tactic(auto, using(wasm_spec::proofs::ListEncodings::parts), unfolding(crate::specs::CustomSections::custom_content))]
    fn content_size(&self) -> Result<u64, EncodeError>
        ensures { Measures result (length (custom_content (cow_str_bytes self.now.name) (cow_slice_items self.now.«data»))) (length (custom_content (cow_str_bytes self.now.name) (cow_slice_items self.now.«data»))) }
    {
        add_sizes(
            name_size(self.name.as_str())?,
            bytes_size(self.data.as_slice())?,
        )
    }
}

impl Encode for CustomSection<'_> {
    ghost encoding = { λ s. framed_encoding (custom_content (cow_str_bytes s.name) (cow_slice_items s.«data»)) };

    ghost longest = { λ s. length (custom_content (cow_str_bytes s.name) (cow_slice_items s.«data»)) };

    #[tactic(auto, using(wasm_spec::proofs::ListEncodings::framed_steps, crate::proofs::Custom::custom_steps))]
    fn encode(&self, sink: &mut Vec<u8>) -> Result<(), EncodeError> {
        let size = self.content_size()?;
        sink.reserve(size as usize + len_u64(size))?;
        put_u64(sink, size);
        put_name(self.name.as_str(), sink);
        put_bytes(self.data.as_slice(), sink);
        Ok(())
    }

    #[tactic(auto, using(wasm_spec::proofs::ListEncodings::framed_steps, wasm_spec::proofs::UnsignedEncodings::at_most_five))]
    fn encoded_len(&self) -> Result<u64, EncodeError> {
        let size = self.content_size()?;
        Ok(size + len_u64(size) as u64)
    }
}

impl Section for CustomSection<'_> {
    ghost number = { λ _. 0 };

    fn id(&self) -> u8 {
        0
    }
}

/// A custom section as it stands in a module: the bytes after the id, its size with them. They are written as they are.
#[derive(Clone, Copy, Debug)]
pub struct RawCustomSection<'a>(pub &'a [u8]);

impl Encode for RawCustomSection<'_> {
    ghost encoding = { λ s. s.0.now };

    ghost longest = { λ s. length s.0.now };

    fn encode(&self, sink: &mut Vec<u8>) -> Result<(), EncodeError> {
        let size = bytes_size(self.0)?;
        sink.reserve(size as usize)?;
        put_bytes(self.0, sink);
        Ok(())
    }

    fn encoded_len(&self) -> Result<u64, EncodeError> {
        bytes_size(self.0)
    }
}

impl Section for RawCustomSection<'_> {
    ghost number = { λ _. 0 };

    fn id(&self) -> u8 {
        0
    }
}
