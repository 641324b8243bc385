//! Custom sections.

ghost use Rattle.std.specs.Prelude.{◌≡◌, ◌≤◌, ◌+◌, length};
ghost use Rattle.wasm_core_read.specs.Reading.{AnswersAll};
ghost use Rattle.wasmparser_payloads.specs.Pieces.{named_of};

use std::marker::Model;
use std::ops::Range;
use wasm_core_read::binary_reader::BinaryReader;
use wasm_core_read::malformed::Malformed;

/// A custom section: parts of the bytes that it was read from.
#[derive(Clone, Debug, Drop)]
pub struct CustomSectionReader<'a> {
    start: u64,
    name: &'a str,
    data: &'a [u8],
    data_offset: u64,
}

impl<'a> Model for CustomSectionReader<'a> {
    ghost use Rattle.std.specs.Prelude.{◌≤◌, ◌<◌, ◌+◌, ◌^◌, length};
    ghost use Rattle.wasmparser_payloads.specs.Pieces.{Named};

    ghost Value = { Named };

    ghost view = { λ s. record { start = s.start; name = s.name.now; contents = s.data.now; contents_start = s.data_offset } };

    ghost invariant = { λ s. (s.start ≤ s.data_offset) × (s.data_offset + length s.data.now < 2 ^ 64) };
}

impl<'a> CustomSectionReader<'a> {
    // Reads the content of a custom section: a name, and any bytes (Core Specification 3.0, Binary Format, "Custom
    // Section").
    #[tactic(auto, unfolding(crate::specs::Pieces::named_of))]
    pub(crate) fn new(mut content: BinaryReader<'a>) -> Result<CustomSectionReader<'a>, Malformed>
        ensures { AnswersAll (λ s. s) content.entry result (named_of content.entry) }
    {
        let start = content.original_position();
        let name = content.read_string()?;
        Ok(CustomSectionReader {
            start,
            name,
            data: content.remaining_buffer(),
            data_offset: content.original_position(),
        })
    }

    /// Returns the section's name.
    pub fn name(&self) -> &'a str
        ensures { result.now ≡ self.now.name }
    {
        self.name
    }

    /// Returns the bytes after the name, up to the section's end.
    pub fn data(&self) -> &'a [u8]
        ensures { result.now ≡ self.now.contents }
    {
        self.data
    }

    /// Returns the place in the input of the first byte after the name.
    pub fn data_offset(&self) -> u64
        ensures { result ≡ self.now.contents_start }
    {
        self.data_offset
    }

    /// Returns the place of the whole content in the input, the name included.
    pub fn range(&self) -> Range<u64>
        ensures start { result.start ≡ self.now.start }
        ensures end { result.end ≡ self.now.contents_start + length self.now.contents }
        ensures ordered { result.start ≤ result.end }
    {
        self.start..self.data_offset + self.data.len() as u64
    }
}
