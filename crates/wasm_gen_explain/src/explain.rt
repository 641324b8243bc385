//! Where in a module an error stands, found by parsing it again.

ghost use Rattle.std.specs.Prelude.{◌≡◌, IfOk, string_bytes};
ghost use Rattle.wasm_core_types.specs.Features.{feature_set};
ghost use Rattle.wasm_gen_explain.specs.Places.{Explains, IsAmong, IsPlace};

use crate::imported::next_imported;
use crate::place::Place;
use crate::sections::place_at_section;
use crate::text::line;
use std::alloc::{AllocError, Global};
use wasm_core_read::binary_reader::BinaryReader;
use wasm_core_types::features::WasmFeatures;
use wasmparser_error::error::Error;
use wasmparser_readers::passing::fork;

// The first bytes of each module.
const HEADER: [u8; 8] = [0x00, 0x61, 0x73, 0x6d, 0x01, 0x00, 0x00, 0x00];

// Returns where in a module's sections a place is.
#[tactic(auto, using(crate::proofs::PlaceLaws::section_loop))]
fn place_in_sections(
    alloc: Global,
    reader: &mut BinaryReader<'_>,
    offset: u64,
) -> Result<Place, AllocError>
    ensures { IfOk result (IsAmong (record { input = reader.old; imported = 0 }) offset) }
{
    let mut imported: u64 = 0;
    'sections: while !reader.eof() {
        let mut section = fork(reader);
        if let Some(place) = place_at_section(alloc, imported, reader, offset)? {
            return Ok(place);
        }
        imported += next_imported(&mut section);
    }
    Ok(Place::End)
}

/// Returns where in a module a place is: the first part that ends past it, or that doesn't read. Sections and bodies that end before it are passed by their sizes.
/// Which rule the module breaks there is not asked.
///
/// # Errors
/// Where memory runs out for a type that is read.
#[tactic(auto, using(crate::proofs::PlaceLaws::header_steps))]
pub fn place_of(
    alloc: Global,
    bytes: &[u8],
    features: WasmFeatures,
    offset: u64,
) -> Result<Place, AllocError>
    ensures { IfOk result (IsPlace (feature_set features) bytes.now offset) }
{
    if offset < HEADER.len() as u64 || !bytes.starts_with(&HEADER) {
        return Ok(Place::Header);
    }
    let (_, sections) = bytes.split_at(HEADER.len());
    let mut reader = BinaryReader::new(sections, HEADER.len() as u64);
    reader.set_features(features);
    place_in_sections(alloc, &mut reader, offset)
}

/// Returns the line on where in a module an error stands, without a line feed: the offset, the place, and if it is a limit its name and the greatest
/// number that it lets through. It is such as
///
/// ```text
/// at offset 61: function 3, operator 12 (i32.add)
/// at offset 23: section type, entry 0
/// at offset 212: section memory, entry 100; the limit Memories is 100
/// ```
///
/// # Errors
/// Where memory runs out.
#[tactic(auto, using(crate::proofs::PlaceLaws::written))]
pub fn explain(
    alloc: Global,
    bytes: &[u8],
    features: WasmFeatures,
    error: &Error,
) -> Result<String, AllocError>
    ensures { IfOk result (λ text. Explains (feature_set features) bytes.now error.now (string_bytes text)) }
{
    let place = place_of(alloc, bytes, features, error.offset)?;
    line(alloc, &place, error)
}
