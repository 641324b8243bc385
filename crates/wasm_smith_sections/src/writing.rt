//! Made modules as bytes (Core Specification 3.0, Binary Format, "Modules").

ghost use Rattle.std.specs.Prelude.{◌≡◌, ◌+◌, ◌≤◌, ◌<◌, ◌^◌, ◌∷◌, ◌++◌, length, map, IfOk, IfErr};
ghost use Rattle.std.specs.List.{AllByRecursion, flat_map};
ghost use Rattle.wasm_smith_sections.specs.FilledSections.{filled_content, filled_frame, filled_id, frame_bytes, IsLongFrame, IsShortFrame};
ghost use Rattle.wasm_smith_sections.specs.ModuleEncoding.{IsModuleEncoding, PassesLength, SomeByRecursion};
ghost use Rattle.wasm_smith_sections.specs.ModuleItems.{made_of};
ghost use Rattle.wasm_smith_types.specs.Drawing.{total};
ghost use Rattle.wasm_spec.specs.Grammar.{header};
ghost use Rattle.wasm_spec.specs.Shortest.{framed_encoding};

use crate::filled_section::FilledSection;
use crate::filling::filled_sections;
use crate::module_items::ModuleItems;
use std::alloc::Global;
use wasm_core_write::encode::{Encode, Section};
use wasm_core_write::encode_error::EncodeError;

const HEADER: [u8; 8] = [0x00, 0x61, 0x73, 0x6d, 0x01, 0x00, 0x00, 0x00];

/// Returns the bytes of a module of these items. They grow once.
///
/// # Errors
/// `TooLong` where a count, a run or a length is past 4,294,967,295, and else `Memory`.
pub fn write_module(alloc: Global, made: &ModuleItems<'_>) -> Result<Vec<u8>, EncodeError>
    requires whole { total made.now.sizes.now ≡ length made.now.types.now }
    ensures written { IfOk result (λ bytes. IsModuleEncoding made.now.data_count (made_of made.now) bytes.items) }
    ensures too_long { IfErr result (λ e. e ≡ EncodeError.TooLong → PassesLength made.now.data_count (made_of made.now)) }
{
    let sections = filled_sections(alloc, made)?;
    write_sections(alloc, &sections)
}

// Returns the header and these sections.
fn write_sections(alloc: Global, sections: &[FilledSection<'_>]) -> Result<Vec<u8>, EncodeError>
    ensures written { IfOk result (λ bytes. bytes.items ≡ header ++ flat_map frame_bytes (map filled_frame sections.now)) }
    ensures short { IfOk result (λ _. AllByRecursion IsShortFrame (map filled_frame sections.now)) }
    ensures too_long { IfErr result (λ e. e ≡ EncodeError.TooLong → SomeByRecursion IsLongFrame (map filled_frame sections.now)) }
{
    let len = total_len(sections)?;
    let mut bytes = Vec::with_capacity(alloc, len)?;
    bytes.extend_from_slice(&HEADER)?;
    append_all(sections, &mut bytes)?;
    Ok(bytes)
}

// Returns how many bytes there are, so that they grow once.
fn total_len(sections: &[FilledSection<'_>]) -> Result<usize, EncodeError>
    ensures exact { IfOk result (λ len. len ≡ 8 + length (flat_map frame_bytes (map filled_frame sections.now))) }
    ensures short { IfOk result (λ _. AllByRecursion IsShortFrame (map filled_frame sections.now)) }
    ensures too_long { IfErr result (λ e. e ≡ EncodeError.TooLong → SomeByRecursion IsLongFrame (map filled_frame sections.now)) }
{
    let mut len = HEADER.len() as u128;
    for section in sections {
        let more = section_len(section)?;
        len += u128::from(more);
    }
    let Ok(len) = usize::try_from(len) else {
        return Err(EncodeError::Memory);
    };
    Ok(len)
}

// Returns the number of bytes of a section with its id.
fn section_len(section: &FilledSection<'_>) -> Result<u64, EncodeError>
    ensures exact { IfOk result (λ len. len ≡ length (frame_bytes (filled_frame section.now))) }
    ensures short { IfOk result (λ len. IsShortFrame (filled_frame section.now)) }
    ensures few { IfOk result (λ len. len ≤ 2 ^ 33) }
    ensures too_long { IfErr result (λ e. e ≡ EncodeError.TooLong → IsLongFrame (filled_frame section.now)) }
{
    Ok(section.encoded_len()? + 1)
}

// Appends these sections.
fn append_all(sections: &[FilledSection<'_>], bytes: &mut Vec<u8>) -> Result<(), EncodeError>
    ensures appended { IfOk result (λ _. bytes.new.items ≡ bytes.old.items ++ flat_map frame_bytes (map filled_frame sections.now)) }
    ensures too_long { IfErr result (λ e. e ≡ EncodeError.TooLong → SomeByRecursion IsLongFrame (map filled_frame sections.now)) }
{
    for section in sections {
        append(section, bytes)?;
    }
    Ok(())
}

// Appends a section with its id.
fn append(section: &FilledSection<'_>, bytes: &mut Vec<u8>) -> Result<(), EncodeError>
    ensures appended { IfOk result (λ _. bytes.new.items ≡ bytes.old.items ++ frame_bytes (filled_frame section.now)) }
    ensures too_long { IfErr result (λ e. e ≡ EncodeError.TooLong → IsLongFrame (filled_frame section.now)) }
{
    bytes.push(section.id())?;
    section.encode(bytes)
}
