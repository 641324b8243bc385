//! Sections by places.

ghost use Rattle.std.specs.Prelude.{◌≡◌, ◌≢◌, ◌≤◌, ◌<◌, IfOk, true};
ghost use Rattle.wasm_core_read.specs.Input.{end};
ghost use Rattle.wasm_core_read.specs.Reading.{filled, name_at, unsigned_at};
ghost use Rattle.wasm_gen_explain.specs.Searches.{FindsAtSection, FindsInContent};
ghost use Rattle.wasm_gen_explain.specs.Sections.{FindsIn, StandsInWhole};

use crate::bodies::{CODE, place_in_code, read_sized};
use crate::lists::{Found, find_in_list};
use crate::place::Place;
use std::alloc::{AllocError, Global};
use wasm_core_read::binary_reader::BinaryReader;
use wasmparser_entries::data::Data;
use wasmparser_entries::element::Element;
use wasmparser_entries::global::Global as GlobalEntry;
use wasmparser_entries::imports::Imports;
use wasmparser_entries::table::Table;
use wasmparser_readers::export::Export;
use wasmparser_readers::memory_type::MemoryType;
use wasmparser_readers::passing::fork;
use wasmparser_readers::tag_type::TagType;
use wasmparser_types::sub_type::RecGroup;

// Returns the place after all that a reader has before it.
fn end_of(reader: &BinaryReader<'_>) -> u64
    ensures { result ≡ end reader.now }
{
    reader.original_position() + reader.bytes_remaining() as u64
}

// Finds where in the content of a custom section a place is: a name, and any bytes.
#[tactic(auto, using(crate::proofs::SectionLaws::whole_steps))]
fn find_in_custom(content: &mut BinaryReader<'_>, offset: u64) -> Found
    ensures { StandsInWhole (name_at content.old.rest) content.old offset result }
{
    if offset < end_of(content) {
        return Found::Around;
    }
    match content.read_string() {
        Ok(_) => Found::Past,
        Err(_) => Found::Around,
    }
}

// Finds where in a content that is a number a place is.
#[tactic(auto, using(crate::proofs::SectionLaws::whole_steps))]
fn find_in_number(content: &mut BinaryReader<'_>, offset: u64) -> Found
    ensures { StandsInWhole (filled (unsigned_at 32 content.old.rest)) content.old offset result }
{
    if offset < end_of(content) {
        return Found::Around;
    }
    match content.read_var_u32() {
        Ok(_) if content.eof() => Found::Past,
        Ok(_) => Found::Around,
        Err(_) => Found::Around,
    }
}

// Finds where in the content of a section of this id, other than a code section, a place is.
#[tactic(auto, using(crate::proofs::SectionLaws::id_steps))]
fn find_in_section(
    alloc: Global,
    id: u8,
    content: &mut BinaryReader<'_>,
    offset: u64,
) -> Result<Found, AllocError>
    requires { id ≢ 10 }
    ensures { IfOk result (FindsIn content.old offset id) }
{
    match id {
        0 => Ok(find_in_custom(content, offset)),
        1 => find_in_list::<RecGroup>(alloc, content, offset),
        2 => find_in_list::<Imports<'_>>(alloc, content, offset),
        3 => find_in_list::<u32>(alloc, content, offset),
        4 => find_in_list::<Table<'_>>(alloc, content, offset),
        5 => find_in_list::<MemoryType>(alloc, content, offset),
        6 => find_in_list::<GlobalEntry<'_>>(alloc, content, offset),
        7 => find_in_list::<Export<'_>>(alloc, content, offset),
        8 => Ok(find_in_number(content, offset)),
        9 => find_in_list::<Element<'_>>(alloc, content, offset),
        10 => Ok(Found::Around),
        11 => find_in_list::<Data<'_>>(alloc, content, offset),
        12 => Ok(find_in_number(content, offset)),
        13 => find_in_list::<TagType>(alloc, content, offset),
        14..=u8::MAX => Ok(Found::Around),
    }
}

// Returns where in the content of a section of this id a place is, or none where all of it reads and ends at the place or before it.
#[tactic(auto, using(crate::proofs::SectionLaws::content_steps))]
fn place_in_content(
    alloc: Global,
    id: u8,
    imported: u64,
    content: &mut BinaryReader<'_>,
    offset: u64,
) -> Result<Option<Place>, AllocError>
    requires { imported ≤ content.old.position }
    ensures { IfOk result (FindsInContent imported content.old offset id) }
{
    if id == CODE {
        return Ok(place_in_code(imported, content, offset));
    }
    match find_in_section(alloc, id, content, offset)? {
        Found::Around => Ok(Some(Place::Section { id })),
        Found::Entry(number) => Ok(Some(Place::Entry { id, number })),
        Found::Past => Ok(None),
    }
}

// Returns where in the next section a place is. Passes the section where it ends before the place, or at it and reads.
#[tactic(auto, using(crate::proofs::SectionLaws::section_steps))]
pub(crate) fn place_at_section(
    alloc: Global,
    imported: u64,
    reader: &mut BinaryReader<'_>,
    offset: u64,
) -> Result<Option<Place>, AllocError>
    requires { imported ≤ reader.old.position }
    ensures { IfOk result (FindsAtSection imported reader.old reader.new offset) }
{
    let Ok(id) = reader.read_u8() else {
        return Ok(Some(Place::End));
    };
    let Ok(mut content) = read_sized(reader) else {
        return Ok(Some(Place::Section { id }));
    };
    if offset < content.original_position() {
        return Ok(Some(Place::Section { id }));
    }
    if reader.original_position() < offset {
        return Ok(None);
    }
    place_in_content(alloc, id, imported, &mut content, offset)
}
