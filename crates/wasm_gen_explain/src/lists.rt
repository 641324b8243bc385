//! Sections that are lists of entries by places.

ghost use Rattle.std.specs.Prelude.{IfOk};
ghost use Rattle.wasm_gen_explain.specs.Lists.{StandsInList};
ghost use Rattle.wasm_gen_explain.specs.Searches.{ReadsCount};

use crate::items::find_item;
use std::alloc::{AllocError, Global};
use wasm_core_read::binary_reader::BinaryReader;
use wasmparser_readers::from_reader::FromReader;

// Where in the content of a section a place is.
#[derive(Clone, Copy)]
pub(crate) enum Found {
    // Outside of its entries.
    Around,
    // In the entry of this number.
    Entry(u32),
    // After all of it, which reads.
    Past,
}

// Reads the number of items, if it reads and ends at a place or before it.
#[tactic(auto, using(crate::proofs::ListLaws::count_steps))]
pub(crate) fn read_count(content: &mut BinaryReader<'_>, offset: u64) -> Option<u32>
    ensures { ReadsCount content.old content.new offset result }
{
    match content.read_var_u32() {
        Ok(count) if content.original_position() <= offset => Some(count),
        Ok(_) => None,
        Err(_) => None,
    }
}

// Finds in which of a section's entries a place is.
#[tactic(auto, using(crate::proofs::ListLaws::list_steps))]
pub(crate) fn find_in_list<'a, T: FromReader<'a> + Drop>(
    alloc: Global,
    content: &mut BinaryReader<'a>,
    offset: u64,
) -> Result<Found, AllocError>
    ensures { IfOk result (StandsInList T.form_at T.indexes content.old offset) }
{
    let Some(count) = read_count(content, offset) else {
        return Ok(Found::Around);
    };
    match find_item::<T>(alloc, count, content, offset)? {
        Some(number) => Ok(Found::Entry(number)),
        None if content.eof() => Ok(Found::Past),
        None => Ok(Found::Around),
    }
}
