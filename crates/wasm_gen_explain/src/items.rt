//! Items of sections by places.

ghost use Rattle.std.specs.Prelude.{◌≢◌, IfOk};
ghost use Rattle.wasmparser_error.specs.declared.error.ErrorKind.TheVariants as kinds;
ghost use Rattle.wasm_gen_explain.specs.Searches.{FindsItem, TriesItem};

use std::alloc::{AllocError, Global};
use wasm_core_read::binary_reader::BinaryReader;
use wasmparser_error::error::ErrorKind;
use wasmparser_readers::from_reader::FromReader;

// Refuses to go on where memory ran out.
fn check_memory(kind: ErrorKind) -> Result<(), AllocError>
    ensures { IfOk result (λ _. kind ≢ kinds.Memory) }
{
    match kind {
        ErrorKind::Memory => Err(AllocError),
        ErrorKind::Malformed
        | ErrorKind::Invalid
        | ErrorKind::Limit(_)
        | ErrorKind::Operator
        | ErrorKind::Body
        | ErrorKind::Total
        | ErrorKind::Order
        | ErrorKind::Failed => Ok(()),
    }
}

// Passes an item where it reads and ends at a place or before it. Returns false where it doesn't.
#[tactic(auto, using(crate::proofs::ItemLaws::item_steps))]
fn pass_item<'a, T: FromReader<'a> + Drop>(
    alloc: Global,
    reader: &mut BinaryReader<'a>,
    offset: u64,
) -> Result<bool, AllocError>
    ensures { TriesItem T.form_at T.indexes reader.old reader.new offset result }
{
    match T::from_reader(alloc, reader) {
        Ok(item) => {
            drop(item);
            Ok(reader.original_position() <= offset)
        }
        Err(error) => {
            check_memory(error.kind)?;
            Ok(false)
        }
    }
}

// Returns the number of the item in which a place is: the first one that doesn't end at the place or before it, or doesn't read. None where there is no such
// item among so many.
#[tactic(auto, using(crate::proofs::ItemLaws::item_loop))]
pub(crate) fn find_item<'a, T: FromReader<'a> + Drop>(
    alloc: Global,
    count: u32,
    reader: &mut BinaryReader<'a>,
    offset: u64,
) -> Result<Option<u32>, AllocError>
    ensures { FindsItem T.form_at T.indexes count reader.old reader.new offset result }
{
    for number in 0..count {
        if !pass_item::<T>(alloc, reader, offset)? {
            return Ok(Some(number));
        }
    }
    Ok(None)
}
