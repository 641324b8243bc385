//! Types of memories, and limits (Core Specification 3.0, Binary Format, "Limits" and "Memory Types").

ghost use Rattle.std.specs.Prelude.{◌≡◌, ⊤, ◌<◌, []};
ghost use Rattle.wasm_core_read.specs.Reading.{Answers, optional_at, unsigned_at};
ghost use Rattle.wasm_core_read.specs.TypeReading.{has_bit, limits_with, limits_at};
ghost use Rattle.wasm_spec.specs.Types as spec;
ghost use Rattle.wasmparser_readers.specs.ItemTypes.{memory_type};

use crate::from_reader::{FromReader, Item};
use std::alloc::Global;
use wasm_core_read::binary_reader::BinaryReader;
use wasm_core_read::malformed::Malformed;
use wasmparser_error::error::Error;

/// The type of a memory.
#[derive(Clone, Copy, Debug, PartialEq, Eq, Hash)]
pub struct MemoryType {
    /// `true` if it has addresses of 64 bits, not of 32.
    pub memory64: bool,
    /// `true` if it is shared between threads.
    pub shared: bool,
    /// The number of pages that it begins with.
    pub initial: u64,
    /// The greatest number of pages, if there is one.
    pub maximum: Option<u64>,
    /// The power of two of the size of a page, where it is written; else a page has 2^16 bytes.
    pub page_size_log2: Option<u32>,
}

// The flags of limits: each announces a part or a property.
const HAS_MAXIMUM: u8 = 1;

const IS_SHARED: u8 = 2;

const IS_64: u8 = 4;

const HAS_PAGE_SIZE: u8 = 8;

// Flags end here.
const FLAGS_END: u8 = 16;

fn has_bit(flags: u8, bit: u8) -> bool
    requires { 0 < bit }
    ensures { result ≡ has_bit bit flags }
{
    flags / bit % 2 == 1
}

fn read_bound(is_there: bool, reader: &mut BinaryReader<'_>) -> Result<Option<u64>, Malformed>
    ensures { Answers (λ bound. bound) reader.old reader.new result (optional_at is_there (unsigned_at 64) reader.old.rest) }
{
    if !is_there {
        return Ok(None);
    }
    Ok(Some(reader.read_var_u64()?))
}

fn read_page_size(is_there: bool, reader: &mut BinaryReader<'_>) -> Result<Option<u32>, Malformed>
    ensures { Answers (λ size. size) reader.old reader.new result (optional_at is_there (unsigned_at 32) reader.old.rest) }
{
    if !is_there {
        return Ok(None);
    }
    Ok(Some(reader.read_var_u32()?))
}

// Reads the bounds and the page size that the flags announce.
fn read_limits_with(flags: u8, reader: &mut BinaryReader<'_>) -> Result<MemoryType, Malformed>
    ensures { Answers memory_type reader.old reader.new result (limits_with flags reader.old.rest) }
{
    let initial = reader.read_var_u64()?;
    let maximum = read_bound(has_bit(flags, HAS_MAXIMUM), reader)?;
    let page_size_log2 = read_page_size(has_bit(flags, HAS_PAGE_SIZE), reader)?;
    Ok(MemoryType {
        memory64: has_bit(flags, IS_64),
        shared: has_bit(flags, IS_SHARED),
        initial,
        maximum,
        page_size_log2,
    })
}

/// Reads limits as those of a memory.
///
/// # Errors
/// Where no limits read.
#[tactic(auto, using(crate::proofs::ItemSteps::limits_steps))]
pub fn read_limits(reader: &mut BinaryReader<'_>) -> Result<MemoryType, Malformed>
    ensures { Answers memory_type reader.old reader.new result (limits_at reader.old.rest) }
{
    let offset = reader.original_position();
    let flags = reader.read_u8()?;
    if flags >= FLAGS_END {
        return Err(Malformed { offset });
    }
    read_limits_with(flags, reader)
}

impl Item for MemoryType {
    ghost Form = { spec.MemoryType };

    ghost form = { memory_type };

    ghost form_at = { λ _. limits_at };

    ghost indexes = { λ _. [] };

    ghost IsOfModule = { λ _. ⊤ };

    ghost TakesMemory = { ⊥ };
}

impl<'a> FromReader<'a> for MemoryType {
    fn from_reader(_alloc: Global, reader: &mut BinaryReader<'a>) -> Result<MemoryType, Error> {
        Ok(read_limits(reader)?)
    }
}
