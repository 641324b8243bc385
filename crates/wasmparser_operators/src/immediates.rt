//! Reading of immediates, which follow the codes of operators (Core Specification 3.0, Binary Format, "Instructions").

ghost use Rattle.std.specs.Prelude.{◌≡◌, IfOk};
ghost use Rattle.wasm_core_read.specs.Reading.{Answers, bytes_at, pair_at, unsigned_at};
ghost use Rattle.wasm_core_read.specs.TypeReading.{heap_index_at, heap_type_at};
ghost use Rattle.wasm_spec.specs.Features.{has, MultiMemory};
ghost use Rattle.wasm_spec.specs.TypeReferences.{heap_map};
ghost use Rattle.wasmparser_operators.specs.OperatorReading.{Packed, alignment_at, block_index_at, block_type_at, block_type_with, index_with_at, kept_type_at, memory_argument_at, offset_bits};
ghost use Rattle.wasmparser_operators.specs.OperatorValues.{IsBlockOfModule, IsHeapOfModule, IsOfModule, block_type, memory_argument, module_type};
ghost use Rattle.wasmparser_types.specs.HeapTypes.{heap_type};
ghost use Rattle.wasmparser_types.specs.Index.{number_of};

use wasm_core_read::binary_reader::BinaryReader;
use wasm_core_read::malformed::Malformed;
use wasmparser_readers::heap_type::read_heap_type;
use wasmparser_readers::val_type::{read_val_type, val_is_of_module};
use wasmparser_types::heap_type::HeapType;
use wasmparser_types::val_type::ValType;

/// The type of a block: the operands that it takes and the results that it gives.
#[derive(Clone, Copy, Debug, PartialEq, Eq)]
pub enum BlockType {
    /// It takes and gives nothing.
    Empty,
    /// It takes nothing and gives one value.
    Type(ValType),
    /// The function type with this index.
    FuncType(u32),
}

/// The place in a memory that a load or a store accesses.
#[derive(Clone, Copy, Debug, PartialEq, Eq)]
pub struct MemArg {
    /// The power of two that is said to divide the address.
    pub align: u8,
    /// The power of two that is the width of the access in bytes: a greater `align` is not valid.
    pub max_align: u8,
    /// The offset that is added to the address.
    pub offset: u64,
    /// The memory.
    pub memory: u32,
}

// The type of a block that takes and gives nothing.
const EMPTY: u8 = 0x40;

// Reads a value type whose index, if it has one, can be packed.
#[tactic(auto, using(crate::proofs::ImmediateLaws::kept_types))]
pub(crate) fn read_kept_type(reader: &mut BinaryReader<'_>) -> Result<ValType, Malformed>
    ensures read { Answers module_type reader.old reader.new result (kept_type_at Packed reader.old.rest) }
    ensures in_module { IfOk result IsOfModule }
{
    let offset = reader.original_position();
    let value_type = read_val_type(reader)?;
    if !val_is_of_module(&value_type) {
        return Err(Malformed { offset });
    }
    Ok(value_type)
}

// Reads a type index as a signed number that isn't negative.
#[tactic(auto, using(crate::proofs::BlockIndexes::index_steps))]
fn read_type_index(reader: &mut BinaryReader<'_>) -> Result<u32, Malformed>
    ensures { Answers (λ n. n) reader.old reader.new result (heap_index_at reader.old.rest) }
{
    let offset = reader.original_position();
    let index = reader.read_var_s33()?;
    if index < 0 {
        return Err(Malformed { offset });
    }
    Ok(index as u32)
}

// Reads a block type that is an index.
#[tactic(auto, using(crate::proofs::ImmediateLaws::block_indexes))]
fn read_block_index(reader: &mut BinaryReader<'_>) -> Result<BlockType, Malformed>
    ensures read { Answers block_type reader.old reader.new result (block_index_at reader.old.features reader.old.rest) }
    ensures in_module { IfOk result IsBlockOfModule }
{
    if !reader.features().multi_value() {
        return Err(Malformed {
            offset: reader.original_position(),
        });
    }
    Ok(BlockType::FuncType(read_type_index(reader)?))
}

// Reads a block type whose first byte this is. A number that isn't negative begins with one below 0x40 or from 0x80 on.
fn read_block_type_with(code: u8, reader: &mut BinaryReader<'_>) -> Result<BlockType, Malformed>
    ensures read { Answers block_type reader.old reader.new result (block_type_with Packed reader.old.features code reader.old.rest) }
    ensures in_module { IfOk result IsBlockOfModule }
{
    match code {
        EMPTY => {
            reader.read_u8()?;
            Ok(BlockType::Empty)
        }
        0x41..=0x7f => Ok(BlockType::Type(read_kept_type(reader)?)),
        0x00..=0x3f => read_block_index(reader),
        0x80..=0xff => read_block_index(reader),
    }
}

// Reads a block type.
#[tactic(auto, using(crate::proofs::ImmediateLaws::block_types))]
pub(crate) fn read_block_type(reader: &mut BinaryReader<'_>) -> Result<BlockType, Malformed>
    ensures read { Answers block_type reader.old reader.new result (block_type_at Packed reader.old.features reader.old.rest) }
    ensures in_module { IfOk result IsBlockOfModule }
{
    let Some(code) = reader.peek() else {
        return Err(Malformed {
            offset: reader.original_position(),
        });
    };
    read_block_type_with(code, reader)
}

// Reads an index, or a single byte of 0 where there can be no other.
#[tactic(auto, using(crate::proofs::ImmediateLaws::zero_bytes), unfolding(crate::specs::OperatorReading::index_with_at))]
pub(crate) fn read_index_with(
    several: bool,
    reader: &mut BinaryReader<'_>,
) -> Result<u32, Malformed>
    ensures { Answers (λ n. n) reader.old reader.new result (index_with_at several reader.old.rest) }
{
    if several {
        return reader.read_var_u32();
    }
    let offset = reader.original_position();
    if reader.read_u8()? != 0 {
        return Err(Malformed { offset });
    }
    Ok(0)
}

// Reads two indexes.
#[inline(always)]
pub(crate) fn read_two(reader: &mut BinaryReader<'_>) -> Result<(u32, u32), Malformed>
    ensures { Answers (λ x. x) reader.old reader.new result (pair_at (unsigned_at 32) (unsigned_at 32) reader.old.rest) }
{
    let first = reader.read_var_u32()?;
    let second = reader.read_var_u32()?;
    Ok((first, second))
}

// Reads an exponent, and a memory where there may be several.
#[tactic(auto, unfolding(crate::specs::OperatorReading::alignment_at))]
fn read_alignment(reader: &mut BinaryReader<'_>) -> Result<(u8, u32), Malformed>
    ensures { Answers (λ x. x) reader.old reader.new result (alignment_at (has reader.old.features MultiMemory) reader.old.rest) }
{
    let offset = reader.original_position();
    let flags = reader.read_var_u32()?;
    if flags < 0x40 {
        return Ok((flags as u8, 0));
    }
    if !reader.features().multi_memory() || flags >= 0x80 {
        return Err(Malformed { offset });
    }
    let memory = reader.read_var_u32()?;
    Ok(((flags - 0x40) as u8, memory))
}

// Reads what is added to an address: it has 64 bits where memories may.
fn read_offset(reader: &mut BinaryReader<'_>) -> Result<u64, Malformed>
    ensures { Answers (λ n. n) reader.old reader.new result (unsigned_at (offset_bits reader.old.features) reader.old.rest) }
{
    if reader.features().memory64() {
        return reader.read_var_u64();
    }
    Ok(u64::from(reader.read_var_u32()?))
}

// Reads where a load or a store goes.
#[tactic(auto, unfolding(crate::specs::OperatorReading::memory_argument_at))]
pub(crate) fn read_memarg(max_align: u8, reader: &mut BinaryReader<'_>) -> Result<MemArg, Malformed>
    ensures read { Answers memory_argument reader.old reader.new result (memory_argument_at reader.old.features reader.old.rest) }
    ensures widest { IfOk result (λ m. m.max_align ≡ max_align) }
{
    let (align, memory) = read_alignment(reader)?;
    let offset = read_offset(reader)?;
    Ok(MemArg {
        align,
        max_align,
        offset,
        memory,
    })
}

// Reads a heap type.
#[tactic(auto, using(crate::proofs::ImmediateLaws::heap_types))]
pub(crate) fn read_null_type(reader: &mut BinaryReader<'_>) -> Result<HeapType, Malformed>
    ensures read { Answers (λ type. heap_map number_of (heap_type type)) reader.old reader.new result (heap_type_at reader.old.rest) }
    ensures in_module { IfOk result IsHeapOfModule }
{
    read_heap_type(reader)
}

// Reads the bytes of a vector.
pub(crate) fn read_sixteen(reader: &mut BinaryReader<'_>) -> Result<[u8; 16], Malformed>
    ensures { Answers (λ bytes. bytes) reader.old reader.new result (bytes_at 16 reader.old.rest) }
{
    let offset = reader.original_position();
    match <[u8; 16]>::try_from(reader.read_bytes(16)?) {
        Ok(bytes) => Ok(bytes),
        Err(_) => Err(Malformed { offset }),
    }
}
