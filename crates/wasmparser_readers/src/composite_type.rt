//! Composite types, read from bytes (Core Specification 3.0, Binary Format, "Composite Types").

ghost use Rattle.wasmparser_readers.specs.Answers.{AnswersOrFills};
ghost use Rattle.wasmparser_readers.specs.PackedReading.{packed_signature_at, packed_composite_from, packed_composite_at};
ghost use Rattle.wasmparser_types.specs.CompositeTypes.{func_type, composite_type};

use crate::heap_type::{packed, read_heap_index};
use crate::part::read_list;
use crate::val_type::read_field_type;
use std::alloc::Global;
use wasm_core_read::binary_reader::BinaryReader;
use wasm_core_read::malformed::Malformed;
use wasmparser_error::error::Error;
use wasmparser_types::composite_type::{ArrayType, CompositeType, ContType, FuncType, StructType};

// The first byte of a function type.
const FUNC: u8 = 0x60;

// The first byte of a structure type.
const STRUCT: u8 = 0x5f;

// The first byte of an array type.
const ARRAY: u8 = 0x5e;

// The first byte of a continuation type.
const CONT: u8 = 0x5d;

// Reads the parameters and the results of a function type.
#[tactic(auto, unfolding(crate::specs::PackedReading::packed_signature_at))]
fn read_signature(alloc: Global, reader: &mut BinaryReader<'_>) -> Result<FuncType, Error>
    ensures { AnswersOrFills func_type reader.old reader.new result (packed_signature_at reader.old.rest) }
{
    let params = read_list(alloc, reader)?;
    let results = read_list(alloc, reader)?;
    Ok(FuncType::new(params, results))
}

// Reads a composite type after its first byte.
#[tactic(auto, unfolding(crate::specs::PackedReading::packed_heap_index_at))]
pub(crate) fn read_composite_type_from(
    code: u8,
    alloc: Global,
    reader: &mut BinaryReader<'_>,
) -> Result<CompositeType, Error>
    ensures { AnswersOrFills composite_type reader.old reader.new result (packed_composite_from code reader.old.rest) }
{
    match code {
        FUNC => Ok(CompositeType::Func(read_signature(alloc, reader)?)),
        STRUCT => Ok(CompositeType::Struct(StructType {
            fields: read_list(alloc, reader)?,
        })),
        ARRAY => Ok(CompositeType::Array(ArrayType(read_field_type(reader)?))),
        CONT => Ok(CompositeType::Cont(ContType(packed(read_heap_index(reader)?)))),
        _ => Err(Malformed {
            offset: reader.original_position(),
        }
        .into()),
    }
}

// Reads a composite type.
#[tactic(auto, using(crate::proofs::CodeLaws::composite_codes))]
pub(crate) fn read_composite_type(
    alloc: Global,
    reader: &mut BinaryReader<'_>,
) -> Result<CompositeType, Error>
    ensures { AnswersOrFills composite_type reader.old reader.new result (packed_composite_at reader.old.rest) }
{
    let code = reader.read_u8()?;
    read_composite_type_from(code, alloc, reader)
}
