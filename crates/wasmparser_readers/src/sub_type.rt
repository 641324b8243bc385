//! Sub types, read from bytes (Core Specification 3.0, Binary Format, "Recursive Types").

ghost use Rattle.wasm_spec.specs.Types as spec;
ghost use Rattle.wasmparser_readers.specs.Answers.{AnswersOrFills};
ghost use Rattle.wasmparser_readers.specs.PackedReading.{packed_index_at, packed_below_at, packed_sub_from, packed_sub_at};
ghost use Rattle.wasmparser_types.specs.Index.{Index};
ghost use Rattle.wasmparser_types.specs.SubTypes.{sub_type};

use crate::composite_type::{read_composite_type, read_composite_type_from};
use crate::heap_type::packed;
use crate::part::{Part, read_list};
use std::alloc::Global;
use wasm_core_read::binary_reader::BinaryReader;
use wasmparser_error::error::Error;
use wasmparser_types::index::PackedIndex;
use wasmparser_types::sub_type::SubType;

// The first byte of a type that may have types below it.
const OPEN: u8 = 0x50;

// The first byte of a final type whose supertypes are written.
const FINAL: u8 = 0x4f;

impl Part for PackedIndex {
    ghost Meaning = { Index };

    ghost meaning = { λ index. index };

    ghost part_at = { packed_index_at };

    #[tactic(auto, unfolding(crate::specs::PackedReading::packed_index_at))]
    fn read(_alloc: Global, reader: &mut BinaryReader<'_>) -> Result<PackedIndex, Error> {
        Ok(packed(reader.read_var_u32()?))
    }
}

// Reads supertypes, and a composite type.
#[tactic(auto, unfolding(crate::specs::PackedReading::packed_below_at))]
fn read_below(
    is_final: bool,
    alloc: Global,
    reader: &mut BinaryReader<'_>,
) -> Result<SubType, Error>
    ensures { AnswersOrFills sub_type reader.old reader.new result (packed_below_at is_final reader.old.rest) }
{
    let supertype_idxs = read_list(alloc, reader)?;
    let composite_type = read_composite_type(alloc, reader)?;
    Ok(SubType {
        is_final,
        supertype_idxs,
        composite_type,
    })
}

// Reads a sub type after its first byte.
pub(crate) fn read_sub_type_from(
    code: u8,
    alloc: Global,
    reader: &mut BinaryReader<'_>,
) -> Result<SubType, Error>
    ensures { AnswersOrFills sub_type reader.old reader.new result (packed_sub_from code reader.old.rest) }
{
    match code {
        OPEN => read_below(false, alloc, reader),
        FINAL => read_below(true, alloc, reader),
        _ => Ok(SubType {
            is_final: true,
            supertype_idxs: Vec::new(alloc),
            composite_type: read_composite_type_from(code, alloc, reader)?,
        }),
    }
}

impl Part for SubType {
    ghost Meaning = { spec.SubType Index };

    ghost meaning = { sub_type };

    ghost part_at = { packed_sub_at };

    #[tactic(auto, using(crate::proofs::CodeLaws::sub_codes))]
    fn read(alloc: Global, reader: &mut BinaryReader<'_>) -> Result<SubType, Error> {
        let code = reader.read_u8()?;
        read_sub_type_from(code, alloc, reader)
    }
}
