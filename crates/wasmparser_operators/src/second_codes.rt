//! Reading operators of two codes by the second one (Core Specification 3.0, Binary Format, "Instructions").

ghost use Rattle.std.specs.Prelude.{◌≡◌, ◌==◌, true, [], ◌∷◌, IfOk};
ghost use Rattle.std.specs.List.{list_any};
ghost use Rattle.wasm_bodies.specs.OperatorRows.{Prefixed};
ghost use Rattle.wasm_core_read.specs.Input.{IsWithin};
ghost use Rattle.wasm_core_read.specs.Reading.{Answers};
ghost use Rattle.wasmparser_operators.specs.OperatorReading.{Packed, coded_at};
ghost use Rattle.wasmparser_operators.specs.OperatorValues.{IsWhole, operator};

use crate::immediates::{read_sixteen, read_two};
use crate::operator::Operator;
use wasm_core_read::binary_reader::BinaryReader;
use wasm_core_read::malformed::Malformed;
use wasm_core_types::scalar_operator::ScalarOperator;

// Creates the error for a code that no operator has, at the place of the reader.
pub(crate) fn no_operator(reader: &BinaryReader<'_>) -> Malformed
    ensures { IsWithin reader.now result.offset }
{
    Malformed {
        offset: reader.original_position(),
    }
}

// Reads an operator of structures or arrays that takes a type alone after its second code.
#[tactic(auto, using(crate::proofs::UnreadParts::defined), unfolding(crate::specs::CodeTables::row_of, crate::specs::OperatorReading::shape_of))]
fn read_defined_from<'a>(
    number: u32,
    reader: &mut BinaryReader<'a>,
) -> Result<Operator<'a>, Malformed>
    requires defined { list_any (λ code. number == code) (0 ∷ 1 ∷ 6 ∷ 7 ∷ []) ≡ true }
    ensures read { Answers operator reader.old reader.new result (coded_at Packed reader.old.features (Prefixed 0xfb number) reader.old.rest) }
    ensures whole { IfOk result IsWhole }
{
    let index = reader.read_var_u32()?;
    match number {
        0 => Ok(Operator::StructNew {
            struct_type_index: index,
        }),
        1 => Ok(Operator::StructNewDefault {
            struct_type_index: index,
        }),
        6 => Ok(Operator::ArrayNew {
            array_type_index: index,
        }),
        7 => Ok(Operator::ArrayNewDefault {
            array_type_index: index,
        }),
        _ => Err(no_operator(reader)),
    }
}

// Reads an operator of structures, arrays or references after its second code.
#[tactic(auto, unfolding(crate::specs::CodeTables::row_of, crate::specs::OperatorReading::shape_of))]
pub(crate) fn read_aggregate_from<'a>(
    number: u32,
    reader: &mut BinaryReader<'a>,
) -> Result<Operator<'a>, Malformed>
    ensures read { Answers operator reader.old reader.new result (coded_at Packed reader.old.features (Prefixed 0xfb number) reader.old.rest) }
    ensures whole { IfOk result IsWhole }
{
    match number {
        0 | 1 | 6 | 7 => read_defined_from(number, reader),
        8 => {
            let (array_type_index, array_size) = read_two(reader)?;
            Ok(Operator::ArrayNewFixed {
                array_type_index,
                array_size,
            })
        }
        26 => Ok(Operator::AnyConvertExtern),
        27 => Ok(Operator::ExternConvertAny),
        28 => Ok(Operator::RefI31),
        _ => Err(no_operator(reader)),
    }
}

// Reads an operator on a range of a memory or a table, or on a segment, that takes one index after its second code.
#[tactic(auto, using(crate::proofs::UnreadParts::ranges), unfolding(crate::specs::CodeTables::row_of, crate::specs::OperatorReading::shape_of))]
fn read_range_from<'a>(
    number: u32,
    reader: &mut BinaryReader<'a>,
) -> Result<Operator<'a>, Malformed>
    requires range { list_any (λ code. number == code) (9 ∷ 11 ∷ 13 ∷ 15 ∷ 16 ∷ 17 ∷ []) ≡ true }
    ensures read { Answers operator reader.old reader.new result (coded_at Packed reader.old.features (Prefixed 0xfc number) reader.old.rest) }
    ensures whole { IfOk result IsWhole }
{
    let index = reader.read_var_u32()?;
    match number {
        9 => Ok(Operator::DataDrop { data_index: index }),
        11 => Ok(Operator::MemoryFill { mem: index }),
        13 => Ok(Operator::ElemDrop { elem_index: index }),
        15 => Ok(Operator::TableGrow { table: index }),
        16 => Ok(Operator::TableSize { table: index }),
        17 => Ok(Operator::TableFill { table: index }),
        _ => Err(no_operator(reader)),
    }
}

// Reads an operator that copies within memories or tables, or out of a segment, after its second code.
#[tactic(auto, using(crate::proofs::UnreadParts::copies), unfolding(crate::specs::CodeTables::row_of, crate::specs::OperatorReading::shape_of))]
fn read_copy_from<'a>(number: u32, reader: &mut BinaryReader<'a>) -> Result<Operator<'a>, Malformed>
    requires copy { list_any (λ code. number == code) (8 ∷ 10 ∷ 12 ∷ 14 ∷ []) ≡ true }
    ensures read { Answers operator reader.old reader.new result (coded_at Packed reader.old.features (Prefixed 0xfc number) reader.old.rest) }
    ensures whole { IfOk result IsWhole }
{
    let (first, second) = read_two(reader)?;
    match number {
        8 => Ok(Operator::MemoryInit {
            data_index: first,
            mem: second,
        }),
        10 => Ok(Operator::MemoryCopy {
            dst_mem: first,
            src_mem: second,
        }),
        12 => Ok(Operator::TableInit {
            elem_index: first,
            table: second,
        }),
        14 => Ok(Operator::TableCopy {
            dst_table: first,
            src_table: second,
        }),
        _ => Err(no_operator(reader)),
    }
}

// Reads an operator that saturates, or one on a range, after its second code.
#[tactic(auto, unfolding(crate::specs::CodeTables::row_of, crate::specs::OperatorReading::shape_of))]
pub(crate) fn read_saturating_from<'a>(
    number: u32,
    reader: &mut BinaryReader<'a>,
) -> Result<Operator<'a>, Malformed>
    ensures read { Answers operator reader.old reader.new result (coded_at Packed reader.old.features (Prefixed 0xfc number) reader.old.rest) }
    ensures whole { IfOk result IsWhole }
{
    match number {
        0 => Ok(Operator::Scalar(ScalarOperator::I32TruncSatF32S)),
        1 => Ok(Operator::Scalar(ScalarOperator::I32TruncSatF32U)),
        2 => Ok(Operator::Scalar(ScalarOperator::I32TruncSatF64S)),
        3 => Ok(Operator::Scalar(ScalarOperator::I32TruncSatF64U)),
        4 => Ok(Operator::Scalar(ScalarOperator::I64TruncSatF32S)),
        5 => Ok(Operator::Scalar(ScalarOperator::I64TruncSatF32U)),
        6 => Ok(Operator::Scalar(ScalarOperator::I64TruncSatF64S)),
        7 => Ok(Operator::Scalar(ScalarOperator::I64TruncSatF64U)),
        8 | 10 | 12 | 14 => read_copy_from(number, reader),
        9 | 11 | 13 | 15 | 16 | 17 => read_range_from(number, reader),
        _ => Err(no_operator(reader)),
    }
}

// Reads an operator of vectors after its second code.
#[tactic(auto, unfolding(crate::specs::CodeTables::row_of, crate::specs::OperatorReading::shape_of))]
pub(crate) fn read_vector_from<'a>(
    number: u32,
    reader: &mut BinaryReader<'a>,
) -> Result<Operator<'a>, Malformed>
    ensures read { Answers operator reader.old reader.new result (coded_at Packed reader.old.features (Prefixed 0xfd number) reader.old.rest) }
    ensures whole { IfOk result IsWhole }
{
    match number {
        12 => Ok(Operator::V128Const {
            bytes: read_sixteen(reader)?,
        }),
        _ => Err(no_operator(reader)),
    }
}
