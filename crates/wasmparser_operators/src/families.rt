//! Reading operators of one index or of a block's type by their bytes (Core Specification 3.0, Binary Format, "Instructions").
//! The bytes after the first one are read before that one is looked at again, since they are read alike for a whole family.

ghost use Rattle.std.specs.Prelude.{◌≡◌, ◌≤◌, ◌==◌, true, [], ◌∷◌, IfOk};
ghost use Rattle.std.specs.List.{list_any};
ghost use Rattle.wasm_core_read.specs.Reading.{Answers};
ghost use Rattle.wasmparser_operators.specs.OperatorReading.{Packed, operator_from};
ghost use Rattle.wasmparser_operators.specs.OperatorValues.{IsWhole, operator};

use crate::immediates::{read_block_type, read_index_with};
use crate::operator::Operator;
use crate::second_codes::no_operator;
use wasm_core_read::binary_reader::BinaryReader;
use wasm_core_read::malformed::Malformed;

// Reads what begins a block after its first byte.
#[inline(always)]
#[tactic(auto, using(crate::proofs::UnreadParts::blocks), unfolding(crate::specs::CodeTables::row_of, crate::specs::OperatorReading::shape_of))]
pub(crate) fn read_block_from<'a>(
    code: u8,
    reader: &mut BinaryReader<'a>,
) -> Result<Operator<'a>, Malformed>
    requires from { 0x02 ≤ code }
    requires to { code ≤ 0x04 }
    ensures read { Answers operator reader.old reader.new result (operator_from Packed reader.old.features code reader.old.rest) }
    ensures whole { IfOk result IsWhole }
{
    let blockty = read_block_type(reader)?;
    match code {
        0x02 => Ok(Operator::Block { blockty }),
        0x03 => Ok(Operator::Loop { blockty }),
        0x04 => Ok(Operator::If { blockty }),
        0x00..=0x01 => Err(no_operator(reader)),
        0x05..=0xff => Err(no_operator(reader)),
    }
}

// Reads a jump to one label after its first byte.
#[inline(always)]
#[tactic(auto, using(crate::proofs::UnreadParts::jumps), unfolding(crate::specs::CodeTables::row_of, crate::specs::OperatorReading::shape_of))]
pub(crate) fn read_jump_from<'a>(
    code: u8,
    reader: &mut BinaryReader<'a>,
) -> Result<Operator<'a>, Malformed>
    requires jump { list_any (λ jump. code == jump) (0x0c ∷ 0x0d ∷ 0xd5 ∷ 0xd6 ∷ []) ≡ true }
    ensures read { Answers operator reader.old reader.new result (operator_from Packed reader.old.features code reader.old.rest) }
    ensures whole { IfOk result IsWhole }
{
    let relative_depth = reader.read_var_u32()?;
    match code {
        0x0c => Ok(Operator::Br { relative_depth }),
        0x0d => Ok(Operator::BrIf { relative_depth }),
        0xd5 => Ok(Operator::BrOnNull { relative_depth }),
        0xd6 => Ok(Operator::BrOnNonNull { relative_depth }),
        _ => Err(no_operator(reader)),
    }
}

// Reads what takes the index of a function, or of its type, after its first byte.
#[inline(always)]
#[tactic(auto, using(crate::proofs::UnreadParts::functions), unfolding(crate::specs::CodeTables::row_of, crate::specs::OperatorReading::shape_of))]
pub(crate) fn read_function_from<'a>(
    code: u8,
    reader: &mut BinaryReader<'a>,
) -> Result<Operator<'a>, Malformed>
    requires function { list_any (λ function. code == function) (0x10 ∷ 0x12 ∷ 0x14 ∷ 0x15 ∷ 0xd2 ∷ []) ≡ true }
    ensures read { Answers operator reader.old reader.new result (operator_from Packed reader.old.features code reader.old.rest) }
    ensures whole { IfOk result IsWhole }
{
    let index = reader.read_var_u32()?;
    match code {
        0x10 => Ok(Operator::Call {
            function_index: index,
        }),
        0x12 => Ok(Operator::ReturnCall {
            function_index: index,
        }),
        0x14 => Ok(Operator::CallRef { type_index: index }),
        0x15 => Ok(Operator::ReturnCallRef { type_index: index }),
        0xd2 => Ok(Operator::RefFunc {
            function_index: index,
        }),
        _ => Err(no_operator(reader)),
    }
}

// Reads an operator on a local, a global or a table after its first byte.
#[inline(always)]
#[tactic(auto, using(crate::proofs::UnreadParts::variables), unfolding(crate::specs::CodeTables::row_of, crate::specs::OperatorReading::shape_of))]
pub(crate) fn read_variable_from<'a>(
    code: u8,
    reader: &mut BinaryReader<'a>,
) -> Result<Operator<'a>, Malformed>
    requires from { 0x20 ≤ code }
    requires to { code ≤ 0x26 }
    ensures read { Answers operator reader.old reader.new result (operator_from Packed reader.old.features code reader.old.rest) }
    ensures whole { IfOk result IsWhole }
{
    let index = reader.read_var_u32()?;
    match code {
        0x20 => Ok(Operator::LocalGet { local_index: index }),
        0x21 => Ok(Operator::LocalSet { local_index: index }),
        0x22 => Ok(Operator::LocalTee { local_index: index }),
        0x23 => Ok(Operator::GlobalGet {
            global_index: index,
        }),
        0x24 => Ok(Operator::GlobalSet {
            global_index: index,
        }),
        0x25 => Ok(Operator::TableGet { table: index }),
        0x26 => Ok(Operator::TableSet { table: index }),
        0x00..=0x1f => Err(no_operator(reader)),
        0x27..=0xff => Err(no_operator(reader)),
    }
}

// Reads an operator on a memory's size after its first byte.
#[inline(always)]
#[tactic(auto, using(crate::proofs::UnreadParts::memory_sizes), unfolding(crate::specs::CodeTables::row_of, crate::specs::OperatorReading::shape_of))]
pub(crate) fn read_memory_size_from<'a>(
    code: u8,
    reader: &mut BinaryReader<'a>,
) -> Result<Operator<'a>, Malformed>
    requires from { 0x3f ≤ code }
    requires to { code ≤ 0x40 }
    ensures read { Answers operator reader.old reader.new result (operator_from Packed reader.old.features code reader.old.rest) }
    ensures whole { IfOk result IsWhole }
{
    let several = reader.features().multi_memory();
    let mem = read_index_with(several, reader)?;
    match code {
        0x3f => Ok(Operator::MemorySize { mem }),
        0x40 => Ok(Operator::MemoryGrow { mem }),
        0x00..=0x3e => Err(no_operator(reader)),
        0x41..=0xff => Err(no_operator(reader)),
    }
}
