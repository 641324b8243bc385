//! Reading operators of one byte by it (Core Specification 3.0, Binary Format, "Instructions").

ghost use Rattle.std.specs.Prelude.{◌≡◌, ◌≤◌, IfOk};
ghost use Rattle.wasm_bodies.specs.OperatorRows.{Byte};
ghost use Rattle.wasm_core_read.specs.Reading.{Answers};
ghost use Rattle.wasmparser_operators.specs.OperatorReading.{Packed, coded_at, operator_from};
ghost use Rattle.wasmparser_operators.specs.OperatorValues.{IsWhole, operator};

use crate::br_table::read_labels;
use crate::families::{read_block_from, read_function_from, read_jump_from};
use crate::immediates::{read_index_with, read_null_type, read_two};
use crate::operator::Operator;
use crate::scalars::scalar;
use crate::second_codes::no_operator;
use crate::select_types::read_typed_select;
use wasm_core_read::binary_reader::BinaryReader;
use wasm_core_read::malformed::Malformed;

// Reads the immediates of a call through a table. Without reference types there is one table, and a single byte of 0.
#[tactic(auto, unfolding(crate::specs::OperatorReading::shape_of))]
fn read_call_indirect<'a>(reader: &mut BinaryReader<'a>) -> Result<Operator<'a>, Malformed>
    ensures read { Answers operator reader.old reader.new result (coded_at Packed reader.old.features (Byte 0x11) reader.old.rest) }
    ensures whole { IfOk result IsWhole }
{
    let several = reader.features().reference_types();
    let type_index = reader.read_var_u32()?;
    let table_index = read_index_with(several, reader)?;
    Ok(Operator::CallIndirect {
        type_index,
        table_index,
    })
}

// Reads an operator of control after its first byte.
#[inline(always)]
#[tactic(auto, using(crate::proofs::CodeGaps::gaps), unfolding(crate::specs::CodeTables::row_of, crate::specs::OperatorReading::shape_of))]
pub(crate) fn read_control_from<'a>(
    code: u8,
    reader: &mut BinaryReader<'a>,
) -> Result<Operator<'a>, Malformed>
    requires to { code ≤ 0x0f }
    ensures read { Answers operator reader.old reader.new result (operator_from Packed reader.old.features code reader.old.rest) }
    ensures whole { IfOk result IsWhole }
{
    match code {
        0x00 => Ok(Operator::Unreachable),
        0x01 => Ok(Operator::Nop),
        0x02..=0x04 => read_block_from(code, reader),
        0x05 => Ok(Operator::Else),
        0x0b => Ok(Operator::End),
        0x0c | 0x0d => read_jump_from(code, reader),
        0x0e => Ok(Operator::BrTable {
            targets: read_labels(reader)?,
        }),
        0x0f => Ok(Operator::Return),
        0x06..=0x0a => Err(no_operator(reader)),
        0x10..=0xff => Err(no_operator(reader)),
    }
}

// Reads a call, or an operator on operands of any type, after its first byte.
#[inline(always)]
#[tactic(auto, using(crate::proofs::CodeGaps::gaps), unfolding(crate::specs::CodeTables::row_of, crate::specs::OperatorReading::shape_of))]
pub(crate) fn read_call_from<'a>(
    code: u8,
    reader: &mut BinaryReader<'a>,
) -> Result<Operator<'a>, Malformed>
    requires from { 0x10 ≤ code }
    requires to { code ≤ 0x1f }
    ensures read { Answers operator reader.old reader.new result (operator_from Packed reader.old.features code reader.old.rest) }
    ensures whole { IfOk result IsWhole }
{
    match code {
        0x10 | 0x12 | 0x14 | 0x15 => read_function_from(code, reader),
        0x11 => read_call_indirect(reader),
        0x13 => {
            let (type_index, table_index) = read_two(reader)?;
            Ok(Operator::ReturnCallIndirect {
                type_index,
                table_index,
            })
        }
        0x1a => Ok(Operator::Drop),
        0x1b => Ok(Operator::Select),
        0x1c => read_typed_select(reader),
        0x16..=0x19 => Err(no_operator(reader)),
        0x1d..=0x1f => Err(no_operator(reader)),
        0x00..=0x0f => Err(no_operator(reader)),
        0x20..=0xff => Err(no_operator(reader)),
    }
}

// Reads a constant after its first byte. Each is read in a way of its own, by a `match`: at a `?` in an arm the borrow checker shows twice as much.
#[inline(always)]
#[tactic(auto, unfolding(crate::specs::CodeTables::row_of, crate::specs::OperatorReading::shape_of))]
pub(crate) fn read_constant_from<'a>(
    code: u8,
    reader: &mut BinaryReader<'a>,
) -> Result<Operator<'a>, Malformed>
    requires from { 0x41 ≤ code }
    requires to { code ≤ 0x44 }
    ensures read { Answers operator reader.old reader.new result (operator_from Packed reader.old.features code reader.old.rest) }
    ensures whole { IfOk result IsWhole }
{
    match code {
        0x41 => match reader.read_var_i32() {
            Ok(value) => Ok(Operator::I32Const { value }),
            Err(error) => Err(error),
        },
        0x42 => match reader.read_var_i64() {
            Ok(value) => Ok(Operator::I64Const { value }),
            Err(error) => Err(error),
        },
        0x43 => match reader.read_f32_bits() {
            Ok(bits) => Ok(Operator::F32Const { bits }),
            Err(error) => Err(error),
        },
        0x44 => match reader.read_f64_bits() {
            Ok(bits) => Ok(Operator::F64Const { bits }),
            Err(error) => Err(error),
        },
        0x00..=0x40 => Err(no_operator(reader)),
        0x45..=0xff => Err(no_operator(reader)),
    }
}

// Reads an operator on numbers alone, which is a byte.
#[inline(always)]
#[tactic(auto, using(crate::proofs::CodeGaps::scalars))]
pub(crate) fn read_scalar_from<'a>(
    code: u8,
    reader: &mut BinaryReader<'a>,
) -> Result<Operator<'a>, Malformed>
    requires from { 0x45 ≤ code }
    requires to { code ≤ 0xc4 }
    ensures read { Answers operator reader.old reader.new result (operator_from Packed reader.old.features code reader.old.rest) }
    ensures whole { IfOk result IsWhole }
{
    match scalar(code) {
        Some(it) => Ok(Operator::Scalar(it)),
        None => Err(no_operator(reader)),
    }
}

// Reads an operator on references after its first byte.
#[tactic(auto, using(crate::proofs::CodeGaps::gaps), unfolding(crate::specs::CodeTables::row_of, crate::specs::OperatorReading::shape_of))]
pub(crate) fn read_reference_from<'a>(
    code: u8,
    reader: &mut BinaryReader<'a>,
) -> Result<Operator<'a>, Malformed>
    requires from { 0xc5 ≤ code }
    requires to { code ≤ 0xfa }
    ensures read { Answers operator reader.old reader.new result (operator_from Packed reader.old.features code reader.old.rest) }
    ensures whole { IfOk result IsWhole }
{
    match code {
        0xd0 => Ok(Operator::RefNull {
            hty: read_null_type(reader)?,
        }),
        0xd1 => Ok(Operator::RefIsNull),
        0xd2 => read_function_from(code, reader),
        0xd3 => Ok(Operator::RefEq),
        0xd4 => Ok(Operator::RefAsNonNull),
        0xd5 | 0xd6 => read_jump_from(code, reader),
        0xc5..=0xcf => Err(no_operator(reader)),
        0xd7..=0xfa => Err(no_operator(reader)),
        0x00..=0xc4 => Err(no_operator(reader)),
        0xfb..=0xff => Err(no_operator(reader)),
    }
}
