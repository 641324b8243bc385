//! Reading loads and stores by their bytes (Core Specification 3.0, Binary Format, "Memory Instructions").

ghost use Rattle.std.specs.Prelude.{◌≡◌, ◌≤◌, IfOk, Some};
ghost use Rattle.std.specs.Option.{option_map};
ghost use Rattle.wasm_bodies.specs.OperatorRows.{Byte};
ghost use Rattle.wasm_core_read.specs.Reading.{Answers};
ghost use Rattle.wasmparser_operators.specs.CodeTables.{load_of, store_of};
ghost use Rattle.wasmparser_operators.specs.OperatorReading.{Packed, operator_from};
ghost use Rattle.wasmparser_operators.specs.OperatorValues.{IsWhole, operator};

use crate::immediates::read_memarg;
use crate::operator::Operator;
use crate::second_codes::no_operator;
use wasm_core_read::binary_reader::BinaryReader;
use wasm_core_read::malformed::Malformed;

// Returns the exponent of the load that has this code.
#[inline(always)]
fn load_exponent(code: u8) -> u8
    requires from { 0x28 ≤ code }
    requires to { code ≤ 0x35 }
    ensures { option_map (λ row. row.exponent) (load_of (Byte code)) ≡ Some result }
{
    match code {
        0x2c | 0x2d | 0x30 | 0x31 => 0,
        0x2e | 0x2f | 0x32 | 0x33 => 1,
        0x28 | 0x2a | 0x34 | 0x35 => 2,
        0x29 | 0x2b => 3,
        0x00..=0x27 => unreachable!(),
        0x36..=0xff => unreachable!(),
    }
}

// Returns the exponent of the store that has this code.
#[inline(always)]
fn store_exponent(code: u8) -> u8
    requires from { 0x36 ≤ code }
    requires to { code ≤ 0x3e }
    ensures { option_map (λ row. row.exponent) (store_of (Byte code)) ≡ Some result }
{
    match code {
        0x3a | 0x3c => 0,
        0x3b | 0x3d => 1,
        0x36 | 0x38 | 0x3e => 2,
        0x37 | 0x39 => 3,
        0x00..=0x35 => unreachable!(),
        0x3f..=0xff => unreachable!(),
    }
}

// Reads a load after its first byte. What stands after it is read alike for all of them.
#[inline(always)]
#[tactic(auto, using(crate::proofs::UnreadParts::loads), unfolding(crate::specs::CodeTables::row_of, crate::specs::OperatorReading::shape_of))]
pub(crate) fn read_load_from<'a>(
    code: u8,
    reader: &mut BinaryReader<'a>,
) -> Result<Operator<'a>, Malformed>
    requires from { 0x28 ≤ code }
    requires to { code ≤ 0x35 }
    ensures read { Answers operator reader.old reader.new result (operator_from Packed reader.old.features code reader.old.rest) }
    ensures whole { IfOk result IsWhole }
{
    let memarg = read_memarg(load_exponent(code), reader)?;
    match code {
        0x28 => Ok(Operator::I32Load { memarg }),
        0x29 => Ok(Operator::I64Load { memarg }),
        0x2a => Ok(Operator::F32Load { memarg }),
        0x2b => Ok(Operator::F64Load { memarg }),
        0x2c => Ok(Operator::I32Load8S { memarg }),
        0x2d => Ok(Operator::I32Load8U { memarg }),
        0x2e => Ok(Operator::I32Load16S { memarg }),
        0x2f => Ok(Operator::I32Load16U { memarg }),
        0x30 => Ok(Operator::I64Load8S { memarg }),
        0x31 => Ok(Operator::I64Load8U { memarg }),
        0x32 => Ok(Operator::I64Load16S { memarg }),
        0x33 => Ok(Operator::I64Load16U { memarg }),
        0x34 => Ok(Operator::I64Load32S { memarg }),
        0x35 => Ok(Operator::I64Load32U { memarg }),
        0x00..=0x27 => Err(no_operator(reader)),
        0x36..=0xff => Err(no_operator(reader)),
    }
}

// Reads a store after its first byte.
#[inline(always)]
#[tactic(auto, using(crate::proofs::UnreadParts::stores), unfolding(crate::specs::CodeTables::row_of, crate::specs::OperatorReading::shape_of))]
pub(crate) fn read_store_from<'a>(
    code: u8,
    reader: &mut BinaryReader<'a>,
) -> Result<Operator<'a>, Malformed>
    requires from { 0x36 ≤ code }
    requires to { code ≤ 0x3e }
    ensures read { Answers operator reader.old reader.new result (operator_from Packed reader.old.features code reader.old.rest) }
    ensures whole { IfOk result IsWhole }
{
    let memarg = read_memarg(store_exponent(code), reader)?;
    match code {
        0x36 => Ok(Operator::I32Store { memarg }),
        0x37 => Ok(Operator::I64Store { memarg }),
        0x38 => Ok(Operator::F32Store { memarg }),
        0x39 => Ok(Operator::F64Store { memarg }),
        0x3a => Ok(Operator::I32Store8 { memarg }),
        0x3b => Ok(Operator::I32Store16 { memarg }),
        0x3c => Ok(Operator::I64Store8 { memarg }),
        0x3d => Ok(Operator::I64Store16 { memarg }),
        0x3e => Ok(Operator::I64Store32 { memarg }),
        0x00..=0x35 => Err(no_operator(reader)),
        0x3f..=0xff => Err(no_operator(reader)),
    }
}
