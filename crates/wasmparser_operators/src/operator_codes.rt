//! Reading operators (Core Specification 3.0, Binary Format, "Instructions").

ghost use Rattle.std.specs.Prelude.{◌≡◌, ◌<◌, ◌≤◌, IfOk};
ghost use Rattle.wasm_core_read.specs.Reading.{Answers};
ghost use Rattle.wasmparser_operators.specs.OperatorReading.{Packed, kept_operator_at, operator_from};
ghost use Rattle.wasmparser_operators.specs.OperatorValues.{IsWhole, operator};

use crate::accesses::{read_load_from, read_store_from};
use crate::families::{read_memory_size_from, read_variable_from};
use crate::first_bytes::{
    read_call_from, read_constant_from, read_control_from, read_reference_from, read_scalar_from,
};
use crate::operator::Operator;
use crate::second_codes::{
    no_operator, read_aggregate_from, read_saturating_from, read_vector_from,
};
use wasm_core_read::binary_reader::BinaryReader;
use wasm_core_read::malformed::Malformed;

// Reads an operator after its first byte. Where a second code follows, a `match` takes the borrow checker less time than a `?`.
#[inline(always)]
#[tactic(auto, using(crate::proofs::CodeGaps::gaps))]
fn read_operator_from<'a>(
    code: u8,
    reader: &mut BinaryReader<'a>,
) -> Result<Operator<'a>, Malformed>
    ensures read { Answers operator reader.old reader.new result (operator_from Packed reader.old.features code reader.old.rest) }
    ensures whole { IfOk result IsWhole }
{
    match code {
        0x00..=0x0f => read_control_from(code, reader),
        0x10..=0x1f => read_call_from(code, reader),
        0x20..=0x26 => read_variable_from(code, reader),
        0x27 => Err(no_operator(reader)),
        0x28..=0x35 => read_load_from(code, reader),
        0x36..=0x3e => read_store_from(code, reader),
        0x3f..=0x40 => read_memory_size_from(code, reader),
        0x41..=0x44 => read_constant_from(code, reader),
        0x45..=0xc4 => read_scalar_from(code, reader),
        0xc5..=0xfa => read_reference_from(code, reader),
        0xfb => match reader.read_var_u32() {
            Ok(number) => read_aggregate_from(number, reader),
            Err(error) => Err(error),
        },
        0xfc => match reader.read_var_u32() {
            Ok(number) => read_saturating_from(number, reader),
            Err(error) => Err(error),
        },
        0xfd => match reader.read_var_u32() {
            Ok(number) => read_vector_from(number, reader),
            Err(error) => Err(error),
        },
        0xfe..=0xff => Err(no_operator(reader)),
    }
}

// Reads an operator.
#[inline(always)]
#[tactic(auto, using(crate::proofs::OperatorLaws::operator_codes))]
pub(crate) fn read_operator<'a>(reader: &mut BinaryReader<'a>) -> Result<Operator<'a>, Malformed>
    ensures read { Answers operator reader.old reader.new result (kept_operator_at Packed reader.old.features reader.old.rest) }
    ensures whole { IfOk result IsWhole }
    ensures further { IfOk result (λ _. reader.old.position < reader.new.position) }
{
    let code = reader.read_u8()?;
    read_operator_from(code, reader)
}
