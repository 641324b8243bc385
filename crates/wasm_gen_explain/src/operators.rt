//! Operators of bodies by places.

ghost use Rattle.std.specs.Prelude.{◌≡◌, ◌<◌, ◌-◌, ◌^◌};
ghost use Rattle.wasmparser_operators.specs.OperatorReading.{code_at, code_from};
ghost use Rattle.wasm_gen_explain.specs.Operators.{front_name};
ghost use Rattle.wasm_gen_explain.specs.Searches.{FindsOperator, TriesOperator, open_from};

use crate::names::operator_name;
use wasm_core_read::binary_reader::BinaryReader;
use wasmparser_operators::operators_reader::OperatorsReader;
use wasmparser_readers::passing::fork;

// The first and the last of the bytes that begin a block, and the one that ends it.
const BLOCK: u8 = 0x02;

const IF: u8 = 0x04;

const END: u8 = 0x0b;

// Passes an operator where it reads and ends at a place or before it. Returns false where it doesn't.
#[tactic(auto, using(crate::proofs::OperatorLaws::operator_steps))]
fn pass_operator(reader: &mut BinaryReader<'_>, offset: u64) -> bool
    ensures { TriesOperator reader.old reader.new offset result }
{
    let mut operators = OperatorsReader::new(fork(reader));
    match operators.read() {
        Ok(operator) => drop(operator),
        Err(_) => return false,
    }
    if offset < operators.original_position() {
        return false;
    }
    *reader = operators.get_binary_reader();
    true
}

// Returns how many blocks are open after an operator with this code, where so many were open before it.
#[tactic(auto, using(crate::proofs::BlockLaws::opened_steps))]
fn opened(blocks: u64, code: Option<u8>) -> u64
    requires { blocks < 2 ^ 64 - 1 }
    ensures { result ≡ open_from code blocks }
{
    match code {
        Some(BLOCK..=IF) => blocks + 1,
        Some(END) => blocks.saturating_sub(1),
        _ => blocks,
    }
}

// Goes to the operator in which a place is: the first one that doesn't end at the place or before it, or doesn't read. Returns its number, or none where no block is open
// and no bytes are left.
#[tactic(auto, using(crate::proofs::OperatorLaws::operator_loop))]
pub(crate) fn find_operator(reader: &mut BinaryReader<'_>, offset: u64) -> Option<u64>
    requires { 0 < reader.old.position }
    ensures { FindsOperator reader.old reader.new offset result }
{
    let mut number: u64 = 0;
    let mut blocks: u64 = 1;
    'operators: while blocks > 0 || !reader.eof() {
        let code = reader.peek();
        if !pass_operator(reader, offset) {
            return Some(number);
        }
        blocks = opened(blocks, code);
        number += 1;
    }
    None
}

// Returns the name of the code that begins with this byte.
fn name_from(byte: u8, reader: &mut BinaryReader<'_>) -> &'static str
    ensures { result.now ≡ front_name (code_from byte reader.old.rest) }
{
    match byte {
        0xfb..=0xfd => match reader.read_var_u32() {
            Ok(second) => operator_name(byte, second),
            Err(_) => "",
        },
        _ => operator_name(byte, 0),
    }
}

// Returns the name of the operator that is next, which is empty where no operator has the code.
#[tactic(auto, using(crate::proofs::OperatorLaws::name_steps))]
pub(crate) fn next_name(reader: &BinaryReader<'_>) -> &'static str
    ensures { result.now ≡ front_name (code_at reader.now.rest) }
{
    let mut ahead = fork(reader);
    match ahead.read_u8() {
        Ok(byte) => name_from(byte, &mut ahead),
        Err(_) => "",
    }
}
