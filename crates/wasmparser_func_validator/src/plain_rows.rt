//! Plain loads, stores and blocks, by their codes (Core Specification 3.0, Binary Format, "Memory Instructions" and "Control Instructions").

ghost use Rattle.std.specs.Prelude.{IfSome};
ghost use Rattle.wasm_bodies.specs.Operators as spec;
ghost use Rattle.wasm_bodies.specs.OperatorRows.{access};
ghost use Rattle.wasmparser_func_validator.specs.NumericForms.{number};
ghost use Rattle.wasmparser_func_validator.specs.Plain.{IsCoded, IsPlainBlock};
ghost use Rattle.wasmparser_operators.specs.OperatorReading.{Access};

use crate::number_type::NumberType;
use wasmparser_operators::immediates::BlockType;
use wasmparser_types::val_type::ValType;

// Returns the type of what a load gives, and which power of two it is wide in memory, if the code is of a load.
#[tactic(auto, unfolding(wasmparser_operators::specs::CodeTables::row_of, wasmparser_operators::specs::OperatorReading::shape_of))]
pub(crate) fn load_form(code: u8) -> Option<(NumberType, u8)>
    ensures coded { IfSome result (λ x. IsCoded code (Access (λ argument. spec.Load (access code (number x.0) x.1) argument))) }
{
    match code {
        0x28 => Some((NumberType::I32, 2)),
        0x29 => Some((NumberType::I64, 3)),
        0x2a => Some((NumberType::F32, 2)),
        0x2b => Some((NumberType::F64, 3)),
        0x2c => Some((NumberType::I32, 0)),
        0x2d => Some((NumberType::I32, 0)),
        0x2e => Some((NumberType::I32, 1)),
        0x2f => Some((NumberType::I32, 1)),
        0x30 => Some((NumberType::I64, 0)),
        0x31 => Some((NumberType::I64, 0)),
        0x32 => Some((NumberType::I64, 1)),
        0x33 => Some((NumberType::I64, 1)),
        0x34 => Some((NumberType::I64, 2)),
        0x35 => Some((NumberType::I64, 2)),
        _ => None,
    }
}

// Does the same for a store.
#[tactic(auto, unfolding(wasmparser_operators::specs::CodeTables::row_of, wasmparser_operators::specs::OperatorReading::shape_of))]
pub(crate) fn store_form(code: u8) -> Option<(NumberType, u8)>
    ensures coded { IfSome result (λ x. IsCoded code (Access (λ argument. spec.Store (access code (number x.0) x.1) argument))) }
{
    match code {
        0x36 => Some((NumberType::I32, 2)),
        0x37 => Some((NumberType::I64, 3)),
        0x38 => Some((NumberType::F32, 2)),
        0x39 => Some((NumberType::F64, 3)),
        0x3a => Some((NumberType::I32, 0)),
        0x3b => Some((NumberType::I32, 1)),
        0x3c => Some((NumberType::I64, 0)),
        0x3d => Some((NumberType::I64, 1)),
        0x3e => Some((NumberType::I64, 2)),
        _ => None,
    }
}

// Returns the block type that is this byte, if it takes nothing and gives a number at most.
pub(crate) fn plain_block_type(code: u8) -> Option<BlockType>
    ensures { IfSome result (IsPlainBlock code) }
{
    match code {
        0x40 => Some(BlockType::Empty),
        0x7f => Some(BlockType::Type(ValType::I32)),
        0x7e => Some(BlockType::Type(ValType::I64)),
        _ => None,
    }
}
