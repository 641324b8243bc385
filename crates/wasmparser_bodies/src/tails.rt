//! Operands of given types at the end of others.

ghost use Rattle.std.specs.Prelude.{◌≡◌, ◌↔◌, ◌+◌, ◌∷◌, ◌≤◌, [], ◌++◌, IsTrue, OnErr, OnOk, drop, length, map, take};
ghost use Rattle.wasm_bodies.specs.Operands.{Known};
ghost use Rattle.wasmparser_bodies.specs.StackViews.{all_of, operand};
ghost use Rattle.wasmparser_types.specs.ValTypes.{val_type};

use crate::operand::Operand;
use std::alloc::AllocError;
use wasmparser_types::laws::equality;
use wasmparser_types::val_type::ValType;

// Writes operands of these types over those from a place on.
fn write_types(operands: &mut Vec<Operand>, at: usize, types: &[ValType])
    requires { at + length types.now ≤ length operands.old.items }
    ensures { map operand operands.new.items ≡ take at (map operand operands.old.items) ++ (all_of types.now ++ drop (at + length types.now) (map operand operands.old.items)) }
{
    for index in 0..types.len() {
        operands[at + index] = Operand::Known(types[index]);
    }
}

// Puts operands of these types in place of those from a place on.
pub(crate) fn replace_tail(
    operands: &mut Vec<Operand>,
    at: usize,
    types: &[ValType],
) -> Result<(), AllocError>
    requires { at ≤ length operands.old.items }
    ensures ok { OnOk result (map operand operands.new.items ≡ take at (map operand operands.old.items) ++ all_of types.now) }
    ensures refused { OnErr result (operands.new.items ≡ operands.old.items) }
{
    if types.is_empty() {
        operands.truncate(at);
        return Ok(());
    }
    operands.resize(at + types.len(), Operand::Unknown)?;
    write_types(operands, at, types);
    Ok(())
}

// Does the same, with one operand after them.
pub(crate) fn replace_tail_with(
    operands: &mut Vec<Operand>,
    at: usize,
    types: &[ValType],
    last: &Operand,
) -> Result<(), AllocError>
    requires { at ≤ length operands.old.items }
    ensures ok { OnOk result (map operand operands.new.items ≡ take at (map operand operands.old.items) ++ (all_of types.now ++ operand last.now ∷ [])) }
    ensures refused { OnErr result (operands.new.items ≡ operands.old.items) }
{
    operands.resize(at + types.len() + 1, Operand::Unknown)?;
    write_types(operands, at, types);
    operands[at + types.len()] = *last;
    Ok(())
}

// Checks that an operand is known and of this type.
#[inline(always)]
fn is_of(x: &Operand, value_type: &ValType) -> bool
    ensures { IsTrue result ↔ (operand x.now ≡ Known (val_type value_type.now)) }
{
    equality();
    match x {
        Operand::Known(known) => known == value_type,
        _ => false,
    }
}

// Checks that operands are known and of these types, one by one.
#[inline(always)]
pub(crate) fn are_of(operands: &[Operand], types: &[ValType]) -> bool
    requires { length operands.now ≡ length types.now }
    ensures { IsTrue result ↔ (map operand operands.now ≡ all_of types.now) }
{
    for index in 0..types.len() {
        if !is_of(&operands[index], &types[index]) {
            return false;
        }
    }
    true
}
