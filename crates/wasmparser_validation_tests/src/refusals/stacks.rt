//! Operands, open blocks and assigned locals.

use std::alloc::{AllocError, Global};
use wasmparser_bodies::frame::FrameKind;
use wasmparser_bodies::operand::Operand;
use wasmparser_bodies::stacks::Stacks;
use wasmparser_operators::immediates::BlockType;
use wasmparser_types::val_type::ValType;

const TYPES: [ValType; 3] = [ValType::I32, ValType::I64, ValType::F32];

// Makes a call that asks for memory, by its number.
fn call(stacks: &mut Stacks, number: u32) -> Result<(), AllocError> {
    match number % 8 {
        0 => stacks.push(Operand::Unknown),
        1 => stacks.push_known(ValType::I64),
        2 => stacks.replace(1, &TYPES),
        3 => stacks.replace_with(2, &TYPES, &Operand::UnknownRef),
        4 => stacks.enter(FrameKind::If, BlockType::Empty, 1, &TYPES),
        5 => stacks.else_(&TYPES),
        6 => stacks.assign(number),
        _ => stacks.replace_and_assign(0, &TYPES, number),
    }
}

// Returns the counts of the stacks, and whether a local is assigned.
fn counts(stacks: &Stacks, number: u32) -> (usize, usize, bool) {
    (
        stacks.operand_count(),
        stacks.frame_count(),
        stacks.is_assigned(number),
    )
}

// Checks that a call is done, at the second time where memory ran out at the first.
fn takes(stacks: &mut Stacks, number: u32) -> bool {
    let before = counts(stacks, number);
    if call(stacks, number).is_ok() {
        return true;
    }
    counts(stacks, number) == before && call(stacks, number).is_ok()
}

// Checks that a block is closed, at the second time where memory ran out at the first.
fn closes(stacks: &mut Stacks) -> bool {
    let before = counts(stacks, 0);
    if stacks.leave(&TYPES).is_ok() {
        return true;
    }
    counts(stacks, 0) == before && stacks.leave(&TYPES).is_ok()
}

// Checks that all calls are done, and all blocks closed.
fn takes_all(stacks: &mut Stacks, calls: u32) -> bool {
    for number in 0..calls {
        if !takes(stacks, number) {
            return false;
        }
    }
    for _ in 0..stacks.frame_count() {
        if !closes(stacks) {
            return false;
        }
    }
    stacks.is_closed() && stacks.operand_count() > 0
}

// Checks that they are done at the first time, as where there is room for all.
fn does_all(stacks: &mut Stacks, calls: u32) -> bool {
    for number in 0..calls {
        if call(stacks, number).is_err() {
            return false;
        }
    }
    for _ in 0..stacks.frame_count() {
        if stacks.leave(&TYPES).is_err() {
            return false;
        }
    }
    stacks.is_closed()
}

fn bodies_hold(alloc: Global, calls: u32) -> bool {
    let mut stacks = Stacks::new(alloc);
    let are_taken = takes_all(&mut stacks, calls);
    stacks.reset();
    are_taken && does_all(&mut stacks, calls)
}

#[test]
fn refused_calls_change_nothing_and_room_is_kept(rt: HostRuntime) {
    assert!(rt; bodies_hold(rt.alloc(), 160));
}
