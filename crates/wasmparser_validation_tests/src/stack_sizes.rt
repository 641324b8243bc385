//! Many operands, blocks and locals.

use std::alloc::{AllocError, Global};
use wasmparser_bodies::frame::FrameKind;
use wasmparser_bodies::locals::Locals;
use wasmparser_bodies::stacks::Stacks;
use wasmparser_operators::immediates::BlockType;
use wasmparser_types::ref_type::RefType;
use wasmparser_types::val_type::ValType;

// Pushes so many operands, each above a block of its own, and checks that they are there, and that all of them go.
fn nest(stacks: &mut Stacks, count: usize) -> Result<bool, AllocError> {
    for _ in 0..count {
        stacks.enter(FrameKind::Block, BlockType::Empty, 0, &[])?;
        stacks.push_known(ValType::I32)?;
    }
    let are_there = stacks.frame_count() == count && stacks.operand_count() == count;
    for _ in 0..count {
        stacks.leave(&[])?;
    }
    Ok(are_there && stacks.is_closed() && stacks.operand_count() == 0)
}

// Does the same in the room that is there.
fn nest_within_capacity(stacks: &mut Stacks, count: usize) -> bool {
    let mut is_room = true;
    for _ in 0..count {
        is_room = is_room
            && stacks.enter_within_capacity(FrameKind::Block, BlockType::Empty, 0)
            && stacks.push_within_capacity(ValType::I32);
    }
    let are_there = stacks.frame_count() == count && stacks.operand_count() == count;
    for _ in 0..count {
        stacks.leave_empty();
    }
    is_room && are_there && stacks.is_closed() && stacks.operand_count() == 0
}

// Returns a call of a thousand parameters and results, again and again.
fn call(stacks: &mut Stacks, types: &[ValType], count: usize) -> Result<bool, AllocError> {
    stacks.replace(0, types)?;
    let mut are_known = true;
    for _ in 0..count {
        are_known = are_known && stacks.are_known(0, types);
        stacks.replace(types.len(), types)?;
    }
    Ok(are_known && stacks.operand_count() == types.len())
}

// Assigns so many locals in a block, and checks that they are assigned, and none of them after it.
fn assign(stacks: &mut Stacks, count: u32) -> Result<bool, AllocError> {
    stacks.enter(FrameKind::Block, BlockType::Empty, 0, &[])?;
    for local in 0..count {
        stacks.assign(local)?;
    }
    let last = count.saturating_sub(1);
    let are_assigned = stacks.is_assigned(0) && stacks.is_assigned(last);
    stacks.leave(&[])?;
    Ok(are_assigned && !stacks.is_assigned(0) && !stacks.is_assigned(last))
}

// Does all of these again and again, on one value.
fn are_deep(stacks: &mut Stacks, types: &[ValType]) -> Result<bool, AllocError> {
    let mut are_right = true;
    for _ in 0..3 {
        are_right = are_right
            && nest(stacks, 200_000)?
            && nest_within_capacity(stacks, 200_000)
            && call(stacks, types, 200)?
            && assign(stacks, 50_000)?;
        stacks.reset();
    }
    Ok(are_right)
}

fn types_hold(stacks: &mut Stacks, alloc: Global) -> bool {
    let mut types = Vec::new(alloc);
    types.resize(1_000, ValType::I64).is_ok() && are_deep(stacks, &types) == Ok(true)
}

fn stacks_hold(alloc: Global) -> bool {
    let mut stacks = Stacks::new(alloc);
    let holds = types_hold(&mut stacks, alloc);
    drop(stacks);
    holds
}

#[test]
fn stacks_are_deep(rt: HostRuntime) {
    assert!(rt; stacks_hold(rt.alloc()));
}

// The locals of as many bodies, each with one run of all locals that there may be, and with as many runs of one.
fn are_many(locals: &mut Locals, bodies: u32) -> bool {
    let mut are_right = true;
    for _ in 0..bodies {
        locals.reset();
        are_right = are_right
            && locals.define(50_000, ValType::Ref(RefType::FUNC)).is_ok()
            && locals.get(49_999).is_some()
            && locals.get(50_000).is_none();
    }
    locals.reset();
    for _ in 0..50_000 {
        are_right = are_right && locals.define(1, ValType::F64).is_ok();
    }
    for index in 0..50_000 {
        are_right = are_right && locals.get(index).is_some();
    }
    are_right && locals.define(1, ValType::F64).is_err() && locals.len() == 50_000
}

fn locals_hold(alloc: Global, bodies: u32) -> bool {
    let mut locals = Locals::new(alloc);
    let holds = are_many(&mut locals, bodies);
    drop(locals);
    holds
}

#[test]
fn locals_are_many(rt: HostRuntime) {
    assert!(rt; locals_hold(rt.alloc(), 20_000));
}
