//! Locals of a body.

use std::alloc::Global;
use wasmparser_bodies::locals::{Locals, LocalsError};
use wasmparser_types::val_type::ValType;

const PARAMS: [ValType; 3] = [ValType::I32, ValType::I64, ValType::F32];

// Checks that parameters are defined, at the second time where memory ran out at the first.
fn begins(locals: &mut Locals) -> bool {
    locals.reset();
    if locals.define_parameters(&PARAMS).is_ok() {
        return true;
    }
    locals.reset();
    locals.define_parameters(&PARAMS).is_ok()
}

// Checks that a run is defined, at the second time where memory ran out at the first.
fn defines(locals: &mut Locals, count: u32) -> bool {
    let before = locals.len();
    match locals.define(count, ValType::FUNCREF) {
        Ok(()) => true,
        Err(LocalsError::Limit) => false,
        Err(LocalsError::Memory) => {
            locals.len() == before && locals.define(count, ValType::FUNCREF).is_ok()
        }
    }
}

// Checks that all runs are defined.
fn defines_all(locals: &mut Locals, runs: u32) -> bool {
    let mut are_defined = begins(locals);
    for count in 0..runs {
        are_defined = are_defined && defines(locals, count);
    }
    are_defined && locals.len() > runs && locals.get(runs).is_some()
}

// Checks that they are defined at the first time, as where there is room for all.
fn defines_again(locals: &mut Locals, runs: u32) -> bool {
    locals.reset();
    let mut are_defined = locals.define_parameters(&PARAMS).is_ok();
    for count in 0..runs {
        are_defined = are_defined && locals.define(count, ValType::I32).is_ok();
    }
    are_defined
}

fn bodies_hold(alloc: Global, runs: u32) -> bool {
    let mut locals = Locals::new(alloc);
    defines_all(&mut locals, runs) && defines_again(&mut locals, runs)
}

#[test]
fn refused_runs_change_nothing_and_room_is_kept(rt: HostRuntime) {
    assert!(rt; bodies_hold(rt.alloc(), 60));
}
