//! Views of modules that are made for drawn configurations, and for shapes: that of a module is that of its bytes. One session checks all modules of a
//! configuration, so that the ids of their types aren't their indexes.

use crate::drawn_modules::{drawn_config, drawn_seed};
use crate::generated::{features_of, new_module};
use crate::numbers::Numbers;
use crate::shaped_modules::{EXPORTS, IMPORTS, MODULES, config_for};
use std::alloc::Global;
use std::test::Fail;
use wasm_gen::judge::{ErrorKind, TypesRef, ValidatorId};
use wasm_gen::session::Session;
use wasm_gen::smith::{Config, Error};
use wasm_gen_rows::new_session::on_types_after;
use wasm_gen_view::module_view::view_of_module;
use wasm_gen_view::types_view::view_of_types;
use wasm_gen_view::view::View;
use wasm_smith::module::Module;
use wasm_test_rows::rows::check_rows;

// The view of a made module, and its text.
#[derive(Drop)]
struct Made {
    alloc: Global,
    view: View,
    text: String,
}

fn made_view(alloc: Global, module: &Module) -> Option<Made> {
    let view = view_of_module(alloc, module).ok()?;
    let text = view.text(alloc).ok()?;
    Some(Made { alloc, view, text })
}

// Checks that the view of a module is the same, and so is its text.
fn is_view_of(made: &mut Made, types: TypesRef<'_>, _row: &str) -> bool {
    let Ok(view) = view_of_types(made.alloc, types) else {
        return false;
    };
    match view.text(made.alloc) {
        Ok(text) => view == made.view && text == made.text,
        Err(_) => false,
    }
}

// Checks that a refusal is one that bodies of raw bytes may have.
fn is_of_body(kind: ErrorKind) -> bool {
    matches!(kind, ErrorKind::Body | ErrorKind::Operator)
}

// Returns true where both views of a module are the same, false where it is refused for raw bytes, and none otherwise.
fn has_one_view(alloc: Global, session: &mut Session, module: &Module) -> Option<bool> {
    let bytes = module.to_bytes(alloc).ok()?;
    let mut made = made_view(alloc, module)?;
    match on_types_after(session, &bytes, &mut made, "", is_view_of) {
        Ok(true) => Some(true),
        Err(e) if module.config().allow_invalid_funcs && is_of_body(e.kind) => Some(false),
        _ => None,
    }
}

// Does the same for the module of a seed. It is false, too, where everything is exported and this is too much.
fn makes_one_view(
    alloc: Global,
    session: &mut Session,
    config: &Config,
    seed: &[u8],
) -> Option<bool> {
    let made = new_module(alloc, config, seed);
    let found = match &made {
        Ok(module) => has_one_view(alloc, session, module),
        Err(e) if config.export_everything && *e == Error::TypeSize => Some(false),
        Err(_) => None,
    };
    // (dropped by a call, which is cheaper to prove)
    drop(made);
    found
}

// Counts the modules of so many drawn seeds that have one view, in this session.
fn count_in(
    alloc: Global,
    session: &mut Session,
    config: &Config,
    numbers: &mut Numbers,
    seeds: u32,
) -> Option<u32> {
    let mut count = 0u32;
    for _ in 0..seeds {
        let seed = drawn_seed(alloc, numbers);
        if makes_one_view(alloc, session, config, &seed)? {
            count = count.saturating_add(1);
        }
    }
    Some(count)
}

// Does the same in a new session with the features of the configuration.
fn count_of(alloc: Global, config: &Config, numbers: &mut Numbers, seeds: u32) -> Option<u32> {
    let features = features_of(alloc, config)?;
    let mut session = Session::new(alloc, features, ValidatorId::new(8));
    let count = count_in(alloc, &mut session, config, numbers, seeds);
    drop(session);
    count
}

// Counts those of so many drawn configurations, with so many seeds for each.
fn count_drawn(alloc: Global, configs: u32, seeds: u32) -> Option<u32> {
    let mut numbers = Numbers::new(24);
    let mut count = 0u32;
    for _ in 0..configs {
        let config = drawn_config(alloc, &mut numbers);
        let found = count_of(alloc, &config, &mut numbers, seeds)?;
        count = count.saturating_add(found);
    }
    Some(count)
}

#[test]
fn modules_of_drawn_configurations_have_one_view(rt: HostRuntime) {
    let count = count_drawn(rt.alloc(), 200, 50);
    assert!(rt; count.unwrap_or(0) > 8_000, "{count:?}");
}

// Checks that the modules of 50 seeds for a shape have one view each.
fn holds(alloc: Global, purpose: &str, row: &str) -> Option<bool> {
    let config = config_for(alloc, purpose, row)?;
    Some(count_of(alloc, &config, &mut Numbers::new(32), 50) == Some(50))
}

fn modules_hold(alloc: Global, row: &str) -> Option<bool> {
    holds(alloc, "module", row)
}

fn imports_hold(alloc: Global, row: &str) -> Option<bool> {
    holds(alloc, "imports", row)
}

fn exports_hold(alloc: Global, row: &str) -> Option<bool> {
    holds(alloc, "exports", row)
}

#[test]
fn modules_for_shapes_have_one_view(rt: HostRuntime) -> Result<(), Fail> {
    check_rows(rt.alloc(), MODULES, 20, modules_hold)?;
    check_rows(rt.alloc(), IMPORTS, 20, imports_hold)?;
    Ok(check_rows(rt.alloc(), EXPORTS, 20, exports_hold)?)
}
