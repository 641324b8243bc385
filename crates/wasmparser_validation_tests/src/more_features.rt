//! Operators under some features, and under more.

use crate::cases::{declare, validator_of};
use std::alloc::Global;
use wasm_core_types::features::{Flags, WasmFeatures};
use wasmparser_bodies::module_resources::WasmModuleResources;
use wasmparser_func_validator::func_validator::FuncValidator;
use wasmparser_validation_rows::listed_resources::ListedResources;
use wasmparser_validation_rows::running::run;

fn accepts_in<R: WasmModuleResources>(
    validator: &mut FuncValidator<R>,
    before: &[u8],
    operator: &[u8],
) -> Option<bool> {
    declare(validator)?;
    Some(run(validator, before, 0).is_ok() && run(validator, operator, 0).is_ok())
}

// Checks that an operator after others is accepted, and they are.
fn accepts(
    alloc: Global,
    resources: &ListedResources,
    features: WasmFeatures,
    before: &[u8],
    operator: &[u8],
) -> Option<bool> {
    let mut validator = validator_of(alloc, resources, features)?;
    let accepts = accepts_in(&mut validator, before, operator);
    drop(validator);
    accepts
}

// Checks that an operator that is accepted under some features is so under others.
fn stays_accepted(
    alloc: Global,
    resources: &ListedResources,
    some: WasmFeatures,
    others: WasmFeatures,
    before: &[u8],
    operator: &[u8],
) -> Option<bool> {
    if accepts(alloc, resources, others, before, operator)? {
        return Some(true);
    }
    Some(!accepts(alloc, resources, some, before, operator)?)
}

/// Checks that an operator that is accepted stays so with each further feature, and with all: beside the default ones, beside all of these but one, and from
/// none up to all.
pub fn stays_accepted_with_more(
    alloc: Global,
    resources: &ListedResources,
    before: &[u8],
    operator: &[u8],
) -> Option<bool> {
    let features = WasmFeatures::default();
    let mut former = WasmFeatures::empty();
    for shift in 0..32u32 {
        let Some(flag) = WasmFeatures::from_bits(1 << shift) else {
            continue;
        };
        let (more, fewer, latter) = (
            features.union(flag),
            features.difference(flag),
            former.union(flag),
        );
        let stays = stays_accepted(alloc, resources, features, more, before, operator)?
            && stays_accepted(alloc, resources, fewer, features, before, operator)?
            && stays_accepted(alloc, resources, former, latter, before, operator)?;
        if !stays {
            return Some(false);
        }
        former = latter;
    }
    let stays = stays_accepted(alloc, resources, features, former, before, operator)?;
    Some(stays && former == WasmFeatures::all())
}
