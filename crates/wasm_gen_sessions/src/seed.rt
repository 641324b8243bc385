//! Seeds for lists of groups and functions.

ghost use Rattle.std.specs.Prelude.{◌↔◌, ◌≤◌, IfOk, IsTrue, MatchOption, length, map};
ghost use Rattle.wasm_gen_sessions.specs.Asked.{IsReachable};
ghost use Rattle.wasm_smith.specs.Config.{sanitized};
ghost use Rattle.wasm_smith.specs.Family.{types_of};
ghost use Rattle.wasm_smith.specs.Groups.{group_of};
ghost use Rattle.wasm_smith.specs.Spelling.{Spells};
ghost use Rattle.wasm_spec.specs.Limits.{Types, most};

use std::alloc::{AllocError, Global};
use wasm_core::limits::Limit;
use wasm_core::types::SubType;
use wasm_smith::config::Config;
use wasm_smith::witness::witness;

// Checks that the groups have no more types than the limit allows.
fn are_few_types(groups: &[Vec<SubType>]) -> bool
    ensures { IsTrue result ↔ (length (types_of (map group_of groups.now)) ≤ most Types) }
{
    let mut left = Limit::Types.max();
    for group in groups {
        let size = group.len() as u64;
        if size > left {
            return false;
        }
        left -= size;
    }
    true
}

/// Returns a seed from which [`generate`](crate::generate::generate) makes a module of exactly these groups and functions, the
/// functions without locals and `unreachable`. A function is the index of its type.
///
/// `None` where the configuration, put in order, is not allowed, has a shape, has a minimum above 0, or has exports of everything; where a
/// group is empty; where a type is a continuation type, or has a supertype, more than 20 fields, parameters or results, or parts
/// that the configuration doesn't enable; where a reference isn't nullable, or goes to a type past its group; without garbage
/// collection, where a group is other than one final function type; where a function's index isn't that of a function type; where
/// there are more types or functions than the configuration allows, or than the limits. With a minimum above 0 there may be seeds
/// all the same.
///
/// # Errors
/// Where memory runs out.
pub fn seed_for(
    alloc: Global,
    config: &Config,
    groups: &[Vec<SubType>],
    funcs: &[u32],
) -> Result<Option<Vec<u8>>, AllocError>
    ensures { IfOk result (λ answer. MatchOption answer
        (¬ (IsReachable (sanitized config.now) (map group_of groups.now) funcs.now))
        (λ seed. IsReachable (sanitized config.now) (map group_of groups.now) funcs.now
        × Spells (sanitized config.now) (map group_of groups.now) funcs.now seed.items)) }
{
    if !are_few_types(groups) || funcs.len() as u64 > Limit::Functions.max() {
        return Ok(None);
    }
    witness(alloc, config, groups, funcs)
}
