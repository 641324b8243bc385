//! A seed for a list of groups and functions.

ghost use Rattle.std.specs.Prelude.{◌≡◌, IfOk, MatchOption, map};
ghost use Rattle.wasm_smith_config.specs.Config.{sanitized};
ghost use Rattle.wasm_smith_witness.specs.Family.{IsInFamily};
ghost use Rattle.wasm_smith_witness.specs.Groups.{group_of};
ghost use Rattle.wasm_smith_witness.specs.Spelling.{Spells};

use crate::functions::FunctionTypes;
use crate::membership::{are_member_groups, is_askable};
use crate::words::{push_functions, push_no_imports_or_tags, push_types};
use std::alloc::{AllocError, Global};
use wasm_core_types::types::SubType;
use wasm_smith_config::config::Config;

// Returns the configuration as it is put in order before modules are made from it.
fn in_order(alloc: Global, config: &Config) -> Result<Config, AllocError>
    ensures { IfOk result (λ copy. copy ≡ sanitized config.now) }
{
    let mut config = config.try_clone(alloc)?;
    config.sanitize();
    Ok(config)
}

// Returns a seed for the list, if it is of the family of a configuration that is in order.
fn spelling(
    alloc: Global,
    config: &Config,
    groups: &[Vec<SubType>],
    funcs: &[u32],
) -> Result<Option<Vec<u8>>, AllocError>
    ensures { IfOk result (λ answer. MatchOption answer
        (¬ (IsInFamily config.now (map group_of groups.now) funcs.now))
        (λ seed. IsInFamily config.now (map group_of groups.now) funcs.now × Spells config.now (map group_of groups.now) funcs.now seed.items)) }
{
    if !is_askable(config)
        || !are_member_groups(config, groups)
        || funcs.len() > config.max_funcs as usize
    {
        return Ok(None);
    }
    let types = FunctionTypes::new(alloc, groups)?;
    if !types.have_all(funcs) {
        return Ok(None);
    }
    let mut seed = Vec::new(alloc);
    push_types(&mut seed, config, groups)?;
    push_no_imports_or_tags(&mut seed, config, &types)?;
    push_functions(&mut seed, &types, funcs)?;
    Ok(Some(seed))
}

/// Returns a seed from which exactly these groups and functions are made for the configuration, and nothing else; `None` where
/// they can't be asked for.
///
/// # Errors
/// Where memory runs out.
pub fn witness(
    alloc: Global,
    config: &Config,
    groups: &[Vec<SubType>],
    funcs: &[u32],
) -> Result<Option<Vec<u8>>, AllocError>
    ensures { IfOk result (λ answer. MatchOption answer
        (¬ (IsInFamily (sanitized config.now) (map group_of groups.now) funcs.now))
        (λ seed. IsInFamily (sanitized config.now) (map group_of groups.now) funcs.now
        × Spells (sanitized config.now) (map group_of groups.now) funcs.now seed.items)) }
{
    let config = in_order(alloc, config)?;
    spelling(alloc, &config, groups, funcs)
}
