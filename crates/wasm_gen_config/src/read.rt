//! Configurations from tables and from texts.

ghost use Rattle.std.specs.Prelude.{◌≡◌, ◌||◌, Some, None, OnOk, IfOk, IfErr, is_none, option_map};
ghost use Rattle.toml.specs.View.{table_view, view};
ghost use Rattle.wasm_gen_config.specs.Outcome.{IsGivenByText, IsCauseIn, Owns, named};
ghost use Rattle.wasm_gen_config.specs.Settings.{IsGiven};
ghost use Rattle.wasm_gen_config.specs.Settings as settings;

use crate::bad_key::{BadKey, Takes};
use crate::config_error::ConfigError;
use crate::fields::takes;
use crate::values::{is_taken, set_maximums, set_minimums, set_off, set_on, set_others};
use std::alloc::Global;
use toml::{Table, Value};
use wasm_smith_config::config::Config;

/// Returns the configuration that a table gives: each key is the name of a field, and fields without a key keep their defaults. The shapes can't be given.
///
/// A switch takes a boolean, and a number takes an integer that its type holds; `allowed_instructions` and `memory_offset_choices` take strings that their types read.
///
/// # Errors
/// `BadKey` alone, with the first key in the table's order, that of the keys' bytes, that is no such name, or has a value that its field doesn't take.
pub fn config_from_table(table: &Table) -> Result<Config, BadKey<'_>>
    ensures given { IfOk result (IsGiven (table_view table.now)) }
    ensures good { OnOk result (settings.first_bad (table_view table.now) ≡ None) }
    ensures bad { IfErr result (λ bad. settings.first_bad (table_view table.now) ≡ Some (named bad)) }
{
    if let Some(bad) = first_bad(table) {
        return Err(bad);
    }
    let mut config = Config::default();
    set_on(&mut config, table);
    set_off(&mut config, table);
    set_minimums(&mut config, table);
    set_maximums(&mut config, table);
    set_others(&mut config, table);
    Ok(config)
}

// Returns the first key that is bad.
fn first_bad(table: &Table) -> Option<BadKey<'_>>
    ensures { option_map named result ≡ settings.first_bad (table_view table.now) }
{
    for (key, value) in table {
        let takes = takes(key);
        if is_bad(takes, value) {
            return Some(BadKey { key, takes });
        }
    }
    None
}

// Returns true if there is no field, or one that takes something else than the value.
fn is_bad(takes: Option<Takes>, value: &Value) -> bool
    ensures { result ≡ (is_none takes || settings.takes_other takes (view value.now)) }
{
    match takes {
        Some(what) => !is_taken(what, value),
        None => true,
    }
}

/// Returns the configuration that a TOML text gives, by its table.
///
/// # Errors
/// `Text` where the bytes aren't TOML in UTF-8, or nest too deep, `Key` where the table has a bad key, and `Memory` where memory runs out, never over blank text.
pub fn config_from_text(alloc: Global, text: &[u8]) -> Result<Config, ConfigError>
    ensures given { IfOk result (IsGivenByText text.now) }
    ensures refused { IfErr result (IsCauseIn text.now) }
{
    let table = match toml::table_from_slice(alloc, text) {
        Ok(table) => table,
        Err(cause) if cause.is_memory() => return Err(ConfigError::Memory),
        Err(cause) => return Err(ConfigError::Text(cause)),
    };
    match config_from_table(&table) {
        Ok(config) => Ok(config),
        Err(bad) => Err(owned(alloc, bad)),
    }
}

// Returns the error of a bad key, with a copy of it.
fn owned(alloc: Global, bad: BadKey<'_>) -> ConfigError
    ensures { Owns bad.entry result }
{
    match String::from_str(alloc, bad.key) {
        Ok(key) => ConfigError::Key {
            key,
            takes: bad.takes,
        },
        Err(_) => ConfigError::Memory,
    }
}
