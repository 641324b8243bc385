//! Checks if the steps of imports and of tags draw a bool for a first item, where no item is owed.

ghost use Rattle.std.specs.Prelude.{◌≡◌};
ghost use Rattle.wasm_smith_witness.specs.Functions.{can_import, has_tag_type, import_is_asked, tag_is_asked};

use crate::functions::FunctionTypes;
use wasm_smith_config::config::Config;

// Checks that there is a type for a tag.
fn has_tag_type(config: &Config, types: &FunctionTypes) -> bool
    ensures { result ≡ has_tag_type config.now types.now }
{
    config.exceptions_enabled && types.has_resultless()
}

// Checks that an item of some kind can be imported.
fn can_import(config: &Config, types: &FunctionTypes) -> bool
    ensures { result ≡ can_import config.now types.now }
{
    types.count() > 0 && config.max_funcs > 0
        || has_tag_type(config, types) && config.max_tags > 0
        || config.max_globals > 0
        || config.max_tables > 0
        || config.max_memories > 0
}

/// Checks that a bool for a first import is drawn.
pub fn asks_for_import(config: &Config, types: &FunctionTypes) -> bool
    ensures { result ≡ import_is_asked config.now types.now }
{
    can_import(config, types) && config.max_imports > 0
}

/// Checks that a bool for a first tag is drawn.
pub fn asks_for_tag(config: &Config, types: &FunctionTypes) -> bool
    ensures { result ≡ tag_is_asked config.now types.now }
{
    has_tag_type(config, types) && config.max_tags > 0
}
