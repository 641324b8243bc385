//! How much of something a type has at most, whatever the configuration says.

ghost use Rattle.std.specs.Prelude.{◌≡◌};
ghost use Rattle.wasm_smith_types.specs.Offering.{max_results};

use wasm_smith_config::config::Config;

/// The most parameters of a function type.
pub const MAX_PARAMS: usize = 20;

/// The most results of a function type.
pub const MAX_RESULTS: usize = 20;

/// The most fields of a structure type.
pub const MAX_FIELDS: usize = 20;

/// Returns the most results of a function type with this configuration.
pub fn max_results(config: &Config) -> usize
    ensures { result ≡ max_results config.now }
{
    if config.multi_value_enabled {
        MAX_RESULTS
    } else {
        1
    }
}
