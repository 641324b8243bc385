//! Configurations by their settings: `max_types=1 gc_enabled=yes`, after `default` where they change the default.

ghost use Rattle.std.specs.Prelude.{◌≡◌, IfNone, false};
ghost use Rattle.wasm_smith_config_rows.specs.Settings.{with_maximums, with_minimums, with_switches};

use wasm_smith_config::config::Config;
use wasm_test_rows::values::bool_of;

// Sets a switch, if there is one of this name.
fn set_switch(config: &mut Config, name: &str, is_on: bool) -> bool
    ensures others { with_switches config.new config.old ≡ config.old }
    ensures unknown { result ≡ false → config.new ≡ config.old }
{
    match name {
        "allow_floats" => config.allow_floats = is_on,
        "allow_invalid_funcs" => config.allow_invalid_funcs = is_on,
        "allow_start_export" => config.allow_start_export = is_on,
        "bulk_memory_enabled" => config.bulk_memory_enabled = is_on,
        "canonicalize_nans" => config.canonicalize_nans = is_on,
        "compact_imports_enabled" => config.compact_imports_enabled = is_on,
        "custom_page_sizes_enabled" => config.custom_page_sizes_enabled = is_on,
        "disallow_traps" => config.disallow_traps = is_on,
        "exceptions_enabled" => config.exceptions_enabled = is_on,
        "export_everything" => config.export_everything = is_on,
        "extended_const_enabled" => config.extended_const_enabled = is_on,
        "gc_enabled" => config.gc_enabled = is_on,
        "generate_custom_sections" => config.generate_custom_sections = is_on,
        "memory64_enabled" => config.memory64_enabled = is_on,
        "memory_max_size_required" => config.memory_max_size_required = is_on,
        "multi_value_enabled" => config.multi_value_enabled = is_on,
        "reference_types_enabled" => config.reference_types_enabled = is_on,
        "relaxed_simd_enabled" => config.relaxed_simd_enabled = is_on,
        "saturating_float_to_int_enabled" => config.saturating_float_to_int_enabled = is_on,
        "sign_extension_ops_enabled" => config.sign_extension_ops_enabled = is_on,
        "simd_enabled" => config.simd_enabled = is_on,
        "stack_switching_enabled" => config.stack_switching_enabled = is_on,
        "table_max_size_required" => config.table_max_size_required = is_on,
        "tail_call_enabled" => config.tail_call_enabled = is_on,
        "threads_enabled" => config.threads_enabled = is_on,
        "wide_arithmetic_enabled" => config.wide_arithmetic_enabled = is_on,
        _ => return false,
    }
    true
}

fn set_minimum(config: &mut Config, name: &str, count: u32) -> bool
    ensures others { with_minimums config.new config.old ≡ config.old }
    ensures unknown { result ≡ false → config.new ≡ config.old }
{
    match name {
        "min_types" => config.min_types = count,
        "min_imports" => config.min_imports = count,
        "min_tags" => config.min_tags = count,
        "min_funcs" => config.min_funcs = count,
        "min_globals" => config.min_globals = count,
        "min_exports" => config.min_exports = count,
        "min_element_segments" => config.min_element_segments = count,
        "min_elements" => config.min_elements = count,
        "min_data_segments" => config.min_data_segments = count,
        "min_tables" => config.min_tables = count,
        "min_memories" => config.min_memories = count,
        _ => return false,
    }
    true
}

fn set_maximum(config: &mut Config, name: &str, count: u32) -> bool
    ensures others { with_maximums config.new config.old ≡ config.old }
    ensures unknown { result ≡ false → config.new ≡ config.old }
{
    match name {
        "max_types" => config.max_types = count,
        "max_imports" => config.max_imports = count,
        "max_tags" => config.max_tags = count,
        "max_funcs" => config.max_funcs = count,
        "max_globals" => config.max_globals = count,
        "max_exports" => config.max_exports = count,
        "max_element_segments" => config.max_element_segments = count,
        "max_elements" => config.max_elements = count,
        "max_data_segments" => config.max_data_segments = count,
        "max_tables" => config.max_tables = count,
        "max_memories" => config.max_memories = count,
        "max_instructions" => config.max_instructions = count,
        "max_type_size" => config.max_type_size = count,
        _ => return false,
    }
    true
}

// Does the same for counts that are wider than 32 bits.
fn set_size(config: &mut Config, name: &str, value: &str) -> Option<()>
    ensures others { with_maximums config.new config.old ≡ config.old }
    ensures unknown { IfNone result (config.new ≡ config.old) }
{
    match name {
        "max_table_elements" => config.max_table_elements = value.parse().ok()?,
        "max_memory32_bytes" => config.max_memory32_bytes = value.parse().ok()?,
        "max_memory64_bytes" => config.max_memory64_bytes = value.parse().ok()?,
        _ => return None,
    }
    Some(())
}

// Sets what is named to its value, if it can.
fn set(config: &mut Config, name: &str, value: &str) -> bool
    ensures unknown { result ≡ false → config.new ≡ config.old }
{
    if let Some(is_on) = bool_of(value) {
        return set_switch(config, name, is_on);
    }
    match value.parse() {
        Ok(count) if set_minimum(config, name, count) || set_maximum(config, name, count) => true,
        _ => set_size(config, name, value).is_some(),
    }
}

/// Returns a configuration with these settings.
pub fn config_of(mut config: Config, settings: &str) -> Option<Config> {
    for setting in settings.split_whitespace() {
        let (name, value) = setting.split_once('=')?;
        if !set(&mut config, name, value) {
            return None;
        }
    }
    Some(config)
}

/// Returns the default configuration without garbage collection, and without anything but types and functions.
pub fn plain_config() -> Config {
    let mut config = Config::default();
    config.allow_start_export = false;
    config.gc_enabled = false;
    config.max_imports = 0;
    config.max_tags = 0;
    config.max_tables = 0;
    config.max_memories = 0;
    config.max_globals = 0;
    config.max_exports = 0;
    config.max_element_segments = 0;
    config.max_data_segments = 0;
    config
}

/// Returns the configuration of a field: with the settings after `default` the default one, and else the plain one.
pub fn config_in(field: &str) -> Option<Config> {
    match field.strip_prefix("default") {
        Some(settings) => config_of(Config::default(), settings),
        None => config_of(plain_config(), field),
    }
}
