//! Values of fields that a table holds.

ghost use Rattle.std.specs.Prelude.{◌≡◌, ◌≤◌, option_map};
ghost use Rattle.toml.specs.Data.{as_bool, get_member};
ghost use Rattle.toml.specs.View.{table_view, view};
ghost use Rattle.wasm_gen_config.specs.Fields.{largest};
ghost use Rattle.wasm_gen_config.specs.Filled.{with_on, with_off, with_minimums, with_maximums, with_others};
ghost use Rattle.wasm_gen_config.specs.Settings as settings;

use crate::bad_key::Takes;
use toml::{Table, Value};
use wasm_smith_config::config::Config;
use wasm_smith_config::instruction_kinds::InstructionKinds;
use wasm_smith_config::memory_offset_choices::MemoryOffsetChoices;

// Returns true if the value is one that is taken.
pub(crate) fn is_taken(what: Takes, value: &Value) -> bool
    ensures { result ≡ settings.is_taken what (view value.now) }
{
    match what {
        Takes::Boolean => value.is_bool(),
        Takes::NumberTo(most) => number(value, most).is_some(),
        Takes::Kinds => kinds(value).is_some(),
        Takes::Weights => weights(value).is_some(),
    }
}

// Returns the number that the value is, from 0 to the largest.
fn number(value: &Value, most: u128) -> Option<u128>
    ensures { result ≡ settings.number_to most (view value.now) }
{
    let number = u128::try_from(value.as_integer()?).ok()?;
    if number <= most { Some(number) } else { None }
}

// Returns the kinds of instructions that the value names.
fn kinds(value: &Value) -> Option<InstructionKinds>
    ensures { result ≡ settings.kinds_in (view value.now) }
{
    value.as_str()?.parse().ok()
}

// Returns the weights that the value writes.
fn weights(value: &Value) -> Option<MemoryOffsetChoices>
    ensures { result ≡ settings.weights_in (view value.now) }
{
    value.as_str()?.parse().ok()
}

// Returns the value at the key.
fn at_key<'a>(table: &'a Table, key: &str) -> Option<&'a Value>
    ensures { option_map (λ value. view value.now) result ≡ get_member key.now (table_view table.now) }
{
    table.get(key)
}

// Returns the switch at the key, or the default.
fn switch(table: &Table, key: &str, default: bool) -> bool
    ensures { result ≡ settings.given as_bool (table_view table.now) key.now default }
{
    match at_key(table, key) {
        Some(value) => value.as_bool().unwrap_or(default),
        None => default,
    }
}

// Returns the number at the key, or the default.
fn number_at(table: &Table, key: &str, most: u128, default: u128) -> u128
    ensures given { result ≡ settings.given (settings.number_to most) (table_view table.now) key.now default }
    ensures small { default ≤ most → result ≤ most }
{
    match at_key(table, key) {
        Some(value) => number(value, most).unwrap_or(default),
        None => default,
    }
}

// Returns the number of 32 bits at the key, or the default.
fn count(table: &Table, key: &str, default: u32) -> u32
    ensures { result ≡ settings.given (settings.number_to (largest 32)) (table_view table.now) key.now default }
{
    number_at(table, key, u32::MAX.into(), default.into()) as u32
}

// Returns the number of 64 bits at the key, or the default.
fn size(table: &Table, key: &str, default: u64) -> u64
    ensures { result ≡ settings.given (settings.number_to (largest 64)) (table_view table.now) key.now default }
{
    number_at(table, key, u64::MAX.into(), default.into()) as u64
}

// Returns the number of 128 bits at the key, or the default.
fn wide_size(table: &Table, key: &str, default: u128) -> u128
    ensures { result ≡ settings.given (settings.number_to (largest 128)) (table_view table.now) key.now default }
{
    number_at(table, key, u128::MAX, default)
}

// Returns the kinds of instructions at the key, or the default.
fn kinds_at(table: &Table, key: &str, default: InstructionKinds) -> InstructionKinds
    ensures { result ≡ settings.given settings.kinds_in (table_view table.now) key.now default }
{
    match at_key(table, key) {
        Some(value) => kinds(value).unwrap_or(default),
        None => default,
    }
}

// Returns the weights at the key, or the default.
fn weights_at(table: &Table, key: &str, default: MemoryOffsetChoices) -> MemoryOffsetChoices
    ensures { result ≡ settings.given settings.weights_in (table_view table.now) key.now default }
{
    match at_key(table, key) {
        Some(value) => weights(value).unwrap_or(default),
        None => default,
    }
}

// Sets the switches that are on by default to what the table holds at their keys.
pub(crate) fn set_on(config: &mut Config, table: &Table)
    ensures { config.new ≡ with_on (table_view table.now) config.old }
{
    config.allow_floats = switch(table, "allow_floats", config.allow_floats);
    config.allow_start_export = switch(table, "allow_start_export", config.allow_start_export);
    config.bulk_memory_enabled = switch(table, "bulk_memory_enabled", config.bulk_memory_enabled);
    config.exceptions_enabled = switch(table, "exceptions_enabled", config.exceptions_enabled);
    config.extended_const_enabled = switch(
        table,
        "extended_const_enabled",
        config.extended_const_enabled,
    );
    config.gc_enabled = switch(table, "gc_enabled", config.gc_enabled);
    config.memory64_enabled = switch(table, "memory64_enabled", config.memory64_enabled);
    config.multi_value_enabled = switch(table, "multi_value_enabled", config.multi_value_enabled);
    config.reference_types_enabled = switch(
        table,
        "reference_types_enabled",
        config.reference_types_enabled,
    );
    config.relaxed_simd_enabled = switch(
        table,
        "relaxed_simd_enabled",
        config.relaxed_simd_enabled,
    );
    config.saturating_float_to_int_enabled = switch(
        table,
        "saturating_float_to_int_enabled",
        config.saturating_float_to_int_enabled,
    );
    config.sign_extension_ops_enabled = switch(
        table,
        "sign_extension_ops_enabled",
        config.sign_extension_ops_enabled,
    );
    config.simd_enabled = switch(table, "simd_enabled", config.simd_enabled);
    config.tail_call_enabled = switch(table, "tail_call_enabled", config.tail_call_enabled);
}

// Sets the switches that are off by default, but for those on sizes.
pub(crate) fn set_off(config: &mut Config, table: &Table)
    ensures { config.new ≡ with_off (table_view table.now) config.old }
{
    config.allow_invalid_funcs = switch(table, "allow_invalid_funcs", config.allow_invalid_funcs);
    config.canonicalize_nans = switch(table, "canonicalize_nans", config.canonicalize_nans);
    config.compact_imports_enabled = switch(
        table,
        "compact_imports_enabled",
        config.compact_imports_enabled,
    );
    config.custom_page_sizes_enabled = switch(
        table,
        "custom_page_sizes_enabled",
        config.custom_page_sizes_enabled,
    );
    config.disallow_traps = switch(table, "disallow_traps", config.disallow_traps);
    config.export_everything = switch(table, "export_everything", config.export_everything);
    config.generate_custom_sections = switch(
        table,
        "generate_custom_sections",
        config.generate_custom_sections,
    );
    config.stack_switching_enabled = switch(
        table,
        "stack_switching_enabled",
        config.stack_switching_enabled,
    );
    config.threads_enabled = switch(table, "threads_enabled", config.threads_enabled);
    config.wide_arithmetic_enabled = switch(
        table,
        "wide_arithmetic_enabled",
        config.wide_arithmetic_enabled,
    );
}

// Sets the minimums.
pub(crate) fn set_minimums(config: &mut Config, table: &Table)
    ensures { config.new ≡ with_minimums (table_view table.now) config.old }
{
    config.min_types = count(table, "min_types", config.min_types);
    config.min_imports = count(table, "min_imports", config.min_imports);
    config.min_tags = count(table, "min_tags", config.min_tags);
    config.min_funcs = count(table, "min_funcs", config.min_funcs);
    config.min_globals = count(table, "min_globals", config.min_globals);
    config.min_exports = count(table, "min_exports", config.min_exports);
    config.min_element_segments = count(table, "min_element_segments", config.min_element_segments);
    config.min_elements = count(table, "min_elements", config.min_elements);
    config.min_data_segments = count(table, "min_data_segments", config.min_data_segments);
    config.min_tables = count(table, "min_tables", config.min_tables);
    config.min_memories = count(table, "min_memories", config.min_memories);
}

// Sets the maximums of 32 bits.
pub(crate) fn set_maximums(config: &mut Config, table: &Table)
    ensures { config.new ≡ with_maximums (table_view table.now) config.old }
{
    config.max_types = count(table, "max_types", config.max_types);
    config.max_imports = count(table, "max_imports", config.max_imports);
    config.max_tags = count(table, "max_tags", config.max_tags);
    config.max_funcs = count(table, "max_funcs", config.max_funcs);
    config.max_globals = count(table, "max_globals", config.max_globals);
    config.max_exports = count(table, "max_exports", config.max_exports);
    config.max_element_segments = count(table, "max_element_segments", config.max_element_segments);
    config.max_elements = count(table, "max_elements", config.max_elements);
    config.max_data_segments = count(table, "max_data_segments", config.max_data_segments);
    config.max_tables = count(table, "max_tables", config.max_tables);
    config.max_memories = count(table, "max_memories", config.max_memories);
    config.max_instructions = count(table, "max_instructions", config.max_instructions);
    config.max_type_size = count(table, "max_type_size", config.max_type_size);
}

// Sets all else.
pub(crate) fn set_others(config: &mut Config, table: &Table)
    ensures { config.new ≡ with_others (table_view table.now) config.old }
{
    config.memory_max_size_required = switch(
        table,
        "memory_max_size_required",
        config.memory_max_size_required,
    );
    config.table_max_size_required = switch(
        table,
        "table_max_size_required",
        config.table_max_size_required,
    );
    config.max_table_elements = size(table, "max_table_elements", config.max_table_elements);
    config.max_memory32_bytes = size(table, "max_memory32_bytes", config.max_memory32_bytes);
    config.max_memory64_bytes = wide_size(table, "max_memory64_bytes", config.max_memory64_bytes);
    config.allowed_instructions = kinds_at(
        table,
        "allowed_instructions",
        config.allowed_instructions,
    );
    config.memory_offset_choices = weights_at(
        table,
        "memory_offset_choices",
        config.memory_offset_choices,
    );
}
