//! The names of the fields, and what each takes.

ghost use Rattle.std.specs.Prelude.{◌≡◌, map};
ghost use Rattle.wasm_gen_config.specs.Fields as table;

use crate::bad_key::Takes;

// Returns what the field of this name takes, if there is one.
pub(crate) fn takes(key: &str) -> Option<Takes>
    ensures { result ≡ table.takes key.now }
{
    if is_among(&switches(), key) {
        Some(Takes::Boolean)
    } else if is_among(&counts(), key) {
        Some(Takes::NumberTo(u128::from(u32::MAX)))
    } else if is_among(&["max_table_elements", "max_memory32_bytes"], key) {
        Some(Takes::NumberTo(u128::from(u64::MAX)))
    } else if is_among(&["max_memory64_bytes"], key) {
        Some(Takes::NumberTo(u128::MAX))
    } else if is_among(&["allowed_instructions"], key) {
        Some(Takes::Kinds)
    } else if is_among(&["memory_offset_choices"], key) {
        Some(Takes::Weights)
    } else {
        None
    }
}

fn is_among(names: &[&'static str], key: &str) -> bool
    ensures { result ≡ table.is_in key.now (map (λ name. name.now) names.now) }
{
    names.iter().any(|name| *name == key)
}

// Names the switches.
fn switches() -> [&'static str; 26]
    ensures { map (λ name. name.now) result ≡ table.names table.switches }
{
    [
        "allow_floats",
        "allow_invalid_funcs",
        "allow_start_export",
        "bulk_memory_enabled",
        "canonicalize_nans",
        "compact_imports_enabled",
        "custom_page_sizes_enabled",
        "disallow_traps",
        "exceptions_enabled",
        "export_everything",
        "extended_const_enabled",
        "gc_enabled",
        "generate_custom_sections",
        "memory64_enabled",
        "memory_max_size_required",
        "multi_value_enabled",
        "reference_types_enabled",
        "relaxed_simd_enabled",
        "saturating_float_to_int_enabled",
        "sign_extension_ops_enabled",
        "simd_enabled",
        "stack_switching_enabled",
        "table_max_size_required",
        "tail_call_enabled",
        "threads_enabled",
        "wide_arithmetic_enabled",
    ]
}

// Names the numbers of 32 bits.
fn counts() -> [&'static str; 24]
    ensures { map (λ name. name.now) result ≡ table.names table.counts }
{
    [
        "min_types",
        "max_types",
        "min_imports",
        "max_imports",
        "min_tags",
        "max_tags",
        "min_funcs",
        "max_funcs",
        "min_globals",
        "max_globals",
        "min_exports",
        "max_exports",
        "min_element_segments",
        "max_element_segments",
        "min_elements",
        "max_elements",
        "min_data_segments",
        "max_data_segments",
        "min_tables",
        "max_tables",
        "min_memories",
        "max_memories",
        "max_instructions",
        "max_type_size",
    ]
}
