//! Configurations that are drawn.

ghost use Rattle.std.specs.Prelude.{◌≡◌, ◌≤◌, length};
ghost use Rattle.std.specs.List.{AllByRecursion};
ghost use Rattle.wasm_smith_unstructured.specs.Draws.{IsDrawn, int_at};
ghost use Rattle.wasm_smith_config.specs.Arbitrary.{IsArbitrary, on_at, off_at, maximums_at, maximums_of};
ghost use Rattle.wasm_smith_config.specs.Config as table;

use crate::config::Config;
use wasm_smith_unstructured::unstructured::Unstructured;

impl Config {
    /// Draws a configuration: each switch, and each maximum that has a minimum. All else is as in the default, and the configuration is sanitized.
    pub fn arbitrary(unstructured: &mut Unstructured<'_>) -> Config
        ensures exact { IsArbitrary unstructured.old result unstructured.new }
        ensures taken { length unstructured.new ≤ length unstructured.old }
        ensures in_order { table.sanitized result ≡ result }
        ensures good { table.IsGood result }
    {
        let mut config = Config::default();
        config.draw_on(unstructured);
        config.draw_off(unstructured);
        config.draw_maximums(unstructured);
        config.sanitize();
        config
    }

    // Draws each switch that is on by default.
    fn draw_on(&mut self, unstructured: &mut Unstructured<'_>)
        ensures exact { IsDrawn (λ c. c) self.new unstructured.new (on_at self.old unstructured.old) }
        ensures taken { length unstructured.new ≤ length unstructured.old }
    {
        self.allow_floats = unstructured.bool();
        self.allow_start_export = unstructured.bool();
        self.bulk_memory_enabled = unstructured.bool();
        self.exceptions_enabled = unstructured.bool();
        self.extended_const_enabled = unstructured.bool();
        self.gc_enabled = unstructured.bool();
        self.memory64_enabled = unstructured.bool();
        self.multi_value_enabled = unstructured.bool();
        self.reference_types_enabled = unstructured.bool();
        self.relaxed_simd_enabled = unstructured.bool();
        self.saturating_float_to_int_enabled = unstructured.bool();
        self.sign_extension_ops_enabled = unstructured.bool();
        self.simd_enabled = unstructured.bool();
        self.tail_call_enabled = unstructured.bool();
    }

    // Draws each switch that is off by default.
    fn draw_off(&mut self, unstructured: &mut Unstructured<'_>)
        ensures exact { IsDrawn (λ c. c) self.new unstructured.new (off_at self.old unstructured.old) }
        ensures taken { length unstructured.new ≤ length unstructured.old }
    {
        self.allow_invalid_funcs = unstructured.bool();
        self.canonicalize_nans = unstructured.bool();
        self.compact_imports_enabled = unstructured.bool();
        self.custom_page_sizes_enabled = unstructured.bool();
        self.disallow_traps = unstructured.bool();
        self.export_everything = unstructured.bool();
        self.generate_custom_sections = unstructured.bool();
        self.memory_max_size_required = unstructured.bool();
        self.table_max_size_required = unstructured.bool();
        self.threads_enabled = unstructured.bool();
        self.wide_arithmetic_enabled = unstructured.bool();
        self.stack_switching_enabled = unstructured.bool();
    }

    // Draws each maximum that has a minimum.
    fn draw_maximums(&mut self, unstructured: &mut Unstructured<'_>)
        ensures exact { IsDrawn (λ c. c) self.new unstructured.new (maximums_at self.old unstructured.old) }
        ensures taken { length unstructured.new ≤ length unstructured.old }
        ensures few { AllByRecursion (λ most. most ≤ 100) (maximums_of self.new) }
    {
        self.max_types = maximum(unstructured);
        self.max_imports = maximum(unstructured);
        self.max_tags = maximum(unstructured);
        self.max_funcs = maximum(unstructured);
        self.max_globals = maximum(unstructured);
        self.max_exports = maximum(unstructured);
        self.max_element_segments = maximum(unstructured);
        self.max_elements = maximum(unstructured);
        self.max_data_segments = maximum(unstructured);
        self.max_tables = maximum(unstructured);
        self.max_memories = maximum(unstructured);
    }
}

// Draws a maximum.
fn maximum(unstructured: &mut Unstructured<'_>) -> u32
    ensures exact { IsDrawn (λ n. n) result unstructured.new (int_at 0 100 unstructured.old) }
    ensures taken { length unstructured.new ≤ length unstructured.old }
    ensures few { result ≤ 100 }
{
    unstructured.int_in_range(0..=100) as u32
}
