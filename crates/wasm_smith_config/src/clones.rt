//! Copies of configurations.

ghost use Rattle.std.specs.Prelude.{◌≡◌, IfOk};

use crate::config::Config;
use std::alloc::{AllocError, Global};
use wasm_smith_shapes::shape::Shape;

fn copied(alloc: Global, shape: &Option<Shape>) -> Result<Option<Shape>, AllocError>
    ensures { IfOk result (λ copy. copy ≡ shape.now) }
{
    match shape {
        Some(shape) => Ok(Some(shape.try_clone(alloc)?)),
        None => Ok(None),
    }
}

impl Config {
    ghost use Rattle.std.specs.Prelude.{◌≡◌, IfOk};

    /// Returns a copy of this configuration and its shapes.
    ///
    /// # Errors
    /// Where memory runs out.
    pub fn try_clone(&self, alloc: Global) -> Result<Config, AllocError>
        ensures { IfOk result (λ copy. copy ≡ self.now) }
    {
        let module_shape = copied(alloc, &self.module_shape)?;
        let available_imports = copied(alloc, &self.available_imports)?;
        let exports = copied(alloc, &self.exports)?;
        Ok(Config {
            allow_floats: self.allow_floats,
            allow_invalid_funcs: self.allow_invalid_funcs,
            allow_start_export: self.allow_start_export,
            bulk_memory_enabled: self.bulk_memory_enabled,
            canonicalize_nans: self.canonicalize_nans,
            compact_imports_enabled: self.compact_imports_enabled,
            custom_page_sizes_enabled: self.custom_page_sizes_enabled,
            disallow_traps: self.disallow_traps,
            exceptions_enabled: self.exceptions_enabled,
            export_everything: self.export_everything,
            extended_const_enabled: self.extended_const_enabled,
            gc_enabled: self.gc_enabled,
            generate_custom_sections: self.generate_custom_sections,
            memory64_enabled: self.memory64_enabled,
            memory_max_size_required: self.memory_max_size_required,
            multi_value_enabled: self.multi_value_enabled,
            reference_types_enabled: self.reference_types_enabled,
            relaxed_simd_enabled: self.relaxed_simd_enabled,
            saturating_float_to_int_enabled: self.saturating_float_to_int_enabled,
            sign_extension_ops_enabled: self.sign_extension_ops_enabled,
            simd_enabled: self.simd_enabled,
            stack_switching_enabled: self.stack_switching_enabled,
            table_max_size_required: self.table_max_size_required,
            tail_call_enabled: self.tail_call_enabled,
            threads_enabled: self.threads_enabled,
            wide_arithmetic_enabled: self.wide_arithmetic_enabled,
            min_types: self.min_types,
            max_types: self.max_types,
            min_imports: self.min_imports,
            max_imports: self.max_imports,
            min_tags: self.min_tags,
            max_tags: self.max_tags,
            min_funcs: self.min_funcs,
            max_funcs: self.max_funcs,
            min_globals: self.min_globals,
            max_globals: self.max_globals,
            min_exports: self.min_exports,
            max_exports: self.max_exports,
            min_element_segments: self.min_element_segments,
            max_element_segments: self.max_element_segments,
            min_elements: self.min_elements,
            max_elements: self.max_elements,
            min_data_segments: self.min_data_segments,
            max_data_segments: self.max_data_segments,
            min_tables: self.min_tables,
            max_tables: self.max_tables,
            min_memories: self.min_memories,
            max_memories: self.max_memories,
            max_instructions: self.max_instructions,
            max_type_size: self.max_type_size,
            max_table_elements: self.max_table_elements,
            max_memory32_bytes: self.max_memory32_bytes,
            max_memory64_bytes: self.max_memory64_bytes,
            allowed_instructions: self.allowed_instructions,
            memory_offset_choices: self.memory_offset_choices,
            module_shape,
            available_imports,
            exports,
        })
    }
}
