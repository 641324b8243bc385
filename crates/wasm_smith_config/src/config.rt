//! The configuration of a module that is made.

ghost use Rattle.std.specs.Prelude.{◌≡◌, ◌≤◌, ◌^◌, ◌<◌, IsTrue};
ghost use Rattle.std.specs.List.{AllZip};

use crate::instruction_kinds::InstructionKinds;
use crate::memory_offset_choices::MemoryOffsetChoices;
use wasm_core_types::features::{Flags, WasmFeatures};
use wasm_smith_shapes::shape::Shape;

/// The most bytes that a memory of 32-bit addresses has where nothing else is said.
pub const DEFAULT_MEMORY32_BYTES: u64 = 0x1_0000_0000;

/// The most bytes that a memory of 64-bit addresses has where nothing else is said.
pub const DEFAULT_MEMORY64_BYTES: u128 = 0x1_0000_0000_0000_0000;

/// The configuration of a module that is made.
///
/// A minimum and a maximum bound how many items of a kind the module has, imported ones counted. Where the minimum can't be
/// met, no module is made. A field whose name ends in `_enabled` says whether the module may need a feature.
#[derive(Debug, Drop)]
pub struct Config {
    /// Allows the types of floats, and constants of them.
    pub allow_floats: bool,
    /// Allows function bodies of arbitrary bytes, which are not valid as a rule.
    pub allow_invalid_funcs: bool,
    /// Allows a start function.
    pub allow_start_export: bool,
    /// Allows passive and declared segments, and counting data segments.
    pub bulk_memory_enabled: bool,
    /// Makes bodies turn each NaN that they compute into one form. It is kept for those who make bodies, and steers nothing
    /// here.
    pub canonicalize_nans: bool,
    /// Allows groups of imports that share a module name or a type.
    pub compact_imports_enabled: bool,
    /// Allows pages of another size than 65,536 bytes.
    pub custom_page_sizes_enabled: bool,
    /// Keeps the module from trapping when it is instantiated: active segments lie within the minimum size of their table or
    /// memory.
    pub disallow_traps: bool,
    /// Allows tags, and references to exceptions.
    pub exceptions_enabled: bool,
    /// Exports everything that can be exported.
    pub export_everything: bool,
    /// Allows constant expressions to add, subtract and multiply.
    pub extended_const_enabled: bool,
    /// Allows structures, arrays, recursive groups and subtypes, and references to defined types.
    pub gc_enabled: bool,
    /// Puts custom sections between the others.
    pub generate_custom_sections: bool,
    /// Allows memories and tables with 64-bit addresses.
    pub memory64_enabled: bool,
    /// Gives each memory a maximum size.
    pub memory_max_size_required: bool,
    /// Allows functions with several results.
    pub multi_value_enabled: bool,
    /// Makes references values, and allows several tables.
    pub reference_types_enabled: bool,
    /// Allows vector operators whose results are left open.
    pub relaxed_simd_enabled: bool,
    /// Allows conversions of floats to integers that saturate.
    pub saturating_float_to_int_enabled: bool,
    /// Allows operators that extend the sign of an integer.
    pub sign_extension_ops_enabled: bool,
    /// Allows vectors of 128 bits.
    pub simd_enabled: bool,
    /// Allows continuations.
    pub stack_switching_enabled: bool,
    /// Gives each table a maximum size.
    pub table_max_size_required: bool,
    /// Allows calls that take the place of a return.
    pub tail_call_enabled: bool,
    /// Allows memories that threads share.
    pub threads_enabled: bool,
    /// Allows operators on integers of 128 bits.
    pub wide_arithmetic_enabled: bool,

    /// The fewest types that the module defines.
    pub min_types: u32,
    /// The most types that the module defines.
    pub max_types: u32,
    /// The fewest imports.
    pub min_imports: u32,
    /// The most imports.
    pub max_imports: u32,
    /// The fewest tags.
    pub min_tags: u32,
    /// The most tags.
    pub max_tags: u32,
    /// The fewest functions.
    pub min_funcs: u32,
    /// The most functions.
    pub max_funcs: u32,
    /// The fewest globals.
    pub min_globals: u32,
    /// The most globals.
    pub max_globals: u32,
    /// The fewest exports.
    pub min_exports: u32,
    /// The most exports.
    pub max_exports: u32,
    /// The fewest element segments.
    pub min_element_segments: u32,
    /// The most element segments.
    pub max_element_segments: u32,
    /// The fewest elements of an element segment.
    pub min_elements: u32,
    /// The most elements of an element segment.
    pub max_elements: u32,
    /// The fewest data segments.
    pub min_data_segments: u32,
    /// The most data segments.
    pub max_data_segments: u32,
    /// The fewest tables.
    pub min_tables: u32,
    /// The most tables.
    pub max_tables: u32,
    /// The fewest memories.
    pub min_memories: u32,
    /// The most memories.
    pub max_memories: u32,

    /// The most operators of a function body. It is kept for those who make bodies, and steers nothing here.
    pub max_instructions: u32,
    /// The most that the types of all imports and exports come to: each counts 1, and that of a function or a tag its
    /// parameters and results besides.
    pub max_type_size: u32,
    /// The most elements that the size of a table states.
    pub max_table_elements: u64,
    /// The most bytes that the size of a memory of 32-bit addresses states.
    pub max_memory32_bytes: u64,
    /// The most bytes that the size of a memory of 64-bit addresses states.
    pub max_memory64_bytes: u128,

    /// The kinds of instructions that function bodies may have. They are kept for those who make bodies, and steer nothing here.
    pub allowed_instructions: InstructionKinds,
    /// Weights of the offsets of memory accesses in function bodies. They are kept for those who make bodies, and steer nothing here.
    pub memory_offset_choices: MemoryOffsetChoices,

    /// The types, imports and exports that the module is asked to have. It has no other types, imports and exports. No other shape may stand beside this one.
    pub module_shape: Option<Shape>,
    /// The imports that the module may have, entry by entry: those that are drawn, and no others. Their types stand behind drawn ones.
    pub available_imports: Option<Shape>,
    /// The exports that the module is asked to have, and no others: for each it defines an item. Their types stand last.
    pub exports: Option<Shape>,
}

/// All that the standard has may be used, and each count is at most 100, of tables and memories at most 1.
impl Default for Config {
    ghost use Rattle.wasm_smith_config.specs.Defaults.{IsDefault};

    ghost is_default = { IsDefault };

    fn default() -> Config {
        Config {
            allow_floats: true,
            allow_invalid_funcs: false,
            allow_start_export: true,
            bulk_memory_enabled: true,
            canonicalize_nans: false,
            compact_imports_enabled: false,
            custom_page_sizes_enabled: false,
            disallow_traps: false,
            exceptions_enabled: true,
            export_everything: false,
            extended_const_enabled: true,
            gc_enabled: true,
            generate_custom_sections: false,
            memory64_enabled: true,
            memory_max_size_required: false,
            multi_value_enabled: true,
            reference_types_enabled: true,
            relaxed_simd_enabled: true,
            saturating_float_to_int_enabled: true,
            sign_extension_ops_enabled: true,
            simd_enabled: true,
            stack_switching_enabled: false,
            table_max_size_required: false,
            tail_call_enabled: true,
            threads_enabled: false,
            wide_arithmetic_enabled: false,
            min_types: 0,
            max_types: 100,
            min_imports: 0,
            max_imports: 100,
            min_tags: 0,
            max_tags: 100,
            min_funcs: 0,
            max_funcs: 100,
            min_globals: 0,
            max_globals: 100,
            min_exports: 0,
            max_exports: 100,
            min_element_segments: 0,
            max_element_segments: 100,
            min_elements: 0,
            max_elements: 100,
            min_data_segments: 0,
            max_data_segments: 100,
            min_tables: 0,
            max_tables: 1,
            min_memories: 0,
            max_memories: 1,
            max_instructions: 100,
            max_type_size: 1000,
            max_table_elements: 1_000_000,
            max_memory32_bytes: DEFAULT_MEMORY32_BYTES,
            max_memory64_bytes: DEFAULT_MEMORY64_BYTES,
            allowed_instructions: InstructionKinds::all(),
            memory_offset_choices: MemoryOffsetChoices::default(),
            module_shape: None,
            available_imports: None,
            exports: None,
        }
    }
}

impl Config {
    ghost use Rattle.wasm_core_types.specs.Features.{feature_set};
    ghost use Rattle.wasm_smith_config.specs.Config.{sanitized, booleans, upper_limits, AreFeaturesOf};
    ghost use Rattle.wasm_smith_config.specs.Rows.{rows_of, switches};

    /// Disables options whose prerequisites are disabled.
    pub fn sanitize(&mut self)
        ensures sanitized { self.new ≡ sanitized self.old }
        ensures twice_is_once { sanitized self.new ≡ self.new }
        ensures turns_nothing_on { AllZip (λ before after. IsTrue after → IsTrue before) (booleans self.old) (booleans self.new) }
        ensures raises_no_limit { AllZip (λ before after. after ≤ before) (upper_limits self.old) (upper_limits self.new) }
    {
        if !self.simd_enabled {
            self.relaxed_simd_enabled = false;
        }
        if !self.reference_types_enabled {
            self.gc_enabled = false;
            self.max_tables = self.max_tables.min(1);
        }
    }

    /// Returns the features of the modules that are made.
    pub fn features(&self) -> WasmFeatures
        ensures flags { AreFeaturesOf self.now (feature_set result) }
        ensures no_further_bits { feature_set result < 2 ^ 22 }
    {
        let mut features = WasmFeatures::empty();
        for (flag, is_on) in self.switches() {
            if is_on {
                features.insert(flag);
            }
        }
        features
    }

    // Returns each flag, and whether it is on.
    fn switches(&self) -> [(WasmFeatures, bool); 22]
        ensures { rows_of result ≡ switches self.now }
    {
        [
            (WasmFeatures::MUTABLE_GLOBAL, true),
            (
                WasmFeatures::SATURATING_FLOAT_TO_INT,
                self.saturating_float_to_int_enabled,
            ),
            (
                WasmFeatures::SIGN_EXTENSION,
                self.sign_extension_ops_enabled,
            ),
            (WasmFeatures::REFERENCE_TYPES, self.reference_types_enabled),
            (WasmFeatures::MULTI_VALUE, self.multi_value_enabled),
            (WasmFeatures::BULK_MEMORY, self.bulk_memory_enabled),
            (WasmFeatures::SIMD, self.simd_enabled),
            (WasmFeatures::RELAXED_SIMD, self.relaxed_simd_enabled),
            (WasmFeatures::THREADS, self.threads_enabled),
            (WasmFeatures::TAIL_CALL, self.tail_call_enabled),
            (WasmFeatures::FLOATS, true),
            (WasmFeatures::MULTI_MEMORY, self.max_memories > 1),
            (WasmFeatures::EXCEPTIONS, self.exceptions_enabled),
            (WasmFeatures::MEMORY64, self.memory64_enabled),
            (WasmFeatures::EXTENDED_CONST, self.extended_const_enabled),
            (WasmFeatures::FUNCTION_REFERENCES, self.gc_enabled),
            (WasmFeatures::GC, self.gc_enabled),
            (WasmFeatures::GC_TYPES, true),
            (
                WasmFeatures::CUSTOM_PAGE_SIZES,
                self.custom_page_sizes_enabled,
            ),
            (WasmFeatures::COMPACT_IMPORTS, self.compact_imports_enabled),
            (WasmFeatures::WIDE_ARITHMETIC, self.wide_arithmetic_enabled),
            (WasmFeatures::STACK_SWITCHING, self.stack_switching_enabled),
        ]
    }
}
