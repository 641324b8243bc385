//! The encoder of WebAssembly modules, in one place. The parts are the crates that are shown here.
#![tactic(auto)]

pub use wasm_core_types::{scalar_operator, types};
pub use wasm_core_write::{encode, encode_error, module, rec_group, type_section};
pub use wasm_encoder_bodies::{const_expr, function, instruction_sink};
pub use wasm_encoder_custom::{
    branch_hints, core_dump, core_dump_instances, core_dump_stack, custom_section, linking,
    name_map, name_section, producers, symbol_table,
};
pub use wasm_encoder_expression_sections::{
    code_section, data_section, data_segment, element_section, element_segment, global_section,
    table_section,
};
pub use wasm_encoder_instructions::{block_type, ieee, instruction, mem_arg};
pub use wasm_encoder_sections::{
    data_count_section, entity_type, export_section, function_section, import_section, imports,
    memory_section, start_section, tag_section,
};
