//! The parser and the validator of WebAssembly modules, in one place. The parts are the crates that are shown here.
#![tactic(auto)]

pub use wasm_core_types::scalar_operator;
pub use wasmparser_bodies::{frame, module_resources};
pub use wasmparser_entries::{
    const_expr, const_operator, data, element, global, import_item, imports, table,
};
pub use wasmparser_error::error;
pub use wasmparser_func_validator::{func_to_validate, func_validator};
pub use wasmparser_module_state::{entity_type, laws};
pub use wasmparser_operators::{br_table, immediates, operator, operators_reader, select_types};
pub use wasmparser_payloads::{custom_section, function_body, parser, payload, payloads};
pub use wasmparser_readers::{
    export, from_reader, global_type, memory_type, section_limited, table_type, tag_type, type_ref,
};
pub use wasmparser_rec_groups::intern;
pub use wasmparser_type_list::{
    maybe_owned, read_counter, rec_group_elements, type_alloc, type_data, type_identifier,
    type_info, type_list,
};
pub use wasmparser_type_relations::{
    canonical, chain, known_types, lookup, matches, snapshot_list, with_rec_group,
};
pub use wasmparser_types::{composite_type, heap_type, index, ref_type, remap, sub_type, val_type};
pub use wasmparser_validator::{
    core_imports, resources, types, valid_payload, validator, validator_id,
};
