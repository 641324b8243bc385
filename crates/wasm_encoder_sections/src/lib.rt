//! Sections of items without expressions (imports, functions, memories, tags, exports, start, data count), and the list in which sections keep their items: a part of
//! `wasm_encoder`.
#![tactic(auto)]

pub mod data_count_section;
pub mod entity_type;
pub mod export_section;
pub mod function_section;
pub mod import_section;
pub mod imports;
mod kept_imports;
pub mod kept_list;
pub mod laws;
mod limits;
pub mod memory_section;
pub mod names;
pub mod start_section;
pub mod tag_section;
