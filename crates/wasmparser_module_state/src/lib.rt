//! The state of a module while its sections are read, and the validation of an item by it: a part of `wasmparser`.
#![tactic(auto)]

pub mod body;
pub mod by_ids;
pub mod copies;
pub mod custom_section;
pub mod data;
pub mod data_count;
pub mod declared;
mod element_types;
pub mod elements;
pub mod entity_type;
pub mod entry;
pub mod exports;
mod function_set;
pub mod functions;
pub mod globals;
pub mod import_entries;
pub mod imported_names;
pub mod imports;
mod initialisers;
pub mod item_types;
pub mod laws;
pub mod memories;
pub mod module_state;
mod names;
pub mod resources;
pub mod start;
pub mod tables;
pub mod tags;
pub mod types;
