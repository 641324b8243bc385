//! Hashing of names, and a module's exports and imports by theirs: a part of `wasmparser`.
#![tactic(auto)]

pub mod export_names;
mod import_groups;
mod import_key;
pub mod import_names;
pub mod imported_items;
mod kept_name;
pub mod module_names;
pub mod name_hasher;
pub mod named_import;
