//! The sections of a made module, and the module as bytes.
#![tactic(auto)]

pub mod bodies;
pub mod constants;
pub mod filled_section;
pub mod filling;
pub mod imports;
pub mod laws;
pub mod module_items;
pub mod sections;
pub mod segments;
mod small;
mod small_items;
pub mod small_module_items;
mod small_types;
pub mod types;
pub mod writing;
