//! Types and items of sections, read from a module's bytes: a part of `wasmparser`.
#![tactic(auto)]

mod composite_type;
pub mod export;
pub mod from_reader;
pub mod global_type;
pub mod heap_type;
pub mod memory_type;
mod part;
pub mod passing;
pub mod rec_group;
pub mod section_limited;
mod sub_type;
pub mod table_type;
pub mod tag_type;
pub mod type_ref;
pub mod val_type;
