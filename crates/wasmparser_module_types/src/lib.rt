//! The types of a module, known to a list of types: a part of `wasmparser`.
#![tactic(auto)]

mod kept_types;
pub mod laws;
pub mod module_types;
mod tops;
mod type_space;
mod with_ids;
