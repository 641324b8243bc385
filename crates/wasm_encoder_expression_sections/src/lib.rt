//! The sections of a module whose items hold expressions or bodies: a part of `wasm_encoder`.
#![tactic(auto)]

pub mod code_section;
pub mod data_section;
pub mod data_segment;
pub mod element_section;
pub mod element_segment;
pub mod global_section;
mod kept_bytes;
mod kept_elements;
pub mod laws;
mod segment_codes;
pub mod table_section;
