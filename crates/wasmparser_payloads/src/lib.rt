//! A module as its payloads, and the entries in each: a part of `wasmparser`.
#![tactic(auto)]

pub mod custom_section;
pub mod entry_laws;
pub mod function_body;
pub mod laws;
mod locals;
pub mod parser;
pub mod payload;
pub mod payloads;
