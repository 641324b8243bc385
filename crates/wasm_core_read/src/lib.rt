//! Reading the binary format: the part of `wasm_core` that goes from bytes to values.
#![tactic(auto)]

pub mod binary_reader;
pub mod laws;
pub mod malformed;
mod signed;
mod unsigned;
mod utf8;
