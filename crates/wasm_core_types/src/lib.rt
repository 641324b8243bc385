//! Features, limits, types and operators on numbers: the lowest part of `wasm_core`.
#![tactic(auto)]

pub mod features;
pub mod limits;
pub mod scalar_operator;
pub mod types;
