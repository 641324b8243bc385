//! Instructions of function bodies and of constant expressions, as they are written: a part of `wasm_encoder`.
#![tactic(auto)]

pub mod alone;
pub mod block_type;
mod code;
pub mod examples;
pub mod ieee;
mod immediates;
pub mod instruction;
pub mod laws;
pub mod mem_arg;
mod parts;
mod scalars;
pub mod small_instructions;
