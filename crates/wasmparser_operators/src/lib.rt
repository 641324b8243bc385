//! Operators of bodies, read from a module's bytes one by one: a part of `wasmparser`.
#![tactic(auto)]

mod accesses;
pub mod br_table;
mod families;
mod first_bytes;
pub mod immediates;
pub mod laws;
pub mod operator;
mod operator_codes;
pub mod operators_reader;
mod other_codes;
mod scalars;
mod second_codes;
pub mod select_types;
