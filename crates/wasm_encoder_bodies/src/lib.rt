//! Constant expressions and function bodies, built as their bytes, and a call for each instruction that has immediates: a part of `wasm_encoder`.
#![tactic(auto)]

mod aggregates;
mod calls;
pub mod const_expr;
mod const_numbers;
mod control;
mod encodings;
pub mod function;
pub mod function_laws;
pub mod instruction_sink;
pub mod laws;
mod loads;
mod local_runs;
mod memories;
mod numbers;
mod references;
mod stores;
mod tables;
mod variables;
