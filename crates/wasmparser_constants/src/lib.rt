//! Typing of constant expressions: a part of `wasmparser`.
#![tactic(auto)]

mod aggregates;
pub mod expression;
pub mod functions;
mod lookups;
pub mod operands;
pub mod scope;
mod steps;
pub mod written_types;
