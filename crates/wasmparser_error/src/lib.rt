//! Refusals of modules: the part of `wasmparser` that crates name which answer them and don't parse.
#![tactic(auto)]

pub mod error;
