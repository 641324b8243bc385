//! Recursive groups by the rules of validity, over a list of types: a part of `wasmparser`.
#![tactic(auto)]

pub mod intern;
mod kinds;
pub mod laws;
mod rules;
