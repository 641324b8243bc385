//! Bodies: their operators, how these are written, and which bodies are well typed.
//!
//! Everything that this crate says stands in `specs/`.
#![tactic(auto)]

pub mod laws;
