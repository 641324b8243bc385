//! Sessions that validate modules, modules made of seeds, seeds for lists of types and functions, and laws that tie them together: a part of `wasm_gen`.
#![tactic(auto)]

pub mod error;
pub mod generate;
pub mod judge;
pub mod laws;
pub mod made_laws;
pub mod seed;
pub mod session;
pub mod smith;
