//! The specification up to modules as bytes: types, the binary format, subtyping, features and limits. Valid modules are those of `wasm_validity`.
//!
//! Everything that this crate says stands in `specs/`. The functions of the modules below do nothing: their
//! contracts are theorems on the definitions.
#![tactic(auto)]

pub mod laws;
pub mod number_laws;
pub mod subtyping_laws;
pub mod type_laws;
