//! Worked examples of the rules on sections, of bodies operator by operator, and of valid modules.
//!
//! The functions do nothing: their contracts evaluate definitions of `wasm_validity` and of `wasm_bodies_laws` (`Machine`) on given values.
#![tactic(auto)]

pub mod body_examples;
pub mod cause_examples;
pub mod constant_examples;
pub mod declared_examples;
pub mod element_examples;
pub mod import_examples;
pub mod item_examples;
pub mod machine_examples;
pub mod module_examples;
pub mod rule_examples;
pub mod subtype_examples;
pub mod valid_module_examples;
pub mod validity_examples;
