//! Worked examples of types, the binary format, features, limits, operators and bodies.
//!
//! The functions do nothing: their contracts evaluate definitions of `wasm_spec` and `wasm_bodies` on given values.
#![tactic(auto)]

pub mod block_examples;
pub mod gate_examples;
pub mod grammar_examples;
pub mod matching_examples;
pub mod number_examples;
pub mod operand_examples;
pub mod operator_examples;
pub mod operator_grammar_examples;
pub mod section_examples;
pub mod table_examples;
pub mod type_encoding_examples;
pub mod type_examples;
