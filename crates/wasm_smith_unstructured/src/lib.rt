//! The bytes that a generator draws from: each draw is an equation on the list of bytes that is left.
#![tactic(auto)]

pub mod error;
pub mod names;
pub mod number;
pub mod text;
pub mod unstructured;
