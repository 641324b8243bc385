//! Rows of tests about validators of bodies and what is known of a module: modules as lists, validators by what they ask for, operators from their bytes, what
//! tells that a validator has failed, and sections in words with what they are answered.
#![tactic(auto)]

pub mod example;
pub mod failures;
pub mod judged;
pub mod listed_resources;
pub mod listed_types;
pub mod running;
mod subtyping;
pub mod validators;
