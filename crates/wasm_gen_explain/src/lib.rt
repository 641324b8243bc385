//! Where in a module an error stands.
#![tactic(auto)]

mod bodies;
pub mod explain;
mod imported;
mod items;
pub mod laws;
mod lists;
mod names;
mod operators;
pub mod place;
mod sections;
pub mod text;
