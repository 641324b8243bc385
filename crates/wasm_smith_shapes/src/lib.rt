//! Shapes: the types, imports and exports that modules are asked to have.
#![tactic(auto)]

pub mod check;
mod clones;
pub mod copies;
mod distinct;
mod flat;
mod forms;
mod gates;
mod groups;
pub mod imports;
mod items;
pub mod laws;
mod matching;
pub mod shape;
