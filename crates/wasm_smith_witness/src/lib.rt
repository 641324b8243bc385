//! Which lists of groups and functions the generator can be asked for, and seeds that make it give them.
#![tactic(auto)]

mod asking;
mod functions;
pub mod laws;
mod membership;
pub mod witness;
mod words;
