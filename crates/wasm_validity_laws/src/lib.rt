//! Laws of the rules on modules, and of the contexts of their bodies, which validators and generators cite.
#![tactic(auto)]

pub mod body_laws;
pub mod laws;
