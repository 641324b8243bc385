//! Laws of bodies, which validators cite.
#![tactic(auto)]

pub mod laws;
pub mod reference_laws;
