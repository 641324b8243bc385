//! Laws of the encoder's sections that rest on the reading of the binary format.
#![tactic(auto)]

pub mod laws;
