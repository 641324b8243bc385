//! The types of a module that is made.
#![tactic(auto)]

pub mod bounds;
mod candidates;
pub mod composite_types;
pub mod error;
mod fitting;
pub mod given;
pub mod growing;
pub mod laws;
pub mod narrowing;
pub mod shifts;
pub mod types;
pub mod value_types;
