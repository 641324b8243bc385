//! The validator: which bytes are a valid module, and what such a module shows.
#![tactic(auto)]

pub mod core_imports;
pub mod examples;
pub mod laws;
mod payload;
pub mod resources;
pub mod spaces;
pub mod types;
pub mod valid_payload;
mod validate_all;
mod validate_bodies;
pub mod validator;
pub mod validator_id;
mod written;
