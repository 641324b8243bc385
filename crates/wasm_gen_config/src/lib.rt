//! Configurations of the generator, read from TOML.
#![tactic(auto)]

pub mod bad_key;
pub mod config_error;
mod fields;
pub mod read;
mod values;
