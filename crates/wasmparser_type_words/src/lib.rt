//! A validator's types as fields of a test's rows.
#![tactic(auto)]

pub mod names;
pub mod types;
