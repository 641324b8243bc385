//! The types of encoder and generator as fields of a test's rows.
#![tactic(auto)]

pub mod types;
