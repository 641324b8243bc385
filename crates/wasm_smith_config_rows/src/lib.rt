//! Rows of tests about configurations, which are settings in words, and about shapes.
#![tactic(auto)]

pub mod settings;
pub mod shaped;
pub mod shapes;
