//! The configuration of a generator, and the reasons why it makes no module.
#![tactic(auto)]

mod arbitrary;
mod check;
mod clones;
pub mod config;
pub mod error;
pub mod instruction_kinds;
pub mod memory_offset_choices;
