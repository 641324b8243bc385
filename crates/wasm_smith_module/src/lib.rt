//! The module generator: all steps together, those of segments and locals among them, and the limits that a made module can pass.
#![tactic(auto)]

pub mod choices;
mod code;
mod contents;
mod counts;
mod custom_sections;
pub mod data_segments;
mod definitions;
pub mod element_segments;
mod front;
mod imported;
mod imports;
mod items;
pub mod laws;
pub mod limit_laws;
pub mod module;
mod names;
pub mod offsets;
mod own_items;
pub mod passed_limit;
mod shapes;
mod sizes;
mod uses;
