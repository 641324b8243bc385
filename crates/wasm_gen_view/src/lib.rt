//! Views of modules: what a module has, with each type named by its group and its place there, so that modules with equal index spaces have equal views.
#![tactic(auto)]

mod among;
mod group_numbers;
mod groups;
mod imported;
mod item_text;
mod item_types;
mod items;
mod known_exports;
mod known_group;
mod known_hash;
mod known_items;
mod known_references;
mod known_types;
pub mod laws;
mod lines;
mod made_exports;
mod made_items;
mod made_types;
pub mod module_view;
mod name_text;
mod own_items;
mod put;
mod references;
pub mod text;
mod type_hash;
mod type_numbers;
mod type_text;
pub mod types;
pub mod types_text;
pub mod types_view;
pub mod view;
mod written_types;
