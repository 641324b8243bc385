//! The items of a made module and its index spaces; constant expressions; and the steps of the generator that draw tables, memories and globals.
#![tactic(auto)]

pub mod bounds;
pub mod candidates;
pub mod code;
pub mod constant;
pub mod constants;
pub mod custom_section;
pub mod draws;
pub mod function_types;
pub mod globals;
pub mod growing;
pub mod index_spaces;
pub mod indexes;
pub mod item_lists;
pub mod items;
pub mod lists;
pub mod memories;
pub mod merged;
pub mod own_items;
pub mod segments;
pub mod tables;
pub mod value_types;
