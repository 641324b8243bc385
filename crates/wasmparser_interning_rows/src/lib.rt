//! Rows of tests about lists of types: a list whose calls may be made with anything, and steps on it in words; and about a module's groups, a section whose groups
//! may be anything.
#![tactic(auto)]

pub mod checked_list;
pub mod checked_section;
mod module_group;
pub mod new_list;
pub mod steps;
pub mod type_space;
mod within;
