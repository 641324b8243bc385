//! Custom sections: any, and those whose contents tools have agreed on.
#![tactic(auto)]

pub mod branch_hints;
pub mod core_dump;
pub mod core_dump_instances;
pub mod core_dump_stack;
pub mod custom_section;
mod framing;
pub mod linking;
pub mod name_map;
pub mod name_section;
pub mod producers;
mod subsections;
pub mod symbol_table;
