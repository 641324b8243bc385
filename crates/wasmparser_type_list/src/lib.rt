//! Lists of types, in which equal types are one, and the types that ids stand for: a part of `wasmparser`.
#![tactic(auto)]

mod absolute;
pub mod laws;
mod matching;
pub mod maybe_owned;
pub mod read_counter;
pub mod rec_group_elements;
mod subtyping;
pub mod type_alloc;
pub mod type_data;
pub mod type_identifier;
pub mod type_info;
pub mod type_list;
