//! Imports, constant expressions, the entries that hold these, and segments, read from a module's bytes: a part of `wasmparser`.
#![tactic(auto)]

pub mod const_expr;
pub mod const_operator;
pub mod data;
pub mod element;
pub mod global;
mod group;
pub mod import_item;
pub mod imports;
pub mod table;
