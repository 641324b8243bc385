//! Tests whose rows are data: a table is one string literal, and each of its lines is a row. A row's fields are set apart by `|`; empty lines, and
//! those that begin with `//`, are no rows.
#![tactic(auto)]

pub mod fields;
pub mod limits;
mod numbered;
pub mod rows;
pub mod shown;
pub mod values;
