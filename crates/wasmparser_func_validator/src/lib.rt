//! Validation of function bodies operator by operator: a part of `wasmparser`.
#![tactic(auto)]

mod aggregates;
mod blocks;
mod body;
mod body_validator;
mod branches;
mod from_bytes;
pub mod func_to_validate;
pub mod func_validator;
mod gates;
mod lookups;
mod memories;
mod number_type;
mod numeric;
mod plain;
mod plain_classes;
mod plain_numbers;
mod plain_rows;
mod plain_scalars;
mod quick;
mod references;
mod refusal;
mod simple;
mod step;
mod tables;
mod type_list;
mod variables;
