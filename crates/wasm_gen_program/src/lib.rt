//! The program's commands over readers and writers, and its command line: a part of `wasm_gen`.
#![tactic(auto)]

pub mod arguments;
pub mod asked;
pub mod check_inputs;
pub mod command;
pub mod config_file;
pub mod device;
pub mod error;
pub mod explanation;
pub mod report;
pub mod run;
pub mod status;
pub mod transfer;
pub mod verdict;
