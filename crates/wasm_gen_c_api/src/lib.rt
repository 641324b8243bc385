//! Judging modules and making them of seeds, as calls over slices, numbers and a record: what the static library `wasm_gen_c` exports.
#![tactic(auto)]

pub mod buffers;
pub mod check;
pub mod codes;
pub mod generate;
pub mod laws;
pub mod report;
pub mod verdict;
