//! Tests of `wasm_core`: errors, numbers written and read, sections and modules.
#![tactic(auto)]

#[cfg(test)]
mod encode_types;
#[cfg(test)]
mod errors;
#[cfg(test)]
mod module;
#[cfg(test)]
mod numbers;
#[cfg(test)]
mod read_numbers;
#[cfg(test)]
mod refusals;
#[cfg(test)]
mod type_section;
#[cfg(test)]
mod widths;
