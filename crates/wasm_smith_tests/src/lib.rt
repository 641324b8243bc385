//! Tests of `wasm_smith`, and of views of its modules, through public calls.
#![tactic(auto)]

#[cfg(test)]
mod check;
#[cfg(test)]
mod config;
#[cfg(test)]
mod errors;
#[cfg(test)]
mod group_types;
#[cfg(test)]
mod module;
#[cfg(test)]
mod names;
#[cfg(test)]
mod refusals;
#[cfg(test)]
mod shaped;
#[cfg(test)]
mod shapes;
#[cfg(test)]
mod unstructured;
#[cfg(test)]
mod views;
#[cfg(test)]
mod witness;
