//! Tests of `wasmparser`, through its public calls. The modules of `large_bodies` are validated in time that grows as they do; without a proof those tests run
//! slowly: by `rt try --test --seconds 600`.
#![tactic(auto)]

#[cfg(test)]
mod answers;
#[cfg(test)]
mod bodies;
#[cfg(test)]
mod errors;
#[cfg(test)]
mod judging;
#[cfg(test)]
mod large_bodies;
#[cfg(test)]
mod new_validator;
#[cfg(test)]
mod operators;
#[cfg(test)]
mod print_sections;
#[cfg(test)]
mod refusals;
#[cfg(test)]
mod spaces;
