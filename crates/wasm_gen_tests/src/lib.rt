//! Tests of the words of `wasm_gen`'s command line, of its commands over readers and writers, and of the modules that are made of seeds with
//! their views, and of the seeds for lists, through public calls.
#![tactic(auto)]

#[cfg(test)]
mod answers;
#[cfg(test)]
mod check_inputs;
#[cfg(test)]
mod drawn_groups;
#[cfg(test)]
mod drawn_modules;
#[cfg(test)]
mod drawn_types;
#[cfg(test)]
mod drawn_views;
#[cfg(test)]
mod errors;
#[cfg(test)]
mod fakes;
#[cfg(test)]
mod generated;
#[cfg(test)]
mod lists;
#[cfg(test)]
mod marks;
#[cfg(test)]
mod narrowings;
#[cfg(test)]
mod numbers;
#[cfg(test)]
mod parts;
#[cfg(test)]
mod references;
#[cfg(test)]
mod refusals;
#[cfg(test)]
mod run_check;
#[cfg(test)]
mod run_generate;
#[cfg(test)]
mod run_report;
#[cfg(test)]
mod same_types;
#[cfg(test)]
mod seeds;
#[cfg(test)]
mod shaped;
#[cfg(test)]
mod shaped_modules;
#[cfg(test)]
mod special;
#[cfg(test)]
mod status;
#[cfg(test)]
mod transfer;
#[cfg(test)]
mod true_to_shape;
#[cfg(test)]
mod words;
