//! Tests of validators of bodies, with the stacks and the locals that they keep, and of what a validator knows of a module, through public calls; and of what
//! modules as lists answer to bodies, which the tests of validators of bodies stand on.
#![tactic(auto)]

#[cfg(test)]
mod cases;
#[cfg(test)]
mod codes;
#[cfg(test)]
mod declared_functions;
#[cfg(test)]
mod from_bytes;
#[cfg(test)]
mod import_sections;
#[cfg(test)]
mod letters;
#[cfg(test)]
mod listed_resources;
#[cfg(test)]
mod locals;
#[cfg(test)]
mod more_features;
#[cfg(test)]
mod one_local;
#[cfg(test)]
mod others;
#[cfg(test)]
mod refusals;
#[cfg(test)]
mod resources;
#[cfg(test)]
mod sections;
#[cfg(test)]
mod sizes;
#[cfg(test)]
mod stack_calls;
#[cfg(test)]
mod stack_sizes;
#[cfg(test)]
mod stacks;
#[cfg(test)]
mod states;
#[cfg(test)]
mod steps;
