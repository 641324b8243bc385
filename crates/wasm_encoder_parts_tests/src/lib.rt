//! Tests of the encoder's instructions, constant expressions, function bodies and sections, custom ones too, but those on types, through their public calls.
#![tactic(auto)]

#[cfg(test)]
mod code;
#[cfg(test)]
mod const_expr;
#[cfg(test)]
mod custom;
#[cfg(test)]
mod data;
#[cfg(test)]
mod dumps;
#[cfg(test)]
mod elements;
#[cfg(test)]
mod entries;
#[cfg(test)]
mod exports;
#[cfg(test)]
mod expressions;
#[cfg(test)]
mod functions;
#[cfg(test)]
mod globals;
#[cfg(test)]
mod hints;
#[cfg(test)]
mod imports;
#[cfg(test)]
mod indexes;
#[cfg(test)]
mod initialised_tables;
#[cfg(test)]
mod instructions;
#[cfg(test)]
mod large;
#[cfg(test)]
mod linking;
#[cfg(test)]
mod memories;
#[cfg(test)]
mod names;
#[cfg(test)]
mod producers;
#[cfg(test)]
mod refusals;
#[cfg(test)]
mod scalars;
#[cfg(test)]
mod sinks;
#[cfg(test)]
mod stacks;
#[cfg(test)]
mod tables;
#[cfg(test)]
mod written;
