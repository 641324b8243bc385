//! Tests of what is read from bytes, through the public calls of `wasmparser_readers` and of what stands on it: types and sections, items of sections,
//! imports, imports by their names, constant expressions and entries that hold them, operators and bodies, and modules as payloads.
#![tactic(auto)]

#[cfg(test)]
mod const_operators;
#[cfg(test)]
mod expressions;
#[cfg(test)]
mod function_body;
#[cfg(test)]
mod groups;
#[cfg(test)]
mod import_names;
#[cfg(test)]
mod imports;
#[cfg(test)]
mod initialised;
#[cfg(test)]
mod items;
#[cfg(test)]
mod operators;
#[cfg(test)]
mod payloads;
#[cfg(test)]
mod sections;
#[cfg(test)]
mod segments;
#[cfg(test)]
mod shown;
#[cfg(test)]
mod types;
