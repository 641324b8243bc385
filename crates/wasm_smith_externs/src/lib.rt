//! The steps of the generator that draw imports, tags, functions, exports and the start function.
#![tactic(auto)]

mod all_exports;
pub mod bounds;
mod candidates;
pub mod entries;
pub mod exports;
mod fitting;
pub mod functions;
pub mod import_sizes;
pub mod importer;
pub mod imports;
pub mod names;
pub mod progress;
pub mod shape_exports;
pub mod shape_imports;
pub mod start;
pub mod tags;
