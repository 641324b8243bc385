//! The generator of WebAssembly modules and what it stands on, in one place, and a law that ties them together. The parts are
//! `wasm_smith_unstructured`, `wasm_smith_validity`, `wasm_smith_shapes`, `wasm_smith_config`, `wasm_smith_types`, `wasm_smith_definitions`,
//! `wasm_smith_externs`, `wasm_smith_sections`, `wasm_smith_module` and `wasm_smith_witness`.
#![tactic(auto)]

pub mod reach;

pub use wasm_smith_config::{config, error, instruction_kinds, memory_offset_choices};
pub use wasm_smith_definitions::{code, constant, custom_section, items, segments};
pub use wasm_smith_externs::names;
pub use wasm_smith_module::module;
pub use wasm_smith_shapes::{imports, shape};
pub use wasm_smith_unstructured::{text, unstructured};
pub use wasm_smith_validity::subtyping;
pub use wasm_smith_witness::{laws, witness};
