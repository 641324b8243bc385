//! What the encoder, the parser and the generator stand on: features, limits, types, and reading and writing the binary format, in one place, and
//! laws that tie them together. The parts are `wasm_core_types`, `wasm_core_write` and `wasm_core_read`.
#![tactic(auto)]

pub mod laws;
pub mod row_examples;

pub use wasm_core_read::{binary_reader, malformed};
pub use wasm_core_types::{features, limits, types};
pub use wasm_core_write::{
    encode, encode_error, encoding, leb128, module, rec_group, type_encodings, type_section,
};
