//! The generator's configuration, its source of values, and its errors.

pub use wasm_smith::config::Config;
pub use wasm_smith::error::{EmptyChoose, Error, NotEnoughData};
pub use wasm_smith::imports::{ImportEntry, ImportItem};
pub use wasm_smith::shape::{Shape, ShapeExport, ShapeUse};
pub use wasm_smith::unstructured::Unstructured;
