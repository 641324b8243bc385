//! Why no module is made, and why a text isn't read.

use thiserror::Error;
pub use wasm_smith_unstructured::error::{EmptyChoose, Error, NotEnoughData};

/// The text can't be read.
#[derive(Clone, Copy, Debug, PartialEq, Eq, Error)]
#[error("bad text")]
pub struct BadText;
