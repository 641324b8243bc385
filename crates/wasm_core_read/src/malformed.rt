//! Why bytes are refused.

use thiserror::Error;

/// The bytes do not read.
#[derive(Clone, Copy, Debug, PartialEq, Eq, Hash, Error)]
#[error("malformed at {offset}")]
pub struct Malformed {
    /// The place of the fault, counted as the reader counts its positions.
    pub offset: u64,
}
