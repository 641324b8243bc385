//! Why nothing is drawn, and why no module is made.

use std::alloc::AllocError;
use thiserror::Error;

/// There is nothing to choose from.
#[derive(Clone, Copy, Debug, PartialEq, Eq, Hash, Error)]
#[error("nothing to choose from")]
pub struct EmptyChoose;

/// Fewer bytes are left than are asked for.
#[derive(Clone, Copy, Debug, PartialEq, Eq, Hash, Error)]
#[error("not enough data")]
pub struct NotEnoughData;

/// Why no module is made.
#[derive(Clone, Copy, Debug, PartialEq, Eq, Error)]
pub enum Error {
    /// Fewer items than the configuration's minimum can be made.
    #[error("incorrect format")]
    IncorrectFormat,
    /// There is nothing to choose from: in a module, no value for a table or a global that a shape asks for.
    #[error("nothing to choose from")]
    EmptyChoose,
    /// Fewer bytes are left than are asked for.
    #[error("not enough data")]
    NotEnoughData,
    /// The configuration has a value that is not allowed in this field.
    #[error("bad configuration: {0}")]
    BadConfig(&'static str),
    /// No module has what the shapes ask for: `groups`, `imports` or `exports` of one shape, or two shapes `together`.
    #[error("bad shape: {0}")]
    BadShape(&'static str),
    /// The types of the module's imports and exports are too large together.
    #[error("type size")]
    TypeSize,
    /// Memory ran out.
    #[error("out of memory")]
    Memory,
    /// A count or a size is past what the format can state.
    #[error("too long")]
    TooLong,
}

impl From<AllocError> for Error {
    ghost use Rattle.std.specs.Prelude.{◌≡◌};
    ghost use Rattle.wasm_smith_unstructured.specs.declared.error.Error.TheVariants.{Memory};

    ghost from_gives = { λ _ e. e ≡ Memory };

    fn from(_e: AllocError) -> Error {
        Error::Memory
    }
}

impl From<EmptyChoose> for Error {
    ghost use Rattle.std.specs.Prelude.{◌≡◌};
    ghost use Rattle.wasm_smith_unstructured.specs.declared.error.Error.TheVariants as errors;

    ghost from_gives = { λ _ e. e ≡ errors.EmptyChoose };

    fn from(_e: EmptyChoose) -> Error {
        Error::EmptyChoose
    }
}

impl From<NotEnoughData> for Error {
    ghost use Rattle.std.specs.Prelude.{◌≡◌};
    ghost use Rattle.wasm_smith_unstructured.specs.declared.error.Error.TheVariants as errors;

    ghost from_gives = { λ _ e. e ≡ errors.NotEnoughData };

    fn from(_e: NotEnoughData) -> Error {
        Error::NotEnoughData
    }
}
