//! Errors of generating.

ghost use Rattle.std.specs.Prelude.{◌≡◌};
ghost use Rattle.wasm_gen_sessions.specs.Generate.{told};

use std::alloc::AllocError;
use thiserror::Error;
use wasm_core::limits::Limit;
use wasm_smith::error::Error as SmithError;

/// Why no module is generated.
#[derive(Clone, Copy, Debug, PartialEq, Eq, Error)]
pub enum GenerateError {
    /// The configuration has a value that is not allowed at this key.
    #[error("config {0}")]
    Config(&'static str),
    /// A shape is not allowed; its part is `groups`, `imports`, `exports`, or `together` for two shapes that aren't allowed beside each other.
    #[error("shape {0}")]
    Shape(&'static str),
    /// Fewer items than the configuration's minimum can be made, or `module_shape` has fewer types.
    #[error("minimum")]
    Minimum,
    /// A shape has a table or a global of references that can't be null, and there is no constant of its type.
    #[error("empty choice")]
    EmptyChoice,
    /// The types of the module's imports and exports are too large together.
    #[error("type size")]
    TypeSize,
    /// The module would pass this limit.
    #[error("limit {0}")]
    Limit(Limit),
    /// Memory ran out.
    #[error("out of memory")]
    Memory,
}

impl From<AllocError> for GenerateError {
    ghost use Rattle.std.specs.Prelude.{◌≡◌};
    ghost use Rattle.wasm_gen_sessions.specs.declared.error.GenerateError.TheVariants.{Memory};

    ghost from_gives = { λ _ e. e ≡ Memory };

    fn from(_e: AllocError) -> GenerateError {
        GenerateError::Memory
    }
}

impl From<SmithError> for GenerateError {
    ghost from_gives = { λ error given. given ≡ told error };

    fn from(error: SmithError) -> GenerateError {
        match error {
            SmithError::IncorrectFormat => GenerateError::Minimum,
            SmithError::EmptyChoose | SmithError::NotEnoughData => GenerateError::EmptyChoice,
            SmithError::BadConfig(field) => GenerateError::Config(field),
            SmithError::BadShape(part) => GenerateError::Shape(part),
            SmithError::TypeSize => GenerateError::TypeSize,
            SmithError::Memory => GenerateError::Memory,
            SmithError::TooLong => GenerateError::Limit(Limit::Length),
        }
    }
}
