//! Why the types of a module aren't made.

use std::alloc::AllocError;
use thiserror::Error;

/// The reason why the types of a module aren't made.
#[derive(Clone, Copy, Debug, Error)]
pub enum TypesError {
    /// Memory ran out.
    #[error("out of memory")]
    Memory,
    /// More types are asked for than there may be.
    #[error("too many types")]
    TooMany,
    /// The shape of the module has fewer types than there have to be.
    #[error("too few types")]
    TooFew,
}

impl From<AllocError> for TypesError {
    ghost use Rattle.std.specs.Prelude.{◌≡◌};
    ghost use Rattle.wasm_smith_types.specs.declared.error.TypesError.TheVariants.{Memory};

    ghost from_gives = { λ _ e. e ≡ Memory };

    fn from(_e: AllocError) -> TypesError {
        TypesError::Memory
    }
}
