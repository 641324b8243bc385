//! Why a value is not written.

use std::alloc::{AllocError, AllocFailed};
use thiserror::Error;

/// Why a value is not written. It is shown as its name.
#[derive(Clone, Copy, Debug, PartialEq, Eq, Hash, Error)]
#[error("{}", self.name())]
pub enum EncodeError {
    /// Memory ran out.
    Memory,
    /// A count, a run or a length is past 4,294,967,295.
    TooLong,
}

impl EncodeError {
    ghost use Rattle.std.specs.Prelude.{◌≡◌};
    ghost use Rattle.wasm_core_write.specs.EncodeErrors.{error_name};

    /// Returns what went wrong, in lower case.
    pub fn name(&self) -> &'static str
        ensures { result.now ≡ error_name self.now }
    {
        match self {
            EncodeError::Memory => "out of memory",
            EncodeError::TooLong => "too long",
        }
    }
}

impl From<AllocError> for EncodeError {
    ghost use Rattle.std.specs.Prelude.{◌≡◌};
    ghost use Rattle.wasm_core_write.specs.declared.encode_error.EncodeError.TheVariants as errors;

    ghost from_gives = { λ _ e. e ≡ errors.Memory };

    fn from(_error: AllocError) -> EncodeError {
        EncodeError::Memory
    }
}

impl<T: Drop> From<AllocFailed<T>> for EncodeError {
    ghost use Rattle.std.specs.Prelude.{◌≡◌};
    ghost use Rattle.wasm_core_write.specs.declared.encode_error.EncodeError.TheVariants as errors;

    ghost from_gives = { λ _ e. e ≡ errors.Memory };

    fn from(_failed: AllocFailed<T>) -> EncodeError {
        EncodeError::Memory
    }
}
