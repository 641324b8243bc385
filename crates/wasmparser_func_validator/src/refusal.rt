//! The reason why an operator is refused.

ghost use Rattle.std.specs.Prelude.{◌≡◌};
ghost use Rattle.wasmparser_func_validator.specs.declared.refusal.Refusal.TheVariants as refusals;

use std::alloc::AllocError;
use wasmparser_error::error::{Error, ErrorKind};

// The reason why an operator is refused.
#[derive(Clone, Copy, Debug, PartialEq, Eq)]
pub(crate) enum Refusal {
    // It may not stand where it does.
    Invalid,
    // Memory ran out.
    Memory,
}

impl From<AllocError> for Refusal {
    ghost from_gives = { λ _ e. e ≡ refusals.Memory };

    fn from(_error: AllocError) -> Refusal {
        Refusal::Memory
    }
}

impl Refusal {
    ghost use Rattle.wasmparser_func_validator.specs.Refusals.{refused_at};

    // Returns the refusal of an operator at this place.
    pub(crate) fn at(self, offset: u64) -> Error
        ensures { result ≡ refused_at self offset }
    {
        match self {
            Refusal::Invalid => Error {
                offset,
                kind: ErrorKind::Body,
            },
            Refusal::Memory => Error::out_of_memory(offset),
        }
    }
}
