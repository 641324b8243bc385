//! The error that a validator returns when it refuses a module.

ghost use Rattle.std.specs.Prelude.{◌≡◌};
ghost use Rattle.wasmparser_error.specs.declared.error.ErrorKind.TheVariants as kinds;

use std::alloc::{AllocError, AllocFailed};
use thiserror::Error;
use wasm_core_read::malformed::Malformed;
use wasm_core_types::limits::Limit;

/// The reason why a module is refused. It is shown as its kind in lower case, without the case of a limit.
#[derive(Clone, Copy, Debug, PartialEq, Eq, Hash, Error)]
#[error("{}", self.name())]
pub enum ErrorKind {
    /// The bytes do not read.
    Malformed,
    /// The bytes read as something that breaks a rule of validity.
    Invalid,
    /// A count, a size, a depth or a sum passes a limit.
    Limit(Limit),
    /// A body has an operator outside the closed table of operators.
    Operator,
    /// A body's bytes or its typing are wrong otherwise.
    Body,
    /// The validator has no room for the module's types.
    Total,
    /// A call comes where its section can't stand.
    Order,
    /// The validator refused a module before.
    Failed,
    /// Memory ran out.
    Memory,
}

impl ErrorKind {
    ghost use Rattle.std.specs.Prelude.{◌≡◌};
    ghost use Rattle.wasmparser_error.specs.Error.{kind_name};

    /// Returns the kind in lower case.
    pub fn name(&self) -> &'static str
        ensures { result.now ≡ kind_name self.now }
    {
        match self {
            ErrorKind::Malformed => "malformed",
            ErrorKind::Invalid => "invalid",
            ErrorKind::Limit(_) => "limit",
            ErrorKind::Operator => "operator",
            ErrorKind::Body => "body",
            ErrorKind::Total => "total",
            ErrorKind::Order => "order",
            ErrorKind::Failed => "failed",
            ErrorKind::Memory => "memory",
        }
    }
}

/// A refusal, and where in the bytes it was found.
#[derive(Clone, Copy, Debug, PartialEq, Eq, Hash, Error)]
#[error("{kind} at {offset}")]
pub struct Error {
    /// A place in the bytes or ranges that were handed in, their ends included, or an offset that was handed in; 0 where a call was handed none.
    pub offset: u64,
    /// The reason for the refusal. Where the module has several faults, any of them may be named.
    pub kind: ErrorKind,
}

impl Error {
    ghost use Rattle.wasmparser_error.specs.Error.{placed};

    /// Creates the error of running out of memory at this offset.
    pub fn out_of_memory(offset: u64) -> Error
        ensures { result ≡ record { offset = offset; kind = kinds.Memory } }
    {
        Error {
            offset,
            kind: ErrorKind::Memory,
        }
    }

    /// Returns the error, at this offset if memory ran out. Any other stays where it is.
    pub fn placed(self, offset: u64) -> Error
        ensures { result ≡ record { offset = placed self.kind offset self.offset; kind = self.kind } }
    {
        match self.kind {
            ErrorKind::Memory => Error::out_of_memory(offset),
            _ => self,
        }
    }
}

impl From<Malformed> for Error {
    ghost from_gives = { λ m e. e ≡ record { offset = m.offset; kind = kinds.Malformed } };

    fn from(malformed: Malformed) -> Error {
        Error {
            offset: malformed.offset,
            kind: ErrorKind::Malformed,
        }
    }
}

impl From<AllocError> for Error {
    ghost from_gives = { λ _ e. e ≡ record { offset = 0; kind = kinds.Memory } };

    fn from(_error: AllocError) -> Error {
        Error::out_of_memory(0)
    }
}

impl<T: Drop> From<AllocFailed<T>> for Error {
    ghost from_gives = { λ _ e. e ≡ record { offset = 0; kind = kinds.Memory } };

    fn from(_error: AllocFailed<T>) -> Error {
        Error::out_of_memory(0)
    }
}
