//! Errors of commands.

use thiserror::Error;
use wasm_gen_sessions::error::GenerateError;

/// The reason why a run ends with no answer.
#[derive(Clone, Copy, Debug, PartialEq, Eq, Error)]
pub enum RunError {
    /// A read failed, or the input had not ended when the last turn was over.
    #[error("cannot read")]
    Read,
    /// A write failed, or took no byte.
    #[error("cannot write")]
    Write,
    /// The input has more bytes than are read.
    #[error("input too long")]
    TooLong,
    /// Memory ran out.
    #[error("out of memory")]
    Memory,
    /// No module was generated.
    #[error(transparent)]
    Generate(GenerateError),
}

/// Where generating ran out of memory, the run did.
impl From<GenerateError> for RunError {
    ghost use Rattle.std.specs.Prelude.{◌≡◌};
    ghost use Rattle.wasm_gen_program.specs.RunGenerate.{run_error};

    ghost from_gives = { λ cause e. e ≡ run_error cause };

    fn from(cause: GenerateError) -> RunError {
        match cause {
            GenerateError::Memory => RunError::Memory,
            _ => RunError::Generate(cause),
        }
    }
}
