//! The validator's items that users of a session need.

pub use wasmparser_error::error::{Error, ErrorKind};
pub use wasmparser_validator::core_imports::CoreImports;
pub use wasmparser_validator::types::{CoreExports, Types, TypesRef};
pub use wasmparser_validator::validator_id::ValidatorId;
