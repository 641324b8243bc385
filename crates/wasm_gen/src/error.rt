//! Why nothing is generated, and why a command gives no verdict.

pub use wasm_gen_program::error::RunError;
pub use wasm_gen_sessions::error::GenerateError;
