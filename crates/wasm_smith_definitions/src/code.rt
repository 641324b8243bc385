//! The bodies of functions.

use wasm_core_types::types::ValType;

/// The operators of a body, behind its locals.
#[derive(Debug, Drop)]
pub enum Instructions {
    /// The operator `unreachable`, and the end.
    Unreachable,
    /// Arbitrary bytes, which need not be operators. No end is written behind them.
    Raw(Vec<u8>),
}

/// The body of a function.
#[derive(Debug, Drop)]
pub struct Code {
    /// The types of its locals.
    pub locals: Vec<ValType>,
    /// Its operators.
    pub instructions: Instructions,
}
