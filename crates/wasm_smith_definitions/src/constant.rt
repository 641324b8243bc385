//! Constant expressions (Core Specification 3.0, Validation, Instructions, "Constant Expressions").

use wasm_core_types::types::HeapType;

/// An operation on two integers.
#[derive(Clone, Copy, Debug)]
pub enum Operation {
    /// Their sum.
    Add,
    /// Their difference.
    Sub,
    /// Their product.
    Mul,
}

/// A constant expression: an operator that gives a value by itself, or two integers and an operation on them.
#[derive(Clone, Copy, Debug)]
pub enum Constant {
    /// `i32.const`.
    I32(i32),
    /// `i64.const`.
    I64(i64),
    /// `f32.const`, by its bits.
    F32(u32),
    /// `f64.const`, by its bits.
    F64(u64),
    /// `v128.const`.
    V128(i128),
    /// `ref.null`.
    Null(HeapType),
    /// `ref.func` of a function index.
    Function(u32),
    /// `global.get` of a global index.
    Global(u32),
    /// Two `i32.const` and an operation.
    I32Operation(Operation, i32, i32),
    /// Two `i64.const` and an operation.
    I64Operation(Operation, i64, i64),
}
