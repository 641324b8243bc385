//! Constant expressions for the encoder (Core Specification 3.0, Binary Format, "Expressions").

ghost use Rattle.std.specs.Prelude.{◌≡◌, ◌++◌, ◌∷◌, [], map, IfOk, IfErr};
ghost use Rattle.wasm_smith_definitions.specs.Items.{expression, on_i32, on_i64};
ghost use Rattle.wasm_smith_sections.specs.Contents.{expression_bytes, operator_bytes};
ghost use Rattle.wasm_spec.specs.Constants.{I32Const, I64Const};

use std::alloc::Global;
use wasm_core_write::encode_error::EncodeError;
use wasm_encoder_bodies::const_expr::ConstExpr;
use wasm_encoder_instructions::ieee::{Ieee32, Ieee64};
use wasm_smith_definitions::constant::{Constant, Operation};

/// Returns the encoder's expression of a constant.
///
/// # Errors
/// `Memory` alone.
pub fn const_expr(alloc: Global, constant: &Constant) -> Result<ConstExpr, EncodeError>
    ensures written { IfOk result (λ e. e ≡ expression_bytes (expression constant.now)) }
    ensures memory_alone { IfErr result (λ e. e ≡ EncodeError.Memory) }
{
    match *constant {
        Constant::I32(n) => ConstExpr::i32_const(alloc, n),
        Constant::I64(n) => ConstExpr::i64_const(alloc, n),
        Constant::F32(bits) => ConstExpr::f32_const(alloc, Ieee32::new(bits)),
        Constant::F64(bits) => ConstExpr::f64_const(alloc, Ieee64::new(bits)),
        Constant::V128(vector) => ConstExpr::v128_const(alloc, vector),
        Constant::Null(heap) => ConstExpr::ref_null(alloc, heap),
        Constant::Function(function) => ConstExpr::ref_func(alloc, function),
        Constant::Global(global) => ConstExpr::global_get(alloc, global),
        Constant::I32Operation(operation, a, b) => i32_operation(alloc, operation, a, b),
        Constant::I64Operation(operation, a, b) => i64_operation(alloc, operation, a, b),
    }
}

/// Returns the encoder's expressions of constants.
///
/// # Errors
/// `Memory` alone.
pub fn const_exprs(alloc: Global, constants: &[Constant]) -> Result<Vec<ConstExpr>, EncodeError>
    ensures written { IfOk result (λ all. all.items ≡ map expression_bytes (map expression constants.now)) }
    ensures memory_alone { IfErr result (λ e. e ≡ EncodeError.Memory) }
{
    let mut expressions = Vec::new(alloc);
    for constant in constants {
        expressions.push(const_expr(alloc, constant)?)?;
    }
    Ok(expressions)
}

// Returns an operation on two integers of 32 bits.
#[tactic(auto, using(crate::proofs::ItemLaws::joined_three))]
fn i32_operation(
    alloc: Global,
    operation: Operation,
    a: i32,
    b: i32,
) -> Result<ConstExpr, EncodeError>
    ensures written { IfOk result (λ e. e ≡ expression_bytes (I32Const a ∷ I32Const b ∷ on_i32 operation ∷ [])) }
    ensures memory_alone { IfErr result (λ e. e ≡ EncodeError.Memory) }
{
    let first = ConstExpr::i32_const(alloc, a)?;
    let operands = first.with_i32_const(b)?;
    let done = with_i32(operands, operation)?;
    Ok(done)
}

// Returns an operation on two integers of 64 bits.
#[tactic(auto, using(crate::proofs::ItemLaws::joined_three))]
fn i64_operation(
    alloc: Global,
    operation: Operation,
    a: i64,
    b: i64,
) -> Result<ConstExpr, EncodeError>
    ensures written { IfOk result (λ e. e ≡ expression_bytes (I64Const a ∷ I64Const b ∷ on_i64 operation ∷ [])) }
    ensures memory_alone { IfErr result (λ e. e ≡ EncodeError.Memory) }
{
    let first = ConstExpr::i64_const(alloc, a)?;
    let operands = first.with_i64_const(b)?;
    let done = with_i64(operands, operation)?;
    Ok(done)
}

// Adds an operator on integers of 32 bits after its operands.
fn with_i32(operands: ConstExpr, operation: Operation) -> Result<ConstExpr, EncodeError>
    ensures written { IfOk result (λ e. e ≡ operands ++ operator_bytes (on_i32 operation)) }
    ensures memory_alone { IfErr result (λ e. e ≡ EncodeError.Memory) }
{
    match operation {
        Operation::Add => operands.with_i32_add(),
        Operation::Sub => operands.with_i32_sub(),
        Operation::Mul => operands.with_i32_mul(),
    }
}

// Adds an operator on integers of 64 bits after its operands.
fn with_i64(operands: ConstExpr, operation: Operation) -> Result<ConstExpr, EncodeError>
    ensures written { IfOk result (λ e. e ≡ operands ++ operator_bytes (on_i64 operation)) }
    ensures memory_alone { IfErr result (λ e. e ≡ EncodeError.Memory) }
{
    match operation {
        Operation::Add => operands.with_i64_add(),
        Operation::Sub => operands.with_i64_sub(),
        Operation::Mul => operands.with_i64_mul(),
    }
}
