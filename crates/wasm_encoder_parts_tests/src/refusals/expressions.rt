//! Bodies and expressions.

use crate::refusals::refused::{is_written, takes_each};
use crate::{const_expr, functions};
use std::alloc::Global;
use std::test::Fail;
use wasm_core_types::types::ValType;
use wasm_core_write::encode::Encode;
use wasm_core_write::encode_error::EncodeError;
use wasm_encoder_bodies::const_expr::ConstExpr;
use wasm_encoder_bodies::function::Function;
use wasm_encoder_instructions::instruction::Instruction;
use wasm_test_rows::fields::two_fields;
use wasm_test_rows::rows::check_rows;

fn body(alloc: Global) -> Result<Function, EncodeError> {
    match Function::new_with_locals_types(alloc, [ValType::I32, ValType::I64]) {
        Ok(body) => Ok(body),
        Err(_) => Function::new_with_locals_types(alloc, [ValType::I32, ValType::I64]),
    }
}

// Appends to a body in one of its ways.
fn append(_alloc: Global, body: &mut Function, number: u32) -> Result<(), EncodeError> {
    match number % 5 {
        0 => body.push(&Instruction::I32Const(1)),
        1 => body.push_raw(&[0x41, 0x01]),
        2 => body.instructions().push(&Instruction::I32Const(1)),
        3 => {
            body.instruction(&Instruction::Drop)?;
            Ok(())
        }
        _ => {
            body.raw(&[0x1a])?;
            Ok(())
        }
    }
}

// A refused instruction leaves the body as it was.
fn instructions(alloc: Global) -> Option<bool> {
    let mut body = body(alloc).ok()?;
    let are_taken = takes_each(alloc, &mut body, 40, append);
    Some(are_taken && is_written(alloc, &body))
}

#[test]
fn bodies(rt: HostRuntime) {
    assert!(rt; instructions(rt.alloc()) == Some(true));
}

fn new_body(alloc: Global, name: &str) -> Result<Function, EncodeError> {
    match functions::made(alloc, name) {
        Err(EncodeError::Memory) => functions::made(alloc, name),
        answer => answer,
    }
}

fn body_row(alloc: Global, row: &str) -> Option<bool> {
    let (name, _) = two_fields(row)?;
    let body = new_body(alloc, name).ok()?;
    Some(is_written(alloc, &body))
}

#[test]
fn new_bodies(rt: HostRuntime) -> Result<(), Fail> {
    Ok(check_rows(rt.alloc(), functions::WRITTEN, 10, body_row)?)
}

fn expression(alloc: Global, name: &str) -> Result<ConstExpr, EncodeError> {
    match const_expr::made(alloc, name) {
        Err(EncodeError::Memory) => const_expr::made(alloc, name),
        answer => answer,
    }
}

// Checks that an expression is copied, at the second time where memory runs out at the first.
fn is_copied(expression: &ConstExpr) -> bool {
    match expression.clone() {
        Ok(copy) => copy.encoded_len() == expression.encoded_len(),
        Err(_) => expression.clone().is_ok(),
    }
}

fn expression_row(alloc: Global, row: &str) -> Option<bool> {
    let (name, _) = two_fields(row)?;
    let expression = expression(alloc, name).ok()?;
    Some(is_written(alloc, &expression) && is_copied(&expression))
}

#[test]
fn constant_expressions(rt: HostRuntime) -> Result<(), Fail> {
    Ok(check_rows(rt.alloc(), const_expr::WRITTEN, 17, expression_row)?)
}
