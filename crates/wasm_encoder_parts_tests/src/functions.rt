//! Function bodies, byte for byte.

use std::alloc::Global;
use std::iter::repeat_n;
use std::test::Fail;
use wasm_core_types::types::{AbstractHeapType, HeapType, RefType, ValType};
use wasm_core_write::encode::Encode;
use wasm_core_write::encode_error::EncodeError;
use wasm_encoder_bodies::function::Function;
use wasm_encoder_instructions::instruction::Instruction;
use wasm_test_rows::fields::two_fields;
use wasm_test_rows::rows::check_rows;
use wasm_test_rows::values::bytes_of;

/// How bodies are made, and what is written of them.
pub const WRITTEN: &str = "
    empty | 01 00
    runs | 08 03 01 7f 00 7e 80 01 7d
    joined | 05 02 02 7f 01 7e
    apart | 07 03 01 7f 01 7e 01 7f
    references | 0b 04 02 70 01 6f 01 64 70 01 63 00
    alike | 07 02 01 63 00 01 63 01
    none | 01 00
    instructions | 06 00 01 41 80 01 0b
    raw | 04 00 ff 80 0b
    lent | 0b 01 01 7f 20 00 41 7f 21 00 1a 0b
";

fn reference(nullable: bool, heap_type: HeapType) -> ValType {
    ValType::Ref(RefType {
        nullable,
        heap_type,
    })
}

fn null_type(index: u32) -> ValType {
    reference(true, HeapType::Concrete(index))
}

fn references(alloc: Global) -> Result<Function, EncodeError> {
    let func = HeapType::Abstract(AbstractHeapType::Func);
    let first = reference(true, func);
    let third = reference(true, HeapType::Abstract(AbstractHeapType::Extern));
    let second = reference(true, func);
    Function::new_with_locals_types(
        alloc,
        [first, second, third, reference(false, func), null_type(0)],
    )
}

fn instructions(alloc: Global) -> Result<Function, EncodeError> {
    let mut body = Function::new(alloc, [])?;
    body.push(&Instruction::Nop)?;
    body.push(&Instruction::I32Const(128))?;
    body.push(&Instruction::End)?;
    Ok(body)
}

fn raw(alloc: Global) -> Result<Function, EncodeError> {
    let mut body = Function::new(alloc, [])?;
    body.push_raw(&[0xff, 0x80])?;
    body.push_raw(&[])?;
    body.push_raw(&[0x0b])?;
    Ok(body)
}

// Instructions by calls of the sink, before and after one of the body.
fn lent(alloc: Global) -> Result<Function, EncodeError> {
    let mut body = Function::new(alloc, [(1, ValType::I32)])?;
    body.instructions().local_get(0)?.i32_const(-1)?;
    body.push(&Instruction::LocalSet(0))?;
    let sink = body.instructions();
    sink.push_raw(&[0x1a])?;
    sink.push(&Instruction::End)?;
    Ok(body)
}

/// Returns the body that is made so.
pub fn made(alloc: Global, name: &str) -> Result<Function, EncodeError> {
    match name {
        "runs" => Function::new(
            alloc,
            [(1, ValType::I32), (0, ValType::I64), (128, ValType::F32)],
        ),
        "joined" => Function::new_with_locals_types(
            alloc,
            [ValType::I32, ValType::I32, ValType::I64],
        ),
        "apart" => Function::new_with_locals_types(
            alloc,
            [ValType::I32, ValType::I64, ValType::I32],
        ),
        "references" => references(alloc),
        "alike" => Function::new_with_locals_types(alloc, [null_type(0), null_type(1)]),
        "none" => Function::new_with_locals_types(alloc, []),
        "instructions" => instructions(alloc),
        "raw" => raw(alloc),
        "lent" => lent(alloc),
        _ => Function::new(alloc, []),
    }
}

// Checks that these bytes are written, so many as are told beforehand, after what stood there.
fn is_written(alloc: Global, body: &Function, bytes: &[u8]) -> Option<bool> {
    let mut sink = Vec::new(alloc);
    sink.push(0xff).ok()?;
    body.encode(&mut sink).ok()?;
    let len = body.encoded_len().ok()?;
    let all = len == bytes.len() as u64 && body.byte_len() + 1 == bytes.len();
    Some(sink.strip_prefix(&[0xff]) == Some(bytes) && all)
}

fn holds(alloc: Global, row: &str) -> Option<bool> {
    let (name, bytes) = two_fields(row)?;
    let bytes = bytes_of(alloc, bytes)?;
    let body = made(alloc, name).ok()?;
    is_written(alloc, &body, &bytes)
}

#[test]
fn bodies_are_written(rt: HostRuntime) -> Result<(), Fail> {
    Ok(check_rows(rt.alloc(), WRITTEN, 10, holds)?)
}

// A list of more runs than can be counted is refused before any is asked for.
#[test]
fn too_many_runs(rt: HostRuntime) {
    let runs = repeat_n((1, ValType::I32), 4_294_967_296);
    let refused = Function::new(rt.alloc(), runs);
    assert!(rt; matches!(refused, Err(EncodeError::TooLong)));
}
