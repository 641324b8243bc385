//! Instructions, each appended to a sink without room by the call of its name, as their rows tell them.

use crate::instructions::{ROWS, named};
use crate::refusals::calls::call;
use crate::refusals::refused::{field_bytes, is_written};
use std::alloc::Global;
use std::test::Fail;
use wasm_core_write::encode_error::EncodeError;
use wasm_encoder_bodies::instruction_sink::InstructionSink;
use wasm_encoder_instructions::instruction::Instruction;
use wasm_test_rows::fields::two_fields;
use wasm_test_rows::rows::check_rows;

// Appends an instruction by the call of its name, or by its value where there is none. The answer is why it is refused, if it is.
fn refusal(
    sink: &mut InstructionSink,
    name: &str,
    instruction: &Instruction<'_>,
) -> Option<EncodeError> {
    match call(sink, name) {
        Some(refusal) => refusal,
        None => sink.push(instruction).err(),
    }
}

// Checks that an instruction is appended, at the second time where memory runs out at the first and the sink stays empty.
fn takes(sink: &mut InstructionSink, name: &str, instruction: &Instruction<'_>) -> bool {
    match refusal(sink, name, instruction) {
        None => true,
        Some(error) => {
            let is_kept = error == EncodeError::Memory && sink.as_bytes().is_empty();
            is_kept && refusal(sink, name, instruction).is_none()
        }
    }
}

fn holds(alloc: Global, row: &str) -> Option<bool> {
    let (name, bytes) = two_fields(row)?;
    let instruction = named(name)?;
    let bytes = field_bytes(alloc, bytes)?;
    let mut sink = InstructionSink::new(alloc);
    let is_taken = takes(&mut sink, name, &instruction);
    let are_same = sink.as_bytes() == bytes.as_slice();
    Some(is_taken && are_same && is_written(alloc, &instruction))
}

#[test]
fn each_is_appended(rt: HostRuntime) -> Result<(), Fail> {
    Ok(check_rows(rt.alloc(), ROWS, 86, holds)?)
}

// Appends by the calls that have no name of an instruction.
fn push(_alloc: Global, sink: &mut InstructionSink, number: u32) -> Result<(), EncodeError> {
    if number % 2 == 0 {
        return sink.push_raw(&[0x41, 0x01]);
    }
    sink.instruction(&Instruction::I32Const(-1))?;
    Ok(())
}

// Checks that 20 calls are done, each at the second time where memory runs out at the first and the sink is as it was.
fn takes_each(alloc: Global, sink: &mut InstructionSink) -> bool {
    for number in 0..20_u32 {
        let before = sink.as_bytes().len();
        if let Err(error) = push(alloc, sink, number) {
            let is_kept = error == EncodeError::Memory && sink.as_bytes().len() == before;
            if !is_kept || push(alloc, sink, number).is_err() {
                return false;
            }
        }
    }
    sink.as_bytes().len() == 40
}

fn all_are_taken(alloc: Global) -> bool {
    let mut sink = InstructionSink::new(alloc);
    takes_each(alloc, &mut sink)
}

#[test]
fn others_are_appended(rt: HostRuntime) {
    assert!(rt; all_are_taken(rt.alloc()));
}
