//! Calls that append instructions and go on.

use std::alloc::Global;
use wasm_core_types::scalar_operator::ScalarOperator;
use wasm_core_write::encode_error::EncodeError;
use wasm_encoder_bodies::instruction_sink::InstructionSink;
use wasm_encoder_instructions::block_type::BlockType;
use wasm_encoder_instructions::instruction::Instruction;
use wasm_encoder_instructions::mem_arg::MemArg;

// Appends a loop that goes on while what a memory holds is not 0.
fn push_loop(sink: &mut InstructionSink) -> Result<(), EncodeError> {
    let place = MemArg {
        offset: 128,
        align: 2,
        memory_index: 1,
    };
    sink.loop_(BlockType::Empty)?.local_get(0)?.i32_load(place)?;
    sink.push(&Instruction::Scalar(ScalarOperator::I32Eqz))?;
    sink.br_if(0)?;
    sink.push(&Instruction::End)
}

// Returns what is appended to a byte that was there.
fn written_loop(alloc: Global) -> Option<Vec<u8>> {
    let mut bytes = Vec::new(alloc);
    bytes.push(7).ok()?;
    let mut sink = InstructionSink::from_bytes(bytes);
    push_loop(&mut sink).ok()?;
    Some(sink.into_bytes())
}

#[test]
fn instructions_follow_one_another(rt: HostRuntime) {
    let expected: &[u8] = &[
        0x07, 0x03, 0x40, 0x20, 0x00, 0x28, 0x42, 0x01, 0x80, 0x01, 0x45, 0x0d, 0x00, 0x0b,
    ];
    assert!(rt; written_loop(rt.alloc()).as_deref() == Some(expected));
}

// Appends the calls of two numbers, the first of which is 1 and the second 2.
fn push_pairs(sink: &mut InstructionSink) -> Result<(), EncodeError> {
    sink.call_indirect(1, 2)?.return_call_indirect(1, 2)?;
    sink.memory_init(1, 2)?.memory_copy(1, 2)?;
    sink.table_init(1, 2)?.table_copy(1, 2)?;
    sink.array_new_fixed(1, 2)?.br_table(&[1], 2)?;
    Ok(())
}

fn written_pairs(alloc: Global) -> Option<Vec<u8>> {
    let mut sink = InstructionSink::new(alloc);
    push_pairs(&mut sink).ok()?;
    Some(sink.into_bytes())
}

#[test]
fn fields_are_those_of_their_names(rt: HostRuntime) {
    let expected: &[u8] = &[
        0x11, 2, 1, 0x13, 2, 1, 0xfc, 8, 2, 1, 0xfc, 10, 1, 2, 0xfc, 12, 2, 1, 0xfc, 14, 1, 2,
        0xfb, 8, 1, 2, 0x0e, 1, 1, 2,
    ];
    assert!(rt; written_pairs(rt.alloc()).as_deref() == Some(expected));
}
