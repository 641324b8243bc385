//! A recursive group that is read: where memory runs out, it reads afterwards.

use std::alloc::Global;
use wasm_core_read::binary_reader::BinaryReader;
use wasmparser_error::error::{Error, ErrorKind};
use wasmparser_readers::from_reader::FromReader;
use wasmparser_types::sub_type::RecGroup;

// A group of a function type below another one, a structure and an array.
const GROUP: [u8; 27] = [
    0x4e, 0x04, 0x50, 0x00, 0x60, 0x02, 0x7f, 0x63, 0x01, 0x01, 0x7e, 0x4f, 0x01, 0x00, 0x60, 0x00,
    0x00, 0x5f, 0x02, 0x78, 0x00, 0x64, 0x03, 0x01, 0x5e, 0x7f, 0x01,
];

// The place of the group's first byte.
const PLACE: u64 = 9;

// Checks that the group that reads has all of its types.
fn reads_all(alloc: Global) -> Result<bool, Error> {
    match RecGroup::from_reader(alloc, &mut BinaryReader::new(&GROUP, PLACE)) {
        Ok(group) => Ok(group.types().len() == 4),
        Err(error) => Err(error),
    }
}

fn reads(alloc: Global) -> bool {
    match reads_all(alloc) {
        Ok(are_all) => are_all,
        Err(_) => false,
    }
}

// Checks that it reads, or memory ran out, at its first byte.
fn reads_or_runs_out(alloc: Global) -> bool {
    match reads_all(alloc) {
        Ok(are_all) => are_all,
        Err(error) => error.kind == ErrorKind::Memory && error.offset == PLACE,
    }
}

#[test]
fn a_group_reads_after_memory_ran_out(rt: HostRuntime) {
    let alloc = rt.alloc();
    assert!(rt; reads(alloc) || reads(alloc), "at the second time at least");
}

#[test]
fn memory_runs_out_at_the_first_byte(rt: HostRuntime) {
    let alloc = rt.alloc();
    assert!(rt; reads_or_runs_out(alloc), "or nothing was refused");
}
