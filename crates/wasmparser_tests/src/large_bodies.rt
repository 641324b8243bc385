//! Bodies of many blocks, labels, operands and locals.

use crate::new_validator::answer_under;
use std::alloc::Global;
use std::test::Fail;
use wasm_core::features::{Flags, WasmFeatures};
use wasm_core::leb128::write_u32;
use wasm_test_rows::fields::three_fields;
use wasm_test_rows::rows::check_rows;
use wasm_test_rows::values::bytes_of;
use wasmparser::error::Error;

// Rows have features, the body of a function that takes and gives nothing, and the kind of its refusal, or `valid`.

const BLOCKS: &str = "
    // Blocks in blocks, with an end less, and with one more.
    default | 00 0240*100000 0b*100001 | valid
    default | 00 0240*100000 0b*100000 | Body
    default | 00 0240*100000 0b*100002 | Body
    default | 00 410004400340*50000 00 0b*100001 | valid
    // A jump to many labels: one of the body, one of a block with a result, and one of each block.
    default | 00 4100 0e a08d06 00*100000 00 0b | valid
    default | 00 027f 4100 4100 0e a08d06 00*100000 00 0b 1a 0b | valid
    default | 00 0240*49999 4100 0e d08603 #*50000 00 0b*50000 | valid
    // The last label is out of range, or the default one; or it takes another number of operands.
    default | 00 4100 0e a08d06 00*99999 01 00 0b | Body
    default | 00 4100 0e a08d06 00*100000 01 0b | Body
    default | 00 027f 4100 4100 0e a08d06 00*99999 01 00 0b 1a 0b | Body
    default | 00 027f 4100 4100 0e a08d06 00*100000 01 0b 1a 0b | Body
    // No label but the default one.
    default | 00 4100 0e 00 00 0b | valid
    default | 00 4100 0e 00 01 0b | Body
";

const OPERANDS: &str = "
    // As many operands as a body has room for, which are dropped or added, and a byte more.
    default | 00 4100*2551439 01*2 1a*2551439 0b | valid
    default | 00 4100*2551439 01*3 1a*2551439 0b | Limit(BodySize)
    default | 00 4100*2551439 01 6a*2551438 1a*2 0b | Body
    // A local that is read above more operands than 2^20, and dropped with them, or not.
    default | 01 01 7f 4100*1048577 2000 1a*1048578 0b | valid
    default | 01 01 7f 4100*1048577 2000 1a*1048577 0b | Body
    default | 01 01 7f 2000*1048577 2100 1a*1048576 0b | valid
";

// The locals have no value at first.
const LOCALS: &str = "
    // Each is set in a block of its own, and has no value after it.
    all | 01 d08603 646c 02404100fb1c21#20#1a0b*50000 0b | valid
    all | 01 d08603 646c 02404100fb1c21#20#1a0b*50000 20001a 0b | Body
    all | 01 d08603 646c 02404100fb1c21#20#1a0b*50000 20cf86031a 0b | Body
    // Each is set in both lists of a block. What the first one sets has no value in the second.
    all | 01 d08603 646c 410004404100fb1c21#054100fb1c21#20#1a0b*50000 0b | valid
    all | 01 d08603 646c 41000440 4100fb1c21#*50000 05 20cf86031a 0b 0b | Body
    // Each is set in a block that stands in the one before. The end of a block leaves one without a value.
    all | 01 d08603 646c 02404100fb1c21#*50000 20#1a*50000 0b*50001 | valid
    all | 01 d08603 646c 02404100fb1c22#1a*50000 20#1a*50000 0b*50001 | valid
    all | 01 d08603 646c 02404100fb1c21#*50000 0b 20ce86031a 0b*50000 | valid
    all | 01 d08603 646c 02404100fb1c21#*50000 0b 20cf86031a 0b*50000 | Body
    all | 01 d08603 646c 02404100fb1c21#*50000 0b*49999 20001a 0b*2 | valid
    all | 01 d08603 646c 02404100fb1c21#*50000 0b*50000 20001a 0b | Body
    // All are set, and keep their values after blocks that set them again.
    all | 01 d08603 646c 4100fb1c21#*50000 02404100fb1c21#0b*50000 20#1a*50000 0b | valid
";

fn features_of(field: &str) -> Option<WasmFeatures> {
    match field {
        "default" => Some(WasmFeatures::default()),
        "all" => Some(WasmFeatures::all()),
        _ => None,
    }
}

// Returns a module with one function, which takes and gives nothing.
fn module_of(alloc: Global, body: &[u8]) -> Option<Vec<u8>> {
    let length = u32::try_from(body.len()).ok()?;
    let mut entry = Vec::new(alloc);
    write_u32(&mut entry, 1).ok()?;
    write_u32(&mut entry, length).ok()?;
    entry.extend_from_slice(body).ok()?;
    let mut bytes = bytes_of(alloc, "0061736d01000000 010401600000 03020100 0a")?;
    write_u32(&mut bytes, u32::try_from(entry.len()).ok()?).ok()?;
    bytes.extend_from_slice(&entry).ok()?;
    Some(bytes)
}

fn holds(alloc: Global, row: &str) -> Option<bool> {
    let (features, body, expected) = three_fields(row)?;
    let module = module_of(alloc, &bytes_of(alloc, body)?)?;
    match answer_under(alloc, features_of(features)?, &module) {
        Ok(()) => Some(expected == "valid"),
        Err(Error { kind, .. }) => {
            let shown = format!(in alloc; "{kind:?}").ok()?;
            Some(shown.as_str() == expected)
        }
    }
}

#[test]
fn blocks_and_labels_are_many(rt: HostRuntime) -> Result<(), Fail> {
    Ok(check_rows(rt.alloc(), BLOCKS, 13, holds)?)
}

#[test]
fn operands_are_many(rt: HostRuntime) -> Result<(), Fail> {
    Ok(check_rows(rt.alloc(), OPERANDS, 6, holds)?)
}

#[test]
fn locals_are_many(rt: HostRuntime) -> Result<(), Fail> {
    Ok(check_rows(rt.alloc(), LOCALS, 12, holds)?)
}
