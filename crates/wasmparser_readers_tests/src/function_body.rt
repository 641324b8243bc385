//! The operators of bodies: where they begin, and which bodies have none.

use std::alloc::Global;
use std::test::Fail;
use wasm_core_read::binary_reader::BinaryReader;
use wasm_core_types::features::WasmFeatures;
use wasm_test_rows::fields::three_fields;
use wasm_test_rows::rows::check_rows;
use wasm_test_rows::shown::displays;
use wasm_test_rows::values::bytes_of;
use wasmparser_error::error::ErrorKind;
use wasmparser_operators::operators_reader::OperatorsReader;
use wasmparser_payloads::function_body::FunctionBody;

// The offset of the body, its bytes, and the offset of its operators and the number of their bytes.
const BODIES: &str = "
    // no runs, with and without operators
    0 | 00 0b | operators 1 1
    0 | 00 | operators 1 0
    100 | 00 01 0b | operators 101 2
    // types without an index
    0 | 01 02 7f 0b | operators 3 1
    0 | 04 01 7f 02 7e 03 7d 04 7c 0b | operators 9 1
    0 | 01 01 7b 0b | operators 3 1
    0 | 0e 01 74 01 75 01 73 01 72 01 71 01 70 01 6f 01 6e 01 6d 01 6c 01 6b 01 6a 01 69 01 68 0b | operators 29 1
    0 | 03 01 63 70 01 64 6f 01 64 6e 0b | operators 10 1
    // indexes, of which those from 2^20 on can't be packed
    0 | 02 01 63 05 01 64 00 0b | operators 7 1
    0 | 01 01 63 ff ff 3f 0b | operators 6 1
    0 | 01 01 64 80 80 c0 00 0b | operators 7 1
    0 | 01 01 64 ff ff ff ff 0f 0b | operators 8 1
    0 | 01 01 63 85 80 80 80 00 0b | operators 8 1
    // padded numbers
    0 | 80 80 80 80 00 0b | operators 5 1
    0 | 81 80 80 80 00 82 80 80 80 00 7e 0b | operators 11 1
    7 | 82 00 81 00 7f 80 00 7e 0b | operators 15 1
    // runs of none, and more locals than a body may have
    0 | 02 00 7f 00 63 05 0b | operators 6 1
    0 | 01 d1 86 03 7f 0b | operators 5 1
    0 | 02 ff ff ff ff 0f 7f ff ff ff ff 0f 7e 0b | operators 13 1
    0 | a0 8d 06 017f*100000 0b | operators 200003 1
    0 | a0 8d 06 81007f*100000 0b | operators 300003 1
    // what follows the locals is not read
    0 | 01 01 7f ff ff ff | operators 3 3
    0 | 00 06 ff 80 | operators 1 3
    // no number of runs
    0 | | body at 0
    100 | | body at 100
    0 | 80 | body at 0
    0 | 80 80 80 80 10 | body at 0
    0 | 80 80 80 80 80 00 | body at 0
    // no number of locals
    0 | 01 | body at 1
    100 | 01 80 | body at 101
    0 | 01 ff ff ff ff 1f 7f 0b | body at 1
    0 | 02 01 7f | body at 3
    // no type
    0 | 01 01 | body at 2
    0 | 02 01 7f 0b | body at 4
    0 | ff ff ff ff 0f 01 7f 0b | body at 8
    0 | a1 8d 06 017f*100000 0b | body at 200004
    0 | 01 01 7a 0b | body at 3
    0 | 01 01 78 0b | body at 3
    0 | 01 01 40 0b | body at 3
    0 | 01 01 60 00 00 0b | body at 3
    100 | 01 01 00 0b | body at 103
    0 | 01 01 63 | body at 3
    0 | 01 01 63 7f 0b | body at 3
    0 | 01 01 64 80 | body at 3
    0 | 01 01 64 ff ff ff ff 1f 0b | body at 3
";

const COUNT_OF_BODIES: usize = 45;

fn is_reader(alloc: Global, operators: &OperatorsReader<'_>, words: &str) -> bool {
    let rest = operators.get_binary_reader();
    match format!(in alloc;
        "operators {} {}",
        operators.original_position(),
        rest.bytes_remaining()
    ) {
        Ok(found) => found.as_str() == words && operators.finish().is_err(),
        Err(_) => false,
    }
}

fn is_found(alloc: Global, body: &FunctionBody<'_>, words: &str) -> bool {
    match body.get_operators_reader() {
        Ok(operators) => is_reader(alloc, &operators, words),
        Err(error) => displays(alloc, &error, words),
    }
}

fn holds(alloc: Global, row: &str) -> Option<bool> {
    let (offset, field, words) = three_fields(row)?;
    let offset: u32 = offset.parse().ok()?;
    let bytes = bytes_of(alloc, field)?;
    let body = FunctionBody::new(BinaryReader::new(&bytes, offset as u64));
    Some(is_found(alloc, &body, words))
}

#[test]
fn operators_stand_past_the_locals(rt: HostRuntime) -> Result<(), Fail> {
    check_rows(rt.alloc(), BODIES, COUNT_OF_BODIES, holds)?;
    Ok(())
}

// The bytes of locals, which no front of them is.
const CUT: &str = "
    02 01 7f 03 63 05
    83 00 81 80 00 7b 02 64 80 80 c0 00 ff ff ff ff 0f 70
    80 80 80 80 00
";

const COUNT_OF_CUT: usize = 3;

// Checks that bytes begin with locals that end at this place, or with none where they end before.
fn is_cut(bytes: &[u8], locals: usize) -> bool {
    match FunctionBody::new(BinaryReader::new(bytes, 0)).get_operators_reader() {
        Ok(operators) => operators.original_position() == locals as u64,
        Err(error) => {
            bytes.len() < locals
                && error.kind == ErrorKind::Body
                && error.offset <= bytes.len() as u64
        }
    }
}

fn cut_holds(alloc: Global, row: &str) -> Option<bool> {
    let mut bytes = bytes_of(alloc, row)?;
    let locals = bytes.len();
    bytes.extend_from_slice(&[0x01, 0x0b]).ok()?;
    for len in 0..bytes.len() {
        if !is_cut(&bytes[..len], locals) {
            return Some(false);
        }
    }
    Some(is_cut(&bytes, locals))
}

#[test]
fn cut_locals_are_refused(rt: HostRuntime) -> Result<(), Fail> {
    check_rows(rt.alloc(), CUT, COUNT_OF_CUT, cut_holds)?;
    Ok(())
}

// Checks that the reader of operators has the features of the body's.
fn has_features(features: WasmFeatures) -> bool {
    let mut reader = BinaryReader::new(&[0x01, 0x01, 0x63, 0x05, 0x0b], 0);
    reader.set_features(features);
    match FunctionBody::new(reader).get_operators_reader() {
        Ok(operators) => operators.get_binary_reader().features() == features,
        Err(_) => false,
    }
}

#[test]
fn operators_have_the_features(rt: HostRuntime) {
    assert!(rt; has_features(WasmFeatures::MULTI_VALUE), "one");
    assert!(rt; has_features(WasmFeatures::default()), "default");
}
