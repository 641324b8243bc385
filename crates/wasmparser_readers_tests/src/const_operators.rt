//! Operators of constant expressions, each with what it shows.

use std::alloc::Global;
use std::test::Fail;
use wasm_core_read::binary_reader::BinaryReader;
use wasm_test_rows::fields::two_fields;
use wasm_test_rows::rows::check_rows;
use wasm_test_rows::shown::debugs;
use wasm_test_rows::values::bytes_of;
use wasmparser_entries::const_operator::ConstOperator;
use wasmparser_readers::from_reader::FromReader;

// The bytes, all of which are an operator, and its `Debug`, or the kind of the refusal.
const OPERATORS: &str = "
    41 2a | I32Const { value: 42 }
    41 80 80 80 80 78 | I32Const { value: -2147483648 }
    41 80 80 80 80 08 | malformed
    42 7f | I64Const { value: -1 }
    42 80 80 80 80 80 80 80 80 80 7f | I64Const { value: -9223372036854775808 }
    43 00 00 80 3f | F32Const { bits: 1065353216 }
    43 00 00 80 | malformed
    44 00 00 00 00 00 00 f0 3f | F64Const { bits: 4607182418800017408 }
    23 80 01 | GlobalGet { global_index: 128 }
    d2 ff ff ff ff 0f | RefFunc { function_index: 4294967295 }
    d2 ff ff ff ff 1f | malformed
    d0 70 | RefNull { hty: Abstract(Func) }
    d0 05 | RefNull { hty: Concrete(Module(5)) }
    d0 80 80 c0 00 | RefNull { hty: Concrete(Module(1048576)) }
    d0 7f | malformed
    6a | I32Add
    6b | I32Sub
    6c | I32Mul
    7c | I64Add
    7d | I64Sub
    7e | I64Mul
    fb 00 01 | StructNew { struct_type_index: 1 }
    fb 01 02 | StructNewDefault { struct_type_index: 2 }
    fb 06 03 | ArrayNew { array_type_index: 3 }
    fb 07 04 | ArrayNewDefault { array_type_index: 4 }
    fb 08 05 06 | ArrayNewFixed { array_type_index: 5, array_size: 6 }
    fb 88 80 80 80 00 05 06 | ArrayNewFixed { array_type_index: 5, array_size: 6 }
    fb 1a | AnyConvertExtern
    fb 1b | ExternConvertAny
    fb 1c | RefI31
    fb 02 01 | malformed
    fb 09 01 02 | malformed
    fb 1d | malformed
    fb | malformed
    fd 0c 00 01 02 03 04 05 06 07 08 09 0a 0b 0c 0d 0e 0f | V128Const { bytes: [0, 1, 2, 3, 4, 5, 6, 7, 8, 9, 10, 11, 12, 13, 14, 15] }
    fd 0c 00*15 | malformed
    fd 0d 00*16 | malformed
    0b | malformed
    6d | malformed
    20 00 | malformed
    | malformed
";

const COUNT_OF_OPERATORS: usize = 41;

fn shows(alloc: Global, bytes: &[u8], words: &str) -> bool {
    let mut reader = BinaryReader::new(bytes, 0);
    match ConstOperator::from_reader(alloc, &mut reader) {
        Ok(it) => reader.eof() && debugs(alloc, &it, words),
        Err(error) => error.kind.name() == words,
    }
}

fn holds(alloc: Global, row: &str) -> Option<bool> {
    let (field, words) = two_fields(row)?;
    Some(shows(alloc, &bytes_of(alloc, field)?, words))
}

#[test]
fn operators_read(rt: HostRuntime) -> Result<(), Fail> {
    check_rows(rt.alloc(), OPERATORS, COUNT_OF_OPERATORS, holds)?;
    Ok(())
}
