//! Errors and limits: what they print, and the numbers of the limits.

use std::alloc::Global;
use std::test::Fail;
use wasm_core::encode_error::EncodeError;
use wasm_core::malformed::Malformed;
use wasm_test_rows::fields::three_fields;
use wasm_test_rows::limits::limit_of;
use wasm_test_rows::rows::check_rows;
use wasm_test_rows::shown::displays;

// Errors and limits, what they print, and the number of a limit.
const PRINTED: &str = "
    EncodeError::Memory | out of memory | -
    EncodeError::TooLong | too long | -
    Malformed | malformed at 18446744073709551615 | -
    Types | Types | 1000000
    Groups | Groups | 1000000
    Imports | Imports | 1000000
    Functions | Functions | 1000000
    Globals | Globals | 1000000
    Tags | Tags | 1000000
    Exports | Exports | 1000000
    Tables | Tables | 100
    Memories | Memories | 100
    ElementSegments | ElementSegments | 100000
    DataSegments | DataSegments | 100000
    SegmentEntries | SegmentEntries | 10000000
    Params | Params | 1000
    Results | Results | 1000
    Fields | Fields | 10000
    Locals | Locals | 50000
    BodySize | BodySize | 7654321
    Name | Name | 100000
    TypeSize | TypeSize | 999999
    Depth | Depth | 63
    Length | Length | 4294967295
";

// Checks that an error prints this.
fn is_printed(alloc: Global, name: &str, text: &str) -> bool {
    match name {
        "EncodeError::Memory" => displays(alloc, &EncodeError::Memory, text),
        "EncodeError::TooLong" => displays(alloc, &EncodeError::TooLong, text),
        "Malformed" => displays(alloc, &Malformed { offset: u64::MAX }, text),
        _ => false,
    }
}

fn holds(alloc: Global, row: &str) -> Option<bool> {
    let (name, text, most) = three_fields(row)?;
    match limit_of(name) {
        Some(limit) => {
            Some(displays(alloc, &limit, text) && most.parse().ok() == Some(limit.max()))
        }
        None => Some(is_printed(alloc, name, text) && most == "-"),
    }
}

#[test]
fn errors_and_limits_print_their_names(rt: HostRuntime) -> Result<(), Fail> {
    Ok(check_rows(rt.alloc(), PRINTED, 24, holds)?)
}
