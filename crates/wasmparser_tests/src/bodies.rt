//! Function bodies.

use crate::new_validator::{answer_under, refusal_of};
use std::alloc::{AllocError, Global};
use std::test::Fail;
use wasm_core::features::{Flags, WasmFeatures};
use wasm_test_rows::fields::four_fields;
use wasm_test_rows::rows::check_rows;
use wasm_test_rows::values::bytes_of;
use wasmparser::error::{Error, ErrorKind};

// The number of parameters and results of a function, numbers all of them, the features, its body, and the kind of its refusal, or `valid`. `all SIMD` are
// all features but that one. The function's type is the only one of its module.
const BODIES: &str = "
    // A function that has to leave nothing, and one that has to leave a number.
    0 0 | default | 00 00 0b | valid
    1 1 | default | 00 00 0b | valid
    0 0 | default | 00 00 00 0b | valid
    1 1 | default | 00 00 00 0b | valid
    0 0 | default | 00 0b | valid
    1 1 | default | 00 0b | Body
    1 1 | default | 00 20 00 0b | valid
    0 0 | default | 00 | Body
    1 1 | default | 00 | Body
    0 0 | default | | Body
    1 1 | default | | Body
    0 0 | default | 00 00 0b 0b | Body
    1 1 | default | 00 00 0b 0b | Body
    0 0 | default | 00 fe 03 00 0b | Operator
    1 1 | default | 00 fe 03 00 0b | Operator
    0 0 | default | 00 06 0b | Operator
    0 0 | default | 00 01 06 0b | Operator
    0 0 | default | 00 1a 06 0b | Body
    0 0 | default | 00 0b 06 | Body
    // An addition of what is unknown and a number, in code that is never reached, leaves a number.
    0 0 | default | 00 00 41 00 7c 1a 0b | Body
    0 0 | default | 00 00 41 00 6a 1a 0b | valid
    // Operators that ask for features.
    0 0 | default | 00 43 00 00 00 00 fc 00 c0 1a 0b | valid
    0 0 | default | 00 02 00 0b 12 00 0b | valid
    0 0 | default | 00 d0 70 d1 41 00 41 00 1c 01 7f 1a 0b | valid
    0 0 | default | 00 41 00 fb 1c d1 1a 0b | valid
    0 0 | default | 00 fd 0c 00*16 1a 0b | valid
    // Locals that ask for a feature. A run of none asks too.
    0 0 | all | 01 01 7b 00 0b | valid
    0 0 | all SIMD | 01 01 7b 00 0b | Body
    0 0 | all | 01 00 7b 00 0b | valid
    0 0 | all SIMD | 01 00 7b 00 0b | Body
    0 0 | all | 01 02 63 70 00 0b | valid
    0 0 | all REFERENCE_TYPES | 01 02 63 70 00 0b | Body
    // References to the function's own type, and to one that isn't there; and ones that aren't null, which can't be read before they are set.
    0 0 | all | 01 02 63 00 00 0b | valid
    0 0 | all | 01 02 63 01 00 0b | Body
    0 0 | all | 01 02 64 70 00 0b | valid
    0 0 | all | 01 02 64 70 20 00 1a 0b | Body
    0 0 | all | 01 02 63 | Body
    // References to continuations, and to none of them, as locals, as what a block gives, and null.
    0 0 | all | 02 01 68 01 75 00 0b | valid
    0 0 | all STACK_SWITCHING | 01 01 68 00 0b | Body
    0 0 | default | 01 01 75 00 0b | Body
    0 0 | all | 00 02 68 d0 75 0b 1a 0b | valid
    0 0 | all | 00 02 75 d0 68 0b 1a 0b | Body
    0 0 | all STACK_SWITCHING | 00 02 68 00 0b 1a 0b | Body
    0 0 | default | 00 02 75 00 0b 1a 0b | Body
    0 0 | all | 00 d0 68 1a d0 75 1a 0b | valid
    0 0 | all STACK_SWITCHING | 00 d0 68 1a 0b | Body
    0 0 | default | 00 d0 75 1a 0b | Body
    // The first type index that can't be packed.
    0 0 | all | 00 d0 80 80 c0 00 1a 0b | Body
    0 0 | all | 01 01 63 80 80 c0 00 0b | Body
    0 0 | all | 00 02 63 80 80 c0 00 00 0b 1a 0b | Body
    // 50,000 locals in one run and in two, and one more.
    0 0 | default | 01 d0 86 03 7f 00 0b | valid
    0 0 | default | 01 d1 86 03 7f 00 0b | Limit(Locals)
    0 0 | default | 02 cf 86 03 7f 01 7e 0b | valid
    0 0 | default | 02 cf 86 03 7f 02 7e 0b | Limit(Locals)
    // A run of 2^32 - 1, whatever follows.
    0 0 | default | 02 ff ff ff ff 0f 7f ff ff ff ff 0f 7f 0b | Limit(Locals)
    0 0 | default | 01 ff ff ff ff 0f | Body
    // Parameters are locals: 49,000 and 49,001 more.
    1000 0 | default | 01 e8 fe 02 7f 0b | valid
    1000 0 | default | 01 e9 fe 02 7f 0b | Limit(Locals)
";

fn features_of(field: &str) -> Option<WasmFeatures> {
    match field {
        "default" => Some(WasmFeatures::default()),
        "all" => Some(WasmFeatures::all()),
        _ => {
            let missing = WasmFeatures::from_name(field.strip_prefix("all ")?)?;
            Some(WasmFeatures::all().difference(missing))
        }
    }
}

// Checks that the answer is the one that is expected.
fn is_answer(alloc: Global, answer: Result<(), Error>, expected: &str) -> bool {
    match answer {
        Ok(()) => expected == "valid",
        Err(Error { kind, .. }) => {
            format!(in alloc; "{kind:?}").is_ok_and(|it| it.as_str() == expected)
        }
    }
}

// Appends a number in five bytes.
fn put_number(bytes: &mut Vec<u8>, number: u64) -> Result<(), AllocError> {
    for shift in 0..4u32 {
        bytes.push(((number >> (7 * shift)) & 0x7f) as u8 | 0x80)?;
    }
    bytes.push(((number >> 28) & 0x0f) as u8)?;
    Ok(())
}

// Appends so many times the type of a number.
fn put_numbers(bytes: &mut Vec<u8>, count: u16) -> Result<(), AllocError> {
    put_number(bytes, u64::from(count))?;
    for _ in 0..count {
        bytes.push(0x7f)?;
    }
    Ok(())
}

// Returns a module with one type, so many parameters and results, and one function of it with this body.
fn module_of(alloc: Global, params: u16, results: u16, body: &[u8]) -> Result<Vec<u8>, AllocError> {
    let mut bytes = Vec::new(alloc);
    bytes.extend_from_slice(b"\0asm\x01\0\0\0\x01")?;
    put_number(&mut bytes, 12 + u64::from(params) + u64::from(results))?;
    bytes.extend_from_slice(&[1, 0x60])?;
    put_numbers(&mut bytes, params)?;
    put_numbers(&mut bytes, results)?;
    bytes.extend_from_slice(&[3, 2, 1, 0, 10])?;
    let length = body.len() as u64;
    put_number(&mut bytes, length.saturating_add(6))?;
    bytes.push(1)?;
    put_number(&mut bytes, length)?;
    bytes.extend_from_slice(body)?;
    Ok(bytes)
}

// Checks that a module that is valid under some features is so under others.
fn stays_valid(alloc: Global, some: WasmFeatures, others: WasmFeatures, bytes: &[u8]) -> bool {
    answer_under(alloc, others, bytes).is_ok() || answer_under(alloc, some, bytes).is_err()
}

// Checks that a valid module stays valid with each further feature: beside some features, beside all of these but one, and in turn from none to all.
fn stays_valid_with_more(alloc: Global, features: WasmFeatures, bytes: &[u8]) -> bool {
    let mut holds = stays_valid(alloc, features, WasmFeatures::all(), bytes);
    let mut former = WasmFeatures::empty();
    for shift in 0..32u32 {
        let Some(flag) = WasmFeatures::from_bits(1 << shift) else {
            continue;
        };
        holds = holds
            && stays_valid(alloc, features, features.union(flag), bytes)
            && stays_valid(alloc, features.difference(flag), features, bytes)
            && stays_valid(alloc, former, former.union(flag), bytes);
        former = former.union(flag);
    }
    holds && former == WasmFeatures::all()
}

fn holds(alloc: Global, row: &str) -> Option<bool> {
    let (counts, features, bytes, expected) = four_fields(row)?;
    let features = features_of(features)?;
    let body = bytes_of(alloc, bytes)?;
    let (params, results) = counts.split_once(' ')?;
    let module = module_of(alloc, params.parse().ok()?, results.parse().ok()?, &body).ok()?;
    let is_answer = is_answer(alloc, answer_under(alloc, features, &module), expected);
    Some(is_answer && stays_valid_with_more(alloc, features, &module))
}

#[test]
fn bodies_have_their_answers(rt: HostRuntime) -> Result<(), Fail> {
    Ok(check_rows(rt.alloc(), BODIES, 58, holds)?)
}

// Checks that an operator is refused in the last four bytes.
fn stands_in_the_body(refusal: Option<Error>, end: u64) -> bool {
    match refusal {
        Some(
            Error {
                kind: ErrorKind::Operator,
                offset,
            },
        ) => offset < end && end - offset < 4,
        _ => false,
    }
}

#[test]
fn refusal_stands_in_the_body(rt: HostRuntime) -> Result<(), Fail> {
    let module = module_of(rt.alloc(), 0, 0, b"\0\0\x06\x0b")?;
    let refusal = refusal_of(rt.alloc(), &module);
    assert!(rt; stands_in_the_body(refusal, module.len() as u64));
    Ok(())
}
