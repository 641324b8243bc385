//! Operators of each code, with the operands that they take and with others.

use crate::cases::{REFUSED, gives, has_outcome};
use crate::letters::bytes_of_letters;
use crate::more_features::stays_accepted_with_more;
use std::alloc::Global;
use std::test::Fail;
use wasm_core_types::features::{Flags, WasmFeatures};
use wasm_test_rows::fields::four_fields;
use wasm_test_rows::rows::check_rows;
use wasm_test_rows::values::bytes_of;
use wasmparser_validation_rows::listed_resources::ListedResources;

// Operands, operators that take just these, what they give, and the features that each of them asks for. With those of `OTHERS` the operators have each code.
const CODES: &str = "
    // numbers
    i | 45 67 68 69 | i |
    ii | 46 47 48 49 4a 4b 4c 4d 4e 4f 6a 6b 6c 6d 6e 6f 70 71 72 73 74 75 76 77 78 | i |
    l | 50 | i |
    ll | 51 52 53 54 55 56 57 58 59 5a | i |
    l | 79 7a 7b | l |
    ll | 7c 7d 7e 7f 80 81 82 83 84 85 86 87 88 89 8a | l |
    ff | 5b 5c 5d 5e 5f 60 | i | floats
    dd | 61 62 63 64 65 66 | i | floats
    f | 8b 8c 8d 8e 8f 90 91 | f | floats
    ff | 92 93 94 95 96 97 98 | f | floats
    d | 99 9a 9b 9c 9d 9e 9f | d | floats
    dd | a0 a1 a2 a3 a4 a5 a6 | d | floats
    l | a7 | i |
    f | a8 a9 bc | i | floats
    d | aa ab | i | floats
    i | ac ad | l |
    f | ae af | l | floats
    d | b0 b1 bd | l | floats
    i | b2 b3 be | f | floats
    l | b4 b5 | f | floats
    d | b6 | f | floats
    i | b7 b8 | d | floats
    l | b9 ba bf | d | floats
    f | bb | d | floats
    i | c0 c1 | i | sign_extension
    l | c2 c3 c4 | l | sign_extension
    f | fc00 fc01 | i | floats saturating_float_to_int
    d | fc02 fc03 | i | floats saturating_float_to_int
    f | fc04 fc05 | l | floats saturating_float_to_int
    d | fc06 fc07 | l | floats saturating_float_to_int
     | 4100 | i |
     | 4200 | l |
     | 4300000000 | f | floats
     | 440000000000000000 | d | floats
     | fd0c00000000000000000000000000000000 | v | simd
    // memories
    i | 280200 2c0000 2d0000 2e0100 2f0100 | i |
    i | 290300 300000 310000 320100 330100 340200 350200 | l |
    i | 2a0200 | f | floats
    i | 2b0300 | d | floats
    ii | 360200 3a0000 3b0100 |  |
    il | 370300 3c0000 3d0100 3e0200 |  |
    if | 380200 |  | floats
    id | 390300 |  | floats
    l | 28420100 28400100 2842018080808010 | i |
    ll | 37430100 |  |
     | 3f00 | i |
    i | 4000 | i |
     | 3f01 | l |
    l | 4001 | l |
    iii | fc080000 fc080100 fc0a0000 fc0b00 |  | bulk_memory
    ili | fc0a0001 |  | bulk_memory
    lii | fc0a0100 fc080001 |  | bulk_memory
    lll | fc0a0101 |  | bulk_memory
    lil | fc0b01 |  | bulk_memory
     | fc0900 fc0901 |  | bulk_memory
    // tables
    i | 2500 | F | reference_types
    l | 2501 | E | reference_types
    i | 2503 | n | reference_types
    iF | 2600 |  | reference_types
    lE | 2601 |  | reference_types
    iN | 2600 2603 |  | reference_types
     | fc1000 | i | reference_types
     | fc1001 | l | reference_types
    Fi | fc0f00 | i | reference_types
    El | fc0f01 | l | reference_types
    iFi | fc1100 |  | reference_types
    lEl | fc1101 |  | reference_types
    iii | fc0c0000 fc0e0000 fc0e0003 |  | bulk_memory
    lii | fc0c0101 |  | bulk_memory
    lll | fc0e0101 |  | bulk_memory
     | fc0d00 fc0d01 |  | bulk_memory
    // control
     | 01 00 0240 0340 |  |
    i | 0440 |  |
     | 027f |  |
    il | 0201 0301 | il | multi_value
    ili | 0401 | il | multi_value
    i | 0f 0c00 |  |
    ii | 0d00 | i |
    ii | 0e0000 0e02000000 |  |
    il | 1001 | i |
     | 1000 |  |
     | 1002 | il |
    p | 1004 | P |
    C | 1004 | P |
    ili | 110100 | i |
    i | 110003 |  |
    ii | 110703 | i |
    il | 1201 |  | tail_call
    i | 1203 |  | tail_call
    ili | 130100 |  | tail_call
    ii | 130703 |  | tail_call
    ilm | 1401 | i | function_references
    n | 1400 |  | function_references
    ilm | 1501 |  | function_references
    // variables
     | 2000 | i |
     | 2001 | l |
     | 2002 | d |
    i | 2100 |  |
    l | 2101 |  |
    d | 2102 |  |
    i | 2200 | i |
    d | 2202 | d |
    G | 2103 |  |
    N | 2203 | G |
     | 2300 | i |
     | 2301 | l |
     | 2302 | F |
     | 2303 | P |
    l | 2401 |  |
    F | 2402 |  |
    N | 2402 |  |
    // references
     | d070 | F | reference_types
     | d06f | E | reference_types
     | d06d | Q | reference_types gc
     | d009 | p | reference_types
    F | d1 | i | reference_types
    P | d1 | i | reference_types
     | d200 | N | reference_types
     | d202 | M | reference_types
    QQ | d3 | i | gc
    KS | d3 | i | gc
    iii | 1c017f | i | reference_types
    FFi | 1c0170 | F | reference_types
    NFi | 1c0170 | F | reference_types
    ppi | 1c016309 | p | reference_types
    iiF | fb0003 | S | gc
    i | fb0009 | P | gc
    il | fb000a | C | gc
    G | fb0005 | * | gc
     | fb0103 | S | gc
     | fb010a | C | gc
    li | fb0604 | Y | gc
    i | fb0704 | Y | gc
    lll | fb080403 | Y | gc
     | fb080400 | Y | gc
    N | fb080601 | * | gc
    i | fb1c | * | gc
";

/// Returns the feature of a word.
pub fn feature_of(word: &str) -> Option<WasmFeatures> {
    match word {
        "floats" => Some(WasmFeatures::FLOATS),
        "saturating_float_to_int" => Some(WasmFeatures::SATURATING_FLOAT_TO_INT),
        "sign_extension" => Some(WasmFeatures::SIGN_EXTENSION),
        "simd" => Some(WasmFeatures::SIMD),
        "reference_types" => Some(WasmFeatures::REFERENCE_TYPES),
        "bulk_memory" => Some(WasmFeatures::BULK_MEMORY),
        "multi_value" => Some(WasmFeatures::MULTI_VALUE),
        "tail_call" => Some(WasmFeatures::TAIL_CALL),
        "function_references" => Some(WasmFeatures::FUNCTION_REFERENCES),
        "gc" => Some(WasmFeatures::GC),
        _ => None,
    }
}

fn push_operands(letters: &mut String, takes: &str, first: usize, wrong: usize) -> Option<()> {
    for (index, letter) in takes.chars().enumerate() {
        if index >= first {
            let is_kept = index != wrong;
            let other = if letter == 'v' { 'i' } else { 'v' };
            letters.push(if is_kept { letter } else { other }).ok()?;
        }
    }
    Some(())
}

// Returns the operands from one of them on, with another one in place of one.
fn operands_but(alloc: Global, takes: &str, first: usize, wrong: usize) -> Option<Vec<u8>> {
    let mut letters = String::new(alloc);
    match push_operands(&mut letters, takes, first, wrong) {
        Some(()) => bytes_of_letters(alloc, &letters),
        None => None,
    }
}

// Checks that an operator is refused after the operands from one of them on, with another one in place of one.
fn refuses(
    alloc: Global,
    resources: &ListedResources,
    takes: &str,
    operator: &[u8],
    first: usize,
    wrong: usize,
) -> Option<bool> {
    let before = operands_but(alloc, takes, first, wrong)?;
    let features = WasmFeatures::default();
    has_outcome(alloc, resources, features, &before, operator, REFUSED)
}

// Checks that an operator is refused where its first operand is missing, and where one of them is another.
fn refuses_others(
    alloc: Global,
    resources: &ListedResources,
    takes: &str,
    operator: &[u8],
) -> Option<bool> {
    let count = takes.len();
    if count > 0 && !refuses(alloc, resources, takes, operator, 1, count)? {
        return Some(false);
    }
    for wrong in 0..count {
        if !refuses(alloc, resources, takes, operator, 0, wrong)? {
            return Some(false);
        }
    }
    Some(true)
}

// Checks that an operator is refused without each feature, after code that never goes on.
fn asks_for(
    alloc: Global,
    resources: &ListedResources,
    features: &str,
    operator: &[u8],
) -> Option<bool> {
    for word in features.split_whitespace() {
        let features = WasmFeatures::default().difference(feature_of(word)?);
        if !has_outcome(alloc, resources, features, &[0x00], operator, REFUSED)? {
            return Some(false);
        }
    }
    Some(true)
}

// Checks that an operator gives these operands, also after code that never goes on, where it takes none that is known, and stays accepted under more
// features.
fn is_given(
    alloc: Global,
    resources: &ListedResources,
    before: &[u8],
    operator: &[u8],
    expected: &str,
) -> Option<bool> {
    let features = WasmFeatures::default();
    Some(
        gives(alloc, resources, features, before, operator, expected)?
            && has_outcome(alloc, resources, features, before, operator, expected)?
            && has_outcome(alloc, resources, features, &[0x00], operator, expected)?
            && stays_accepted_with_more(alloc, resources, before, operator)?,
    )
}

// Checks that a row holds of one of its operators.
fn code_holds(alloc: Global, resources: &ListedResources, row: &str, word: &str) -> Option<bool> {
    let (takes, _, expected, features) = four_fields(row)?;
    let operator = bytes_of(alloc, word)?;
    let before = bytes_of_letters(alloc, takes)?;
    Some(
        is_given(alloc, resources, &before, &operator, expected)?
            && refuses_others(alloc, resources, takes, &operator)?
            && asks_for(alloc, resources, features, &operator)?,
    )
}

fn codes_hold(alloc: Global, resources: &ListedResources, row: &str) -> Option<bool> {
    let (_, operators, _, _) = four_fields(row)?;
    for word in operators.split_whitespace() {
        if !code_holds(alloc, resources, row, word)? {
            return Some(false);
        }
    }
    Some(true)
}

fn rows_hold(alloc: Global, resources: &ListedResources) -> Result<(), &'static str> {
    check_rows(
        alloc,
        CODES,
        137,
        |alloc, row| codes_hold(alloc, resources, row),
    )
}

#[test]
fn operators_take_what_they_take_alone(rt: HostRuntime) -> Result<(), Fail> {
    let alloc = rt.alloc();
    let Some(resources) = ListedResources::example(alloc) else {
        assert!(rt; false);
        return Ok(());
    };
    let result = rows_hold(alloc, &resources);
    drop(resources);
    Ok(result?)
}
