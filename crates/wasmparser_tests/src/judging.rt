//! Validators that are handed modules piece by piece.

use crate::answers::{Sizes, answer_to_all, answer_to_end, answer_to_payload};
use crate::new_validator::{on_new_validator, on_new_validator_with};
use std::alloc::Global;
use std::iter::Iterator;
use std::test::Fail;
use wasm_core::binary_reader::BinaryReader;
use wasm_core::features::{Flags, WasmFeatures};
use wasm_test_rows::fields::two_fields;
use wasm_test_rows::rows::check_rows;
use wasm_test_rows::values::bytes_of;
use wasmparser::error::Error;
use wasmparser::function_body::FunctionBody;
use wasmparser::parser::Parser;
use wasmparser::section_limited::SectionLimited;
use wasmparser::validator::Validator;
use wasmparser::validator_id::ValidatorId;

/// Calls one after the other, each with its answer. The sections have one item each, among them a type of functions that take and give nothing, and a function
/// of it.
pub const CALLS: &str = "
    reset=ok types=none version=ok types=some reset=notended types=some end=ok types=none reset=ok version=ok
    type=order types=none version=failed reset=notended types=none
    version2=malformed version=failed
    version=ok version=order type=failed end=failed reset=notended
    version=ok type=ok function=ok code=ok memory=order code=failed
    version=ok type=ok function=ok code=ok type=order
    version=ok type=ok function=ok code=ok code=order
    version=ok memory=ok type=ok function=ok code=ok body=ok data=ok end=ok type=order end=order version=order reset=ok version=ok type=ok
    version=ok type=ok function=ok code=ok body=ok body=order body=failed
    version=ok body=order
    version=ok type=ok function=ok code=ok end=malformed reset=notended
    version=ok type=ok function=ok end=malformed
    version=ok function=invalid type=failed
    version=ok type=ok function=ok code=ok unknown=order
    version=ok unknown=malformed unknown=failed
    unknown=order
    end=order end=failed
    code=order
    version=ok count0=ok end=ok
    version=ok count1=ok end=malformed
    version=ok count1=ok data=invalid data=failed
    version=ok memory=ok count1=ok data=ok end=ok
    version=ok memory=ok count0=ok data=ok end=malformed
    version=ok count1=ok count0=malformed
    version=ok start=invalid
    version=ok type=ok function=ok start=ok code=ok body=ok end=ok
    version=ok code=ok end=ok
    all=ok types=none type=order reset=ok all=ok
    version=ok all=order all=failed
    allbad=malformed all=failed reset=notended
    allbody=body reset=ok all=ok all=order
    version=ok type=ok import=ok function=ok table=ok memory=ok tag=ok global=ok export=ok start=ok element=ok count1=ok code=ok body=ok data=ok end=ok
";

fn section<'a, T>(bytes: &'a [u8]) -> Result<SectionLimited<'a, T>, Error> {
    Ok(SectionLimited::new(BinaryReader::new(bytes, 8))?)
}

fn name_of<T>(given: &Result<T, Error>) -> &'static str {
    match given {
        Ok(_) => "ok",
        Err(e) => e.kind.name(),
    }
}

fn type_section(validator: &mut Validator) -> Result<(), Error> {
    validator.type_section(&section(&[1, 0x60, 0, 0])?)
}

fn import_section(validator: &mut Validator) -> Result<(), Error> {
    validator.import_section(&section(&[1, 1, 0x6d, 1, 0x67, 3, 0x7f, 0])?)
}

fn function_section(validator: &mut Validator) -> Result<(), Error> {
    validator.function_section(&section(&[1, 0])?)
}

fn table_section(validator: &mut Validator) -> Result<(), Error> {
    validator.table_section(&section(&[1, 0x70, 0, 1])?)
}

fn memory_section(validator: &mut Validator) -> Result<(), Error> {
    validator.memory_section(&section(&[1, 0, 1])?)
}

fn tag_section(validator: &mut Validator) -> Result<(), Error> {
    validator.tag_section(&section(&[1, 0, 0])?)
}

fn global_section(validator: &mut Validator) -> Result<(), Error> {
    validator.global_section(&section(&[1, 0x7f, 0, 0x23, 0, 0x0b])?)
}

fn export_section(validator: &mut Validator) -> Result<(), Error> {
    validator.export_section(&section(&[1, 1, 0x66, 0, 0])?)
}

fn element_section(validator: &mut Validator) -> Result<(), Error> {
    validator.element_section(&section(&[1, 0, 0x41, 0, 0x0b, 1, 0])?)
}

fn data_section(validator: &mut Validator) -> Result<(), Error> {
    validator.data_section(&section(&[1, 0, 0x41, 0, 0x0b, 0])?)
}

// Makes a call for a section of items.
fn answer_to_items(validator: &mut Validator, call: &str) -> Option<Result<(), Error>> {
    match call {
        "type" => Some(type_section(validator)),
        "import" => Some(import_section(validator)),
        "function" => Some(function_section(validator)),
        "table" => Some(table_section(validator)),
        "memory" => Some(memory_section(validator)),
        "tag" => Some(tag_section(validator)),
        "global" => Some(global_section(validator)),
        "export" => Some(export_section(validator)),
        "element" => Some(element_section(validator)),
        "data" => Some(data_section(validator)),
        _ => None,
    }
}

// Makes a call for another payload.
fn answer_to_other(validator: &mut Validator, call: &str) -> Option<Result<(), Error>> {
    let range = 8..16;
    match call {
        "start" => Some(validator.start_section(0, &range)),
        "count0" => Some(validator.data_count_section(0, &range)),
        "count1" => Some(validator.data_count_section(1, &range)),
        "unknown" => Some(validator.unknown_section(14, &range)),
        "version" => Some(validator.version(1, &range)),
        "version2" => Some(validator.version(2, &range)),
        "code" => Some(validator.code_section_start(&range)),
        _ => None,
    }
}

const MODULE: &[u8] = &[0, 0x61, 0x73, 0x6d, 1, 0, 0, 0];

// A module of one function, whose body has no end.
const BROKEN_BODY: &[u8] = &[
    0, 0x61, 0x73, 0x6d, 1, 0, 0, 0, 1, 4, 1, 0x60, 0, 0, 3, 2, 1, 0, 10, 3, 1, 1, 0,
];

fn answer_to_body(validator: &mut Validator) -> &'static str {
    let body = FunctionBody::new(BinaryReader::new(&[0, 0x0b], 20));
    name_of(&validator.code_section_entry(&body))
}

fn shows_types(validator: &Validator) -> &'static str {
    if validator.types(0).is_some() {
        "some"
    } else {
        "none"
    }
}

fn answer_to_reset(validator: &mut Validator) -> &'static str {
    match validator.reset() {
        Ok(()) => "ok",
        Err(_) => "notended",
    }
}

// Makes a call that answers something else.
fn other_answer(validator: &mut Validator, call: &str) -> &'static str {
    match call {
        "body" => answer_to_body(validator),
        "end" => name_of(&answer_to_end(validator, 30)),
        "all" => name_of(&answer_to_all(validator, MODULE)),
        "allbad" => name_of(&answer_to_all(validator, &[0])),
        "allbody" => name_of(&answer_to_all(validator, BROKEN_BODY)),
        "types" => shows_types(validator),
        "reset" => answer_to_reset(validator),
        _ => "no call",
    }
}

/// Returns what a call answers: `ok`, or why it is refused.
pub fn answer_to_call(validator: &mut Validator, call: &str) -> &'static str {
    if let Some(given) = answer_to_items(validator, call) {
        return name_of(&given);
    }
    match answer_to_other(validator, call) {
        Some(given) => name_of(&given),
        None => other_answer(validator, call),
    }
}

fn answers(_alloc: Global, validator: &mut Validator, row: &str) -> Option<bool> {
    for step in row.split_whitespace() {
        let (call, expected) = step.split_once('=')?;
        if answer_to_call(validator, call) != expected {
            return Some(false);
        }
    }
    Some(validator.types(1).is_none() && validator.id() == ValidatorId::new(5))
}

fn answers_in_turn(alloc: Global, row: &str) -> Option<bool> {
    on_new_validator_with(alloc, WasmFeatures::all(), row, answers)
}

#[test]
fn calls_are_answered_in_turn(rt: HostRuntime) -> Result<(), Fail> {
    Ok(check_rows(rt.alloc(), CALLS, 32, answers_in_turn)?)
}

// Hands in a module of empty sections, each by its own call.
fn judge_each(validator: &mut Validator) -> Result<(), Error> {
    validator.version(1, &(0..8))?;
    validator.type_section(&section(&[0])?)?;
    validator.import_section(&section(&[0])?)?;
    validator.function_section(&section(&[0])?)?;
    validator.table_section(&section(&[0])?)?;
    validator.memory_section(&section(&[0])?)?;
    validator.tag_section(&section(&[0])?)?;
    validator.global_section(&section(&[0])?)?;
    validator.export_section(&section(&[0])?)?;
    validator.element_section(&section(&[0])?)?;
    validator.data_section(&section(&[0])?)?;
    Ok(())
}

// Checks that no types are shown at its end.
fn has_no_types(_alloc: Global, validator: &mut Validator, _row: &str) -> Option<bool> {
    judge_each(validator).ok()?;
    Some(answer_to_end(validator, 30).ok()?.types == 0)
}

#[test]
fn each_section_has_a_call(rt: HostRuntime) {
    let holds = on_new_validator_with(rt.alloc(), WasmFeatures::all(), "", has_no_types);
    assert!(rt; holds == Some(true));
}

/// Modules, and what is answered to their payloads: how many functions and types there are, or what is refused.
pub const MODULES: &str = "
    0061736d01000000 | 0 0
    0061736d01000000 01 04 01 60 00 00 03 02 01 00 0a 04 01 02 00 0b | 1 1
    0061736d01000000 01 04 01 60 00 00 03 03 02 00 00 0a 07 02 02 00 0b 02 00 0b | 2 1
    0061736d01000000 01 04 01 60 00 00 03 03 02 00 00 0a 07 02 02 00 0b 02 00 06 | operator
    0061736d01000000 01 08 02 60 00 00 60 00 01 7f 03 03 02 00 01 0a 07 02 02 00 0b 02 00 0b | body
    0061736d01000000 01 04 01 60 00 00 03 02 01 00 0a 07 02 02 00 0b 02 00 0b | malformed
    0061736d01000000 0a 04 01 02 00 0b | malformed
    0061736d01000000 01 04 01 60 00 00 03 02 01 00 | malformed
    0061736d01000000 01 04 01 60 00 00 03 02 01 01 0a 04 01 02 00 0b | invalid
    0061736d01000000 00 03 01 63 07 01 04 01 60 00 00 0e 00 | malformed
    0061736d01000000 05 03 01 00 01 0c 01 01 0b 06 01 00 41 00 0b 00 | 0 0
    0061736d01000000 05 03 01 00 01 0c 01 02 0b 06 01 00 41 00 0b 00 | malformed

    // Bodies that name a data segment, with a data count section and without one, also where they are never reached, and past the count.
    0061736d01000000 010401600000 03020100 0503010001 0c0101 0a0e010c00 410041004100 fc080000 0b 0b03010100 | 1 1
    0061736d01000000 010401600000 03020100 0503010001        0a0e010c00 410041004100 fc080000 0b 0b03010100 | body
    0061736d01000000 010401600000 03020100 0503010001 0c0101 0a0e010c00 410041004100 fc080100 0b 0b03010100 | body
    0061736d01000000 010401600000 03020100 0503010001        0a09010700 00 fc080000 0b 0b03010100 | body
    0061736d01000000 010401600000 03020100 0c0101 0a07010500 fc0900 0b 0b03010100 | 1 1
    0061736d01000000 010401600000 03020100        0a07010500 fc0900 0b 0b03010100 | body
    0061736d01000000 010401600000 03020100 0c0101 0a07010500 fc0901 0b 0b03010100 | body
    0061736d01000000 010401600000 03020100        0a08010600 00 fc0900 0b 0b03010100 | body
    0061736d01000000 010401600000 03020100        0a05010300 00 0b 0b03010100 | 1 1
";

/// Returns the answer to the payloads of a module, one after the other.
pub fn answer_to_payloads(
    alloc: Global,
    validator: &mut Validator,
    bytes: &[u8],
) -> Result<Option<Sizes>, Error> {
    let mut sizes = None;
    for payload in Parser::new(0).parse_all(bytes) {
        let payload = payload?;
        sizes = answer_to_payload(alloc, validator, &payload)?;
    }
    Ok(sizes)
}

/// Checks that an answer is what a row says.
pub fn is_answer(
    alloc: Global,
    answer: Result<Option<Sizes>, Error>,
    expected: &str,
) -> Option<bool> {
    match answer {
        Ok(sizes) => {
            let Sizes { functions, types } = sizes?;
            Some(format!(in alloc; "{functions} {types}").ok()?.as_str() == expected)
        }
        Err(e) => Some(e.kind.name() == expected),
    }
}

// Modules of 10,000 bodies, of one less, and of a last one that is refused.
const MANY_BODIES: &str = "
    0061736d01000000 010401600000 03924e 904e 00*10000 0ab2ea01 904e 02000b*10000 | 10000 1
    0061736d01000000 010401600000 03924e 904e 00*10000 0aafea01 8f4e 02000b*9999 | malformed
    0061736d01000000 010401600000 03924e 904e 00*10000 0ab2ea01 904e 02000b*9999 020006 | operator
    0061736d01000000 010401600000 03924e 904e 00*10000 0ab3ea01 904e 02000b*9999 03001a0b | body
";

fn is_answered(alloc: Global, validator: &mut Validator, row: &str) -> Option<bool> {
    let (bytes, expected) = two_fields(row)?;
    let bytes = bytes_of(alloc, bytes)?;
    let answer = answer_to_payloads(alloc, validator, &bytes);
    is_answer(alloc, answer, expected)
}

fn payloads_are_answered(alloc: Global, row: &str) -> Option<bool> {
    on_new_validator(alloc, row, is_answered)
}

#[test]
fn payloads_are_judged_in_turn(rt: HostRuntime) -> Result<(), Fail> {
    Ok(check_rows(rt.alloc(), MODULES, 21, payloads_are_answered)?)
}

#[test]
fn many_bodies_are_judged_in_turn(rt: HostRuntime) -> Result<(), Fail> {
    Ok(check_rows(rt.alloc(), MANY_BODIES, 4, payloads_are_answered)?)
}
