//! A body, whose validator is refused an allocation.

use std::alloc::Global;
use wasm_core_read::binary_reader::BinaryReader;
use wasm_core_types::features::WasmFeatures;
use wasm_test_rows::values::bytes_of;
use wasmparser_bodies::module_resources::WasmModuleResources;
use wasmparser_error::error::{Error, ErrorKind};
use wasmparser_func_validator::func_to_validate::FuncValidatorAllocations;
use wasmparser_func_validator::func_validator::FuncValidator;
use wasmparser_operators::operators_reader::OperatorsReader;
use wasmparser_types::ref_type::RefType;
use wasmparser_types::val_type::ValType;
use wasmparser_validation_rows::failures::has_failed;
use wasmparser_validation_rows::listed_resources::ListedResources;
use wasmparser_validation_rows::running::run;
use wasmparser_validation_rows::validators::{define_locals, validator_in};

// Operators of each kind that takes room: operands, blocks in blocks, a local that is set in them, calls, second lists, jumps, and what never goes on.
const BODY: &str =
    "4100*20 0240*9 d200 2103 2003 1a 4100 047f 4200 a7 05 4100 0b 1a 4100 4200 0201 1a 0b 1a d200 2203 1a 0b*9
    1a*20 1002 1a*2 4100 d009 1004 d5 00 1a 1a 00 4200 4200 4100 1b 1a 2000 0b";

// Returns the bytes of a field, at the second time where memory ran out at the first.
pub(crate) fn bytes(alloc: Global, field: &str) -> Option<Vec<u8>> {
    match bytes_of(alloc, field) {
        Some(bytes) => Some(bytes),
        None => bytes_of(alloc, field),
    }
}

pub(crate) fn example(alloc: Global) -> Option<ListedResources> {
    match ListedResources::example(alloc) {
        Some(resources) => Some(resources),
        None => ListedResources::example(alloc),
    }
}

// Returns a validator in some room, or in new room where memory ran out.
pub(crate) fn validator_of(
    alloc: Global,
    resources: &ListedResources,
    room: FuncValidatorAllocations,
) -> Option<FuncValidator<&ListedResources>> {
    let features = WasmFeatures::default();
    match validator_in(resources, 1, features, room)? {
        Ok(validator) => Some(validator),
        Err(error) => {
            if error.kind != ErrorKind::Memory {
                return None;
            }
            let room = FuncValidatorAllocations::new(alloc);
            match validator_in(resources, 1, features, room)? {
                Ok(validator) => Some(validator),
                Err(_) => None,
            }
        }
    }
}

fn declare<R: WasmModuleResources>(validator: &mut FuncValidator<R>) -> Option<Result<(), Error>> {
    match define_locals(validator, 0, 1, ValType::F64)? {
        Ok(()) => define_locals(validator, 0, 1, ValType::Ref(RefType::FUNC)),
        Err(error) => Some(Err(error)),
    }
}

// Returns the counts of the validator.
fn counts<R: WasmModuleResources>(validator: &FuncValidator<R>) -> (usize, usize, u32) {
    (
        validator.operand_stack_height(),
        validator.control_stack_height(),
        validator.len_locals(),
    )
}

// Checks that this is a refusal for lack of memory.
pub(crate) fn is_memory(answer: &Result<(), Error>) -> bool {
    match answer {
        Ok(()) => false,
        Err(error) => error.kind == ErrorKind::Memory,
    }
}

// Checks that the next operator is accepted, at the second time where memory ran out at the first.
fn takes_next<R: WasmModuleResources>(
    validator: &mut FuncValidator<R>,
    operators: &mut OperatorsReader<'_>,
) -> bool {
    let offset = operators.original_position();
    match operators.read() {
        Ok(operator) => {
            let before = counts(validator);
            let answer = validator.try_op(offset, &operator);
            if answer.is_ok() {
                return true;
            }
            is_memory(&answer)
                && counts(validator) == before
                && validator.try_op(offset, &operator).is_ok()
        }
        Err(_) => false,
    }
}

fn takes_all<R: WasmModuleResources>(validator: &mut FuncValidator<R>, bytes: &[u8]) -> bool {
    let mut operators = OperatorsReader::new(BinaryReader::new(bytes, 0));
    for _ in 0..bytes.len() {
        if operators.eof() {
            break;
        }
        if !takes_next(validator, &mut operators) {
            return false;
        }
    }
    operators.eof() && validator.control_stack_height() == 0
}

// Checks that each operator of a body is accepted if it is tried, also where memory runs out.
fn is_tried(alloc: Global, resources: &ListedResources, bytes: &[u8]) -> Option<bool> {
    let mut validator = validator_of(alloc, resources, FuncValidatorAllocations::new(alloc))?;
    let declared = match declare(&mut validator) {
        Some(answer) => answer,
        None => Ok(()),
    };
    // (without its locals it has failed, and nothing is left to try)
    let holds = if is_memory(&declared) {
        has_failed(&mut validator)
    } else {
        takes_all(&mut validator, bytes)
    };
    drop(validator);
    Some(holds)
}

// Validates the body, and answers whether memory ran out.
fn validates<R: WasmModuleResources>(
    validator: &mut FuncValidator<R>,
    bytes: &[u8],
) -> Option<bool> {
    let answer = match declare(validator)? {
        Ok(()) => run(validator, bytes, 0),
        Err(error) => Err(error),
    };
    if is_memory(&answer) {
        return if has_failed(validator) {
            Some(true)
        } else {
            None
        };
    }
    if answer.is_ok() && validator.control_stack_height() == 0 {
        Some(false)
    } else {
        None
    }
}

// Checks that a body is accepted, by a second validator in the room of the first where memory ran out. It runs out once.
fn is_accepted(alloc: Global, resources: &ListedResources, bytes: &[u8]) -> Option<bool> {
    let mut first = validator_of(alloc, resources, FuncValidatorAllocations::new(alloc))?;
    let ran_out = validates(&mut first, bytes);
    let mut second = validator_of(alloc, resources, first.into_allocations())?;
    let again = validates(&mut second, bytes);
    drop(second);
    Some(ran_out.is_some() && again == Some(false))
}

fn holds(alloc: Global, is_whole: bool) -> Option<bool> {
    let bytes = bytes(alloc, BODY)?;
    let resources = example(alloc)?;
    let holds = if is_whole {
        is_accepted(alloc, &resources, &bytes)
    } else {
        is_tried(alloc, &resources, &bytes)
    };
    drop(resources);
    holds
}

#[test]
fn refused_operators_change_nothing(rt: HostRuntime) {
    assert!(rt; holds(rt.alloc(), false) == Some(true));
}

#[test]
fn refused_bodies_are_validated_again_in_their_room(rt: HostRuntime) {
    assert!(rt; holds(rt.alloc(), true) == Some(true));
}
