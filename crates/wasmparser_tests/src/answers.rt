//! Answers of a validator, without the values that it gives.

use std::alloc::Global;
use wasmparser::error::Error;
use wasmparser::func_to_validate::FuncValidatorAllocations;
use wasmparser::payload::Payload;
use wasmparser::types::{Types, TypesRef};
use wasmparser::valid_payload::ValidPayload;
use wasmparser::validator::Validator;

/// The numbers of functions and types that are shown of a module.
#[derive(Clone, Copy)]
pub struct Sizes {
    /// The functions.
    pub functions: u32,
    /// The types.
    pub types: u32,
}

fn sizes_of(view: TypesRef<'_>) -> Sizes {
    Sizes {
        functions: view.function_count(),
        types: view.core_type_count_in_module(),
    }
}

fn sizes_in(verdict: &Result<Types, Error>) -> Result<Sizes, Error> {
    match verdict {
        Ok(types) => Ok(sizes_of(types.as_ref())),
        Err(e) => Err(*e),
    }
}

/// Returns the answer to a whole module.
pub fn answer_to_all(validator: &mut Validator, bytes: &[u8]) -> Result<Sizes, Error> {
    let verdict = validator.validate_all(bytes);
    let answer = sizes_in(&verdict);
    drop(verdict);
    answer
}

/// Returns the answer to a module's end.
pub fn answer_to_end(validator: &mut Validator, offset: u64) -> Result<Sizes, Error> {
    let verdict = validator.end(offset);
    let answer = sizes_in(&verdict);
    drop(verdict);
    answer
}

/// Returns the answer to a payload, and to the body that it is: at a module's end the sizes that are shown of it.
pub fn answer_to_payload(
    alloc: Global,
    validator: &mut Validator,
    payload: &Payload<'_>,
) -> Result<Option<Sizes>, Error> {
    match validator.payload(payload)? {
        ValidPayload::Ok => Ok(None),
        ValidPayload::Func(function, body) => {
            let mut validator = function.into_validator(FuncValidatorAllocations::new(alloc))?;
            let answer = validator.validate(&body);
            drop(validator);
            match answer {
                Ok(()) => Ok(None),
                Err(e) => Err(e),
            }
        }
        ValidPayload::End(types) => {
            let sizes = sizes_of(types.as_ref());
            drop(types);
            Ok(Some(sizes))
        }
    }
}
