//! Validation of a module's bodies, after all its sections.

ghost use Rattle.std.specs.Prelude.{◌≡◌, ◌<◌, IfErr, IfOk, Err, Ok, length};
ghost use Rattle.wasmparser_module_state.specs.State.{context, features_of};
ghost use Rattle.wasmparser_module_state.specs.StateResources.{state_resources};
ghost use Rattle.wasmparser_module_types.specs.ModuleTypes.{AreKnownTypes};
ghost use Rattle.wasmparser_validator.specs.Bodies.{AreNamed, ValidatesBodies, ValidatesOwn};
ghost use Rattle.wasmparser_validator.specs.KnownSpaces.{IsReached};

use crate::types::Types;
use std::alloc::Global;
use wasmparser_error::error::Error;
use wasmparser_func_validator::func_to_validate::{FuncToValidate, FuncValidatorAllocations};
use wasmparser_module_state::module_state::ModuleState;
use wasmparser_payloads::function_body::FunctionBody;

// Returns the index spaces of a module that has ended, once its bodies are validated.
pub(crate) fn with_valid_bodies(
    alloc: Global,
    ended: Types,
    bodies: &[FunctionBody<'_>],
) -> Result<Types, Error>
    requires paired { length (context ended.state).own_functions ≡ length bodies.now }
    ensures shown { IfOk result (λ shown. shown ≡ ended) }
    ensures fine { IfOk result (λ _. ValidatesBodies (features_of ended.state) (state_resources ended.state).items (context ended.state) bodies.now (Ok tt)) }
    ensures refused { IfErr result (λ e. ValidatesBodies (features_of ended.state) (state_resources ended.state).items (context ended.state) bodies.now (Err e)) }
    ensures known { AreKnownTypes ended.state.types }
{
    let state = ended.state();
    state.types().are_known();
    match validate_bodies(alloc, state, bodies) {
        Ok(()) => Ok(ended),
        Err(error) => {
            drop(ended);
            Err(error)
        }
    }
}

// Validates the body of the function of the module's own at a place, reusing the allocations of others.
fn validate_function(
    state: &ModuleState,
    place: usize,
    body: &FunctionBody<'_>,
    allocations: FuncValidatorAllocations,
) -> Result<FuncValidatorAllocations, Error>
    requires reached { IsReached state.now }
    requires named { AreNamed (context state.now) }
    requires own { place < length (context state.now).own_functions }
    ensures fine { IfOk result (λ _. ValidatesOwn (features_of state.now) (state_resources state.now).items (context state.now) place body.now (Ok tt)) }
    ensures refused { IfErr result (λ e. ValidatesOwn (features_of state.now) (state_resources state.now).items (context state.now) place body.now (Err e)) }
{
    state.types().are_known();
    let imported = state.function_count() - state.own_function_count();
    let function = FuncToValidate {
        resources: state,
        index: (imported + place) as u32,
        ty: state.type_of_own_function(place).unwrap(),
        features: state.features(),
    };
    let mut validator = match function.into_validator(allocations) {
        Ok(validator) => validator,
        Err(error) => return Err(error.placed(body.range().start)),
    };
    validator.validate(body)?;
    Ok(validator.into_allocations())
}

// Validates the body of each function of the module's own.
fn validate_bodies(
    alloc: Global,
    state: &ModuleState,
    bodies: &[FunctionBody<'_>],
) -> Result<(), Error>
    requires reached { IsReached state.now }
    requires named { AreNamed (context state.now) }
    requires paired { length (context state.now).own_functions ≡ length bodies.now }
    ensures { ValidatesBodies (features_of state.now) (state_resources state.now).items (context state.now) bodies.now result }
{
    let mut allocations = FuncValidatorAllocations::new(alloc);
    for i in 0..bodies.len() {
        allocations = validate_function(state, i, &bodies[i], allocations)?;
    }
    Ok(())
}
