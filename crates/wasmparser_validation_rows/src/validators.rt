//! Validators of bodies, made by what they ask for.

ghost use Rattle.std.specs.Prelude.{◌≡◌, is_some};
ghost use Rattle.wasm_bodies.specs.BodyContext.{func_at};

use wasm_core_types::features::WasmFeatures;
use wasmparser_bodies::module_resources::WasmModuleResources;
use wasmparser_error::error::Error;
use wasmparser_func_validator::func_to_validate::{FuncToValidate, FuncValidatorAllocations};
use wasmparser_func_validator::func_validator::FuncValidator;
use wasmparser_readers::val_type::val_is_of_module;
use wasmparser_types::val_type::ValType;

/// The index of the functions whose bodies are validated.
pub const FUNCTION: u32 = 3;

// Checks that a type index names a function type.
#[tactic(auto, using(crate::proofs::FunctionTypes::functions))]
fn is_function_type<R: WasmModuleResources>(resources: &R, ty: u32) -> bool
    ensures { result ≡ is_some (func_at (R.resources resources.now).items ty) }
{
    match resources.sub_type_at(ty) {
        Some(it) => it.composite_type.as_func().is_some(),
        None => false,
    }
}

/// Returns the validator of a body in this room, or None where the type index names no function type.
pub fn validator_in<R: WasmModuleResources + Drop>(
    resources: R,
    ty: u32,
    features: WasmFeatures,
    room: FuncValidatorAllocations,
) -> Option<Result<FuncValidator<R>, Error>> {
    if !is_function_type(&resources, ty) {
        return None;
    }
    let function = FuncToValidate {
        resources,
        index: FUNCTION,
        ty,
        features,
    };
    Some(function.into_validator(room))
}

/// Adds locals of a type, or answers None where it names a type by an id.
pub fn define_locals<R: WasmModuleResources>(
    validator: &mut FuncValidator<R>,
    offset: u64,
    count: u32,
    ty: ValType,
) -> Option<Result<(), Error>> {
    if !val_is_of_module(&ty) {
        return None;
    }
    Some(validator.define_locals(offset, count, ty))
}
