//! A function to validate, and the memory that its validator takes.

ghost use Rattle.std.specs.Prelude.{◌≡◌, IfErr, IfOk, IsSome, false, map};
ghost use Rattle.wasm_bodies.specs.BodyContext.{func_at};
ghost use Rattle.wasm_bodies.specs.Bodies.{parameter};
ghost use Rattle.wasm_bodies_laws.specs.Machine.{at_start, frame_type};
ghost use Rattle.wasm_bodies.specs.Operators.{Indexed};
ghost use Rattle.wasmparser_func_validator.specs.Steps.{locals_in_body};
ghost use Rattle.wasmparser_func_validator.specs.Validation.{IsRefusedStart};

use crate::body::Body;
use crate::func_validator::FuncValidator;
use std::alloc::Global;
use wasm_core_types::features::WasmFeatures;
use wasmparser_bodies::locals::Locals;
use wasmparser_bodies::module_resources::WasmModuleResources;
use wasmparser_bodies::stacks::Stacks;
use wasmparser_error::error::Error;

/// The room that validators of bodies take, one after the other.
#[derive(Drop)]
pub struct FuncValidatorAllocations {
    pub(crate) stacks: Stacks,
    pub(crate) locals: Locals,
}

impl FuncValidatorAllocations {
    /// Creates an instance without capacity. Nothing is allocated.
    pub fn new(alloc: Global) -> FuncValidatorAllocations {
        FuncValidatorAllocations {
            stacks: Stacks::new(alloc),
            locals: Locals::new(alloc),
        }
    }
}

/// A function whose body is to be validated.
#[derive(Debug, Drop)]
pub struct FuncToValidate<T> {
    /// The resources of the module.
    pub resources: T,
    /// The index of the function.
    pub index: u32,
    /// The index of its type.
    pub ty: u32,
    /// The features under which the body is validated.
    pub features: WasmFeatures,
}

impl<T: WasmModuleResources + Drop> FuncToValidate<T> {
    /// Returns the validator of the function's body, in this room. Its type is a function type.
    ///
    /// # Errors
    /// At 0: `Limit` where the parameters alone are too many locals, or `Memory`.
    pub fn into_validator(self, allocs: FuncValidatorAllocations) -> Result<FuncValidator<T>, Error>
        requires { IsSome (func_at (T.resources self.resources).items self.ty) }
        ensures stacks { IfOk result (λ v. v.stacks ≡ at_start self.ty) }
        ensures locals { IfOk result (λ v. locals_in_body T.resources v.body ≡ map parameter (frame_type (T.resources self.resources).items (Indexed self.ty)).params) }
        ensures given { IfOk result (λ v. (v.body.resources ≡ self.resources) × (v.body.features ≡ self.features) × (v.body.ty ≡ self.ty) × (v.index ≡ self.index) × (v.failed ≡ false)) }
        ensures refused { IfErr result (λ e. IsRefusedStart (frame_type (T.resources self.resources).items (Indexed self.ty)).params e.kind e.offset) }
    {
        let FuncValidatorAllocations { stacks, locals } = allocs;
        let mut validator = FuncValidator {
            body: Body {
                resources: self.resources,
                features: self.features,
                locals,
                ty: self.ty,
            },
            stacks,
            index: self.index,
            failed: false,
        };
        validator.begin()?;
        Ok(validator)
    }
}
