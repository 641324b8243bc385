//! The validator of one body.

ghost use Rattle.std.specs.Prelude.{◌≡◌, IfErr, OnOk, None, Some, false, length, map, option_map, slice_get};
ghost use Rattle.wasm_bodies.specs.Bodies.{parameter};
ghost use Rattle.wasm_bodies.specs.BodyContext.{written};
ghost use Rattle.wasm_bodies.specs.Operators.{Indexed};
ghost use Rattle.wasm_bodies_laws.specs.Machine.{at_start, frame_type, stepped};
ghost use Rattle.wasm_core_types.specs.Features.{feature_set};
ghost use Rattle.wasmparser_error.specs.declared.error.ErrorKind.TheVariants as kinds;
ghost use Rattle.wasmparser_func_validator.specs.Steps.{body_context, items_in, locals_in_body, params_in};
ghost use Rattle.wasmparser_func_validator.specs.Validation.{Defines, IsRefusedStart, Tries, Validates, is_refused, known_type, locals_error, type_seen, unless_failed};
ghost use Rattle.wasmparser_operators.specs.OperatorValues as code;
ghost use Rattle.wasmparser_bodies.specs.StackChanges.{all_known, places_of};
ghost use Rattle.wasmparser_bodies.specs.StackViews.{block_kept, block_seen, place_kept};
ghost use Rattle.wasmparser_types.specs.ValTypes.{val_type};

use crate::body::Body;
use crate::func_to_validate::FuncValidatorAllocations;
use crate::lookups::params_at;
use crate::refusal::Refusal;
use wasm_core_types::features::WasmFeatures;
use wasm_core_types::limits::Limit;
use wasmparser_bodies::frame::{Frame, FrameKind};
use wasmparser_bodies::locals::LocalsError;
use wasmparser_bodies::module_resources::WasmModuleResources;
use wasmparser_bodies::operand::Operand;
use wasmparser_bodies::stacks::Stacks;
use wasmparser_error::error::{Error, ErrorKind};
use wasmparser_operators::immediates::BlockType;
use wasmparser_operators::operator::Operator;
use wasmparser_types::val_type::ValType;

/// Validates a body, operator by operator. After a refusal, other than one of `try_op`, it refuses all that comes, and tells nothing of
/// locals, operands and blocks.
#[derive(Drop)]
pub struct FuncValidator<T> {
    pub(crate) body: Body<T>,
    pub(crate) stacks: Stacks,
    pub(crate) index: u32,
    pub(crate) failed: bool,
}

// Creates the error for a call after a refusal.
pub(crate) fn failed(offset: u64) -> Error
    ensures { result ≡ record { offset = offset; kind = kinds.Failed } }
{
    Error {
        offset,
        kind: ErrorKind::Failed,
    }
}

fn locals_refusal(error: LocalsError, offset: u64) -> Error
    ensures { result ≡ locals_error error offset }
{
    match error {
        LocalsError::Limit => Error {
            offset,
            kind: ErrorKind::Limit(Limit::Locals),
        },
        LocalsError::Memory => Error::out_of_memory(offset),
    }
}

impl<T: WasmModuleResources> FuncValidator<T> {
    /// Validates the next operator. Types in it are named by their places in the module, as a reader gives them.
    ///
    /// # Errors
    /// At the offset: `Body` where it may not stand there, `Memory`, or `Failed` after a refusal.
    pub fn op(&mut self, offset: u64, operator: &Operator<'_>) -> Result<(), Error>
        requires { code.NamesModuleTypes operator.now }
        ensures validated { Validates self.old.failed offset (stepped (body_context T.resources self.old.body) self.old.stacks (code.operator operator.now)) self.new.stacks self.new.failed result }
        ensures body { self.new.body ≡ self.old.body }
        ensures index { self.new.index ≡ self.old.index }
    {
        if self.failed {
            return Err(failed(offset));
        }
        match self.body.step(&mut self.stacks, operator) {
            Ok(()) => Ok(()),
            Err(refusal) => {
                self.failed = true;
                Err(refusal.at(offset))
            }
        }
    }

    /// Does the same as `op`, but a refusal changes nothing.
    ///
    /// # Errors
    /// Those of `op`.
    pub fn try_op(&mut self, offset: u64, operator: &Operator<'_>) -> Result<(), Error>
        requires { code.NamesModuleTypes operator.now }
        ensures tried { Tries self.old.failed offset (stepped (body_context T.resources self.old.body) self.old.stacks (code.operator operator.now)) self.old.stacks self.new.stacks self.new.failed result }
        ensures body { self.new.body ≡ self.old.body }
        ensures index { self.new.index ≡ self.old.index }
    {
        if self.failed {
            return Err(failed(offset));
        }
        match self.body.step(&mut self.stacks, operator) {
            Ok(()) => Ok(()),
            Err(refusal) => Err(refusal.at(offset)),
        }
    }

    // Opens the body as a block, and begins its locals with the parameters.
    #[tactic(auto, unfolding(crate::specs::Steps::locals_in_body))]
    pub(crate) fn begin(&mut self) -> Result<(), Error>
        ensures stacks { OnOk result (self.new.stacks ≡ at_start self.old.body.ty) }
        ensures locals { OnOk result (locals_in_body T.resources self.new.body ≡ map parameter (params_in T.resources self.old.body)) }
        ensures given { OnOk result ((self.new.body.resources ≡ self.old.body.resources) × (self.new.body.features ≡ self.old.body.features) × (self.new.body.ty ≡ self.old.body.ty) × (self.new.index ≡ self.old.index) × (self.new.failed ≡ self.old.failed)) }
        ensures refused { IfErr result (λ e. IsRefusedStart (params_in T.resources self.old.body) e.kind e.offset) }
    {
        self.body.locals.reset();
        let params = params_at(&self.body.resources, self.body.ty);
        if let Err(error) = self.body.locals.define_parameters(params) {
            return Err(locals_refusal(error, 0));
        }
        self.stacks.reset();
        let ty = BlockType::FuncType(self.body.ty);
        match self.stacks.enter(FrameKind::Block, ty, 0, &[]) {
            Ok(()) => Ok(()),
            Err(_) => Err(Refusal::Memory.at(0)),
        }
    }

    // Defines locals, as `define_locals` does, where nothing was refused.
    #[tactic(auto, unfolding(crate::specs::Steps::locals_in_body))]
    fn add_locals(&mut self, offset: u64, count: u32, ty: &ValType) -> Result<(), Error>
        requires { code.IsOfModule ty.now }
        ensures defined { Defines false offset count (written (feature_set self.old.body.features) (items_in T.resources self.old.body) (code.module_type ty.now)) (locals_in_body T.resources self.old.body) (locals_in_body T.resources self.new.body) (is_refused result) result }
        ensures stacks { self.new.stacks ≡ self.old.stacks }
        ensures others { (self.new.body.ty ≡ self.old.body.ty) × (self.new.body.features ≡ self.old.body.features) × (self.new.body.resources ≡ self.old.body.resources) × (self.new.index ≡ self.old.index) × (self.new.failed ≡ self.old.failed) }
    {
        let Some(ty) = self.body.written(ty) else {
            return Err(Error {
                offset,
                kind: ErrorKind::Body,
            });
        };
        match self.body.locals.define(count, ty) {
            Ok(()) => Ok(()),
            Err(error) => Err(locals_refusal(error, offset)),
        }
    }

    /// Adds so many locals of a type, whose type index, if it has one, is one of the module.
    ///
    /// # Errors
    /// At the offset: `Body` where the type is not allowed or there is no such type, `Limit` where there are too many locals, `Memory`, or `Failed` after a
    /// refusal.
    pub fn define_locals(&mut self, offset: u64, count: u32, ty: ValType) -> Result<(), Error>
        requires { code.IsOfModule ty }
        ensures defined { Defines self.old.failed offset count (written (feature_set self.old.body.features) (items_in T.resources self.old.body) (code.module_type ty)) (locals_in_body T.resources self.old.body) (locals_in_body T.resources self.new.body) self.new.failed result }
        ensures stacks { self.new.stacks ≡ self.old.stacks }
        ensures others { (self.new.body.ty ≡ self.old.body.ty) × (self.new.body.features ≡ self.old.body.features) × (self.new.body.resources ≡ self.old.body.resources) × (self.new.index ≡ self.old.index) }
    {
        if self.failed {
            return Err(failed(offset));
        }
        let result = self.add_locals(offset, count, &ty);
        if result.is_err() {
            self.failed = true;
        }
        result
    }

    /// Returns the features under which the body is validated.
    pub fn features(&self) -> &WasmFeatures
        ensures { result.now ≡ self.now.body.features }
    {
        &self.body.features
    }

    /// Returns the resources of the module.
    pub fn resources(&self) -> &T
        ensures { result.now ≡ self.now.body.resources }
    {
        &self.body.resources
    }

    /// Returns the index of the function.
    pub fn index(&self) -> u32
        ensures { result ≡ self.now.index }
    {
        self.index
    }

    /// Returns the number of locals, parameters counted.
    pub fn len_locals(&self) -> u32
        ensures { result ≡ unless_failed self.now.failed 0 (length (locals_in_body T.resources self.now.body)) }
    {
        if self.failed {
            return 0;
        }
        self.body.local_count()
    }

    /// Returns the type of a local.
    pub fn get_local_type(&self, index: u32) -> Option<ValType>
        ensures { option_map val_type result ≡ unless_failed self.now.failed None (option_map (λ local. local.type) (slice_get (locals_in_body T.resources self.now.body) index)) }
    {
        if self.failed {
            return None;
        }
        match self.body.local_at(index) {
            Some(local) => Some(local.value_type),
            None => None,
        }
    }

    /// Returns the number of operands that are known, in all open blocks.
    pub fn operand_stack_height(&self) -> usize
        ensures { result ≡ unless_failed self.now.failed 0 (length (all_known self.now.stacks)) }
    {
        if self.failed {
            return 0;
        }
        self.stacks.operand_count()
    }

    /// Returns the type of an operand at a depth, in whichever block, the last one at 0: none where it is unknown.
    pub fn get_operand_type(&self, depth: usize) -> Option<Option<ValType>>
        ensures { option_map type_seen result ≡ unless_failed self.now.failed None (option_map known_type (slice_get (all_known self.now.stacks) depth)) }
    {
        if self.failed {
            return None;
        }
        match self.stacks.operand_at(depth) {
            Some(Operand::Known(ty)) => Some(Some(ty)),
            Some(Operand::Unknown) => Some(None),
            Some(Operand::UnknownRef) => Some(None),
            None => None,
        }
    }

    /// Returns the number of open blocks, the body itself counted.
    pub fn control_stack_height(&self) -> usize
        ensures { result ≡ unless_failed self.now.failed 0 (length self.now.stacks.frames) }
    {
        if self.failed {
            return 0;
        }
        self.stacks.frame_count()
    }

    /// Returns the open block at a depth, the innermost one at 0.
    pub fn get_control_frame(&self, depth: usize) -> Option<&Frame>
        ensures block { option_map (λ f. block_kept f.now) result ≡ unless_failed self.now.failed None (option_map block_seen (slice_get self.now.stacks.frames depth)) }
        ensures place { option_map (λ f. place_kept f.now) result ≡ unless_failed self.now.failed None (slice_get (places_of self.now.stacks) depth) }
    {
        if self.failed {
            return None;
        }
        self.stacks.frame_at(depth)
    }
}

impl<T: Drop> FuncValidator<T> {
    /// Returns the room that was taken, for the next body.
    pub fn into_allocations(self) -> FuncValidatorAllocations {
        FuncValidatorAllocations {
            stacks: self.stacks,
            locals: self.body.locals,
        }
    }
}
