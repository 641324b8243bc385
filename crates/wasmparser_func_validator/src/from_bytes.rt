//! Bodies validated from their bytes.

ghost use Rattle.std.specs.Prelude.{◌≡◌, ◌≤◌, [], Err, IfErr, IfOk, Some, false, length, map, true};
ghost use Rattle.wasm_bodies.specs.Bodies.{parameter};
ghost use Rattle.wasm_bodies.specs.BodyContext.{func_at};
ghost use Rattle.wasm_core_types.specs.Features.{feature_set};
ghost use Rattle.wasm_spec.specs.Types as types;
ghost use Rattle.wasmparser_bodies.specs.BodyAnswers.{AnswersOutcome, HasManyTypes, HasRightFront, IsBodyValidated, StandsAtItem, StandsAtRun};
ghost use Rattle.wasmparser_bodies.specs.LocalsAnswers.{ReadsLocals};
ghost use Rattle.wasmparser_bodies.specs.BodyStates.{IsAtStart, StopsInRest, rest_outcome};
ghost use Rattle.wasmparser_func_validator.specs.FromBytes.{ReadsDeclared, failed_at};
ghost use Rattle.wasmparser_func_validator.specs.Steps.{items_in, locals_in_body};
ghost use Rattle.wasmparser_func_validator.specs.Validation.{is_refused};
ghost use Rattle.wasmparser_types.specs.Index.{Index, packable};

use crate::func_validator::{FuncValidator, failed};
use wasm_core_read::binary_reader::BinaryReader;
use wasmparser_bodies::body_validator::BodyValidator;
use wasmparser_bodies::module_resources::WasmModuleResources;
use wasmparser_bodies::read_body::read_body;
use wasmparser_bodies::read_locals::read_locals;
use wasmparser_error::error::Error;
use wasmparser_payloads::function_body::FunctionBody;
use wasmparser_readers::passing::fork;

impl<T: WasmModuleResources> FuncValidator<T> {
    /// Reads the locals that a body declares, and adds them to those that there are. The reader stands at the body's first byte, and after a refusal
    /// it stands there still.
    ///
    /// # Errors
    /// `Body` where the number of runs or a run doesn't read, or a run's type is not allowed, is not there, or has an index of 2^20 or more, `Limit` where there are too
    /// many locals, `Memory` where memory runs out, at a run that may come; each is at a place of the reader's bytes or their end; or `Failed` at the body's first byte after a
    /// refusal.
    pub fn read_locals(&mut self, reader: &mut BinaryReader<'_>) -> Result<(), Error>
        ensures read { self.old.failed ≡ false → ReadsLocals (⟦<FuncValidator<T> as BodyValidator>⟧.state self.old) (⟦<FuncValidator<T> as BodyValidator>⟧.state self.new) reader.old reader.new result }
        ensures declared { self.old.failed ≡ false → length (items_in T.resources self.old.body).types ≤ packable → (type : types.FuncType Index) → locals_in_body T.resources self.old.body ≡ map parameter type.params → ReadsDeclared (feature_set self.old.body.features) (items_in T.resources self.old.body) type reader.old reader.new (locals_in_body T.resources self.new.body) result }
        ensures so_far { self.old.failed ≡ false → (type : types.FuncType Index) → locals_in_body T.resources self.old.body ≡ map parameter type.params → HasRightFront (feature_set self.old.body.features) (items_in T.resources self.old.body) type StandsAtRun reader.old.rest reader.old.position result }
        ensures after_refusal { self.old.failed ≡ true → (result ≡ Err (failed_at reader.old.position)) × (self.new ≡ self.old) }
        ensures failed { self.new.failed ≡ is_refused result }
        ensures stays { IfErr result (λ _. reader.new ≡ reader.old) }
        ensures others { (self.new.body.ty ≡ self.old.body.ty) × (self.new.body.features ≡ self.old.body.features) × (self.new.body.resources ≡ self.old.body.resources) × (self.new.index ≡ self.old.index) }
    {
        if self.failed {
            return Err(failed(reader.original_position()));
        }
        // (there are no more locals than the limit lets through)
        let _ = self.body.local_count();
        let start = fork(reader);
        let result = read_locals(reader, self);
        self.failed = result.is_err();
        if self.failed {
            *reader = start;
        }
        result
    }

    /// Validates a body whole, under the validator's features.
    ///
    /// # Errors
    /// `Limit` where there are too many locals, `Operator` where a code stands that no operator has, after locals and operators that a body
    /// may begin with, `Body` where the body is broken otherwise, or names a value type whose index is 2^20 or more, `Memory` where memory runs out, at a run of locals or
    /// an operator that may come; each is at a place of the body or its end. Or `Failed` at the body's first byte after a refusal.
    pub fn validate(&mut self, body: &FunctionBody<'_>) -> Result<(), Error>
        ensures validated { self.old.failed ≡ false → length (items_in T.resources self.old.body).types ≤ packable → IsAtStart (⟦<FuncValidator<T> as BodyValidator>⟧.state self.old) → (type : types.FuncType Index) → func_at (items_in T.resources self.old.body) self.old.body.ty ≡ Some type → IsBodyValidated (feature_set self.old.body.features) (items_in T.resources self.old.body) type body.now.rest body.now.position result }
        ensures so_far { self.old.failed ≡ false → IsAtStart (⟦<FuncValidator<T> as BodyValidator>⟧.state self.old) → (type : types.FuncType Index) → func_at (items_in T.resources self.old.body) self.old.body.ty ≡ Some type → HasRightFront (feature_set self.old.body.features) (items_in T.resources self.old.body) type (StandsAtItem (feature_set self.old.body.features)) body.now.rest body.now.position result }
        ensures answers { self.old.failed ≡ false → AnswersOutcome (HasManyTypes (items_in T.resources self.old.body)) (StopsInRest (⟦<FuncValidator<T> as BodyValidator>⟧.state self.old) body.now.rest) body.now result (rest_outcome (⟦<FuncValidator<T> as BodyValidator>⟧.state self.old) body.now.rest) }
        ensures after_refusal { self.old.failed ≡ true → (result ≡ Err (failed_at body.now.position)) × (self.new ≡ self.old) }
        ensures failed { self.new.failed ≡ is_refused result }
        ensures ended { IfOk result (λ _. self.new.stacks.frames ≡ []) }
        ensures others { (self.new.body.ty ≡ self.old.body.ty) × (self.new.body.features ≡ self.old.body.features) × (self.new.body.resources ≡ self.old.body.resources) × (self.new.index ≡ self.old.index) }
    {
        let mut reader = body.get_binary_reader();
        if self.failed {
            return Err(failed(reader.original_position()));
        }
        // (there are no more locals than the limit lets through)
        let _ = self.body.local_count();
        reader.set_features(self.body.features);
        let result = read_body(&mut reader, self);
        self.failed = result.is_err();
        result
    }
}
