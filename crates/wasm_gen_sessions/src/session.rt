//! Validating many modules, one after the other.

ghost use Rattle.std.specs.Prelude.{◌≡◌, [], false};
ghost use Rattle.wasm_core.specs.Features.{feature_set};

use crate::judge::{Error, ErrorKind, Types, ValidatorId};
use std::alloc::Global;
use std::marker::Model;
use std::{fmt, mem};
use wasm_core::features::WasmFeatures;
use wasmparser_validator::validator::Validator;

/// Validates modules under one set of features. The types of those that are valid, or refused in a body, stay in the validator's list, so that equal types of
/// all modules have one id where types are canonicalized. After a module with a refused body the next one is validated. After any other refusal the validator has
/// failed: each module is refused as `Failed` then, until [`restart`](Session::restart) hands in another validator.
///
/// Contracts see a session as its features, the validator's name, whether the validator failed, and the types that its list holds.
#[derive(Drop)]
pub struct Session {
    alloc: Global,
    validator: Validator,
    has_failed: bool,
}

impl Model for Session {
    ghost use Rattle.std.specs.Prelude.{◌≡◌, false};
    ghost use Rattle.wasm_gen_sessions.specs.History.{History, history_code};
    ghost use Rattle.wasmparser_validator.specs.Judges.{judge};
    ghost use Rattle.wasmparser_validator.specs.declared.validator.Stage.TheVariants as stages;

    ghost Value = { History };

    ghost coded = { history_code };

    ghost view = { λ s. record { features = (judge s.validator).features; id = (judge s.validator).id; has_failed = s.has_failed; held = (judge s.validator).held } };

    ghost invariant = { λ s. s.has_failed ≡ false → (judge s.validator).stage ≡ stages.Header };
}

impl Session {
    ghost use Rattle.wasm_gen_sessions.specs.Session.{Checks};

    /// Creates a session with these features, whose first validator has this name.
    pub fn new(alloc: Global, features: WasmFeatures, id: ValidatorId) -> Session
        ensures { result ≡ record { features = feature_set features; id = id; has_failed = false; held = [] } }
    {
        Session {
            alloc,
            validator: Validator::new_with_features(alloc, features, id),
            has_failed: false,
        }
    }

    /// Validates the bytes of a module, and shows the index spaces of a valid one.
    ///
    /// The kind of a refusal names a fault that is there, or running out of memory; which of several is named is open.
    ///
    /// # Errors
    /// `Failed` at 0 where the validator has failed; else those of `Validator::validate_all` but `Order`.
    pub fn check(&mut self, bytes: &[u8]) -> Result<Types, Error>
        ensures { Checks self.old bytes.now result self.new }
    {
        if self.has_failed {
            return Err(Error {
                offset: 0,
                kind: ErrorKind::Failed,
            });
        }
        let verdict = self.validator.validate_all(bytes);
        self.has_failed = self.validator.reset().is_err();
        verdict
    }

    /// Goes on with a new validator of this name, under the same features, whose ids begin anew.
    pub fn restart(&mut self, id: ValidatorId)
        ensures { self.new ≡ record { features = self.old.features; id = id; has_failed = false; held = [] } }
    {
        let next = Validator::new_with_features(self.alloc, self.features(), id);
        // (dropped by a call, which is cheaper to prove)
        drop(mem::replace(&mut self.validator, next));
        self.has_failed = false;
    }

    /// Checks that the validator has failed, and validates no more.
    pub fn has_failed(&self) -> bool
        ensures { result ≡ self.now.has_failed }
    {
        self.has_failed
    }

    /// Returns the name of the validator, as it was handed in last.
    pub fn id(&self) -> ValidatorId
        ensures { result ≡ self.now.id }
    {
        self.validator.id()
    }

    /// Returns the features under which modules are validated.
    pub fn features(&self) -> WasmFeatures
        ensures { feature_set result ≡ self.now.features }
    {
        self.validator.features()
    }
}

/// Shows the validator's name and whether it failed, and none of its types.
impl fmt::Debug for Session {
    fn fmt<W: fmt::Write>(&self, f: &mut fmt::Formatter<W>) -> fmt::Result {
        f.debug_struct("Session")
            .field("id", &self.id())
            .field("has_failed", &self.has_failed)
            .finish_non_exhaustive()
    }
}
