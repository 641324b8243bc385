//! The index spaces of a valid module, or of a module so far.

ghost use Rattle.std.specs.Iterator.{YieldsFirstBy, item_count};
ghost use Rattle.std.specs.Prelude.{◌≡◌, [], ◌<◌, ◌^◌, IfErr, IfOk, IsSomeAnd, false, length, true};
ghost use Rattle.wasm_core_types.specs.Features.{feature_set};
ghost use Rattle.wasm_validity.specs.Context.{at_first};
ghost use Rattle.wasmparser_readers.specs.Exports.{export_item};
ghost use Rattle.wasmparser_module_state.specs.History.{grows, held};
ghost use Rattle.wasmparser_module_types.specs.ModuleTypes.{AreKnownTypes};
ghost use Rattle.wasmparser_module_state.specs.State.{context, features_of};
ghost use Rattle.wasmparser_module_state.specs.StateResources.{state_resources};
ghost use Rattle.wasmparser_payloads.specs.Parsing.{piece};
ghost use Rattle.wasmparser_validator.specs.Bodies.{AreNamed};
ghost use Rattle.wasmparser_validator.specs.KnownSpaces.{CanBeShown, IsEndOf, IsReached};
ghost use Rattle.wasmparser_validator.specs.PieceJudging.{AddsPiece, has_groups};
ghost use Rattle.wasmparser_validator.specs.Shown.{exports_left, known, spaces};
ghost use Rattle.wasmparser_validator.specs.TypeGroups.{AreOfGroups};

use crate::payload::add_payload;
use crate::validator_id::ValidatorId;
use std::alloc::{AllocError, Global};
use std::marker::Model;
use std::mem;
use wasm_core_types::features::WasmFeatures;
use wasm_validity_laws::laws::{known_imports, named_functions, named_types};
use wasmparser_error::error::Error;
use wasmparser_module_state::module_state::ModuleState;
use wasmparser_names::export_names::ExportNames;
use wasmparser_payloads::payload::Payload;
use wasmparser_readers::export::Export;

/// The index spaces of a valid module. Contracts see who made them, and what is known of the module. A validator adds entries to its own as it reads a module.
#[derive(Drop)]
pub struct Types {
    id: ValidatorId,
    state: ModuleState,
}

impl Model for Types {
    ghost use Rattle.wasmparser_module_state.specs.contracts.module_state.ModuleState as kept;
    ghost use Rattle.wasmparser_validator.specs.KnownSpaces.{IsReached, KnownModule, known_module_code};

    ghost Value = { KnownModule };

    ghost coded = { known_module_code kept.the_row.coded };

    ghost view = { λ t. record { id = t.id; state = t.state } };

    ghost invariant = { λ t. IsReached t.state };
}

impl Types {
    // Returns the index spaces of a module without entries, under these features, with a list without types, by the validator of this name.
    #[tactic(auto, using(crate::proofs::ReachedLaws::reached_first))]
    pub(crate) fn without_entries(alloc: Global, features: WasmFeatures, id: ValidatorId) -> Types
        ensures nothing { context result.state ≡ at_first }
        ensures no_types { held result.state ≡ [] }
        ensures features { features_of result.state ≡ feature_set features }
        ensures grows { grows result.state ≡ true }
        ensures id { result.id ≡ id }
    {
        Types {
            id,
            state: ModuleState::new(alloc, features),
        }
    }

    // Returns what is known of the module.
    #[tactic(auto, using(crate::proofs::ReachedLaws::shown_steps))]
    pub(crate) fn state(&self) -> &ModuleState
        ensures same { result.now ≡ self.now.state }
        ensures reached { IsReached result.now }
        ensures shown { CanBeShown result.now }
        ensures named { AreNamed (context result.now) }
    {
        // The laws that the clauses follow from, which do nothing.
        named_functions();
        named_types();
        known_imports();
        &self.state
    }

    // Validates a payload, and adds its entries. After an error there are none, and the list has no types.
    #[tactic(auto, using(crate::proofs::ReachedLaws::next_steps))]
    pub(crate) fn add(&mut self, alloc: Global, payload: &Payload<'_>) -> Result<(), Error>
        requires grows { grows self.old.state ≡ true }
        ensures added { AddsPiece (features_of self.old.state) (context self.old.state) (held self.old.state) (piece payload.now) result (context self.new.state) (held self.new.state) }
        ensures types { has_groups (piece payload.now) ≡ false → IfOk result (λ _. self.new.state.types ≡ self.old.state.types) }
        ensures lost { IfErr result (λ _. (context self.new.state ≡ at_first) × (held self.new.state ≡ [])) }
        ensures features { features_of self.new.state ≡ features_of self.old.state }
        ensures grows { grows self.new.state ≡ true }
        ensures id { self.new.id ≡ self.old.id }
    {
        let features = self.state.features();
        match add_payload(alloc, &mut self.state, payload) {
            Ok(()) => Ok(()),
            Err(error) => {
                // (dropped by a call, which is cheaper to prove)
                drop(mem::replace(&mut self.state, ModuleState::new(alloc, features)));
                Err(error)
            }
        }
    }

    // Returns the index spaces of a module that ends, with a copy of the list that doesn't grow, and goes on with the list and no entries.
    #[tactic(auto, using(crate::proofs::ReachedLaws::end_steps))]
    pub(crate) fn end_module(&mut self) -> Result<Types, AllocError>
        ensures ended { IfOk result (IsEndOf self.old) }
        ensures next { IfOk result (λ _. context self.new.state ≡ at_first) }
        ensures kept { IfOk result (λ _. self.new.state.types ≡ record self.old.state.types { types = []; groups = 0; ids = [] }) }
        ensures refused { IfErr result (λ _. self.new ≡ self.old) }
        ensures id { self.new.id ≡ self.old.id }
    {
        Ok(Types {
            id: self.id,
            state: self.state.end_module()?,
        })
    }

    // Returns a copy of what bodies may ask of the module, by a list that doesn't grow.
    pub(crate) fn copy_resources(&mut self) -> Result<ModuleState, AllocError>
        ensures asks { IfOk result (λ copy. state_resources copy ≡ state_resources self.old.state) }
        ensures same { self.new ≡ self.old }
    {
        self.state.copy_resources()
    }

    /// Returns the index spaces, borrowed.
    pub fn as_ref(&self) -> TypesRef<'_>
        ensures { result.types.now ≡ self.now }
    {
        TypesRef { types: self }
    }
}

/// The index spaces of a valid module, or of a module so far, borrowed.
#[derive(Clone, Copy)]
pub struct TypesRef<'a> {
    types: &'a Types,
}

impl<'a> TypesRef<'a> {
    // Returns the state of the module.
    pub(crate) fn state(&self) -> &'a ModuleState
        ensures same { result.now ≡ self.now.types.now.state }
        ensures shown { CanBeShown result.now }
    {
        let types = self.types;
        types.state()
    }

    /// Returns the name of the validator that made this.
    pub fn id(&self) -> ValidatorId
        ensures { result ≡ self.now.types.now.id }
    {
        let types = self.types;
        types.id
    }

    /// Returns the number of types.
    pub fn core_type_count_in_module(&self) -> u32
        ensures { result ≡ length (spaces self.now).types }
    {
        self.state().type_count() as u32
    }

    /// Does nothing: its contract states what always holds of the types by their ids.
    pub fn are_known(&self)
        ensures { AreKnownTypes (known self.now) }
    {
        self.state().types().are_known();
    }

    /// Does nothing: its contract states that the types are those of groups that keep the rules.
    #[tactic(auto, using(crate::proofs::TypeGroups::of_groups))]
    pub fn are_of_groups(&self)
        ensures { AreOfGroups (known self.now).features (spaces self.now).types }
    {
        let types = self.types;
        let _ = types.state();
    }

    /// Returns the number of functions, imported ones counted.
    pub fn function_count(&self) -> u32
        ensures { result ≡ length (spaces self.now).functions }
    {
        self.state().function_count() as u32
    }

    /// Returns the number of tables, imported ones counted.
    pub fn table_count(&self) -> u32
        ensures { result ≡ length (spaces self.now).tables }
    {
        self.state().table_count() as u32
    }

    /// Returns the number of memories, imported ones counted.
    pub fn memory_count(&self) -> u32
        ensures { result ≡ length (spaces self.now).memories }
    {
        self.state().memory_count() as u32
    }

    /// Returns the number of globals, imported ones counted.
    pub fn global_count(&self) -> u32
        ensures { result ≡ length (spaces self.now).globals }
    {
        self.state().global_count() as u32
    }

    /// Returns the number of tags, imported ones counted.
    pub fn tag_count(&self) -> u32
        ensures { result ≡ length (spaces self.now).tags }
    {
        self.state().tag_count() as u32
    }

    /// Returns the number of element segments.
    pub fn element_count(&self) -> u32
        ensures { result ≡ length (spaces self.now).elements }
    {
        self.state().element_count() as u32
    }

    /// Returns the number of exports.
    pub fn export_count(&self) -> u32
        ensures { result ≡ length (spaces self.now).exports }
    {
        self.state().exports().len() as u32
    }

    /// Returns the exports in order. Always `Some`, since there are no components.
    pub fn core_exports(&self) -> Option<CoreExports<'a>>
        ensures all { IsSomeAnd result (λ exports. exports_left exports ≡ (spaces self.now).exports) }
        ensures fits { IsSomeAnd result (λ exports. length (exports_left exports) < 2 ^ 64) }
    {
        let exports = self.state().exports();
        // A proof knows by this call that their number is a machine's.
        let _ = exports.len();
        Some(CoreExports { exports, place: 0 })
    }
}

/// The exports of a module that are still to come, in order.
#[derive(Debug, Drop)]
pub struct CoreExports<'a> {
    exports: &'a ExportNames,
    place: usize,
}

impl<'a> Iterator for CoreExports<'a> {
    type Item = Export<'a>;

    ghost next_gives = { YieldsFirstBy export_item exports_left };

    ghost remaining = { item_count exports_left };

    #[tactic(auto, using(crate::proofs::ExportLaws::next_steps))]
    fn next(&mut self) -> Option<Export<'a>> {
        let exports = self.exports;
        // (so the next place is a number too)
        if self.place >= exports.len() {
            return None;
        }
        let export = exports.get(self.place)?;
        self.place += 1;
        Some(export)
    }
}
