//! Validators, which are handed a module piece by piece.

ghost use Rattle.std.specs.Prelude.{◌≡◌, ◌<◌, ◌==◌, ◌&&◌, [], IfErr, IfOk, IfSome, None, is_ok, is_some, false, length, true};
ghost use Rattle.wasm_core_types.specs.Features.{feature_set};
ghost use Rattle.wasm_spec.specs.Features.{default_features};
ghost use Rattle.wasm_validity.specs.Context.{at_first};
ghost use Rattle.wasmparser_module_state.specs.StateResources.{state_resources};
ghost use Rattle.wasmparser_payloads.specs.Parsing.{piece};
ghost use Rattle.wasmparser_payloads.specs.Pieces as pieces;
ghost use Rattle.wasmparser_validator.specs.Functions.{AsksFor, HasFunction, resources_of};
ghost use Rattle.wasmparser_validator.specs.Judges.{EndsModule, GivesFunction, IsOutOfOrder, JudgesPayload, JudgesPiece, Opens, RefusesPiece, ShowsAll, after_piece, agrees, follows_bodies, is_end, is_middle, agrees_with_stated, judge, place_of, waiting, waits_for};
ghost use Rattle.wasmparser_validator.specs.KnownSpaces.{IsEndOf};
ghost use Rattle.wasmparser_validator.specs.PieceJudging.{AddsPiece, has_groups};
ghost use Rattle.wasmparser_validator.specs.Stages.{may_begin};
ghost use Rattle.wasmparser_validator.specs.Validation.{IsValidated};
ghost use Rattle.wasmparser_validator.specs.declared.validator.Stage.TheVariants as stages;

use crate::resources::ValidatorResources;
use crate::types::{Types, TypesRef};
use crate::valid_payload::ValidPayload;
use crate::validator_id::ValidatorId;
use std::alloc::{AllocError, Global};
use std::marker::Model;
use std::mem;
use std::ops::Range;
use std::rc::Rc;
use thiserror::Error as ThisError;
use wasm_core_types::features::WasmFeatures;
use wasmparser_entries::data::Data;
use wasmparser_entries::element::Element;
use wasmparser_entries::global::Global as GlobalItem;
use wasmparser_entries::imports::Imports;
use wasmparser_entries::table::Table;
use wasmparser_error::error::{Error, ErrorKind};
use wasmparser_func_validator::func_to_validate::FuncToValidate;
use wasmparser_module_state::module_state::ModuleState;
use wasmparser_payloads::function_body::FunctionBody;
use wasmparser_payloads::payload::Payload;
use wasmparser_readers::export::Export;
use wasmparser_readers::memory_type::MemoryType;
use wasmparser_readers::section_limited::SectionLimited;
use wasmparser_readers::tag_type::TagType;
use wasmparser_types::sub_type::RecGroup;

// The payloads that a validator accepts next.
#[derive(Clone, Copy, PartialEq, Eq)]
pub(crate) enum Stage {
    // The header of a module.
    Header,
    // Sections.
    Sections,
    // Bodies of functions, and the sections that may follow them.
    Code,
    // Nothing: the module has ended.
    End,
    // Nothing: a call was refused.
    Failed,
}

/// Why a validator can't go on with another module: the last one is unfinished, or was refused.
#[derive(Clone, Copy, Debug, PartialEq, Eq, ThisError)]
#[error("the last module is unfinished, or was refused")]
pub struct NotEnded;

/// Validates a module piece by piece. The order of sections is the parser's matter, but for bodies and what may follow them. After a refusal
/// up to a module's end every call returns `Failed`; after the end, `Order`, until it is made ready for another module by [`reset`](Validator::reset).
/// The types of modules that have ended stay in its list, so that equal types of all of its modules have one id where types are canonicalized.
///
/// A section call returns `Order` where no section is waited for, `Failed` after a refusal, `Malformed` where the items don't read, `Invalid` and `Limit` where
/// they break a rule or pass a limit, `Total` where the list has no room for a group, `Memory` where memory runs out, each at a place of the section.
#[derive(Drop)]
pub struct Validator {
    pub(crate) alloc: Global,
    // The module so far, with a list to which groups can be added.
    types: Types,
    // The module as its bodies see it, once one was handed in.
    resources: Option<ValidatorResources>,
    pub(crate) stage: Stage,
    pub(crate) bodies: usize,
    pub(crate) data_count: Option<u32>,
}

impl Model for Validator {
    ghost use Rattle.wasmparser_module_state.specs.contracts.module_state.ModuleState as kept;
    ghost use Rattle.wasmparser_validator.specs.Validators.{IsWellFormed, ValidatorState, validator_code};

    ghost Value = { ValidatorState };

    ghost coded = { validator_code kept.the_row.coded };

    ghost view = { λ v. record { types = v.types; stage = v.stage; bodies = v.bodies; data_count = v.data_count } };

    ghost invariant = { λ v. IsWellFormed v.types v.stage v.resources };
}

// Shares a snapshot of the module's state among the validators of its bodies.
fn share_copy(alloc: Global, copy: ModuleState) -> Result<ValidatorResources, AllocError>
    ensures { IfOk result (λ r. resources_of r ≡ state_resources copy) }
{
    match Rc::new(alloc, copy) {
        Ok(module) => Ok(ValidatorResources::new(module)),
        Err(failed) => {
            // (dropped by a call, which is cheaper to prove)
            drop(failed);
            Err(AllocError)
        }
    }
}

// Returns the place at which a payload is refused that isn't waited for.
#[tactic(auto, unfolding(wasmparser_payloads::specs::Parsing::piece, crate::specs::Judges::place_of))]
fn place_of(payload: &Payload<'_>) -> u64
    ensures { result ≡ place_of (piece payload.now) }
{
    match payload {
        Payload::Version { range, .. }
        | Payload::StartSection { range, .. }
        | Payload::DataCountSection { range, .. }
        | Payload::UnknownSection { range, .. } => range.start,
        Payload::CodeSectionStart {
            unchecked_range,
            ..
        } => unchecked_range.start,
        Payload::TypeSection(section) => section.range().start,
        Payload::ImportSection(section) => section.range().start,
        Payload::FunctionSection(section) => section.range().start,
        Payload::TableSection(section) => section.range().start,
        Payload::MemorySection(section) => section.range().start,
        Payload::TagSection(section) => section.range().start,
        Payload::GlobalSection(section) => section.range().start,
        Payload::ExportSection(section) => section.range().start,
        Payload::ElementSection(section) => section.range().start,
        Payload::DataSection(section) => section.range().start,
        Payload::CustomSection(section) => section.range().start,
        Payload::CodeSectionEntry(body) => body.range().start,
        Payload::End(position) => *position,
    }
}

/// Validates the bytes of a module under the default features, by a validator whose name is the number 0.
///
/// # Errors
/// Those of [`Validator::validate_all`] but `Total`, `Order` and `Failed`.
pub fn validate(alloc: Global, bytes: &[u8]) -> Result<Types, Error>
    ensures validated { IsValidated default_features [] bytes.now result }
    ensures id { IfOk result (λ types. types.id ≡ 0) }
{
    let mut validator = Validator::new(alloc, ValidatorId::new(0));
    let verdict = validator.validate_all(bytes);
    drop(validator);
    verdict
}

// Checks that a stated number, if there is one, is that one.
fn agrees_with_stated(number: u32, stated: Option<u32>) -> bool
    ensures { result ≡ agrees_with_stated number stated }
{
    match stated {
        None => true,
        Some(count) => count == number,
    }
}

impl Validator {
    /// Creates a validator of this name, under the default features.
    pub fn new(alloc: Global, id: ValidatorId) -> Validator
        ensures { judge result ≡ record { id = id; stage = stages.Header; features = default_features; known = at_first; held = []; bodies = 0; stated = None } }
    {
        Validator::new_with_features(alloc, WasmFeatures::default(), id)
    }

    /// Creates a validator of this name, under these features.
    pub fn new_with_features(alloc: Global, features: WasmFeatures, id: ValidatorId) -> Validator
        ensures { judge result ≡ record { id = id; stage = stages.Header; features = feature_set features; known = at_first; held = []; bodies = 0; stated = None } }
    {
        Validator {
            alloc,
            types: Types::without_entries(alloc, features, id),
            resources: None,
            stage: Stage::Header,
            bodies: 0,
            data_count: None,
        }
    }

    /// Returns the features under which modules are validated.
    pub fn features(&self) -> WasmFeatures
        ensures { feature_set result ≡ (judge self.now).features }
    {
        self.types.state().features()
    }

    /// Returns the validator's name.
    pub fn id(&self) -> ValidatorId
        ensures { result ≡ (judge self.now).id }
    {
        self.types.as_ref().id()
    }

    // Resets all state and moves to `stage`.
    pub(crate) fn wait_for(&mut self, stage: Stage)
        ensures { judge self.new ≡ waiting (judge self.old) stage }
    {
        let features = self.features();
        let id = self.id();
        let next = Types::without_entries(self.alloc, features, id);
        // (dropped by a call, which is cheaper to prove)
        drop(mem::replace(&mut self.types, next));
        drop(self.resources.take());
        self.stage = stage;
        self.bodies = 0;
        self.data_count = None;
    }

    // Checks that a payload is waited for.
    #[tactic(auto, unfolding(wasmparser_payloads::specs::Parsing::piece, crate::specs::Judges::waits_in, crate::specs::Judges::may_stand_between, crate::specs::Judges::is_version))]
    fn waits_for(&self, payload: &Payload<'_>) -> bool
        ensures { result ≡ waits_for (judge self.now) (piece payload.now) }
    {
        match self.stage {
            Stage::Header => matches!(payload, Payload::Version { .. }),
            Stage::Sections => !matches!(
                payload,
                Payload::Version { .. } | Payload::CodeSectionEntry(_)
            ),
            Stage::Code => self.follows_bodies(payload),
            Stage::End | Stage::Failed => false,
        }
    }

    // Checks that a payload may come among bodies and after them.
    #[tactic(auto, unfolding(wasmparser_payloads::specs::Parsing::piece, crate::specs::Judges::follows_bodies))]
    fn follows_bodies(&self, payload: &Payload<'_>) -> bool
        ensures { result ≡ follows_bodies (judge self.now) (piece payload.now) }
    {
        match payload {
            Payload::CodeSectionEntry(_) => {
                self.bodies < self.types.state().own_function_count()
            }
            Payload::DataSection(_) | Payload::CustomSection(_) | Payload::End(_) => true,
            _ => false,
        }
    }

    // Checks that the numbers agree that a payload states.
    #[tactic(auto, unfolding(wasmparser_payloads::specs::Parsing::piece, crate::specs::Judges::agrees))]
    fn agrees(&self, payload: &Payload<'_>) -> bool
        ensures { result ≡ agrees (judge self.now) (piece payload.now) }
    {
        let state = self.types.state();
        match payload {
            Payload::Version { num, .. } => *num == 1,
            Payload::CodeSectionStart { count, .. } => {
                *count as usize == state.own_function_count()
            }
            Payload::DataCountSection { count, .. } => agrees_with_stated(*count, self.data_count),
            Payload::End(_) => {
                state.own_function_count() == self.bodies
                    && agrees_with_stated(state.data_count(), self.data_count)
            }
            _ => true,
        }
    }

    // Refuses what isn't waited for.
    pub(crate) fn refuse_order(&mut self, offset: u64) -> Error
        ensures { IsOutOfOrder (judge self.old).stage offset (judge self.old) result (judge self.new) }
    {
        match self.stage {
            Stage::Failed => Error {
                offset,
                kind: ErrorKind::Failed,
            },
            Stage::End => Error {
                offset,
                kind: ErrorKind::Order,
            },
            _ => {
                self.wait_for(Stage::Failed);
                Error {
                    offset,
                    kind: ErrorKind::Order,
                }
            }
        }
    }

    // Notes that a payload came that is waited for.
    #[tactic(auto, using(crate::proofs::JudgeLaws::body_waited), unfolding(wasmparser_payloads::specs::Parsing::piece, crate::specs::Judges::bodies_with, crate::specs::Judges::stated_with, crate::specs::Judges::stage_after))]
    fn go_on(&mut self, payload: &Payload<'_>)
        requires { waits_for (judge self.old) (piece payload.now) ≡ true }
        ensures judged { judge self.new ≡ after_piece (judge self.old) (piece payload.now) (judge self.old).known (judge self.old).held }
        ensures types { self.new.types ≡ self.old.types }
    {
        match payload {
            Payload::Version { .. } => self.stage = Stage::Sections,
            Payload::CodeSectionStart { .. } => self.stage = Stage::Code,
            Payload::CodeSectionEntry(_) => {
                // (so one more is a number too)
                let _ = self.types.state().own_function_count();
                self.bodies += 1;
            }
            Payload::DataCountSection { count, .. } => self.data_count = Some(*count),
            _ => {}
        }
    }

    // Checks that a payload is waited for and its numbers agree; else returns the refusal.
    #[tactic(auto, using(crate::proofs::JudgeLaws::open_steps))]
    fn open(&mut self, payload: &Payload<'_>) -> Result<(), Error>
        ensures open { Opens (judge self.old) (piece payload.now) result (judge self.new) }
        ensures same { IfOk result (λ _. self.new ≡ self.old) }
    {
        let offset = place_of(payload);
        if !self.waits_for(payload) {
            return Err(self.refuse_order(offset));
        }
        if !self.agrees(payload) {
            self.wait_for(Stage::Failed);
            return Err(Error {
                offset,
                kind: ErrorKind::Malformed,
            });
        }
        Ok(())
    }

    // Validates what a payload says, and adds its entries, which the end has none of. After an error nothing is known, and the list has no types.
    pub(crate) fn add(&mut self, payload: &Payload<'_>) -> Result<(), Error>
        requires { may_begin (judge self.old).stage ≡ false }
        ensures added { AddsPiece (judge self.old).features (judge self.old).known (judge self.old).held (piece payload.now) result (judge self.new).known (judge self.new).held }
        ensures types { has_groups (piece payload.now) ≡ false → IfOk result (λ _. self.new.types.state.types ≡ self.old.types.state.types) }
        ensures others { judge self.new ≡ record (judge self.old) { known = (judge self.new).known; held = (judge self.new).held } }
    {
        let resources = self.resources.take();
        self.types.add(self.alloc, payload)?;
        // Bodies add nothing that others may ask.
        match payload {
            Payload::CodeSectionEntry(_) => self.resources = resources,
            _ => drop(resources),
        }
        Ok(())
    }

    // Validates a payload that is waited for, and adds its entries. The end adds none.
    #[tactic(auto, using(crate::proofs::JudgeLaws::judge_steps))]
    fn judge(&mut self, payload: &Payload<'_>) -> Result<(), Error>
        ensures judged { JudgesPiece (judge self.old) (piece payload.now) result (judge self.new) }
        ensures types { has_groups (piece payload.now) ≡ false → IfOk result (λ _. self.new.types.state.types ≡ self.old.types.state.types) }
    {
        self.open(payload)?;
        self.go_on(payload);
        match self.add(payload) {
            Ok(()) => Ok(()),
            Err(error) => {
                self.wait_for(Stage::Failed);
                Err(error)
            }
        }
    }

    // Returns what bodies may ask of the module: a copy of what is known, made for the first that asks.
    fn resources(&mut self) -> Result<ValidatorResources, AllocError>
        ensures asks { IfOk result (λ r. resources_of r ≡ state_resources self.old.types.state) }
        ensures same { self.new ≡ self.old }
    {
        if let Some(resources) = &self.resources {
            return resources.clone();
        }
        let resources = share_copy(self.alloc, self.types.copy_resources()?)?;
        self.resources = Some(resources.clone()?);
        Ok(resources)
    }

    // Returns the function whose body is next.
    fn next_function(&mut self) -> Result<FuncToValidate<ValidatorResources>, AllocError>
        requires { (judge self.old).bodies < length (judge self.old).known.own_functions }
        ensures function { IfOk result (HasFunction (judge self.old).features (judge self.old).known (judge self.old).bodies) }
        ensures asks { IfOk result (AsksFor self.old.types) }
        ensures same { self.new ≡ self.old }
    {
        let place = self.bodies;
        let resources = self.resources()?;
        let state = self.types.state();
        // (by this call a proof knows that the ids stand for types)
        state.types().are_known();
        let imported = state.function_count() - state.own_function_count();
        Ok(FuncToValidate {
            resources,
            index: (imported + place) as u32,
            ty: state.type_of_own_function(place).unwrap(),
            features: state.features(),
        })
    }

    // Waits for sections, where a module may begin: nothing is known of it yet.
    pub(crate) fn begin(&mut self)
        requires { may_begin (judge self.old).stage ≡ true }
        ensures nothing { (judge self.old).known ≡ at_first }
        ensures begun { judge self.new ≡ record (judge self.old) { stage = stages.Sections; bodies = 0; stated = None } }
    {
        self.stage = Stage::Sections;
        self.bodies = 0;
        self.data_count = None;
    }

    // Waits for nothing after a module that has ended, of which nothing is kept but its types.
    fn rest(&mut self)
        requires { (judge self.old).known ≡ at_first }
        ensures { judge self.new ≡ record (judge self.old) { stage = stages.End; bodies = 0; stated = None } }
    {
        self.stage = Stage::End;
        self.bodies = 0;
        self.data_count = None;
    }

    /// Begins a module, of this version of the format.
    ///
    /// # Errors
    /// `Malformed` where the version isn't 1; `Order` where a module has begun or ended, `Failed` after a refusal.
    #[tactic(auto, unfolding(wasmparser_payloads::specs::Parsing::piece))]
    pub fn version(&mut self, num: u16, range: &Range<u64>) -> Result<(), Error>
        ensures { JudgesPiece (judge self.old) (pieces.Version num (record { start = range.now.start; after = range.now.end })) result (judge self.new) }
    {
        let range = range.start..range.end;
        self.judge(&Payload::Version { num, range })
    }

    /// Validates a type section, item by item.
    ///
    /// # Errors
    /// `Malformed`, `Invalid`, `Limit`, `Total` or `Memory`, from the first item that has such a cause; `Order` where no such section is waited for, `Failed` after a
    /// refusal, as for all sections.
    #[tactic(auto, unfolding(wasmparser_payloads::specs::Parsing::piece))]
    pub fn type_section(&mut self, section: &SectionLimited<'_, RecGroup>) -> Result<(), Error>
        ensures { JudgesPiece (judge self.old) (pieces.Types section.now) result (judge self.new) }
    {
        self.judge(&Payload::TypeSection(section.clone()?))
    }

    /// Validates an import section, item by item.
    ///
    /// # Errors
    /// `Malformed`, `Invalid`, `Limit` or `Memory`, from the first item that has such a cause; `Order` and `Failed` as for all sections.
    #[tactic(auto, unfolding(wasmparser_payloads::specs::Parsing::piece))]
    pub fn import_section<'a>(
        &mut self,
        section: &SectionLimited<'a, Imports<'a>>,
    ) -> Result<(), Error>
        ensures { JudgesPiece (judge self.old) (pieces.Imports section.now) result (judge self.new) }
    {
        self.judge(&Payload::ImportSection(section.clone()?))
    }

    /// Validates a function section, item by item.
    ///
    /// # Errors
    /// `Malformed`, `Invalid`, `Limit` or `Memory`, from the first item that has such a cause; `Order` and `Failed` as for all sections.
    #[tactic(auto, unfolding(wasmparser_payloads::specs::Parsing::piece))]
    pub fn function_section(&mut self, section: &SectionLimited<'_, u32>) -> Result<(), Error>
        ensures { JudgesPiece (judge self.old) (pieces.Functions section.now) result (judge self.new) }
    {
        self.judge(&Payload::FunctionSection(section.clone()?))
    }

    /// Validates a table section, item by item.
    ///
    /// # Errors
    /// `Malformed`, `Invalid`, `Limit` or `Memory`, from the first item that has such a cause; `Order` and `Failed` as for all sections.
    #[tactic(auto, unfolding(wasmparser_payloads::specs::Parsing::piece))]
    pub fn table_section<'a>(
        &mut self,
        section: &SectionLimited<'a, Table<'a>>,
    ) -> Result<(), Error>
        ensures { JudgesPiece (judge self.old) (pieces.Tables section.now) result (judge self.new) }
    {
        self.judge(&Payload::TableSection(section.clone()?))
    }

    /// Validates a memory section, item by item.
    ///
    /// # Errors
    /// `Malformed`, `Invalid`, `Limit` or `Memory`, from the first item that has such a cause; `Order` and `Failed` as for all sections.
    #[tactic(auto, unfolding(wasmparser_payloads::specs::Parsing::piece))]
    pub fn memory_section(&mut self, section: &SectionLimited<'_, MemoryType>) -> Result<(), Error>
        ensures { JudgesPiece (judge self.old) (pieces.Memories section.now) result (judge self.new) }
    {
        self.judge(&Payload::MemorySection(section.clone()?))
    }

    /// Validates a tag section, item by item.
    ///
    /// # Errors
    /// `Malformed`, `Invalid`, `Limit` or `Memory`, from the first item that has such a cause; `Order` and `Failed` as for all sections.
    #[tactic(auto, unfolding(wasmparser_payloads::specs::Parsing::piece))]
    pub fn tag_section(&mut self, section: &SectionLimited<'_, TagType>) -> Result<(), Error>
        ensures { JudgesPiece (judge self.old) (pieces.Tags section.now) result (judge self.new) }
    {
        self.judge(&Payload::TagSection(section.clone()?))
    }

    /// Validates a global section, item by item.
    ///
    /// # Errors
    /// `Malformed`, `Invalid`, `Limit` or `Memory`, from the first item that has such a cause; `Order` and `Failed` as for all sections.
    #[tactic(auto, unfolding(wasmparser_payloads::specs::Parsing::piece))]
    pub fn global_section<'a>(
        &mut self,
        section: &SectionLimited<'a, GlobalItem<'a>>,
    ) -> Result<(), Error>
        ensures { JudgesPiece (judge self.old) (pieces.Globals section.now) result (judge self.new) }
    {
        self.judge(&Payload::GlobalSection(section.clone()?))
    }

    /// Validates an export section, item by item.
    ///
    /// # Errors
    /// `Malformed`, `Invalid`, `Limit` or `Memory`, from the first item that has such a cause; `Order` and `Failed` as for all sections.
    #[tactic(auto, unfolding(wasmparser_payloads::specs::Parsing::piece))]
    pub fn export_section<'a>(
        &mut self,
        section: &SectionLimited<'a, Export<'a>>,
    ) -> Result<(), Error>
        ensures { JudgesPiece (judge self.old) (pieces.Exports section.now) result (judge self.new) }
    {
        self.judge(&Payload::ExportSection(section.clone()?))
    }

    /// Validates an element section, item by item.
    ///
    /// # Errors
    /// `Malformed`, `Invalid`, `Limit` or `Memory`, from the first item that has such a cause; `Order` and `Failed` as for all sections.
    #[tactic(auto, unfolding(wasmparser_payloads::specs::Parsing::piece))]
    pub fn element_section<'a>(
        &mut self,
        section: &SectionLimited<'a, Element<'a>>,
    ) -> Result<(), Error>
        ensures { JudgesPiece (judge self.old) (pieces.Elements section.now) result (judge self.new) }
    {
        self.judge(&Payload::ElementSection(section.clone()?))
    }

    /// Validates a data section, item by item.
    ///
    /// # Errors
    /// `Malformed`, `Invalid`, `Limit` or `Memory`, from the first item that has such a cause; `Order` and `Failed` as for all sections.
    #[tactic(auto, unfolding(wasmparser_payloads::specs::Parsing::piece, crate::specs::PieceJudging::has_groups))]
    pub fn data_section<'a>(&mut self, section: &SectionLimited<'a, Data<'a>>) -> Result<(), Error>
        ensures judged { JudgesPiece (judge self.old) (pieces.Segments section.now) result (judge self.new) }
        ensures types { IfOk result (λ _. self.new.types.state.types ≡ self.old.types.state.types) }
    {
        self.judge(&Payload::DataSection(section.clone()?))
    }

    /// Validates a start section.
    ///
    /// # Errors
    /// `Invalid` where there is no such function, or it takes or gives something; `Order` and `Failed` as for all sections.
    #[tactic(auto, unfolding(wasmparser_payloads::specs::Parsing::piece))]
    pub fn start_section(&mut self, func: u32, range: &Range<u64>) -> Result<(), Error>
        ensures { JudgesPiece (judge self.old) (pieces.Start func (record { start = range.now.start; after = range.now.end })) result (judge self.new) }
    {
        let range = range.start..range.end;
        self.judge(&Payload::StartSection { func, range })
    }

    /// Validates a data count section.
    ///
    /// # Errors
    /// `Invalid` where bulk memory is off, `Malformed` where another number was stated before; `Order` and `Failed` as for all sections.
    #[tactic(auto, unfolding(wasmparser_payloads::specs::Parsing::piece))]
    pub fn data_count_section(&mut self, count: u32, range: &Range<u64>) -> Result<(), Error>
        ensures { JudgesPiece (judge self.old) (pieces.DataCount count (record { start = range.now.start; after = range.now.end })) result (judge self.new) }
    {
        let range = range.start..range.end;
        self.judge(&Payload::DataCountSection { count, range })
    }

    /// Begins a code section, in which each function of the module's own has a body.
    ///
    /// # Errors
    /// `Order` and `Failed` as for all sections.
    #[tactic(auto, unfolding(wasmparser_payloads::specs::Parsing::piece))]
    pub fn code_section_start(&mut self, range: &Range<u64>) -> Result<(), Error>
        ensures { JudgesPiece (judge self.old) (pieces.CodeStart (length (judge self.old).known.own_functions) (record { start = range.now.start; after = range.now.end }) 0) result (judge self.new) }
    {
        let unchecked_range = range.start..range.end;
        let count = self.types.state().own_function_count() as u32;
        self.judge(&Payload::CodeSectionStart {
            count,
            unchecked_range,
            size: 0,
        })
    }

    /// Checks the size of a body, and returns its function, by which it is to be validated.
    ///
    /// # Errors
    /// `Limit` where the body has more bytes than its limit, `Memory` where memory runs out, each at the body's first byte; `Order` before the code section begins and
    /// past the functions, `Failed` after a refusal.
    #[tactic(auto, using(crate::proofs::JudgeLaws::body_steps), unfolding(wasmparser_payloads::specs::Parsing::piece, crate::specs::PieceJudging::has_groups))]
    pub fn code_section_entry(
        &mut self,
        body: &FunctionBody<'_>,
    ) -> Result<FuncToValidate<ValidatorResources>, Error>
        ensures given { GivesFunction (judge self.old) body.now result (judge self.new) }
        ensures asks { IfOk result (AsksFor self.old.types) }
        ensures types { IfOk result (λ _. self.new.types.state.types ≡ self.old.types.state.types) }
    {
        let payload = Payload::CodeSectionEntry(body.clone()?);
        self.open(&payload)?;
        let function = self.next_function();
        // (a body that passes its limit is refused for that, even if there was no memory)
        self.judge(&payload)?;
        match function {
            Ok(function) => Ok(function),
            Err(_) => {
                self.wait_for(Stage::Failed);
                Err(Error::out_of_memory(body.range().start))
            }
        }
    }

    /// Refuses a section of an id that the format doesn't have.
    ///
    /// # Errors
    /// `Malformed`, where neither `Order` nor `Failed` comes.
    #[tactic(auto, unfolding(wasmparser_payloads::specs::Parsing::piece))]
    pub fn unknown_section(&mut self, id: u8, range: &Range<u64>) -> Result<(), Error>
        ensures { JudgesPiece (judge self.old) (pieces.Unknown id [] (record { start = range.now.start; after = range.now.end })) result (judge self.new) }
    {
        let range = range.start..range.end;
        self.judge(&Payload::UnknownSection {
            id,
            contents: &[],
            range,
        })
    }

    /// Ends a module, at this place of the input, and shows its index spaces. Then [`reset`](Validator::reset) makes ready for another one.
    ///
    /// # Errors
    /// `Malformed` where there are more functions than bodies, or another number of data segments than was stated; `Order` where no module has begun or
    /// it has ended, `Failed` after a refusal, `Memory` where memory runs out, each at the place handed in.
    #[tactic(auto, unfolding(wasmparser_payloads::specs::Parsing::piece))]
    pub fn end(&mut self, offset: u64) -> Result<Types, Error>
        ensures ended { EndsModule (judge self.old) offset result (judge self.new) }
        ensures shown { IfOk result (IsEndOf self.old.types) }
    {
        self.open(&Payload::End(offset))?;
        drop(self.resources.take());
        match self.types.end_module() {
            Ok(ended) => {
                self.rest();
                Ok(ended)
            }
            Err(_) => {
                self.wait_for(Stage::Failed);
                Err(Error::out_of_memory(offset))
            }
        }
    }

    /// Validates a payload: its section, or that it may come. It returns the function of a body, which is still to be validated, and at the end what is shown
    /// of the module.
    ///
    /// # Errors
    /// Those of the calls for each kind of payload. `Malformed` where a code section states another number of bodies than there are functions. `Order` where a
    /// payload isn't waited for, and `Failed` after a refusal.
    #[tactic(auto, unfolding(wasmparser_payloads::specs::Parsing::piece, crate::specs::PieceJudging::body_in, crate::specs::PieceJudging::has_groups, crate::specs::Judges::is_end))]
    pub fn payload<'a>(&mut self, payload: &Payload<'a>) -> Result<ValidPayload<'a>, Error>
        ensures judged { JudgesPayload (judge self.old) (piece payload.now) result (judge self.new) }
        ensures shown { IfOk result (ShowsAll self.old.types) }
        ensures types { has_groups (piece payload.now) ≡ false → is_end (piece payload.now) ≡ false → IfOk result (λ _. self.new.types.state.types ≡ self.old.types.state.types) }
    {
        match payload {
            Payload::End(position) => {
                let types = self.end(*position)?;
                Ok(ValidPayload::End(types))
            }
            Payload::CodeSectionEntry(body) => {
                let function = self.code_section_entry(body)?;
                Ok(ValidPayload::Func(function, body.clone()?))
            }
            _ => {
                self.judge(payload)?;
                Ok(ValidPayload::Ok)
            }
        }
    }

    /// Returns the module so far, in the middle of one. There are no components, so no other level than 0.
    pub fn types(&self, level: usize) -> Option<TypesRef<'_>>
        ensures middle { is_some result ≡ ((level == 0) && is_middle (judge self.now).stage) }
        ensures shown { IfSome result (λ shown. shown.types.now ≡ self.now.types) }
    {
        match self.stage {
            Stage::Sections | Stage::Code if level == 0 => Some(self.types.as_ref()),
            _ => None,
        }
    }

    /// Makes ready for another module, with the same name, features and list of types.
    ///
    /// # Errors
    /// In the middle of a module, and after any refusal up to its end: then nothing changes.
    pub fn reset(&mut self) -> Result<(), NotEnded>
        ensures when { is_ok result ≡ may_begin (judge self.old).stage }
        ensures ready { IfOk result (λ _. judge self.new ≡ record (judge self.old) { stage = stages.Header }) }
        ensures refused { IfErr result (λ _. self.new ≡ self.old) }
    {
        match self.stage {
            Stage::Header | Stage::End => {
                self.stage = Stage::Header;
                Ok(())
            }
            _ => Err(NotEnded),
        }
    }
}
