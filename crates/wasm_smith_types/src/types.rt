//! The types of a module, one group after the other.

ghost use Rattle.std.specs.Prelude.{◌≡◌, ◌<◌, ◌≤◌, ◌+◌, ◌-◌, ◌++◌, ◌∷◌, [], ℕ, ◌^◌, IfErr, IfOk, IfSome, is_some, length, map, max, slice_get, List, Some, None, true, false};
ghost use Rattle.std.specs.List.{AllByRecursion};
ghost use Rattle.wasm_core_types.specs.SubTypes.{sub_type};
ghost use Rattle.wasm_spec.specs.Features.{Features, Gc, has};
ghost use Rattle.wasm_spec.specs.Trees.{AreInRange};
ghost use Rattle.wasm_spec.specs.TypeReferences.{group_map, sub_map};
ghost use Rattle.wasm_spec.specs.Types as spec;
ghost use Rattle.wasm_smith_config.specs.Config.{AreFeaturesOf};
ghost use Rattle.wasm_smith_shapes.specs.Shapes.{group_of, shape_types};
ghost use Rattle.wasm_smith_types.specs.Bounds.{AreSmall};
ghost use Rattle.wasm_smith_types.specs.Copies.{shifted_index};
ghost use Rattle.wasm_smith_types.specs.Drawing.{asks_then, plain_type_at, type_at, members_at, group_at, groups_at, no_groups, total, function_type_at};
ghost use Rattle.wasm_smith_types.specs.DrawnGroups.{AreSome, drawn_groups_at};
ghost use Rattle.wasm_smith_types.specs.Fitting.{AreFitting, AreChoices, IsSpan};
ghost use Rattle.wasm_smith_types.specs.Given.{AreDrawnBeside, AreMade, AskForMore, HaveGoodGroups, for_drawing, given_types, then_groups, type_count};
ghost use Rattle.wasm_smith_types.specs.Grouped.{cloned, front_of, groups, AddsGroupDrawn, AreWhole, AreDone, AddsGroup};
ghost use Rattle.wasm_smith_types.specs.Growing.{grow_at};
ghost use Rattle.wasm_smith_types.specs.Making.{made, has_candidates, AreCandidates, IsCandidate, Adds, AddsDrawn, AddsAll, AddsAllDrawn};
ghost use Rattle.wasm_smith_types.specs.Offering.{offers};
ghost use Rattle.wasm_smith_types.specs.Permitted.{Suits, SuitsValues};
ghost use Rattle.wasm_smith_validity.specs.ValidGroups.{HasHeight, AreValidGroups, types_of, entry};

use crate::candidates::{Candidate, candidate_at};
use crate::error::TypesError;
use crate::fitting::{Fitting, Span};
use crate::given::{type_count, types_in};
use crate::growing::{bool_if, grows};
use crate::shifts::Shift;
use crate::value_types::Offers;
use std::alloc::{AllocError, Global};
use wasm_core_types::types::SubType;
use wasm_smith_config::config::Config;
use wasm_smith_shapes::shape::Shape;
use wasm_smith_unstructured::unstructured::Unstructured;
use wasm_smith_validity::subtyping::MAX_HEIGHT;

/// The types of a module, in groups.
#[derive(Debug, Drop)]
pub struct Types {
    types: Vec<SubType>,
    // the number of types of each group
    sizes: Vec<u32>,
    // the types that may have a type below them
    candidates: Vec<Candidate>,
}

impl Types {
    // Returns no types.
    fn new(alloc: Global) -> Types
        ensures types { result.types.items ≡ [] }
        ensures sizes { result.sizes.items ≡ [] }
        ensures candidates { result.candidates.items ≡ [] }
    {
        Types {
            types: Vec::new(alloc),
            sizes: Vec::new(alloc),
            candidates: Vec::new(alloc),
        }
    }

    // Adds a type that has so many supertypes above it.
    fn push(&mut self, type_: SubType, height: u32) -> Result<(), AllocError>
        requires few { length (made self.old) < 2 ^ 31 }
        requires candidates { AreCandidates (made self.old) self.old.candidates.items }
        requires height { HasHeight (slice_get (made self.old ++ (sub_type type_ ∷ []))) height (length (made self.old)) }
        ensures added { IfOk result (λ _. made self.new ≡ made self.old ++ (sub_type type_ ∷ [])) }
        ensures sizes { IfOk result (λ _. self.new.sizes.items ≡ self.old.sizes.items) }
        ensures candidates { IfOk result (λ _. AreCandidates (made self.new) self.new.candidates.items) }
        ensures asks { IfOk result (λ _. height ≡ 0 → has_candidates self.new ≡ asks_then (has_candidates self.old) (sub_type type_)) }
    {
        let is_open = !type_.is_final;
        let index = self.types.len() as u32;
        self.types.push(type_)?;
        if is_open && height < MAX_HEIGHT {
            self.candidates.push(Candidate { index, height })?;
        }
        Ok(())
    }

    // Adds a type below a candidate.
    fn push_under(
        &mut self,
        alloc: Global,
        unstructured: &mut Unstructured<'_>,
        offers: &Offers,
        end: u32,
        candidate: Candidate,
    ) -> Result<(), AllocError>
        requires few { length (made self.old) < 2 ^ 31 }
        requires candidates { AreCandidates (made self.old) self.old.candidates.items }
        requires candidate { IsCandidate (made self.old) candidate }
        ensures valid { IfOk result (λ _. Adds offers.now end self.old self.new) }
        ensures taken { length unstructured.new ≤ length unstructured.old }
    {
        let is_final = !unstructured.bool();
        let composite_type = offers.copy(
            alloc,
            unstructured,
            end,
            &self.types[candidate.index as usize].composite_type,
        )?;
        let type_ = SubType {
            is_final,
            supertype_idx: Some(candidate.index),
            composite_type,
        };
        self.push(type_, candidate.height + 1)?;
        Ok(())
    }

    // Adds a type without a supertype.
    fn push_plain(
        &mut self,
        alloc: Global,
        unstructured: &mut Unstructured<'_>,
        offers: &Offers,
        end: u32,
    ) -> Result<(), AllocError>
        requires few { length (made self.old) < 2 ^ 31 }
        requires candidates { AreCandidates (made self.old) self.old.candidates.items }
        ensures valid { IfOk result (λ _. Adds offers.now end self.old self.new) }
        ensures drawn { IfOk result (λ _. AddsDrawn (plain_type_at offers.now end unstructured.old) self.old self.new unstructured.new) }
        ensures taken { length unstructured.new ≤ length unstructured.old }
    {
        let is_final = !unstructured.bool();
        let composite_type = offers.composite(alloc, unstructured, end)?;
        let type_ = SubType {
            is_final,
            supertype_idx: None,
            composite_type,
        };
        self.push(type_, 0)?;
        Ok(())
    }

    // Adds a type.
    #[tactic(auto, unfolding(crate::specs::Drawing::type_at))]
    fn push_type(
        &mut self,
        alloc: Global,
        unstructured: &mut Unstructured<'_>,
        offers: &Offers,
        end: u32,
    ) -> Result<(), AllocError>
        requires few { length (made self.old) < 2 ^ 31 }
        requires candidates { AreCandidates (made self.old) self.old.candidates.items }
        ensures valid { IfOk result (λ _. Adds offers.now end self.old self.new) }
        ensures drawn { IfOk result (λ _. IfSome (type_at offers.now end (has_candidates self.old) unstructured.old)
            (λ drawn. AddsDrawn drawn self.old self.new unstructured.new)) }
        ensures taken { length unstructured.new ≤ length unstructured.old }
    {
        let asked = !self.candidates.is_empty();
        if bool_if(unstructured, asked) {
            let candidate = *unstructured.choose(&self.candidates).unwrap();
            self.push_under(alloc, unstructured, offers, end, candidate)?;
            return Ok(());
        }
        self.push_plain(alloc, unstructured, offers, end)?;
        Ok(())
    }

    // Adds so many types.
    fn push_types(
        &mut self,
        alloc: Global,
        unstructured: &mut Unstructured<'_>,
        offers: &Offers,
        end: u32,
        count: u32,
    ) -> Result<(), AllocError>
        requires few { length (made self.old) + count ≤ 2 ^ 31 }
        requires candidates { AreCandidates (made self.old) self.old.candidates.items }
        ensures valid { IfOk result (λ _. AddsAll offers.now end count self.old self.new) }
        ensures drawn { IfOk result (λ _. IfSome (members_at offers.now end (has_candidates self.old) count unstructured.old)
            (λ drawn. AddsAllDrawn drawn self.old self.new unstructured.new)) }
        ensures taken { length unstructured.new ≤ length unstructured.old }
    {
        for _ in 0..count {
            self.push_type(alloc, unstructured, offers, end)?;
        }
        Ok(())
    }

    // Adds a group of so many types.
    fn push_group(
        &mut self,
        alloc: Global,
        unstructured: &mut Unstructured<'_>,
        offers: &Offers,
        size: u32,
    ) -> Result<(), AllocError>
        requires few { length (made self.old) + size ≤ 2 ^ 31 }
        requires whole { AreWhole self.old }
        requires candidates { AreCandidates (made self.old) self.old.candidates.items }
        ensures group { IfOk result (λ _. AddsGroup (λ features. Suits features offers.now) self.old self.new) }
        ensures count { IfOk result (λ _. length (made self.new) ≡ length (made self.old) + size) }
        ensures drawn { IfOk result (λ _. IfSome (members_at offers.now (total self.old.sizes.items + size) (has_candidates self.old) size unstructured.old) (λ drawn. AddsGroupDrawn drawn self.old self.new unstructured.new)) }
        ensures taken { length unstructured.new ≤ length unstructured.old }
    {
        let end = self.types.len() as u32 + size;
        self.push_types(alloc, unstructured, offers, end, size)?;
        self.sizes.push(size)?;
        Ok(())
    }

    // Adds a copy of a type with its references shifted.
    fn push_copy(&mut self, alloc: Global, index: u32, shift: Shift) -> Result<(), AllocError>
        requires few { length (made self.old) < 2 ^ 31 }
        requires index { index < length (made self.old) }
        requires candidates { AreCandidates (made self.old) self.old.candidates.items }
        ensures added { IfOk result (λ _. (type : _) × (slice_get (made self.old) index ≡ Some type)
            × (made self.new ≡ made self.old ++ (sub_map (shifted_index shift.start shift.by) type ∷ []))) }
        ensures sizes { IfOk result (λ _. self.new.sizes.items ≡ self.old.sizes.items) }
        ensures candidates { IfOk result (λ _. AreCandidates (made self.new) self.new.candidates.items) }
    {
        let type_ = shift.sub_type(alloc, &self.types[index as usize])?;
        let place = self.types.len() as u32;
        self.types.push(type_)?;
        self.note(place)?;
        Ok(())
    }

    // Makes a type a candidate, if it may be one.
    fn note(&mut self, index: u32) -> Result<(), AllocError>
        requires candidates { AreCandidates (made self.old) self.old.candidates.items }
        ensures types { self.new.types ≡ self.old.types }
        ensures sizes { self.new.sizes ≡ self.old.sizes }
        ensures candidates { IfOk result (λ _. AreCandidates (made self.new) self.new.candidates.items) }
    {
        if let Some(candidate) = candidate_at(&self.types, index) {
            self.candidates.push(candidate)?;
        }
        Ok(())
    }

    // Adds a clone of a group.
    fn push_clone(&mut self, alloc: Global, span: Span) -> Result<(), AllocError>
        requires few { length (made self.old) + span.size ≤ 2 ^ 31 }
        requires whole { AreWhole self.old }
        requires span { IsSpan self.old.sizes.items span }
        requires candidates { AreCandidates (made self.old) self.old.candidates.items }
        ensures whole { IfOk result (λ _. AreWhole self.new) }
        ensures added { IfOk result (λ _. made self.new ≡ made self.old ++ cloned span (made self.old)) }
        ensures count { IfOk result (λ _. length (made self.new) ≡ length (made self.old) + span.size) }
        ensures sizes { IfOk result (λ _. self.new.sizes.items ≡ self.old.sizes.items ++ (span.size ∷ [])) }
        ensures candidates { IfOk result (λ _. AreCandidates (made self.new) self.new.candidates.items) }
        ensures done { IfOk result (λ _. (features : Features) → has features Gc ≡ true → AreDone features self.old → AreDone features self.new) }
    {
        let shift = Shift {
            start: span.start,
            by: self.types.len() as u32 - span.start,
        };
        for place in 0..span.size {
            self.push_copy(alloc, span.start + place, shift)?;
        }
        self.sizes.push(span.size)?;
        Ok(())
    }

    // Adds a group of one final function type without references to types.
    fn push_function(
        &mut self,
        alloc: Global,
        unstructured: &mut Unstructured<'_>,
        offers: &Offers,
    ) -> Result<(), AllocError>
        requires few { length (made self.old) < 2 ^ 31 }
        requires whole { AreWhole self.old }
        requires candidates { AreCandidates (made self.old) self.old.candidates.items }
        ensures group { IfOk result (λ _. AddsGroup (λ features. SuitsValues features offers.now) self.old self.new) }
        ensures added { IfOk result (λ _. made self.new ≡ made self.old ++ ((function_type_at offers.now unstructured.old).0 ∷ [])) }
        ensures left { IfOk result (λ _. unstructured.new ≡ (function_type_at offers.now unstructured.old).1) }
        ensures taken { length unstructured.new ≤ length unstructured.old }
        ensures groups { IfOk result (λ _. groups self.new ≡ groups self.old ++ (spec.Single (function_type_at offers.now unstructured.old).0 ∷ [])) }
    {
        let composite_type = offers.function(alloc, unstructured, 0)?;
        let type_ = SubType {
            is_final: true,
            supertype_idx: None,
            composite_type,
        };
        self.push(type_, 0)?;
        self.sizes.push(1)?;
        Ok(())
    }

    // Adds a clone of one of these groups, or a group of at most `left` types, if it has at most `room`.
    fn push_any(
        &mut self,
        alloc: Global,
        unstructured: &mut Unstructured<'_>,
        offers: &Offers,
        choices: &[Span],
        left: u32,
        room: u32,
    ) -> Result<(), TypesError>
        requires some { 0 < left }
        requires few { length (made self.old) + left ≤ 2 ^ 31 }
        requires whole { AreWhole self.old }
        requires candidates { AreCandidates (made self.old) self.old.candidates.items }
        requires choices { AreChoices self.old.sizes.items left choices.now }
        ensures group { IfOk result (λ _. AddsGroup (λ features. Suits features offers.now) self.old self.new) }
        ensures more { IfOk result (λ _. length (made self.old) < length (made self.new)) }
        ensures few { IfOk result (λ _. length (made self.new) ≤ length (made self.old) + left) }
        ensures within { IfOk result (λ _. length (made self.new) ≤ length (made self.old) + room) }
        ensures drawn { IfOk result (λ _. IfSome (group_at offers.now left (front_of self.old) unstructured.old)
            (λ drawn. AddsGroupDrawn drawn self.old self.new unstructured.new)) }
        ensures taken { length unstructured.new ≤ length unstructured.old }
        ensures too_many { IfErr result (λ e. e ≡ TypesError.TooMany → (room < left)
            × IfSome (group_at offers.now left (front_of self.old) unstructured.old) (λ drawn. room < length drawn.0)) }
        ensures enough { IfErr result (λ e. ¬ (e ≡ TypesError.TooFew)) }
    {
        let asked = !choices.is_empty();
        if bool_if(unstructured, asked) {
            let span = *unstructured.choose(choices).unwrap();
            if span.size > room {
                return Err(TypesError::TooMany);
            }
            self.push_clone(alloc, span)?;
            return Ok(());
        }
        let size = unstructured.int_in_range(1..=u64::from(left)) as u32;
        if size > room {
            return Err(TypesError::TooMany);
        }
        self.push_group(alloc, unstructured, offers, size)?;
        Ok(())
    }

    // Adds a group of at most `left` types, if it has at most `room`, and notes it among those that may be cloned.
    fn push_next(
        &mut self,
        alloc: Global,
        unstructured: &mut Unstructured<'_>,
        offers: &Offers,
        fitting: &mut Fitting,
        left: u32,
        room: u32,
    ) -> Result<(), TypesError>
        requires some { 0 < left }
        requires few { length (made self.old) + left ≤ 2 ^ 31 }
        requires whole { AreWhole self.old }
        requires candidates { AreCandidates (made self.old) self.old.candidates.items }
        requires fitting { AreFitting self.old.sizes.items left fitting.old }
        ensures group { IfOk result (λ _. AddsGroup (λ features. Suits features offers.now) self.old self.new) }
        ensures more { IfOk result (λ _. length (made self.old) < length (made self.new)) }
        ensures few { IfOk result (λ _. length (made self.new) ≤ length (made self.old) + left) }
        ensures within { IfOk result (λ _. length (made self.new) ≤ length (made self.old) + room) }
        ensures drawn { IfOk result (λ _. IfSome (group_at offers.now left (front_of self.old) unstructured.old)
            (λ drawn. AddsGroupDrawn drawn self.old self.new unstructured.new)) }
        ensures taken { length unstructured.new ≤ length unstructured.old }
        ensures too_many { IfErr result (λ e. e ≡ TypesError.TooMany → (room < left)
            × IfSome (group_at offers.now left (front_of self.old) unstructured.old) (λ drawn. room < length drawn.0)) }
        ensures enough { IfErr result (λ e. ¬ (e ≡ TypesError.TooFew)) }
        ensures fitting { IfOk result (λ _. AreFitting self.new.sizes.items left fitting.new) }
    {
        fitting.keep(left);
        let start = self.types.len() as u32;
        self.push_any(alloc, unstructured, offers, fitting.spans(), left, room)?;
        let size = self.types.len() as u32 - start;
        fitting.push(Span { start, size })?;
        Ok(())
    }

    // Adds a group with its references shifted.
    fn push_shifted(
        &mut self,
        alloc: Global,
        group: &[SubType],
        shift: Shift,
    ) -> Result<(), AllocError>
        requires few { length group.now < 2 ^ 32 }
        requires whole { AreWhole self.old }
        ensures whole { IfOk result (λ _. AreWhole self.new) }
        ensures added { IfOk result (λ _. groups self.new ≡ groups self.old
            ++ (group_map (shifted_index shift.start shift.by) (entry (map sub_type group.now)) ∷ [])) }
    {
        shift.push_all(alloc, &mut self.types, group)?;
        self.sizes.push(group.len() as u32)?;
        Ok(())
    }

    // Adds groups with their references shifted.
    fn push_groups(
        &mut self,
        alloc: Global,
        added: &[Vec<SubType>],
        shift: Shift,
    ) -> Result<(), AllocError>
        requires few { length (types_of (map group_of added.now)) ≤ 2 ^ 29 }
        requires whole { AreWhole self.old }
        ensures whole { IfOk result (λ _. AreWhole self.new) }
        ensures added { IfOk result (λ _. groups self.new ≡ groups self.old ++ map (group_map (shifted_index shift.start shift.by)) (map group_of added.now)) }
    {
        for group in added {
            self.push_shifted(alloc, group, shift)?;
        }
        Ok(())
    }

    // Adds the groups of a shape, their references moved behind the types so far.
    fn push_shape_groups(&mut self, alloc: Global, shape: &Shape) -> Result<(), AllocError>
        requires few { length (shape_types shape.now) ≤ 2 ^ 29 }
        requires room { length (made self.old) + length (shape_types shape.now) < 2 ^ 32 }
        requires in_range { AreInRange 0 shape.now.groups }
        requires whole { AreWhole self.old }
        ensures whole { IfOk result (λ _. AreWhole self.new) }
        ensures added { IfOk result (λ _. groups self.new ≡ then_groups (groups self.old) (Some shape.now)) }
    {
        let by = self.types.len() as u32;
        self.push_groups(alloc, &shape.groups, Shift { start: 0, by })
    }

    // Adds the groups of a shape, if there is one.
    fn push_shape(&mut self, alloc: Global, shape: &Option<Shape>) -> Result<(), AllocError>
        requires few { type_count shape.now ≤ 2 ^ 29 }
        requires room { length (made self.old) + type_count shape.now < 2 ^ 32 }
        requires in_range { IfSome shape.now (λ it. AreInRange 0 it.groups) }
        requires whole { AreWhole self.old }
        ensures whole { IfOk result (λ _. AreWhole self.new) }
        ensures added { IfOk result (λ _. groups self.new ≡ then_groups (groups self.old) shape.now) }
    {
        if let Some(shape) = shape {
            self.push_shape_groups(alloc, shape)?;
        }
        Ok(())
    }

    /// Returns the types, by type index.
    pub fn types(&self) -> &[SubType]
        ensures { map sub_type result.now ≡ made self.now }
    {
        &self.types
    }

    /// Returns the number of types of each group.
    pub fn sizes(&self) -> &[u32]
        ensures { result.now ≡ self.now.sizes.items }
    {
        &self.sizes
    }
}

// Makes groups, with garbage collection, of at most `most` types in all.
fn make_groups(
    alloc: Global,
    unstructured: &mut Unstructured<'_>,
    offers: &Offers,
    min: u32,
    max: u32,
    most: u32,
) -> Result<Types, TypesError>
    requires few { max ≤ 2 ^ 31 }
    ensures whole { IfOk result AreWhole }
    ensures done { IfOk result (λ t. (features : Features) → Suits features offers.now → AreDone features t) }
    ensures most { IfOk result (λ t. length (made t) ≤ max) }
    ensures within { IfOk result (λ t. length (made t) ≤ most) }
    ensures least { IfOk result (λ t. min ≤ max → min ≤ length (made t)) }
    ensures some { IfOk result (λ t. AllByRecursion (λ size. 0 < size) t.sizes.items) }
    ensures drawn { IfOk result (λ t. min ≡ 0
        → IfSome (groups_at offers.now max (max + 1) no_groups unstructured.old) (λ drawn. (groups t ≡ map entry drawn.0) × (unstructured.new ≡ drawn.1))) }
    ensures taken { length unstructured.new ≤ length unstructured.old }
    ensures too_many { IfErr result (λ e. e ≡ TypesError.TooMany → most < max) }
    ensures too_many_drawn { IfErr result (λ e. e ≡ TypesError.TooMany → min ≡ 0
        → IfSome (groups_at offers.now max (max + 1) no_groups unstructured.old) (λ drawn. most < length (types_of (map entry drawn.0)))) }
    ensures enough { IfErr result (λ e. ¬ (e ≡ TypesError.TooFew)) }
{
    let mut made = Types::new(alloc);
    let mut fitting = Fitting::new(alloc);
    'grow: while grows(unstructured, made.types.len(), min as usize, max as usize) {
        let count = made.types.len() as u32;
        made.push_next(
            alloc,
            unstructured,
            offers,
            &mut fitting,
            max - count,
            most - count,
        )?;
    }
    Ok(made)
}

// Makes function types, each a group by itself, without garbage collection, at most `most` of them.
#[tactic(auto, using(crate::proofs::GrowLaws::grow_loop))]
fn make_function_types(
    alloc: Global,
    unstructured: &mut Unstructured<'_>,
    offers: &Offers,
    min: u32,
    max: u32,
    most: u32,
) -> Result<Types, TypesError>
    requires few { max ≤ 2 ^ 31 }
    ensures whole { IfOk result AreWhole }
    ensures done { IfOk result (λ t. (features : Features) → SuitsValues features offers.now → AreDone features t) }
    ensures most { IfOk result (λ t. length (made t) ≤ max) }
    ensures within { IfOk result (λ t. length (made t) ≤ most) }
    ensures least { IfOk result (λ t. min ≤ max → min ≤ length (made t)) }
    ensures some { IfOk result (λ t. AllByRecursion (λ size. 0 < size) t.sizes.items) }
    ensures drawn { IfOk result (λ t. grow_at (function_type_at offers.now) min max 0 unstructured.old ≡ (made t, unstructured.new)) }
    ensures taken { length unstructured.new ≤ length unstructured.old }
    ensures singles { IfOk result (λ t. groups t ≡ map spec.Single (made t)) }
    ensures too_many { IfErr result (λ e. e ≡ TypesError.TooMany → most < max) }
    ensures too_many_drawn { IfErr result (λ e. e ≡ TypesError.TooMany → most < length (grow_at (function_type_at offers.now) min max 0 unstructured.old).0) }
    ensures enough { IfErr result (λ e. ¬ (e ≡ TypesError.TooFew)) }
{
    let mut made = Types::new(alloc);
    'grow: while grows(unstructured, made.types.len(), min as usize, max as usize) {
        if made.types.len() >= most as usize {
            return Err(TypesError::TooMany);
        }
        made.push_function(alloc, unstructured, offers)?;
    }
    Ok(made)
}

// Draws the types of a module beside `given` others, at most `most` of them.
fn draw_types(
    alloc: Global,
    unstructured: &mut Unstructured<'_>,
    offered: &Offers,
    config: &Config,
    given: u32,
    most: u32,
) -> Result<Types, TypesError>
    requires offered { offered.now ≡ offers config.now }
    requires few { config.now.max_types ≤ 2 ^ 31 }
    requires given { given ≡ given_types config.now }
    ensures valid { IfOk result (λ t. (features : Features) → AreFeaturesOf config.now features → AreValidGroups features (groups t)) }
    ensures most { IfOk result (λ t. length (made t) ≤ config.now.max_types - given_types config.now) }
    ensures within { IfOk result (λ t. length (made t) ≤ most) }
    ensures least { IfOk result (λ t. config.now.min_types ≤ config.now.max_types → config.now.min_types - given_types config.now ≤ length (made t)) }
    ensures small { IfOk result (λ t. AreSmall (made t)) }
    ensures some { IfOk result (λ t. AreSome (groups t)) }
    ensures whole { IfOk result AreWhole }
    ensures drawn { IfOk result (λ t. IfSome (drawn_groups_at (for_drawing config.now) unstructured.old) (λ drawn. drawn ≡ (groups t, unstructured.new))) }
    ensures taken { length unstructured.new ≤ length unstructured.old }
    ensures too_many { IfErr result (λ e. e ≡ TypesError.TooMany → most < config.now.max_types - given_types config.now) }
    ensures too_many_drawn { IfErr result (λ e. e ≡ TypesError.TooMany
        → IfSome (drawn_groups_at (for_drawing config.now) unstructured.old) (λ drawn. most < length (types_of drawn.0))) }
    ensures enough { IfErr result (λ e. ¬ (e ≡ TypesError.TooFew)) }
{
    let min = config.min_types.saturating_sub(given);
    let max = config.max_types.saturating_sub(given);
    if config.gc_enabled {
        let made = make_groups(alloc, unstructured, offered, min, max, most)?;
        return Ok(made);
    }
    let made = make_function_types(alloc, unstructured, offered, min, max, most)?;
    Ok(made)
}

// Makes types that are drawn, and then those of the shapes of imports and exports, at most `most` in all.
fn make_beside(
    alloc: Global,
    unstructured: &mut Unstructured<'_>,
    offered: &Offers,
    config: &Config,
    most: u32,
) -> Result<Types, TypesError>
    requires offered { offered.now ≡ offers config.now }
    requires few { config.now.max_types ≤ 2 ^ 31 }
    requires given { HaveGoodGroups config.now }
    requires none { config.now.module_shape ≡ None }
    ensures valid { IfOk result (λ t. (features : Features) → AreFeaturesOf config.now features → AreValidGroups features (groups t)) }
    ensures made { IfOk result (λ t. AreDrawnBeside config.now unstructured.old unstructured.new (groups t)) }
    ensures most { IfOk result (λ t. length (types_of (groups t)) ≤ max config.now.max_types (given_types config.now)) }
    ensures within { IfOk result (λ t. length (types_of (groups t)) ≤ most) }
    ensures least { IfOk result (λ t. config.now.min_types ≤ config.now.max_types → config.now.min_types ≤ length (types_of (groups t))) }
    ensures whole { IfOk result AreWhole }
    ensures taken { length unstructured.new ≤ length unstructured.old }
    ensures too_many { IfErr result (λ e. e ≡ TypesError.TooMany → AskForMore config.now unstructured.old most) }
    ensures enough { IfErr result (λ e. ¬ (e ≡ TypesError.TooFew)) }
{
    let given = type_count(&config.available_imports) + type_count(&config.exports);
    if given > most {
        return Err(TypesError::TooMany);
    }
    let mut made = draw_types(alloc, unstructured, offered, config, given, most - given)?;
    made.push_shape(alloc, &config.available_imports)?;
    made.push_shape(alloc, &config.exports)?;
    Ok(made)
}

// Makes the types of a shape and no others, at least `min` and at most `most` of them.
fn make_given(alloc: Global, shape: &Shape, min: u32, most: u32) -> Result<Types, TypesError>
    requires few { length (shape_types shape.now) ≤ 2 ^ 29 }
    requires in_range { AreInRange 0 shape.now.groups }
    ensures made { IfOk result (λ t. groups t ≡ shape.now.groups) }
    ensures least { IfOk result (λ t. min ≤ length (shape_types shape.now)) }
    ensures within { IfOk result (λ t. length (shape_types shape.now) ≤ most) }
    ensures whole { IfOk result AreWhole }
    ensures too_many { IfErr result (λ e. e ≡ TypesError.TooMany → most < length (shape_types shape.now)) }
    ensures too_few { IfErr result (λ e. e ≡ TypesError.TooFew → length (shape_types shape.now) < min) }
{
    let count = types_in(&shape.groups);
    if count < min {
        return Err(TypesError::TooFew);
    }
    if count > most {
        return Err(TypesError::TooMany);
    }
    let mut made = Types::new(alloc);
    made.push_shape_groups(alloc, shape)?;
    Ok(made)
}

/// Makes the types of a module, at most `most` of them. Where the configuration has a shape of the module, these are its types and nothing is drawn. Else
/// types are drawn, and those of its other shapes follow. With garbage collection there are groups of several types, clones of earlier groups, supertypes,
/// and references to types; without it, each type that is drawn is a final function type in a group by itself.
///
/// # Errors
/// `TooFew` where the shape of the module has fewer types than there have to be, `TooMany` as soon as more than `most` types are made and asked for, else
/// `Memory`. But for `TooFew`, some of the source's bytes may be taken by then.
pub fn make_types(
    alloc: Global,
    unstructured: &mut Unstructured<'_>,
    offered: &Offers,
    config: &Config,
    most: u32,
) -> Result<Types, TypesError>
    requires offered { offered.now ≡ offers config.now }
    requires few { config.now.max_types ≤ 2 ^ 31 }
    requires given { HaveGoodGroups config.now }
    ensures valid { IfOk result (λ t. (features : Features) → AreFeaturesOf config.now features → AreValidGroups features (groups t)) }
    ensures made { IfOk result (λ t. AreMade config.now unstructured.old unstructured.new (groups t)) }
    ensures most { IfOk result (λ t. length (types_of (groups t)) ≤ max config.now.max_types (given_types config.now)) }
    ensures within { IfOk result (λ t. length (types_of (groups t)) ≤ most) }
    ensures least { IfOk result (λ t. config.now.min_types ≤ config.now.max_types → config.now.min_types ≤ length (types_of (groups t))) }
    ensures whole { IfOk result AreWhole }
    ensures taken { length unstructured.new ≤ length unstructured.old }
    ensures too_many { IfErr result (λ e. e ≡ TypesError.TooMany → AskForMore config.now unstructured.old most) }
    ensures too_few { IfErr result (λ e. e ≡ TypesError.TooFew
        → (is_some config.now.module_shape ≡ true) × (type_count config.now.module_shape < config.now.min_types)) }
    ensures unread { IfErr result (λ e. e ≡ TypesError.TooFew → unstructured.new ≡ unstructured.old) }
{
    if let Some(shape) = &config.module_shape {
        return make_given(alloc, shape, config.min_types, most);
    }
    make_beside(alloc, unstructured, offered, config, most)
}
