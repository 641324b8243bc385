//! The function types of a list, which its functions name.

ghost use Rattle.std.specs.Prelude.{◌≡◌, ◌≤◌, ◌||◌, ◌∷◌, ◌++◌, [], ℕ, IfOk, IsTrue, List, is_some, length, map};
ghost use Rattle.std.specs.List.{list_all};
ghost use Rattle.wasm_core_types.specs.SubTypes.{composite_type, sub_type};
ghost use Rattle.wasm_spec.specs.Types as spec;
ghost use Rattle.wasm_smith_definitions.specs.FunctionTypes.{is_function, is_resultless};
ghost use Rattle.wasm_smith_witness.specs.Family.{types_of};
ghost use Rattle.wasm_smith_witness.specs.Functions.{AreKept, place_in};
ghost use Rattle.wasm_smith_witness.specs.Groups.{group_of};

use std::alloc::{AllocError, Global};
use wasm_core_types::types::{CompositeType, SubType};

/// The types of a list, as far as they are function types.
#[derive(Drop)]
pub struct FunctionTypes {
    // the place of each type among the function types, if it is one
    places: Vec<Option<usize>>,
    // the number of function types
    count: usize,
    // true if one of them has no results
    has_resultless: bool,
}

/// Checks that it is a function type.
pub fn is_function(type_: &CompositeType) -> bool
    ensures { result ≡ is_function (composite_type type_.now) }
{
    match type_ {
        CompositeType::Func(_) => true,
        CompositeType::Array(_) | CompositeType::Struct(_) | CompositeType::Cont(_) => false,
    }
}

// Checks that it is a function type without results.
#[tactic(auto, using(crate::proofs::AskingLaws::as_many))]
fn is_resultless(type_: &CompositeType) -> bool
    ensures { result ≡ is_resultless (composite_type type_.now) }
{
    match type_ {
        CompositeType::Func(type_) => type_.results().is_empty(),
        _ => false,
    }
}

impl FunctionTypes {
    // Adds a type.
    fn push(&mut self, type_: &SubType) -> Result<(), AllocError>
        requires few { self.old.count ≤ length self.old.places.items }
        ensures few { IfOk result (λ _. self.new.count ≤ length self.new.places.items) }
        ensures kept { IfOk result (λ _. (rest types : List (spec.SubType ℕ))
            → AreKept self.old (sub_type type_.now ∷ rest) types → AreKept self.new rest types) }
    {
        self.has_resultless |= is_resultless(&type_.composite_type);
        if is_function(&type_.composite_type) {
            self.places.push(Some(self.count))?;
            self.count += 1;
            return Ok(());
        }
        self.places.push(None)?;
        Ok(())
    }

    // Adds the types of a group.
    fn push_group(&mut self, group: &[SubType]) -> Result<(), AllocError>
        requires few { self.old.count ≤ length self.old.places.items }
        ensures few { IfOk result (λ _. self.new.count ≤ length self.new.places.items) }
        ensures kept { IfOk result (λ _. (rest types : List (spec.SubType ℕ))
            → AreKept self.old (map sub_type group.now ++ rest) types → AreKept self.new rest types) }
    {
        for type_ in group {
            self.push(type_)?;
        }
        Ok(())
    }

    /// Returns the function types of the groups.
    ///
    /// # Errors
    /// Where memory runs out.
    pub fn new(alloc: Global, groups: &[Vec<SubType>]) -> Result<FunctionTypes, AllocError>
        ensures { IfOk result (λ kept. AreKept kept [] (types_of (map group_of groups.now))) }
    {
        let mut types = FunctionTypes {
            places: Vec::new(alloc),
            count: 0,
            has_resultless: false,
        };
        for group in groups {
            types.push_group(group)?;
        }
        Ok(types)
    }

    /// Returns the number of function types.
    pub fn count(&self) -> usize
        ensures { result ≡ self.now.count }
    {
        self.count
    }

    /// Checks that one of the function types has no results.
    pub fn has_resultless(&self) -> bool
        ensures { result ≡ self.now.has_resultless }
    {
        self.has_resultless
    }

    /// Returns the place among the function types of the type of this index, if it is one.
    pub fn place(&self, index: u32) -> Option<usize>
        ensures { result ≡ place_in self.now index }
    {
        self.places.get(index as usize).copied().flatten()
    }

    /// Checks that each of these is the index of a function type.
    pub fn have_all(&self, indexes: &[u32]) -> bool
        ensures { result ≡ list_all (λ index. is_some (place_in self.now index)) indexes.now }
    {
        indexes.iter().all(|index| self.place(*index).is_some())
    }
}
