//! The types of a module by index, as their groups are numbered.

ghost use Rattle.std.specs.Prelude.{◌≡◌, ◌++◌, ℕ, List, [], IfOk, Some, length, map};
ghost use Rattle.std.specs.List.{range_with_len};
ghost use Rattle.wasm_core_types.specs.SubTypes as written;
ghost use Rattle.wasm_spec.specs.Syntax.{members};
ghost use Rattle.wasm_spec.specs.Trees.{DefType, GroupTree, types_after};
ghost use Rattle.wasm_spec.specs.Types as spec;
ghost use Rattle.wasm_gen_view.specs.Numbers.{IsNumbered, group_types};
ghost use Rattle.wasm_gen_view.specs.TypeNumbers.{AreNumbersOf, places_from};

use crate::groups::{GroupHasher, Groups};
use crate::references::References;
use crate::types::{SubType, TypePlace};
use std::alloc::{AllocError, Global};
use wasm_core_types::types;

/// The types of a module by index, as their groups are numbered.
#[derive(Drop)]
pub(crate) struct TypeNumbers {
    groups: Groups,
    places: Vec<TypePlace>,
}

// Adds the places of a group's types.
fn push_places(places: &mut Vec<TypePlace>, group: usize, count: usize) -> Result<(), AllocError>
    ensures { IfOk result (λ _. places.new.items ≡ places.old.items ++ places_from group 0 (range_with_len 0 count)) }
{
    for place in 0..count {
        places.push(TypePlace { group, place })?;
    }
    Ok(())
}

impl TypeNumbers {
    /// Creates the numbers of a module without types.
    pub(crate) fn new(alloc: Global, hasher: GroupHasher) -> TypeNumbers
        ensures { AreNumbersOf [] [] result.groups result.places.items }
    {
        TypeNumbers {
            groups: Groups::new(alloc, hasher),
            places: Vec::new(alloc),
        }
    }

    /// Numbers the types of one more group.
    ///
    /// # Errors
    /// Where memory runs out.
    pub(crate) fn add_group(
        &mut self,
        alloc: Global,
        types: &[types::SubType],
    ) -> Result<(), AllocError>
        ensures { IfOk result (λ _. (before : List DefType) (group : spec.RecGroup ℕ) → members group ≡ map written.sub_type types.now
            → (trees : List GroupTree) → AreNumbersOf before trees self.old.groups self.old.places.items
            → (all : List GroupTree) × AreNumbersOf (types_after before group) all self.new.groups self.new.places.items) }
    {
        if types.is_empty() {
            return Ok(());
        }
        let references = References {
            places: &self.places,
            outside: None,
        };
        let group = references.sub_types(alloc, types)?;
        let number = self.groups.number(group)?;
        push_places(&mut self.places, number, types.len())?;
        Ok(())
    }

    /// Returns the number of a group: that of an equal one, or the next number where there is none.
    ///
    /// # Errors
    /// Where memory runs out.
    pub(crate) fn number(&mut self, group: Vec<SubType>) -> Result<usize, AllocError>
        ensures numbered { IfOk result (λ number. IsNumbered (group_types group) self.old.groups number self.new.groups) }
        ensures places { IfOk result (λ _. self.new.places.items ≡ self.old.places.items) }
    {
        self.groups.number(group)
    }

    /// Adds the places of so many types, which are those of a group with this number.
    ///
    /// # Errors
    /// Where memory runs out.
    pub(crate) fn add_places(&mut self, number: usize, count: usize) -> Result<(), AllocError>
        ensures places { IfOk result (λ _. self.new.places.items ≡ self.old.places.items ++ places_from number 0 (range_with_len 0 count)) }
        ensures groups { IfOk result (λ _. self.new.groups ≡ self.old.groups) }
    {
        push_places(&mut self.places, number, count)
    }

    /// Returns the place of each type.
    pub(crate) fn places(&self) -> &[TypePlace]
        ensures { result.now ≡ self.now.places.items }
    {
        &self.places
    }

    /// Returns the number of groups.
    pub(crate) fn group_count(&self) -> usize
        ensures { result ≡ length self.now.groups }
    {
        self.groups.len()
    }

    /// Returns the references of items, which stand outside of groups.
    pub(crate) fn references(&self) -> References<'_>
        ensures places { result.places.now ≡ self.now.places.items }
        ensures outside { result.outside ≡ Some (length self.now.groups) }
    {
        References {
            places: &self.places,
            outside: Some(self.groups.len()),
        }
    }

    /// Returns the types of each group, and the place of each type.
    ///
    /// # Errors
    /// Where memory runs out.
    pub(crate) fn into_lists(
        self,
        alloc: Global,
    ) -> Result<(Vec<Vec<SubType>>, Vec<TypePlace>), AllocError>
        ensures groups { IfOk result (λ lists. map group_types lists.0.items ≡ self.groups) }
        ensures places { IfOk result (λ lists. lists.1.items ≡ self.places.items) }
    {
        Ok((self.groups.into_list(alloc)?, self.places))
    }
}
