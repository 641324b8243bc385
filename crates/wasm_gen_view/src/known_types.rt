//! The types of a valid module, as their groups are numbered.

ghost use Rattle.std.specs.Prelude.{◌≡◌, ◌≤◌, ◌+◌, ◌<◌, ℕ, List, IfOk, Some, length, map, nat_eq, slice_get, if◌then◌else◌};
ghost use Rattle.std.specs.List.{range_with_len};
ghost use Rattle.wasm_gen_view.specs.KnownNumbers.{AreNumberedSoFar};
ghost use Rattle.wasm_gen_view.specs.KnownReferences.{number_in, referred};
ghost use Rattle.wasm_gen_view.specs.Numbers.{IsNumbered};
ghost use Rattle.wasm_gen_view.specs.TypeNumbers.{AreNumbersOf};
ghost use Rattle.wasm_spec.specs.Trees.{DefType, GroupTree, type_at};
ghost use Rattle.wasmparser_module_types.specs.ModuleTypes.{AreKnownTypes, ids_of_group};
ghost use Rattle.wasmparser_validator.specs.Shown.{known, spaces};

use crate::group_numbers::GroupNumbers;
use crate::groups::GroupHasher;
use crate::known_group::{KnownGroup, group_of};
use crate::known_hash::known_hash;
use crate::known_references::KnownReferences;
use crate::type_numbers::TypeNumbers;
use std::alloc::{AllocError, Global};
use wasmparser_types::index::CoreTypeId;
use wasmparser_validator::types::TypesRef;

// Types that are numbered, and the numbers of their groups by ids.
#[derive(Drop)]
struct KnownNumbers {
    types: TypeNumbers,
    numbers: GroupNumbers,
}

impl KnownNumbers {
    // Returns the number of a group that has none so far.
    fn number(
        &mut self,
        alloc: Global,
        types: &TypesRef<'_>,
        group: &KnownGroup,
    ) -> Result<usize, AllocError>
        requires ids { ids_of_group (known types.now) group.now.id ≡ range_with_len group.now.first group.now.count }
        requires known { group.now.first + group.now.count ≤ length (known types.now).interned }
        ensures numbered { IfOk result (λ number. IsNumbered (map (referred (known types.now) self.old.numbers group.now.first group.now.count) (range_with_len group.now.first group.now.count)) self.old.types.groups number self.new.types.groups) }
        ensures named { IfOk result (λ number. (other : ℕ) → number_in self.new.numbers other ≡ if nat_eq group.now.first other then Some number else number_in self.old.numbers other) }
        ensures places { IfOk result (λ _. self.new.types.places.items ≡ self.old.types.places.items) }
    {
        let references = KnownReferences {
            types,
            numbers: &self.numbers,
            group,
        };
        let members = references.sub_types(alloc)?;
        let number = self.types.number(members)?;
        self.numbers.insert(group.first, number)?;
        Ok(number)
    }

    // Numbers the group of the next type.
    fn add_group(
        &mut self,
        alloc: Global,
        types: &TypesRef<'_>,
        id: CoreTypeId,
    ) -> Result<(), AllocError>
        requires { id < length (known types.now).interned }
        ensures so_far { IfOk result (λ _. (section : List DefType) → AreKnownTypes (known types.now)
            → slice_get section (length self.old.types.places.items) ≡ Some (type_at (known types.now).interned id)
            → AreNumberedSoFar (known types.now) section self.old.types.groups self.old.types.places.items self.old.numbers
            → AreNumberedSoFar (known types.now) section self.new.types.groups self.new.types.places.items self.new.numbers) }
        ensures more { IfOk result (λ _. length self.old.types.places.items < length self.new.types.places.items) }
    {
        let group = group_of(types, id);
        let number = match self.numbers.get(group.first) {
            Some(number) => number,
            None => self.number(alloc, types, &group)?,
        };
        self.types.add_places(number, group.count)?;
        Ok(())
    }
}

/// Numbers the types of a module.
///
/// # Errors
/// Where memory runs out.
pub(crate) fn number_known_types(
    alloc: Global,
    types: &TypesRef<'_>,
) -> Result<TypeNumbers, AllocError>
    ensures { IfOk result (λ numbers. (trees : List GroupTree) × AreNumbersOf (spaces types.now).types trees numbers.groups numbers.places.items) }
{
    // The laws that the clause follows from, which do nothing.
    types.are_known();
    types.are_of_groups();
    let mut numbers = KnownNumbers {
        types: TypeNumbers::new(alloc, GroupHasher::after(known_hash(types))),
        numbers: GroupNumbers::new(alloc),
    };
    for index in 0..types.core_type_count_in_module() {
        // (the types of a group get their places together)
        if index as usize == numbers.types.places().len() {
            numbers.add_group(alloc, types, types.core_type_at_in_module(index))?;
        }
    }
    Ok(numbers.types)
}
