//! Types whose references a list of types allows: places in their own group, and ids of earlier types.

ghost use Rattle.std.specs.Prelude.{[], ◌∷◌, IfSome};
ghost use Rattle.wasmparser_type_list.specs.TypeTables.{AreWithin, final_func};
ghost use Rattle.wasmparser_types.specs.CompositeTypes.{func_type};
ghost use Rattle.wasmparser_types.specs.RecGroups.{members, rec_group};
ghost use Rattle.wasmparser_types.specs.SubTypes.{sub_type};

use std::alloc::Global;
use wasmparser_types::composite_type::{CompositeType, FuncType};
use wasmparser_types::index::{PackedIndex, UnpackedIndex};
use wasmparser_types::remap::RemapIndex;
use wasmparser_types::sub_type::{RecGroup, SubType};

// Replaces nothing, and refuses what such a group may not refer to.
#[derive(Drop)]
struct Within {
    // Number of types before the group.
    before: usize,
    // Number of its types.
    count: usize,
}

// A reference that isn't allowed.
#[derive(Clone, Copy)]
struct Beyond;

impl RemapIndex for Within {
    ghost use Rattle.std.specs.Prelude.{⊤};
    ghost use Rattle.wasmparser_type_list.specs.TypeTables.{IsWithin};

    type Error = Beyond;

    ghost remapped = { λ _ index. index };

    ghost accepts = { λ it index. IsWithin it.before it.count index };

    ghost refuses = { λ _ _ _. ⊤ };

    fn remap(&self, index: PackedIndex) -> Result<PackedIndex, Beyond> {
        let is_within = match index.unpack() {
            UnpackedIndex::Module(_) => true,
            UnpackedIndex::RecGroup(place) => (place as usize) < self.count,
            UnpackedIndex::Id(id) => id.index() < self.before,
        };
        if is_within { Ok(index) } else { Err(Beyond) }
    }
}

/// Returns the group, if it may come after so many types.
pub(crate) fn group_within(before: usize, mut it: RecGroup) -> Option<RecGroup>
    ensures { IfSome result (λ it. AreWithin before (members (rec_group it))) }
{
    let count = it.types().len();
    match it.remap_indices(&Within { before, count }) {
        Ok(()) => Some(it),
        Err(Beyond) => None,
    }
}

/// Returns the sub type, if it may come after so many types as a group of one.
pub(crate) fn sub_type_within(before: usize, mut it: SubType) -> Option<SubType>
    ensures { IfSome result (λ it. AreWithin before (sub_type it ∷ [])) }
{
    match it.remap_indices(&Within { before, count: 1 }) {
        Ok(()) => Some(it),
        Err(Beyond) => None,
    }
}

/// Returns the function type, if it may come after so many types as a group of one.
pub(crate) fn func_type_within(alloc: Global, before: usize, it: FuncType) -> Option<FuncType>
    ensures { IfSome result (λ it. AreWithin before (final_func (func_type it) ∷ [])) }
{
    let SubType {
        is_final: _,
        supertype_idxs: _,
        composite_type,
    } = sub_type_within(before, SubType::func(alloc, it))?;
    match composite_type {
        CompositeType::Func(it) => Some(it),
        _ => None,
    }
}
