//! The types of a group as they are kept: places in the group become ids.

ghost use Rattle.std.specs.Prelude.{◌≡◌, map};
ghost use Rattle.std.specs.List.{AllByRecursion};
ghost use Rattle.wasm_spec.specs.TypeReferences.{subs_map, subs_refs};
ghost use Rattle.wasmparser_types.specs.SubTypes.{sub_type};
ghost use Rattle.wasmparser_type_list.specs.TypeTables.{CanBeAbsolute, absolute};

use std::convert::Infallible;
use wasmparser_types::index::{CoreTypeId, PackedIndex, UnpackedIndex};
use wasmparser_types::remap::{RemapIndex, remap_sub_types};
use wasmparser_types::sub_type::SubType;

// The id of a group's first type.
#[derive(Clone, Copy)]
struct Start(u32);

impl RemapIndex for Start {
    ghost use Rattle.wasmparser_type_list.specs.TypeTables.{CanBeAbsolute, absolute};

    type Error = Infallible;

    ghost can_remap = { λ start index. CanBeAbsolute start.0 index };

    ghost remapped = { λ start index. absolute start.0 index };

    ghost refuses = { λ _ _ _. ⊥ };

    fn remap(&self, index: PackedIndex) -> Result<PackedIndex, Infallible> {
        match index.unpack() {
            UnpackedIndex::RecGroup(place) => {
                let id = CoreTypeId::from_index(self.0 + place);
                Ok(PackedIndex::from_id(id).unwrap())
            }
            _ => Ok(index),
        }
    }
}

/// Turns the places in a group into ids, the first of which is this one.
pub(crate) fn make_absolute(types: &mut Vec<SubType>, start: u32)
    requires { AllByRecursion (CanBeAbsolute start) (subs_refs (map sub_type types.old.items)) }
    ensures { map sub_type types.new.items ≡ subs_map (absolute start) (map sub_type types.old.items) }
{
    match remap_sub_types(types, &Start(start)) {
        Ok(()) => {}
        Err(never) => match never {},
    }
}
