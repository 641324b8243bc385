//! The types of a made module, as their groups are numbered.

ghost use Rattle.std.specs.Prelude.{◌≡◌, ℕ, IfOk, List, flat_map, length, map, sum};
ghost use Rattle.wasm_core_types.specs.SubTypes.{sub_type};
ghost use Rattle.wasm_gen_view.specs.TypeNumbers.{AreNumbersOf};
ghost use Rattle.wasm_spec.specs.Syntax.{members};
ghost use Rattle.wasm_spec.specs.Trees.{GroupTree, section_types};
ghost use Rattle.wasm_spec.specs.Types.{RecGroup};

use crate::groups::GroupHasher;
use crate::type_hash::hashed;
use crate::type_numbers::TypeNumbers;
use std::alloc::{AllocError, Global};
use wasm_core_types::types::SubType;

/// Numbers types that stand in groups of these sizes.
///
/// # Errors
/// Where memory runs out.
pub(crate) fn number_types(
    alloc: Global,
    types: &[SubType],
    sizes: &[u32],
) -> Result<TypeNumbers, AllocError>
    requires whole { sum sizes.now ≡ length types.now }
    ensures { IfOk result (λ numbers. (groups : List (RecGroup ℕ)) → map sub_type types.now ≡ flat_map members groups → sizes.now ≡ map (λ group. length (members group)) groups
        → (trees : List GroupTree) × AreNumbersOf (section_types groups) trees numbers.groups numbers.places.items) }
{
    let mut numbers = TypeNumbers::new(alloc, GroupHasher::after(hashed(types)));
    let mut start = 0;
    for size in sizes {
        let end = start + *size as usize;
        numbers.add_group(alloc, &types[start..end])?;
        start = end;
    }
    Ok(numbers)
}
