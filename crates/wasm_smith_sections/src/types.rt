//! The type section (Core Specification 3.0, Binary Format, Modules, "Type Section").

ghost use Rattle.std.specs.Prelude.{◌≡◌, ◌≤◌, ◌^◌, length, map, IfOk, IfErr};
ghost use Rattle.wasm_core_types.specs.SubTypes.{sub_type};
ghost use Rattle.wasm_core_write.specs.CoreRecGroups.{rec_group};
ghost use Rattle.wasm_smith_types.specs.Drawing.{total};
ghost use Rattle.wasm_smith_validity.specs.ValidGroups.{entry};
ghost use Rattle.wasm_smith_types.specs.Grouped.{grouped};

use std::alloc::{AllocError, Global};
use wasm_core_types::types::SubType;
use wasm_core_write::encode_error::EncodeError;
use wasm_core_write::rec_group::RecGroup;
use wasm_core_write::type_section::TypeSection;
use wasm_smith_shapes::copies::copied;

// Returns copies of these types.
fn copied_types(alloc: Global, types: &[SubType]) -> Result<Vec<SubType>, AllocError>
    ensures { IfOk result (λ copies. map sub_type copies.items ≡ map sub_type types.now) }
{
    let mut copies = Vec::new(alloc);
    for ty in types {
        copies.push(copied(alloc, ty)?)?;
    }
    Ok(copies)
}

// Returns a group of copies of these types: one type stands by itself.
fn group_of(alloc: Global, types: &[SubType]) -> Result<RecGroup, AllocError>
    ensures { IfOk result (λ group. rec_group group ≡ entry (map sub_type types.now)) }
{
    if types.len() == 1 {
        return Ok(RecGroup::Single(copied(alloc, &types[0])?));
    }
    Ok(RecGroup::Group(copied_types(alloc, types)?))
}

/// Returns the type section: groups of these sizes.
///
/// # Errors
/// `TooLong` only where there are more than 4,294,967,295 groups, and else `Memory`.
pub fn type_section(
    alloc: Global,
    types: &[SubType],
    sizes: &[u32],
) -> Result<TypeSection, EncodeError>
    requires whole { total sizes.now ≡ length types.now }
    ensures kept { IfOk result (λ section. section ≡ grouped sizes.now (map sub_type types.now)) }
    ensures too_long { IfErr result (λ e. e ≡ EncodeError.TooLong → 2 ^ 32 ≤ length sizes.now) }
{
    let mut section = TypeSection::new(alloc);
    let mut start = 0;
    for size in sizes {
        let end = start + *size as usize;
        section.push(group_of(alloc, &types[start..end])?)?;
        start = end;
    }
    Ok(section)
}
