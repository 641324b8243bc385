//! The number of types that shapes give.

ghost use Rattle.std.specs.Prelude.{◌≡◌, ◌≤◌, ◌^◌, length, map};
ghost use Rattle.wasm_smith_shapes.specs.Shapes.{group_of};
ghost use Rattle.wasm_smith_types.specs.Given.{type_count};
ghost use Rattle.wasm_smith_validity.specs.ValidGroups.{types_of};

use wasm_core_types::types::SubType;
use wasm_smith_shapes::shape::Shape;

/// Returns the number of types of groups.
pub fn types_in(groups: &[Vec<SubType>]) -> u32
    requires few { length (types_of (map group_of groups.now)) ≤ 2 ^ 29 }
    ensures { result ≡ length (types_of (map group_of groups.now)) }
{
    let mut count: u32 = 0;
    for group in groups {
        count += group.len() as u32;
    }
    count
}

/// Returns the number of types of a shape, or 0 where there is none.
pub fn type_count(shape: &Option<Shape>) -> u32
    requires few { type_count shape.now ≤ 2 ^ 29 }
    ensures { result ≡ type_count shape.now }
{
    match shape {
        Some(shape) => types_in(&shape.groups),
        None => 0,
    }
}
