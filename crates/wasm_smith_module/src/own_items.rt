//! The items that a module defines for the exports of a shape.

ghost use Rattle.std.specs.Prelude.{◌≡◌, ◌≤◌, ◌-◌, ◌^◌, IfOk, length, map};
ghost use Rattle.wasm_core_types.specs.SubTypes.{sub_type};
ghost use Rattle.wasm_smith_definitions.specs.OwnItems.{own_items};
ghost use Rattle.wasm_smith_externs.specs.ShapeExports.{moved_types};
ghost use Rattle.wasm_smith_module.specs.Asked.{HasGoodShapes, own_of};
ghost use Rattle.wasm_smith_module.specs.TrueToShapes.{AreTypesOf};
ghost use Rattle.wasm_smith_shapes.specs.Shapes.{shape_types};
ghost use Rattle.wasm_smith_types.specs.Copies.{shifted_index};

use std::alloc::{AllocError, Global};
use wasm_core_types::types::SubType;
use wasm_smith_config::config::Config;
use wasm_smith_definitions::own_items::OwnItems;
use wasm_smith_shapes::shape::Shape;
use wasm_smith_types::given::types_in;
use wasm_smith_types::shifts::Shift;

// Returns the items that the exports of this shape ask for, whose types stand last among so many.
fn asked_items(alloc: Global, shape: &Shape, type_count: u32) -> Result<OwnItems, AllocError>
    requires few { length (shape_types shape.now) ≤ 2 ^ 29 }
    requires count { type_count ≤ 2 ^ 31 }
    ensures { IfOk result (λ own. own ≡ own_items (moved_types (shifted_index 0 (type_count - length (shape_types shape.now))) shape.now.exports)) }
{
    let by = type_count.saturating_sub(types_in(&shape.groups));
    OwnItems::new(alloc, &shape.exports, Shift { start: 0, by })
}

/// Returns the items that a module of these types defines for the exports of a shape.
///
/// # Errors
/// Where memory runs out.
pub fn own_items(alloc: Global, config: &Config, types: &[SubType]) -> Result<OwnItems, AllocError>
    requires shapes { HasGoodShapes config.now }
    requires few { length types.now ≤ 2 ^ 31 }
    requires types { AreTypesOf config.now (map sub_type types.now) }
    ensures { IfOk result (λ own. own ≡ own_of config.now (map sub_type types.now)) }
{
    if let Some(shape) = &config.module_shape {
        return asked_items(alloc, shape, types.len() as u32);
    }
    if let Some(shape) = &config.exports {
        return asked_items(alloc, shape, types.len() as u32);
    }
    Ok(OwnItems::none(alloc))
}
