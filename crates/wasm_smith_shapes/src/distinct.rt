//! Names that differ.

ghost use Rattle.std.specs.List.{IsDistinct};
ghost use Rattle.std.specs.Prelude.{◌↔◌, IfOk, IsTrue, bytes_eq, map};
ghost use Rattle.wasm_smith_shapes.specs.Shapes.{named_item};

use crate::shape::ShapeExport;
use std::alloc::{AllocError, Global};
use wasm_smith_unstructured::names::UniqueNames;

/// Checks that no two exports have one name.
///
/// # Errors
/// Where memory runs out.
pub fn have_distinct_names(alloc: Global, exports: &[ShapeExport]) -> Result<bool, AllocError>
    ensures { IfOk result (λ distinct. IsTrue distinct ↔ IsDistinct bytes_eq (map (λ export. export.name) (map named_item exports.now))) }
{
    let mut names = UniqueNames::new(alloc);
    for export in exports {
        let name: &str = &export.name;
        if names.contains(name) {
            return Ok(false);
        }
        names.add(alloc, name)?;
    }
    Ok(true)
}
