//! The text of the view of a valid module.

ghost use Rattle.std.specs.Prelude.{IfOk};
ghost use Rattle.wasm_gen_view.specs.TypesText.{IsViewText};
ghost use Rattle.wasmparser_validator.specs.Shown.{spaces};

use crate::types_view::view_of_types;
use std::alloc::{AllocError, Global};
use wasmparser_validator::types::TypesRef;

/// Returns the text of the view of the index spaces of a valid module, as bytes.
///
/// # Errors
/// Where memory runs out.
pub fn text_of_types(alloc: Global, types: TypesRef<'_>) -> Result<Vec<u8>, AllocError>
    ensures { IfOk result (λ text. IsViewText (spaces types.entry) text.items) }
{
    let view = view_of_types(alloc, types)?;
    let text = view.text(alloc)?;
    Ok(text.into_bytes())
}
