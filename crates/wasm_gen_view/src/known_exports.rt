//! The exports of a valid module.

ghost use Rattle.std.specs.Prelude.{◌≡◌, IfOk, map};
ghost use Rattle.wasm_encoder_sections.specs.CoreItems.{export_kind};
ghost use Rattle.wasm_gen_view.specs.Items.{exports_among};
ghost use Rattle.wasm_gen_view.specs.SameViews.{named_item};
ghost use Rattle.wasmparser_readers.specs.Exports.{external_kind};
ghost use Rattle.wasmparser_validator.specs.Shown.{spaces};

use crate::items::Items;
use crate::view::Export;
use std::alloc::{AllocError, Global};
use wasm_encoder_sections::entity_type::ExportKind;
use wasmparser_readers::export::ExternalKind;
use wasmparser_validator::types::TypesRef;

// Returns the kind as it is written.
fn written_kind(kind: ExternalKind) -> ExportKind
    ensures { export_kind result ≡ external_kind kind }
{
    match kind {
        ExternalKind::Func => ExportKind::Func,
        ExternalKind::Table => ExportKind::Table,
        ExternalKind::Memory => ExportKind::Memory,
        ExternalKind::Global => ExportKind::Global,
        ExternalKind::Tag => ExportKind::Tag,
    }
}

/// Returns the exports, with the items that they name.
///
/// # Errors
/// Where memory runs out.
pub(crate) fn known_exports(
    alloc: Global,
    items: &Items,
    types: &TypesRef<'_>,
) -> Result<Vec<Export>, AllocError>
    ensures { IfOk result (λ all. map named_item all.items ≡ exports_among items.now (spaces types.now).exports) }
{
    let mut all = Vec::new(alloc);
    let Some(exports) = types.core_exports() else {
        unreachable!()
    };
    for export in exports {
        if let Some(item) = items.item(written_kind(export.kind), export.index) {
            all.push(Export {
                name: String::from_str(alloc, export.name)?,
                item,
            })?;
        }
    }
    Ok(all)
}
