//! The exports of a made module.

ghost use Rattle.std.specs.Prelude.{◌≡◌, IfOk, map};
ghost use Rattle.wasm_gen_view.specs.Items.{exports_among};
ghost use Rattle.wasm_gen_view.specs.SameViews.{named_item};
ghost use Rattle.wasm_smith_definitions.specs.Items.{export};

use crate::items::Items;
use crate::view::Export;
use std::alloc::{AllocError, Global};
use wasm_smith_definitions::items;

impl Items {
    /// Returns the exports of items that are there.
    ///
    /// # Errors
    /// Where memory runs out.
    pub(crate) fn exports(
        &self,
        alloc: Global,
        exports: &[items::Export],
    ) -> Result<Vec<Export>, AllocError>
        ensures { IfOk result (λ all. map named_item all.items ≡ exports_among self.now (map export exports.now)) }
    {
        let mut all = Vec::new(alloc);
        for export in exports {
            if let Some(item) = self.item(export.kind, export.index) {
                all.push(Export {
                    name: export.name.clone()?,
                    item,
                })?;
            }
        }
        Ok(all)
    }
}
