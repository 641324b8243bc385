//! The exports of a module that a shape asks for.

ghost use Rattle.std.specs.Prelude.{◌≡◌, ◌+◌, ◌<◌, ◌^◌, [], IfOk, length, map};
ghost use Rattle.wasm_spec.specs.Types.{ExternalKind};
ghost use Rattle.wasm_smith_definitions.specs.Kinds.{of_export};
ghost use Rattle.wasm_smith_shapes.specs.Shapes.{named_item};
ghost use Rattle.wasm_smith_validity.specs.Spaces.{spaces_after_all};
ghost use Rattle.wasm_smith_externs.specs.ShapeExports.{count_in, shape_exports_from};

use crate::importer::kind_of;
use std::alloc::AllocError;
use wasm_encoder_sections::entity_type::ExportKind;
use wasm_smith_definitions::index_spaces::IndexSpaces;
use wasm_smith_definitions::items::Export;
use wasm_smith_shapes::shape::ShapeExport;

/// How many items of each kind there are.
#[derive(Clone, Copy, Debug)]
pub struct KindCounts {
    /// The number of functions.
    pub functions: u32,
    /// The number of tables.
    pub tables: u32,
    /// The number of memories.
    pub memories: u32,
    /// The number of globals.
    pub globals: u32,
    /// The number of tags.
    pub tags: u32,
}

// Counts one more, and returns the number of those before it.
fn next(count: &mut u32) -> u32
    requires few { count.old + 1 < 2 ^ 32 }
    ensures before { result ≡ count.old }
    ensures counted { count.new ≡ count.old + 1 }
{
    let before = *count;
    *count += 1;
    before
}

impl KindCounts {
    ghost use Rattle.std.specs.Prelude.{◌≡◌, ◌+◌, ◌<◌, ◌^◌};
    ghost use Rattle.wasm_encoder_sections.specs.CoreItems.{export_kind};
    ghost use Rattle.wasm_spec.specs.Types.{ExternalKind};
    ghost use Rattle.wasm_smith_definitions.specs.Kinds.{count_of};
    ghost use Rattle.wasm_smith_externs.specs.ShapeExports.{count_in, with_one};

    /// Returns how many items of each kind index spaces have.
    pub fn of(spaces: &IndexSpaces<'_>) -> KindCounts
        requires few { (kind : ExternalKind) → count_of spaces.now kind < 2 ^ 32 }
        ensures { (kind : ExternalKind) → count_in result kind ≡ count_of spaces.now kind }
    {
        KindCounts {
            functions: spaces.count_of(ExportKind::Func) as u32,
            tables: spaces.count_of(ExportKind::Table) as u32,
            memories: spaces.count_of(ExportKind::Memory) as u32,
            globals: spaces.count_of(ExportKind::Global) as u32,
            tags: spaces.count_of(ExportKind::Tag) as u32,
        }
    }

    // Counts one more item of a kind, and returns its index, the number of those before it.
    fn next_index(&mut self, kind: ExportKind) -> u32
        requires few { count_in self.old (export_kind kind) + 1 < 2 ^ 32 }
        ensures index { result ≡ count_in self.old (export_kind kind) }
        ensures counted { self.new ≡ with_one self.old (export_kind kind) }
    {
        match kind {
            ExportKind::Func => next(&mut self.functions),
            ExportKind::Table => next(&mut self.tables),
            ExportKind::Memory => next(&mut self.memories),
            ExportKind::Global => next(&mut self.globals),
            ExportKind::Tag => next(&mut self.tags),
        }
    }
}

/// Exports what a shape exports, and nothing else: each export names the item of its kind that is made for it, where so many items of each kind come
/// before those that are made for exports.
///
/// # Errors
/// Where memory runs out.
pub fn shape_exports(
    exports: &[ShapeExport],
    before: KindCounts,
    spaces: &mut IndexSpaces<'_>,
) -> Result<(), AllocError>
    requires few { (kind : ExternalKind) → count_in before kind + length exports.now < 2 ^ 32 }
    requires first { spaces.old.exports ≡ [] }
    ensures exports { IfOk result (λ _. spaces.new.exports ≡ shape_exports_from before (map named_item exports.now)) }
    ensures known { IfOk result (λ _. spaces.new ≡ spaces_after_all spaces.old (map of_export spaces.new.exports)) }
{
    let mut counts = before;
    for export in exports {
        let kind = kind_of(&export.ty);
        let index = counts.next_index(kind);
        let name = export.name.clone()?;
        spaces.push_export(Export { name, kind, index })?;
    }
    Ok(())
}
