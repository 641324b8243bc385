//! The check of the shapes of a configuration.

ghost use Rattle.std.specs.Prelude.{◌≡◌, ◌↔◌, ◌^◌, IfErr, IfSome, IsSomeAnd, IsTrue, OnOk, map};
ghost use Rattle.std.specs.List.{flat_map, list_any};
ghost use Rattle.wasm_core_types.specs.Features.{feature_set};
ghost use Rattle.wasm_encoder_sections.specs.CoreItems.{entity_type, export_kind};
ghost use Rattle.wasm_smith_config.specs.Config.{AreFeaturesOf};
ghost use Rattle.wasm_smith_module.specs.Asked.{GoTogether, HasGoodShapes, IsShapesReason, items_in};
ghost use Rattle.wasm_smith_module.specs.ItemKinds.{is_of, may_meet};
ghost use Rattle.wasm_smith_shapes.specs.Imports.{import_entry, import_item};
ghost use Rattle.wasm_smith_shapes.specs.Shapes.{exported_items, imported_items, named_item};
ghost use Rattle.wasm_smith_shapes.specs.ValidShapes.{IsGoodShape, IsShapeReason};
ghost use Rattle.wasm_smith_shapes.specs.declared.shape.ShapeUse.TheVariants.{Imports, Exports};
ghost use Rattle.wasm_spec.specs.Syntax.{imported_by};

use std::alloc::Global;
use wasm_core_types::features::WasmFeatures;
use wasm_encoder_sections::entity_type::{EntityType, ExportKind};
use wasm_smith_config::config::Config;
use wasm_smith_externs::importer::kind_of;
use wasm_smith_shapes::imports::{ImportEntry, ImportItem};
use wasm_smith_shapes::shape::{Shape, ShapeExport, ShapeUse};
use wasm_smith_unstructured::error::Error;

// Checks that an item of this type is of a kind.
fn is_of(kind: ExportKind, ty: &EntityType) -> bool
    ensures { result ≡ is_of (export_kind kind) (entity_type ty.now) }
{
    kind_of(ty) == kind
}

// Checks that some of these imports are of a kind.
fn have_import(kind: ExportKind, items: &[ImportItem]) -> bool
    ensures { result ≡ list_any (λ item. is_of (export_kind kind) item.type) (map import_item items.now) }
{
    items.iter().any(|item| is_of(kind, &item.ty))
}

// Checks that an entry has an import of a kind.
fn has_import(kind: ExportKind, entry: &ImportEntry) -> bool
    ensures { result ≡ list_any (is_of (export_kind kind)) (imported_by (import_entry entry.now)) }
{
    match entry {
        ImportEntry::Single { ty, .. } => is_of(kind, ty),
        ImportEntry::Compact1 { items, .. } => have_import(kind, items),
        ImportEntry::Compact2 { ty, names, .. } => !names.is_empty() && is_of(kind, ty),
    }
}

// Checks that some of these entries have an import of a kind.
fn import_some(kind: ExportKind, imports: &[ImportEntry]) -> bool
    ensures { result ≡ list_any (is_of (export_kind kind)) (flat_map imported_by (map import_entry imports.now)) }
{
    imports.iter().any(|entry| has_import(kind, entry))
}

// Checks that some of these exports are of a kind.
fn export_some(kind: ExportKind, exports: &[ShapeExport]) -> bool
    ensures { result ≡ list_any (is_of (export_kind kind)) (map (λ export. export.type) (map named_item exports.now)) }
{
    exports.iter().any(|export| is_of(kind, &export.ty))
}

// Checks that a shape, if there is one, has an item of a kind.
fn has_item(kind: ExportKind, asked: &Option<Shape>) -> bool
    ensures { result ≡ list_any (is_of (export_kind kind)) (items_in asked.now) }
{
    match asked {
        Some(shape) => import_some(kind, &shape.imports) || export_some(kind, &shape.exports),
        None => false,
    }
}

// Checks that there aren't both imports and exports of a kind, or that there may be several items of this kind.
fn may_meet(several: bool, kind: ExportKind, config: &Config) -> bool
    ensures { result ≡ may_meet several (export_kind kind) (items_in config.now.available_imports) (items_in config.now.exports) }
{
    several || !(has_item(kind, &config.available_imports) && has_item(kind, &config.exports))
}

// Checks that the shapes of imports and exports may stand in one module, where each may by itself.
fn go_together(features: WasmFeatures, config: &Config) -> bool
    requires features { AreFeaturesOf config.now (feature_set features) }
    requires imports { IfSome config.now.available_imports (IsGoodShape (feature_set features) Imports (2 ^ 29)) }
    requires exports { IfSome config.now.exports (IsGoodShape (feature_set features) Exports (2 ^ 29)) }
    ensures { IsTrue result ↔ GoTogether config.now }
{
    may_meet(features.reference_types(), ExportKind::Table, config)
        && may_meet(features.multi_memory(), ExportKind::Memory, config)
}

// Checks that modules are made for a shape, if there is one.
fn check_shape(
    alloc: Global,
    features: WasmFeatures,
    purpose: ShapeUse,
    asked: &Option<Shape>,
) -> Result<(), Error>
    ensures good { OnOk result (IfSome asked.now (IsGoodShape (feature_set features) purpose (2 ^ 29))) }
    ensures bad { IfErr result (λ error. IsSomeAnd asked.now (λ shape. IsShapeReason (feature_set features) purpose (2 ^ 29) shape error)) }
{
    match asked {
        Some(shape) => shape.check(alloc, features, purpose),
        None => Ok(()),
    }
}

/// Checks that modules are made for the shapes of a configuration.
///
/// # Errors
/// `BadShape` names the first part of one of the shapes that isn't allowed (see [`Shape::check`]), or `together`, where both `available_imports` and
/// `exports` have a table or both have a memory and several of these aren't enabled. Else `Memory`.
pub fn check_shapes(alloc: Global, config: &Config) -> Result<(), Error>
    ensures good { OnOk result (HasGoodShapes config.now) }
    ensures bad { IfErr result (IsShapesReason config.now) }
{
    let features = config.features();
    check_shape(alloc, features, ShapeUse::Module, &config.module_shape)?;
    let imports = &config.available_imports;
    check_shape(alloc, features, ShapeUse::Imports, imports)?;
    check_shape(alloc, features, ShapeUse::Exports, &config.exports)?;
    if !go_together(features, config) {
        return Err(Error::BadShape("together"));
    }
    Ok(())
}
