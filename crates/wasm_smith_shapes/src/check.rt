//! The check of a shape.

ghost use Rattle.std.specs.Prelude.{◌≡◌};
ghost use Rattle.wasm_smith_shapes.specs.ValidShapes.{IsPartReason};

use crate::distinct::have_distinct_names;
use crate::flat::{
    have_few_imports, have_few_types, types_of_exports, types_of_groups, types_of_imports,
};
use crate::forms::{may_have_entries, may_have_items};
use crate::groups::are_good_groups;
use crate::items::Items;
use crate::shape::{Shape, ShapeUse};
use std::alloc::Global;
use wasm_core_types::features::WasmFeatures;
use wasm_core_types::types::SubType;
use wasm_smith_unstructured::error::Error;

/// The most entries of a shape: types, imports and exports.
pub const MOST_ENTRIES: u32 = 0x2000_0000;

impl Shape {
    ghost use Rattle.std.specs.Prelude.{◌≡◌, ◌≤◌, ◌+◌, ◌^◌, ◌<◌, IfOk, IfErr, OnOk, codes, length, map};
    ghost use Rattle.wasm_core_types.specs.Features.{feature_set};
    ghost use Rattle.wasm_core_types.specs.SubTypes.{sub_type};
    ghost use Rattle.wasm_smith_shapes.specs.Shapes.{imported_items, shape_types};
    ghost use Rattle.wasm_smith_shapes.specs.Standing.{Stand};
    ghost use Rattle.wasm_smith_shapes.specs.ValidShapes.{HasGoodExports, HasGoodGroups, HasGoodImports, IsGoodShape, IsPartReason, IsShapeReason, imported_spaces};
    ghost use Rattle.wasm_smith_validity.specs.Spaces.{spaces_of_types};

    /// Checks that modules are made for this shape under these features.
    ///
    /// # Errors
    /// `BadShape` names the first part, of `groups`, `imports` and `exports`, that isn't allowed; a part is also not allowed where there are more than
    /// [`MOST_ENTRIES`] entries, with those of the parts before it. Else `Memory`.
    pub fn check(
        &self,
        alloc: Global,
        features: WasmFeatures,
        purpose: ShapeUse,
    ) -> Result<(), Error>
        ensures good { OnOk result (IsGoodShape (feature_set features) purpose (2 ^ 29) self.now) }
        ensures bad { IfErr result (IsShapeReason (feature_set features) purpose (2 ^ 29) self.now) }
    {
        self.check_within(alloc, features, purpose, MOST_ENTRIES)
    }

    /// Checks as [`Shape::check`] does that modules are made for this shape, which may have `most` entries.
    ///
    /// # Errors
    /// Those of [`Shape::check`].
    pub fn check_within(
        &self,
        alloc: Global,
        features: WasmFeatures,
        purpose: ShapeUse,
        most: u32,
    ) -> Result<(), Error>
        ensures good { OnOk result (IsGoodShape (feature_set features) purpose most self.now) }
        ensures bad { IfErr result (IsShapeReason (feature_set features) purpose most self.now) }
    {
        let types = self.check_groups(alloc, features, purpose, most)?;
        let mut items = Items::new(features, &types);
        let left = most as usize - items.types.len();
        let imported = self.check_imports(alloc, &mut items, purpose, left)?;
        self.check_exports(alloc, &items, purpose, left - imported)
    }

    // Checks the groups, and returns their types.
    fn check_groups(
        &self,
        alloc: Global,
        features: WasmFeatures,
        purpose: ShapeUse,
        most: u32,
    ) -> Result<Vec<SubType>, Error>
        ensures types { IfOk result (λ types. map sub_type types.items ≡ shape_types self.now) }
        ensures good { IfOk result (λ _. HasGoodGroups (feature_set features) purpose most self.now) }
        ensures bad { IfErr result (IsPartReason (codes "groups") (¬ (HasGoodGroups (feature_set features) purpose most self.now))) }
    {
        if !have_few_types(&self.groups, most as usize) {
            return Err(Error::BadShape("groups"));
        }
        let types = types_of_groups(alloc, &self.groups)?;
        if !are_good_groups(features, purpose, &self.groups, &types) {
            return Err(Error::BadShape("groups"));
        }
        Ok(types)
    }

    // Checks the imports, and returns their number.
    fn check_imports(
        &self,
        alloc: Global,
        items: &mut Items<'_>,
        purpose: ShapeUse,
        left: usize,
    ) -> Result<usize, Error>
        requires none { Stand items.old (spaces_of_types (shape_types self.now)) }
        ensures good { IfOk result (λ count. HasGoodImports (feature_set items.old.features) purpose (length (shape_types self.now) + left) self.now) }
        ensures counted { IfOk result (λ count. count ≡ length (imported_items self.now)) }
        ensures within { IfOk result (λ count. count ≤ left) }
        ensures after { IfOk result (λ _. Stand items.new (imported_spaces self.now)) }
        ensures features { items.new.features ≡ items.old.features }
        ensures bad { IfErr result (IsPartReason (codes "imports") (¬ (HasGoodImports (feature_set items.old.features) purpose (length (shape_types self.now) + left) self.now))) }
    {
        let is_unwanted = matches!(purpose, ShapeUse::Exports) && !self.imports.is_empty();
        if is_unwanted || !have_few_imports(&self.imports, left) {
            return Err(Error::BadShape("imports"));
        }
        let types = types_of_imports(alloc, &self.imports)?;
        if !may_have_entries(purpose, &self.imports) || !items.import_all(&types) {
            return Err(Error::BadShape("imports"));
        }
        Ok(types.len())
    }

    // Checks the exports.
    fn check_exports(
        &self,
        alloc: Global,
        items: &Items<'_>,
        purpose: ShapeUse,
        left: usize,
    ) -> Result<(), Error>
        requires imported { Stand items.now (imported_spaces self.now) }
        ensures good { IfOk result (λ _. HasGoodExports (feature_set items.now.features) purpose (length (shape_types self.now) + length (imported_items self.now) + left) self.now) }
        ensures bad { IfErr result (IsPartReason (codes "exports") (¬ (HasGoodExports (feature_set items.now.features) purpose (length (shape_types self.now) + length (imported_items self.now) + left) self.now))) }
    {
        let is_unwanted = matches!(purpose, ShapeUse::Imports) && !self.exports.is_empty();
        if is_unwanted || self.exports.len() > left {
            return Err(Error::BadShape("exports"));
        }
        let types = types_of_exports(alloc, &self.exports)?;
        if !may_have_items(purpose, &types) || !items.can_define_all(&types) {
            return Err(Error::BadShape("exports"));
        }
        if !have_distinct_names(alloc, &self.exports)? {
            return Err(Error::BadShape("exports"));
        }
        Ok(())
    }
}
