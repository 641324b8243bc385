//! The composite types that are drawn.

ghost use Rattle.std.specs.Prelude.{◌≡◌, ◌≤◌, IfOk, true, false, length, map};
ghost use Rattle.wasm_core_types.specs.CoreTypes.{storage_type, field_type};
ghost use Rattle.wasm_core_types.specs.SubTypes.{composite_type};
ghost use Rattle.wasm_smith_unstructured.specs.Draws.{IsDrawn};
ghost use Rattle.wasm_spec.specs.Features.{Features};
ghost use Rattle.wasm_spec.specs.Matching.{Pairwise};
ghost use Rattle.wasm_smith_types.specs.Copies.{Varies};
ghost use Rattle.wasm_smith_types.specs.Drawing.{storage_at, field_at, fields_at, function_at, structure_at, array_at, composite_at, function_copy_at, copy_at};
ghost use Rattle.wasm_smith_types.specs.Permitted.{IsPermittedComposite, IsPermittedCopy, Suits};
ghost use Rattle.wasm_smith_types.specs.Growing.{Draws, with_front};

use crate::bounds::{MAX_FIELDS, MAX_PARAMS};
use crate::growing::grows;
use crate::narrowing::{narrowed_field, narrowed_fields, varied_values};
use crate::value_types::Offers;
use std::alloc::{AllocError, Global};
use wasm_core_types::types::{
    ArrayType, CompositeType, FieldType, FuncType, StorageType, StructType,
};
use wasm_smith_unstructured::unstructured::Unstructured;

impl Offers {
    // Draws the storage type of a field.
    #[tactic(auto, unfolding(crate::specs::Drawing::storage_at))]
    fn storage(&self, unstructured: &mut Unstructured<'_>, bound: u32) -> StorageType
        ensures drawn { IsDrawn storage_type result unstructured.new (storage_at self.now bound unstructured.old) }
        ensures taken { length unstructured.new ≤ length unstructured.old }
    {
        let form = unstructured.int_in_range(0..=2);
        if form == 0 {
            StorageType::Val(self.value(unstructured, bound))
        } else if form == 1 {
            StorageType::I8
        } else {
            StorageType::I16
        }
    }

    // Draws a field type.
    #[tactic(auto, unfolding(crate::specs::Drawing::field_at))]
    fn field(&self, unstructured: &mut Unstructured<'_>, bound: u32) -> FieldType
        ensures drawn { IsDrawn field_type result unstructured.new (field_at self.now bound unstructured.old) }
        ensures taken { length unstructured.new ≤ length unstructured.old }
    {
        let element_type = self.storage(unstructured, bound);
        let mutable = unstructured.bool();
        FieldType {
            element_type,
            mutable,
        }
    }

    // Draws further fields after these, up to the most that a structure type has.
    #[tactic(auto, using(crate::proofs::GrowLaws::grow_loop), unfolding(crate::specs::Drawing::fields_at))]
    fn more_fields(
        &self,
        alloc: Global,
        unstructured: &mut Unstructured<'_>,
        bound: u32,
        mut fields: Vec<FieldType>,
    ) -> Result<Vec<FieldType>, AllocError>
        ensures drawn { Draws (λ v. map field_type v.items) unstructured.new result (with_front (map field_type fields.items) (fields_at self.now bound (length fields.items) unstructured.old)) }
        ensures taken { length unstructured.new ≤ length unstructured.old }
    {
        'grow: while grows(unstructured, fields.len(), 0, MAX_FIELDS) {
            fields.push(self.field(unstructured, bound))?;
        }
        Ok(fields)
    }

    /// Draws a function type, whose references go to types with indexes below `bound`.
    ///
    /// # Errors
    /// Where memory runs out. Some of the source's bytes may be taken by then.
    #[tactic(auto, unfolding(crate::specs::Drawing::function_at))]
    pub fn function(
        &self,
        alloc: Global,
        unstructured: &mut Unstructured<'_>,
        bound: u32,
    ) -> Result<CompositeType, AllocError>
        ensures drawn { Draws composite_type unstructured.new result (function_at self.now bound unstructured.old) }
        ensures taken { length unstructured.new ≤ length unstructured.old }
    {
        let params = self.values(alloc, unstructured, bound, MAX_PARAMS)?;
        let results = self.values(alloc, unstructured, bound, self.most_results())?;
        Ok(CompositeType::Func(FuncType::new(params, results)))
    }

    // Draws a structure type.
    #[tactic(auto, unfolding(crate::specs::Drawing::structure_at, crate::specs::Growing::with_front))]
    fn structure(
        &self,
        alloc: Global,
        unstructured: &mut Unstructured<'_>,
        bound: u32,
    ) -> Result<CompositeType, AllocError>
        ensures drawn { Draws composite_type unstructured.new result (structure_at self.now bound unstructured.old) }
        ensures taken { length unstructured.new ≤ length unstructured.old }
    {
        let fields = self.more_fields(alloc, unstructured, bound, Vec::new(alloc))?;
        Ok(CompositeType::Struct(StructType::new(fields)))
    }

    // Draws an array type.
    #[tactic(auto, unfolding(crate::specs::Drawing::array_at))]
    fn array(&self, unstructured: &mut Unstructured<'_>, bound: u32) -> CompositeType
        ensures drawn { IsDrawn composite_type result unstructured.new (array_at self.now bound unstructured.old) }
        ensures taken { length unstructured.new ≤ length unstructured.old }
    {
        CompositeType::Array(ArrayType(self.field(unstructured, bound)))
    }

    /// Draws the composite type of a type without a supertype, whose references go to types with indexes below `bound`.
    ///
    /// # Errors
    /// Where memory runs out. Some of the source's bytes may be taken by then.
    #[tactic(auto, unfolding(crate::specs::Drawing::composite_at))]
    pub fn composite(
        &self,
        alloc: Global,
        unstructured: &mut Unstructured<'_>,
        bound: u32,
    ) -> Result<CompositeType, AllocError>
        ensures drawn { Draws composite_type unstructured.new result (composite_at self.now bound unstructured.old) }
        ensures taken { length unstructured.new ≤ length unstructured.old }
    {
        let form = unstructured.int_in_range(0..=2);
        if form == 0 {
            return self.function(alloc, unstructured, bound);
        }
        if form == 1 {
            return self.structure(alloc, unstructured, bound);
        }
        Ok(self.array(unstructured, bound))
    }

    // Returns a function type that may have this one as its supertype.
    #[tactic(auto, unfolding(crate::specs::Drawing::function_copy_at))]
    fn function_copy(
        &self,
        alloc: Global,
        unstructured: &mut Unstructured<'_>,
        type_: &FuncType,
    ) -> Result<FuncType, AllocError>
        ensures drawn { Draws (λ f. f) unstructured.new result (function_copy_at type_.now unstructured.old) }
        ensures taken { length unstructured.new ≤ length unstructured.old }
        ensures vary { IfOk result (λ f. Pairwise (Varies true) f.params type_.now.params × Pairwise (Varies false) f.results type_.now.results) }
    {
        let params = varied_values(alloc, unstructured, type_.params(), true)?;
        let results = varied_values(alloc, unstructured, type_.results(), false)?;
        Ok(FuncType::new(params, results))
    }

    /// Returns a composite type that may have this one as its supertype: references are narrowed where a bool says so, and a
    /// structure gets further fields, whose references go to types with indexes below `bound`.
    ///
    /// # Errors
    /// Where memory runs out. Some of the source's bytes may be taken by then.
    #[tactic(auto, unfolding(crate::specs::Drawing::copy_at, crate::specs::Growing::with_front))]
    pub fn copy(
        &self,
        alloc: Global,
        unstructured: &mut Unstructured<'_>,
        bound: u32,
        type_: &CompositeType,
    ) -> Result<CompositeType, AllocError>
        ensures drawn { Draws composite_type unstructured.new result (copy_at self.now bound (composite_type type_.now) unstructured.old) }
        ensures taken { length unstructured.new ≤ length unstructured.old }
        ensures permitted { IfOk result (λ copy. (features : Features) → Suits features self.now
            → IsPermittedComposite features bound (composite_type type_.now)
            → IsPermittedCopy features bound (composite_type copy) (composite_type type_.now)) }
    {
        match type_ {
            CompositeType::Func(function) => {
                let copy = self.function_copy(alloc, unstructured, function)?;
                Ok(CompositeType::Func(copy))
            }
            CompositeType::Struct(structure) => {
                let front = narrowed_fields(alloc, unstructured, structure.fields())?;
                let fields = self.more_fields(alloc, unstructured, bound, front)?;
                Ok(CompositeType::Struct(StructType::new(fields)))
            }
            CompositeType::Array(array) => Ok(CompositeType::Array(ArrayType(narrowed_field(
                unstructured,
                array.0,
            )))),
            CompositeType::Cont(continuation) => Ok(CompositeType::Cont(*continuation)),
        }
    }
}
