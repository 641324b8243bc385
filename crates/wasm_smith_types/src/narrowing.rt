//! Parts of a type that may have another as its supertype.

ghost use Rattle.std.specs.Prelude.{◌≡◌, ◌≤◌, IfOk, length, map};
ghost use Rattle.wasm_core_types.specs.CoreTypes.{val_type, field_type};
ghost use Rattle.wasm_spec.specs.Matching.{Pairwise};
ghost use Rattle.wasm_smith_unstructured.specs.Draws.{IsDrawn};
ghost use Rattle.wasm_smith_types.specs.Copies.{Varies, IsNarrowedField, varied_at, narrowed_field_at};
ghost use Rattle.wasm_smith_types.specs.Growing.{Draws, each_at};

use std::alloc::{AllocError, Global};
use wasm_core_types::types::{FieldType, RefType, StorageType, ValType};
use wasm_smith_unstructured::unstructured::Unstructured;

// Returns the type, or where a drawn bool says so, the reference that may be null or may not.
fn varied(unstructured: &mut Unstructured<'_>, type_: ValType, nullable: bool) -> ValType
    ensures drawn { IsDrawn val_type result unstructured.new (varied_at nullable (val_type type_) unstructured.old) }
    ensures taken { length unstructured.new ≤ length unstructured.old }
    ensures varies { Varies nullable (val_type result) (val_type type_) }
{
    if let ValType::Ref(reference) = type_ {
        if reference.nullable != nullable && unstructured.bool() {
            return ValType::Ref(RefType {
                nullable,
                heap_type: reference.heap_type,
            });
        }
    }
    type_
}

/// Returns the types. References may be null, or may not be, where drawn bools say so.
///
/// # Errors
/// Where memory runs out. Some of the source's bytes may be taken by then.
#[tactic(auto, using(crate::proofs::GrowLaws::each_loop))]
pub fn varied_values(
    alloc: Global,
    unstructured: &mut Unstructured<'_>,
    types: &[ValType],
    nullable: bool,
) -> Result<Vec<ValType>, AllocError>
    ensures drawn { Draws (λ v. map val_type v.items) unstructured.new result (each_at (varied_at nullable) (map val_type types.now) unstructured.old) }
    ensures taken { length unstructured.new ≤ length unstructured.old }
    ensures vary { IfOk result (λ v. Pairwise (Varies nullable) (map val_type v.items) (map val_type types.now)) }
{
    let mut copies = Vec::new(alloc);
    for type_ in types {
        copies.push(varied(unstructured, *type_, nullable))?;
    }
    Ok(copies)
}

/// Returns the field. Where it can't be set, its reference may not be null if a drawn bool says so.
pub fn narrowed_field(unstructured: &mut Unstructured<'_>, field: FieldType) -> FieldType
    ensures drawn { IsDrawn field_type result unstructured.new (narrowed_field_at (field_type field) unstructured.old) }
    ensures taken { length unstructured.new ≤ length unstructured.old }
    ensures narrowed { IsNarrowedField (field_type result) (field_type field) }
{
    if field.mutable {
        return field;
    }
    match field.element_type {
        StorageType::Val(type_) => FieldType {
            element_type: StorageType::Val(varied(unstructured, type_, false)),
            mutable: false,
        },
        _ => field,
    }
}

/// Returns the fields. The reference of one that can't be set may not be null if a drawn bool says so.
///
/// # Errors
/// Where memory runs out. Some of the source's bytes may be taken by then.
#[tactic(auto, using(crate::proofs::GrowLaws::each_loop))]
pub fn narrowed_fields(
    alloc: Global,
    unstructured: &mut Unstructured<'_>,
    fields: &[FieldType],
) -> Result<Vec<FieldType>, AllocError>
    ensures drawn { Draws (λ v. map field_type v.items) unstructured.new result (each_at narrowed_field_at (map field_type fields.now) unstructured.old) }
    ensures taken { length unstructured.new ≤ length unstructured.old }
    ensures narrowed { IfOk result (λ v. Pairwise IsNarrowedField (map field_type v.items) (map field_type fields.now)) }
{
    let mut copies = Vec::new(alloc);
    for field in fields {
        copies.push(narrowed_field(unstructured, *field))?;
    }
    Ok(copies)
}
