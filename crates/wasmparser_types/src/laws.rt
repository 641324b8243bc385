//! What holds of all types of this crate.

ghost use Rattle.std.specs.Prelude.{◌≡◌, ℕ, true, false, [], ◌∷◌, map};
ghost use Rattle.std.specs.Bool.{Decides};
ghost use Rattle.wasm_spec.specs.Types as spec;
ghost use Rattle.wasmparser_types.specs.CompositeTypes.{func_type, struct_fields, composite_type};
ghost use Rattle.wasmparser_types.specs.HeapTypes.{abstract_heap_type, heap_type, abstract_ref, abstract_val};
ghost use Rattle.wasmparser_types.specs.Index.{Index};
ghost use Rattle.wasmparser_types.specs.RecGroups.{rec_group};
ghost use Rattle.wasmparser_types.specs.SubTypes.{sub_type};
ghost use Rattle.wasmparser_types.specs.UnpackedIndex.{index};
ghost use Rattle.wasmparser_types.specs.ValTypes.{val_type, storage_type, field_type};

use crate::composite_type::{ArrayType, CompositeType, ContType, FuncType, StructType};
use crate::heap_type::{AbstractHeapType, HeapType};
use crate::index::{CoreTypeId, PackedIndex, RecGroupId, UnpackedIndex};
use crate::ref_type::RefType;
use crate::sub_type::{RecGroup, SubType};
use crate::val_type::{FieldType, StorageType, ValType};

/// `==` decides whether two types are one type of the specification.
pub fn equality()
    ensures core_type_ids { (a b : ℕ) → Decides (⟦<CoreTypeId as PartialEq>⟧.eq a b) (a ≡ b) }
    ensures rec_group_ids { (a b : ℕ) → Decides (⟦<RecGroupId as PartialEq>⟧.eq a b) (a ≡ b) }
    ensures unpacked_indexes { (a b : UnpackedIndex) → Decides (⟦<UnpackedIndex as PartialEq>⟧.eq a b) (index a ≡ index b) }
    ensures packed_indexes { (a b : Index) → Decides (⟦<PackedIndex as PartialEq>⟧.eq a b) (a ≡ b) }
    ensures ref_types { (a b : spec.RefType Index) → Decides (⟦<RefType as PartialEq>⟧.eq a b) (a ≡ b) }
    ensures abstract_heap_types { (a b : AbstractHeapType) → Decides (⟦<AbstractHeapType as PartialEq>⟧.eq a b) (abstract_heap_type a ≡ abstract_heap_type b) }
    ensures heap_types { (a b : HeapType) → Decides (⟦<HeapType as PartialEq>⟧.eq a b) (heap_type a ≡ heap_type b) }
    ensures val_types { (a b : ValType) → Decides (⟦<ValType as PartialEq>⟧.eq a b) (val_type a ≡ val_type b) }
    ensures storage_types { (a b : StorageType) → Decides (⟦<StorageType as PartialEq>⟧.eq a b) (storage_type a ≡ storage_type b) }
    ensures field_types { (a b : FieldType) → Decides (⟦<FieldType as PartialEq>⟧.eq a b) (field_type a ≡ field_type b) }
    ensures func_types { (a b : FuncType) → Decides (⟦<FuncType as PartialEq>⟧.eq a b) (func_type a ≡ func_type b) }
    ensures struct_types { (a b : StructType) → Decides (⟦<StructType as PartialEq>⟧.eq a b) (struct_fields a ≡ struct_fields b) }
    ensures array_types { (a b : ArrayType) → Decides (⟦<ArrayType as PartialEq>⟧.eq a b) (field_type a.0 ≡ field_type b.0) }
    ensures cont_types { (a b : ContType) → Decides (⟦<ContType as PartialEq>⟧.eq a b) (a.0 ≡ b.0) }
    ensures composite_types { (a b : CompositeType) → Decides (⟦<CompositeType as PartialEq>⟧.eq a b) (composite_type a ≡ composite_type b) }
    ensures sub_types { (a b : SubType) → Decides (⟦<SubType as PartialEq>⟧.eq a b) (sub_type a ≡ sub_type b) }
    ensures rec_groups { (a b : RecGroup) → Decides (⟦<RecGroup as PartialEq>⟧.eq a b) (rec_group a ≡ rec_group b) }
{}

/// The reference types with a name that may be null.
pub fn nullable_ref_types() -> [RefType; 14]
    ensures { result ≡ map (abstract_ref true) (spec.Func ∷ spec.Extern ∷ spec.Any ∷ spec.Eq ∷ spec.I31 ∷ spec.Struct ∷ spec.Array ∷ spec.Exn ∷ spec.Cont ∷ spec.None ∷ spec.NoExtern ∷ spec.NoFunc ∷ spec.NoExn ∷ spec.NoCont ∷ []) }
{
    [
        RefType::FUNCREF,
        RefType::EXTERNREF,
        RefType::ANYREF,
        RefType::EQREF,
        RefType::I31REF,
        RefType::STRUCTREF,
        RefType::ARRAYREF,
        RefType::EXNREF,
        RefType::CONTREF,
        RefType::NULLREF,
        RefType::NULLEXTERNREF,
        RefType::NULLFUNCREF,
        RefType::NULLEXNREF,
        RefType::NULLCONTREF,
    ]
}

/// The reference types with a name that may not be null.
pub fn non_null_ref_types() -> [RefType; 4]
    ensures { result ≡ map (abstract_ref false) (spec.Func ∷ spec.Extern ∷ spec.Exn ∷ spec.Cont ∷ []) }
{
    [RefType::FUNC, RefType::EXTERN, RefType::EXN, RefType::CONT]
}

/// The value types with a name, all of which may be null.
pub fn val_types() -> [ValType; 4]
    ensures { map val_type result ≡ map abstract_val (spec.Func ∷ spec.Extern ∷ spec.Exn ∷ spec.Cont ∷ []) }
{
    [
        ValType::FUNCREF,
        ValType::EXTERNREF,
        ValType::EXNREF,
        ValType::CONTREF,
    ]
}
