//! Structural matching of types (Core Specification 3.0, Validation, "Matching"). Of the types that a type refers to only declared subtyping is consulted:
//! they were matched when they were declared.

ghost use Rattle.std.specs.Prelude.{◌≡◌, ◌↔◌, IsTrue, List, length, map};
ghost use Rattle.wasm_spec.specs.Matching.{CompositeMatches, FieldMatches, FrontPairwise, FuncMatches, Pairwise, StorageBelow};
ghost use Rattle.wasm_spec.specs.Subtyping.{HeapBelow, RefBelow, SubTypes, ValBelow};
ghost use Rattle.wasm_spec.specs.TypeReferences.{composite_map, field_map, func_map, heap_map, ref_map, storage_map, sub_map, val_map};
ghost use Rattle.wasm_spec.specs.Types as spec;
ghost use Rattle.wasmparser_types.specs.CompositeTypes.{composite_type, func_type, struct_fields};
ghost use Rattle.wasmparser_types.specs.HeapTypes.{heap_type};
ghost use Rattle.wasmparser_types.specs.Index.{Index};
ghost use Rattle.wasmparser_types.specs.SubTypes.{sub_type};
ghost use Rattle.wasmparser_types.specs.ValTypes.{field_type, storage_type, val_type};

use crate::known_types::KnownTypes;
use crate::subtyping::{heap_is_subtype, null_is_allowed};
use wasmparser_types::composite_type::{ArrayType, CompositeType, ContType, FuncType, StructType};
use wasmparser_types::heap_type::HeapType;
use wasmparser_types::index::{PackedIndex, RecGroupId};
use wasmparser_types::ref_type::RefType;
use wasmparser_types::sub_type::SubType;
use wasmparser_types::val_type::{FieldType, StorageType, ValType};

/// A part of a type that another such part can match.
pub trait Matches {
    // The type that stands for it in the specification.
    ghost Meaning: { Type 0 };

    ghost meaning: { Self → Meaning };

    // It with each index replaced.
    ghost mapped: { (Index → Index) → Meaning → Meaning };

    // States that one matches another.
    ghost matching: { SubTypes Index → Meaning → Meaning → Type 0 };

    /// Checks that this part matches another one. A place in a recursive group is a place in the one that is handed in with the part.
    fn matches<L: KnownTypes>(
        &self,
        rec_group: RecGroupId,
        other: &Self,
        other_group: RecGroupId,
        types: &L,
    ) -> bool
        requires { L.can_ask types.now }
        ensures { IsTrue result ↔ matching (L.sub_at types.now) (mapped (L.resolved types.now rec_group) (meaning self.now)) (mapped (L.resolved types.now other_group) (meaning other.now)) };
}

// Returns the heap type that one in a recursive group stands for outside of it.
fn resolved<L: KnownTypes>(types: &L, rec_group: RecGroupId, heap: HeapType) -> HeapType
    requires { L.can_ask types.now }
    ensures { heap_type result ≡ heap_map (L.resolved types.now rec_group) (heap_type heap) }
{
    match heap {
        HeapType::Abstract(heap) => HeapType::Abstract(heap),
        HeapType::Concrete(index) => HeapType::Concrete(types.resolve(rec_group, index)),
    }
}

// Checks that the first parts match the others, one by one, as far as the others go.
fn front_matches<T: Matches, L: KnownTypes>(
    items: &[T],
    rec_group: RecGroupId,
    others: &[T],
    other_group: RecGroupId,
    types: &L,
) -> bool
    requires { L.can_ask types.now }
    ensures { IsTrue result ↔ FrontPairwise (T.matching (L.sub_at types.now)) (map (T.mapped (L.resolved types.now rec_group)) (map T.meaning items.now)) (map (T.mapped (L.resolved types.now other_group)) (map T.meaning others.now)) }
{
    if items.len() < others.len() {
        return false;
    }
    for index in 0..others.len() {
        if !items[index].matches(rec_group, &others[index], other_group, types) {
            return false;
        }
    }
    true
}

// Checks that parts match others one by one, and are as many.
fn all_match<T: Matches, L: KnownTypes>(
    items: &[T],
    rec_group: RecGroupId,
    others: &[T],
    other_group: RecGroupId,
    types: &L,
) -> bool
    requires { L.can_ask types.now }
    ensures { IsTrue result ↔ Pairwise (T.matching (L.sub_at types.now)) (map (T.mapped (L.resolved types.now rec_group)) (map T.meaning items.now)) (map (T.mapped (L.resolved types.now other_group)) (map T.meaning others.now)) }
{
    if items.len() != others.len() {
        return false;
    }
    front_matches(items, rec_group, others, other_group, types)
}

impl<T: Matches> Matches for &T {
    ghost Meaning = { T.Meaning };

    ghost meaning = { λ part. T.meaning part.now };

    ghost mapped = { T.mapped };

    ghost matching = { T.matching };

    fn matches<L: KnownTypes>(
        &self,
        rec_group: RecGroupId,
        other: &Self,
        other_group: RecGroupId,
        types: &L,
    ) -> bool {
        T::matches(*self, rec_group, *other, other_group, types)
    }
}

impl Matches for PackedIndex {
    ghost Meaning = { Index };

    ghost meaning = { λ index. index };

    ghost mapped = { λ f. f };

    ghost matching = { λ sub_at a b. HeapBelow sub_at (spec.Concrete a) (spec.Concrete b) };

    fn matches<L: KnownTypes>(
        &self,
        rec_group: RecGroupId,
        other: &PackedIndex,
        other_group: RecGroupId,
        types: &L,
    ) -> bool {
        let a = types.resolve(rec_group, self.unpack());
        let b = types.resolve(other_group, other.unpack());
        types.index_is_subtype(a, b)
    }
}

impl Matches for RefType {
    ghost Meaning = { spec.RefType Index };

    ghost meaning = { λ type. type };

    ghost mapped = { ref_map };

    ghost matching = { RefBelow };

    fn matches<L: KnownTypes>(
        &self,
        rec_group: RecGroupId,
        other: &RefType,
        other_group: RecGroupId,
        types: &L,
    ) -> bool {
        if !null_is_allowed(self.is_nullable(), other.is_nullable()) {
            return false;
        }
        let a = resolved(types, rec_group, self.heap_type());
        let b = resolved(types, other_group, other.heap_type());
        heap_is_subtype(types, a, b)
    }
}

impl Matches for ValType {
    ghost Meaning = { spec.ValType Index };

    ghost meaning = { val_type };

    ghost mapped = { val_map };

    ghost matching = { ValBelow };

    fn matches<L: KnownTypes>(
        &self,
        rec_group: RecGroupId,
        other: &ValType,
        other_group: RecGroupId,
        types: &L,
    ) -> bool {
        match (self, other) {
            (ValType::Ref(a), ValType::Ref(b)) => a.matches(rec_group, b, other_group, types),
            _ => self == other,
        }
    }
}

impl Matches for StorageType {
    ghost Meaning = { spec.StorageType Index };

    ghost meaning = { storage_type };

    ghost mapped = { storage_map };

    ghost matching = { StorageBelow };

    fn matches<L: KnownTypes>(
        &self,
        rec_group: RecGroupId,
        other: &StorageType,
        other_group: RecGroupId,
        types: &L,
    ) -> bool {
        match (self, other) {
            (StorageType::Val(a), StorageType::Val(b)) => {
                a.matches(rec_group, b, other_group, types)
            }
            _ => self == other,
        }
    }
}

impl Matches for FieldType {
    ghost Meaning = { spec.FieldType Index };

    ghost meaning = { field_type };

    ghost mapped = { field_map };

    ghost matching = { FieldMatches };

    fn matches<L: KnownTypes>(
        &self,
        rec_group: RecGroupId,
        other: &FieldType,
        other_group: RecGroupId,
        types: &L,
    ) -> bool {
        let a = &self.element_type;
        let b = &other.element_type;
        if self.mutable != other.mutable || !a.matches(rec_group, b, other_group, types) {
            return false;
        }
        !self.mutable || b.matches(other_group, a, rec_group, types)
    }
}

impl Matches for FuncType {
    ghost Meaning = { spec.FuncType Index };

    ghost meaning = { func_type };

    ghost mapped = { func_map };

    ghost matching = { FuncMatches };

    fn matches<L: KnownTypes>(
        &self,
        rec_group: RecGroupId,
        other: &FuncType,
        other_group: RecGroupId,
        types: &L,
    ) -> bool {
        all_match(other.params(), other_group, self.params(), rec_group, types)
            && all_match(
                self.results(),
                rec_group,
                other.results(),
                other_group,
                types,
            )
    }
}

impl Matches for StructType {
    ghost Meaning = { List (spec.FieldType Index) };

    ghost meaning = { struct_fields };

    ghost mapped = { λ f fields. map (field_map f) fields };

    ghost matching = { λ sub_at xs ys. FrontPairwise (FieldMatches sub_at) xs ys };

    fn matches<L: KnownTypes>(
        &self,
        rec_group: RecGroupId,
        other: &StructType,
        other_group: RecGroupId,
        types: &L,
    ) -> bool {
        front_matches(&self.fields, rec_group, &other.fields, other_group, types)
    }
}

impl Matches for ArrayType {
    ghost Meaning = { spec.FieldType Index };

    ghost meaning = { λ type. field_type type.0 };

    ghost mapped = { field_map };

    ghost matching = { FieldMatches };

    fn matches<L: KnownTypes>(
        &self,
        rec_group: RecGroupId,
        other: &ArrayType,
        other_group: RecGroupId,
        types: &L,
    ) -> bool {
        self.0.matches(rec_group, &other.0, other_group, types)
    }
}

impl Matches for ContType {
    ghost Meaning = { Index };

    ghost meaning = { λ type. type.0 };

    ghost mapped = { λ f. f };

    ghost matching = { λ sub_at a b. HeapBelow sub_at (spec.Concrete a) (spec.Concrete b) };

    fn matches<L: KnownTypes>(
        &self,
        rec_group: RecGroupId,
        other: &ContType,
        other_group: RecGroupId,
        types: &L,
    ) -> bool {
        self.0.matches(rec_group, &other.0, other_group, types)
    }
}

impl Matches for CompositeType {
    ghost Meaning = { spec.CompositeType Index };

    ghost meaning = { composite_type };

    ghost mapped = { composite_map };

    ghost matching = { CompositeMatches };

    fn matches<L: KnownTypes>(
        &self,
        rec_group: RecGroupId,
        other: &CompositeType,
        other_group: RecGroupId,
        types: &L,
    ) -> bool {
        match (self, other) {
            (CompositeType::Func(a), CompositeType::Func(b)) => {
                a.matches(rec_group, b, other_group, types)
            }
            (CompositeType::Struct(a), CompositeType::Struct(b)) => {
                a.matches(rec_group, b, other_group, types)
            }
            (CompositeType::Array(a), CompositeType::Array(b)) => {
                a.matches(rec_group, b, other_group, types)
            }
            (CompositeType::Cont(a), CompositeType::Cont(b)) => {
                a.matches(rec_group, b, other_group, types)
            }
            _ => false,
        }
    }
}

// By what it is made of: finality, supertypes and order are asked where a type is defined.
impl Matches for SubType {
    ghost Meaning = { spec.SubType Index };

    ghost meaning = { sub_type };

    ghost mapped = { sub_map };

    ghost matching = { λ sub_at a b. CompositeMatches sub_at a.composite_type b.composite_type };

    fn matches<L: KnownTypes>(
        &self,
        rec_group: RecGroupId,
        other: &SubType,
        other_group: RecGroupId,
        types: &L,
    ) -> bool {
        self.composite_type
            .matches(rec_group, &other.composite_type, other_group, types)
    }
}
