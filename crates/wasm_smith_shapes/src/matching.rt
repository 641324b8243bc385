//! Structural matching of types (Core Specification 3.0, Validation, "Matching"). Of the types that a type names only declared subtyping is asked.

ghost use Rattle.std.specs.Prelude.{◌≡◌, ◌↔◌, IsTrue, ℕ, List, map};
ghost use Rattle.wasm_core_types.specs.CoreTypes.{field_type, storage_type, val_type};
ghost use Rattle.wasm_core_types.specs.SubTypes.{composite_type, sub_type};
ghost use Rattle.wasm_smith_validity.specs.Below.{seen};
ghost use Rattle.wasm_smith_validity.specs.Linked.{AreLinked};
ghost use Rattle.wasm_spec.specs.Matching.{CompositeMatches, FieldMatches, FrontPairwise, FuncMatches, Pairwise, StorageBelow};
ghost use Rattle.wasm_spec.specs.Subtyping.{HeapBelow, SubTypes, ValBelow};
ghost use Rattle.wasm_spec.specs.Types as spec;

use wasm_core_types::types::{
    ArrayType, CompositeType, ContType, FieldType, FuncType, HeapType, StorageType, SubType,
    ValType,
};
use wasm_smith_validity::subtyping::{is_heap_below, is_ref_below};

// A part of a type that another such part can match.
trait Matches {
    // The type that stands for it in the specification.
    ghost Meaning: { Type 0 };

    ghost meaning: { Self → Meaning };

    // States that one matches another.
    ghost matching: { SubTypes ℕ → Meaning → Meaning → Type 0 };

    // Checks that this part matches another one.
    fn matches(&self, other: &Self, types: &[SubType]) -> bool
        requires { AreLinked (map sub_type types.now) }
        ensures { IsTrue result ↔ matching (seen types.now) (meaning self.now) (meaning other.now) };
}

// Checks that the first parts match the others, one by one, as far as the others go.
fn front_matches<T: Matches>(items: &[T], others: &[T], types: &[SubType]) -> bool
    requires { AreLinked (map sub_type types.now) }
    ensures { IsTrue result ↔ FrontPairwise (T.matching (seen types.now)) (map T.meaning items.now) (map T.meaning others.now) }
{
    if items.len() < others.len() {
        return false;
    }
    for index in 0..others.len() {
        if !items[index].matches(&others[index], types) {
            return false;
        }
    }
    true
}

// Checks that parts match others one by one, and are as many.
fn all_match<T: Matches>(items: &[T], others: &[T], types: &[SubType]) -> bool
    requires { AreLinked (map sub_type types.now) }
    ensures { IsTrue result ↔ Pairwise (T.matching (seen types.now)) (map T.meaning items.now) (map T.meaning others.now) }
{
    if items.len() != others.len() {
        return false;
    }
    front_matches(items, others, types)
}

impl Matches for ValType {
    ghost Meaning = { spec.ValType ℕ };

    ghost meaning = { val_type };

    ghost matching = { ValBelow };

    fn matches(&self, other: &ValType, types: &[SubType]) -> bool {
        match (self, other) {
            (ValType::Ref(low), ValType::Ref(high)) => is_ref_below(types, *low, *high),
            _ => self == other,
        }
    }
}

impl Matches for StorageType {
    ghost Meaning = { spec.StorageType ℕ };

    ghost meaning = { storage_type };

    ghost matching = { StorageBelow };

    fn matches(&self, other: &StorageType, types: &[SubType]) -> bool {
        match (self, other) {
            (StorageType::Val(low), StorageType::Val(high)) => low.matches(high, types),
            _ => self == other,
        }
    }
}

impl Matches for FieldType {
    ghost Meaning = { spec.FieldType ℕ };

    ghost meaning = { field_type };

    ghost matching = { FieldMatches };

    fn matches(&self, other: &FieldType, types: &[SubType]) -> bool {
        let low = &self.element_type;
        let high = &other.element_type;
        if self.mutable != other.mutable || !low.matches(high, types) {
            return false;
        }
        !self.mutable || high.matches(low, types)
    }
}

fn function_matches(low: &FuncType, high: &FuncType, types: &[SubType]) -> bool
    requires { AreLinked (map sub_type types.now) }
    ensures { IsTrue result ↔ FuncMatches (seen types.now) low.now high.now }
{
    all_match(high.params(), low.params(), types) && all_match(low.results(), high.results(), types)
}

fn continuation_matches(low: ContType, high: ContType, types: &[SubType]) -> bool
    requires { AreLinked (map sub_type types.now) }
    ensures { IsTrue result ↔ HeapBelow (seen types.now) (spec.Concrete low.0) (spec.Concrete high.0) }
{
    is_heap_below(types, HeapType::Concrete(low.0), HeapType::Concrete(high.0))
}

/// Checks that one composite type matches another, for types whose supertypes are of their own kinds and few.
pub fn composite_matches(low: &CompositeType, high: &CompositeType, types: &[SubType]) -> bool
    requires { AreLinked (map sub_type types.now) }
    ensures { IsTrue result ↔ CompositeMatches (seen types.now) (composite_type low.now) (composite_type high.now) }
{
    match (low, high) {
        (CompositeType::Func(low), CompositeType::Func(high)) => function_matches(low, high, types),
        (CompositeType::Struct(low), CompositeType::Struct(high)) => {
            front_matches(low.fields(), high.fields(), types)
        }
        (CompositeType::Array(ArrayType(low)), CompositeType::Array(ArrayType(high))) => {
            low.matches(high, types)
        }
        (CompositeType::Cont(low), CompositeType::Cont(high)) => {
            continuation_matches(*low, *high, types)
        }
        _ => false,
    }
}
