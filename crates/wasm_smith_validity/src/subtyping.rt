//! Subtyping, a type being its index.

ghost use Rattle.std.specs.Prelude.{◌≡◌, ◌↔◌, IsTrue, map};
ghost use Rattle.wasm_core_types.specs.CoreTypes.{abstract_heap_type, heap_type};
ghost use Rattle.wasm_core_types.specs.SubTypes.{composite_type, sub_type};
ghost use Rattle.wasm_spec.specs.Subtyping.{Closure, Link, HeapBelow, RefBelow, abstract_of, bottom_of, is_abstract_below};
ghost use Rattle.wasm_smith_validity.specs.Below.{seen, ref_type};
ghost use Rattle.wasm_smith_validity.specs.Linked.{AreLinked};

use wasm_core_types::types::{AbstractHeapType, CompositeType, HeapType, RefType, SubType};

/// The most supertypes above a type, one above the other.
pub const MAX_HEIGHT: u32 = 63;

// Checks that one abstract heap type is below another.
fn is_abstract_below(a: AbstractHeapType, b: AbstractHeapType) -> bool
    ensures { result ≡ is_abstract_below (abstract_heap_type a) (abstract_heap_type b) }
{
    use AbstractHeapType::*;
    match a {
        None => matches!(b, None | I31 | Struct | Array | Eq | Any),
        I31 => matches!(b, I31 | Eq | Any),
        Struct => matches!(b, Struct | Eq | Any),
        Array => matches!(b, Array | Eq | Any),
        Eq => matches!(b, Eq | Any),
        Any => matches!(b, Any),
        NoFunc => matches!(b, NoFunc | Func),
        Func => matches!(b, Func),
        NoExtern => matches!(b, NoExtern | Extern),
        Extern => matches!(b, Extern),
        NoExn => matches!(b, NoExn | Exn),
        Exn => matches!(b, Exn),
        NoCont => matches!(b, NoCont | Cont),
        Cont => matches!(b, Cont),
    }
}

// Returns the abstract heap type right above all types of a kind.
fn kind_of(type_: &CompositeType) -> AbstractHeapType
    ensures { abstract_heap_type result ≡ abstract_of (composite_type type_.now) }
{
    match type_ {
        CompositeType::Func(_) => AbstractHeapType::Func,
        CompositeType::Struct(_) => AbstractHeapType::Struct,
        CompositeType::Array(_) => AbstractHeapType::Array,
        CompositeType::Cont(_) => AbstractHeapType::Cont,
    }
}

// Returns the abstract heap type below all types of a kind.
fn bottom_of(type_: &CompositeType) -> AbstractHeapType
    ensures { abstract_heap_type result ≡ bottom_of (composite_type type_.now) }
{
    match type_ {
        CompositeType::Func(_) => AbstractHeapType::NoFunc,
        CompositeType::Struct(_) | CompositeType::Array(_) => AbstractHeapType::None,
        CompositeType::Cont(_) => AbstractHeapType::NoCont,
    }
}

// Checks that a walk up from a type comes to another.
fn is_under(types: &[SubType], low: u32, high: u32) -> bool
    ensures { AreLinked (map sub_type types.now) → (IsTrue result ↔ Closure (Link (seen types.now)) low high) }
{
    let mut at = low;
    for _ in 0..MAX_HEIGHT + 1 {
        if at == high {
            return true;
        }
        match types.get(at as usize) {
            Some(type_) => match type_.supertype_idx {
                Some(supertype) => at = supertype,
                None => return false,
            },
            None => return false,
        }
    }
    false
}

/// Checks that one heap type is below another, for types with supertypes of their own kinds that aren't too deep.
pub fn is_heap_below(types: &[SubType], low: HeapType, high: HeapType) -> bool
    ensures { AreLinked (map sub_type types.now) → (IsTrue result ↔ HeapBelow (seen types.now) (heap_type low) (heap_type high)) }
{
    match low {
        HeapType::Abstract(a) => match high {
            HeapType::Abstract(b) => is_abstract_below(a, b),
            HeapType::Concrete(index) => match types.get(index as usize) {
                Some(type_) => is_abstract_below(a, bottom_of(&type_.composite_type)),
                None => false,
            },
        },
        HeapType::Concrete(index) => match high {
            HeapType::Abstract(b) => match types.get(index as usize) {
                Some(type_) => is_abstract_below(kind_of(&type_.composite_type), b),
                None => false,
            },
            HeapType::Concrete(above) => is_under(types, index, above),
        },
    }
}

/// Checks that one reference type is below another, for types with supertypes of their own kinds that aren't too deep.
pub fn is_ref_below(types: &[SubType], low: RefType, high: RefType) -> bool
    ensures { AreLinked (map sub_type types.now) → (IsTrue result ↔ RefBelow (seen types.now) (ref_type low) (ref_type high)) }
{
    (high.nullable || !low.nullable) && is_heap_below(types, low.heap_type, high.heap_type)
}
