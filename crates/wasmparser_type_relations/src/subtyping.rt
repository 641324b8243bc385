//! Subtyping (Core Specification 3.0, Validation, "Matching").

ghost use Rattle.std.specs.Prelude.{◌≡◌, ◌↔◌, IsTrue, option_map, true};
ghost use Rattle.wasm_spec.specs.Subtyping.{HeapBelow, HeapTest, RefBelow, ValBelow, abstract_of, bottom_of, is_abstract_below};
ghost use Rattle.wasm_spec.specs.Types as spec;
ghost use Rattle.wasmparser_type_relations.specs.Tops.{IsTop, top_above, top_of};
ghost use Rattle.wasmparser_types.specs.CompositeTypes.{composite_type};
ghost use Rattle.wasmparser_types.specs.HeapTypes.{abstract_heap_type, heap_type};
ghost use Rattle.wasmparser_types.specs.Index.{Index};
ghost use Rattle.wasmparser_types.specs.UnpackedIndex.{index};
ghost use Rattle.wasmparser_types.specs.ValTypes.{val_type};

use crate::known_types::KnownTypes;
use wasmparser_types::composite_type::CompositeType;
use wasmparser_types::heap_type::{AbstractHeapType, HeapType};
use wasmparser_types::index::UnpackedIndex;
use wasmparser_types::ref_type::RefType;
use wasmparser_types::val_type::ValType;

// Returns the abstract type right above all types of a kind.
fn kind_of(it: &CompositeType) -> AbstractHeapType
    ensures { abstract_heap_type result ≡ abstract_of (composite_type it.now) }
{
    match it {
        CompositeType::Func(_) => AbstractHeapType::Func,
        CompositeType::Struct(_) => AbstractHeapType::Struct,
        CompositeType::Array(_) => AbstractHeapType::Array,
        CompositeType::Cont(_) => AbstractHeapType::Cont,
    }
}

// Returns the abstract type below all types of a kind.
fn bottom_of(it: &CompositeType) -> AbstractHeapType
    ensures { abstract_heap_type result ≡ bottom_of (composite_type it.now) }
{
    match it {
        CompositeType::Func(_) => AbstractHeapType::NoFunc,
        CompositeType::Struct(_) | CompositeType::Array(_) => AbstractHeapType::None,
        CompositeType::Cont(_) => AbstractHeapType::NoCont,
    }
}

// Checks that one abstract heap type is below another.
fn abstract_is_subtype(a: AbstractHeapType, b: AbstractHeapType) -> bool
    ensures { result ≡ is_abstract_below (abstract_heap_type a) (abstract_heap_type b) }
{
    match a {
        AbstractHeapType::None => match b {
            AbstractHeapType::None
            | AbstractHeapType::I31
            | AbstractHeapType::Struct
            | AbstractHeapType::Array
            | AbstractHeapType::Eq
            | AbstractHeapType::Any => true,
            _ => false,
        },
        AbstractHeapType::I31 => match b {
            AbstractHeapType::I31 | AbstractHeapType::Eq | AbstractHeapType::Any => true,
            _ => false,
        },
        AbstractHeapType::Struct => match b {
            AbstractHeapType::Struct | AbstractHeapType::Eq | AbstractHeapType::Any => true,
            _ => false,
        },
        AbstractHeapType::Array => match b {
            AbstractHeapType::Array | AbstractHeapType::Eq | AbstractHeapType::Any => true,
            _ => false,
        },
        AbstractHeapType::Eq => match b {
            AbstractHeapType::Eq | AbstractHeapType::Any => true,
            _ => false,
        },
        AbstractHeapType::NoFunc => match b {
            AbstractHeapType::NoFunc | AbstractHeapType::Func => true,
            _ => false,
        },
        AbstractHeapType::NoExtern => match b {
            AbstractHeapType::NoExtern | AbstractHeapType::Extern => true,
            _ => false,
        },
        AbstractHeapType::NoExn => match b {
            AbstractHeapType::NoExn | AbstractHeapType::Exn => true,
            _ => false,
        },
        AbstractHeapType::NoCont => match b {
            AbstractHeapType::NoCont | AbstractHeapType::Cont => true,
            _ => false,
        },
        _ => a == b,
    }
}

// Checks that one heap type is below another, by the kinds of defined types and the links between them.
fn heap_test<L: KnownTypes>(types: &L, a: HeapType, b: HeapType) -> bool
    requires { L.can_ask types.now }
    ensures { IsTrue result ↔ HeapTest (L.sub_at types.now) (heap_type a) (heap_type b) }
{
    match (a, b) {
        (HeapType::Abstract(a), HeapType::Abstract(b)) => abstract_is_subtype(a, b),
        (HeapType::Abstract(a), HeapType::Concrete(b)) => match types.composite_type(b) {
            Some(it) => a == bottom_of(it),
            None => false,
        },
        (HeapType::Concrete(a), HeapType::Abstract(b)) => match types.composite_type(a) {
            Some(it) => abstract_is_subtype(kind_of(it), b),
            None => false,
        },
        (HeapType::Concrete(a), HeapType::Concrete(b)) => types.index_is_subtype(a, b),
    }
}

/// Checks that one heap type is below another.
pub fn heap_is_subtype<L: KnownTypes>(types: &L, a: HeapType, b: HeapType) -> bool
    requires { L.can_ask types.now }
    ensures { IsTrue result ↔ HeapBelow (L.sub_at types.now) (heap_type a) (heap_type b) }
{
    heap_test(types, a, b)
}

// Checks that null is allowed above where it is allowed below.
pub(crate) fn null_is_allowed(below: bool, above: bool) -> bool
    ensures { IsTrue result ↔ (below ≡ true → above ≡ true) }
{
    above || !below
}

/// Checks that one reference type is below another.
pub fn ref_is_subtype<L: KnownTypes>(types: &L, a: RefType, b: RefType) -> bool
    requires { L.can_ask types.now }
    ensures { IsTrue result ↔ RefBelow (L.sub_at types.now) a b }
{
    if !null_is_allowed(a.is_nullable(), b.is_nullable()) {
        return false;
    }
    heap_is_subtype(types, a.heap_type(), b.heap_type())
}

/// Checks that one value type is below another.
pub fn val_is_subtype<L: KnownTypes>(types: &L, a: ValType, b: ValType) -> bool
    requires { L.can_ask types.now }
    ensures { IsTrue result ↔ ValBelow (L.sub_at types.now) (val_type a) (val_type b) }
{
    match (&a, &b) {
        (ValType::Ref(a), ValType::Ref(b)) => ref_is_subtype(types, *a, *b),
        _ => a == b,
    }
}

/// Returns the greatest type above an abstract one.
pub fn abstract_top(it: AbstractHeapType) -> AbstractHeapType
    ensures { abstract_heap_type result ≡ top_of (abstract_heap_type it) }
{
    match it {
        AbstractHeapType::Func | AbstractHeapType::NoFunc => AbstractHeapType::Func,
        AbstractHeapType::Extern | AbstractHeapType::NoExtern => AbstractHeapType::Extern,
        AbstractHeapType::Exn | AbstractHeapType::NoExn => AbstractHeapType::Exn,
        AbstractHeapType::Cont | AbstractHeapType::NoCont => AbstractHeapType::Cont,
        AbstractHeapType::Any
        | AbstractHeapType::Eq
        | AbstractHeapType::I31
        | AbstractHeapType::Struct
        | AbstractHeapType::Array
        | AbstractHeapType::None => AbstractHeapType::Any,
    }
}

// Returns the abstract type right above what an index stands for.
fn kind_at<L: KnownTypes>(types: &L, it: UnpackedIndex) -> Option<AbstractHeapType>
    ensures { option_map abstract_heap_type result ≡ option_map (λ (type : spec.SubType Index). abstract_of type.composite_type) (L.sub_at types.now (index it)) }
{
    match types.composite_type(it) {
        Some(composite) => Some(kind_of(composite)),
        None => None,
    }
}

// Returns the abstract type above all that are above a heap type, if there is one.
fn top_of<L: KnownTypes>(types: &L, it: &HeapType) -> Option<AbstractHeapType>
    ensures { option_map abstract_heap_type result ≡ top_above (L.sub_at types.now) (heap_type it.now) }
{
    match it {
        HeapType::Abstract(it) => Some(abstract_top(*it)),
        HeapType::Concrete(index) => match kind_at(types, *index) {
            Some(kind) => Some(abstract_top(kind)),
            None => None,
        },
    }
}

/// Returns the greatest type above a heap type: the type itself, where an index stands for no type.
pub fn top_type<L: KnownTypes>(types: &L, it: &HeapType) -> HeapType
    ensures { IsTop (L.sub_at types.now) (heap_type it.now) (heap_type result) }
{
    match top_of(types, it) {
        Some(top) => HeapType::Abstract(top),
        None => *it,
    }
}
