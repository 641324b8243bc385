//! Subtyping of abstract heap types.

ghost use Rattle.std.specs.Prelude.{◌≡◌};
ghost use Rattle.wasm_spec.specs.Subtyping.{abstract_of, bottom_of, is_abstract_below};
ghost use Rattle.wasmparser_types.specs.CompositeTypes.{composite_type};
ghost use Rattle.wasmparser_types.specs.HeapTypes.{abstract_heap_type};
ghost use Rattle.wasmparser_types.specs.Index.{number_of};
ghost use Rattle.wasmparser_types.specs.UnpackedIndex.{index};

use wasmparser_types::composite_type::CompositeType;
use wasmparser_types::heap_type::AbstractHeapType;
use wasmparser_types::index::UnpackedIndex;

/// Returns the number of a type, whatever kind of index it is named by.
pub(crate) fn number(it: UnpackedIndex) -> usize
    ensures { result ≡ number_of (index it) }
{
    match it {
        UnpackedIndex::Module(number) => number as usize,
        UnpackedIndex::RecGroup(number) => number as usize,
        UnpackedIndex::Id(id) => id.index(),
    }
}

/// Returns the abstract type right above all types of a kind.
pub(crate) fn kind_of(it: &CompositeType) -> AbstractHeapType
    ensures { abstract_heap_type result ≡ abstract_of (composite_type it.now) }
{
    match it {
        CompositeType::Func(_) => AbstractHeapType::Func,
        CompositeType::Struct(_) => AbstractHeapType::Struct,
        CompositeType::Array(_) => AbstractHeapType::Array,
        CompositeType::Cont(_) => AbstractHeapType::Cont,
    }
}

/// Returns the abstract type below all types of a kind.
pub(crate) fn bottom_of(it: &CompositeType) -> AbstractHeapType
    ensures { abstract_heap_type result ≡ bottom_of (composite_type it.now) }
{
    match it {
        CompositeType::Func(_) => AbstractHeapType::NoFunc,
        CompositeType::Struct(_) | CompositeType::Array(_) => AbstractHeapType::None,
        CompositeType::Cont(_) => AbstractHeapType::NoCont,
    }
}

/// Checks that one abstract heap type is below another.
pub(crate) fn abstract_is_subtype(a: AbstractHeapType, b: AbstractHeapType) -> bool
    ensures { result ≡ is_abstract_below (abstract_heap_type a) (abstract_heap_type b) }
{
    match a {
        AbstractHeapType::None => match b {
            AbstractHeapType::None
            | AbstractHeapType::I31
            | AbstractHeapType::Struct
            | AbstractHeapType::Array
            | AbstractHeapType::Eq
            | AbstractHeapType::Any => true,
            _ => false,
        },
        AbstractHeapType::I31 => match b {
            AbstractHeapType::I31 | AbstractHeapType::Eq | AbstractHeapType::Any => true,
            _ => false,
        },
        AbstractHeapType::Struct => match b {
            AbstractHeapType::Struct | AbstractHeapType::Eq | AbstractHeapType::Any => true,
            _ => false,
        },
        AbstractHeapType::Array => match b {
            AbstractHeapType::Array | AbstractHeapType::Eq | AbstractHeapType::Any => true,
            _ => false,
        },
        AbstractHeapType::Eq => match b {
            AbstractHeapType::Eq | AbstractHeapType::Any => true,
            _ => false,
        },
        AbstractHeapType::NoFunc => match b {
            AbstractHeapType::NoFunc | AbstractHeapType::Func => true,
            _ => false,
        },
        AbstractHeapType::NoExtern => match b {
            AbstractHeapType::NoExtern | AbstractHeapType::Extern => true,
            _ => false,
        },
        AbstractHeapType::NoExn => match b {
            AbstractHeapType::NoExn | AbstractHeapType::Exn => true,
            _ => false,
        },
        AbstractHeapType::NoCont => match b {
            AbstractHeapType::NoCont | AbstractHeapType::Cont => true,
            _ => false,
        },
        _ => a == b,
    }
}
