//! The greatest types above others.

ghost use Rattle.std.specs.Prelude.{◌≡◌};
ghost use Rattle.wasm_spec.specs.Subtyping.{abstract_of};
ghost use Rattle.wasmparser_type_relations.specs.Tops.{top_of};
ghost use Rattle.wasmparser_types.specs.CompositeTypes.{composite_type};
ghost use Rattle.wasmparser_types.specs.HeapTypes.{abstract_heap_type};

use wasmparser_types::composite_type::CompositeType;
use wasmparser_types::heap_type::AbstractHeapType;

// Returns the greatest type above all types of a kind.
pub(crate) fn composite_top(it: &CompositeType) -> AbstractHeapType
    ensures { abstract_heap_type result ≡ top_of (abstract_of (composite_type it.now)) }
{
    match it {
        CompositeType::Func(_) => AbstractHeapType::Func,
        CompositeType::Struct(_) | CompositeType::Array(_) => AbstractHeapType::Any,
        CompositeType::Cont(_) => AbstractHeapType::Cont,
    }
}
