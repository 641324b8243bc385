//! Types of a valid module, as the module writes them.

ghost use Rattle.std.specs.Prelude.{◌≡◌};
ghost use Rattle.wasm_core_types.specs.CoreTypes as written;
ghost use Rattle.wasm_spec.specs.TypeReferences.{ref_map, val_map};
ghost use Rattle.wasmparser_types.specs.HeapTypes.{abstract_heap_type};
ghost use Rattle.wasmparser_types.specs.Index.{number_of};
ghost use Rattle.wasmparser_types.specs.ValTypes as known_values;

use wasm_core_types::types;
use wasmparser_types::heap_type::{AbstractHeapType, HeapType};
use wasmparser_types::index::{PackedIndex, UnpackedIndex};
use wasmparser_types::ref_type::RefType;
use wasmparser_types::val_type::ValType;

/// Returns a heap type that has a name.
pub(crate) fn written_heap_type(ty: AbstractHeapType) -> types::AbstractHeapType
    ensures { written.abstract_heap_type result ≡ abstract_heap_type ty }
{
    match ty {
        AbstractHeapType::Func => types::AbstractHeapType::Func,
        AbstractHeapType::Extern => types::AbstractHeapType::Extern,
        AbstractHeapType::Any => types::AbstractHeapType::Any,
        AbstractHeapType::None => types::AbstractHeapType::None,
        AbstractHeapType::NoExtern => types::AbstractHeapType::NoExtern,
        AbstractHeapType::NoFunc => types::AbstractHeapType::NoFunc,
        AbstractHeapType::Eq => types::AbstractHeapType::Eq,
        AbstractHeapType::Struct => types::AbstractHeapType::Struct,
        AbstractHeapType::Array => types::AbstractHeapType::Array,
        AbstractHeapType::I31 => types::AbstractHeapType::I31,
        AbstractHeapType::Exn => types::AbstractHeapType::Exn,
        AbstractHeapType::NoExn => types::AbstractHeapType::NoExn,
        AbstractHeapType::Cont => types::AbstractHeapType::Cont,
        AbstractHeapType::NoCont => types::AbstractHeapType::NoCont,
    }
}

// Returns the number of an index.
fn type_index(index: PackedIndex) -> u32
    ensures { result ≡ number_of index }
{
    // (whose clauses say that the number is small)
    let _ = index.bits();
    match index.unpack() {
        UnpackedIndex::Module(number) | UnpackedIndex::RecGroup(number) => number,
        UnpackedIndex::Id(id) => id.index() as u32,
    }
}

/// Returns a reference type over type indexes.
pub(crate) fn written_ref_type(ty: RefType) -> types::RefType
    ensures { record { nullable = result.nullable; heap_type = written.heap_type result.heap_type } ≡ ref_map number_of ty }
{
    let nullable = ty.is_nullable();
    let heap_type = match ty.type_index() {
        Some(index) => types::HeapType::Concrete(type_index(index)),
        None => match ty.heap_type() {
            HeapType::Abstract(ty) => types::HeapType::Abstract(written_heap_type(ty)),
            HeapType::Concrete(_) => unreachable!(),
        },
    };
    types::RefType {
        nullable,
        heap_type,
    }
}

/// Returns a value type over type indexes.
pub(crate) fn written_val_type(ty: &ValType) -> types::ValType
    ensures { written.val_type result ≡ val_map number_of (known_values.val_type ty.now) }
{
    match ty {
        ValType::I32 => types::ValType::I32,
        ValType::I64 => types::ValType::I64,
        ValType::F32 => types::ValType::F32,
        ValType::F64 => types::ValType::F64,
        ValType::V128 => types::ValType::V128,
        ValType::Ref(ty) => types::ValType::Ref(written_ref_type(*ty)),
    }
}
