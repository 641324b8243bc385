//! The types of a listed module.

ghost use Rattle.std.specs.Prelude.{◌≡◌, ◌<◌, IfSome, nat_eq, option_map, slice_get};
ghost use Rattle.wasmparser_validation_rows.specs.Listed.{composite_of, heap_top, is_declared_below, is_heap_below, is_val_below, sub_of};
ghost use Rattle.wasmparser_types.specs.CompositeTypes.{composite_type};
ghost use Rattle.wasmparser_types.specs.HeapTypes.{heap_type};
ghost use Rattle.wasmparser_types.specs.Index.{packable};
ghost use Rattle.wasmparser_types.specs.SubTypes.{sub_type};
ghost use Rattle.wasmparser_types.specs.ValTypes.{val_type};
ghost use Rattle.wasmparser_types.specs.declared.val_type.ValType.TheVariants as code;

use crate::subtyping::{abstract_is_subtype, bottom_of, kind_of, number};
use wasmparser_type_relations::subtyping::abstract_top;
use wasmparser_types::composite_type::CompositeType;
use wasmparser_types::heap_type::HeapType;
use wasmparser_types::index::CoreTypeId;
use wasmparser_types::ref_type::RefType;
use wasmparser_types::sub_type::SubType;
use wasmparser_types::val_type::ValType;

/// Types by id, and the id of each type index.
#[derive(Drop)]
pub struct ListedTypes {
    /// The types of the first ids.
    pub known: Vec<SubType>,
    /// The type of any other id.
    pub other: SubType,
    /// The id of each type index.
    pub ids: Vec<u16>,
}

impl ListedTypes {
    /// Returns the type of an id.
    pub fn sub(&self, id: usize) -> &SubType
        ensures { sub_type result.now ≡ sub_of self.now id }
    {
        match self.known.get(id) {
            Some(it) => it,
            None => &self.other,
        }
    }

    fn composite(&self, id: usize) -> &CompositeType
        ensures { composite_type result.now ≡ composite_of self.now id }
    {
        &self.sub(id).composite_type
    }

    /// Returns the id of a type index. It can be packed.
    pub fn id_at(&self, type_index: u32) -> Option<CoreTypeId>
        ensures id { result ≡ slice_get self.now.ids.items type_index }
        ensures packs { IfSome result (λ id. id < packable) }
    {
        match self.ids.get(type_index as usize) {
            Some(id) => Some(CoreTypeId::from_index(u32::from(*id))),
            None => None,
        }
    }

    // Checks that these are one type, or the first is declared right below the second.
    fn is_declared_below(&self, a: usize, b: usize) -> bool
        ensures { result ≡ is_declared_below self.now a b }
    {
        if a == b {
            return true;
        }
        match self.sub(a).supertype_idxs.get(0) {
            Some(it) => number(it.unpack()) == b,
            None => false,
        }
    }

    fn is_heap_below(&self, a: HeapType, b: HeapType) -> bool
        ensures { result ≡ is_heap_below self.now (heap_type a) (heap_type b) }
    {
        match (a, b) {
            (HeapType::Abstract(a), HeapType::Abstract(b)) => abstract_is_subtype(a, b),
            (HeapType::Abstract(a), HeapType::Concrete(b)) => {
                abstract_is_subtype(a, bottom_of(self.composite(number(b))))
            }
            (HeapType::Concrete(a), HeapType::Abstract(b)) => {
                abstract_is_subtype(kind_of(self.composite(number(a))), b)
            }
            (HeapType::Concrete(a), HeapType::Concrete(b)) => {
                self.is_declared_below(number(a), number(b))
            }
        }
    }

    fn is_ref_below(&self, a: &RefType, b: &RefType) -> bool
        ensures { result ≡ is_val_below self.now (val_type (code.Ref a.now)) (val_type (code.Ref b.now)) }
    {
        if a.is_nullable() && !b.is_nullable() {
            return false;
        }
        self.is_heap_below(a.heap_type(), b.heap_type())
    }

    /// Checks that the first type is below the second.
    pub fn is_below(&self, a: &ValType, b: &ValType) -> bool
        ensures { result ≡ is_val_below self.now (val_type a.now) (val_type b.now) }
    {
        match (a, b) {
            (ValType::I32, ValType::I32) => true,
            (ValType::I64, ValType::I64) => true,
            (ValType::F32, ValType::F32) => true,
            (ValType::F64, ValType::F64) => true,
            (ValType::V128, ValType::V128) => true,
            (ValType::Ref(a), ValType::Ref(b)) => self.is_ref_below(a, b),
            _ => false,
        }
    }

    /// Returns the greatest type above a heap type.
    pub fn top(&self, heap: &HeapType) -> HeapType
        ensures { heap_type result ≡ heap_top self.now (heap_type heap.now) }
    {
        match heap {
            HeapType::Abstract(it) => HeapType::Abstract(abstract_top(*it)),
            HeapType::Concrete(it) => {
                HeapType::Abstract(abstract_top(kind_of(self.composite(number(*it)))))
            }
        }
    }
}
