//! The encodings of types (Core Specification, Binary Format, "Types").

ghost use Rattle.std.specs.Prelude.{◌≡◌, ◌++◌, ◌≤◌, ◌+◌, ◌∷◌, [], length, vec_len, vec_capacity};
ghost use Rattle.wasm_core_write.specs.CoreEncodings.{heap_type_encoding, ref_type_encoding, number_code, val_type_encoding, storage_type_encoding, field_type_encoding, composite_type_encoding, sub_type_encoding};
ghost use Rattle.wasm_core_types.specs.CoreTypes.{abstract_heap_type};
ghost use Rattle.wasm_spec.specs.Shortest.{list_encoding};
ghost use Rattle.wasm_spec.specs.TypeGrammar.{heap_code};
ghost use Rattle.wasm_spec.specs.TypeEncodings.{field_encoding, func_encoding};

use crate::encode_error::EncodeError;
use crate::encoding::{Encoding, add_sizes, list_size, put_list};
use crate::leb128::{len_s64, len_u64, put_s64, put_u64};
use wasm_core_types::types::{
    AbstractHeapType, CompositeType, FieldType, FuncType, HeapType, RefType, StorageType,
    StructType, SubType, ValType,
};

const NULLABLE: u8 = 0x63;

const NOT_NULLABLE: u8 = 0x64;

const FUNC: u8 = 0x60;

const STRUCT: u8 = 0x5f;

const ARRAY: u8 = 0x5e;

const CONT: u8 = 0x5d;

const OPEN: u8 = 0x50;

const FINAL: u8 = 0x4f;

/// Returns the byte of an abstract heap type. Alone it is the nullable reference to that type.
pub fn heap_code_of(heap: AbstractHeapType) -> u8
    ensures { result ≡ heap_code (abstract_heap_type heap) }
{
    match heap {
        AbstractHeapType::NoCont => 0x75,
        AbstractHeapType::NoExn => 0x74,
        AbstractHeapType::NoFunc => 0x73,
        AbstractHeapType::NoExtern => 0x72,
        AbstractHeapType::None => 0x71,
        AbstractHeapType::Func => 0x70,
        AbstractHeapType::Extern => 0x6f,
        AbstractHeapType::Any => 0x6e,
        AbstractHeapType::Eq => 0x6d,
        AbstractHeapType::I31 => 0x6c,
        AbstractHeapType::Struct => 0x6b,
        AbstractHeapType::Array => 0x6a,
        AbstractHeapType::Exn => 0x69,
        AbstractHeapType::Cont => 0x68,
    }
}

impl Encoding for HeapType {
    ghost encoding = { heap_type_encoding };

    #[tactic(auto, unfolding(crate::specs::CoreEncodings::heap_type_encoding, wasm_spec::specs::TypeEncodings::heap_encoding))]
    fn size(&self) -> Result<u64, EncodeError> {
        match self {
            HeapType::Abstract(_) => Ok(1),
            HeapType::Concrete(index) => Ok(len_s64(i64::from(*index)) as u64),
        }
    }

    #[tactic(auto, unfolding(crate::specs::CoreEncodings::heap_type_encoding, wasm_spec::specs::TypeEncodings::heap_encoding))]
    fn put(&self, sink: &mut Vec<u8>) {
        match self {
            HeapType::Abstract(heap) => sink.push_reserved(heap_code_of(*heap)),
            HeapType::Concrete(index) => put_s64(sink, i64::from(*index)),
        }
    }
}

impl Encoding for RefType {
    ghost encoding = { ref_type_encoding };

    #[tactic(auto, unfolding(crate::specs::CoreEncodings::ref_type_encoding, crate::specs::CoreEncodings::heap_type_encoding, wasm_spec::specs::TypeEncodings::ref_encoding))]
    fn size(&self) -> Result<u64, EncodeError> {
        let heap = self.heap_type.size()?;
        match self.heap_type {
            HeapType::Abstract(_) if self.nullable => Ok(heap),
            _ => add_sizes(1, heap),
        }
    }

    #[tactic(auto, using(wasm_spec::proofs::ListEncodings::parts), unfolding(crate::specs::CoreEncodings::ref_type_encoding, crate::specs::CoreEncodings::heap_type_encoding, wasm_spec::specs::TypeEncodings::ref_encoding))]
    fn put(&self, sink: &mut Vec<u8>) {
        if !self.nullable {
            sink.push_reserved(NOT_NULLABLE);
        } else if let HeapType::Concrete(_) = self.heap_type {
            sink.push_reserved(NULLABLE);
        }
        self.heap_type.put(sink);
    }
}

// Returns the byte of a number or vector type. A call, since it is a look-up then: inlined, it becomes a jump for each type of a
// list, which is half as fast.
#[inline(never)]
fn number_code(value: ValType) -> u8
    ensures { result ≡ number_code value }
{
    match value {
        ValType::I32 => 0x7f,
        ValType::I64 => 0x7e,
        ValType::F32 => 0x7d,
        ValType::F64 => 0x7c,
        ValType::V128 => 0x7b,
        ValType::Ref(_) => NULLABLE,
    }
}

impl Encoding for ValType {
    ghost encoding = { val_type_encoding };

    #[inline(always)]
    #[tactic(auto, unfolding(crate::specs::CoreEncodings::val_type_encoding, crate::specs::CoreEncodings::ref_type_encoding, wasm_spec::specs::TypeEncodings::val_encoding))]
    fn size(&self) -> Result<u64, EncodeError> {
        match self {
            ValType::Ref(reference) => reference.size(),
            _ => Ok(1),
        }
    }

    #[inline(always)]
    #[tactic(auto, unfolding(crate::specs::CoreEncodings::val_type_encoding, crate::specs::CoreEncodings::ref_type_encoding, wasm_spec::specs::TypeEncodings::val_encoding))]
    fn put(&self, sink: &mut Vec<u8>) {
        if let ValType::Ref(reference) = self {
            reference.put(sink);
        } else {
            sink.push_reserved(number_code(*self));
        }
    }
}

impl Encoding for StorageType {
    ghost encoding = { storage_type_encoding };

    #[tactic(auto, unfolding(crate::specs::CoreEncodings::storage_type_encoding, crate::specs::CoreEncodings::val_type_encoding, wasm_spec::specs::TypeEncodings::storage_encoding))]
    fn size(&self) -> Result<u64, EncodeError> {
        match self {
            StorageType::I8 | StorageType::I16 => Ok(1),
            StorageType::Val(value) => value.size(),
        }
    }

    #[tactic(auto, unfolding(crate::specs::CoreEncodings::storage_type_encoding, crate::specs::CoreEncodings::val_type_encoding, wasm_spec::specs::TypeEncodings::storage_encoding))]
    fn put(&self, sink: &mut Vec<u8>) {
        match self {
            StorageType::I8 => sink.push_reserved(0x78),
            StorageType::I16 => sink.push_reserved(0x77),
            StorageType::Val(value) => value.put(sink),
        }
    }
}

impl Encoding for FieldType {
    ghost encoding = { field_type_encoding };

    #[tactic(auto, using(wasm_spec::proofs::ListEncodings::parts), unfolding(crate::specs::CoreEncodings::field_type_encoding, crate::specs::CoreEncodings::storage_type_encoding, wasm_spec::specs::TypeEncodings::field_encoding))]
    fn size(&self) -> Result<u64, EncodeError> {
        add_sizes(self.element_type.size()?, 1)
    }

    #[tactic(auto, using(wasm_spec::proofs::ListEncodings::parts), unfolding(crate::specs::CoreEncodings::field_type_encoding, crate::specs::CoreEncodings::storage_type_encoding, wasm_spec::specs::TypeEncodings::field_encoding))]
    fn put(&self, sink: &mut Vec<u8>) {
        self.element_type.put(sink);
        sink.push_reserved(if self.mutable { 1 } else { 0 });
    }
}

impl Encoding for FuncType {
    ghost encoding = { func_encoding };

    #[tactic(auto, using(crate::proofs::TypeLists::steps), unfolding(wasm_spec::specs::TypeEncodings::func_encoding))]
    fn size(&self) -> Result<u64, EncodeError> {
        let both = add_sizes(list_size(self.params())?, list_size(self.results())?)?;
        add_sizes(1, both)
    }

    #[tactic(auto, using(crate::proofs::TypeLists::steps), unfolding(wasm_spec::specs::TypeEncodings::func_encoding))]
    fn put(&self, sink: &mut Vec<u8>) {
        sink.push_reserved(FUNC);
        put_list(self.params(), sink);
        put_list(self.results(), sink);
    }
}

impl Encoding for StructType {
    ghost encoding = { list_encoding field_encoding };

    #[tactic(auto, using(crate::proofs::TypeLists::steps))]
    fn size(&self) -> Result<u64, EncodeError> {
        list_size(self.fields())
    }

    #[tactic(auto, using(crate::proofs::TypeLists::steps))]
    fn put(&self, sink: &mut Vec<u8>) {
        put_list(self.fields(), sink);
    }
}

impl Encoding for CompositeType {
    ghost encoding = { composite_type_encoding };

    #[tactic(auto, unfolding(crate::specs::CoreEncodings::composite_type_encoding, crate::specs::CoreEncodings::field_type_encoding, wasm_spec::specs::TypeEncodings::composite_encoding))]
    fn size(&self) -> Result<u64, EncodeError> {
        match self {
            CompositeType::Func(func) => func.size(),
            CompositeType::Array(array) => add_sizes(1, array.0.size()?),
            CompositeType::Struct(fields) => add_sizes(1, fields.size()?),
            CompositeType::Cont(cont) => Ok(1 + len_s64(i64::from(cont.0)) as u64),
        }
    }

    #[tactic(auto, using(wasm_spec::proofs::ListEncodings::parts), unfolding(crate::specs::CoreEncodings::composite_type_encoding, crate::specs::CoreEncodings::field_type_encoding, wasm_spec::specs::TypeEncodings::composite_encoding))]
    fn put(&self, sink: &mut Vec<u8>) {
        match self {
            CompositeType::Func(func) => func.put(sink),
            CompositeType::Array(array) => {
                sink.push_reserved(ARRAY);
                array.0.put(sink);
            }
            CompositeType::Struct(fields) => {
                sink.push_reserved(STRUCT);
                fields.put(sink);
            }
            CompositeType::Cont(cont) => {
                sink.push_reserved(CONT);
                put_s64(sink, i64::from(cont.0));
            }
        }
    }
}

impl Encoding for SubType {
    ghost encoding = { sub_type_encoding };

    #[tactic(auto, using(crate::proofs::TypeLists::steps), unfolding(crate::specs::CoreEncodings::sub_type_encoding, crate::specs::CoreEncodings::composite_type_encoding, wasm_spec::specs::TypeEncodings::sub_encoding_of))]
    fn size(&self) -> Result<u64, EncodeError> {
        let composite = self.composite_type.size()?;
        match self.supertype_idx {
            None if self.is_final => Ok(composite),
            None => add_sizes(2, composite),
            Some(index) => add_sizes(2 + len_u64(u64::from(index)) as u64, composite),
        }
    }

    #[tactic(auto, using(crate::proofs::TypeLists::steps), unfolding(crate::specs::CoreEncodings::sub_type_encoding, crate::specs::CoreEncodings::composite_type_encoding, wasm_spec::specs::TypeEncodings::sub_encoding_of))]
    fn put(&self, sink: &mut Vec<u8>) {
        match self.supertype_idx {
            None if self.is_final => {}
            None => {
                sink.push_reserved(OPEN);
                sink.push_reserved(0);
            }
            Some(index) => {
                sink.push_reserved(if self.is_final { FINAL } else { OPEN });
                sink.push_reserved(1);
                put_u64(sink, u64::from(index));
            }
        }
        self.composite_type.put(sink);
    }
}
