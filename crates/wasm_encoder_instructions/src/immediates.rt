//! What stands after the codes of instructions, by its form.

use crate::block_type::BlockType;
use crate::ieee::{Ieee32, Ieee64};
use crate::mem_arg::MemArg;
use wasm_core_types::types::{HeapType, ValType};
use wasm_core_write::encode_error::EncodeError;
use wasm_core_write::encoding::{Encoding, add_sizes, bytes_size, list_size, put_bytes, put_list};
use wasm_core_write::leb128::{len_s64, put_s64};

/// Immediates of any instruction.
#[derive(Drop)]
pub(crate) enum Immediates<'a> {
    None,
    Index(u32),
    Indexes(u32, u32),
    Block(BlockType),
    Labels(&'a [u32], u32),
    ValueType(ValType),
    ValueTypes(&'a [ValType]),
    Memory(MemArg),
    Number(i64),
    Float(Ieee32),
    Double(Ieee64),
    Heap(HeapType),
    Vector([u8; 16]),
}

impl Encoding for Immediates<'_> {
    ghost use Rattle.wasm_encoder_instructions.specs.WrittenImmediates.{written_immediates};

    ghost encoding = { written_immediates };

    #[tactic(auto, using(crate::proofs::WrittenParts::parts), unfolding(crate::specs::WrittenImmediates::written_immediates))]
    fn size(&self) -> Result<u64, EncodeError> {
        match self {
            Immediates::None => Ok(0),
            Immediates::Index(index) => index.size(),
            Immediates::Indexes(first, second) => add_sizes(first.size()?, second.size()?),
            Immediates::Block(ty) => ty.size(),
            Immediates::Labels(labels, other) => add_sizes(list_size(labels)?, other.size()?),
            Immediates::ValueType(ty) => add_sizes(1, ty.size()?),
            Immediates::ValueTypes(types) => list_size(types),
            Immediates::Memory(argument) => argument.size(),
            Immediates::Number(value) => Ok(len_s64(*value) as u64),
            Immediates::Float(value) => value.size(),
            Immediates::Double(value) => value.size(),
            Immediates::Heap(heap) => heap.size(),
            Immediates::Vector(bytes) => bytes_size(bytes),
        }
    }

    #[tactic(auto, using(crate::proofs::WrittenParts::parts), unfolding(crate::specs::WrittenImmediates::written_immediates))]
    fn put(&self, sink: &mut Vec<u8>) {
        match self {
            Immediates::None => {}
            Immediates::Index(index) => index.put(sink),
            Immediates::Indexes(first, second) => {
                first.put(sink);
                second.put(sink);
            }
            Immediates::Block(ty) => ty.put(sink),
            Immediates::Labels(labels, other) => {
                put_list(labels, sink);
                other.put(sink);
            }
            Immediates::ValueType(ty) => {
                sink.push_reserved(1);
                ty.put(sink);
            }
            Immediates::ValueTypes(types) => put_list(types, sink),
            Immediates::Memory(argument) => argument.put(sink),
            Immediates::Number(value) => put_s64(sink, *value),
            Immediates::Float(value) => value.put(sink),
            Immediates::Double(value) => value.put(sink),
            Immediates::Heap(heap) => heap.put(sink),
            Immediates::Vector(bytes) => put_bytes(bytes, sink),
        }
    }
}
