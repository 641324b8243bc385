//! What blocks take and give.

use wasm_core_types::types::ValType;
use wasm_core_write::encode_error::EncodeError;
use wasm_core_write::encoding::Encoding;
use wasm_core_write::leb128::{len_s64, put_s64};

/// What a block takes and gives.
#[derive(Clone, Copy, Debug, PartialEq, Eq, Hash)]
pub enum BlockType {
    /// Nothing.
    Empty,
    /// It takes nothing and gives one value.
    Result(ValType),
    /// What the function type of this index says.
    FunctionType(u32),
}

const EMPTY: u8 = 0x40;

impl Encoding for BlockType {
    ghost use Rattle.wasm_encoder_instructions.specs.Immediates.{block_type_encoding};

    ghost encoding = { block_type_encoding };

    #[tactic(auto, unfolding(crate::specs::Immediates::block_type_encoding, crate::specs::OperatorEncodings::block_encoding, wasm_core_write::specs::CoreEncodings::val_type_encoding))]
    fn size(&self) -> Result<u64, EncodeError> {
        match self {
            BlockType::Empty => Ok(1),
            BlockType::Result(ty) => ty.size(),
            BlockType::FunctionType(index) => Ok(len_s64(i64::from(*index)) as u64),
        }
    }

    #[tactic(auto, unfolding(crate::specs::Immediates::block_type_encoding, crate::specs::OperatorEncodings::block_encoding, wasm_core_write::specs::CoreEncodings::val_type_encoding))]
    fn put(&self, sink: &mut Vec<u8>) {
        match self {
            BlockType::Empty => sink.push_reserved(EMPTY),
            BlockType::Result(ty) => ty.put(sink),
            BlockType::FunctionType(index) => put_s64(sink, i64::from(*index)),
        }
    }
}
