//! What instructions begin with.

use wasm_core_write::encode_error::EncodeError;
use wasm_core_write::encoding::Encoding;
use wasm_core_write::leb128::{len_u64, put_u64};

/// A byte, or a byte that is a prefix and a second code.
#[derive(Clone, Copy, Debug)]
pub(crate) enum Code {
    Byte(u8),
    Prefixed(u8, u32),
}

impl Encoding for Code {
    ghost use Rattle.wasm_encoder_instructions.specs.Codes.{written_code};

    ghost encoding = { written_code };

    #[tactic(auto, using(wasm_spec::proofs::UnsignedEncodings::at_most_five), unfolding(crate::specs::Codes::written_code, crate::specs::OperatorEncodings::code_encoding))]
    fn size(&self) -> Result<u64, EncodeError> {
        match self {
            Code::Byte(_) => Ok(1),
            Code::Prefixed(_, second) => Ok(1 + len_u64(u64::from(*second)) as u64),
        }
    }

    #[tactic(auto, using(wasm_spec::proofs::ListEncodings::parts), unfolding(crate::specs::Codes::written_code, crate::specs::OperatorEncodings::code_encoding))]
    fn put(&self, sink: &mut Vec<u8>) {
        match self {
            Code::Byte(byte) => sink.push_reserved(*byte),
            Code::Prefixed(prefix, second) => {
                sink.push_reserved(*prefix);
                put_u64(sink, u64::from(*second));
            }
        }
    }
}
