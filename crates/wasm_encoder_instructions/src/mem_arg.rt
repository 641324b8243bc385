//! Where in a memory a load or a store goes.

use wasm_core_write::encode_error::EncodeError;
use wasm_core_write::encoding::Encoding;
use wasm_core_write::leb128::{len_u64, put_u64};

/// Where in a memory a load or a store goes.
#[derive(Clone, Copy, Debug, PartialEq, Eq, Hash)]
pub struct MemArg {
    /// What is added to the address.
    pub offset: u64,
    /// Which power of two divides the address, it is said. What is written of one from 64 on reads as something else.
    pub align: u32,
    /// The memory.
    pub memory_index: u32,
}

// What is added to the exponent where a memory follows.
const HAS_MEMORY: u64 = 64;

impl MemArg {
    ghost use Rattle.std.specs.Prelude.{◌≡◌, ◌≤◌, ◌+◌, ◌++◌, length, vec_len, vec_capacity};
    ghost use Rattle.wasm_encoder_instructions.specs.OperatorEncodings.{alignment_encoding};

    // Returns the number of bytes of the exponent and the memory.
    #[tactic(auto, using(wasm_spec::proofs::ListEncodings::parts), unfolding(crate::specs::OperatorEncodings::alignment_encoding))]
    fn place_len(&self) -> usize
        ensures bytes { result ≡ length (alignment_encoding self.now.align self.now.memory_index) }
        ensures few { result ≤ 20 }
    {
        let align = u64::from(self.align);
        if self.memory_index == 0 {
            return len_u64(align);
        }
        len_u64(align + HAS_MEMORY) + len_u64(u64::from(self.memory_index))
    }

    // Writes the exponent and the memory, for which there is room.
    #[tactic(auto, using(wasm_spec::proofs::ListEncodings::parts), unfolding(crate::specs::OperatorEncodings::alignment_encoding))]
    fn put_place(&self, sink: &mut Vec<u8>)
        requires { vec_len sink.old + length (alignment_encoding self.now.align self.now.memory_index) ≤ vec_capacity sink.old }
        ensures written { sink.new.items ≡ sink.old.items ++ alignment_encoding self.now.align self.now.memory_index }
        ensures capacity { vec_capacity sink.old ≤ vec_capacity sink.new }
    {
        let align = u64::from(self.align);
        if self.memory_index == 0 {
            return put_u64(sink, align);
        }
        put_u64(sink, align + HAS_MEMORY);
        put_u64(sink, u64::from(self.memory_index));
    }
}

impl Encoding for MemArg {
    ghost use Rattle.wasm_encoder_instructions.specs.Immediates.{mem_arg_encoding};

    ghost encoding = { mem_arg_encoding };

    #[tactic(auto, using(wasm_spec::proofs::ListEncodings::parts), unfolding(crate::specs::Immediates::mem_arg_encoding, crate::specs::OperatorEncodings::memory_argument_encoding))]
    fn size(&self) -> Result<u64, EncodeError> {
        Ok((self.place_len() + len_u64(self.offset)) as u64)
    }

    #[tactic(auto, using(wasm_spec::proofs::ListEncodings::parts), unfolding(crate::specs::Immediates::mem_arg_encoding, crate::specs::OperatorEncodings::memory_argument_encoding))]
    fn put(&self, sink: &mut Vec<u8>) {
        self.put_place(sink);
        put_u64(sink, self.offset);
    }
}
