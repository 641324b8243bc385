//! The start section (Core Specification, Binary Format, Modules, "Start Section").

ghost use Rattle.std.specs.Prelude.{◌≡◌, length};
ghost use Rattle.wasm_spec.specs.Shortest.{unsigned_encoding, framed_encoding};

use wasm_core_write::encode::{Encode, Section};
use wasm_core_write::encode_error::EncodeError;
use wasm_core_write::encoding::{encode_framed, framed_len};

/// The function that a module starts with.
///
/// ```
/// module.push(&StartSection { function_index: 0 })?;
/// ```
#[derive(Clone, Copy, Debug)]
pub struct StartSection {
    /// Its index.
    pub function_index: u32,
}

impl Encode for StartSection {
    ghost encoding = { λ s. framed_encoding (unsigned_encoding s.function_index) };

    ghost longest = { λ s. length (unsigned_encoding s.function_index) };

    fn encode(&self, sink: &mut Vec<u8>) -> Result<(), EncodeError> {
        encode_framed(&self.function_index, sink)
    }

    fn encoded_len(&self) -> Result<u64, EncodeError> {
        framed_len(&self.function_index)
    }
}

impl Section for StartSection {
    ghost number = { λ _. 8 };

    fn id(&self) -> u8 {
        8
    }
}
