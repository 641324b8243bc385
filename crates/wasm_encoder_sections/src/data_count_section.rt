//! The data count section (Core Specification, Binary Format, Modules, "Data Count Section").

ghost use Rattle.std.specs.Prelude.{◌≡◌, length};
ghost use Rattle.wasm_spec.specs.Shortest.{unsigned_encoding, framed_encoding};

use wasm_core_write::encode::{Encode, Section};
use wasm_core_write::encode_error::EncodeError;
use wasm_core_write::encoding::{encode_framed, framed_len};

/// The number of data segments, which is said before the bodies.
///
/// ```
/// module.push(&DataCountSection { count: 1 })?;
/// ```
#[derive(Clone, Copy, Debug)]
pub struct DataCountSection {
    /// How many there are.
    pub count: u32,
}

impl Encode for DataCountSection {
    ghost encoding = { λ s. framed_encoding (unsigned_encoding s.count) };

    ghost longest = { λ s. length (unsigned_encoding s.count) };

    fn encode(&self, sink: &mut Vec<u8>) -> Result<(), EncodeError> {
        encode_framed(&self.count, sink)
    }

    fn encoded_len(&self) -> Result<u64, EncodeError> {
        framed_len(&self.count)
    }
}

impl Section for DataCountSection {
    ghost number = { λ _. 12 };

    fn id(&self) -> u8 {
        12
    }
}
