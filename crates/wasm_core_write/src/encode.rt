//! What can be written into a module.

ghost use Rattle.std.specs.Prelude.{◌≡◌, ◌<◌, ◌^◌, ℕ, List, length, IfOk};
ghost use Rattle.wasm_core_write.specs.Encoding.{Measures, Encodes};

use crate::encode_error::EncodeError;

/// A value that is written by its value alone.
pub trait Encode {
    ghost encoding: { Self → List ℕ };

    // The longest of the counts, runs and lengths in the encoding.
    ghost longest: { Self → ℕ };

    /// Appends the encoding. A refusal leaves the sink as it was.
    ///
    /// # Errors
    /// `TooLong` where a count, a run or a length is past 4,294,967,295, and else `Memory` where the sink cannot grow.
    fn encode(&self, sink: &mut Vec<u8>) -> Result<(), EncodeError>
        ensures { Encodes sink.old sink.new result (encoding self.now) (longest self.now) };

    /// Returns the number of bytes that [`Encode::encode`] appends: an encoding is a frame at most, so below 2^33. It takes no memory.
    ///
    /// # Errors
    /// `TooLong` exactly where `encode` answers it.
    fn encoded_len(&self) -> Result<u64, EncodeError>
        ensures exact { Measures result (length (encoding self.now)) (longest self.now) }
        ensures below { IfOk result (λ n. n < 2 ^ 33) };
}

/// A section of a module: its id, and its content after its size (Core Specification, Binary Format, Modules,
/// "Sections"). [`Encode::encode`] appends what stands after the id.
pub trait Section: Encode {
    ghost number: { Self → ℕ };

    /// Returns the id of the section.
    fn id(&self) -> u8
        ensures { result ≡ number self.now };
}
