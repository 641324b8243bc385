//! Passing over a part of the input, which is read later.

ghost use Rattle.std.specs.Prelude.{◌≡◌, ◌≤◌, ℕ, length};
ghost use Rattle.wasm_spec.specs.Bytes.{AreBytes};
ghost use Rattle.wasm_core_read.specs.Reading.{ReadingOf, unsigned_at};
ghost use Rattle.wasm_core_read.specs.TypeReading.{list_at};
ghost use Rattle.wasmparser_readers.specs.Passing.{Passes, passed};

use wasm_core_read::binary_reader::BinaryReader;
use wasm_core_read::malformed::Malformed;

/// Returns a reader of what another one has before it. The other one can then go on, and this one read again what it passed.
pub fn fork<'a>(reader: &BinaryReader<'a>) -> BinaryReader<'a>
    ensures same { result ≡ reader.now }
    ensures are { AreBytes reader.now.rest }
{
    let features = reader.features();
    let mut fork = BinaryReader::new(reader.remaining_buffer(), reader.original_position());
    fork.set_features(features);
    fork
}

/// Returns a reader of what was passed since a reader stood at `start`, where so many bytes are left.
pub fn passed_part<'a>(start: BinaryReader<'a>, left: usize) -> BinaryReader<'a>
    requires { left ≤ length start.rest }
    ensures { result ≡ passed start.entry left }
{
    let features = start.features();
    let bytes = start.remaining_buffer();
    let len = bytes.len() - left;
    let mut part = BinaryReader::new(&bytes[..len], start.original_position());
    part.set_features(features);
    part
}

/// A type whose values can be passed over without keeping any of them.
pub trait Pass {
    // The type that stands for it in the specification.
    ghost Passed: { Type 0 };

    // The reading of bytes as one of them.
    ghost passed_at: { ReadingOf Passed };

    /// Passes over one.
    ///
    /// # Errors
    /// Where none reads.
    fn pass(reader: &mut BinaryReader<'_>) -> Result<(), Malformed>
        ensures { Passes reader.old reader.new result (Self.passed_at reader.old.rest) };
}

impl Pass for u32 {
    ghost Passed = { ℕ };

    ghost passed_at = { unsigned_at 32 };

    fn pass(reader: &mut BinaryReader<'_>) -> Result<(), Malformed> {
        reader.read_var_u32()?;
        Ok(())
    }
}

/// Passes over a list: the number of its items, and the items (Core Specification 3.0, Binary Format, "Lists").
///
/// # Errors
/// Where none reads.
#[tactic(auto, using(crate::proofs::PassingLaws::pass_loop))]
pub fn pass_list<T: Pass>(reader: &mut BinaryReader<'_>) -> Result<(), Malformed>
    ensures { Passes reader.old reader.new result (list_at T.passed_at reader.old.rest) }
{
    let count = reader.read_var_u32()?;
    for _ in 0..count {
        T::pass(reader)?;
    }
    Ok(())
}
