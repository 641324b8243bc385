//! Names, as they are written (Core Specification, Binary Format, Values, "Names").

ghost use Rattle.std.specs.Prelude.{◌≡◌, ◌≤◌, ◌+◌, ◌++◌, map, length, vec_len, vec_capacity, IfOk, IfErr};
ghost use Rattle.wasm_core_write.specs.Encoding.{Measures};
ghost use Rattle.wasm_encoder_sections.specs.CoreItems.{name_of, name_bytes};
ghost use Rattle.wasm_encoder_sections.specs.ItemEncodings.{name_encoding};

use std::alloc::Global;
use wasm_core_write::encode_error::EncodeError;
use wasm_core_write::encoding::{Encoding, add_sizes, bytes_size, put_bytes};
use wasm_core_write::leb128::{len_u64, put_u64};

/// Returns the number of bytes of a name after the number of its bytes.
///
/// # Errors
/// `TooLong` alone, exactly where the name after its length is past 4,294,967,295 bytes.
#[tactic(auto, using(wasm_spec::proofs::ListEncodings::framed_steps))]
pub fn name_size(name: &str) -> Result<u64, EncodeError>
    ensures { Measures result (length (name_encoding name.now)) (length (name_encoding name.now)) }
{
    let size = bytes_size(name.as_bytes())?;
    add_sizes(len_u64(size) as u64, size)
}

/// Writes a name, for which there is room.
#[tactic(auto, using(wasm_spec::proofs::ListEncodings::framed_steps, wasm_spec::proofs::ListEncodings::parts))]
pub fn put_name(name: &str, sink: &mut Vec<u8>)
    requires { vec_len sink.old + length (name_encoding name.now) ≤ vec_capacity sink.old }
    ensures written { sink.new.items ≡ sink.old.items ++ name_encoding name.now }
    ensures capacity { vec_capacity sink.old ≤ vec_capacity sink.new }
{
    put_u64(sink, name.len() as u64);
    put_bytes(name.as_bytes(), sink);
}

/// A name that is kept.
#[derive(Debug, Drop)]
pub struct Name {
    text: String,
}

impl Name {
    /// Creates a copy of a name.
    ///
    /// # Errors
    /// `Memory` alone.
    pub fn new(alloc: Global, name: &str) -> Result<Name, EncodeError>
        ensures copied { IfOk result (λ n. name_of n ≡ name.now) }
        ensures memory_alone { IfErr result (λ e. e ≡ EncodeError.Memory) }
    {
        let text = String::from_str(alloc, name)?;
        Ok(Name { text })
    }
}

impl Encoding for Name {
    ghost encoding = { name_bytes };

    #[tactic(auto, unfolding(crate::specs::CoreItems::name_bytes))]
    fn size(&self) -> Result<u64, EncodeError> {
        name_size(self.text.as_str())
    }

    #[tactic(auto, unfolding(crate::specs::CoreItems::name_bytes))]
    fn put(&self, sink: &mut Vec<u8>) {
        put_name(self.text.as_str(), sink);
    }
}

/// Copies of names.
///
/// # Errors
/// `Memory` alone.
#[tactic(auto, using(crate::proofs::KeptLoops::kept_steps))]
pub fn kept_names(alloc: Global, names: &[&str]) -> Result<Vec<Name>, EncodeError>
    ensures copied { IfOk result (λ kept. map name_of kept.items ≡ map (λ name. name.now) names.now) }
    ensures memory_alone { IfErr result (λ e. e ≡ EncodeError.Memory) }
{
    let mut kept = Vec::new(alloc);
    for name in names {
        kept.push(Name::new(alloc, name)?)?;
    }
    Ok(kept)
}
