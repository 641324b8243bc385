//! Parts of custom sections, each an id and a content after its size, as they are kept and written.

ghost use Rattle.std.specs.Prelude.{◌≡◌, ◌↔◌, ◌+◌, ◌≤◌, ◌<◌, ◌^◌, [], ◌∷◌, ◌++◌, length, vec_len, vec_capacity, Err, IfOk, IfErr};
ghost use Rattle.std.specs.List.{flat_map};
ghost use Rattle.wasm_core_write.specs.Encoding.{Measures, Encodes};
ghost use Rattle.wasm_encoder_custom.specs.KeptSubsections.{subsection_bytes};
ghost use Rattle.wasm_encoder_custom.specs.Subsections.{subsection_encoding, subsections_encoding};

use crate::framing::written;
use std::alloc::Global;
use std::marker::Model;
use wasm_core_write::encode_error::EncodeError;
use wasm_core_write::encoding::{Encoding, add_sizes, bytes_size, put_bytes};
use wasm_core_write::leb128::{len_u64, put_u64};

// An id, and a content.
#[derive(Debug, Drop)]
struct Subsection {
    id: u8,
    content: Vec<u8>,
}

impl Encoding for Subsection {
    ghost encoding = { subsection_bytes };

    #[tactic(auto, using(wasm_spec::proofs::ListEncodings::framed_steps), unfolding(crate::specs::KeptSubsections::subsection_bytes, crate::specs::Subsections::subsection_encoding))]
    fn size(&self) -> Result<u64, EncodeError> {
        let size = bytes_size(&self.content)?;
        add_sizes(1 + len_u64(size) as u64, size)
    }

    #[tactic(auto, using(wasm_spec::proofs::ListEncodings::framed_steps, wasm_spec::proofs::ListEncodings::parts), unfolding(crate::specs::KeptSubsections::subsection_bytes, crate::specs::Subsections::subsection_encoding, wasm_spec::specs::Shortest::framed_encoding))]
    fn put(&self, sink: &mut Vec<u8>) {
        sink.push_reserved(self.id);
        put_u64(sink, self.content.len() as u64);
        put_bytes(&self.content, sink);
    }
}

// Returns the number of bytes of items, one after the other.
#[tactic(auto, using(wasm_spec::proofs::ListEncodings::list_steps))]
fn items_size<T: Encoding>(items: &[T]) -> Result<u64, EncodeError>
    ensures { Measures result (length (flat_map T.encoding items.now)) (length (flat_map T.encoding items.now)) }
{
    let mut total = 0u64;
    for item in items {
        total = add_sizes(total, item.size()?)?;
    }
    Ok(total)
}

// Writes items one after the other, for which there is room.
#[tactic(auto, using(wasm_spec::proofs::ListEncodings::list_steps))]
fn put_items<T: Encoding>(items: &[T], sink: &mut Vec<u8>)
    requires { vec_len sink.old + length (flat_map T.encoding items.now) ≤ vec_capacity sink.old }
    ensures written { sink.new.items ≡ sink.old.items ++ flat_map T.encoding items.now }
    ensures capacity { vec_capacity sink.old ≤ vec_capacity sink.new }
{
    for item in items {
        item.put(sink);
    }
}

/// Returns the number of bytes of a part that holds what a value is written as.
///
/// # Errors
/// `TooLong` alone, exactly where the value is written as more than 4,294,967,295 bytes.
#[tactic(auto, using(wasm_spec::proofs::ListEncodings::framed_steps, wasm_spec::proofs::UnsignedEncodings::at_most_five), unfolding(crate::specs::Subsections::subsection_encoding))]
pub fn subsection_len<T: Encoding>(id: u8, content: &T) -> Result<u64, EncodeError>
    ensures exact { Measures result (length (subsection_encoding (record { id = id; content = T.encoding content.now }))) (length (T.encoding content.now)) }
    ensures below { IfOk result (λ n. n < 2 ^ 33) }
{
    let size = content.size()?;
    Ok(1 + size + len_u64(size) as u64)
}

/// Appends a part that holds what a value is written as: measures, grows the sink once, and writes.
///
/// # Errors
/// `TooLong` exactly where the value is written as more than 4,294,967,295 bytes, and else `Memory` where the sink cannot grow. Its bytes are then as
/// they were.
#[tactic(auto, using(wasm_spec::proofs::ListEncodings::framed_steps, wasm_spec::proofs::ListEncodings::parts), unfolding(crate::specs::Subsections::subsection_encoding, wasm_spec::specs::Shortest::framed_encoding))]
pub fn encode_subsection<T: Encoding>(
    id: u8,
    content: &T,
    sink: &mut Vec<u8>,
) -> Result<(), EncodeError>
    ensures { Encodes sink.old sink.new result (subsection_encoding (record { id = id; content = T.encoding content.now })) (length (T.encoding content.now)) }
{
    let size = content.size()?;
    sink.reserve(1 + size as usize + len_u64(size))?;
    sink.push_reserved(id);
    put_u64(sink, size);
    content.put(sink);
    Ok(())
}

/// Parts in the order in which they were added. Contracts see the list of them.
#[derive(Debug, Drop)]
pub struct Subsections {
    parts: Vec<Subsection>,
}

impl Model for Subsections {
    ghost use Rattle.std.specs.Prelude.{List, map};
    ghost use Rattle.wasm_encoder_custom.specs.KeptSubsections.{subsection};
    ghost use Rattle.wasm_encoder_custom.specs.Subsections as spec;

    ghost Value = { List spec.Subsection };

    ghost view = { λ s. map subsection s.parts.items };
}

impl Subsections {
    /// Creates a list without parts.
    pub fn new(alloc: Global) -> Subsections
        ensures { result ≡ [] }
    {
        Subsections {
            parts: Vec::new(alloc),
        }
    }

    /// Adds a part that holds what a value is written as.
    ///
    /// # Errors
    /// `TooLong` exactly where the value is written as more than 4,294,967,295 bytes, and else `Memory`. The parts are then as they were.
    pub fn push<T: Encoding>(
        &mut self,
        alloc: Global,
        id: u8,
        content: &T,
    ) -> Result<(), EncodeError>
        ensures added { IfOk result (λ _. self.new ≡ self.old ++ record { id = id; content = T.encoding content.now } ∷ []) }
        ensures kept { IfErr result (λ _. self.new ≡ self.old) }
        ensures too_long { (result ≡ Err EncodeError.TooLong) ↔ (2 ^ 32 ≤ length (T.encoding content.now)) }
    {
        let content = written(alloc, content)?;
        self.push_owned(id, content)
    }

    /// Adds a part that holds these bytes.
    ///
    /// # Errors
    /// `Memory` alone. The parts are then as they were, and the bytes are gone.
    pub fn push_owned(&mut self, id: u8, content: Vec<u8>) -> Result<(), EncodeError>
        ensures added { IfOk result (λ _. self.new ≡ self.old ++ record { id = id; content = content.items } ∷ []) }
        ensures kept { IfErr result (λ _. self.new ≡ self.old) }
        ensures memory_alone { IfErr result (λ e. e ≡ EncodeError.Memory) }
    {
        self.parts.push(Subsection { id, content })?;
        Ok(())
    }

    /// Adds a part that holds a copy of these bytes.
    ///
    /// # Errors
    /// `TooLong` exactly where there are more than 4,294,967,295 bytes, and else `Memory`. The parts are then as they were.
    pub fn push_bytes(&mut self, alloc: Global, id: u8, content: &[u8]) -> Result<(), EncodeError>
        ensures added { IfOk result (λ _. self.new ≡ self.old ++ record { id = id; content = content.now } ∷ []) }
        ensures kept { IfErr result (λ _. self.new ≡ self.old) }
        ensures too_long { (result ≡ Err EncodeError.TooLong) ↔ (2 ^ 32 ≤ length content.now) }
    {
        let _size = bytes_size(content)?;
        let content = content.to_vec(alloc)?;
        self.push_owned(id, content)
    }
}

impl Encoding for Subsections {
    ghost encoding = { λ s. subsections_encoding s };

    #[tactic(auto, using(crate::proofs::SubsectionLists::steps))]
    fn size(&self) -> Result<u64, EncodeError> {
        items_size(&self.parts)
    }

    #[tactic(auto, using(crate::proofs::SubsectionLists::steps))]
    fn put(&self, sink: &mut Vec<u8>) {
        put_items(&self.parts, sink);
    }
}
