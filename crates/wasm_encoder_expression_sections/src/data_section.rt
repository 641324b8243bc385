//! The data section (Core Specification, Binary Format, Modules, "Data Section").

ghost use Rattle.std.specs.Prelude.{◌≡◌, ◌↔◌, ◌+◌, ◌≤◌, ◌^◌, [], ◌∷◌, ◌++◌, length, Err, IfOk, IfErr, IsTrue, vec_len, vec_capacity};
ghost use Rattle.wasm_core_write.specs.Encoding.{TellsItem};
ghost use Rattle.wasm_encoder_expression_sections.specs.CoreSegments.{lent_data_mode};
ghost use Rattle.wasm_encoder_expression_sections.specs.ItemEncodings.{data_encoding, memory_encoding, ActiveData, PassiveData};
ghost use Rattle.wasm_spec.specs.Shortest.{list_encoding, framed_encoding};

use crate::data_segment::{DataSegment, DataSegmentMode};
use crate::kept_bytes::{CountedBytes, RawBytes};
use crate::segment_codes::{ACTIVE, ACTIVE_WITH_INDEX, PASSIVE};
use std::alloc::Global;
use std::marker::Model;
use wasm_core_write::encode::{Encode, Section};
use wasm_core_write::encode_error::EncodeError;
use wasm_core_write::encoding::{Encoding, add_sizes, encode_framed, framed_len};
use wasm_core_write::leb128::len_u32;
use wasm_encoder_bodies::const_expr::ConstExpr;
use wasm_encoder_sections::kept_list::KeptList;

// A segment, or the bytes of one.
#[derive(Debug, Drop)]
enum Item {
    Active {
        memory_index: u32,
        offset: ConstExpr,
        data: CountedBytes,
    },
    Passive(CountedBytes),
    Raw(RawBytes),
}

// What is kept of a segment. Contracts see its encoding.
#[derive(Debug, Drop)]
struct KeptData(Item);

impl Model for KeptData {
    ghost use Rattle.std.specs.Prelude.{List, ℕ};
    ghost use Rattle.wasm_encoder_expression_sections.specs.CoreItems.{data_bytes};

    ghost Value = { List ℕ };

    ghost view = { λ d. data_bytes d.0 };
}

// Returns the number of bytes of the form of an active segment, and of its memory.
#[tactic(auto, using(wasm_spec::proofs::UnsignedEncodings::at_most_five), unfolding(crate::specs::ItemEncodings::memory_encoding))]
fn memory_size(memory_index: u32) -> u64
    ensures exact { result ≡ length (memory_encoding memory_index) }
    ensures few { result ≤ 6 }
{
    if memory_index == 0 {
        1
    } else {
        1 + len_u32(memory_index) as u64
    }
}

#[tactic(auto, using(wasm_spec::proofs::ListEncodings::parts), unfolding(crate::specs::ItemEncodings::memory_encoding))]
fn put_memory(memory_index: u32, sink: &mut Vec<u8>)
    requires { vec_len sink.old + length (memory_encoding memory_index) ≤ vec_capacity sink.old }
    ensures written { sink.new.items ≡ sink.old.items ++ memory_encoding memory_index }
    ensures capacity { vec_capacity sink.old ≤ vec_capacity sink.new }
{
    if memory_index == 0 {
        sink.push_reserved(ACTIVE);
    } else {
        sink.push_reserved(ACTIVE_WITH_INDEX);
        memory_index.put(sink);
    }
}

impl Encoding for KeptData {
    ghost encoding = { λ item. item };

    #[tactic(auto, using(wasm_spec::proofs::ListEncodings::parts), unfolding(crate::specs::ItemEncodings::data_encoding))]
    fn size(&self) -> Result<u64, EncodeError> {
        match &self.0 {
            Item::Active {
                memory_index,
                offset,
                data,
            } => {
                let place = add_sizes(memory_size(*memory_index), offset.size()?)?;
                add_sizes(place, data.size()?)
            }
            Item::Passive(data) => add_sizes(1, data.size()?),
            Item::Raw(bytes) => bytes.size(),
        }
    }

    #[tactic(auto, using(wasm_spec::proofs::ListEncodings::parts), unfolding(crate::specs::ItemEncodings::data_encoding))]
    fn put(&self, sink: &mut Vec<u8>) {
        match &self.0 {
            Item::Active {
                memory_index,
                offset,
                data,
            } => {
                put_memory(*memory_index, sink);
                offset.put(sink);
                data.put(sink);
            }
            Item::Passive(data) => {
                sink.push_reserved(PASSIVE);
                data.put(sink);
            }
            Item::Raw(bytes) => bytes.put(sink),
        }
    }
}

fn copied_segment(alloc: Global, segment: &DataSegment<'_>) -> Result<KeptData, EncodeError>
    ensures copied { IfOk result (λ kept. kept ≡ data_encoding (lent_data_mode segment.now.mode) segment.now.«data».now) }
    ensures memory_alone { IfErr result (λ e. e ≡ EncodeError.Memory) }
{
    let data = CountedBytes::new(alloc, segment.data)?;
    match segment.mode {
        DataSegmentMode::Active {
            memory_index,
            offset,
        } => {
            let offset = offset.clone()?;
            Ok(KeptData(Item::Active {
                memory_index,
                offset,
                data,
            }))
        }
        DataSegmentMode::Passive => Ok(KeptData(Item::Passive(data))),
    }
}

/// The module's data segments. Contracts see the list of their encodings.
///
/// ```
/// let offset = ConstExpr::i32_const(alloc, 0)?;
/// let mut segments = DataSection::new(alloc);
/// segments.active(0, &offset, b"hello")?.passive(b"world")?;
/// module.push(&segments)?;
/// ```
#[derive(Debug, Drop)]
pub struct DataSection {
    alloc: Global,
    segments: KeptList<KeptData>,
}

impl Model for DataSection {
    ghost use Rattle.std.specs.Prelude.{ℕ, List};

    ghost Value = { List (List ℕ) };

    ghost view = { λ s. s.segments };
}

impl DataSection {
    ghost use Rattle.std.specs.Borrow.{sem, LendsIfOk};
    ghost use Rattle.wasm_encoder_expression_sections.specs.contracts.data_section.DataSection.{the_row};

    /// Creates a section without segments.
    pub fn new(alloc: Global) -> DataSection
        ensures { result ≡ [] }
    {
        DataSection {
            alloc,
            segments: KeptList::new(alloc),
        }
    }

    /// Returns the number of segments.
    pub fn len(&self) -> u32
        ensures { result ≡ length self.now }
    {
        self.segments.len()
    }

    /// Checks that there are no segments.
    pub fn is_empty(&self) -> bool
        ensures { IsTrue result ↔ (self.now ≡ []) }
    {
        self.segments.is_empty()
    }

    /// Adds a segment: what `segment` does. Its expression and bytes are copied.
    ///
    /// # Errors
    /// `TooLong` exactly where there are 4,294,967,295 segments, and else `Memory`.
    pub fn push(&mut self, segment: DataSegment<'_>) -> Result<(), EncodeError>
        ensures added { IfOk result (λ _. self.new ≡ self.old ++ data_encoding (lent_data_mode segment.entry.mode) segment.entry.«data».now ∷ []) }
        ensures kept { IfErr result (λ _. self.new ≡ self.old) }
        ensures too_long { (result ≡ Err EncodeError.TooLong) ↔ (2 ^ 32 ≤ length self.old + 1) }
    {
        self.segments.check_room()?;
        let segment = copied_segment(self.alloc, &segment)?;
        self.segments.push(segment)
    }

    /// Adds a segment. Its expression and bytes are copied.
    ///
    /// # Errors
    /// Those of [`DataSection::push`]. The section is then as it was.
    pub fn segment(&mut self, segment: DataSegment<'_>) -> Result<&mut DataSection, EncodeError>
        ensures* refused { sem 𝓛 (LendsIfOk the_row the_row self.entry result (λ w. w) self.old) }
        ensures same_reference { IfOk result (λ s. s.ghost_name ≡ self.entry.ghost_name) }
        ensures added { IfOk result (λ s. s.now ≡ self.old ++ data_encoding (lent_data_mode segment.entry.mode) segment.entry.«data».now ∷ []) }
        ensures too_long { (result ≡ Err EncodeError.TooLong) ↔ (2 ^ 32 ≤ length self.old + 1) }
    {
        match self.push(segment) {
            Ok(()) => Ok(self),
            Err(error) => Err(error),
        }
    }

    /// Adds a segment whose bytes are put into a memory as the module is instantiated: what `active` does.
    ///
    /// # Errors
    /// Those of [`DataSection::push`].
    pub fn push_active(
        &mut self,
        memory_index: u32,
        offset: &ConstExpr,
        data: &[u8],
    ) -> Result<(), EncodeError>
        ensures added { IfOk result (λ _. self.new ≡ self.old ++ data_encoding (ActiveData memory_index offset.now) «data».now ∷ []) }
        ensures kept { IfErr result (λ _. self.new ≡ self.old) }
        ensures too_long { (result ≡ Err EncodeError.TooLong) ↔ (2 ^ 32 ≤ length self.old + 1) }
    {
        let mode = DataSegmentMode::Active {
            memory_index,
            offset,
        };
        self.push(DataSegment { mode, data })
    }

    /// Adds a segment whose bytes are put into a memory as the module is instantiated.
    ///
    /// # Errors
    /// Those of [`DataSection::push`]. The section is then as it was.
    pub fn active(
        &mut self,
        memory_index: u32,
        offset: &ConstExpr,
        data: &[u8],
    ) -> Result<&mut DataSection, EncodeError>
        ensures* refused { sem 𝓛 (LendsIfOk the_row the_row self.entry result (λ w. w) self.old) }
        ensures same_reference { IfOk result (λ s. s.ghost_name ≡ self.entry.ghost_name) }
        ensures added { IfOk result (λ s. s.now ≡ self.old ++ data_encoding (ActiveData memory_index offset.now) «data».now ∷ []) }
        ensures too_long { (result ≡ Err EncodeError.TooLong) ↔ (2 ^ 32 ≤ length self.old + 1) }
    {
        match self.push_active(memory_index, offset, data) {
            Ok(()) => Ok(self),
            Err(error) => Err(error),
        }
    }

    /// Adds a segment whose bytes are put into memories by instructions: what `passive` does.
    ///
    /// # Errors
    /// Those of [`DataSection::push`].
    pub fn push_passive(&mut self, data: &[u8]) -> Result<(), EncodeError>
        ensures added { IfOk result (λ _. self.new ≡ self.old ++ data_encoding PassiveData «data».now ∷ []) }
        ensures kept { IfErr result (λ _. self.new ≡ self.old) }
        ensures too_long { (result ≡ Err EncodeError.TooLong) ↔ (2 ^ 32 ≤ length self.old + 1) }
    {
        let mode = DataSegmentMode::Passive;
        self.push(DataSegment { mode, data })
    }

    /// Adds a segment whose bytes are put into memories by instructions.
    ///
    /// # Errors
    /// Those of [`DataSection::push`]. The section is then as it was.
    pub fn passive(&mut self, data: &[u8]) -> Result<&mut DataSection, EncodeError>
        ensures* refused { sem 𝓛 (LendsIfOk the_row the_row self.entry result (λ w. w) self.old) }
        ensures same_reference { IfOk result (λ s. s.ghost_name ≡ self.entry.ghost_name) }
        ensures added { IfOk result (λ s. s.now ≡ self.old ++ data_encoding PassiveData «data».now ∷ []) }
        ensures too_long { (result ≡ Err EncodeError.TooLong) ↔ (2 ^ 32 ≤ length self.old + 1) }
    {
        match self.push_passive(data) {
            Ok(()) => Ok(self),
            Err(error) => Err(error),
        }
    }

    /// Adds a segment as its bytes, which are not looked at: what `raw` does. They are copied.
    ///
    /// # Errors
    /// Those of [`DataSection::push`].
    pub fn push_raw(&mut self, bytes: &[u8]) -> Result<(), EncodeError>
        ensures added { IfOk result (λ _. self.new ≡ self.old ++ bytes.now ∷ []) }
        ensures kept { IfErr result (λ _. self.new ≡ self.old) }
        ensures too_long { (result ≡ Err EncodeError.TooLong) ↔ (2 ^ 32 ≤ length self.old + 1) }
    {
        self.segments.check_room()?;
        let bytes = RawBytes::new(self.alloc, bytes)?;
        self.segments.push(KeptData(Item::Raw(bytes)))
    }

    /// Adds a segment as its bytes, which are not looked at. They are copied.
    ///
    /// # Errors
    /// Those of [`DataSection::push`]. The section is then as it was.
    pub fn raw(&mut self, bytes: &[u8]) -> Result<&mut DataSection, EncodeError>
        ensures* refused { sem 𝓛 (LendsIfOk the_row the_row self.entry result (λ w. w) self.old) }
        ensures same_reference { IfOk result (λ s. s.ghost_name ≡ self.entry.ghost_name) }
        ensures added { IfOk result (λ s. s.now ≡ self.old ++ bytes.now ∷ []) }
        ensures too_long { (result ≡ Err EncodeError.TooLong) ↔ (2 ^ 32 ≤ length self.old + 1) }
    {
        match self.push_raw(bytes) {
            Ok(()) => Ok(self),
            Err(error) => Err(error),
        }
    }

    /// Returns the number of bytes of the item of the accepted adding call of this number, counted from 0. It takes no
    /// memory. Where [`Encode::encode`] answers `TooLong`, the number says nothing.
    pub fn item_len(&self, i: u32) -> Option<u64>
        ensures { TellsItem (λ item. item) self.now i result }
    {
        self.segments.item_len(i)
    }
}

impl Encode for DataSection {
    ghost encoding = { λ s. framed_encoding (list_encoding (λ item. item) s) };

    ghost longest = { λ s. length (list_encoding (λ item. item) s) };

    fn encode(&self, sink: &mut Vec<u8>) -> Result<(), EncodeError> {
        encode_framed(&self.segments, sink)
    }

    fn encoded_len(&self) -> Result<u64, EncodeError> {
        framed_len(&self.segments)
    }
}

impl Section for DataSection {
    ghost number = { λ _. 11 };

    fn id(&self) -> u8 {
        11
    }
}
