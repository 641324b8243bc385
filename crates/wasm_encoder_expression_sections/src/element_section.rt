//! The element section (Core Specification, Binary Format, Modules, "Element Section").

ghost use Rattle.std.specs.Prelude.{◌≡◌, ◌↔◌, ◌+◌, ◌≤◌, ◌^◌, [], ◌∷◌, ◌++◌, length, Err, IfOk, IfErr, IsTrue};
ghost use Rattle.wasm_core_write.specs.Encoding.{TellsItem};
ghost use Rattle.wasm_encoder_expression_sections.specs.CoreSegments.{lent_mode, lent_elements};
ghost use Rattle.wasm_encoder_expression_sections.specs.ItemEncodings.{element_encoding, Active, Passive, Declared};
ghost use Rattle.wasm_spec.specs.Shortest.{list_encoding, framed_encoding};

use crate::element_segment::{ElementMode, ElementSegment, Elements};
use crate::kept_bytes::RawBytes;
use crate::kept_elements::{KeptSegment, copied_segment};
use std::alloc::Global;
use std::marker::Model;
use wasm_core_write::encode::{Encode, Section};
use wasm_core_write::encode_error::EncodeError;
use wasm_core_write::encoding::{Encoding, encode_framed, framed_len};
use wasm_encoder_bodies::const_expr::ConstExpr;
use wasm_encoder_sections::kept_list::KeptList;

// A segment, or the bytes of one.
#[derive(Debug, Drop)]
enum Item {
    Segment(KeptSegment),
    Raw(RawBytes),
}

// What is kept of a segment. Contracts see its encoding.
#[derive(Debug, Drop)]
struct KeptElement(Item);

impl Model for KeptElement {
    ghost use Rattle.std.specs.Prelude.{List, ℕ};
    ghost use Rattle.wasm_encoder_expression_sections.specs.CoreItems.{element_bytes};

    ghost Value = { List ℕ };

    ghost view = { λ e. element_bytes e.0 };
}

impl Encoding for KeptElement {
    ghost encoding = { λ item. item };

    fn size(&self) -> Result<u64, EncodeError> {
        match &self.0 {
            Item::Segment(segment) => segment.size(),
            Item::Raw(bytes) => bytes.size(),
        }
    }

    fn put(&self, sink: &mut Vec<u8>) {
        match &self.0 {
            Item::Segment(segment) => segment.put(sink),
            Item::Raw(bytes) => bytes.put(sink),
        }
    }
}

/// The module's element segments. Contracts see the list of their encodings.
///
/// ```
/// let offset = ConstExpr::i32_const(alloc, 0)?;
/// let mut elements = ElementSection::new(alloc);
/// elements.active(None, &offset, Elements::Functions(&[0, 1]))?.declared(Elements::Functions(&[2]))?;
/// module.push(&elements)?;
/// ```
#[derive(Debug, Drop)]
pub struct ElementSection {
    alloc: Global,
    segments: KeptList<KeptElement>,
}

impl Model for ElementSection {
    ghost use Rattle.std.specs.Prelude.{ℕ, List};

    ghost Value = { List (List ℕ) };

    ghost view = { λ s. s.segments };
}

impl ElementSection {
    ghost use Rattle.std.specs.Borrow.{sem, LendsIfOk};
    ghost use Rattle.wasm_encoder_expression_sections.specs.contracts.element_section.ElementSection.{the_row};

    /// Creates a section without segments.
    pub fn new(alloc: Global) -> ElementSection
        ensures { result ≡ [] }
    {
        ElementSection {
            alloc,
            segments: KeptList::new(alloc),
        }
    }

    /// Returns the number of segments.
    pub fn len(&self) -> u32
        ensures { result ≡ length self.now }
    {
        self.segments.len()
    }

    /// Checks that there are no segments.
    pub fn is_empty(&self) -> bool
        ensures { IsTrue result ↔ (self.now ≡ []) }
    {
        self.segments.is_empty()
    }

    /// Adds a segment: what `segment` does. Its expressions and indexes are copied.
    ///
    /// # Errors
    /// `TooLong` exactly where there are 4,294,967,295 segments, and else `Memory`.
    pub fn push(&mut self, segment: ElementSegment<'_>) -> Result<(), EncodeError>
        ensures added { IfOk result (λ _. self.new ≡ self.old ++ element_encoding (lent_mode segment.entry.mode) (lent_elements segment.entry.elements) ∷ []) }
        ensures kept { IfErr result (λ _. self.new ≡ self.old) }
        ensures too_long { (result ≡ Err EncodeError.TooLong) ↔ (2 ^ 32 ≤ length self.old + 1) }
    {
        self.segments.check_room()?;
        let segment = copied_segment(self.alloc, &segment)?;
        self.segments.push(KeptElement(Item::Segment(segment)))
    }

    /// Adds a segment. Its expressions and indexes are copied.
    ///
    /// # Errors
    /// Those of [`ElementSection::push`]. The section is then as it was.
    pub fn segment(
        &mut self,
        segment: ElementSegment<'_>,
    ) -> Result<&mut ElementSection, EncodeError>
        ensures* refused { sem 𝓛 (LendsIfOk the_row the_row self.entry result (λ w. w) self.old) }
        ensures same_reference { IfOk result (λ s. s.ghost_name ≡ self.entry.ghost_name) }
        ensures added { IfOk result (λ s. s.now ≡ self.old ++ element_encoding (lent_mode segment.entry.mode) (lent_elements segment.entry.elements) ∷ []) }
        ensures too_long { (result ≡ Err EncodeError.TooLong) ↔ (2 ^ 32 ≤ length self.old + 1) }
    {
        match self.push(segment) {
            Ok(()) => Ok(self),
            Err(error) => Err(error),
        }
    }

    /// Adds a segment whose elements are put into a table as the module is instantiated: what `active` does.
    ///
    /// # Errors
    /// Those of [`ElementSection::push`].
    pub fn push_active(
        &mut self,
        table_index: Option<u32>,
        offset: &ConstExpr,
        elements: Elements<'_>,
    ) -> Result<(), EncodeError>
        ensures added { IfOk result (λ _. self.new ≡ self.old ++ element_encoding (Active table_index offset.now) (lent_elements elements.entry) ∷ []) }
        ensures kept { IfErr result (λ _. self.new ≡ self.old) }
        ensures too_long { (result ≡ Err EncodeError.TooLong) ↔ (2 ^ 32 ≤ length self.old + 1) }
    {
        let mode = ElementMode::Active {
            table: table_index,
            offset,
        };
        self.push(ElementSegment { mode, elements })
    }

    /// Adds a segment whose elements are put into a table as the module is instantiated.
    ///
    /// # Errors
    /// Those of [`ElementSection::push`]. The section is then as it was.
    pub fn active(
        &mut self,
        table_index: Option<u32>,
        offset: &ConstExpr,
        elements: Elements<'_>,
    ) -> Result<&mut ElementSection, EncodeError>
        ensures* refused { sem 𝓛 (LendsIfOk the_row the_row self.entry result (λ w. w) self.old) }
        ensures same_reference { IfOk result (λ s. s.ghost_name ≡ self.entry.ghost_name) }
        ensures added { IfOk result (λ s. s.now ≡ self.old ++ element_encoding (Active table_index offset.now) (lent_elements elements.entry) ∷ []) }
        ensures too_long { (result ≡ Err EncodeError.TooLong) ↔ (2 ^ 32 ≤ length self.old + 1) }
    {
        match self.push_active(table_index, offset, elements) {
            Ok(()) => Ok(self),
            Err(error) => Err(error),
        }
    }

    /// Adds a segment whose elements are put into tables by instructions: what `passive` does.
    ///
    /// # Errors
    /// Those of [`ElementSection::push`].
    pub fn push_passive(&mut self, elements: Elements<'_>) -> Result<(), EncodeError>
        ensures added { IfOk result (λ _. self.new ≡ self.old ++ element_encoding Passive (lent_elements elements.entry) ∷ []) }
        ensures kept { IfErr result (λ _. self.new ≡ self.old) }
        ensures too_long { (result ≡ Err EncodeError.TooLong) ↔ (2 ^ 32 ≤ length self.old + 1) }
    {
        let mode = ElementMode::Passive;
        self.push(ElementSegment { mode, elements })
    }

    /// Adds a segment whose elements are put into tables by instructions.
    ///
    /// # Errors
    /// Those of [`ElementSection::push`]. The section is then as it was.
    pub fn passive(&mut self, elements: Elements<'_>) -> Result<&mut ElementSection, EncodeError>
        ensures* refused { sem 𝓛 (LendsIfOk the_row the_row self.entry result (λ w. w) self.old) }
        ensures same_reference { IfOk result (λ s. s.ghost_name ≡ self.entry.ghost_name) }
        ensures added { IfOk result (λ s. s.now ≡ self.old ++ element_encoding Passive (lent_elements elements.entry) ∷ []) }
        ensures too_long { (result ≡ Err EncodeError.TooLong) ↔ (2 ^ 32 ≤ length self.old + 1) }
    {
        match self.push_passive(elements) {
            Ok(()) => Ok(self),
            Err(error) => Err(error),
        }
    }

    /// Adds a segment of functions to which bodies may refer: what `declared` does.
    ///
    /// # Errors
    /// Those of [`ElementSection::push`].
    pub fn push_declared(&mut self, elements: Elements<'_>) -> Result<(), EncodeError>
        ensures added { IfOk result (λ _. self.new ≡ self.old ++ element_encoding Declared (lent_elements elements.entry) ∷ []) }
        ensures kept { IfErr result (λ _. self.new ≡ self.old) }
        ensures too_long { (result ≡ Err EncodeError.TooLong) ↔ (2 ^ 32 ≤ length self.old + 1) }
    {
        let mode = ElementMode::Declared;
        self.push(ElementSegment { mode, elements })
    }

    /// Adds a segment of functions to which bodies may refer.
    ///
    /// # Errors
    /// Those of [`ElementSection::push`]. The section is then as it was.
    pub fn declared(&mut self, elements: Elements<'_>) -> Result<&mut ElementSection, EncodeError>
        ensures* refused { sem 𝓛 (LendsIfOk the_row the_row self.entry result (λ w. w) self.old) }
        ensures same_reference { IfOk result (λ s. s.ghost_name ≡ self.entry.ghost_name) }
        ensures added { IfOk result (λ s. s.now ≡ self.old ++ element_encoding Declared (lent_elements elements.entry) ∷ []) }
        ensures too_long { (result ≡ Err EncodeError.TooLong) ↔ (2 ^ 32 ≤ length self.old + 1) }
    {
        match self.push_declared(elements) {
            Ok(()) => Ok(self),
            Err(error) => Err(error),
        }
    }

    /// Adds a segment as its bytes, which are not looked at: what `raw` does. They are copied.
    ///
    /// # Errors
    /// Those of [`ElementSection::push`].
    pub fn push_raw(&mut self, bytes: &[u8]) -> Result<(), EncodeError>
        ensures added { IfOk result (λ _. self.new ≡ self.old ++ bytes.now ∷ []) }
        ensures kept { IfErr result (λ _. self.new ≡ self.old) }
        ensures too_long { (result ≡ Err EncodeError.TooLong) ↔ (2 ^ 32 ≤ length self.old + 1) }
    {
        self.segments.check_room()?;
        let bytes = RawBytes::new(self.alloc, bytes)?;
        self.segments.push(KeptElement(Item::Raw(bytes)))
    }

    /// Adds a segment as its bytes, which are not looked at. They are copied.
    ///
    /// # Errors
    /// Those of [`ElementSection::push`]. The section is then as it was.
    pub fn raw(&mut self, bytes: &[u8]) -> Result<&mut ElementSection, EncodeError>
        ensures* refused { sem 𝓛 (LendsIfOk the_row the_row self.entry result (λ w. w) self.old) }
        ensures same_reference { IfOk result (λ s. s.ghost_name ≡ self.entry.ghost_name) }
        ensures added { IfOk result (λ s. s.now ≡ self.old ++ bytes.now ∷ []) }
        ensures too_long { (result ≡ Err EncodeError.TooLong) ↔ (2 ^ 32 ≤ length self.old + 1) }
    {
        match self.push_raw(bytes) {
            Ok(()) => Ok(self),
            Err(error) => Err(error),
        }
    }

    /// Returns the number of bytes of the item of the accepted adding call of this number, counted from 0. It takes no
    /// memory. Where [`Encode::encode`] answers `TooLong`, the number says nothing.
    pub fn item_len(&self, i: u32) -> Option<u64>
        ensures { TellsItem (λ item. item) self.now i result }
    {
        self.segments.item_len(i)
    }
}

impl Encode for ElementSection {
    ghost encoding = { λ s. framed_encoding (list_encoding (λ item. item) s) };

    ghost longest = { λ s. length (list_encoding (λ item. item) s) };

    fn encode(&self, sink: &mut Vec<u8>) -> Result<(), EncodeError> {
        encode_framed(&self.segments, sink)
    }

    fn encoded_len(&self) -> Result<u64, EncodeError> {
        framed_len(&self.segments)
    }
}

impl Section for ElementSection {
    ghost number = { λ _. 9 };

    fn id(&self) -> u8 {
        9
    }
}
