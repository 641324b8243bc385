//! The name section (Core Specification, Appendix, Custom Sections and Annotations, "Name Section").

ghost use Rattle.std.specs.Cow.{cow_str_bytes, cow_slice_items};
ghost use Rattle.std.specs.Prelude.{◌≡◌, ◌↔◌, ◌≤◌, ◌^◌, [], ◌∷◌, ◌++◌, codes, length, Err, IfOk, IfErr};
ghost use Rattle.wasm_encoder_custom.specs.CustomSections.{custom_content};
ghost use Rattle.wasm_encoder_custom.specs.NameMaps.{name_map_encoding, indirect_name_map_encoding};
ghost use Rattle.wasm_encoder_custom.specs.Subsections.{subsections_encoding};
ghost use Rattle.wasm_encoder_sections.specs.ItemEncodings.{name_encoding};
ghost use Rattle.wasm_spec.specs.Shortest.{framed_encoding};

use crate::custom_section::CustomSection;
use crate::framing::{custom_len, encode_custom, written, written_name};
use crate::name_map::{IndirectNameMap, NameMap};
use crate::subsections::Subsections;
use std::alloc::Global;
use std::borrow::{CowSlice, CowStr};
use std::marker::Model;
use wasm_core_write::encode::{Encode, Section};
use wasm_core_write::encode_error::EncodeError;

const NAME: &str = "name";

/// What the parts of a module are called, for those who debug it. Contracts see the list of its subsections, which are
/// written in the order in which they were added: the convention asks for that of their ids, each at most once.
///
/// Each adding call copies the names. What it refuses leaves the section as it was.
///
/// ```
/// let mut functions = NameMap::new(alloc);
/// functions.append(0, "main")?;
/// let mut names = NameSection::new(alloc);
/// names.module("m")?;
/// names.functions(&functions)?;
/// module.push(&names)?;
/// ```
#[derive(Debug, Drop)]
pub struct NameSection {
    alloc: Global,
    parts: Subsections,
}

impl Model for NameSection {
    ghost use Rattle.std.specs.Prelude.{List};
    ghost use Rattle.wasm_encoder_custom.specs.Subsections as spec;

    ghost Value = { List spec.Subsection };

    ghost view = { λ s. s.parts };
}

impl NameSection {
    /// Creates a section without names.
    pub fn new(alloc: Global) -> NameSection
        ensures { result ≡ [] }
    {
        NameSection {
            alloc,
            parts: Subsections::new(alloc),
        }
    }

    /// Names the module.
    ///
    /// # Errors
    /// `TooLong` exactly where the name after its length is past 4,294,967,295 bytes, and else `Memory`.
    pub fn module(&mut self, name: &str) -> Result<(), EncodeError>
        ensures added { IfOk result (λ _. self.new ≡ self.old ++ record { id = 0; content = name_encoding name.now } ∷ []) }
        ensures kept { IfErr result (λ _. self.new ≡ self.old) }
        ensures too_long { (result ≡ Err EncodeError.TooLong) ↔ (2 ^ 32 ≤ length (name_encoding name.now)) }
    {
        let content = written_name(self.alloc, name)?;
        self.parts.push_owned(0, content)
    }

    /// Names functions.
    ///
    /// # Errors
    /// `TooLong` exactly where the map is past 4,294,967,295 bytes, and else `Memory`.
    pub fn functions(&mut self, names: &NameMap) -> Result<(), EncodeError>
        ensures added { IfOk result (λ _. self.new ≡ self.old ++ record { id = 1; content = name_map_encoding names.now } ∷ []) }
        ensures kept { IfErr result (λ _. self.new ≡ self.old) }
        ensures too_long { (result ≡ Err EncodeError.TooLong) ↔ (2 ^ 32 ≤ length (name_map_encoding names.now)) }
    {
        self.parts.push(self.alloc, 1, names)
    }

    /// Names locals of functions.
    ///
    /// # Errors
    /// `TooLong` exactly where the map is past 4,294,967,295 bytes, and else `Memory`.
    pub fn locals(&mut self, names: &IndirectNameMap) -> Result<(), EncodeError>
        ensures added { IfOk result (λ _. self.new ≡ self.old ++ record { id = 2; content = indirect_name_map_encoding names.now } ∷ []) }
        ensures kept { IfErr result (λ _. self.new ≡ self.old) }
        ensures too_long { (result ≡ Err EncodeError.TooLong) ↔ (2 ^ 32 ≤ length (indirect_name_map_encoding names.now)) }
    {
        self.parts.push(self.alloc, 2, names)
    }

    /// Names labels in functions.
    ///
    /// # Errors
    /// `TooLong` exactly where the map is past 4,294,967,295 bytes, and else `Memory`.
    pub fn labels(&mut self, names: &IndirectNameMap) -> Result<(), EncodeError>
        ensures added { IfOk result (λ _. self.new ≡ self.old ++ record { id = 3; content = indirect_name_map_encoding names.now } ∷ []) }
        ensures kept { IfErr result (λ _. self.new ≡ self.old) }
        ensures too_long { (result ≡ Err EncodeError.TooLong) ↔ (2 ^ 32 ≤ length (indirect_name_map_encoding names.now)) }
    {
        self.parts.push(self.alloc, 3, names)
    }

    /// Names types.
    ///
    /// # Errors
    /// `TooLong` exactly where the map is past 4,294,967,295 bytes, and else `Memory`.
    pub fn types(&mut self, names: &NameMap) -> Result<(), EncodeError>
        ensures added { IfOk result (λ _. self.new ≡ self.old ++ record { id = 4; content = name_map_encoding names.now } ∷ []) }
        ensures kept { IfErr result (λ _. self.new ≡ self.old) }
        ensures too_long { (result ≡ Err EncodeError.TooLong) ↔ (2 ^ 32 ≤ length (name_map_encoding names.now)) }
    {
        self.parts.push(self.alloc, 4, names)
    }

    /// Names tables.
    ///
    /// # Errors
    /// `TooLong` exactly where the map is past 4,294,967,295 bytes, and else `Memory`.
    pub fn tables(&mut self, names: &NameMap) -> Result<(), EncodeError>
        ensures added { IfOk result (λ _. self.new ≡ self.old ++ record { id = 5; content = name_map_encoding names.now } ∷ []) }
        ensures kept { IfErr result (λ _. self.new ≡ self.old) }
        ensures too_long { (result ≡ Err EncodeError.TooLong) ↔ (2 ^ 32 ≤ length (name_map_encoding names.now)) }
    {
        self.parts.push(self.alloc, 5, names)
    }

    /// Names memories.
    ///
    /// # Errors
    /// `TooLong` exactly where the map is past 4,294,967,295 bytes, and else `Memory`.
    pub fn memories(&mut self, names: &NameMap) -> Result<(), EncodeError>
        ensures added { IfOk result (λ _. self.new ≡ self.old ++ record { id = 6; content = name_map_encoding names.now } ∷ []) }
        ensures kept { IfErr result (λ _. self.new ≡ self.old) }
        ensures too_long { (result ≡ Err EncodeError.TooLong) ↔ (2 ^ 32 ≤ length (name_map_encoding names.now)) }
    {
        self.parts.push(self.alloc, 6, names)
    }

    /// Names globals.
    ///
    /// # Errors
    /// `TooLong` exactly where the map is past 4,294,967,295 bytes, and else `Memory`.
    pub fn globals(&mut self, names: &NameMap) -> Result<(), EncodeError>
        ensures added { IfOk result (λ _. self.new ≡ self.old ++ record { id = 7; content = name_map_encoding names.now } ∷ []) }
        ensures kept { IfErr result (λ _. self.new ≡ self.old) }
        ensures too_long { (result ≡ Err EncodeError.TooLong) ↔ (2 ^ 32 ≤ length (name_map_encoding names.now)) }
    {
        self.parts.push(self.alloc, 7, names)
    }

    /// Names element segments.
    ///
    /// # Errors
    /// `TooLong` exactly where the map is past 4,294,967,295 bytes, and else `Memory`.
    pub fn elements(&mut self, names: &NameMap) -> Result<(), EncodeError>
        ensures added { IfOk result (λ _. self.new ≡ self.old ++ record { id = 8; content = name_map_encoding names.now } ∷ []) }
        ensures kept { IfErr result (λ _. self.new ≡ self.old) }
        ensures too_long { (result ≡ Err EncodeError.TooLong) ↔ (2 ^ 32 ≤ length (name_map_encoding names.now)) }
    {
        self.parts.push(self.alloc, 8, names)
    }

    /// Names data segments.
    ///
    /// # Errors
    /// `TooLong` exactly where the map is past 4,294,967,295 bytes, and else `Memory`.
    pub fn data(&mut self, names: &NameMap) -> Result<(), EncodeError>
        ensures added { IfOk result (λ _. self.new ≡ self.old ++ record { id = 9; content = name_map_encoding names.now } ∷ []) }
        ensures kept { IfErr result (λ _. self.new ≡ self.old) }
        ensures too_long { (result ≡ Err EncodeError.TooLong) ↔ (2 ^ 32 ≤ length (name_map_encoding names.now)) }
    {
        self.parts.push(self.alloc, 9, names)
    }

    /// Names fields of types.
    ///
    /// # Errors
    /// `TooLong` exactly where the map is past 4,294,967,295 bytes, and else `Memory`.
    pub fn fields(&mut self, names: &IndirectNameMap) -> Result<(), EncodeError>
        ensures added { IfOk result (λ _. self.new ≡ self.old ++ record { id = 10; content = indirect_name_map_encoding names.now } ∷ []) }
        ensures kept { IfErr result (λ _. self.new ≡ self.old) }
        ensures too_long { (result ≡ Err EncodeError.TooLong) ↔ (2 ^ 32 ≤ length (indirect_name_map_encoding names.now)) }
    {
        self.parts.push(self.alloc, 10, names)
    }

    /// Names tags.
    ///
    /// # Errors
    /// `TooLong` exactly where the map is past 4,294,967,295 bytes, and else `Memory`.
    pub fn tag(&mut self, names: &NameMap) -> Result<(), EncodeError>
        ensures added { IfOk result (λ _. self.new ≡ self.old ++ record { id = 11; content = name_map_encoding names.now } ∷ []) }
        ensures kept { IfErr result (λ _. self.new ≡ self.old) }
        ensures too_long { (result ≡ Err EncodeError.TooLong) ↔ (2 ^ 32 ≤ length (name_map_encoding names.now)) }
    {
        self.parts.push(self.alloc, 11, names)
    }

    /// Adds a subsection of this id that holds these bytes.
    ///
    /// # Errors
    /// `TooLong` exactly where there are more than 4,294,967,295 bytes, and else `Memory`.
    pub fn raw(&mut self, id: u8, content: &[u8]) -> Result<(), EncodeError>
        ensures added { IfOk result (λ _. self.new ≡ self.old ++ record { id = id; content = content.now } ∷ []) }
        ensures kept { IfErr result (λ _. self.new ≡ self.old) }
        ensures too_long { (result ≡ Err EncodeError.TooLong) ↔ (2 ^ 32 ≤ length content.now) }
    {
        self.parts.push_bytes(self.alloc, id, content)
    }

    /// Returns a custom section of the same bytes, which it owns.
    ///
    /// # Errors
    /// `TooLong` exactly where the subsections are past 4,294,967,295 bytes, and else `Memory`.
    pub fn as_custom(&self) -> Result<CustomSection<'static>, EncodeError>
        ensures named { IfOk result (λ c. cow_str_bytes c.name ≡ codes "name") }
        ensures holds { IfOk result (λ c. cow_slice_items c.«data» ≡ subsections_encoding self.now) }
        ensures too_long { (result ≡ Err EncodeError.TooLong) ↔ (2 ^ 32 ≤ length (subsections_encoding self.now)) }
    {
        let content = written(self.alloc, &self.parts)?;
        Ok(CustomSection {
            name: CowStr::Borrowed(NAME),
            data: CowSlice::Owned(content),
        })
    }
}

impl Encode for NameSection {
    ghost encoding = { λ s. framed_encoding (custom_content (codes "name") (subsections_encoding s)) };

    ghost longest = { λ s. length (custom_content (codes "name") (subsections_encoding s)) };

    fn encode(&self, sink: &mut Vec<u8>) -> Result<(), EncodeError> {
        encode_custom(NAME, &self.parts, sink)
    }

    fn encoded_len(&self) -> Result<u64, EncodeError> {
        custom_len(NAME, &self.parts)
    }
}

impl Section for NameSection {
    ghost number = { λ _. 0 };

    fn id(&self) -> u8 {
        0
    }
}
