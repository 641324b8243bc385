//! Payloads: the pieces of a module.

use crate::custom_section::CustomSectionReader;
use crate::function_body::FunctionBody;
use std::ops::Range;
use wasmparser_entries::data::Data;
use wasmparser_entries::element::Element;
use wasmparser_entries::global::Global;
use wasmparser_entries::imports::Imports;
use wasmparser_entries::table::Table;
use wasmparser_readers::export::Export;
use wasmparser_readers::memory_type::MemoryType;
use wasmparser_readers::section_limited::SectionLimited;
use wasmparser_readers::tag_type::TagType;
use wasmparser_types::sub_type::RecGroup;

/// A piece of a module: its header, what stands first in a section, the body of a function, or the module's end. Items
/// of sections and bodies are still unread.
#[derive(Debug, Drop)]
pub enum Payload<'a> {
    /// The header.
    Version {
        /// The version of the format.
        num: u16,
        /// The header's place.
        range: Range<u64>,
    },
    /// A type section.
    TypeSection(SectionLimited<'a, RecGroup>),
    /// An import section.
    ImportSection(SectionLimited<'a, Imports<'a>>),
    /// A function section: the index of each function's type.
    FunctionSection(SectionLimited<'a, u32>),
    /// A table section.
    TableSection(SectionLimited<'a, Table<'a>>),
    /// A memory section.
    MemorySection(SectionLimited<'a, MemoryType>),
    /// A tag section.
    TagSection(SectionLimited<'a, TagType>),
    /// A global section.
    GlobalSection(SectionLimited<'a, Global<'a>>),
    /// An export section.
    ExportSection(SectionLimited<'a, Export<'a>>),
    /// A start section.
    StartSection {
        /// The index of the start function.
        func: u32,
        /// The place of the section's content in the input.
        range: Range<u64>,
    },
    /// An element section.
    ElementSection(SectionLimited<'a, Element<'a>>),
    /// A data count section.
    DataCountSection {
        /// The number of data segments.
        count: u32,
        /// The place of the section's content in the input.
        range: Range<u64>,
    },
    /// A code section, of which the bodies follow, each as a payload of its own.
    CodeSectionStart {
        /// The number of bodies.
        count: u32,
        /// The place of the section's content, which the number of bodies begins. Whether the bodies fill it isn't checked
        /// yet.
        unchecked_range: Range<u64>,
        /// Number of the bytes of the content after that number.
        size: u64,
    },
    /// The body of a function.
    CodeSectionEntry(FunctionBody<'a>),
    /// A data section.
    DataSection(SectionLimited<'a, Data<'a>>),
    /// A custom section.
    CustomSection(CustomSectionReader<'a>),
    /// A section whose id the format doesn't have.
    UnknownSection {
        /// The id.
        id: u8,
        /// The content.
        contents: &'a [u8],
        /// The place of the section's content in the input.
        range: Range<u64>,
    },
    /// The end of the module, and its place.
    End(u64),
}
