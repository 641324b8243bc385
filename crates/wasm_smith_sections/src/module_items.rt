//! The items of a module that is to be written.

use wasm_core_types::types::SubType;
use wasm_encoder_sections::entity_type::MemoryType;
use wasm_smith_definitions::code::Code;
use wasm_smith_definitions::custom_section::CustomSection;
use wasm_smith_definitions::items::{Export, Global, Table};
use wasm_smith_definitions::segments::{DataSegment, ElementSegment};
use wasm_smith_shapes::imports::ImportEntry;

/// The items of a module that is to be written.
#[derive(Drop)]
pub struct ModuleItems<'a> {
    /// The types, one after the other.
    pub types: &'a [SubType],
    /// The size of each group of types.
    pub sizes: &'a [u32],
    /// The imports.
    pub imports: &'a [ImportEntry],
    /// The type index of each function.
    pub funcs: &'a [u32],
    /// The tables.
    pub tables: &'a [Table],
    /// The memories.
    pub memories: &'a [MemoryType],
    /// The type index of each tag.
    pub tags: &'a [u32],
    /// The globals.
    pub globals: &'a [Global],
    /// The exports.
    pub exports: &'a [Export],
    /// The index of the function that the module starts with.
    pub start: Option<u32>,
    /// The element segments.
    pub elems: &'a [ElementSegment],
    /// The data segments.
    pub data_segments: &'a [DataSegment],
    /// The body of each function.
    pub bodies: &'a [Code],
    /// The custom sections.
    pub customs: &'a [CustomSection],
    /// True if the number of data segments is stated before the bodies, where there are some.
    pub data_count: bool,
}
