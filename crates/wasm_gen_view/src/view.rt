//! Views of modules.

use crate::types::{RefType, SubType, TypePlace, ValType};

/// The type of a table.
#[derive(Clone, Copy, Debug, PartialEq, Eq)]
pub struct TableType {
    /// The type of its elements.
    pub element_type: RefType,
    /// Its minimum size, in elements.
    pub minimum: u64,
    /// Its maximum size, in elements, where it has one.
    pub maximum: Option<u64>,
    /// True if its indexes have 64 bits, not 32.
    pub table64: bool,
}

/// The type of a memory.
#[derive(Clone, Copy, Debug, PartialEq, Eq)]
pub struct MemoryType {
    /// Its minimum size, in pages.
    pub minimum: u64,
    /// Its maximum size, in pages, where it has one.
    pub maximum: Option<u64>,
    /// True if its addresses have 64 bits, not 32.
    pub memory64: bool,
    /// True if threads share it.
    pub shared: bool,
    /// The power of two that is the size of a page in bytes, where the module states it.
    pub page_size_log2: Option<u32>,
}

/// The type of a global.
#[derive(Clone, Copy, Debug, PartialEq, Eq)]
pub struct GlobalType {
    /// The type of its value.
    pub value_type: ValType,
    /// True if it can be set.
    pub mutable: bool,
}

/// The item that an export names, by its type.
#[derive(Clone, Copy, Debug, PartialEq, Eq)]
pub enum Item {
    /// A function of this type.
    Function(TypePlace),
    /// A table.
    Table(TableType),
    /// A memory.
    Memory(MemoryType),
    /// A global.
    Global(GlobalType),
    /// A tag of this function type.
    Tag(TypePlace),
}

/// An export.
#[derive(Debug, PartialEq, Eq, Drop)]
pub struct Export {
    /// Its name.
    pub name: String,
    /// The exported item.
    pub item: Item,
}

/// The index spaces of a module, imported items first, and its exports. Groups are numbered by first occurrence, equal ones once; empty groups are left out.
#[derive(Debug, PartialEq, Eq, Drop)]
pub struct View {
    /// The types of each group.
    pub groups: Vec<Vec<SubType>>,
    /// The type of each type index.
    pub types: Vec<TypePlace>,
    /// The type of each function.
    pub functions: Vec<TypePlace>,
    /// The tables.
    pub tables: Vec<TableType>,
    /// The memories.
    pub memories: Vec<MemoryType>,
    /// The globals.
    pub globals: Vec<GlobalType>,
    /// The function type of each tag.
    pub tags: Vec<TypePlace>,
    /// The type of the items of each element segment.
    pub elements: Vec<RefType>,
    /// The exports, in order.
    pub exports: Vec<Export>,
}
