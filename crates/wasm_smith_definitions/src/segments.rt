//! Element and data segments of a made module (Core Specification 3.0, Structure, Modules, "Element Segments" and "Data Segments").

use crate::constant::Constant;
use wasm_core_types::types::RefType;

/// The mode of an element segment.
#[derive(Clone, Copy, Debug)]
pub enum ElementMode {
    /// Written into a table when the module is instantiated.
    Active {
        /// The index of the table.
        table: u32,
        /// The index of the first element that is written.
        offset: Constant,
    },
    /// Kept for instructions.
    Passive,
    /// Declares the functions that bodies may refer to.
    Declared,
}

/// The items of an element segment.
#[derive(Debug, Drop)]
pub enum ElementItems {
    /// Function indexes.
    Functions(Vec<u32>),
    /// Constant expressions of a reference type.
    Expressions(RefType, Vec<Constant>),
}

/// An element segment.
#[derive(Debug, Drop)]
pub struct ElementSegment {
    /// Its mode.
    pub mode: ElementMode,
    /// Its items.
    pub items: ElementItems,
}

/// The mode of a data segment.
#[derive(Clone, Copy, Debug)]
pub enum DataMode {
    /// Written into a memory when the module is instantiated.
    Active {
        /// The index of the memory.
        memory: u32,
        /// The address of the first byte that is written.
        offset: Constant,
    },
    /// Kept for instructions.
    Passive,
}

/// A data segment.
#[derive(Debug, Drop)]
pub struct DataSegment {
    /// Its mode.
    pub mode: DataMode,
    /// Its bytes.
    pub data: Vec<u8>,
}
