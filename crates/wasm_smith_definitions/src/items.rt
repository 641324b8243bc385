//! Tables, globals and exports of a made module (Core Specification 3.0, Structure, "Modules").

use crate::constant::Constant;
use wasm_encoder_sections::entity_type::{ExportKind, GlobalType, TableType};

/// A table that the module defines.
#[derive(Clone, Copy, Debug)]
pub struct Table {
    /// Its type.
    pub ty: TableType,
    /// The first value of each element. Without one, elements are null.
    pub init: Option<Constant>,
}

/// A global that the module defines.
#[derive(Clone, Copy, Debug)]
pub struct Global {
    /// Its type.
    pub ty: GlobalType,
    /// Its first value.
    pub init: Constant,
}

/// An export.
#[derive(Debug, Drop)]
pub struct Export {
    /// Its name.
    pub name: String,
    /// The kind of the exported item.
    pub kind: ExportKind,
    /// The index of the exported item, in the index space of its kind.
    pub index: u32,
}
