//! Element segments (Core Specification, Structure, Modules, "Element Segments").

use wasm_core_types::types::RefType;
use wasm_encoder_bodies::const_expr::ConstExpr;

/// When the elements of a segment are used.
#[derive(Clone, Copy, Debug)]
pub enum ElementMode<'a> {
    /// They are put into a table as the module is instantiated.
    Active {
        /// The table. Where there is none it is table 0, which isn't written, unless the elements are expressions of another
        /// type than `funcref`: the format has no such form.
        table: Option<u32>,
        /// The first place in the table.
        offset: &'a ConstExpr,
    },
    /// They are put into tables by instructions.
    Passive,
    /// They are functions to which bodies may refer.
    Declared,
}

/// The elements of a segment.
#[derive(Clone, Copy, Debug)]
pub enum Elements<'a> {
    /// Functions, by their indexes.
    Functions(&'a [u32]),
    /// Expressions that give references of this type.
    Expressions(RefType, &'a [ConstExpr]),
}

/// An element segment.
#[derive(Clone, Copy, Debug)]
pub struct ElementSegment<'a> {
    /// When its elements are used.
    pub mode: ElementMode<'a>,
    /// Its elements.
    pub elements: Elements<'a>,
}
