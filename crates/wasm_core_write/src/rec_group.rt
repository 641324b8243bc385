//! The entries of a type section that is built.

use wasm_core_types::types::SubType;

/// An entry of a type section: a recursive group (Core Specification, Structure, Types, "Recursive Types").
#[derive(Debug, Drop)]
pub enum RecGroup {
    /// A sub type by itself.
    Single(SubType),
    /// A group that is written out, of any number of sub types.
    Group(Vec<SubType>),
}
