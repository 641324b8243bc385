//! Places in a module.

/// A place in a module: the innermost of its parts that has a byte, or that the bytes do not have whole. A section is named by its id. Functions are
/// counted as their indexes are, imported ones first.
#[derive(Clone, Copy, Debug, PartialEq, Eq)]
pub enum Place {
    /// The header.
    Header,
    /// A section, outside of its entries: its id, its size, the number of its entries, or what follows these.
    Section {
        /// The id.
        id: u8,
    },
    /// An entry of a section.
    Entry {
        /// The section's id.
        id: u8,
        /// The number of entries before it.
        number: u32,
    },
    /// The size of a function's body.
    Function {
        /// The function's index.
        function: u64,
    },
    /// The locals of a function.
    Locals {
        /// The function's index.
        function: u64,
    },
    /// An operator of a function's body.
    Operator {
        /// The function's index.
        function: u64,
        /// The number of operators before it.
        number: u64,
        /// Its name in the text format, which is empty where no operator has the code.
        name: &'static str,
    },
    /// The module's end.
    End,
}
