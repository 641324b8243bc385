//! The limits past which a module is refused.

ghost use Rattle.std.specs.Prelude.{◌≡◌};
ghost use Rattle.wasm_spec.specs.Limits.{total_of_types};

use std::fmt;
use thiserror::Error;

// The numbers of the limits. A limit is passed by a greater number. The format itself has none of these but the length; the
// appendix "Implementation Limitations" of the Core Specification lets a validator have them.

/// The limit [`Limit::Types`].
pub const MAX_WASM_TYPES: u64 = 1_000_000;

/// The limit [`Limit::Groups`].
pub const MAX_WASM_REC_GROUPS: u64 = 1_000_000;

/// The limit [`Limit::Imports`].
pub const MAX_WASM_IMPORTS: u64 = 1_000_000;

/// The limit [`Limit::Functions`].
pub const MAX_WASM_FUNCTIONS: u64 = 1_000_000;

/// The limit [`Limit::Globals`].
pub const MAX_WASM_GLOBALS: u64 = 1_000_000;

/// The limit [`Limit::Tags`].
pub const MAX_WASM_TAGS: u64 = 1_000_000;

/// The limit [`Limit::Exports`].
pub const MAX_WASM_EXPORTS: u64 = 1_000_000;

/// The limit [`Limit::Tables`].
pub const MAX_WASM_TABLES: u64 = 100;

/// The limit [`Limit::Memories`].
pub const MAX_WASM_MEMORIES: u64 = 100;

/// The limit [`Limit::ElementSegments`].
pub const MAX_WASM_ELEMENT_SEGMENTS: u64 = 100_000;

/// The limit [`Limit::DataSegments`].
pub const MAX_WASM_DATA_SEGMENTS: u64 = 100_000;

/// The limit [`Limit::SegmentEntries`].
pub const MAX_WASM_SEGMENT_ENTRIES: u64 = 10_000_000;

/// The limit [`Limit::Params`].
pub const MAX_WASM_FUNCTION_PARAMS: u64 = 1_000;

/// The limit [`Limit::Results`].
pub const MAX_WASM_FUNCTION_RETURNS: u64 = 1_000;

/// The limit [`Limit::Fields`].
pub const MAX_WASM_STRUCT_FIELDS: u64 = 10_000;

/// The limit [`Limit::Locals`].
pub const MAX_WASM_FUNCTION_LOCALS: u64 = 50_000;

/// The limit [`Limit::BodySize`].
pub const MAX_WASM_FUNCTION_SIZE: u64 = 7_654_321;

/// The limit [`Limit::Name`].
pub const MAX_WASM_STRING_SIZE: u64 = 100_000;

/// The limit [`Limit::TypeSize`].
pub const MAX_WASM_TYPE_SIZE: u64 = 999_999;

/// The limit [`Limit::Depth`].
pub const MAX_WASM_SUBTYPING_DEPTH: u64 = 63;

/// The limit [`Limit::Length`].
pub const MAX_WASM_LENGTH: u64 = 4_294_967_295;

/// The most types that one validator holds over all of its modules.
pub const MAX_WASM_TOTAL_TYPES: u64 = 1_048_576;

/// [`MAX_WASM_TOTAL_TYPES`], as contracts cite it.
pub fn max_total_types() -> u64
    ensures { result ≡ total_of_types }
{
    MAX_WASM_TOTAL_TYPES
}

/// A limit that a module can pass. It is shown as its name.
#[derive(Clone, Copy, Debug, PartialEq, Eq, Hash, Error)]
pub enum Limit {
    /// Types in the index space.
    Types,
    /// Entries of the type section.
    Groups,
    /// Entries of the import section.
    Imports,
    /// Functions, imported ones counted.
    Functions,
    /// Globals, imported ones counted.
    Globals,
    /// Tags, imported ones counted.
    Tags,
    /// Exports.
    Exports,
    /// Tables, imported ones counted.
    Tables,
    /// Memories, imported ones counted.
    Memories,
    /// Element segments.
    ElementSegments,
    /// Data segments.
    DataSegments,
    /// Items of one element segment.
    SegmentEntries,
    /// Parameters of a function type.
    Params,
    /// Results of a function type.
    Results,
    /// Fields of a structure type.
    Fields,
    /// Locals of a function, its parameters counted.
    Locals,
    /// Bytes of a function body.
    BodySize,
    /// Bytes of the name of an import, an export or a custom section.
    Name,
    /// The size that a module's imports and exports have as a type.
    TypeSize,
    /// Supertypes above a type.
    Depth,
    /// What the format can state as a count, a size or a length.
    Length,
}

impl Limit {
    ghost use Rattle.std.specs.Prelude.{◌≡◌};
    ghost use Rattle.wasm_spec.specs.Limits.{most};
    ghost use Rattle.wasm_core_types.specs.Limits.{limit, limit_name};

    /// The name of its case.
    pub fn name(&self) -> &'static str
        ensures { result.now ≡ limit_name self.now }
    {
        match self {
            Limit::Types => "Types",
            Limit::Groups => "Groups",
            Limit::Imports => "Imports",
            Limit::Functions => "Functions",
            Limit::Globals => "Globals",
            Limit::Tags => "Tags",
            Limit::Exports => "Exports",
            Limit::Tables => "Tables",
            Limit::Memories => "Memories",
            Limit::ElementSegments => "ElementSegments",
            Limit::DataSegments => "DataSegments",
            Limit::SegmentEntries => "SegmentEntries",
            Limit::Params => "Params",
            Limit::Results => "Results",
            Limit::Fields => "Fields",
            Limit::Locals => "Locals",
            Limit::BodySize => "BodySize",
            Limit::Name => "Name",
            Limit::TypeSize => "TypeSize",
            Limit::Depth => "Depth",
            Limit::Length => "Length",
        }
    }

    /// The greatest number that the limit lets through.
    pub fn max(self) -> u64
        ensures { result ≡ most (limit self) }
    {
        match self {
            Limit::Types => MAX_WASM_TYPES,
            Limit::Groups => MAX_WASM_REC_GROUPS,
            Limit::Imports => MAX_WASM_IMPORTS,
            Limit::Functions => MAX_WASM_FUNCTIONS,
            Limit::Globals => MAX_WASM_GLOBALS,
            Limit::Tags => MAX_WASM_TAGS,
            Limit::Exports => MAX_WASM_EXPORTS,
            Limit::Tables => MAX_WASM_TABLES,
            Limit::Memories => MAX_WASM_MEMORIES,
            Limit::ElementSegments => MAX_WASM_ELEMENT_SEGMENTS,
            Limit::DataSegments => MAX_WASM_DATA_SEGMENTS,
            Limit::SegmentEntries => MAX_WASM_SEGMENT_ENTRIES,
            Limit::Params => MAX_WASM_FUNCTION_PARAMS,
            Limit::Results => MAX_WASM_FUNCTION_RETURNS,
            Limit::Fields => MAX_WASM_STRUCT_FIELDS,
            Limit::Locals => MAX_WASM_FUNCTION_LOCALS,
            Limit::BodySize => MAX_WASM_FUNCTION_SIZE,
            Limit::Name => MAX_WASM_STRING_SIZE,
            Limit::TypeSize => MAX_WASM_TYPE_SIZE,
            Limit::Depth => MAX_WASM_SUBTYPING_DEPTH,
            Limit::Length => MAX_WASM_LENGTH,
        }
    }
}

impl fmt::Display for Limit {
    fn fmt<W: fmt::Write>(&self, f: &mut fmt::Formatter<W>) -> fmt::Result {
        f.write_str(self.name())
    }
}
