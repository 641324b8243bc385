//! How many items imports may come to where they are drawn.

ghost use Rattle.std.specs.Prelude.{◌≡◌, ◌-◌, map};
ghost use Rattle.wasm_core_types.specs.SubTypes.{sub_type};
ghost use Rattle.wasm_smith_externs.specs.Bounds.{own_size, types_size};

use wasm_core_types::types::SubType;
use wasm_encoder_sections::entity_type::ExportKind;
use wasm_smith_config::config::Config;
use wasm_smith_definitions::function_types::function_size;
use wasm_smith_definitions::own_items::OwnItems;

/// The bounds on imports that are drawn, beside that on their number: how many items of each kind there are with them at most, and the greatest size of their
/// types together.
#[derive(Clone, Copy, Debug)]
pub struct ImportBounds {
    /// The most functions.
    pub functions: u32,
    /// The most tables.
    pub tables: u32,
    /// The most memories.
    pub memories: u32,
    /// The most globals.
    pub globals: u32,
    /// The most tags.
    pub tags: u32,
    /// The greatest size of all types together.
    pub type_size: u32,
}

impl ImportBounds {
    ghost use Rattle.std.specs.Prelude.{◌≡◌, map};
    ghost use Rattle.wasm_core_types.specs.SubTypes.{sub_type};
    ghost use Rattle.wasm_encoder_sections.specs.CoreItems.{export_kind};
    ghost use Rattle.wasm_smith_externs.specs.Bounds.{beside, most_in};

    /// Returns what the configuration allows beside such items of the module's own, whose types are among these.
    pub fn beside(config: &Config, types: &[SubType], own: &OwnItems) -> ImportBounds
        ensures { result ≡ beside config.now (map sub_type types.now) own.now }
    {
        ImportBounds {
            functions: left(config.max_funcs, own.functions().len()),
            tables: left(config.max_tables, own.tables().len()),
            memories: left(config.max_memories, own.memories().len()),
            globals: left(config.max_globals, own.globals().len()),
            tags: left(config.max_tags, own.tags().len()),
            type_size: size_left(config.max_type_size, types, own),
        }
    }

    /// Returns the most items of a kind.
    pub fn most(&self, kind: ExportKind) -> u32
        ensures { result ≡ most_in self.now (export_kind kind) }
    {
        match kind {
            ExportKind::Func => self.functions,
            ExportKind::Table => self.tables,
            ExportKind::Memory => self.memories,
            ExportKind::Global => self.globals,
            ExportKind::Tag => self.tags,
        }
    }
}

// Returns what is left of a bound.
fn left(most: u32, count: usize) -> u32
    ensures { result ≡ most - count }
{
    u64::from(most).saturating_sub(count as u64) as u32
}

// Returns what the types of functions or tags leave of a size.
fn left_by_types(size: u32, types: &[SubType], indexes: &[u32]) -> u32
    ensures { result ≡ size - types_size (map sub_type types.now) indexes.now }
{
    let mut rest = size;
    for index in indexes {
        rest = left(rest, function_size(types, *index));
    }
    rest
}

// Returns what the types of items leave of a size.
fn size_left(size: u32, types: &[SubType], own: &OwnItems) -> u32
    ensures { result ≡ size - own_size (map sub_type types.now) own.now }
{
    let rest = left_by_types(size, types, own.functions());
    let rest = left_by_types(rest, types, own.tags());
    let rest = left(rest, own.tables().len());
    let rest = left(rest, own.memories().len());
    left(rest, own.globals().len())
}
