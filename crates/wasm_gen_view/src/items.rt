//! The items of a module, with references of a view.

ghost use Rattle.std.specs.Prelude.{◌≡◌, option_map};
ghost use Rattle.wasm_encoder_sections.specs.CoreItems.{export_kind};
ghost use Rattle.wasm_gen_view.specs.Items.{item_among};
ghost use Rattle.wasm_gen_view.specs.Views.{item_type};

use crate::types::{RefType, TypePlace};
use crate::view::{GlobalType, Item, MemoryType, TableType};
use wasm_encoder_sections::entity_type::ExportKind;

/// The items of a module, imported ones first.
#[derive(Drop)]
pub(crate) struct Items {
    /// The type of each function.
    pub(crate) functions: Vec<TypePlace>,
    /// The tables.
    pub(crate) tables: Vec<TableType>,
    /// The memories.
    pub(crate) memories: Vec<MemoryType>,
    /// The globals.
    pub(crate) globals: Vec<GlobalType>,
    /// The function type of each tag.
    pub(crate) tags: Vec<TypePlace>,
    /// The type of the items of each element segment.
    pub(crate) elements: Vec<RefType>,
}

impl Items {
    /// Returns the item of a kind with an index.
    pub(crate) fn item(&self, kind: ExportKind, index: u32) -> Option<Item>
        ensures { option_map item_type result ≡ item_among self.now (export_kind kind) index }
    {
        let index = index as usize;
        match kind {
            ExportKind::Func => {
                let place = self.functions.get(index)?;
                Some(Item::Function(*place))
            }
            ExportKind::Table => {
                let ty = self.tables.get(index)?;
                Some(Item::Table(*ty))
            }
            ExportKind::Memory => {
                let ty = self.memories.get(index)?;
                Some(Item::Memory(*ty))
            }
            ExportKind::Global => {
                let ty = self.globals.get(index)?;
                Some(Item::Global(*ty))
            }
            ExportKind::Tag => {
                let place = self.tags.get(index)?;
                Some(Item::Tag(*place))
            }
        }
    }
}
