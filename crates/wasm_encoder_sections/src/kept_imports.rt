//! Imports, as they are kept and written (Core Specification, Binary Format, Modules, "Import Section").

ghost use Rattle.std.specs.Prelude.{◌≡◌, ◌≤◌, ◌+◌, ◌++◌, map, length, vec_len, vec_capacity, IfOk, IfErr};
ghost use Rattle.wasm_encoder_sections.specs.CoreImports.{lent_item, lent_import, lent_entry, item_of, item_bytes, entry_of, entry_bytes};

use crate::entity_type::EntityType;
use crate::imports::{Import, ImportCompact, Imports};
use crate::names::{Name, kept_names};
use std::alloc::Global;
use wasm_core_write::encode_error::EncodeError;
use wasm_core_write::encoding::{Encoding, add_sizes, list_size, put_list};

/// One of several imports from a module, as it is kept.
#[derive(Debug, Drop)]
pub struct KeptItem {
    name: Name,
    ty: EntityType,
}

/// An import, or several that share the name of their module, as they are kept.
#[derive(Debug, Drop)]
pub enum KeptImports {
    Single {
        module: Name,
        name: Name,
        ty: EntityType,
    },
    Items {
        module: Name,
        items: Vec<KeptItem>,
    },
    Names {
        module: Name,
        ty: EntityType,
        names: Vec<Name>,
    },
}

impl Encoding for KeptItem {
    ghost encoding = { item_bytes };

    #[tactic(auto, using(wasm_spec::proofs::ListEncodings::parts), unfolding(crate::specs::CoreImports::item_bytes, crate::specs::CoreItems::name_bytes, crate::specs::CoreItems::entity_type_bytes, crate::specs::ItemEncodings::import_item_encoding))]
    fn size(&self) -> Result<u64, EncodeError> {
        add_sizes(self.name.size()?, self.ty.size()?)
    }

    #[tactic(auto, using(wasm_spec::proofs::ListEncodings::parts), unfolding(crate::specs::CoreImports::item_bytes, crate::specs::CoreItems::name_bytes, crate::specs::CoreItems::entity_type_bytes, crate::specs::ItemEncodings::import_item_encoding))]
    fn put(&self, sink: &mut Vec<u8>) {
        self.name.put(sink);
        self.ty.put(sink);
    }
}

// What stands between the module's name and what it shares.
const COMPACT: u8 = 0x00;

const ITEMS: u8 = 0x7f;

const NAMES: u8 = 0x7e;

impl Encoding for KeptImports {
    ghost encoding = { entry_bytes };

    #[tactic(auto, using(wasm_spec::proofs::ListEncodings::parts, crate::proofs::ImportLists::steps), unfolding(crate::specs::CoreImports::entry_bytes, crate::specs::CoreItems::name_bytes, crate::specs::CoreItems::entity_type_bytes, crate::specs::ItemEncodings::import_encoding))]
    fn size(&self) -> Result<u64, EncodeError> {
        match self {
            KeptImports::Single { module, name, ty } => {
                let item = add_sizes(name.size()?, ty.size()?)?;
                add_sizes(module.size()?, item)
            }
            KeptImports::Items { module, items } => {
                let items = add_sizes(2, list_size(items)?)?;
                add_sizes(module.size()?, items)
            }
            KeptImports::Names { module, ty, names } => {
                let names = add_sizes(add_sizes(2, ty.size()?)?, list_size(names)?)?;
                add_sizes(module.size()?, names)
            }
        }
    }

    #[tactic(auto, using(wasm_spec::proofs::ListEncodings::parts, crate::proofs::ImportLists::steps), unfolding(crate::specs::CoreImports::entry_bytes, crate::specs::CoreItems::name_bytes, crate::specs::CoreItems::entity_type_bytes, crate::specs::ItemEncodings::import_encoding))]
    fn put(&self, sink: &mut Vec<u8>) {
        match self {
            KeptImports::Single { module, name, ty } => {
                module.put(sink);
                name.put(sink);
                ty.put(sink);
            }
            KeptImports::Items { module, items } => {
                module.put(sink);
                sink.push_reserved(COMPACT);
                sink.push_reserved(ITEMS);
                put_list(items, sink);
            }
            KeptImports::Names { module, ty, names } => {
                module.put(sink);
                sink.push_reserved(COMPACT);
                sink.push_reserved(NAMES);
                ty.put(sink);
                put_list(names, sink);
            }
        }
    }
}

/// Returns a copy of imports.
///
/// # Errors
/// `Memory` alone.
pub fn kept_imports(alloc: Global, imports: &Imports<'_>) -> Result<KeptImports, EncodeError>
    ensures copied { IfOk result (λ kept. entry_of kept ≡ lent_entry imports.now) }
    ensures memory_alone { IfErr result (λ e. e ≡ EncodeError.Memory) }
{
    match imports {
        Imports::Single(import) => kept_import(alloc, import),
        Imports::Compact1 { module, items } => {
            let module = Name::new(alloc, module)?;
            let items = kept_items(alloc, items)?;
            Ok(KeptImports::Items { module, items })
        }
        Imports::Compact2 { module, ty, names } => {
            let module = Name::new(alloc, module)?;
            let names = kept_names(alloc, names)?;
            Ok(KeptImports::Names {
                module,
                ty: *ty,
                names,
            })
        }
    }
}

fn kept_import(alloc: Global, import: &Import<'_>) -> Result<KeptImports, EncodeError>
    ensures copied { IfOk result (λ kept. entry_of kept ≡ lent_import import.now) }
    ensures memory_alone { IfErr result (λ e. e ≡ EncodeError.Memory) }
{
    let module = Name::new(alloc, import.module)?;
    let name = Name::new(alloc, import.name)?;
    Ok(KeptImports::Single {
        module,
        name,
        ty: import.ty,
    })
}

#[tactic(auto, using(crate::proofs::KeptLoops::kept_steps))]
fn kept_items(alloc: Global, items: &[ImportCompact<'_>]) -> Result<Vec<KeptItem>, EncodeError>
    ensures copied { IfOk result (λ kept. map item_of kept.items ≡ map lent_item items.now) }
    ensures memory_alone { IfErr result (λ e. e ≡ EncodeError.Memory) }
{
    let mut kept = Vec::new(alloc);
    for item in items {
        let name = Name::new(alloc, item.name)?;
        kept.push(KeptItem { name, ty: item.ty })?;
    }
    Ok(kept)
}
