//! The imported items of each kind.

ghost use Rattle.std.specs.Prelude.{◌≡◌, IfOk, map};
ghost use Rattle.wasm_gen_view.specs.MadeSpaces.{functions_among, globals_among, memories_among, tables_among, tags_among};
ghost use Rattle.wasm_gen_view.specs.Views.{global_type, item_type, memory_type, table_type};
ghost use Rattle.wasm_gen_view.specs.declared.types.TypeReference.TheVariants.{Other};

use crate::types::TypePlace;
use crate::view::{GlobalType, Item, MemoryType, TableType};
use std::alloc;
use std::alloc::AllocError;

/// Returns the types of the functions among these items.
pub(crate) fn functions_among(
    alloc: alloc::Global,
    items: &[Item],
) -> Result<Vec<TypePlace>, AllocError>
    ensures { IfOk result (λ functions. map (λ place. Other place) functions.items ≡ functions_among (map item_type items.now)) }
{
    let mut functions = Vec::new(alloc);
    for item in items {
        if let Item::Function(place) = item {
            functions.push(*place)?;
        }
    }
    Ok(functions)
}

/// Returns the tables among these items.
pub(crate) fn tables_among(
    alloc: alloc::Global,
    items: &[Item],
) -> Result<Vec<TableType>, AllocError>
    ensures { IfOk result (λ tables. map table_type tables.items ≡ tables_among (map item_type items.now)) }
{
    let mut tables = Vec::new(alloc);
    for item in items {
        if let Item::Table(ty) = item {
            tables.push(*ty)?;
        }
    }
    Ok(tables)
}

/// Returns the memories among these items.
pub(crate) fn memories_among(
    alloc: alloc::Global,
    items: &[Item],
) -> Result<Vec<MemoryType>, AllocError>
    ensures { IfOk result (λ memories. map memory_type memories.items ≡ memories_among (map item_type items.now)) }
{
    let mut memories = Vec::new(alloc);
    for item in items {
        if let Item::Memory(ty) = item {
            memories.push(*ty)?;
        }
    }
    Ok(memories)
}

/// Returns the globals among these items.
pub(crate) fn globals_among(
    alloc: alloc::Global,
    items: &[Item],
) -> Result<Vec<GlobalType>, AllocError>
    ensures { IfOk result (λ globals. map global_type globals.items ≡ globals_among (map item_type items.now)) }
{
    let mut globals = Vec::new(alloc);
    for item in items {
        if let Item::Global(ty) = item {
            globals.push(*ty)?;
        }
    }
    Ok(globals)
}

/// Returns the types of the tags among these items.
pub(crate) fn tags_among(alloc: alloc::Global, items: &[Item]) -> Result<Vec<TypePlace>, AllocError>
    ensures { IfOk result (λ tags. map (λ place. Other place) tags.items ≡ tags_among (map item_type items.now)) }
{
    let mut tags = Vec::new(alloc);
    for item in items {
        if let Item::Tag(place) = item {
            tags.push(*place)?;
        }
    }
    Ok(tags)
}
