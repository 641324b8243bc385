//! The items that a module defines.

ghost use Rattle.std.specs.Prelude.{◌≡◌, ◌++◌, IfOk, map};
ghost use Rattle.wasm_encoder_sections.specs.CoreItems as written;
ghost use Rattle.wasm_gen_view.specs.ItemReferences.{refer};
ghost use Rattle.wasm_gen_view.specs.Types.{ref_type};
ghost use Rattle.wasm_gen_view.specs.Views.{global_type, memory_type, table_type};
ghost use Rattle.wasm_gen_view.specs.declared.types.TypeReference.TheVariants.{Other};
ghost use Rattle.wasm_smith_definitions.specs.Items.{element_items, element_segment, global, table};
ghost use Rattle.wasm_spec.specs.TypeReferences.{global_map, ref_map, table_map};
ghost use Rattle.wasm_validity.specs.Context.{element_type};

use crate::item_types::memory_type;
use crate::type_numbers::TypeNumbers;
use crate::types::{HeapType, RefType, TypePlace};
use crate::view::{GlobalType, MemoryType, TableType};
use std::alloc;
use std::alloc::AllocError;
use wasm_encoder_sections::entity_type;
use wasm_smith_definitions::items::{Global, Table};
use wasm_smith_definitions::segments::{ElementItems, ElementSegment};

/// Appends the types of these indexes.
pub(crate) fn push_types(
    numbers: &TypeNumbers,
    indexes: &[u32],
    places: &mut Vec<TypePlace>,
) -> Result<(), AllocError>
    ensures { IfOk result (λ _. map (λ place. Other place) places.new.items ≡ map (λ place. Other place) places.old.items ++ map (refer numbers.now) indexes.now) }
{
    for index in indexes {
        places.push(numbers.place(*index))?;
    }
    Ok(())
}

/// Appends the types of tables.
pub(crate) fn push_tables(
    numbers: &TypeNumbers,
    own: &[Table],
    tables: &mut Vec<TableType>,
) -> Result<(), AllocError>
    ensures { IfOk result (λ _. map table_type tables.new.items ≡ map table_type tables.old.items ++ map (table_map (refer numbers.now)) (map (λ table. table.type) (map table own.now))) }
{
    for table in own {
        tables.push(numbers.table_type(&table.ty))?;
    }
    Ok(())
}

/// Appends the types of memories.
pub(crate) fn push_memories(
    own: &[entity_type::MemoryType],
    memories: &mut Vec<MemoryType>,
) -> Result<(), AllocError>
    ensures { IfOk result (λ _. map memory_type memories.new.items ≡ map memory_type memories.old.items ++ map written.memory_type own.now) }
{
    for memory in own {
        memories.push(memory_type(memory))?;
    }
    Ok(())
}

/// Appends the types of globals.
pub(crate) fn push_globals(
    numbers: &TypeNumbers,
    own: &[Global],
    globals: &mut Vec<GlobalType>,
) -> Result<(), AllocError>
    ensures { IfOk result (λ _. map global_type globals.new.items ≡ map global_type globals.old.items ++ map (global_map (refer numbers.now)) (map (λ global. global.type) (map global own.now))) }
{
    for global in own {
        globals.push(numbers.global_type(&global.ty))?;
    }
    Ok(())
}

// Returns the type of the items of a segment.
fn element(numbers: &TypeNumbers, items: &ElementItems) -> RefType
    ensures { ref_type result ≡ ref_map (refer numbers.now) (element_type (element_items items.now)) }
{
    match items {
        ElementItems::Functions(_) => RefType {
            nullable: false,
            heap_type: HeapType::Func,
        },
        ElementItems::Expressions(ty, _) => numbers.references().ref_type(*ty),
    }
}

/// Returns the types of the items of segments.
///
/// # Errors
/// Where memory runs out.
pub(crate) fn elements(
    alloc: alloc::Global,
    numbers: &TypeNumbers,
    segments: &[ElementSegment],
) -> Result<Vec<RefType>, AllocError>
    ensures { IfOk result (λ types. map ref_type types.items ≡ map (ref_map (refer numbers.now)) (map (λ segment. element_type segment.items) (map element_segment segments.now))) }
{
    let mut types = Vec::new(alloc);
    for segment in segments {
        types.push(element(numbers, &segment.items))?;
    }
    Ok(types)
}
