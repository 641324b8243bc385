//! The items of a made module.

ghost use Rattle.std.specs.Prelude.{◌≡◌, ◌++◌, IfOk, map};
ghost use Rattle.wasm_encoder_sections.specs.CoreItems as written;
ghost use Rattle.wasm_gen_view.specs.ItemReferences.{refer};
ghost use Rattle.wasm_gen_view.specs.Items.{AreItems};
ghost use Rattle.wasm_gen_view.specs.MadeSpaces.{functions_among, globals_among, made_spaces, memories_among, tables_among, tags_among};
ghost use Rattle.wasm_gen_view.specs.Views.{global_type, item_type, memory_type, table_type};
ghost use Rattle.wasm_gen_view.specs.declared.types.TypeReference.TheVariants.{Other};
ghost use Rattle.wasm_smith_definitions.specs.Items.{global, table};
ghost use Rattle.wasm_spec.specs.TypeReferences.{global_map, table_map};

use crate::among::{functions_among, globals_among, memories_among, tables_among, tags_among};
use crate::imported::imported_items;
use crate::items::Items;
use crate::own_items::{elements, push_globals, push_memories, push_tables, push_types};
use crate::type_numbers::TypeNumbers;
use crate::types::{RefType, TypePlace};
use crate::view::{GlobalType, Item, MemoryType, TableType};
use std::alloc;
use std::alloc::AllocError;
use wasm_encoder_sections::entity_type;
use wasm_smith_definitions::items::{Global, Table};
use wasm_smith_module::module::Module;

// Returns the types of functions.
fn functions(
    alloc: alloc::Global,
    numbers: &TypeNumbers,
    imported: &[Item],
    own: &[u32],
) -> Result<Vec<TypePlace>, AllocError>
    ensures { IfOk result (λ functions. map (λ place. Other place) functions.items ≡ functions_among (map item_type imported.now) ++ map (refer numbers.now) own.now) }
{
    let mut functions = functions_among(alloc, imported)?;
    push_types(numbers, own, &mut functions)?;
    Ok(functions)
}

// Returns the tables.
fn tables(
    alloc: alloc::Global,
    numbers: &TypeNumbers,
    imported: &[Item],
    own: &[Table],
) -> Result<Vec<TableType>, AllocError>
    ensures { IfOk result (λ tables. map table_type tables.items ≡ tables_among (map item_type imported.now) ++ map (table_map (refer numbers.now)) (map (λ table. table.type) (map table own.now))) }
{
    let mut tables = tables_among(alloc, imported)?;
    push_tables(numbers, own, &mut tables)?;
    Ok(tables)
}

// Returns the memories.
fn memories(
    alloc: alloc::Global,
    imported: &[Item],
    own: &[entity_type::MemoryType],
) -> Result<Vec<MemoryType>, AllocError>
    ensures { IfOk result (λ memories. map memory_type memories.items ≡ memories_among (map item_type imported.now) ++ map written.memory_type own.now) }
{
    let mut memories = memories_among(alloc, imported)?;
    push_memories(own, &mut memories)?;
    Ok(memories)
}

// Returns the globals.
fn globals(
    alloc: alloc::Global,
    numbers: &TypeNumbers,
    imported: &[Item],
    own: &[Global],
) -> Result<Vec<GlobalType>, AllocError>
    ensures { IfOk result (λ globals. map global_type globals.items ≡ globals_among (map item_type imported.now) ++ map (global_map (refer numbers.now)) (map (λ global. global.type) (map global own.now))) }
{
    let mut globals = globals_among(alloc, imported)?;
    push_globals(numbers, own, &mut globals)?;
    Ok(globals)
}

// Returns the function types of tags.
fn tags(
    alloc: alloc::Global,
    numbers: &TypeNumbers,
    imported: &[Item],
    own: &[u32],
) -> Result<Vec<TypePlace>, AllocError>
    ensures { IfOk result (λ tags. map (λ place. Other place) tags.items ≡ tags_among (map item_type imported.now) ++ map (refer numbers.now) own.now) }
{
    let mut tags = tags_among(alloc, imported)?;
    push_types(numbers, own, &mut tags)?;
    Ok(tags)
}

/// Returns the items of a module.
///
/// # Errors
/// Where memory runs out.
pub(crate) fn made_items(
    alloc: alloc::Global,
    numbers: &TypeNumbers,
    made: &Module,
) -> Result<Items, AllocError>
    ensures { IfOk result (AreItems (refer numbers.now) (made_spaces made.now.made)) }
{
    let imported = imported_items(alloc, numbers, made.imports())?;
    let shown: &[Item] = &imported;
    Ok(Items {
        functions: functions(alloc, numbers, shown, made.funcs())?,
        tables: tables(alloc, numbers, shown, made.tables())?,
        memories: memories(alloc, shown, made.memories())?,
        globals: globals(alloc, numbers, shown, made.globals())?,
        tags: tags(alloc, numbers, shown, made.tags())?,
        elements: elements(alloc, numbers, made.elems())?,
    })
}
