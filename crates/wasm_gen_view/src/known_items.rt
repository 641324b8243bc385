//! The items of a valid module.

ghost use Rattle.std.specs.Prelude.{◌≡◌, IfOk, map};
ghost use Rattle.wasm_gen_view.specs.ItemReferences.{refer};
ghost use Rattle.wasm_gen_view.specs.Items.{AreItems};
ghost use Rattle.wasm_gen_view.specs.Types.{ref_type};
ghost use Rattle.wasm_gen_view.specs.Views.{global_type, memory_type, table_type};
ghost use Rattle.wasm_gen_view.specs.declared.types.TypeReference.TheVariants.{Other};
ghost use Rattle.wasm_spec.specs.TypeReferences.{global_map, ref_map, table_map};
ghost use Rattle.wasmparser_readers.specs.ItemTypes as written;
ghost use Rattle.wasmparser_types.specs.Index.{number_of};
ghost use Rattle.wasmparser_validator.specs.Shown.{spaces};

use crate::items::Items;
use crate::type_numbers::TypeNumbers;
use crate::types::{RefType, TypePlace};
use crate::view::{GlobalType, MemoryType, TableType};
use crate::written_types::{written_ref_type, written_val_type};
use std::alloc::{AllocError, Global};
use wasmparser_readers::{global_type, memory_type, table_type};
use wasmparser_types::ref_type;
use wasmparser_validator::types::TypesRef;

// Returns the memory type.
fn known_memory(ty: &memory_type::MemoryType) -> MemoryType
    ensures { memory_type result ≡ written.memory_type ty.now }
{
    MemoryType {
        minimum: ty.initial,
        maximum: ty.maximum,
        memory64: ty.memory64,
        shared: ty.shared,
        page_size_log2: ty.page_size_log2,
    }
}

impl TypeNumbers {
    // Returns the reference type over places.
    fn known_element(&self, ty: ref_type::RefType) -> RefType
        ensures { ref_type result ≡ ref_map (refer self.now) (ref_map number_of ty) }
    {
        self.references().ref_type(written_ref_type(ty))
    }

    // Returns the table type over places.
    fn known_table(&self, ty: &table_type::TableType) -> TableType
        ensures { table_type result ≡ table_map (refer self.now) (table_map number_of (written.table_type ty.now)) }
    {
        TableType {
            element_type: self.known_element(ty.element_type),
            minimum: ty.initial,
            maximum: ty.maximum,
            table64: ty.table64,
        }
    }

    // Returns the global type over places.
    fn known_global(&self, ty: &global_type::GlobalType) -> GlobalType
        ensures { global_type result ≡ global_map (refer self.now) (global_map number_of (written.global_type ty.now)) }
    {
        GlobalType {
            value_type: self
                .references()
                .val_type(written_val_type(&ty.content_type)),
            mutable: ty.mutable,
        }
    }
}

// Returns the type of each function.
fn functions(
    alloc: Global,
    numbers: &TypeNumbers,
    types: &TypesRef<'_>,
) -> Result<Vec<TypePlace>, AllocError>
    ensures { IfOk result (λ items. map (λ place. Other place) items.items ≡ map (refer numbers.now) (spaces types.now).functions) }
{
    let mut items = Vec::new(alloc);
    for index in 0..types.function_count() {
        items.push(numbers.place(types.type_index_of_function(index)))?;
    }
    Ok(items)
}

// Returns the tables.
fn tables(
    alloc: Global,
    numbers: &TypeNumbers,
    types: &TypesRef<'_>,
) -> Result<Vec<TableType>, AllocError>
    ensures { IfOk result (λ items. map (table_type) items.items ≡ map (table_map (refer numbers.now)) (spaces types.now).tables) }
{
    let mut items = Vec::new(alloc);
    for index in 0..types.table_count() {
        items.push(numbers.known_table(&types.written_table_at(index)))?;
    }
    Ok(items)
}

// Returns the memories.
fn memories(alloc: Global, types: &TypesRef<'_>) -> Result<Vec<MemoryType>, AllocError>
    ensures { IfOk result (λ items. map (memory_type) items.items ≡ (spaces types.now).memories) }
{
    let mut items = Vec::new(alloc);
    for index in 0..types.memory_count() {
        items.push(known_memory(&types.memory_at(index)))?;
    }
    Ok(items)
}

// Returns the globals.
fn globals(
    alloc: Global,
    numbers: &TypeNumbers,
    types: &TypesRef<'_>,
) -> Result<Vec<GlobalType>, AllocError>
    ensures { IfOk result (λ items. map (global_type) items.items ≡ map (global_map (refer numbers.now)) (spaces types.now).globals) }
{
    let mut items = Vec::new(alloc);
    for index in 0..types.global_count() {
        items.push(numbers.known_global(&types.written_global_at(index)))?;
    }
    Ok(items)
}

// Returns the function type of each tag.
fn tags(
    alloc: Global,
    numbers: &TypeNumbers,
    types: &TypesRef<'_>,
) -> Result<Vec<TypePlace>, AllocError>
    ensures { IfOk result (λ items. map (λ place. Other place) items.items ≡ map (refer numbers.now) (spaces types.now).tags) }
{
    let mut items = Vec::new(alloc);
    for index in 0..types.tag_count() {
        items.push(numbers.place(types.type_index_of_tag(index)))?;
    }
    Ok(items)
}

// Returns the type of the items of each element segment.
fn elements(
    alloc: Global,
    numbers: &TypeNumbers,
    types: &TypesRef<'_>,
) -> Result<Vec<RefType>, AllocError>
    ensures { IfOk result (λ items. map (ref_type) items.items ≡ map (ref_map (refer numbers.now)) (spaces types.now).elements) }
{
    let mut items = Vec::new(alloc);
    for index in 0..types.element_count() {
        items.push(numbers.known_element(types.written_element_at(index)))?;
    }
    Ok(items)
}

/// Returns the items of a module.
///
/// # Errors
/// Where memory runs out.
pub(crate) fn known_items(
    alloc: Global,
    numbers: &TypeNumbers,
    types: &TypesRef<'_>,
) -> Result<Items, AllocError>
    ensures { IfOk result (AreItems (refer numbers.now) (spaces types.now)) }
{
    Ok(Items {
        functions: functions(alloc, numbers, types)?,
        tables: tables(alloc, numbers, types)?,
        memories: memories(alloc, types)?,
        globals: globals(alloc, numbers, types)?,
        tags: tags(alloc, numbers, types)?,
        elements: elements(alloc, numbers, types)?,
    })
}
