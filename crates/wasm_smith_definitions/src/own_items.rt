//! The items that exports ask a module to define.

ghost use Rattle.std.specs.Prelude.{◌≡◌};
ghost use Rattle.wasm_encoder_sections.specs.CoreItems.{entity_type, ref_type};
ghost use Rattle.wasm_smith_types.specs.Copies.{shifted_index};
ghost use Rattle.wasm_spec.specs.TypeReferences.{external_map, ref_map};

use std::alloc::{AllocError, Global};
use std::marker::Model;
use wasm_core_types::types::{HeapType, RefType};
use wasm_encoder_sections::entity_type::{EntityType, GlobalType, MemoryType, TableType, TagType};
use wasm_smith_shapes::shape::ShapeExport;
use wasm_smith_types::shifts::Shift;

/// The items that exports ask a module to define, kind by kind. Contracts see them as plain lists.
#[derive(Debug, Drop)]
pub struct OwnItems {
    functions: Vec<u32>,
    tables: Vec<TableType>,
    memories: Vec<MemoryType>,
    globals: Vec<GlobalType>,
    tags: Vec<u32>,
}

impl Model for OwnItems {
    ghost use Rattle.std.specs.Prelude.{map};
    ghost use Rattle.wasm_encoder_sections.specs.CoreItems.{global_type, memory_type, table_type};
    ghost use Rattle.wasm_smith_definitions.specs.OwnItems.{OwnValue};

    ghost Value = { OwnValue };

    ghost view = { λ own. record {
      functions = own.functions.items;
      tables = map table_type own.tables.items;
      memories = map memory_type own.memories.items;
      globals = map global_type own.globals.items;
      tags = own.tags.items;
    } };
}

// Returns the reference type with its references shifted.
fn shifted_reference(shift: Shift, reference: RefType) -> RefType
    ensures { ref_type result ≡ ref_map (shifted_index shift.start shift.by) (ref_type reference) }
{
    match reference.heap_type {
        HeapType::Concrete(index) => RefType {
            nullable: reference.nullable,
            heap_type: HeapType::Concrete(shift.index(index)),
        },
        HeapType::Abstract(_) => reference,
    }
}

/// Returns the type of an item with its references to types shifted. Numbers wrap at 2^32.
pub fn shifted_entity(shift: Shift, ty: &EntityType) -> EntityType
    ensures { entity_type result ≡ external_map (shifted_index shift.start shift.by) (entity_type ty.now) }
{
    match ty {
        EntityType::Function(index) => EntityType::Function(shift.index(*index)),
        EntityType::Table(ty) => EntityType::Table(TableType {
            element_type: shifted_reference(shift, ty.element_type),
            table64: ty.table64,
            minimum: ty.minimum,
            maximum: ty.maximum,
        }),
        EntityType::Memory(ty) => EntityType::Memory(*ty),
        EntityType::Global(ty) => EntityType::Global(GlobalType {
            val_type: shift.value(ty.val_type),
            mutable: ty.mutable,
        }),
        EntityType::Tag(ty) => EntityType::Tag(TagType {
            kind: ty.kind,
            func_type_idx: shift.index(ty.func_type_idx),
        }),
    }
}

impl OwnItems {
    ghost use Rattle.std.specs.Prelude.{◌≡◌, [], map, IfOk};
    ghost use Rattle.wasm_encoder_sections.specs.CoreItems.{entity_type, global_type, memory_type, table_type};
    ghost use Rattle.wasm_smith_definitions.specs.OwnItems.{own_items, with_one};
    ghost use Rattle.wasm_smith_types.specs.Copies.{shifted_index};
    ghost use Rattle.wasm_spec.specs.TypeReferences.{external_map};

    /// Returns no items.
    pub fn none(alloc: Global) -> OwnItems
        ensures { result ≡ own_items [] }
    {
        OwnItems {
            functions: Vec::new(alloc),
            tables: Vec::new(alloc),
            memories: Vec::new(alloc),
            globals: Vec::new(alloc),
            tags: Vec::new(alloc),
        }
    }

    /// Returns the items that these exports ask for, with their references to types shifted. Numbers wrap at 2^32.
    ///
    /// # Errors
    /// Where memory runs out.
    pub fn new(alloc: Global, exports: &[ShapeExport], shift: Shift) -> Result<OwnItems, AllocError>
        ensures { IfOk result (λ own. own ≡ own_items (map (external_map (shifted_index shift.start shift.by)) (map (λ export. entity_type export.ty) exports.now))) }
    {
        let mut own = OwnItems::none(alloc);
        for export in exports {
            own.push(shifted_entity(shift, &export.ty))?;
        }
        Ok(own)
    }

    // Adds an item of a type.
    fn push(&mut self, ty: EntityType) -> Result<(), AllocError>
        ensures { IfOk result (λ _. self.new ≡ with_one self.old (entity_type ty)) }
    {
        match ty {
            EntityType::Function(index) => self.functions.push(index)?,
            EntityType::Table(ty) => self.tables.push(ty)?,
            EntityType::Memory(ty) => self.memories.push(ty)?,
            EntityType::Global(ty) => self.globals.push(ty)?,
            EntityType::Tag(ty) => self.tags.push(ty.func_type_idx)?,
        }
        Ok(())
    }

    /// Returns the type index of each function.
    pub fn functions(&self) -> &[u32]
        ensures { result.now ≡ self.now.functions }
    {
        &self.functions
    }

    /// Returns the type of each table.
    pub fn tables(&self) -> &[TableType]
        ensures { map table_type result.now ≡ self.now.tables }
    {
        &self.tables
    }

    /// Returns the type of each memory.
    pub fn memories(&self) -> &[MemoryType]
        ensures { map memory_type result.now ≡ self.now.memories }
    {
        &self.memories
    }

    /// Returns the type of each global.
    pub fn globals(&self) -> &[GlobalType]
        ensures { map global_type result.now ≡ self.now.globals }
    {
        &self.globals
    }

    /// Returns the type index of each tag.
    pub fn tags(&self) -> &[u32]
        ensures { result.now ≡ self.now.tags }
    {
        &self.tags
    }
}
