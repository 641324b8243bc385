//! The index spaces of a module in the making (Core Specification 3.0, Structure, Modules, "Indices").

ghost use Rattle.std.specs.Prelude.{◌≡◌, ◌++◌, slice_get};

use crate::items::Export;
use std::alloc::{AllocError, Global};
use std::marker::Model;
use wasm_core_types::types::SubType;
use wasm_encoder_sections::entity_type::{
    EntityType, ExportKind, GlobalType, MemoryType, TableType, TagType,
};

/// The index spaces of a module in the making. Contracts see them as plain lists.
#[derive(Debug, Drop)]
pub struct IndexSpaces<'a> {
    types: &'a [SubType],
    imported_functions: Vec<u32>,
    own_functions: Vec<u32>,
    tables: Vec<TableType>,
    memories: Vec<MemoryType>,
    tags: Vec<u32>,
    imported_globals: Vec<GlobalType>,
    own_globals: Vec<GlobalType>,
    exports: Vec<Export>,
    element_segments: usize,
    data_segments: usize,
}

impl<'a> Model for IndexSpaces<'a> {
    ghost use Rattle.std.specs.Prelude.{map};
    ghost use Rattle.wasm_core_types.specs.SubTypes.{sub_type};
    ghost use Rattle.wasm_encoder_sections.specs.CoreItems.{global_type, memory_type, table_type};
    ghost use Rattle.wasm_smith_definitions.specs.Items.{export};
    ghost use Rattle.wasm_smith_validity.specs.Spaces.{Spaces};

    ghost Value = { Spaces };

    ghost view = { λ s. record {
      types = map sub_type s.types.now;
      imported_functions = s.imported_functions.items;
      own_functions = s.own_functions.items;
      tables = map table_type s.tables.items;
      memories = map memory_type s.memories.items;
      tags = s.tags.items;
      imported_globals = map global_type s.imported_globals.items;
      own_globals = map global_type s.own_globals.items;
      exports = map export s.exports.items;
      element_segments = s.element_segments;
      data_segments = s.data_segments;
    } };
}

// Returns the item of an index in two lists, one after the other.
fn item_of(front: &[GlobalType], back: &[GlobalType], index: usize) -> Option<GlobalType>
    ensures { result ≡ slice_get (front.now ++ back.now) index }
{
    if index < front.len() {
        return Some(front[index]);
    }
    back.get(index - front.len()).copied()
}

impl<'a> IndexSpaces<'a> {
    ghost use Rattle.std.specs.Prelude.{◌≡◌, ◌∷◌, ◌++◌, ◌≤◌, ◌<◌, ◌+◌, ◌^◌, suc, [], length, map, nat_lt, option_map, slice_get, IfOk, IfErr};
    ghost use Rattle.wasm_core_types.specs.SubTypes.{sub_type};
    ghost use Rattle.wasm_encoder_sections.specs.CoreItems.{entity_type, export_kind, global_type, memory_type, table_type};
    ghost use Rattle.wasm_smith_definitions.specs.Items.{export};
    ghost use Rattle.wasm_smith_definitions.specs.Kinds.{count_of};
    ghost use Rattle.wasm_smith_validity.specs.Spaces.{functions_of, globals_of, spaces_of_types, with_item};

    /// Returns spaces that are empty but for these types.
    pub fn new(alloc: Global, types: &'a [SubType]) -> Self
        ensures { result ≡ spaces_of_types (map sub_type types.now) }
    {
        IndexSpaces {
            types,
            imported_functions: Vec::new(alloc),
            own_functions: Vec::new(alloc),
            tables: Vec::new(alloc),
            memories: Vec::new(alloc),
            tags: Vec::new(alloc),
            imported_globals: Vec::new(alloc),
            own_globals: Vec::new(alloc),
            exports: Vec::new(alloc),
            element_segments: 0,
            data_segments: 0,
        }
    }

    /// Returns the types.
    pub fn types(&self) -> &'a [SubType]
        ensures { map sub_type result.now ≡ self.now.types }
    {
        self.types
    }

    /// Returns the number of types that have an index of 32 bits.
    pub fn type_count(&self) -> u32
        ensures most { result ≤ length self.now.types }
        ensures all { length self.now.types < 2 ^ 32 → result ≡ length self.now.types }
    {
        self.types.len().min(u32::MAX as usize) as u32
    }

    /// Returns the number of functions that have an index of 32 bits.
    pub fn function_count(&self) -> u32
        ensures most { result ≤ length (functions_of self.now) }
        ensures all { length (functions_of self.now) < 2 ^ 32 → result ≡ length (functions_of self.now) }
    {
        self.imported_functions
            .len()
            .saturating_add(self.own_functions.len())
            .min(u32::MAX as usize) as u32
    }

    /// Returns the type index of a function.
    pub fn function(&self, index: u32) -> Option<u32>
        ensures { result ≡ slice_get (functions_of self.now) index }
    {
        let index = index as usize;
        let imported = self.imported_functions.len();
        if index < imported {
            return Some(self.imported_functions[index]);
        }
        self.own_functions.get(index - imported).copied()
    }

    /// Returns the number of globals that have an index of 32 bits.
    pub fn global_count(&self) -> u32
        ensures most { result ≤ length (globals_of self.now) }
        ensures all { length (globals_of self.now) < 2 ^ 32 → result ≡ length (globals_of self.now) }
    {
        self.imported_globals
            .len()
            .saturating_add(self.own_globals.len())
            .min(u32::MAX as usize) as u32
    }

    /// Returns the type of a global.
    #[tactic(auto, using(crate::proofs::SpaceLaws::get_mapped))]
    pub fn global(&self, index: u32) -> Option<GlobalType>
        ensures { option_map global_type result ≡ slice_get (globals_of self.now) index }
    {
        item_of(&self.imported_globals, &self.own_globals, index as usize)
    }

    /// Checks that a global is imported.
    pub fn is_imported(&self, global: u32) -> bool
        ensures { result ≡ nat_lt global (length self.now.imported_globals) }
    {
        (global as usize) < self.imported_globals.len()
    }

    /// Returns the type of a table.
    #[tactic(auto, using(crate::proofs::SpaceLaws::got_mapped))]
    pub fn table(&self, index: u32) -> Option<TableType>
        ensures { option_map table_type result ≡ slice_get self.now.tables index }
    {
        self.tables.get(index as usize).copied()
    }

    /// Returns the type of a memory.
    #[tactic(auto, using(crate::proofs::SpaceLaws::got_mapped))]
    pub fn memory(&self, index: u32) -> Option<MemoryType>
        ensures { option_map memory_type result ≡ slice_get self.now.memories index }
    {
        self.memories.get(index as usize).copied()
    }

    /// Returns the type index of a tag.
    pub fn tag(&self, index: u32) -> Option<u32>
        ensures { result ≡ slice_get self.now.tags index }
    {
        self.tags.get(index as usize).copied()
    }

    /// Returns the exports.
    pub fn exports(&self) -> &[Export]
        ensures { map export result.now ≡ self.now.exports }
    {
        &self.exports
    }

    /// Returns the number of items of a kind.
    pub fn count_of(&self, kind: ExportKind) -> usize
        ensures { result ≡ count_of self.now (export_kind kind) }
    {
        match kind {
            ExportKind::Func => self.imported_functions.len() + self.own_functions.len(),
            ExportKind::Table => self.tables.len(),
            ExportKind::Memory => self.memories.len(),
            ExportKind::Global => self.imported_globals.len() + self.own_globals.len(),
            ExportKind::Tag => self.tags.len(),
        }
    }

    /// Returns the number of element segments.
    pub fn element_segment_count(&self) -> usize
        ensures { result ≡ self.now.element_segments }
    {
        self.element_segments
    }

    /// Returns the number of data segments.
    pub fn data_segment_count(&self) -> usize
        ensures { result ≡ self.now.data_segments }
    {
        self.data_segments
    }

    /// Adds an imported item.
    ///
    /// # Errors
    /// Where memory runs out. Nothing is added then.
    pub fn push_import(&mut self, ty: EntityType) -> Result<(), AllocError>
        ensures added { IfOk result (λ _. self.new ≡ with_item self.old (entity_type ty)) }
        ensures kept { IfErr result (λ _. self.new ≡ self.old) }
    {
        match ty {
            EntityType::Function(index) => self.imported_functions.push(index)?,
            EntityType::Table(ty) => self.tables.push(ty)?,
            EntityType::Memory(ty) => self.memories.push(ty)?,
            EntityType::Global(ty) => self.imported_globals.push(ty)?,
            EntityType::Tag(ty) => self.tags.push(ty.func_type_idx)?,
        }
        Ok(())
    }

    /// Adds a function of the module's own, of the type of this index.
    ///
    /// # Errors
    /// Where memory runs out. Nothing is added then.
    pub fn push_function(&mut self, index: u32) -> Result<(), AllocError>
        ensures added { IfOk result (λ _. self.new ≡ record self.old { own_functions = self.old.own_functions ++ index ∷ [] }) }
        ensures kept { IfErr result (λ _. self.new ≡ self.old) }
    {
        self.own_functions.push(index)?;
        Ok(())
    }

    /// Adds a table of the module's own.
    ///
    /// # Errors
    /// Where memory runs out. Nothing is added then.
    pub fn push_table(&mut self, ty: TableType) -> Result<(), AllocError>
        ensures added { IfOk result (λ _. self.new ≡ record self.old { tables = self.old.tables ++ table_type ty ∷ [] }) }
        ensures kept { IfErr result (λ _. self.new ≡ self.old) }
    {
        self.tables.push(ty)?;
        Ok(())
    }

    /// Adds a memory of the module's own.
    ///
    /// # Errors
    /// Where memory runs out. Nothing is added then.
    pub fn push_memory(&mut self, ty: MemoryType) -> Result<(), AllocError>
        ensures added { IfOk result (λ _. self.new ≡ record self.old { memories = self.old.memories ++ memory_type ty ∷ [] }) }
        ensures kept { IfErr result (λ _. self.new ≡ self.old) }
    {
        self.memories.push(ty)?;
        Ok(())
    }

    /// Adds a tag of the module's own, of the type of this index.
    ///
    /// # Errors
    /// Where memory runs out. Nothing is added then.
    pub fn push_tag(&mut self, index: u32) -> Result<(), AllocError>
        ensures added { IfOk result (λ _. self.new ≡ record self.old { tags = self.old.tags ++ index ∷ [] }) }
        ensures kept { IfErr result (λ _. self.new ≡ self.old) }
    {
        self.tags.push(index)?;
        Ok(())
    }

    /// Adds a global of the module's own.
    ///
    /// # Errors
    /// Where memory runs out. Nothing is added then.
    pub fn push_global(&mut self, ty: GlobalType) -> Result<(), AllocError>
        ensures added { IfOk result (λ _. self.new ≡ record self.old { own_globals = self.old.own_globals ++ global_type ty ∷ [] }) }
        ensures kept { IfErr result (λ _. self.new ≡ self.old) }
    {
        self.own_globals.push(ty)?;
        Ok(())
    }

    /// Adds an export.
    ///
    /// # Errors
    /// Where memory runs out. Nothing is added then.
    pub fn push_export(&mut self, item: Export) -> Result<(), AllocError>
        ensures added { IfOk result (λ _. self.new ≡ record self.old { exports = self.old.exports ++ export item ∷ [] }) }
        ensures kept { IfErr result (λ _. self.new ≡ self.old) }
    {
        self.exports.push(item)?;
        Ok(())
    }

    /// Counts an element segment.
    pub fn add_element_segment(&mut self)
        requires { self.old.element_segments < 2 ^ 32 }
        ensures { self.new ≡ record self.old { element_segments = suc self.old.element_segments } }
    {
        self.element_segments += 1;
    }

    /// Counts a data segment.
    pub fn add_data_segment(&mut self)
        requires { self.old.data_segments < 2 ^ 32 }
        ensures { self.new ≡ record self.old { data_segments = suc self.old.data_segments } }
    {
        self.data_segments += 1;
    }

    /// Returns the exports by themselves.
    pub fn into_exports(self) -> Vec<Export>
        ensures { map export result.items ≡ self.entry.exports }
    {
        self.exports
    }
}
