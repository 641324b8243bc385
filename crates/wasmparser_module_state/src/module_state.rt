//! The state of a module after some of its entries.

ghost use Rattle.std.specs.Prelude.{◌≡◌, ◌+◌, ◌≤◌, [], IfErr, IfOk, false, length, true};
ghost use Rattle.wasm_core_types.specs.Features.{feature_set};
ghost use Rattle.wasm_spec.specs.Limits.{Types, most};
ghost use Rattle.wasm_validity.specs.Context.{at_first};
ghost use Rattle.wasmparser_module_state.specs.History.{grows, held};
ghost use Rattle.wasmparser_module_state.specs.State.{context, features_of};

use crate::element_types::ElementTypes;
use crate::function_set::FunctionSet;
use std::alloc::{AllocError, Global};
use std::mem;
use wasm_core_types::features::WasmFeatures;
use wasmparser_constants::operands::Operands;
use wasmparser_error::error::{Error, ErrorKind};
use wasmparser_module_types::module_types::ModuleTypes;
use wasmparser_names::export_names::ExportNames;
use wasmparser_names::import_names::ImportNames;
use wasmparser_readers::global_type::GlobalType;
use wasmparser_readers::memory_type::MemoryType;
use wasmparser_readers::table_type::TableType;

/// The index spaces after the entries so far.
#[derive(Drop)]
pub struct ModuleState {
    pub(crate) types: ModuleTypes,
    pub(crate) imports: u32,
    pub(crate) imported: ImportNames,
    pub(crate) imported_functions: Vec<u32>,
    pub(crate) own_functions: Vec<u32>,
    pub(crate) tables: Vec<TableType>,
    pub(crate) memories: Vec<MemoryType>,
    pub(crate) tags: Vec<u32>,
    pub(crate) imported_globals: Vec<GlobalType>,
    pub(crate) own_globals: Vec<GlobalType>,
    pub(crate) exports: ExportNames,
    pub(crate) elements: ElementTypes,
    pub(crate) declared: FunctionSet,
    pub(crate) stated_data_count: Option<u32>,
    pub(crate) segments: u32,
    pub(crate) type_size: u32,
    // (kept for its room alone: contracts don't see it)
    pub(crate) operands: Operands,
}

// Returns a refusal at a place.
pub(crate) fn refusal(offset: u64, kind: ErrorKind) -> Error
    ensures { result ≡ record { offset = offset; kind = kind } }
{
    Error { offset, kind }
}

impl ModuleState {
    /// Creates the state before the first entry, under these features, with a list without types.
    pub fn new(alloc: Global, features: WasmFeatures) -> ModuleState
        ensures nothing { context result ≡ at_first }
        ensures no_types { held result ≡ [] }
        ensures features { features_of result ≡ feature_set features }
        ensures grows { grows result ≡ true }
    {
        ModuleState::with_list(alloc, ModuleTypes::new(alloc, features))
    }

    // Returns the state before the first entry, with the list of types of earlier modules.
    fn with_list(alloc: Global, mut types: ModuleTypes) -> ModuleState
        ensures nothing { context result ≡ at_first }
        ensures list { result.types ≡ record types { types = []; groups = 0; ids = [] } }
    {
        types.forget_module();
        ModuleState::with_types(alloc, types)
    }

    // Creates the state of a module that has these types alone.
    pub(crate) fn with_types(alloc: Global, types: ModuleTypes) -> ModuleState
        ensures types_alone { context result ≡ record at_first { types = types.types; groups = types.groups } }
        ensures types { result.types ≡ types }
    {
        ModuleState {
            types,
            imports: 0,
            imported: ImportNames::new(alloc),
            imported_functions: Vec::new(alloc),
            own_functions: Vec::new(alloc),
            tables: Vec::new(alloc),
            memories: Vec::new(alloc),
            tags: Vec::new(alloc),
            imported_globals: Vec::new(alloc),
            own_globals: Vec::new(alloc),
            exports: ExportNames::new(alloc),
            elements: ElementTypes::new(alloc),
            declared: FunctionSet::new(alloc),
            stated_data_count: None,
            segments: 0,
            type_size: 1,
            operands: Operands::new(alloc),
        }
    }

    /// Gives what is known of a module that ends, with a copy of the list that doesn't grow, and goes on with the list and no module.
    ///
    /// # Errors
    /// Where memory runs out, nothing changes.
    pub fn end_module(&mut self) -> Result<ModuleState, AllocError>
        ensures ended { IfOk result (λ ended. (context ended ≡ context self.old) × (ended.types ≡ record self.old.types { grows = false })) }
        ensures next { IfOk result (λ _. context self.new ≡ at_first) }
        ensures kept { IfOk result (λ _. self.new.types ≡ record self.old.types { types = []; groups = 0; ids = [] }) }
        ensures refused { IfErr result (λ _. self.new ≡ self.old) }
    {
        let ended = self.types.end_module()?;
        let kept = mem::replace(&mut self.types, ended);
        let next = ModuleState::with_list(*self.tags.allocator(), kept);
        Ok(mem::replace(self, next))
    }

    /// Returns the features by which entries are judged.
    pub fn features(&self) -> WasmFeatures
        ensures { feature_set result ≡ features_of self.now }
    {
        self.types.features()
    }

    /// Returns the types, and the list that knows them.
    pub fn types(&self) -> &ModuleTypes
        ensures { result.now ≡ self.now.types }
    {
        &self.types
    }

    /// Returns the number of types, which is within its limit.
    pub fn type_count(&self) -> usize
        ensures count { result ≡ length (context self.now).types }
        ensures few { result ≤ most Types }
    {
        self.types.len()
    }

    /// Returns the number of functions, imported ones counted.
    pub fn function_count(&self) -> usize
        ensures { result ≡ length (context self.now).imported_functions + length (context self.now).own_functions }
    {
        self.imported_functions.len() + self.own_functions.len()
    }

    /// Returns the number of tables, imported ones counted.
    pub fn table_count(&self) -> usize
        ensures { result ≡ length (context self.now).tables }
    {
        self.tables.len()
    }

    /// Returns the number of memories, imported ones counted.
    pub fn memory_count(&self) -> usize
        ensures { result ≡ length (context self.now).memories }
    {
        self.memories.len()
    }

    /// Returns the number of globals, imported ones counted.
    pub fn global_count(&self) -> usize
        ensures { result ≡ length (context self.now).imported_globals + length (context self.now).own_globals }
    {
        self.imported_globals.len() + self.own_globals.len()
    }

    /// Returns the number of tags, imported ones counted.
    pub fn tag_count(&self) -> usize
        ensures { result ≡ length (context self.now).tags }
    {
        self.tags.len()
    }

    /// Returns the number of element segments.
    pub fn element_count(&self) -> usize
        ensures { result ≡ length (context self.now).elements }
    {
        self.elements.len() as usize
    }

    /// Returns the number of data segments.
    pub fn data_count(&self) -> u32
        ensures { result ≡ (context self.now).segments }
    {
        self.segments
    }
}
