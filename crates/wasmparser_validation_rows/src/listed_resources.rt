//! A module as lists.

ghost use Rattle.std.specs.Prelude.{◌≡◌, IfSome, option_map};
ghost use Rattle.std.specs.List.{AllByRecursion};
ghost use Rattle.wasm_bodies.specs.BodyContext.{heap_meant};
ghost use Rattle.wasm_spec.specs.TypeReferences.{heap_map, heap_refs};
ghost use Rattle.wasmparser_readers.specs.ModuleIndexes.{IsModuleIndex};
ghost use Rattle.wasmparser_validation_rows.specs.Listed.{items_of, resources_of};
ghost use Rattle.wasmparser_types.specs.HeapTypes.{Packs, heap_type};
ghost use Rattle.wasmparser_types.specs.Index.{number_of};

use crate::listed_types::ListedTypes;
use wasmparser_bodies::module_resources::WasmModuleResources;
use wasmparser_error::error::{Error, ErrorKind};
use wasmparser_readers::global_type::GlobalType;
use wasmparser_readers::memory_type::MemoryType;
use wasmparser_readers::table_type::TableType;
use wasmparser_types::composite_type::FuncType;
use wasmparser_types::heap_type::HeapType;
use wasmparser_types::index::{CoreTypeId, UnpackedIndex};
use wasmparser_types::ref_type::RefType;
use wasmparser_types::sub_type::SubType;
use wasmparser_types::val_type::ValType;

/// The items of a module, imported ones first.
#[derive(Drop)]
pub struct ListedResources {
    /// Its types.
    pub types: ListedTypes,
    /// The type index of each function.
    pub functions: Vec<u32>,
    /// Its tables.
    pub tables: Vec<TableType>,
    /// Its memories.
    pub memories: Vec<MemoryType>,
    /// Its globals.
    pub globals: Vec<GlobalType>,
    /// The type index of each tag.
    pub tags: Vec<u32>,
    /// The types of its element segments.
    pub elements: [RefType; 2],
    /// Number of data segments, if it is stated.
    pub data_count: Option<u32>,
    /// For each of the first functions, `true` if it is declared outside of bodies.
    pub declared: Vec<bool>,
    /// Number of imported functions.
    pub imported_functions: u32,
}

impl ListedResources {
    // Returns the heap type that one stands for which is written with a type index. It can be packed.
    #[tactic(auto, using(crate::proofs::LookUps::lookups))]
    fn with_id(&self, heap: HeapType) -> Option<HeapType>
        requires { AllByRecursion IsModuleIndex (heap_refs (heap_type heap)) }
        ensures meant { option_map heap_type result ≡ heap_meant (items_of self.now) (heap_map number_of (heap_type heap)) }
        ensures packs { IfSome result (λ heap. Packs (heap_type heap)) }
    {
        match heap {
            HeapType::Abstract(it) => Some(HeapType::Abstract(it)),
            HeapType::Concrete(UnpackedIndex::Module(index)) => match self.types.id_at(index) {
                Some(id) => Some(HeapType::Concrete(UnpackedIndex::Id(id))),
                None => None,
            },
            HeapType::Concrete(_) => None,
        }
    }
}

impl WasmModuleResources for ListedResources {
    ghost resources = { resources_of };

    #[tactic(auto, using(crate::proofs::LookUps::lookups))]
    fn table_at(&self, at: u32) -> Option<TableType> {
        match self.tables.get(at as usize) {
            Some(it) => Some(*it),
            None => None,
        }
    }

    #[tactic(auto, using(crate::proofs::LookUps::lookups))]
    fn memory_at(&self, at: u32) -> Option<MemoryType> {
        match self.memories.get(at as usize) {
            Some(it) => Some(*it),
            None => None,
        }
    }

    #[tactic(auto, using(crate::proofs::LookUps::lookups))]
    fn tag_at(&self, at: u32) -> Option<&FuncType> {
        match self.tags.get(at as usize) {
            Some(index) => match self.sub_type_at(*index) {
                Some(it) => it.composite_type.as_func(),
                None => None,
            },
            None => None,
        }
    }

    #[tactic(auto, using(crate::proofs::LookUps::lookups))]
    fn global_at(&self, at: u32) -> Option<GlobalType> {
        match self.globals.get(at as usize) {
            Some(it) => Some(*it),
            None => None,
        }
    }

    #[tactic(auto, using(crate::proofs::LookUps::lookups))]
    fn sub_type_at(&self, type_index: u32) -> Option<&SubType> {
        match self.types.id_at(type_index) {
            Some(id) => Some(self.types.sub(id.index())),
            None => None,
        }
    }

    fn sub_type_at_id(&self, id: CoreTypeId) -> &SubType {
        self.types.sub(id.index())
    }

    #[tactic(auto, using(crate::proofs::LookUps::lookups))]
    fn type_id_of_function(&self, func_index: u32) -> Option<CoreTypeId> {
        match self.functions.get(func_index as usize) {
            Some(index) => self.types.id_at(*index),
            None => None,
        }
    }

    fn type_index_of_function(&self, func_index: u32) -> Option<u32> {
        self.functions.get(func_index as usize).copied()
    }

    fn element_type_at(&self, at: u32) -> Option<RefType> {
        match self.elements.get(at as usize) {
            Some(it) => Some(*it),
            None => None,
        }
    }

    fn is_subtype(&self, a: ValType, b: ValType) -> bool {
        self.types.is_below(&a, &b)
    }

    fn check_heap_type(&self, heap_type: &mut HeapType, offset: u64) -> Result<(), Error> {
        match self.with_id(*heap_type) {
            Some(it) => {
                *heap_type = it;
                Ok(())
            }
            None => Err(Error {
                offset,
                kind: ErrorKind::Invalid,
            }),
        }
    }

    fn top_type(&self, heap_type: &HeapType) -> HeapType {
        self.types.top(heap_type)
    }

    fn element_count(&self) -> u32 {
        2
    }

    fn data_count(&self) -> Option<u32> {
        self.data_count
    }

    fn is_function_referenced(&self, index: u32) -> bool {
        match self.declared.get(index as usize) {
            Some(is_declared) => *is_declared,
            None => false,
        }
    }

    fn has_function_exact_type(&self, index: u32) -> bool {
        index >= self.imported_functions && (index as usize) < self.functions.len()
    }
}
