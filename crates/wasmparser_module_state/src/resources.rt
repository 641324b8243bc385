//! The resources that bodies look up in a module's state.

ghost use Rattle.wasmparser_module_state.specs.StateResources.{state_resources};

use crate::module_state::{ModuleState, refusal};
use wasmparser_bodies::module_resources::WasmModuleResources;
use wasmparser_constants::scope::item_at;
use wasmparser_error::error::{Error, ErrorKind};
use wasmparser_readers::global_type::GlobalType;
use wasmparser_readers::memory_type::MemoryType;
use wasmparser_readers::table_type::TableType;
use wasmparser_types::composite_type::FuncType;
use wasmparser_types::heap_type::HeapType;
use wasmparser_types::index::CoreTypeId;
use wasmparser_types::ref_type::RefType;
use wasmparser_types::sub_type::SubType;
use wasmparser_types::val_type::ValType;

impl WasmModuleResources for ModuleState {
    ghost resources = { state_resources };

    fn table_at(&self, at: u32) -> Option<TableType> {
        let table = ModuleState::table_at(self, at)?;
        let element_type = self.types.listed_ref(table.element_type);
        Some(TableType {
            element_type,
            ..table
        })
    }

    fn memory_at(&self, at: u32) -> Option<MemoryType> {
        self.memories.get(at as usize).copied()
    }

    #[tactic(auto, using(crate::proofs::ResourceLaws::type_steps))]
    fn tag_at(&self, at: u32) -> Option<&FuncType> {
        let index = *self.tags.get(at as usize)?;
        self.types.are_known();
        self.types.func_type(index)
    }

    fn global_at(&self, at: u32) -> Option<GlobalType> {
        let global = ModuleState::global_at(self, at)?;
        let content_type = self.types.listed_val(global.content_type);
        Some(GlobalType {
            content_type,
            ..global
        })
    }

    #[tactic(auto, using(crate::proofs::ResourceLaws::type_steps))]
    fn sub_type_at(&self, type_index: u32) -> Option<&SubType> {
        self.types.are_known();
        self.types.sub_type_at(type_index)
    }

    #[tactic(auto, using(crate::proofs::ResourceLaws::type_steps))]
    fn sub_type_at_id(&self, id: CoreTypeId) -> &SubType {
        self.types.are_known();
        self.types.sub_type(id)
    }

    #[tactic(auto, using(crate::proofs::ResourceLaws::type_steps))]
    fn type_id_of_function(&self, func_index: u32) -> Option<CoreTypeId> {
        let index = self.type_index_of_function(func_index)?;
        self.types.type_id(index)
    }

    fn type_index_of_function(&self, func_index: u32) -> Option<u32> {
        item_at(
            &self.imported_functions,
            &self.own_functions,
            func_index as usize,
        )
    }

    fn element_type_at(&self, at: u32) -> Option<RefType> {
        let ty = self.elements.get(at)?;
        Some(self.types.listed_ref(ty))
    }

    fn is_subtype(&self, a: ValType, b: ValType) -> bool {
        self.types.is_subtype(a, b)
    }

    #[tactic(auto, using(crate::proofs::ResourceLaws::type_steps))]
    fn check_heap_type(&self, heap_type: &mut HeapType, offset: u64) -> Result<(), Error> {
        self.types.are_known();
        match self.types.heap_with_ids(*heap_type) {
            None => Err(refusal(offset, ErrorKind::Invalid)),
            Some(found) => {
                *heap_type = found;
                Ok(())
            }
        }
    }

    fn top_type(&self, heap_type: &HeapType) -> HeapType {
        self.types.top_type(heap_type)
    }

    fn element_count(&self) -> u32 {
        self.elements.len()
    }

    fn data_count(&self) -> Option<u32> {
        self.stated_data_count
    }

    fn is_function_referenced(&self, index: u32) -> bool {
        self.declared.contains(index)
    }

    fn has_function_exact_type(&self, index: u32) -> bool {
        let imported = self.imported_functions.len();
        let index = index as usize;
        index >= imported && index - imported < self.own_functions.len()
    }
}
