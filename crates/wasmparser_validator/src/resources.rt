//! Resources of bodies, in a module that is validated payload by payload.

ghost use Rattle.std.specs.Prelude.{◌≡◌};
ghost use Rattle.wasmparser_module_state.specs.StateResources.{state_resources};

use std::fmt;
use std::rc::Rc;
use wasmparser_bodies::module_resources::WasmModuleResources;
use wasmparser_error::error::Error;
use wasmparser_module_state::module_state::ModuleState;
use wasmparser_readers::global_type::GlobalType;
use wasmparser_readers::memory_type::MemoryType;
use wasmparser_readers::table_type::TableType;
use wasmparser_types::composite_type::FuncType;
use wasmparser_types::heap_type::HeapType;
use wasmparser_types::index::CoreTypeId;
use wasmparser_types::ref_type::RefType;
use wasmparser_types::sub_type::SubType;
use wasmparser_types::val_type::ValType;

/// The resources that bodies ask for, shared by all functions of a module.
#[derive(Clone, Drop)]
pub struct ValidatorResources {
    module: Rc<ModuleState>,
}

impl ValidatorResources {
    pub(crate) fn new(module: Rc<ModuleState>) -> ValidatorResources
        ensures { result.module.value ≡ module.value }
    {
        ValidatorResources { module }
    }
}

/// The same where sections are still to come: the module's state so far, borrowed.
pub type OperatorValidatorResources<'a> = &'a ModuleState;

/// Shows nothing of the module.
impl fmt::Debug for ValidatorResources {
    fn fmt<W: fmt::Write>(&self, f: &mut fmt::Formatter<W>) -> fmt::Result {
        f.debug_struct("ValidatorResources").finish_non_exhaustive()
    }
}

impl WasmModuleResources for ValidatorResources {
    ghost resources = { λ r. state_resources r.module.value };

    fn table_at(&self, at: u32) -> Option<TableType> {
        self.module.table_at(at)
    }

    fn memory_at(&self, at: u32) -> Option<MemoryType> {
        self.module.memory_at(at)
    }

    fn tag_at(&self, at: u32) -> Option<&FuncType> {
        self.module.tag_at(at)
    }

    fn global_at(&self, at: u32) -> Option<GlobalType> {
        self.module.global_at(at)
    }

    fn sub_type_at(&self, type_index: u32) -> Option<&SubType> {
        self.module.sub_type_at(type_index)
    }

    fn sub_type_at_id(&self, id: CoreTypeId) -> &SubType {
        self.module.sub_type_at_id(id)
    }

    fn type_id_of_function(&self, func_index: u32) -> Option<CoreTypeId> {
        self.module.type_id_of_function(func_index)
    }

    fn type_index_of_function(&self, func_index: u32) -> Option<u32> {
        self.module.type_index_of_function(func_index)
    }

    fn element_type_at(&self, at: u32) -> Option<RefType> {
        self.module.element_type_at(at)
    }

    fn is_subtype(&self, a: ValType, b: ValType) -> bool {
        self.module.is_subtype(a, b)
    }

    fn check_heap_type(&self, heap_type: &mut HeapType, offset: u64) -> Result<(), Error> {
        self.module.check_heap_type(heap_type, offset)
    }

    fn top_type(&self, heap_type: &HeapType) -> HeapType {
        self.module.top_type(heap_type)
    }

    fn element_count(&self) -> u32 {
        self.module.element_count()
    }

    fn data_count(&self) -> Option<u32> {
        self.module.data_count()
    }

    fn is_function_referenced(&self, index: u32) -> bool {
        self.module.is_function_referenced(index)
    }

    fn has_function_exact_type(&self, index: u32) -> bool {
        self.module.has_function_exact_type(index)
    }
}
