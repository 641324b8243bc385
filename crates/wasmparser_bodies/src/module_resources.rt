//! The questions of a body to its module.

ghost use Rattle.std.specs.Prelude.{◌≡◌, IfOk, IsSome, Some, length, option_map, slice_get};
ghost use Rattle.std.specs.List.{AllByRecursion};
ghost use Rattle.std.specs.Option.{option_copied};
ghost use Rattle.wasm_bodies.specs.BodyContext.{heap_meant, meant, value_of, written};
ghost use Rattle.wasm_core_types.specs.Features.{feature_set};
ghost use Rattle.wasm_spec.specs.TypeReferences.{heap_map, heap_refs, ref_refs, val_map, val_refs};
ghost use Rattle.wasm_spec.specs.Types as spec;
ghost use Rattle.wasmparser_readers.specs.ItemTypes.{global_type, memory_type, table_type};
ghost use Rattle.wasmparser_readers.specs.ModuleIndexes.{IsModuleIndex};
ghost use Rattle.wasmparser_bodies.specs.Resources.{BecomesMeant, Resources, function_reference, has_exact_type, sub_type_at, tag_at};
ghost use Rattle.wasmparser_types.specs.CompositeTypes.{func_type};
ghost use Rattle.wasmparser_types.specs.HeapTypes as heaps;
ghost use Rattle.wasmparser_types.specs.Index.{Id, number_of};
ghost use Rattle.wasmparser_types.specs.SubTypes.{sub_type};
ghost use Rattle.wasmparser_types.specs.ValTypes.{val_type};

use std::alloc::Global;
use std::rc::Rc;
use wasm_core_types::features::WasmFeatures;
use wasmparser_error::error::{Error, ErrorKind};
use wasmparser_readers::global_type::GlobalType;
use wasmparser_readers::memory_type::MemoryType;
use wasmparser_readers::table_type::TableType;
use wasmparser_type_relations::gates::is_allowed;
use wasmparser_types::composite_type::FuncType;
use wasmparser_types::heap_type::HeapType;
use wasmparser_types::index::CoreTypeId;
use wasmparser_types::ref_type::RefType;
use wasmparser_types::sub_type::SubType;
use wasmparser_types::val_type::ValType;

/// The resources of a module by which its bodies are validated. The types that it returns have ids in place of type indexes. For an index past the
/// end of its index space it returns None.
pub trait WasmModuleResources {
    // All that can be asked.
    ghost resources: { Self → Resources };

    /// Returns the type of a table.
    fn table_at(&self, at: u32) -> Option<TableType>
        ensures { option_map table_type result ≡ slice_get (resources self.now).items.tables at };

    /// Returns the type of a memory.
    fn memory_at(&self, at: u32) -> Option<MemoryType>
        ensures { option_map memory_type result ≡ slice_get (resources self.now).items.memories at };

    /// Returns the function type of a tag.
    fn tag_at(&self, at: u32) -> Option<&FuncType>
        ensures { option_map func_type (option_copied result) ≡ tag_at (resources self.now).items at };

    /// Returns the type of a global.
    fn global_at(&self, at: u32) -> Option<GlobalType>
        ensures { option_map global_type result ≡ slice_get (resources self.now).items.globals at };

    /// Returns the sub type of a type index.
    fn sub_type_at(&self, type_index: u32) -> Option<&SubType>
        ensures whole { option_map sub_type (option_copied result) ≡ sub_type_at (resources self.now) type_index }
        ensures named { option_map (λ type. (sub_type type).composite_type) (option_copied result) ≡ option_map (λ named. named.composite) (slice_get (resources self.now).items.types type_index) };

    /// Returns the sub type of an id, which stands for one.
    fn sub_type_at_id(&self, id: CoreTypeId) -> &SubType
        requires { IsSome ((resources self.now).sub_type_of (Id id)) }
        ensures { Some (sub_type result.now) ≡ (resources self.now).sub_type_of (Id id) };

    /// Returns the id of a function's type.
    fn type_id_of_function(&self, func_index: u32) -> Option<CoreTypeId>
        ensures { option_map (λ id. Id id) result ≡ function_reference (resources self.now).items func_index };

    /// Returns the type index of a function.
    fn type_index_of_function(&self, func_index: u32) -> Option<u32>
        ensures { result ≡ slice_get (resources self.now).items.functions func_index };

    /// Returns the type of an element segment.
    fn element_type_at(&self, at: u32) -> Option<RefType>
        ensures { result ≡ slice_get (resources self.now).items.elements at };

    /// Checks that the first type is below the second.
    fn is_subtype(&self, a: ValType, b: ValType) -> bool
        ensures { result ≡ (resources self.now).items.is_below (val_type a) (val_type b) };

    /// Puts an id in place of the type index of a type that a body writes, if the type is allowed under the features.
    ///
    /// # Errors
    /// `Invalid` at the offset, where it is not or there is no such type. The type is then unchanged.
    fn check_value_type(
        &self,
        t: &mut ValType,
        features: &WasmFeatures,
        offset: u64,
    ) -> Result<(), Error>
        requires { AllByRecursion IsModuleIndex (val_refs (val_type t.old)) }
        ensures { BecomesMeant val_type offset (written (feature_set features.now) (resources self.now).items (val_map number_of (val_type t.old))) t.old t.new result }
    {
        if !is_allowed(*features, t) {
            return Err(Error {
                offset,
                kind: ErrorKind::Invalid,
            });
        }
        match t {
            ValType::Ref(it) => self.check_ref_type(it, offset),
            _ => Ok(()),
        }
    }

    /// Does the same for a reference type, under any features.
    ///
    /// # Errors
    /// `Invalid` at the offset, where there is no such type. The type is then unchanged.
    fn check_ref_type(&self, ref_type: &mut RefType, offset: u64) -> Result<(), Error>
        requires { AllByRecursion IsModuleIndex (ref_refs ref_type.old) }
        ensures { BecomesMeant value_of offset (meant (resources self.now).items (val_map number_of (value_of ref_type.old))) ref_type.old ref_type.new result }
    {
        let mut heap_type = ref_type.heap_type();
        self.check_heap_type(&mut heap_type, offset)?;
        *ref_type = RefType::new(ref_type.is_nullable(), heap_type).unwrap();
        Ok(())
    }

    /// Does the same for a heap type. An id that takes its place can be packed.
    ///
    /// # Errors
    /// `Invalid` at the offset, where there is no such type. The type is then unchanged.
    fn check_heap_type(&self, heap_type: &mut HeapType, offset: u64) -> Result<(), Error>
        requires { AllByRecursion IsModuleIndex (heap_refs (heaps.heap_type heap_type.old)) }
        ensures meant { BecomesMeant heaps.heap_type offset (heap_meant (resources self.now).items (heap_map number_of (heaps.heap_type heap_type.old))) heap_type.old heap_type.new result }
        ensures packs { IfOk result (λ _. heaps.Packs (heaps.heap_type heap_type.new)) };

    /// Returns the greatest type above a heap type, which has an id if it has an index.
    fn top_type(&self, heap_type: &HeapType) -> HeapType
        ensures { heaps.heap_type result ≡ (resources self.now).top_of (heaps.heap_type heap_type.now) };

    /// Returns the number of element segments.
    fn element_count(&self) -> u32
        ensures { result ≡ length (resources self.now).items.elements };

    /// Returns the number of data segments, where a data count section states it.
    fn data_count(&self) -> Option<u32>
        ensures { result ≡ (resources self.now).items.data_count };

    /// Checks that an export, an element segment or a constant expression names the function.
    fn is_function_referenced(&self, index: u32) -> bool
        ensures { result ≡ (resources self.now).items.declared index };

    /// Checks that the function's type is known exactly: it is not imported.
    fn has_function_exact_type(&self, index: u32) -> bool
        ensures { result ≡ has_exact_type (resources self.now) index };
}

impl<T: WasmModuleResources> WasmModuleResources for &T {
    ghost resources = { λ r. T.resources r.now };

    fn table_at(&self, at: u32) -> Option<TableType> {
        (**self).table_at(at)
    }

    fn memory_at(&self, at: u32) -> Option<MemoryType> {
        (**self).memory_at(at)
    }

    fn tag_at(&self, at: u32) -> Option<&FuncType> {
        (**self).tag_at(at)
    }

    fn global_at(&self, at: u32) -> Option<GlobalType> {
        (**self).global_at(at)
    }

    fn sub_type_at(&self, type_index: u32) -> Option<&SubType> {
        (**self).sub_type_at(type_index)
    }

    fn sub_type_at_id(&self, id: CoreTypeId) -> &SubType {
        (**self).sub_type_at_id(id)
    }

    fn type_id_of_function(&self, func_index: u32) -> Option<CoreTypeId> {
        (**self).type_id_of_function(func_index)
    }

    fn type_index_of_function(&self, func_index: u32) -> Option<u32> {
        (**self).type_index_of_function(func_index)
    }

    fn element_type_at(&self, at: u32) -> Option<RefType> {
        (**self).element_type_at(at)
    }

    fn is_subtype(&self, a: ValType, b: ValType) -> bool {
        (**self).is_subtype(a, b)
    }

    fn check_heap_type(&self, heap_type: &mut HeapType, offset: u64) -> Result<(), Error> {
        (**self).check_heap_type(heap_type, offset)
    }

    fn top_type(&self, heap_type: &HeapType) -> HeapType {
        (**self).top_type(heap_type)
    }

    fn element_count(&self) -> u32 {
        (**self).element_count()
    }

    fn data_count(&self) -> Option<u32> {
        (**self).data_count()
    }

    fn is_function_referenced(&self, index: u32) -> bool {
        (**self).is_function_referenced(index)
    }

    fn has_function_exact_type(&self, index: u32) -> bool {
        (**self).has_function_exact_type(index)
    }
}

impl<T: WasmModuleResources> WasmModuleResources for Rc<T> {
    ghost resources = { λ r. T.resources r.value };

    fn table_at(&self, at: u32) -> Option<TableType> {
        (**self).table_at(at)
    }

    fn memory_at(&self, at: u32) -> Option<MemoryType> {
        (**self).memory_at(at)
    }

    fn tag_at(&self, at: u32) -> Option<&FuncType> {
        (**self).tag_at(at)
    }

    fn global_at(&self, at: u32) -> Option<GlobalType> {
        (**self).global_at(at)
    }

    fn sub_type_at(&self, type_index: u32) -> Option<&SubType> {
        (**self).sub_type_at(type_index)
    }

    fn sub_type_at_id(&self, id: CoreTypeId) -> &SubType {
        (**self).sub_type_at_id(id)
    }

    fn type_id_of_function(&self, func_index: u32) -> Option<CoreTypeId> {
        (**self).type_id_of_function(func_index)
    }

    fn type_index_of_function(&self, func_index: u32) -> Option<u32> {
        (**self).type_index_of_function(func_index)
    }

    fn element_type_at(&self, at: u32) -> Option<RefType> {
        (**self).element_type_at(at)
    }

    fn is_subtype(&self, a: ValType, b: ValType) -> bool {
        (**self).is_subtype(a, b)
    }

    fn check_heap_type(&self, heap_type: &mut HeapType, offset: u64) -> Result<(), Error> {
        (**self).check_heap_type(heap_type, offset)
    }

    fn top_type(&self, heap_type: &HeapType) -> HeapType {
        (**self).top_type(heap_type)
    }

    fn element_count(&self) -> u32 {
        (**self).element_count()
    }

    fn data_count(&self) -> Option<u32> {
        (**self).data_count()
    }

    fn is_function_referenced(&self, index: u32) -> bool {
        (**self).is_function_referenced(index)
    }

    fn has_function_exact_type(&self, index: u32) -> bool {
        (**self).has_function_exact_type(index)
    }
}
