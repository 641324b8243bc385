//! Lookups of the indexes in bodies.

ghost use Rattle.std.specs.Prelude.{◌≡◌, ◌∷◌, [], ◌&&◌, ◌^◌, Some, map, nat_le, nat_lt, option_map, slice_get, true, false, if◌then◌else◌};
ghost use Rattle.std.specs.Option.{option_and_then, option_copied};
ghost use Rattle.wasm_bodies.specs.BodyContext.{element_at, fields_at, func_at, function_at, meant, provided, reference_at, unpacked, value_of, written};
ghost use Rattle.wasm_bodies.specs.Operators.{Indexed};
ghost use Rattle.wasm_bodies.specs.OperatorRows.{Int32, access};
ghost use Rattle.wasm_bodies.specs.Signatures.{accessed, memory_index};
ghost use Rattle.wasm_bodies_laws.specs.Machine.{block_meant, frame_type, label_types};
ghost use Rattle.wasm_core_types.specs.Features.{feature_set};
ghost use Rattle.wasm_spec.specs.TypeReferences.{heap_map, val_map};
ghost use Rattle.wasm_spec.specs.Types as spec;
ghost use Rattle.wasmparser_operators.specs.OperatorValues.{IsBlockOfModule, IsHeapOfModule, IsOfModule, block_type, memory_argument, module_type};
ghost use Rattle.wasmparser_bodies.specs.StackViews.{block_with_ids, frame_kind};
ghost use Rattle.wasmparser_func_validator.specs.Steps.{body_context, items_in, pair_kept, table_seen};
ghost use Rattle.wasmparser_types.specs.CompositeTypes.{func_type};
ghost use Rattle.wasmparser_types.specs.HeapTypes.{heap_type};
ghost use Rattle.wasmparser_types.specs.Index.{number_of};
ghost use Rattle.wasmparser_types.specs.ValTypes.{field_type, val_type};

use crate::body::Body;
use std::slice;
use wasmparser_bodies::frame::FrameKind;
use wasmparser_bodies::module_resources::WasmModuleResources;
use wasmparser_operators::immediates::{BlockType, MemArg};
use wasmparser_type_relations::gates::is_allowed;
use wasmparser_types::composite_type::FuncType;
use wasmparser_types::heap_type::HeapType;
use wasmparser_types::index::UnpackedIndex;
use wasmparser_types::ref_type::RefType;
use wasmparser_types::val_type::{FieldType, ValType};

// Returns the type of addresses of a memory, or of indexes of a table.
#[inline(always)]
pub(crate) fn address_type(is_64: bool) -> ValType
    ensures { val_type result ≡ (if is_64 then spec.I64 else spec.I32) }
{
    if is_64 { ValType::I64 } else { ValType::I32 }
}

// Returns the types of the operands that filling a part of a memory or a table takes.
pub(crate) fn fill_types(index: &ValType, item: &ValType) -> [ValType; 3]
    ensures { map val_type result ≡ val_type index.now ∷ val_type item.now ∷ val_type index.now ∷ [] }
{
    [*index, *item, *index]
}

// Returns the function type of a type index, if it is one.
#[tactic(auto, using(crate::proofs::LookupLaws::composites))]
pub(crate) fn func_type_in<R: WasmModuleResources>(resources: &R, index: u32) -> Option<&FuncType>
    ensures { option_map func_type (option_copied result) ≡ func_at (R.resources resources.now).items index }
{
    match resources.sub_type_at(index) {
        Some(it) => it.composite_type.as_func(),
        None => None,
    }
}

// Returns the parameters of a type index, none where it is no function type's.
pub(crate) fn params_at<R: WasmModuleResources>(resources: &R, index: u32) -> &[ValType]
    ensures { map val_type result.now ≡ (frame_type (R.resources resources.now).items (Indexed index)).params }
{
    match func_type_in(resources, index) {
        Some(it) => it.params(),
        None => &[],
    }
}

// Checks that a memory has this address.
#[inline(always)]
fn is_offset(is_64: bool, offset: u64) -> bool
    ensures { result ≡ nat_lt offset (2 ^ (if is_64 then 64 else 32)) }
{
    if is_64 { true } else { offset < 0x1_0000_0000 }
}

impl<R: WasmModuleResources> Body<R> {
    // Returns the function type of a type index, if it is one.
    pub(crate) fn func_type_at(&self, index: u32) -> Option<&FuncType>
        ensures { option_map func_type (option_copied result) ≡ func_at (items_in R.resources self.now) index }
    {
        func_type_in(&self.resources, index)
    }

    // Returns the type of a function.
    pub(crate) fn function_type(&self, function: u32) -> Option<&FuncType>
        ensures { option_map func_type (option_copied result) ≡ function_at (items_in R.resources self.now) function }
    {
        match self.resources.type_index_of_function(function) {
            Some(index) => self.func_type_at(index),
            None => None,
        }
    }

    // Returns the fields of a type index, if it is a structure's.
    #[tactic(auto, using(crate::proofs::LookupLaws::composites))]
    pub(crate) fn fields_at(&self, index: u32) -> Option<&[FieldType]>
        ensures { option_map (λ fields. map field_type fields) (option_copied result) ≡ fields_at (items_in R.resources self.now) index }
    {
        match self.resources.sub_type_at(index) {
            Some(it) => match it.composite_type.as_struct() {
                Some(it) => Some(it.fields.as_slice()),
                None => None,
            },
            None => None,
        }
    }

    // Returns the type of an element, as an operand, if the type index is an array's.
    #[tactic(auto, using(crate::proofs::LookupLaws::composites))]
    pub(crate) fn element_at(&self, index: u32) -> Option<ValType>
        ensures { option_map val_type result ≡ option_map unpacked (element_at (items_in R.resources self.now) index) }
    {
        match self.resources.sub_type_at(index) {
            Some(it) => match it.composite_type.as_array() {
                Some(it) => Some(it.0.element_type.unpack()),
                None => None,
            },
            None => None,
        }
    }

    // References to a type index, if it names a type.
    pub(crate) fn reference_at(&self, nullable: bool, index: u32) -> Option<ValType>
        ensures { option_map val_type result ≡ reference_at (items_in R.resources self.now) nullable index }
    {
        let mut heap = HeapType::Concrete(UnpackedIndex::Module(index));
        match self.resources.check_heap_type(&mut heap, 0) {
            Ok(()) => Some(ValType::Ref(RefType::new(nullable, heap).unwrap())),
            Err(_) => None,
        }
    }

    // Returns a value type that a body writes, with an id in place of a type index, if it is allowed and names a type.
    pub(crate) fn written(&self, ty: &ValType) -> Option<ValType>
        requires { IsOfModule ty.now }
        ensures { option_map val_type result ≡ written (feature_set self.now.features) (items_in R.resources self.now) (module_type ty.now) }
    {
        let mut ty = *ty;
        match self.resources.check_value_type(&mut ty, &self.features, 0) {
            Ok(()) => Some(ty),
            Err(_) => None,
        }
    }

    // Returns the type of null, as a reference to this, if it may be written.
    pub(crate) fn null_type(&self, heap: &HeapType) -> Option<ValType>
        requires { IsHeapOfModule heap.now }
        ensures { option_map val_type result ≡ written (feature_set self.now.features) (items_in R.resources self.now) (spec.Ref true (heap_map number_of (heap_type heap.now))) }
    {
        let mut heap = *heap;
        match self.resources.check_heap_type(&mut heap, 0) {
            Ok(()) => {
                let ty = ValType::Ref(RefType::new(true, heap).unwrap());
                if is_allowed(self.features, &ty) {
                    Some(ty)
                } else {
                    None
                }
            }
            Err(_) => None,
        }
    }

    // ---- blocks

    // Returns a block type that a body writes, with an id in place of a type index, if it stands for something.
    pub(crate) fn checked_block(&self, blockty: &BlockType) -> Option<BlockType>
        requires { IsBlockOfModule blockty.now }
        ensures { option_map block_with_ids result ≡ block_meant (body_context R.resources self.now) (block_type blockty.now) }
    {
        match blockty {
            BlockType::Empty => Some(BlockType::Empty),
            BlockType::Type(ty) => match self.written(ty) {
                Some(ty) => Some(BlockType::Type(ty)),
                None => None,
            },
            BlockType::FuncType(index) => match self.func_type_at(*index) {
                Some(_) => Some(BlockType::FuncType(*index)),
                None => None,
            },
        }
    }

    // Returns the types that a block takes.
    #[inline(always)]
    pub(crate) fn block_params<'a>(&'a self, block_type: &'a BlockType) -> &'a [ValType]
        ensures { map val_type result.now ≡ (frame_type (items_in R.resources self.now) (block_with_ids block_type.now)).params }
    {
        match block_type {
            BlockType::Empty => &[],
            BlockType::Type(_) => &[],
            BlockType::FuncType(index) => match self.func_type_at(*index) {
                Some(it) => it.params(),
                None => &[],
            },
        }
    }

    // Returns the types that a block gives.
    #[inline(always)]
    pub(crate) fn block_results<'a>(&'a self, block_type: &'a BlockType) -> &'a [ValType]
        ensures { map val_type result.now ≡ (frame_type (items_in R.resources self.now) (block_with_ids block_type.now)).results }
    {
        match block_type {
            BlockType::Empty => &[],
            BlockType::Type(ty) => slice::from_ref(ty),
            BlockType::FuncType(index) => match self.func_type_at(*index) {
                Some(it) => it.results(),
                None => &[],
            },
        }
    }

    // Returns the types that the function gives.
    pub(crate) fn results(&self) -> &[ValType]
        ensures { map val_type result.now ≡ (frame_type (items_in R.resources self.now) (Indexed self.now.ty)).results }
    {
        match self.func_type_at(self.ty) {
            Some(it) => it.results(),
            None => &[],
        }
    }

    // Returns the types that a jump to a block takes.
    #[inline(always)]
    pub(crate) fn label<'a>(&'a self, kind: FrameKind, block_type: &'a BlockType) -> &'a [ValType]
        ensures { map val_type result.now ≡ label_types (frame_kind kind) (frame_type (items_in R.resources self.now) (block_with_ids block_type.now)) }
    {
        match kind {
            FrameKind::Loop => self.block_params(block_type),
            FrameKind::Block => self.block_results(block_type),
            FrameKind::If => self.block_results(block_type),
            FrameKind::Else => self.block_results(block_type),
        }
    }

    // ---- memories and tables

    // Returns the type of the addresses of a memory.
    pub(crate) fn address_of(&self, memory: u32) -> Option<ValType>
        ensures { option_map val_type result ≡ option_map memory_index (slice_get (items_in R.resources self.now).memories memory) }
    {
        match self.resources.memory_at(memory) {
            Some(it) => Some(address_type(it.memory64)),
            None => None,
        }
    }

    // Returns the type of the address of an access to a memory with this greatest alignment.
    #[inline(always)]
    pub(crate) fn accessed(&self, memarg: &MemArg, max_align: u8) -> Option<ValType>
        ensures { option_map val_type result ≡ accessed (items_in R.resources self.now) (access 0 Int32 max_align) (memory_argument memarg.now) }
    {
        match self.resources.memory_at(memarg.memory) {
            Some(it) => {
                if memarg.align > max_align || !is_offset(it.memory64, memarg.offset) {
                    return None;
                }
                Some(address_type(it.memory64))
            }
            None => None,
        }
    }

    // Returns the type of a table's indexes, and that of its elements.
    pub(crate) fn table_types(&self, table: u32) -> Option<(ValType, ValType)>
        ensures { option_map pair_kept result ≡ option_map table_seen (slice_get (items_in R.resources self.now).tables table) }
    {
        match self.resources.table_at(table) {
            Some(it) => Some((address_type(it.table64), ValType::Ref(it.element_type))),
            None => None,
        }
    }

    // Returns the type of an element segment.
    pub(crate) fn segment_type(&self, segment: u32) -> Option<ValType>
        ensures { option_map val_type result ≡ option_map value_of (slice_get (items_in R.resources self.now).elements segment) }
    {
        match self.resources.element_type_at(segment) {
            Some(it) => Some(ValType::Ref(it)),
            None => None,
        }
    }
}
