//! The rules on imports and on items that a module defines, constants aside (Core Specification 3.0, Validation, "Modules"), a type being its index.

ghost use Rattle.std.specs.Prelude.{◌≡◌};
ghost use Rattle.wasm_core_types.specs.Features.{feature_set};
ghost use Rattle.wasm_encoder_sections.specs.CoreItems.{memory_type, ref_type};
ghost use Rattle.wasm_smith_shapes.specs.Standing.{are_ordered};
ghost use Rattle.wasm_validity.specs.TypeRules as type_rules;

use crate::gates::is_allowed;
use wasm_core_types::features::WasmFeatures;
use wasm_core_types::types::{
    AbstractHeapType, CompositeType, FuncType, HeapType, RefType, SubType, ValType,
};
use wasm_encoder_sections::entity_type::{EntityType, MemoryType, TableType};

// The most pages of a memory whose pages have 65,536 bytes, by the width of its addresses, and of one whose pages have one byte.
const MOST_PAGES32: u64 = 0x1_0000;

const MOST_PAGES64: u64 = 0x1_0000_0000_0000;

const MOST_BYTES32: u64 = 0x1_0000_0000;

fn most_pages(is_64: bool, page_size_log2: Option<u32>) -> u64
    ensures { result ≡ type_rules.most_pages is_64 page_size_log2 }
{
    match page_size_log2 {
        Some(0) => { if is_64 { u64::MAX } else { MOST_BYTES32 } }
        _ => { if is_64 { MOST_PAGES64 } else { MOST_PAGES32 } }
    }
}

// Checks that bounds are in order, and at most the greatest.
fn are_bounds(minimum: u64, maximum: Option<u64>, greatest: u64) -> bool
    ensures { result ≡ are_ordered minimum maximum greatest }
{
    match maximum {
        Some(maximum) => minimum <= maximum && maximum <= greatest,
        None => minimum <= greatest,
    }
}

fn is_page_size(page_size_log2: Option<u32>) -> bool
    ensures { result ≡ type_rules.is_page_size page_size_log2 }
{
    matches!(page_size_log2, None | Some(0 | 16))
}

fn is_memory_type(features: WasmFeatures, type_: &MemoryType) -> bool
    ensures { result ≡ type_rules.is_memory_type (feature_set features) (memory_type type_.now) }
{
    let most = most_pages(type_.memory64, type_.page_size_log2);
    (!type_.memory64 || features.memory64())
        && (!type_.shared || features.threads() && type_.maximum.is_some())
        && (type_.page_size_log2.is_none() || features.custom_page_sizes())
        && is_page_size(type_.page_size_log2)
        && are_bounds(type_.minimum, type_.maximum, most)
}

fn is_funcref(reference: RefType) -> bool
    ensures { result ≡ type_rules.is_funcref (ref_type reference) }
{
    reference.nullable
        && matches!(
            reference.heap_type,
            HeapType::Abstract(AbstractHeapType::Func)
        )
}

/// The parts of a module that decide on further items: its types, and if it has a table and a memory.
#[derive(Clone, Copy, Debug)]
pub struct Items<'a> {
    /// The features under which the module is validated.
    pub features: WasmFeatures,
    /// Its types.
    pub types: &'a [SubType],
    /// True if it has a table.
    pub has_table: bool,
    /// True if it has a memory.
    pub has_memory: bool,
}

impl<'a> Items<'a> {
    ghost use Rattle.std.specs.Option.{option_copied};
    ghost use Rattle.std.specs.Prelude.{◌≡◌, IsTrue, Some, map};
    ghost use Rattle.wasm_core_types.specs.CoreTypes.{heap_type, val_type};
    ghost use Rattle.wasm_core_types.specs.Features.{feature_set};
    ghost use Rattle.wasm_core_types.specs.SubTypes.{sub_type};
    ghost use Rattle.wasm_encoder_sections.specs.CoreItems.{entity_type, table_type};
    ghost use Rattle.wasm_smith_shapes.specs.Standing.{Stand, keeps_type, may_begin};
    ghost use Rattle.wasm_smith_shapes.specs.ValidShapes.{keep_own, with_own};
    ghost use Rattle.wasm_smith_validity.specs.Rules.{is_table_type, keep_items, keeps_tag};
    ghost use Rattle.wasm_smith_validity.specs.Spaces.{Spaces, func_type_at, is_named, is_value, spaces_of_types, with_item, with_items};
    ghost use Rattle.wasm_validity.specs.Rules.{may_leave};

    /// Returns what decides where there are no items.
    pub fn new(features: WasmFeatures, types: &'a [SubType]) -> Items<'a>
        ensures stand { Stand result (spaces_of_types (map sub_type types.now)) }
        ensures features { result.features ≡ features }
    {
        Items {
            features,
            types,
            has_table: false,
            has_memory: false,
        }
    }

    fn is_named(&self, heap: HeapType) -> bool
        ensures { result ≡ is_named (map sub_type self.now.types.now) (heap_type heap) }
    {
        match heap {
            HeapType::Abstract(_) => true,
            HeapType::Concrete(index) => (index as usize) < self.types.len(),
        }
    }

    fn is_value(&self, type_: ValType) -> bool
        ensures { result ≡ is_value (feature_set self.now.features) (map sub_type self.now.types.now) (val_type type_) }
    {
        match type_ {
            ValType::Ref(reference) => {
                is_allowed(self.features, type_) && self.is_named(reference.heap_type)
            }
            _ => is_allowed(self.features, type_),
        }
    }

    // Returns the function type of this index.
    fn function(&self, index: u32) -> Option<&'a FuncType>
        ensures { option_copied result ≡ func_type_at (map sub_type self.now.types.now) index }
    {
        match self.types.get(index as usize) {
            Some(type_) => match &type_.composite_type {
                CompositeType::Func(function) => Some(function),
                _ => None,
            },
            None => None,
        }
    }

    fn is_table_type(&self, type_: &TableType) -> bool
        ensures { result ≡ is_table_type (feature_set self.now.features) (map sub_type self.now.types.now) (table_type type_.now) }
    {
        let reference = type_.element_type;
        let most = if type_.table64 {
            u64::MAX
        } else {
            u64::from(u32::MAX)
        };
        (is_funcref(reference) || is_allowed(self.features, ValType::Ref(reference)))
            && self.is_named(reference.heap_type)
            && (!type_.table64 || self.features.memory64())
            && are_bounds(type_.minimum, type_.maximum, most)
    }

    fn keeps_tag(&self, index: u32) -> bool
        ensures { (spaces : Spaces) → Stand self.now spaces → result ≡ keeps_tag (feature_set self.now.features) spaces index }
    {
        if !self.features.exceptions() {
            return false;
        }
        match self.function(index) {
            Some(function) => function.results().is_empty() || self.features.stack_switching(),
            None => false,
        }
    }

    // Checks that an item of this type keeps its rule, but that a global may always be set.
    fn keeps_type(&self, type_: &EntityType) -> bool
        ensures { (spaces : Spaces) → Stand self.now spaces → result ≡ keeps_type (feature_set self.now.features) spaces (entity_type type_.now) }
    {
        match type_ {
            EntityType::Function(index) => self.function(*index).is_some(),
            EntityType::Table(table) => {
                self.is_table_type(table) && (!self.has_table || self.features.reference_types())
            }
            EntityType::Memory(memory) => {
                is_memory_type(self.features, memory)
                    && (!self.has_memory || self.features.multi_memory())
            }
            EntityType::Global(global) => self.is_value(global.val_type),
            EntityType::Tag(tag) => self.keeps_tag(tag.func_type_idx),
        }
    }

    // Checks that an item may be imported or exported: globals that can be set came with a feature.
    fn may_cross(&self, type_: &EntityType) -> bool
        ensures { result ≡ may_leave (feature_set self.now.features) (Some (entity_type type_.now)) }
    {
        match type_ {
            EntityType::Global(global) => !global.mutable || self.features.mutable_global(),
            _ => true,
        }
    }

    // Checks that the elements of a table may begin as its type asks.
    fn may_begin(&self, type_: &EntityType) -> bool
        ensures { result ≡ may_begin (feature_set self.now.features) (entity_type type_.now) }
    {
        match type_ {
            EntityType::Table(table) => {
                table.element_type.nullable || self.features.function_references()
            }
            _ => true,
        }
    }

    // Adds an item that is imported or defined.
    fn add(&mut self, type_: &EntityType)
        ensures imported { (spaces : Spaces) → Stand self.old spaces → Stand self.new (with_item spaces (entity_type type_.now)) }
        ensures own { (spaces : Spaces) → Stand self.old spaces → Stand self.new (with_own spaces (entity_type type_.now)) }
        ensures features { self.new.features ≡ self.old.features }
    {
        match type_ {
            EntityType::Table(_) => self.has_table = true,
            EntityType::Memory(_) => self.has_memory = true,
            EntityType::Function(_) | EntityType::Global(_) | EntityType::Tag(_) => {}
        }
    }

    /// Adds items that are imported, up to the first that doesn't keep its rule. Returns true if each does.
    pub fn import_all(&mut self, items: &[EntityType]) -> bool
        ensures kept { (spaces : Spaces) → Stand self.old spaces → result ≡ keep_items (feature_set self.old.features) spaces (map entity_type items.now) }
        ensures after { (spaces : Spaces) → Stand self.old spaces → IsTrue result → Stand self.new (with_items spaces (map entity_type items.now)) }
        ensures features { self.new.features ≡ self.old.features }
    {
        for type_ in items {
            if !self.keeps_type(type_) || !self.may_cross(type_) {
                return false;
            }
            self.add(type_);
        }
        true
    }

    // Adds items that the module defines and exports, up to the first that doesn't keep its rule. Returns true if each does.
    fn define_all(&mut self, items: &[EntityType]) -> bool
        ensures { (spaces : Spaces) → Stand self.old spaces → result ≡ keep_own (feature_set self.old.features) spaces (map entity_type items.now) }
    {
        for type_ in items {
            if !self.keeps_type(type_) || !self.may_begin(type_) || !self.may_cross(type_) {
                return false;
            }
            self.add(type_);
        }
        true
    }

    /// Checks that the module may define and export these items as well.
    pub fn can_define_all(&self, items: &[EntityType]) -> bool
        ensures { (spaces : Spaces) → Stand self.now spaces → result ≡ keep_own (feature_set self.now.features) spaces (map entity_type items.now) }
    {
        let mut with_items = *self;
        with_items.define_all(items)
    }
}
