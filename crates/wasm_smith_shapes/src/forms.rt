//! Types and items that a shape may have.

ghost use Rattle.std.specs.Prelude.{◌≡◌, map};
ghost use Rattle.std.specs.List.{list_all};
ghost use Rattle.wasm_core_types.specs.CoreTypes.{abstract_heap_type, field_type, heap_type, storage_type, val_type};
ghost use Rattle.wasm_core_types.specs.SubTypes.{composite_type, sub_type};
ghost use Rattle.wasm_encoder_sections.specs.CoreItems.{entity_type};
ghost use Rattle.wasm_smith_shapes.specs.Forms as spec;
ghost use Rattle.wasm_smith_shapes.specs.Imports.{import_entry, import_item};

use crate::imports::{ImportEntry, ImportItem};
use crate::shape::ShapeUse;
use wasm_core_types::types::{
    AbstractHeapType, ArrayType, CompositeType, FieldType, FuncType, HeapType, StorageType,
    SubType, ValType,
};
use wasm_encoder_sections::entity_type::EntityType;

// Checks that a heap type is one of `named` types, or one of no continuations.
fn may_refer(named: usize, heap: HeapType) -> bool
    ensures { result ≡ spec.may_refer named (heap_type heap) }
{
    match heap {
        HeapType::Abstract(AbstractHeapType::Cont | AbstractHeapType::NoCont) => false,
        HeapType::Abstract(_) => true,
        HeapType::Concrete(index) => (index as usize) < named,
    }
}

fn may_hold(named: usize, type_: ValType) -> bool
    ensures { result ≡ spec.may_hold named (val_type type_) }
{
    match type_ {
        ValType::Ref(reference) => may_refer(named, reference.heap_type),
        _ => true,
    }
}

fn may_hold_all(named: usize, types: &[ValType]) -> bool
    ensures { result ≡ list_all (spec.may_hold named) (map val_type types.now) }
{
    types.iter().all(|type_| may_hold(named, *type_))
}

fn may_store(named: usize, storage: StorageType) -> bool
    ensures { result ≡ spec.may_store named (storage_type storage) }
{
    match storage {
        StorageType::I8 | StorageType::I16 => true,
        StorageType::Val(type_) => may_hold(named, type_),
    }
}

fn may_store_all(named: usize, fields: &[FieldType]) -> bool
    ensures { result ≡ list_all (λ field. spec.may_store named field.element_type) (map field_type fields.now) }
{
    fields
        .iter()
        .all(|field| may_store(named, field.element_type))
}

fn may_be_made_of(named: usize, type_: &CompositeType) -> bool
    ensures { result ≡ spec.may_be_made_of named (composite_type type_.now) }
{
    match type_ {
        CompositeType::Func(function) => {
            may_hold_all(named, function.params()) && may_hold_all(named, function.results())
        }
        CompositeType::Struct(structure) => may_store_all(named, structure.fields()),
        CompositeType::Array(ArrayType(field)) => may_store(named, field.element_type),
        CompositeType::Cont(_) => false,
    }
}

fn is_lone_function(type_: &SubType) -> bool
    ensures { result ≡ spec.is_lone_function (sub_type type_.now) }
{
    type_.is_final
        && type_.supertype_idx.is_none()
        && matches!(type_.composite_type, CompositeType::Func(_))
}

// Checks that a type names none but the first `named` types, and isn't one of continuations; in a shape of exports, that it is a function type which names
// none.
fn may_have_type(purpose: ShapeUse, named: usize, type_: &SubType) -> bool
    ensures { result ≡ spec.may_have_named_type purpose named (sub_type type_.now) }
{
    match purpose {
        ShapeUse::Exports => { is_lone_function(type_) && may_be_made_of(0, &type_.composite_type) }
        ShapeUse::Module | ShapeUse::Imports => may_be_made_of(named, &type_.composite_type),
    }
}

/// Checks that a shape may have these types, and that they name none but the first `named` types.
pub fn may_have_types(purpose: ShapeUse, named: usize, types: &[SubType]) -> bool
    ensures { result ≡ list_all (spec.may_have_named_type purpose named) (map sub_type types.now) }
{
    types
        .iter()
        .all(|type_| may_have_type(purpose, named, type_))
}

// Returns the number of types that items may name, at most.
fn most_named(purpose: ShapeUse) -> usize
    ensures { result ≡ spec.most_named purpose }
{
    match purpose {
        ShapeUse::Module | ShapeUse::Imports => 0x1_0000_0000,
        ShapeUse::Exports => 0,
    }
}

// Checks that a shape for this purpose may have an item of this type.
fn may_have_item(purpose: ShapeUse, type_: &EntityType) -> bool
    ensures { result ≡ spec.may_have_item (spec.most_named purpose) (entity_type type_.now) }
{
    match type_ {
        EntityType::Table(table) => { may_refer(most_named(purpose), table.element_type.heap_type) }
        EntityType::Global(global) => may_hold(most_named(purpose), global.val_type),
        EntityType::Function(_) | EntityType::Memory(_) | EntityType::Tag(_) => true,
    }
}

fn may_have_import_items(purpose: ShapeUse, items: &[ImportItem]) -> bool
    ensures { result ≡ list_all (λ item. spec.may_have_item (spec.most_named purpose) item.type) (map import_item items.now) }
{
    items.iter().all(|item| may_have_item(purpose, &item.ty))
}

fn may_have_entry(purpose: ShapeUse, entry: &ImportEntry) -> bool
    ensures { result ≡ spec.may_have_entry (spec.most_named purpose) (import_entry entry.now) }
{
    match entry {
        ImportEntry::Single { ty, .. } => may_have_item(purpose, ty),
        ImportEntry::Compact1 { items, .. } => may_have_import_items(purpose, items),
        ImportEntry::Compact2 { ty, .. } => may_have_item(purpose, ty),
    }
}

/// Checks that a shape for this purpose may have these entries of imports.
pub fn may_have_entries(purpose: ShapeUse, imports: &[ImportEntry]) -> bool
    ensures { result ≡ list_all (spec.may_have_entry (spec.most_named purpose)) (map import_entry imports.now) }
{
    imports.iter().all(|entry| may_have_entry(purpose, entry))
}

/// Checks that a shape for this purpose may have items of these types.
pub fn may_have_items(purpose: ShapeUse, items: &[EntityType]) -> bool
    ensures { result ≡ list_all (spec.may_have_item (spec.most_named purpose)) (map entity_type items.now) }
{
    items.iter().all(|type_| may_have_item(purpose, type_))
}
