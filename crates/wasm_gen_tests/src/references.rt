//! References of types to defined types.

use wasm_core::types::{
    CompositeType, FieldType, HeapType, RefType, StorageType, SubType, ValType,
};

/// The types from one index to right before another.
#[derive(Clone, Copy)]
pub struct Span {
    /// The first index.
    pub start: u32,
    /// The index right after the last one.
    pub end: u32,
}

impl Span {
    fn contains(self, index: u32) -> bool {
        self.start <= index && index < self.end
    }
}

// Checks that a value type is a reference to one of these types.
fn is_reference_to(type_: &ValType, targets: Span) -> bool {
    match type_ {
        ValType::Ref(
            RefType {
                nullable: _,
                heap_type: HeapType::Concrete(index),
            },
        ) => targets.contains(*index),
        _ => false,
    }
}

// Checks that one of the value types is a reference to one of these types.
fn some_refer_to(types: &[ValType], targets: Span) -> bool {
    for type_ in types {
        if is_reference_to(type_, targets) {
            return true;
        }
    }
    false
}

// Checks that a field holds a reference to one of these types.
fn holds_reference_to(field: &FieldType, targets: Span) -> bool {
    match &field.element_type {
        StorageType::Val(type_) => is_reference_to(type_, targets),
        StorageType::I8 | StorageType::I16 => false,
    }
}

// Checks that one of the fields holds a reference to one of these types.
fn some_hold_reference_to(fields: &[FieldType], targets: Span) -> bool {
    for field in fields {
        if holds_reference_to(field, targets) {
            return true;
        }
    }
    false
}

// Checks that a type refers to one of these types.
fn refers_to(type_: &CompositeType, targets: Span) -> bool {
    match type_ {
        CompositeType::Func(function) => {
            some_refer_to(function.params(), targets) || some_refer_to(function.results(), targets)
        }
        CompositeType::Struct(structure) => some_hold_reference_to(structure.fields(), targets),
        CompositeType::Array(array) => holds_reference_to(&array.0, targets),
        CompositeType::Cont(_) => false,
    }
}

/// Checks that a type of a group refers to one of these types.
pub fn group_refers_to(group: &[SubType], targets: Span) -> bool {
    for type_ in group {
        if refers_to(&type_.composite_type, targets) {
            return true;
        }
    }
    false
}

/// Returns the types of a group, or none where they are not all there.
pub fn group_at(types: &[SubType], span: Span) -> &[SubType] {
    types
        .get(span.start as usize..span.end as usize)
        .unwrap_or(&[])
}
