//! Types that differ from their supertypes in that a reference may be null.

use wasm_core::types::{FieldType, StorageType, ValType};

// Checks that two references go to one type, and that the second alone may be null.
fn is_narrowed(narrow: &ValType, wide: &ValType) -> bool {
    match (narrow, wide) {
        (ValType::Ref(narrow), ValType::Ref(wide)) => {
            !narrow.nullable && wide.nullable && narrow.heap_type == wide.heap_type
        }
        _ => false,
    }
}

/// Checks that one of the types is such a reference, and that at its place among the wide ones the other.
pub fn some_are_narrowed(narrow: &[ValType], wide: &[ValType]) -> bool {
    for (narrow, wide) in narrow.iter().zip(wide) {
        if is_narrowed(narrow, wide) {
            return true;
        }
    }
    false
}

/// Checks that two fields hold such references, and that neither can be set.
pub fn is_narrowed_field(narrow: &FieldType, wide: &FieldType) -> bool {
    match (&narrow.element_type, &wide.element_type) {
        (StorageType::Val(narrow_type), StorageType::Val(wide_type)) => {
            !narrow.mutable && !wide.mutable && is_narrowed(narrow_type, wide_type)
        }
        _ => false,
    }
}

/// Checks that one of the fields is so narrowed.
pub fn some_fields_are_narrowed(narrow: &[FieldType], wide: &[FieldType]) -> bool {
    for (narrow, wide) in narrow.iter().zip(wide) {
        if is_narrowed_field(narrow, wide) {
            return true;
        }
    }
    false
}
