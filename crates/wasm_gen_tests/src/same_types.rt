//! Types that are the same.

use wasm_core::types::{CompositeType, SubType};

/// Checks that two types are the same.
pub fn is_same_type(one: &SubType, other: &SubType) -> bool {
    one.is_final == other.is_final
        && one.supertype_idx == other.supertype_idx
        && is_same_composite(&one.composite_type, &other.composite_type)
}

// Checks that two types are the same, their supertypes aside.
fn is_same_composite(one: &CompositeType, other: &CompositeType) -> bool {
    match (one, other) {
        (CompositeType::Func(one), CompositeType::Func(other)) => {
            one.params() == other.params() && one.results() == other.results()
        }
        (CompositeType::Struct(one), CompositeType::Struct(other)) => {
            one.fields() == other.fields()
        }
        (CompositeType::Array(one), CompositeType::Array(other)) => one == other,
        _ => false,
    }
}
