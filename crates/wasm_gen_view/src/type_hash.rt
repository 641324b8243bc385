//! A hash of the types of a module.

use std::hash::{DefaultHasher, Hash};
use wasm_core_types::types::{CompositeType, SubType};

// Adds a composite type.
fn hash_composite(ty: &CompositeType, hasher: &mut DefaultHasher) {
    match ty {
        CompositeType::Func(ty) => {
            ty.params().hash(hasher);
            ty.results().hash(hasher);
        }
        CompositeType::Array(ty) => ty.hash(hasher),
        CompositeType::Struct(ty) => ty.fields().hash(hasher),
        CompositeType::Cont(ty) => ty.hash(hasher),
    }
}

/// Returns a hasher to which the types were added.
pub(crate) fn hashed(types: &[SubType]) -> DefaultHasher {
    let mut hasher = DefaultHasher::new();
    for ty in types {
        ty.is_final.hash(&mut hasher);
        ty.supertype_idx.hash(&mut hasher);
        hash_composite(&ty.composite_type, &mut hasher);
    }
    hasher
}
