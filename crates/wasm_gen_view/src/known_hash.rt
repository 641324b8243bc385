//! A hash of the types of a valid module.

use std::hash::{DefaultHasher, Hash};
use wasmparser_validator::types::TypesRef;

/// Returns a hasher to which the types were added.
pub(crate) fn known_hash(types: &TypesRef<'_>) -> DefaultHasher {
    let mut hasher = DefaultHasher::new();
    for index in 0..types.core_type_count_in_module() {
        if let Some(ty) = types.get(types.core_type_at_in_module(index)) {
            ty.hash(&mut hasher);
        }
    }
    hasher
}
