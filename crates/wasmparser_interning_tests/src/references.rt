//! References in words.

use wasmparser_type_words::names::named;
use wasmparser_type_words::types::index_of;
use wasmparser_types::heap_type::{AbstractHeapType, HeapType};
use wasmparser_types::ref_type::RefType;

// The abstract heap types by their names.
const ABSTRACT: &[(&str, AbstractHeapType)] = &[
    ("any", AbstractHeapType::Any),
    ("eq", AbstractHeapType::Eq),
    ("i31", AbstractHeapType::I31),
    ("struct", AbstractHeapType::Struct),
    ("array", AbstractHeapType::Array),
    ("none", AbstractHeapType::None),
    ("func", AbstractHeapType::Func),
    ("nofunc", AbstractHeapType::NoFunc),
    ("extern", AbstractHeapType::Extern),
    ("noextern", AbstractHeapType::NoExtern),
    ("exn", AbstractHeapType::Exn),
    ("noexn", AbstractHeapType::NoExn),
    ("cont", AbstractHeapType::Cont),
    ("nocont", AbstractHeapType::NoCont),
];

// Returns the abstract heap type of this name.
fn abstract_heap_type_of(word: &str) -> Option<AbstractHeapType> {
    named(ABSTRACT, word)
}

/// Returns a reference to an abstract heap type by its name, or to a defined type by its id (`#1`) or its place in a group (`own.1`).
pub fn ref_type_of(is_nullable: bool, word: &str) -> Option<RefType> {
    match abstract_heap_type_of(word) {
        Some(it) => RefType::new(is_nullable, HeapType::Abstract(it)),
        None => Some(RefType::concrete(is_nullable, index_of(word)?)),
    }
}
