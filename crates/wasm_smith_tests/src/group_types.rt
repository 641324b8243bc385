//! Recursive groups of types that are drawn from bytes.

use std::alloc::Global;
use wasm_smith::config::Config;
use wasm_smith::unstructured::Unstructured;
use wasm_smith_types::types::make_types;
use wasm_smith_types::value_types::Offers;

// Returns the types that the default configuration makes of these bytes, shown.
fn shown(alloc: Global, bytes: &[u8]) -> Option<String> {
    let config = Config::default();
    let offers = Offers::new(alloc, &config).ok()?;
    let source = &mut Unstructured::new(bytes);
    let types = make_types(alloc, source, &offers, &config, u32::MAX).ok()?;
    format!(in alloc; "{types:?}").ok()
}

fn makes(alloc: Global, bytes: &[u8], expected: &str) -> bool {
    match shown(alloc, bytes) {
        Some(text) => text.as_str() == expected,
        None => false,
    }
}

// An open structure and its clone.
#[test]
fn an_open_structure_and_its_clone(rt: HostRuntime) {
    let expected =
        "Types { types: [SubType { is_final: false, supertype_idx: None, composite_type: Struct(StructType { fields: [FieldType { element_type: I8, mutable: true }] }) }, SubType { is_final: false, supertype_idx: None, composite_type: Struct(StructType { fields: [FieldType { element_type: I8, mutable: true }] }) }], sizes: [1, 1], candidates: [Candidate { index: 0, height: 0 }, Candidate { index: 1, height: 0 }] }";
    assert!(rt; makes(rt.alloc(), &[1, 0, 1, 1, 1, 1, 1, 0, 1, 1], expected));
}

// Two structures of a group that refer to each other.
#[test]
fn two_structures(rt: HostRuntime) {
    let expected =
        "Types { types: [SubType { is_final: true, supertype_idx: None, composite_type: Struct(StructType { fields: [FieldType { element_type: Val(Ref(RefType { nullable: true, heap_type: Concrete(1) })), mutable: false }] }) }, SubType { is_final: true, supertype_idx: None, composite_type: Struct(StructType { fields: [FieldType { element_type: Val(Ref(RefType { nullable: true, heap_type: Concrete(0) })), mutable: false }] }) }], sizes: [2], candidates: [] }";
    assert!(rt;
        makes(
            rt.alloc(),
            &[1, 1, 0, 1, 1, 0, 5, 0, 1, 1, 0, 0, 0, 1, 1, 0, 5, 0, 1],
            expected
        )
    );
}

// An open array, and a type under it whose elements are never null.
#[test]
fn a_narrowed_array(rt: HostRuntime) {
    let expected =
        "Types { types: [SubType { is_final: false, supertype_idx: None, composite_type: Array(ArrayType(FieldType { element_type: Val(Ref(RefType { nullable: true, heap_type: Abstract(Func) })), mutable: false })) }, SubType { is_final: true, supertype_idx: Some(0), composite_type: Array(ArrayType(FieldType { element_type: Val(Ref(RefType { nullable: false, heap_type: Abstract(Func) })), mutable: false })) }], sizes: [1, 1], candidates: [Candidate { index: 0, height: 0 }] }";
    assert!(rt;
        makes(
            rt.alloc(),
            &[1, 0, 1, 2, 0, 5, 0, 0, 0, 0, 1, 0, 0, 1, 0, 1],
            expected
        )
    );
}
