//! The imports that are shown of a module.

use crate::new_validator::on_types;
use std::alloc::Global;
use std::iter::Iterator;
use wasm_core::features::WasmFeatures;
use wasmparser::types::TypesRef;

// A module of imported globals, two of which have the same names.
const MODULE: &[u8] =
    b"\0asm\x01\0\0\0\x02\x16\x03\x01m\x01a\x03\x7f\0\x01m\x01b\x03\x7f\0\x01m\x01a\x03\x7f\0";

// Checks that just three imports are shown. None where memory runs out.
fn has_three(view: TypesRef<'_>) -> Option<bool> {
    let mut imports = view.core_imports().ok()??;
    for _ in 0..3_u32 {
        if imports.next().is_none() {
            return Some(false);
        }
    }
    Some(imports.next().is_none())
}

// Checks that they are, at the second time where memory runs out at the first.
fn shows(_alloc: Global, view: TypesRef<'_>, _bytes: &[u8], _row: &str) -> Option<bool> {
    match has_three(view) {
        Some(are_three) => Some(are_three),
        None => has_three(view),
    }
}

// Checks that they are of a module, likewise.
fn holds(alloc: Global) -> Option<bool> {
    match on_types(alloc, WasmFeatures::default(), MODULE, "", shows) {
        Some(are_shown) => Some(are_shown),
        None => on_types(alloc, WasmFeatures::default(), MODULE, "", shows),
    }
}

#[test]
fn imports_are_shown(rt: HostRuntime) {
    assert!(rt; holds(rt.alloc()) == Some(true));
}
