//! The bytes of modules that are written section by section.

use crate::type_section::section_of;
use std::alloc::Global;
use wasm_core::module::Module;
use wasm_core::type_section::TypeSection;

// Adds two sections, the second to what the first call answers.
fn add_both(module: &mut Module, first: &TypeSection, second: &TypeSection) -> bool {
    match module.section(first) {
        Ok(module) => module.section(second).is_ok(),
        Err(_) => false,
    }
}

// Returns a module of a section of one function type, and of one without entries.
fn two_sections(alloc: Global) -> Option<Vec<u8>> {
    let first = section_of(alloc, "func ->")?;
    let mut module = Module::new(alloc).ok()?;
    if add_both(&mut module, &first, &TypeSection::new(alloc)) {
        Some(module.finish())
    } else {
        None
    }
}

#[test]
fn sections_stand_one_after_the_other(rt: HostRuntime) {
    let expected: &[u8] = b"\0asm\x01\0\0\0\x01\x04\x01\x60\0\0\x01\x01\0";
    assert!(rt; two_sections(rt.alloc()).as_deref() == Some(expected));
}

fn no_sections(alloc: Global) -> Option<Vec<u8>> {
    Some(Module::new(alloc).ok()?.finish())
}

#[test]
fn header_alone(rt: HostRuntime) {
    let expected: &[u8] = b"\0asm\x01\0\0\0";
    assert!(rt; no_sections(rt.alloc()).as_deref() == Some(expected));
}
