//! Modules that are written section by section.

use std::alloc::Global;
use wasm_core::encode_error::EncodeError;
use wasm_core::module::Module;
use wasm_core::type_section::TypeSection;

fn new_module(alloc: Global) -> Result<Module, EncodeError> {
    match Module::new(alloc) {
        Err(EncodeError::Memory) => Module::new(alloc),
        answer => answer,
    }
}

// Adds a section by one of the two calls, and answers why it is refused, if it is.
fn refusal(module: &mut Module, types: &TypeSection, number: u32) -> Option<EncodeError> {
    if number % 2 == 0 {
        return module.push(types).err();
    }
    module.section(types).err()
}

// Checks that a section goes in, at the second call where the first is out of memory.
fn takes(module: &mut Module, types: &TypeSection, number: u32) -> bool {
    match refusal(module, types, number) {
        Some(error) => error == EncodeError::Memory && refusal(module, types, number).is_none(),
        None => true,
    }
}

// Checks that 40 sections without entries go in.
fn takes_all(module: &mut Module, types: &TypeSection) -> bool {
    for number in 0..40_u32 {
        if !takes(module, types, number) {
            return false;
        }
    }
    true
}

// Checks that a module has its header and just 40 sections, so that nothing is left of refused ones.
fn is_whole(alloc: Global) -> Option<bool> {
    let mut module = new_module(alloc).ok()?;
    let are_taken = takes_all(&mut module, &TypeSection::new(alloc));
    let bytes = module.finish();
    Some(are_taken && bytes.len() == 128 && bytes.ends_with(b"\x01\x01\0\x01\x01\0"))
}

#[test]
fn modules_take_sections(rt: HostRuntime) {
    assert!(rt; is_whole(rt.alloc()) == Some(true));
}
