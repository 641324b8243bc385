use std::alloc::Global;
use wasm_core::encode_error::EncodeError;
use wasm_core::module::Module;
use wasm_core::type_section::TypeSection;
use wasm_core::types::{FuncType, ValType};

pub fn one_type(alloc: Global) -> Result<Vec<u8>, EncodeError> {
    let params = vec![in alloc; ValType::I32]?;
    let mut types = TypeSection::new(alloc);
    // A refused call leaves the section as it was.
    types.func(FuncType::new(params, Vec::new(alloc)))?;
    let mut module = Module::new(alloc)?;
    // Measured first, then written in one go.
    module.section(&types)?;
    Ok(module.finish())
}

#[test]
fn a_type_is_written(rt: HostRuntime) {
    let expected: &[u8] = b"\0asm\x01\0\0\0\x01\x05\x01\x60\x01\x7f\0";
    assert!(rt; one_type(rt.alloc()).ok().as_deref() == Some(expected));
}
