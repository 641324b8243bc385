use std::alloc::Global;
use wasm_encoder::encode_error::EncodeError;
use wasm_encoder::entity_type::{ExportKind, MemoryType};
use wasm_encoder::export_section::ExportSection;
use wasm_encoder::memory_section::MemorySection;
use wasm_encoder::module::Module;

pub fn one_memory(alloc: Global, ty: MemoryType) -> Result<Vec<u8>, EncodeError> {
    let mut memories = MemorySection::new(alloc);
    // Kept, and written with the section.
    memories.memory(ty)?;
    let mut exports = ExportSection::new(alloc);
    exports.export("memory", ExportKind::Memory, 0)?;
    let mut module = Module::new(alloc)?;
    module.push(&memories)?;
    module.push(&exports)?;
    Ok(module.finish())
}

#[test]
fn a_memory_is_written(rt: HostRuntime) {
    let ty = MemoryType {
        minimum: 1,
        maximum: None,
        memory64: false,
        shared: false,
        page_size_log2: None,
    };
    let expected: &[u8] = b"\0asm\x01\0\0\0\x05\x03\x01\0\x01\x07\x0a\x01\x06memory\x02\0";
    assert!(rt; one_memory(rt.alloc(), ty).ok().as_deref() == Some(expected));
}
