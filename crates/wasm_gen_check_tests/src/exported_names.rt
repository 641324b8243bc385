//! The report on an export whose name has each byte that UTF-8 allows.

use crate::reports::put_report;
use std::alloc::Global;
use wasm_core::features::WasmFeatures;
use wasm_encoder::encode_error::EncodeError;
use wasm_encoder::entity_type::{ExportKind, MemoryType};
use wasm_encoder::export_section::ExportSection;
use wasm_encoder::memory_section::MemorySection;
use wasm_encoder::module::Module;
use wasm_gen::session::Session;
use wasm_gen_rows::new_session::on_new_session;

// The bytes that stand for themselves in the text of a name.
const PLAIN: &[u8] =
    b" !#$%&'()*+,-./0123456789:;<=>?@ABCDEFGHIJKLMNOPQRSTUVWXYZ[]^_`abcdefghijklmnopqrstuvwxyz{|}~";

const DIGITS: &[u8] = b"0123456789abcdef";

const MEMORY: MemoryType = MemoryType {
    minimum: 1,
    maximum: None,
    memory64: false,
    shared: false,
    page_size_log2: None,
};

// Appends every character of one or two bytes, and every 1,024th of the others.
fn push_characters(name: &mut String) -> Option<()> {
    for code in 0..0x800 {
        name.push(char::from_u32(code)?).ok()?;
    }
    for part in 2..0x440u32 {
        // (surrogates are no characters)
        if let Some(character) = char::from_u32(part.wrapping_mul(0x400)) {
            name.push(character).ok()?;
        }
    }
    Some(())
}

// Appends the text of a byte of a name.
fn push_byte(text: &mut String, byte: u8) -> Option<()> {
    if PLAIN.contains(&byte) {
        return text.push(char::from(byte)).ok();
    }
    text.push('\\').ok()?;
    for digit in [byte / 16, byte % 16] {
        text.push(char::from(*DIGITS.get(usize::from(digit))?))
            .ok()?;
    }
    Some(())
}

// Returns the report on a module that exports its memory by this name.
fn report_of(alloc: Global, name: &str) -> Option<String> {
    let mut text = String::new(alloc);
    text.push_str("memory 0 1 - 32 plain -\nexport \"").ok()?;
    for byte in name.as_bytes() {
        push_byte(&mut text, *byte)?;
    }
    text.push_str("\" memory 1 - 32 plain -\n").ok()?;
    Some(text)
}

fn push_sections(alloc: Global, module: &mut Module, name: &str) -> Result<(), EncodeError> {
    let mut memories = MemorySection::new(alloc);
    memories.push(MEMORY)?;
    module.push(&memories)?;
    let mut exports = ExportSection::new(alloc);
    exports.push(name, ExportKind::Memory, 0)?;
    module.push(&exports)
}

fn module_of(alloc: Global, name: &str) -> Result<Vec<u8>, EncodeError> {
    let mut module = Module::new(alloc)?;
    push_sections(alloc, &mut module, name)?;
    Ok(module.finish())
}

// Checks that a name has just the bytes that are in characters.
fn has_each_byte(name: &str) -> bool {
    for byte in 0..=255u8 {
        let is_allowed = byte < 0xc0 || (byte >= 0xc2 && byte <= 0xf4);
        if name.as_bytes().contains(&byte) != is_allowed {
            return false;
        }
    }
    true
}

fn is_reported(alloc: Global, session: &mut Session, name: &str) -> Option<bool> {
    let bytes = module_of(alloc, name).ok()?;
    let mut written = Vec::new(alloc);
    put_report(alloc, session, &bytes, &mut written)?;
    let expected = report_of(alloc, name)?;
    Some(has_each_byte(name) && written.as_slice() == expected.as_bytes())
}

fn is_written(alloc: Global) -> Option<bool> {
    let mut name = String::new(alloc);
    push_characters(&mut name)?;
    on_new_session(alloc, WasmFeatures::default(), &name, is_reported)
}

#[test]
fn names_have_escapes(rt: HostRuntime) {
    assert!(rt; is_written(rt.alloc()) == Some(true));
}
