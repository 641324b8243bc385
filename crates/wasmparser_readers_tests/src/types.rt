//! Heap, reference and value types by themselves.

use std::alloc::Global;
use std::test::Fail;
use wasm_core_read::binary_reader::BinaryReader;
use wasm_test_rows::fields::three_fields;
use wasm_test_rows::rows::check_rows;
use wasm_test_rows::shown::debugs;
use wasm_test_rows::values::bytes_of;
use wasmparser_readers::from_reader::FromReader;
use wasmparser_types::heap_type::HeapType;
use wasmparser_types::ref_type::RefType;
use wasmparser_types::val_type::ValType;

// The form that is read, the bytes, and the value's `Debug`, or the kind of the refusal.
const TYPES: &str = "
    heap | 70 | Abstract(Func)
    heap | 68 | Abstract(Cont)
    heap | 7f | malformed
    ref | 75 | Abstract(NoCont)?
    ref | 74 | Abstract(NoExn)?
    ref | 73 | Abstract(NoFunc)?
    ref | 72 | Abstract(NoExtern)?
    ref | 71 | Abstract(None)?
    ref | 6f | Abstract(Extern)?
    ref | 6e | Abstract(Any)?
    ref | 6d | Abstract(Eq)?
    ref | 6c | Abstract(I31)?
    ref | 6b | Abstract(Struct)?
    ref | 6a | Abstract(Array)?
    ref | 69 | Abstract(Exn)?
    heap | 05 | Concrete(Module(5))
    heap | 80 80 c0 00 | Concrete(Module(1048576))
    heap | ff ff ff ff 0f | Concrete(Module(4294967295))
    heap | 3f | Concrete(Module(63))
    heap | c0 00 | Concrete(Module(64))
    heap | 85 80 80 80 00 | Concrete(Module(5))
    heap | 40 | malformed
    heap | 67 | malformed
    heap | 76 | malformed
    heap | f0 7f | malformed
    heap | 80 80 80 80 70 | malformed
    heap | ff ff ff ff 7f | malformed
    heap | ff ff ff ff 1f | malformed
    heap | 85 80 80 80 80 00 | malformed
    heap | 80 80 80 80 10 | malformed
    heap | | malformed
    ref | 70 | Abstract(Func)?
    ref | 63 70 | Abstract(Func)?
    ref | 64 6b | Abstract(Struct)
    ref | 64 71 | Abstract(None)
    ref | 63 68 | Abstract(Cont)?
    ref | 67 | malformed
    ref | 76 | malformed
    ref | 64 70 | Abstract(Func)
    ref | 63 05 | Concrete(Module(5))?
    ref | 64 ff ff 3f | Concrete(Module(1048575))
    ref | 64 80 80 c0 00 | invalid
    ref | 7f | malformed
    ref | 63 | malformed
    val | 7f | I32
    val | 7b | V128
    val | 64 80 80 c0 00 | invalid
    val | 63 80 80 c0 00 | invalid
    val | 78 | malformed
    val | 77 | malformed
    val | 64 7f | malformed
";

const COUNT_OF_TYPES: usize = 51;

fn is_reference(alloc: Global, reference: &RefType, words: &str) -> bool {
    let name = words.strip_suffix('?').unwrap_or(words);
    reference.is_nullable() == (name.len() < words.len())
        && debugs(alloc, &reference.heap_type(), name)
}

fn is_heap(alloc: Global, bytes: &[u8], words: &str) -> bool {
    let mut reader = BinaryReader::new(bytes, 0);
    match HeapType::from_reader(alloc, &mut reader) {
        Ok(it) => reader.eof() && debugs(alloc, &it, words),
        Err(error) => error.kind.name() == words,
    }
}

fn is_ref(alloc: Global, bytes: &[u8], words: &str) -> bool {
    let mut reader = BinaryReader::new(bytes, 0);
    match RefType::from_reader(alloc, &mut reader) {
        Ok(it) => reader.eof() && is_reference(alloc, &it, words),
        Err(error) => error.kind.name() == words,
    }
}

fn is_val(alloc: Global, bytes: &[u8], words: &str) -> bool {
    let mut reader = BinaryReader::new(bytes, 0);
    match ValType::from_reader(alloc, &mut reader) {
        Ok(it) => reader.eof() && debugs(alloc, &it, words),
        Err(error) => error.kind.name() == words,
    }
}

fn holds(alloc: Global, row: &str) -> Option<bool> {
    let (form, field, words) = three_fields(row)?;
    let bytes = bytes_of(alloc, field)?;
    match form {
        "heap" => Some(is_heap(alloc, &bytes, words)),
        "ref" => Some(is_ref(alloc, &bytes, words)),
        "val" => Some(is_val(alloc, &bytes, words)),
        _ => None,
    }
}

#[test]
fn types_read(rt: HostRuntime) -> Result<(), Fail> {
    check_rows(rt.alloc(), TYPES, COUNT_OF_TYPES, holds)?;
    Ok(())
}
