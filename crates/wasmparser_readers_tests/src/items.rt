//! Items, each with what it shows.

use std::alloc::Global;
use std::fmt::Debug;
use std::test::Fail;
use wasm_core_read::binary_reader::BinaryReader;
use wasm_test_rows::fields::three_fields;
use wasm_test_rows::rows::check_rows;
use wasm_test_rows::shown::debugs;
use wasm_test_rows::values::bytes_of;
use wasmparser_readers::export::Export;
use wasmparser_readers::from_reader::FromReader;
use wasmparser_readers::global_type::GlobalType;
use wasmparser_readers::memory_type::MemoryType;
use wasmparser_readers::table_type::TableType;
use wasmparser_readers::tag_type::TagType;
use wasmparser_readers::type_ref::TypeRef;

// The kind of the item, the bytes, and the item's `Debug`, or the kind of the refusal.
const ITEMS: &str = r#"
    memory | 00 01 | MemoryType { memory64: false, shared: false, initial: 1, maximum: None, page_size_log2: None }
    memory | 01 01 80 02 | MemoryType { memory64: false, shared: false, initial: 1, maximum: Some(256), page_size_log2: None }
    memory | 02 01 | MemoryType { memory64: false, shared: true, initial: 1, maximum: None, page_size_log2: None }
    memory | 07 01 02 | MemoryType { memory64: true, shared: true, initial: 1, maximum: Some(2), page_size_log2: None }
    memory | 08 01 10 | MemoryType { memory64: false, shared: false, initial: 1, maximum: None, page_size_log2: Some(16) }
    memory | 0d 00 00 00 | MemoryType { memory64: true, shared: false, initial: 0, maximum: Some(0), page_size_log2: Some(0) }
    memory | 00 ff ff ff ff ff ff ff ff ff 01 | MemoryType { memory64: false, shared: false, initial: 18446744073709551615, maximum: None, page_size_log2: None }
    memory | 08 00 80 80 80 80 10 | malformed
    memory | 09 01 02 03 | MemoryType { memory64: false, shared: false, initial: 1, maximum: Some(2), page_size_log2: Some(3) }
    memory | 0f 01 02 03 | MemoryType { memory64: true, shared: true, initial: 1, maximum: Some(2), page_size_log2: Some(3) }
    memory | 0b 01 02 03 | MemoryType { memory64: false, shared: true, initial: 1, maximum: Some(2), page_size_log2: Some(3) }
    memory | 0e 01 02 | MemoryType { memory64: true, shared: true, initial: 1, maximum: None, page_size_log2: Some(2) }
    memory | 03 01 02 | MemoryType { memory64: false, shared: true, initial: 1, maximum: Some(2), page_size_log2: None }
    memory | 04 01 | MemoryType { memory64: true, shared: false, initial: 1, maximum: None, page_size_log2: None }
    memory | 01 00 ff*9 01 | MemoryType { memory64: false, shared: false, initial: 0, maximum: Some(18446744073709551615), page_size_log2: None }
    memory | 08 00 ff*4 0f | MemoryType { memory64: false, shared: false, initial: 0, maximum: None, page_size_log2: Some(4294967295) }
    memory | 00 80*9 02 | malformed
    memory | 10 01 | malformed
    memory | 80 00 01 | malformed
    memory | 01 01 | malformed
    memory | | malformed

    table | 70 00 0a | TableType { element_type: RefType { bits: 449 }, table64: false, initial: 10, maximum: None }
    table | 64 00 05 80 01 81 01 | TableType { element_type: RefType { bits: 2 }, table64: true, initial: 128, maximum: Some(129) }
    table | 64 80 80 c0 00 00 01 | invalid
    table | 64 80 80 c0 00 00 | malformed
    table | 70 02 01 | malformed
    table | 70 08 01 10 | malformed
    table | 70 01 01 02 | TableType { element_type: RefType { bits: 449 }, table64: false, initial: 1, maximum: Some(2) }
    table | 70 04 01 | TableType { element_type: RefType { bits: 449 }, table64: true, initial: 1, maximum: None }
    table | 70 03 01 02 | malformed
    table | 70 0d 00 00 00 | malformed
    table | 70 10 01 | malformed
    table | 40 00 70 00 00 | malformed
    table | 7f 00 01 | malformed

    global | 7f 00 | GlobalType { content_type: I32, mutable: false }
    global | 7b 01 | GlobalType { content_type: V128, mutable: true }
    global | 63 80 80 c0 00 01 | invalid
    global | 63 80 80 c0 00 02 | malformed
    global | 7f 02 | malformed
    global | 70 01 | GlobalType { content_type: Ref(RefType { bits: 449 }), mutable: true }
    global | 7f 80 00 | malformed
    global | 78 00 | malformed
    global | 7f | malformed

    tag | 00 05 | TagType { kind: Exception, func_type_idx: 5 }
    tag | 00 ff ff ff ff 0f | TagType { kind: Exception, func_type_idx: 4294967295 }
    tag | 01 05 | malformed
    tag | 80 00 05 | malformed
    tag | 00 | malformed
    tag | 00 80*4 10 | malformed

    import | 00 ff ff ff ff 0f | Func(4294967295)
    import | 01 6f 00 01 | Table(TableType { element_type: RefType { bits: 445 }, table64: false, initial: 1, maximum: None })
    import | 02 00 01 | Memory(MemoryType { memory64: false, shared: false, initial: 1, maximum: None, page_size_log2: None })
    import | 03 7e 01 | Global(GlobalType { content_type: I64, mutable: true })
    import | 04 00 07 | Tag(TagType { kind: Exception, func_type_idx: 7 })
    import | 03 64 80 80 40 00 | malformed
    import | 03 64 80 80 c0 00 00 | invalid
    import | 01 64 80 80 c0 00 00 01 | invalid
    import | 01 64 80 80 c0 00 02 01 | malformed
    import | 01 70 02 01 | malformed
    import | 04 00 ff*4 0f | Tag(TagType { kind: Exception, func_type_idx: 4294967295 })
    import | 04 01 07 | malformed
    import | 80 00 00 | malformed
    import | 7f 00 | malformed
    import | 20 00 | malformed
    import | 05 00 | malformed

    export | 01 61 00 00 | Export { name: "a", kind: Func, index: 0 }
    export | 00 01 80 00 | Export { name: "", kind: Table, index: 0 }
    export | 02 c3 a9 02 05 | Export { name: "é", kind: Memory, index: 5 }
    export | 01 62 03 01 | Export { name: "b", kind: Global, index: 1 }
    export | 01 62 04 ff ff ff ff 0f | Export { name: "b", kind: Tag, index: 4294967295 }
    export | 01 62 05 00 | malformed
    export | 01 ff 00 00 | malformed
    export | 03 61 62 | malformed
    export | 81 80 80 80 00 61 00 00 | Export { name: "a", kind: Func, index: 0 }
    export | 01 61 80 00 00 | malformed
    export | 02 c0 80 00 00 | malformed
    export | 03 ed a0 80 00 00 | malformed
    export | 01 61 00 80*4 10 | malformed
"#;

const COUNT_OF_ITEMS: usize = 78;

fn shows<'a, T: FromReader<'a> + Debug + Drop>(
    alloc: Global,
    bytes: &'a [u8],
    words: &str,
) -> bool {
    let mut reader = BinaryReader::new(bytes, 0);
    match T::from_reader(alloc, &mut reader) {
        Ok(it) => reader.eof() && debugs(alloc, &it, words),
        Err(error) => error.kind.name() == words,
    }
}

fn holds(alloc: Global, row: &str) -> Option<bool> {
    let (kind, field, words) = three_fields(row)?;
    let bytes = bytes_of(alloc, field)?;
    match kind {
        "memory" => Some(shows::<MemoryType>(alloc, &bytes, words)),
        "table" => Some(shows::<TableType>(alloc, &bytes, words)),
        "global" => Some(shows::<GlobalType>(alloc, &bytes, words)),
        "tag" => Some(shows::<TagType>(alloc, &bytes, words)),
        "import" => Some(shows::<TypeRef>(alloc, &bytes, words)),
        "export" => Some(shows::<Export<'_>>(alloc, &bytes, words)),
        _ => None,
    }
}

#[test]
fn items_read(rt: HostRuntime) -> Result<(), Fail> {
    check_rows(rt.alloc(), ITEMS, COUNT_OF_ITEMS, holds)?;
    Ok(())
}
