//! Entries of import sections, each with what it shows, and with the items of a group.

use std::alloc::Global;
use std::fmt::Debug;
use std::test::Fail;
use wasm_core_read::binary_reader::BinaryReader;
use wasm_core_types::features::{Flags, WasmFeatures};
use wasm_test_rows::fields::three_fields;
use wasm_test_rows::rows::check_rows;
use wasm_test_rows::shown::debugs;
use wasm_test_rows::values::bytes_of;
use wasmparser_entries::imports::Imports;
use wasmparser_error::error::{Error, ErrorKind};
use wasmparser_readers::from_reader::FromReader;
use wasmparser_readers::section_limited::SectionLimited;

// The offset of an entry in the input.
const START: u64 = 100;

// Compact imports, on or off; bytes, all of which are an entry; and the import, or a group's module, its type where it has one for all, the place of its
// list, and its items with their places; or the kind of the refusal.
const ENTRIES: &str = r#"
    // single imports
    off | 01 6d 01 61 00 05 | Import { module: "m", name: "a", ty: Func(5) }
    off | 02 c3 a9 00 01 6f 00 01 | Import { module: "é", name: "", ty: Table(TableType { element_type: RefType { bits: 445 }, table64: false, initial: 1, maximum: None }) }
    on | 00 01 61 02 00 01 | Import { module: "", name: "a", ty: Memory(MemoryType { memory64: false, shared: false, initial: 1, maximum: None, page_size_log2: None }) }
    on | 01 6d 01 61 03 7e 01 | Import { module: "m", name: "a", ty: Global(GlobalType { content_type: I64, mutable: true }) }
    on | 01 6d 01 61 04 00 07 | Import { module: "m", name: "a", ty: Tag(TagType { kind: Exception, func_type_idx: 7 }) }
    on | 01 6d 00 00 05 | Import { module: "m", name: "", ty: Func(5) }
    off | 01 6d 00 00 05 | Import { module: "m", name: "", ty: Func(5) }
    on | 01 6d 01 7f 00 05 | Import { module: "m", name: "\u{7f}", ty: Func(5) }
    off | 01 6d 01 61 03 64 80 80 c0 00 00 | invalid
    on | 01 6d 01 61 03 64 80 80 c0 00 00 | invalid
    off | 01 6d 01 61 03 64 80 80 c0 00 02 | malformed
    off | 01 6d 01 61 05 00 | malformed
    on | 01 6d 01 61 7f 00 | malformed
    on | 01 6d 00 7d 00 | malformed
    on | 01 6d | malformed
    on | 01 ff 00 7f 00 | malformed
    on | | malformed

    // groups whose items have types of their own
    on | 01 6d 00 7f 02 01 61 00 05 01 62 02 00 01 | m; 104..114; (105, ImportItemCompact { name: "a", ty: Func(5) }); (109, ImportItemCompact { name: "b", ty: Memory(MemoryType { memory64: false, shared: false, initial: 1, maximum: None, page_size_log2: None }) })
    on | 00 00 7f 81 80 80 80 00 00 00 ff*4 0f | ; 103..115; (108, ImportItemCompact { name: "", ty: Func(4294967295) })
    on | 01 6d 00 7f 00 | m; 104..105
    off | 01 6d 00 7f 00 | malformed
    off | 01 6d 00 7f 02 01 61 00 05 01 62 02 00 01 | malformed
    on | 01 6d 00 7f 02 01 61 00 05 01 62 03 64 80 80 c0 00 00 | invalid
    on | 01 6d 00 7f 02 01 61 03 64 80 80 c0 00 00 01 62 00 05 | invalid
    on | 01 6d 00 7f 03 01 61 00 05 01 62 03 64 80 80 c0 00 00 01 63 05 | malformed
    on | 01 6d 00 7f 02 01 61 00 05 | malformed
    on | 01 6d 00 7f 01 01 61 01 63 ff ff 3f 00 01 | m; 104..114; (105, ImportItemCompact { name: "a", ty: Table(TableType { element_type: RefType { bits: 16777203 }, table64: false, initial: 1, maximum: None }) })
    on | 01 6d 00 7f ff*4 0f | malformed
    on | 01 6d 80 00 7f 00 | malformed

    // groups of one type
    on | 01 6d 00 7e 03 7f 00 02 01 61 01 62 | m; Global(GlobalType { content_type: I32, mutable: false }); 107..112; (108, "a"); (110, "b")
    on | 01 6d 00 7e 00 05 00 | m; Func(5); 106..107
    on | 01 6d 00 7e 00 85 00 81 00 02 c3 a9 | m; Func(5); 107..112; (109, "é")
    off | 01 6d 00 7e 00 05 00 | malformed
    off | 01 6d 00 7e 03 7f 00 02 01 61 01 62 | malformed
    on | 01 6d 00 7e 03 64 80 80 c0 00 00 00 | invalid
    on | 01 6d 00 7e 03 64 80 80 c0 00 00 01 01 61 | invalid
    on | 01 6d 00 7e 03 64 80 80 c0 00 00 01 02 61 | malformed
    on | 01 6d 00 7e 00 05 01 01 ff | malformed
    on | 01 6d 00 7e 05 00 00 | malformed
"#;

const COUNT_OF_ENTRIES: usize = 39;

fn read<'a>(alloc: Global, is_on: bool, bytes: &'a [u8]) -> Result<Imports<'a>, Error> {
    let mut reader = BinaryReader::new(bytes, START);
    if is_on {
        reader.set_features(WasmFeatures::COMPACT_IMPORTS);
    }
    Imports::from_reader(alloc, &mut reader)
}

// Checks that an item shows this.
fn item_shows<T: Debug + Drop>(alloc: Global, item: Result<(u64, T), Error>, words: &str) -> bool {
    match item {
        Ok(item) => debugs(alloc, &item, words),
        Err(_) => false,
    }
}

// Checks that the list of a group has this place, and these items.
fn group_shows<'a, T: FromReader<'a> + Debug + Drop>(
    alloc: Global,
    group: SectionLimited<'a, T>,
    words: &str,
) -> Option<bool> {
    let mut expected = words.split(';');
    if !debugs(alloc, &group.range(), expected.next()?.trim()) {
        return Some(false);
    }
    for item in group.into_iter_with_offsets(alloc) {
        if !item_shows(alloc, item, expected.next()?.trim()) {
            return Some(false);
        }
    }
    Some(expected.next().is_none())
}

fn entry_shows(alloc: Global, entry: Imports<'_>, words: &str) -> Option<bool> {
    match entry {
        Imports::Single(start, import) => Some(start == START && debugs(alloc, &import, words)),
        Imports::Compact1 { module, items } => {
            let (name, words) = words.split_once(';')?;
            Some(name == module && group_shows(alloc, items, words)?)
        }
        Imports::Compact2 { module, ty, names } => {
            let (name, words) = words.split_once(';')?;
            let (type_words, words) = words.split_once(';')?;
            Some(
                name == module
                    && debugs(alloc, &ty, type_words.trim())
                    && group_shows(alloc, names, words)?,
            )
        }
    }
}

fn is_malformed(alloc: Global, is_on: bool, bytes: &[u8]) -> bool {
    match read(alloc, is_on, bytes) {
        Ok(_) => false,
        Err(error) => error.kind == ErrorKind::Malformed,
    }
}

// Checks that no entry reads of the first bytes alone.
fn needs_all(alloc: Global, is_on: bool, bytes: &[u8]) -> bool {
    for len in 0..bytes.len() {
        match bytes.get(..len) {
            Some(front) if is_malformed(alloc, is_on, front) => (),
            _ => return false,
        }
    }
    true
}

fn shows(alloc: Global, is_on: bool, bytes: &[u8], words: &str) -> Option<bool> {
    match read(alloc, is_on, bytes) {
        Ok(entry) => Some(entry_shows(alloc, entry, words)? && needs_all(alloc, is_on, bytes)),
        Err(error) => Some(error.kind.name() == words),
    }
}

fn holds(alloc: Global, row: &str) -> Option<bool> {
    let (setting, field, words) = three_fields(row)?;
    shows(alloc, setting == "on", &bytes_of(alloc, field)?, words)
}

#[test]
fn entries_read(rt: HostRuntime) -> Result<(), Fail> {
    check_rows(rt.alloc(), ENTRIES, COUNT_OF_ENTRIES, holds)?;
    Ok(())
}
