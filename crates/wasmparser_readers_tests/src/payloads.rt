//! Modules as their payloads: which come, and in which order they are refused.

use crate::shown::is_shown;
use std::alloc::Global;
use std::test::Fail;
use wasm_core_read::binary_reader::BinaryReader;
use wasm_core_types::features::WasmFeatures;
use wasm_test_rows::fields::{three_fields, two_fields};
use wasm_test_rows::rows::check_rows;
use wasm_test_rows::shown::debugs_same;
use wasm_test_rows::values::bytes_of;
use wasmparser_payloads::parser::Parser;
use wasmparser_payloads::payload::Payload;
use wasmparser_payloads::payloads::Payloads;
use wasmparser_readers::memory_type::MemoryType;
use wasmparser_readers::section_limited::SectionLimited;

const HEADER: &str = "00 61 73 6d 01 00 00 00";

// The offset of the module, the bytes after its header, and the payloads after the version.
const MODULES: &str = "
    0 | | end 8 8 0 0
    0 | 01 04 01 60 00 00 | type 10 14 1 0; end 14 14 0 0
    0 | 02 01 00 | import 10 11 0 0; end 11 11 0 0
    0 | 03 02 01 00 | function 10 12 1 0; end 12 12 0 0
    0 | 04 01 02 | table 10 11 2 0; end 11 11 0 0
    0 | 05 03 01 00 01 | memory 10 13 1 0; end 13 13 0 0
    0 | 06 01 00 | global 10 11 0 0; end 11 11 0 0
    0 | 07 01 00 | export 10 11 0 0; end 11 11 0 0
    0 | 08 01 05 | start 10 11 5 0; end 11 11 0 0
    0 | 09 01 00 | element 10 11 0 0; end 11 11 0 0
    0 | 0a 06 01 04 00 41 00 0b | code 10 16 1 5; body 12 16 12 4; end 16 16 0 0
    0 | 0a 09 02 02 00 0b 83 00 00 01 0b | code 10 19 2 8; body 12 14 12 2; body 16 19 16 3; end 19 19 0 0
    0 | 0b 01 00 | data 10 11 0 0; end 11 11 0 0
    0 | 0c 01 07 | datacount 10 11 7 0; end 11 11 0 0
    0 | 0d 03 01 00 00 | tag 10 13 1 0; end 13 13 0 0
    0 | 00 04 02 61 62 63 | custom 10 14 2 13; end 14 14 0 0
    0 | 0e 02 01 02 | unknown 10 12 14 2; end 12 12 0 0
    0 | ff 00 | unknown 10 10 255 0; end 10 10 0 0
    100 | 01 01 00 | type 110 111 0 0; end 111 111 0 0
    100 | 0a 04 01 02 00 0b 00 02 01 61 | code 110 114 1 3; body 112 114 112 2; custom 116 118 1 118; end 118 118 0 0
    100 | 01 02 00 | malformed at 110
    0 | 01 01 00 02 01 00 03 01 00 04 01 00 05 01 00 0d 01 00 06 01 00 07 01 00 08 01 00 09 01 00 0c 01 00 0a 01 00 0b 01 00 | type 10 11 0 0; import 13 14 0 0; function 16 17 0 0; table 19 20 0 0; memory 22 23 0 0; tag 25 26 0 0; global 28 29 0 0; export 31 32 0 0; start 34 35 0 0; element 37 38 0 0; datacount 40 41 0 0; code 43 44 0 0; data 46 47 0 0; end 47 47 0 0
    0 | 00 02 01 61 01 01 00 00 02 01 62 02 01 00 00 01 00 | custom 10 12 1 12; type 14 15 0 0; custom 17 19 1 19; import 21 22 0 0; custom 24 25 0 25; end 25 25 0 0
    0 | 0e 00 02 01 00 0f 00 03 01 00 0e 00 | unknown 10 10 14 0; import 12 13 0 0; unknown 15 15 15 0; function 17 18 0 0; unknown 20 20 14 0; end 20 20 0 0
    0 | 00 02 01 61 02 01 00 00 02 01 61 01 01 00 | custom 10 12 1 12; import 14 15 0 0; custom 17 19 1 19; malformed at 19
    0 | 01 81 80 80 80 00 00 | type 14 15 0 0; end 15 15 0 0
    0 | 01 01 00 01 01 00 | type 10 11 0 0; malformed at 11
    0 | 02 01 00 02 01 00 | import 10 11 0 0; malformed at 11
    0 | 03 01 00 03 01 00 | function 10 11 0 0; malformed at 11
    0 | 04 01 00 04 01 00 | table 10 11 0 0; malformed at 11
    0 | 05 01 00 05 01 00 | memory 10 11 0 0; malformed at 11
    0 | 0d 01 00 0d 01 00 | tag 10 11 0 0; malformed at 11
    0 | 06 01 00 06 01 00 | global 10 11 0 0; malformed at 11
    0 | 07 01 00 07 01 00 | export 10 11 0 0; malformed at 11
    0 | 08 01 00 08 01 00 | start 10 11 0 0; malformed at 11
    0 | 09 01 00 09 01 00 | element 10 11 0 0; malformed at 11
    0 | 0c 01 00 0c 01 00 | datacount 10 11 0 0; malformed at 11
    0 | 0a 01 00 0a 01 00 | code 10 11 0 0; malformed at 11
    0 | 0b 01 00 0b 01 00 | data 10 11 0 0; malformed at 11
    0 | 02 01 00 01 01 00 | import 10 11 0 0; malformed at 11
    0 | 03 01 00 02 01 00 | function 10 11 0 0; malformed at 11
    0 | 04 01 00 03 01 00 | table 10 11 0 0; malformed at 11
    0 | 05 01 00 04 01 00 | memory 10 11 0 0; malformed at 11
    0 | 0d 01 00 05 01 00 | tag 10 11 0 0; malformed at 11
    0 | 06 01 00 0d 01 00 | global 10 11 0 0; malformed at 11
    0 | 07 01 00 06 01 00 | export 10 11 0 0; malformed at 11
    0 | 08 01 00 07 01 00 | start 10 11 0 0; malformed at 11
    0 | 09 01 00 08 01 00 | element 10 11 0 0; malformed at 11
    0 | 0c 01 00 09 01 00 | datacount 10 11 0 0; malformed at 11
    0 | 0a 01 00 0c 01 00 | code 10 11 0 0; malformed at 11
    0 | 0b 01 00 0a 01 00 | data 10 11 0 0; malformed at 11
    0 | 08 02 05 00 | malformed at 11
    0 | 08 00 | malformed at 10
    0 | 0c 02 05 00 | malformed at 11
    0 | 01 00 | malformed at 10
    0 | 00 00 | malformed at 10
    0 | 00 01 01 | malformed at 10
    0 | 00 02 01 ff | malformed at 10
    0 | 0a 04 01 01 0b 00 | code 10 14 1 3; body 12 13 12 1; malformed at 13
    0 | 0a 02 00 00 | code 10 12 0 1; malformed at 11
    0 | 0a 03 01 05 0b | code 10 13 1 2; malformed at 12
    0 | 0a 03 01 05 0b 00 00 00 00 00 | code 10 13 1 2; malformed at 12
    0 | 0a 04 02 02 00 0b | code 10 14 2 3; body 12 14 12 2; malformed at 14
    0 | 0a 00 | malformed at 10
    0 | 0a 01 00 0b 01 00 | code 10 11 0 0; data 13 14 0 0; end 14 14 0 0
    0 | 01 | malformed at 9
    0 | 01 80 80 80 80 10 | malformed at 9
    0 | 0e 03 00 | malformed at 10
";

const COUNT_OF_MODULES: usize = 68;

// Returns the bytes after the header and those of the header.
fn module_of(alloc: Global, field: &str) -> Option<Vec<u8>> {
    let mut module = bytes_of(alloc, HEADER)?;
    module.extend_from_slice(&bytes_of(alloc, field)?).ok()?;
    Some(module)
}

// Checks that these payloads come, and no other.
fn gives(alloc: Global, mut payloads: Payloads<'_>, words: &str) -> bool {
    for word in words.split(';') {
        match payloads.next() {
            Some(given) if is_shown(alloc, &given, word.trim()) => {}
            _ => return false,
        }
    }
    payloads.next().is_none() && payloads.next().is_none()
}

fn parses(alloc: Global, bytes: &[u8], offset: u32, words: &str) -> bool {
    gives(alloc, Parser::new(offset as u64).parse_all(bytes), words)
}

fn holds(alloc: Global, row: &str) -> Option<bool> {
    let (offset, field, words) = three_fields(row)?;
    let bytes = module_of(alloc, field)?;
    let offset: u32 = offset.parse().ok()?;
    let start = offset as u64;
    let whole = format!(in alloc; "version {start} {} 1 0; {words}", start + 8).ok()?;
    Some(parses(alloc, &bytes, offset, &whole))
}

#[test]
fn modules_parse(rt: HostRuntime) -> Result<(), Fail> {
    check_rows(rt.alloc(), MODULES, COUNT_OF_MODULES, holds)?;
    Ok(())
}

// Whole inputs.
const HEADERS: &str = "
    | malformed at 0
    00 61 73 6d 01 00 00 | malformed at 0
    00 61 73 6d 02 00 00 00 | malformed at 0
    00 61 73 6d 0d 00 01 00 | malformed at 0
    01 61 73 6d 01 00 00 00 | malformed at 0
    00 61 73 6d 01 00 00 00 | version 0 8 1 0; end 8 8 0 0
";

const COUNT_OF_HEADERS: usize = 6;

fn header_holds(alloc: Global, row: &str) -> Option<bool> {
    let (field, words) = two_fields(row)?;
    Some(parses(alloc, &bytes_of(alloc, field)?, 0, words))
}

#[test]
fn headers_parse(rt: HostRuntime) -> Result<(), Fail> {
    check_rows(rt.alloc(), HEADERS, COUNT_OF_HEADERS, header_holds)?;
    Ok(())
}

// Checks that a module comes to its end.
fn ends(bytes: &[u8]) -> bool {
    let mut has_ended = false;
    for given in Parser::new(0).parse_all(bytes) {
        match given {
            Ok(payload) => has_ended = matches!(payload, Payload::End(_)),
            Err(_) => return false,
        }
    }
    has_ended
}

// The bytes after the header, and how many of their fronts are modules: those that end between two sections.
const CUT: &str = "
    01 04 01 60 00 00 03 02 01 00 0a 05 01 03 00 00 0b | 3
    08 01 00 00 04 02 61 62 63 0e 02 01 02 | 3
    02 01 00 05 03 01 00 01 0c 01 00 0a 07 02 02 00 0b 02 00 0b 0b 01 00 | 5
";

const COUNT_OF_CUT: usize = 3;

fn cut_holds(alloc: Global, row: &str) -> Option<bool> {
    let (field, expected) = two_fields(row)?;
    let bytes = module_of(alloc, field)?;
    let expected: u32 = expected.parse().ok()?;
    let mut count: u32 = 0;
    for len in 0..bytes.len() {
        if ends(&bytes[..len]) {
            count = count.saturating_add(1);
        }
    }
    Some(count == expected && ends(&bytes))
}

#[test]
fn cut_modules_are_refused(rt: HostRuntime) -> Result<(), Fail> {
    check_rows(rt.alloc(), CUT, COUNT_OF_CUT, cut_holds)?;
    Ok(())
}

// Checks that a section's reader and that of a body have the features of the parser.
fn keeps_features(alloc: Global, features: WasmFeatures, bytes: &[u8]) -> bool {
    let mut parser = Parser::new(0);
    parser.set_features(features);
    let mut found: u32 = 0;
    for given in parser.parse_all(bytes) {
        let is_kept = match given {
            Ok(Payload::CodeSectionEntry(body)) => body.get_binary_reader().features() == features,
            Ok(Payload::MemorySection(section)) => is_section(alloc, features, &section),
            _ => continue,
        };
        if !is_kept {
            return false;
        }
        found = found.saturating_add(1);
    }
    found == 2
}

// Checks that this is the memory section of no memory whose content is at 10.
fn is_section(
    alloc: Global,
    features: WasmFeatures,
    section: &SectionLimited<'_, MemoryType>,
) -> bool {
    let mut reader = BinaryReader::new(&[0], 10);
    reader.set_features(features);
    match SectionLimited::<MemoryType>::new(reader) {
        Ok(expected) => debugs_same(alloc, section, &expected),
        Err(_) => false,
    }
}

fn features_hold(alloc: Global, features: WasmFeatures) -> bool {
    match module_of(alloc, "05 01 00 0a 04 01 02 00 0b") {
        Some(bytes) => keeps_features(alloc, features, &bytes),
        None => false,
    }
}

#[test]
fn readers_have_the_features(rt: HostRuntime) {
    let alloc = rt.alloc();
    assert!(rt; features_hold(alloc, WasmFeatures::GC), "one");
    assert!(rt; features_hold(alloc, WasmFeatures::default()), "default");
}
