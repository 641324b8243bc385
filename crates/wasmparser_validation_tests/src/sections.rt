//! Sections that are judged item by item, one after the other.

use std::alloc::Global;
use std::test::Fail;
use wasm_core_types::features::{Flags, WasmFeatures};
use wasm_test_rows::fields::three_fields;
use wasm_test_rows::rows::check_rows;
use wasmparser_error::error::{Error, ErrorKind};
use wasmparser_validation_rows::judged::{JudgedState, OFFSET, answer, on_new_state};

// Features that are switched beside the default ones; sections; and what the last of them is answered: `yes`, the kind of the refusal, or the name of
// the limit that is passed. A refusal's place isn't before the section. All sections before the last are accepted.
const SECTIONS: &str = r"
    // types
    | types 00 | yes
    | types 01 60 00 00 | yes
    | types 02 60 01 7f 01 7e 60 00 02 7f 7f | yes
    -multi_value | types 01 60 00 02 7f 7f | invalid
    -gc | types 01 4e 01 60 00 00 | invalid
    | types 02 50 00 5f 00 50 01 00 5f 01 7f 00 | yes
    | types 01 60 01 63 80 80 c0 00 00 | invalid
    | types 01 60 00 | malformed
    | types 01 60 00 00 00 | malformed

    // exports
    | memories 01 00 01; exports 01 01 61 02 00 | yes
    | memories 01 00 01; exports 02 01 61 02 00 01 61 02 00 | invalid
    | memories 01 00 01; exports 02 01 61 02 00 00 02 00 | yes
    | memories 01 00 01; exports 01 01 61 02 00; exports 01 01 61 02 00 | invalid
    | exports 01 01 61 02 00 | invalid
    | globals 01 7f 01 41000b; exports 01 01 61 03 00 | yes
    -mutable_global | globals 01 7f 01 41000b; exports 01 01 61 03 00 | invalid
    | types 01 60 00 00; tags 01 00 00; exports 01 01 61 04 00 | yes
    | types 01 60 00 00; functions 01 00; exports 01 01 61 00 01 | invalid
    | memories 01 00 01; exports 01 01 61 02 | malformed
    | memories 01 00 01; exports 01 01 61 02 00 00 | malformed

    // functions
    | types 01 60 00 00; functions 02 00 00 | yes
    | types 01 60 00 00; functions 01 01 | invalid
    | functions 01 00 | invalid
    | types 01 5f 00; functions 01 00 | invalid
    | types 02 5f 00 60 00 00; functions 01 80 80 00 | invalid
    | types 02 5f 00 60 00 00; functions 01 81 00 | yes
    | functions 01 | malformed

    // memories
    | memories 01 00 00 | yes
    | memories 01 01 02 01 | invalid
    | memories 01 00 80 80 04 | yes
    | memories 01 00 81 80 04 | invalid
    | memories 01 01 00 81 80 04 | invalid
    | memories 01 04 80 80 80 80 80 80 c0 00 | yes
    | memories 01 04 81 80 80 80 80 80 c0 00 | invalid
    -memory64 | memories 01 04 00 | invalid
    threads | memories 01 03 01 02 | yes
    threads | memories 01 02 01 | invalid
    -threads | memories 01 03 01 02 | invalid
    custom_page_sizes | memories 01 08 00 00 | yes
    custom_page_sizes | memories 01 08 00 10 | yes
    custom_page_sizes | memories 01 08 00 01 | invalid
    -custom_page_sizes | memories 01 08 00 10 | invalid
    | memories 02 00 00 00 00 | yes
    -multi_memory | memories 02 00 00 00 00 | invalid
    | memories 02 00 00 | malformed
    | memories 01 00 00 00 | malformed

    // tags
    | types 01 60 01 7f 00; tag_section 0; tags 01 00 00 | yes
    | types 01 60 00 01 7f; tags 01 00 00 | invalid
    stack_switching | types 01 60 00 01 7f; tags 01 00 00 | yes
    | types 01 60 00 00; tags 01 00 01 | invalid
    -exceptions | tag_section 0 | invalid

    // imported items
    | types 01 60 01 7f 00; imports 00 00 | yes
    | imports 00 00 | invalid
    | types 01 5f 00; imports 00 00 | invalid
    | types 01 60 00 00; imports 00 01 | invalid
    | imports 01 70 00 00 | yes
    | imports 01 70 01 02 01 | invalid
    | imports 01 70 00 ff ff ff ff 0f | yes
    | imports 01 70 00 80 80 80 80 10 | invalid
    | imports 01 70 01 00 80 80 80 80 10 | invalid
    | imports 01 70 04 80 80 80 80 10 | yes
    -memory64 | imports 01 70 04 00 | invalid
    -reference_types | imports 01 70 00 00 | yes
    -reference_types | imports 01 70 00 00 01 70 00 00 | invalid
    -reference_types | imports 01 6f 00 00 | invalid
    | imports 01 63 00 00 00 | invalid
    | types 01 60 00 00; imports 01 63 00 00 00 | yes
    | imports 01 63 80 80 c0 00 00 00 | invalid
    | imports 02 01 01 02 02 04 00 | yes
    | imports 02 01 02 01 | invalid
    -multi_memory | imports 02 00 00 02 00 00 | invalid
    -multi_memory | imports 02 00 00; memories 01 00 00 | invalid
    | imports 03 7f 00 03 7f 01 | yes
    -mutable_global | imports 03 7f 00 | yes
    -mutable_global | imports 03 7f 01 | invalid
    | imports 03 63 00 00 | invalid
    -reference_types | imports 03 70 00 | invalid
    | types 01 60 01 7f 00; imports 04 00 00 | yes
    | types 01 60 00 01 7f; imports 04 00 00 | invalid
    | types 01 60 00 00; imports 04 00 01 | invalid
    -exceptions | types 01 60 00 00; imports 04 00 00 | invalid
    | imports 03 7f | malformed
    | imports 05 00 | malformed

    // what sections say by themselves
    | data_count 5 | yes
    -bulk_memory | data_count 0 | invalid
    | types 01 60 00 00; functions 01 00; start 0 | yes
    | types 01 60 00 00; functions 01 00; start 1 | invalid
    | types 01 60 01 7f 00; functions 01 00; start 0 | invalid
    | types 01 60 00 01 7f; functions 01 00; start 0 | invalid

    // imported functions stand before a module's own
    | types 02 60 00 00 60 01 7f 00; imports 00 01; functions 01 00; start 1 | yes
    | types 02 60 00 00 60 01 7f 00; imports 00 01; functions 01 00; start 0 | invalid
    | types 02 60 00 00 60 01 7f 00; imports 00 00; functions 01 01; start 0 | yes
    | types 02 60 00 00 60 01 7f 00; imports 00 00; functions 01 01; start 1 | invalid
    | types 02 60 00 00 60 01 7f 00; functions 01 01; imports 00 00; start 0 | yes
    | types 01 60 00 00; imports 00 00; functions 01 00; start 2 | invalid

    // limits that are reached, and passed
    | types c0 84 3d 600000*1000000 | yes
    | types c1 84 3d 600000*1000001 | Groups
    | types a0 c2 1e 4e02600000600000*500000 | yes
    | types a1 c2 1e 4e02600000600000*500001 | Types
    | types 01 60 00 00; functions c0 84 3d 00*1000000 | yes
    | types 01 60 00 00; functions c1 84 3d 00*1000001 | Functions
    | types 01 60 00 00; imports 00 00; functions bf 84 3d 00*999999 | yes
    | types 01 60 00 00; imports 00 00; functions c0 84 3d 00*1000000 | Functions
    | types 01 60 00 00; functions c0 84 3d 00*1000000; imports 00 00 | Functions
    | memories 64 00*200 | yes
    | memories 65 00*202 | Memories
    | imports 020000*99; memories 01 00 00 | yes
    | imports 020000*100; memories 01 00 00 | Memories
    | imports 020000*101 | Memories
    | imports 01700000*100 | yes
    | imports 01700000*101 | Tables
    | types 01 60 00 00; tags c0 84 3d 00*2000000 | yes
    | types 01 60 00 00; tags c1 84 3d 00*2000002 | Tags
    | types 01 60 00 00; tags c0 84 3d 00*2000000; imports 04 00 00 | Tags
    | custom a0 8d 06 61*100000 | yes
    | custom a1 8d 06 61*100001 | Name
    | body 00*7654321 | yes
    | body 00*7654322 | BodySize

    // the size of all imports as a type
    | imports 037f00*999998 | yes
    | imports 037f00*999999 | TypeSize
    | types 01 60 00 00; imports 0000*499999 | yes
    | types 01 60 00 00; imports 0000*499999 02 00 00 | TypeSize
    | types 01 60 02 7f 7f 01 7f; imports 0000*199999 03 7f 00 03 7f 00 03 7f 00 | yes
    | types 01 60 02 7f 7f 01 7f; imports 0000*199999 0000 | TypeSize
    | types 01 60 00 00; imports 037f00*999997 040000 | TypeSize
    | imports 037f00*999998 01700000 | TypeSize

    // the module's own items that stand on constants
    | tables 64 700000*100 | yes
    | tables 65 700000*101 | Tables
    | imports 01700000; tables 64 700000*100 | Tables
    | globals c0 84 3d 7f0041000b*1000000 | yes
    | globals c1 84 3d 7f0041000b*1000001 | Globals
    | imports 037f00*999998; globals 02 7f0041000b*2 | yes
    | imports 037f00*999998; globals 03 7f0041000b*3 | Globals
    | types 01 5f 90 4e 7f00*10000; globals 01 64 00 00 4100*10000 fb 00 00 0b | yes
    | types 01 5f 90 4e 7f00*10000; globals 01 64 00 00 4100*9999 fb 00 00 0b | invalid
    | types 01 5e 7f 00; globals 01 64 00 00 4100*100000 fb 08 00 a0 8d 06 0b | yes
    | types 01 5e 7f 00; globals 01 64 00 00 4100*100000 fb 08 00 ff ff ff ff 0f 0b | invalid
    | elements a0 8d 06 010000*100000 | yes
    | elements a1 8d 06 010000*100001 | ElementSegments
    | types 01 60 00 00; functions 01 00; elements 01 01 00 80 ad e2 04 00*10000000 | yes
    | types 01 60 00 00; functions 01 00; elements 01 01 00 81 ad e2 04 00*10000001 | SegmentEntries
    | elements 01 05 70 c0 84 3d d0700b*1000000 | yes
    | data a0 8d 06 0100*100000 | yes
    | data a1 8d 06 0100*100001 | DataSegments
";

const COUNT_OF_SECTIONS: usize = 144;

fn switched(features: WasmFeatures, word: &str) -> Option<WasmFeatures> {
    let flag = match word.trim_start_matches('-') {
        "mutable_global" => WasmFeatures::MUTABLE_GLOBAL,
        "reference_types" => WasmFeatures::REFERENCE_TYPES,
        "multi_value" => WasmFeatures::MULTI_VALUE,
        "bulk_memory" => WasmFeatures::BULK_MEMORY,
        "threads" => WasmFeatures::THREADS,
        "multi_memory" => WasmFeatures::MULTI_MEMORY,
        "exceptions" => WasmFeatures::EXCEPTIONS,
        "memory64" => WasmFeatures::MEMORY64,
        "gc" => WasmFeatures::GC,
        "custom_page_sizes" => WasmFeatures::CUSTOM_PAGE_SIZES,
        "stack_switching" => WasmFeatures::STACK_SWITCHING,
        "compact_imports" => WasmFeatures::COMPACT_IMPORTS,
        _ => return None,
    };
    Some(if word.starts_with('-') {
        features.difference(flag)
    } else {
        features.union(flag)
    })
}

fn features_of(field: &str) -> Option<WasmFeatures> {
    let mut features = WasmFeatures::default();
    for word in field.split_whitespace() {
        features = switched(features, word)?;
    }
    Some(features)
}

fn words_of(answer: Result<(), Error>) -> &'static str {
    match answer {
        Ok(()) => "yes",
        Err(error) if error.offset < OFFSET => "a place before the section",
        Err(error) => match error.kind {
            ErrorKind::Limit(limit) => limit.name(),
            kind => kind.name(),
        },
    }
}

// Checks that the last section is answered so, and those before it are accepted.
fn are_judged(alloc: Global, state: &mut JudgedState, row: &str) -> Option<bool> {
    let (_, sections, last) = three_fields(row)?;
    let mut answered = Ok(());
    for section in sections.split_terminator(';') {
        if answered.is_err() {
            return Some(false);
        }
        answered = answer(alloc, state, section)?;
    }
    Some(words_of(answered) == last)
}

/// Checks that a row holds.
pub fn holds(alloc: Global, row: &str) -> Option<bool> {
    let (features, _, _) = three_fields(row)?;
    on_new_state(alloc, features_of(features)?, row, are_judged)
}

#[test]
fn sections_are_judged(rt: HostRuntime) -> Result<(), Fail> {
    Ok(check_rows(rt.alloc(), SECTIONS, COUNT_OF_SECTIONS, holds)?)
}
