//! Sections of a module, judged item by item.

use std::alloc::Global;
use std::test::Fail;
use wasm_core_types::features::{Flags, WasmFeatures};
use wasm_test_rows::fields::three_fields;
use wasm_test_rows::rows::check_rows;
use wasmparser_error::error::{Error, ErrorKind};
use wasmparser_module_state::module_state::ModuleState;
use wasmparser_names::named_import::NamedImports;
use wasmparser_validation_rows::judged::{JudgedState, answer, on_new_state};

// Sections, all of which are accepted.
const SECTIONS: &str = "
    types 00
    types 03 60 01 7f 01 7e 4e 02 50 00 5f 01 63 01 00 5e 7f 01 4f 01 01 5f 02 63 01 00 7f 00
    types 01 60 00 00; functions 05 00 00 00 00 00; start 4
    memories 06 00 00 00 00 00 00 00 00 00 00 00 00
    types 01 60 00 00; tag_section 0; tags 05 00 00 00 00 00 00 00 00 00 00
    types 01 60 00 00; imports 0000*5 01700000*5 020000*5 037f00*5 040000*5; functions 01 00; start 5
    types 01 60 00 00; import_entries 03 00 00 00 00 00 00 02 00 00 00 00 03 7f 00; functions 01 00; start 1
    types 01 60 00 00; import_entries 02 00 00 7f 02 00 00 00 00 02 00 00 00 00 7e 04 00 00 02 00 00; functions 01 00; start 1
    types 01 60 00 00; body 00 0b; custom 01 61; data_count 1
    types 01 60 00 00; functions 02 00 00; globals 05 7f00 41000b 7f01 41000b 7000 d0700b 647000 d2010b 7f00 23000b; tables 05 700000 700000 700000 700000 400064700001d2000b
    types 02 60 00 00 5f 05 7f007f007f007f007f00; functions 01 00; globals 01 64 01 00 4100*5 fb 00 01 0b; tables 01 70 00 01; memories 01 00 01; elements 02 00 41000b 01 00 05 70 02 d0700b d2000b; data 02 01 00 00 41000b 00
    memories 01 00 01; exports 0a 01610200 01620200 01630200 01640200 01650200 01660200 01670200 01680200 01690200 000200
    memories 01 00 01; exports 05 01620200 01640200 01630200 000200 01610200
";

// Types; sections of one item each, all of which are accepted; and a section that is invalid after them. A second memory is invalid, as is a second
// table.
const ITEMS: &str = "
    types 02 60 01 7f 00 60 00 00 | functions 01 00; imports 00 01; start 0 | start 1
    types 02 60 01 7f 00 60 00 00 | imports 00 00; functions 01 01; start 1 | start 2
    types 02 60 01 7f 00 60 00 00 | imports 00 00; imports 00 01; start 1 | start 2
    types 02 60 01 7f 00 60 00 00 | import_entries 01 00 00 00 00; import_entries 01 00 00 00 01; start 1 | start 2
    types 01 60 00 00 | memories 01 00 00; imports 01 70 00 00 | memories 01 00 00
    types 01 60 00 00 | imports 02 00 00; imports 03 7f 00; imports 04 00 00; tags 01 00 00 | memories 01 00 00
    types 01 60 00 00 | functions 01 00; globals 01 7f 00 41000b; globals 01 7f 00 23000b; data 01 01 00 | globals 01 7f 00 23020b
    types 01 60 00 00 | functions 01 00; tables 01 70 00 01; elements 01 00 41000b 01 00 | tables 01 70 00 01
    types 01 60 00 00 | memories 01 00 01; exports 01 01 61 02 00; exports 01 01 62 02 00; exports 01 00 02 00 | exports 01 01 61 02 00
";

fn is_of_memory(error: Error) -> bool {
    error.kind == ErrorKind::Memory
}

// Checks that a section is accepted; none where memory runs out, on its words or on its entries.
fn accepts(alloc: Global, state: &mut JudgedState, section: &str) -> Option<bool> {
    match answer(alloc, state, section)? {
        Ok(()) => Some(true),
        Err(error) if is_of_memory(error) => None,
        Err(_) => Some(false),
    }
}

fn accepts_all(alloc: Global, state: &mut JudgedState, sections: &str) -> Option<bool> {
    for section in sections.split_terminator(';') {
        if !accepts(alloc, state, section)? {
            return Some(false);
        }
    }
    Some(true)
}

// Checks that sections are accepted, by another state where memory ran out: what a state holds of a section that was refused is open.
fn sections_hold(alloc: Global, row: &str) -> Option<bool> {
    let features = WasmFeatures::default().union(WasmFeatures::COMPACT_IMPORTS);
    match on_new_state(alloc, features, row, accepts_all) {
        Some(are_accepted) => Some(are_accepted),
        None => on_new_state(alloc, features, row, accepts_all),
    }
}

#[test]
fn sections_are_accepted_or_memory_ran_out(rt: HostRuntime) -> Result<(), Fail> {
    Ok(check_rows(rt.alloc(), SECTIONS, 13, sections_hold)?)
}

// Checks that an item is accepted, at the second time where memory ran out.
fn takes(alloc: Global, state: &mut JudgedState, item: &str) -> bool {
    match accepts(alloc, state, item) {
        Some(is_accepted) => is_accepted,
        None => accepts(alloc, state, item) == Some(true),
    }
}

// Checks that a section is refused as invalid; none where memory runs out on its words.
fn is_invalid(alloc: Global, state: &mut JudgedState, section: &str) -> Option<bool> {
    match answer(alloc, state, section)? {
        Ok(()) => Some(false),
        Err(error) => Some(error.kind == ErrorKind::Invalid),
    }
}

fn takes_all(alloc: Global, state: &mut JudgedState, row: &str) -> Option<bool> {
    let (types, items, invalid) = three_fields(row)?;
    if !accepts(alloc, state, types)? {
        return Some(false);
    }
    for item in items.split_terminator(';') {
        if !takes(alloc, state, item) {
            return Some(false);
        }
    }
    is_invalid(alloc, state, invalid)
}

fn items_hold(alloc: Global, row: &str) -> Option<bool> {
    let features = WasmFeatures::default()
        .difference(WasmFeatures::MULTI_MEMORY)
        .difference(WasmFeatures::REFERENCE_TYPES);
    match on_new_state(alloc, features, row, takes_all) {
        Some(are_taken) => Some(are_taken),
        None => on_new_state(alloc, features, row, takes_all),
    }
}

#[test]
fn items_that_were_refused_are_not_added(rt: HostRuntime) -> Result<(), Fail> {
    Ok(check_rows(rt.alloc(), ITEMS, 9, items_hold)?)
}

// A section with imports, and the names of these in order, those of the same two names together.
const GROUPED: &str = "
    import_entries 05 016d 0161 037f00 016d 0162 037f00 016e 0161 037f00 016d 0161 037f00 016d 0161 037f00 | m.a m.a m.a m.b n.a
    import_entries 01 016d 11 6161616161616161616161616161616161 037f00 | m.aaaaaaaaaaaaaaaaa
    import_entries 00 |
";

// Checks that imports have these names, one after the other.
fn have_names(mut imports: NamedImports<'_>, names: &str) -> bool {
    for name in names.split_whitespace() {
        let Some((origin, own)) = name.split_once('.') else {
            return false;
        };
        let Some(import) = imports.next() else {
            return false;
        };
        if import.module != origin || import.name != own {
            return false;
        }
    }
    imports.next().is_none()
}

// Checks that the imports of a section are in this order, at the second time where memory ran out.
fn are_in_order(alloc: Global, state: &mut JudgedState, row: &str) -> Option<bool> {
    let (section, names) = row.split_once('|')?;
    if !accepts(alloc, state, section)? {
        return Some(false);
    }
    let imported = state.known().imported();
    if let Ok(imports) = imported.grouped() {
        return Some(have_names(imports, names));
    }
    Some(have_names(imported.grouped().ok()?, names))
}

fn groups_hold(alloc: Global, row: &str) -> Option<bool> {
    let features = WasmFeatures::default();
    match on_new_state(alloc, features, row, are_in_order) {
        Some(are_in_order) => Some(are_in_order),
        None => on_new_state(alloc, features, row, are_in_order),
    }
}

#[test]
fn imports_are_put_in_order_or_memory_ran_out(rt: HostRuntime) -> Result<(), Fail> {
    Ok(check_rows(rt.alloc(), GROUPED, 3, groups_hold)?)
}

// Sections, all of which are accepted, and of whose state a copy is made.
const COPIED: &str = "
    types 02 60 00 00 5f 00; imports 0000 037f00; functions 01 00; globals 01 7f 00 41000b; tables 01 700000; memories 01 00 01; tags 01 00 00; exports 01 01 61 00 01; elements 01 05 70 00
    types 03 60 00 00 50 00 5f 00 50 01 01 5f 00; tables 01 63 02 00 01
";

fn is_there(_known: &ModuleState, row: &str) -> Option<bool> {
    Some(!row.is_empty())
}

// Checks that a copy is made, at the second time where memory ran out.
fn is_copied(alloc: Global, state: &mut JudgedState, sections: &str) -> Option<bool> {
    if !accepts_all(alloc, state, sections)? {
        return Some(false);
    }
    match state.on_copy(sections, is_there) {
        Some(is_there) => Some(is_there),
        None => Some(state.on_copy(sections, is_there) == Some(true)),
    }
}

fn copies_hold(alloc: Global, row: &str) -> Option<bool> {
    let features = WasmFeatures::default();
    match on_new_state(alloc, features, row, is_copied) {
        Some(is_copied) => Some(is_copied),
        None => on_new_state(alloc, features, row, is_copied),
    }
}

#[test]
fn copies_are_made_once_there_is_memory(rt: HostRuntime) -> Result<(), Fail> {
    Ok(check_rows(rt.alloc(), COPIED, 2, copies_hold)?)
}
