//! Name sections.

use crate::written::writes;
use std::alloc::Global;
use wasm_encoder_custom::name_map::{IndirectNameMap, NameMap};
use wasm_encoder_custom::name_section::NameSection;

const MODULE: &str = "00 09 04 6e 61 6d 65 00 02 01 6d";

// Checks that the section is written so, also as a custom section.
fn is_written(alloc: Global, section: &NameSection) -> bool {
    match section.as_custom() {
        Ok(custom) => writes(alloc, section, MODULE) && writes(alloc, &custom, MODULE),
        Err(_) => false,
    }
}

/// Checks that a section with the name of a module is written.
pub fn module_name(alloc: Global) -> bool {
    let mut section = NameSection::new(alloc);
    let is_taken = section.module("m").is_ok();
    is_taken && is_written(alloc, &section)
}

#[test]
fn a_module(rt: HostRuntime) {
    assert!(rt; module_name(rt.alloc()));
}

// Index 1 is called `f`, and index 200 `g`.
fn add_names(names: &mut NameMap) -> bool {
    names.is_empty()
        && names.append(1, "f").is_ok()
        && names.append(200, "g").is_ok()
        && !names.is_empty()
}

fn add_maps(section: &mut NameSection, names: &NameMap) -> bool {
    section.functions(names).is_ok()
        && section.types(names).is_ok()
        && section.tables(names).is_ok()
        && section.memories(names).is_ok()
        && section.globals(names).is_ok()
        && section.elements(names).is_ok()
        && section.data(names).is_ok()
        && section.tag(names).is_ok()
}

const MAPS: &str = "
    00 55 04 6e 61 6d 65
    01 08 02 01 01 66 c8 01 01 67
    04 08 02 01 01 66 c8 01 01 67
    05 08 02 01 01 66 c8 01 01 67
    06 08 02 01 01 66 c8 01 01 67
    07 08 02 01 01 66 c8 01 01 67
    08 08 02 01 01 66 c8 01 01 67
    09 08 02 01 01 66 c8 01 01 67
    0b 08 02 01 01 66 c8 01 01 67
";

fn has_maps(alloc: Global, names: &NameMap) -> bool {
    let mut section = NameSection::new(alloc);
    let is_taken = add_maps(&mut section, names);
    is_taken && writes(alloc, &section, MAPS)
}

/// Checks that a section of maps is written.
pub fn all_maps(alloc: Global) -> bool {
    let mut names = NameMap::new(alloc);
    add_names(&mut names) && has_maps(alloc, &names)
}

#[test]
fn maps(rt: HostRuntime) {
    assert!(rt; all_maps(rt.alloc()));
}

fn add_indirect_maps(section: &mut NameSection, map: &IndirectNameMap) -> bool {
    section.locals(map).is_ok()
        && section.labels(map).is_ok()
        && section.fields(map).is_ok()
        && section.raw(12, b"\x00").is_ok()
}

fn has_indirect_maps(alloc: Global, map: &IndirectNameMap) -> bool {
    let mut section = NameSection::new(alloc);
    let is_taken = add_indirect_maps(&mut section, map);
    is_taken && writes(alloc, &section, INDIRECT_MAPS)
}

/// Checks that a section of maps of maps is written.
pub fn all_indirect_maps(alloc: Global) -> bool {
    let mut names = NameMap::new(alloc);
    let mut map = IndirectNameMap::new(alloc);
    let is_taken = add_names(&mut names) && map.append(3, &names).is_ok();
    is_taken && has_indirect_maps(alloc, &map)
}

const INDIRECT_MAPS: &str = "
    00 2c 04 6e 61 6d 65
    02 0a 01 03 02 01 01 66 c8 01 01 67
    03 0a 01 03 02 01 01 66 c8 01 01 67
    0a 0a 01 03 02 01 01 66 c8 01 01 67
    0c 01 00
";

#[test]
fn indirect_maps(rt: HostRuntime) {
    assert!(rt; all_indirect_maps(rt.alloc()));
}
