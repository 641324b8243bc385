//! Name sections and what they are made of, producers, hints on branches, and custom sections of any bytes.

use crate::refusals::refused::{is_written, takes_each};
use std::alloc::Global;
use std::borrow::{CowSlice, CowStr};
use wasm_core_write::encode_error::EncodeError;
use wasm_encoder_custom::branch_hints::{BranchHint, BranchHints};
use wasm_encoder_custom::custom_section::{CustomSection, RawCustomSection};
use wasm_encoder_custom::name_map::{IndirectNameMap, NameMap};
use wasm_encoder_custom::name_section::NameSection;
use wasm_encoder_custom::producers::{ProducersField, ProducersSection};

fn add_name(_alloc: Global, names: &mut NameMap, number: u32) -> Result<(), EncodeError> {
    names.append(number, "name")
}

fn names(alloc: Global) -> bool {
    let mut names = NameMap::new(alloc);
    takes_each(alloc, &mut names, 20, add_name) && is_written(alloc, &names)
}

#[test]
fn names_are_kept(rt: HostRuntime) {
    assert!(rt; names(rt.alloc()));
}

fn one_name(alloc: Global) -> Result<NameMap, EncodeError> {
    let mut names = NameMap::new(alloc);
    names.append(1, "name")?;
    Ok(names)
}

fn add_names(alloc: Global, map: &mut IndirectNameMap, number: u32) -> Result<(), EncodeError> {
    let names = one_name(alloc)?;
    map.append(number, &names)
}

fn indirect_names(alloc: Global) -> bool {
    let mut map = IndirectNameMap::new(alloc);
    takes_each(alloc, &mut map, 20, add_names) && is_written(alloc, &map)
}

#[test]
fn indirect_names_are_kept(rt: HostRuntime) {
    assert!(rt; indirect_names(rt.alloc()));
}

// Adds a subsection of names.
fn add_map(section: &mut NameSection, names: &NameMap, number: u32) -> Result<(), EncodeError> {
    match number {
        0 => section.functions(names),
        1 => section.types(names),
        2 => section.tables(names),
        3 => section.memories(names),
        4 => section.globals(names),
        5 => section.elements(names),
        6 => section.data(names),
        _ => section.tag(names),
    }
}

// Adds a subsection of names in names.
fn add_indirect(
    section: &mut NameSection,
    map: &IndirectNameMap,
    number: u32,
) -> Result<(), EncodeError> {
    match number {
        8 => section.locals(map),
        9 => section.labels(map),
        _ => section.fields(map),
    }
}

// Adds a subsection of each kind.
fn add_subsection(
    alloc: Global,
    section: &mut NameSection,
    number: u32,
) -> Result<(), EncodeError> {
    let names = one_name(alloc)?;
    if number < 8 {
        return add_map(section, &names, number);
    }
    if number < 11 {
        let mut map = IndirectNameMap::new(alloc);
        map.append(3, &names)?;
        return add_indirect(section, &map, number);
    }
    if number == 11 {
        return section.module("name");
    }
    section.raw(12, b"\x00")
}

// Checks that the section is also a custom section, at the second time where memory runs out at the first.
fn is_custom(alloc: Global, section: &NameSection) -> bool {
    match section.as_custom() {
        Ok(custom) => is_written(alloc, &custom),
        Err(error) => error == EncodeError::Memory && section.as_custom().is_ok(),
    }
}

fn subsections(alloc: Global) -> bool {
    let mut section = NameSection::new(alloc);
    let are_taken = takes_each(alloc, &mut section, 13, add_subsection);
    are_taken && is_written(alloc, &section) && is_custom(alloc, &section)
}

#[test]
fn name_sections(rt: HostRuntime) {
    assert!(rt; subsections(rt.alloc()));
}

fn add_value(_alloc: Global, field: &mut ProducersField, number: u32) -> Result<(), EncodeError> {
    if number % 2 == 0 {
        return field.push("name", "1");
    }
    field.value("another", "2")?;
    Ok(())
}

fn values(alloc: Global) -> bool {
    let mut field = ProducersField::new(alloc);
    takes_each(alloc, &mut field, 20, add_value) && is_written(alloc, &field)
}

#[test]
fn producers_of_a_field(rt: HostRuntime) {
    assert!(rt; values(rt.alloc()));
}

fn add_field(
    alloc: Global,
    section: &mut ProducersSection,
    number: u32,
) -> Result<(), EncodeError> {
    let mut field = ProducersField::new(alloc);
    field.push("name", "1")?;
    if number % 2 == 0 {
        return section.push("language", &field);
    }
    section.field("sdk", &field)?;
    Ok(())
}

fn fields(alloc: Global) -> bool {
    let mut section = ProducersSection::new(alloc);
    takes_each(alloc, &mut section, 10, add_field) && is_written(alloc, &section)
}

#[test]
fn producers(rt: HostRuntime) {
    assert!(rt; fields(rt.alloc()));
}

const HINT: BranchHint = BranchHint {
    branch_func_offset: 5,
    branch_hint_value: 1,
};

fn add_hints(_alloc: Global, section: &mut BranchHints, number: u32) -> Result<(), EncodeError> {
    section.function_hints(number, &[HINT])
}

fn hints(alloc: Global) -> bool {
    let mut section = BranchHints::new(alloc);
    let are_taken = takes_each(alloc, &mut section, 20, add_hints);
    are_taken && section.len() == 20 && is_written(alloc, &section)
}

#[test]
fn hints_on_branches(rt: HostRuntime) {
    assert!(rt; hints(rt.alloc()));
}

#[test]
fn custom_sections(rt: HostRuntime) {
    let section = CustomSection {
        name: CowStr::Borrowed("ab"),
        data: CowSlice::Borrowed(b"xyz"),
    };
    let raw = RawCustomSection(b"\x82\x00\x01a");
    assert!(rt; is_written(rt.alloc(), &section) && is_written(rt.alloc(), &raw));
}
