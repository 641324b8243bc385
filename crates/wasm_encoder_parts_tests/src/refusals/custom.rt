//! Linking sections, and core dumps.

use crate::refusals::refused::{is_sound, is_written, takes_each};
use std::alloc::Global;
use wasm_core_write::encode_error::EncodeError;
use wasm_encoder_custom::core_dump::{CoreDumpModulesSection, CoreDumpSection};
use wasm_encoder_custom::core_dump_instances::CoreDumpInstancesSection;
use wasm_encoder_custom::core_dump_stack::{CoreDumpStackSection, CoreDumpValue};
use wasm_encoder_custom::linking::LinkingSection;
use wasm_encoder_custom::symbol_table::{DataSymbolDefinition, SymbolTable};

const DEFINITION: DataSymbolDefinition = DataSymbolDefinition {
    index: 0,
    offset: 4,
    size: 8,
};

const NAME: Option<&str> = Some("name");

// Adds a symbol by a call that answers nothing.
fn push_symbol(table: &mut SymbolTable, number: u32) -> Result<(), EncodeError> {
    match number {
        0 => table.push_function(0, number, NAME),
        1 => table.push_global(0, number, NAME),
        2 => table.push_table(0, number, NAME),
        _ => table.push_data(0, "name", Some(DEFINITION)),
    }
}

// Adds a symbol in one of the ways that there are.
fn add_symbol(_alloc: Global, table: &mut SymbolTable, number: u32) -> Result<(), EncodeError> {
    match number % 8 {
        4 => {
            table.function(0, number, NAME)?;
            Ok(())
        }
        5 => {
            table.global(0, number, NAME)?;
            Ok(())
        }
        6 => {
            table.table(0, number, NAME)?;
            Ok(())
        }
        7 => {
            table.data(0, "name", None)?;
            Ok(())
        }
        other => push_symbol(table, other),
    }
}

fn symbols(alloc: Global) -> bool {
    let mut table = SymbolTable::new(alloc);
    takes_each(alloc, &mut table, 24, add_symbol) && is_written(alloc, &table)
}

#[test]
fn symbols_are_kept(rt: HostRuntime) {
    assert!(rt; symbols(rt.alloc()));
}

fn add_table(alloc: Global, section: &mut LinkingSection, number: u32) -> Result<(), EncodeError> {
    let mut table = SymbolTable::new(alloc);
    table.push_data(0, "name", Some(DEFINITION))?;
    if number % 2 == 0 {
        return section.push(&table);
    }
    section.symbol_table(&table)?;
    Ok(())
}

fn tables(alloc: Global) -> bool {
    let mut section = LinkingSection::new(alloc);
    takes_each(alloc, &mut section, 6, add_table) && is_written(alloc, &section)
}

#[test]
fn tables_are_linked(rt: HostRuntime) {
    assert!(rt; tables(rt.alloc()));
}

fn program(alloc: Global) -> Result<CoreDumpSection, EncodeError> {
    match CoreDumpSection::new(alloc, "main") {
        Ok(section) => Ok(section),
        Err(_) => CoreDumpSection::new(alloc, "main"),
    }
}

fn is_program(alloc: Global) -> Option<bool> {
    let section = program(alloc).ok()?;
    Some(is_written(alloc, &section))
}

#[test]
fn a_program(rt: HostRuntime) {
    assert!(rt; is_program(rt.alloc()) == Some(true));
}

fn add_module(
    _alloc: Global,
    section: &mut CoreDumpModulesSection,
    number: u32,
) -> Result<(), EncodeError> {
    if number % 2 == 0 {
        return section.push("name");
    }
    section.module("another")?;
    Ok(())
}

// Checks that the section is also a custom section, at the second time where memory runs out at the first.
fn are_custom(alloc: Global, section: &CoreDumpModulesSection) -> bool {
    match section.as_custom() {
        Ok(custom) => is_written(alloc, &custom),
        Err(error) => error == EncodeError::Memory && section.as_custom().is_ok(),
    }
}

fn modules(alloc: Global) -> bool {
    let mut section = CoreDumpModulesSection::new(alloc);
    let are_taken = takes_each(alloc, &mut section, 10, add_module);
    let is_whole = are_taken && section.len() == 10;
    is_whole && is_written(alloc, &section) && are_custom(alloc, &section)
}

#[test]
fn modules_are_kept(rt: HostRuntime) {
    assert!(rt; modules(rt.alloc()));
}

fn add_instance(
    _alloc: Global,
    section: &mut CoreDumpInstancesSection,
    number: u32,
) -> Result<(), EncodeError> {
    if number % 2 == 0 {
        return section.push(number, &[2], &[3]);
    }
    section.instance(number, &[4, 5], &[])?;
    Ok(())
}

// Checks the same of instances.
fn are_custom_instances(alloc: Global, section: &CoreDumpInstancesSection) -> bool {
    match section.as_custom() {
        Ok(custom) => is_written(alloc, &custom),
        Err(error) => error == EncodeError::Memory && section.as_custom().is_ok(),
    }
}

fn instances(alloc: Global) -> bool {
    let mut section = CoreDumpInstancesSection::new(alloc);
    let are_taken = takes_each(alloc, &mut section, 10, add_instance);
    let is_whole = are_taken && section.len() == 10;
    is_whole && is_written(alloc, &section) && are_custom_instances(alloc, &section)
}

#[test]
fn instances_are_kept(rt: HostRuntime) {
    assert!(rt; instances(rt.alloc()));
}

fn stack(alloc: Global) -> Result<CoreDumpStackSection, EncodeError> {
    match CoreDumpStackSection::new(alloc, "main") {
        Ok(section) => Ok(section),
        Err(_) => CoreDumpStackSection::new(alloc, "main"),
    }
}

// Adds a frame by one of the two calls.
fn add_frame(section: &mut CoreDumpStackSection, number: u32) -> Result<(), EncodeError> {
    let (locals, operands) = ([CoreDumpValue::I32(3)], [CoreDumpValue::Missing]);
    if number % 2 == 0 {
        return section.push(0, 1, 2, &locals, &operands);
    }
    section.frame(0, 1, 2, &locals, &operands)?;
    Ok(())
}

// Checks the same of a stack.
fn is_custom_stack(alloc: Global, section: &CoreDumpStackSection) -> bool {
    match section.as_custom() {
        Ok(custom) => is_written(alloc, &custom),
        Err(error) => error == EncodeError::Memory && section.as_custom().is_ok(),
    }
}

fn frames(alloc: Global) -> Option<bool> {
    let mut section = stack(alloc).ok()?;
    for number in 0..12_u32 {
        let before = section.len();
        let result = add_frame(&mut section, number);
        if !is_sound(&result, before, section.len()) {
            return Some(false);
        }
    }
    Some(is_written(alloc, &section) && is_custom_stack(alloc, &section))
}

#[test]
fn frames_are_kept(rt: HostRuntime) {
    assert!(rt; frames(rt.alloc()) == Some(true));
}
