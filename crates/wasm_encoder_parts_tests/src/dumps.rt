//! Core dumps.

use crate::written::writes;
use std::alloc::Global;
use wasm_encoder_custom::core_dump::{CoreDumpModulesSection, CoreDumpSection};
use wasm_encoder_custom::core_dump_instances::CoreDumpInstancesSection;

/// Checks that the section of a program is written.
pub fn program(alloc: Global) -> Option<bool> {
    let section = CoreDumpSection::new(alloc, "p").ok()?;
    Some(writes(alloc, &section, "00 08 04 63 6f 72 65 00 01 70"))
}

#[test]
fn a_program(rt: HostRuntime) {
    assert!(rt; program(rt.alloc()) == Some(true));
}

const MODULES: &str = "00 12 0b 63 6f 72 65 6d 6f 64 75 6c 65 73 02 00 01 6d 00 00";

fn add_modules(section: &mut CoreDumpModulesSection) -> bool {
    match section.module("m") {
        Ok(section) => section.module("").is_ok(),
        Err(_) => false,
    }
}

// Checks that the section has two modules, and is written so, also as a custom section.
fn has_modules(alloc: Global, section: &CoreDumpModulesSection) -> bool {
    let is_told = section.len() == 2
        && section.item_len(0) == Some(3)
        && section.item_len(2).is_none();
    match section.as_custom() {
        Ok(custom) => {
            is_told && writes(alloc, section, MODULES) && writes(alloc, &custom, MODULES)
        }
        Err(_) => false,
    }
}

/// Checks that a section of modules is written.
pub fn modules(alloc: Global) -> bool {
    let mut section = CoreDumpModulesSection::new(alloc);
    add_modules(&mut section) && has_modules(alloc, &section)
}

#[test]
fn some_modules(rt: HostRuntime) {
    assert!(rt; modules(rt.alloc()));
}

const INSTANCES: &str =
    "00 19 0d 63 6f 72 65 69 6e 73 74 61 6e 63 65 73 02 00 00 00 00 00 01 01 02 01 03";

fn add_instances(section: &mut CoreDumpInstancesSection) -> bool {
    match section.instance(0, &[], &[]) {
        Ok(section) => section.instance(1, &[2], &[3]).is_ok(),
        Err(_) => false,
    }
}

// Checks that the section has two instances, and is written so, also as a custom section.
fn has_instances(alloc: Global, section: &CoreDumpInstancesSection) -> bool {
    let is_told = section.len() == 2
        && section.item_len(1) == Some(6)
        && section.item_len(2).is_none();
    match section.as_custom() {
        Ok(custom) => {
            is_told && writes(alloc, section, INSTANCES) && writes(alloc, &custom, INSTANCES)
        }
        Err(_) => false,
    }
}

/// Checks that a section of instances is written.
pub fn instances(alloc: Global) -> bool {
    let mut section = CoreDumpInstancesSection::new(alloc);
    add_instances(&mut section) && has_instances(alloc, &section)
}

#[test]
fn some_instances(rt: HostRuntime) {
    assert!(rt; instances(rt.alloc()));
}
