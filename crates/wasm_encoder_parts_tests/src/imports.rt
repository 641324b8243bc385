//! Import sections.

use crate::entries::holds;
use std::alloc::Global;
use wasm_core_types::types::{AbstractHeapType, HeapType, RefType, ValType};
use wasm_encoder_sections::entity_type::{
    EntityType, GlobalType, MemoryType, TableType, TagKind, TagType,
};
use wasm_encoder_sections::import_section::ImportSection;
use wasm_encoder_sections::imports::{ImportCompact, Imports};

/// A memory of one page or more.
pub const MEMORY: MemoryType = MemoryType {
    minimum: 1,
    maximum: None,
    memory64: false,
    shared: false,
    page_size_log2: None,
};

const TABLE: TableType = TableType {
    element_type: RefType {
        nullable: true,
        heap_type: HeapType::Abstract(AbstractHeapType::Func),
    },
    table64: false,
    minimum: 0,
    maximum: Some(2),
};

const GLOBAL: GlobalType = GlobalType {
    val_type: ValType::I64,
    mutable: true,
};

const TAG: TagType = TagType {
    kind: TagKind::Exception,
    func_type_idx: 3,
};

fn one_function(alloc: Global) -> Option<bool> {
    let mut section = ImportSection::new(alloc);
    if section.import("m", "f", EntityType::Function(0)).is_err() {
        return None;
    }
    holds(alloc, &section, "6", "02 07 01 01 6d 01 66 00 00")
}

#[test]
fn a_function(rt: HostRuntime) {
    assert!(rt; one_function(rt.alloc()) == Some(true));
}

fn add_kinds(section: &mut ImportSection) -> bool {
    section.import("m", "", EntityType::from(TABLE)).is_ok()
        && section.import("m", "a", EntityType::from(MEMORY)).is_ok()
        && section.import("m", "b", EntityType::from(GLOBAL)).is_ok()
        && section.import("", "c", EntityType::from(TAG)).is_ok()
}

fn kinds(alloc: Global) -> Option<bool> {
    let mut section = ImportSection::new(alloc);
    if !add_kinds(&mut section) {
        return None;
    }
    holds(
        alloc,
        &section,
        "8 7 7 6",
        "02 1d 04 01 6d 00 01 70 01 00 02 01 6d 01 61 02 00 01 01 6d 01 62 03 7e 01 00 01 63 04 00 03",
    )
}

#[test]
fn each_kind(rt: HostRuntime) {
    assert!(rt; kinds(rt.alloc()) == Some(true));
}

fn add_compact(section: &mut ImportSection) -> bool {
    let items: &[ImportCompact<'_>] = &[ImportCompact {
        name: "a",
        ty: EntityType::Memory(MEMORY),
    }];
    let several = Imports::Compact1 { module: "m", items };
    section.imports(several).is_ok()
}

fn compact(alloc: Global) -> Option<bool> {
    let mut section = ImportSection::new(alloc);
    if !add_compact(&mut section) {
        return None;
    }
    holds(
        alloc,
        &section,
        "10",
        "02 0b 01 01 6d 00 7f 01 01 61 02 00 01",
    )
}

#[test]
fn of_one_module(rt: HostRuntime) {
    assert!(rt; compact(rt.alloc()) == Some(true));
}

fn add_alike(section: &mut ImportSection) -> bool {
    let names: &[&str] = &["a", "bc"];
    let several = Imports::Compact2 {
        module: "m",
        ty: EntityType::Function(1),
        names,
    };
    section.imports(several).is_ok()
}

fn alike(alloc: Global) -> Option<bool> {
    let mut section = ImportSection::new(alloc);
    if !add_alike(&mut section) {
        return None;
    }
    holds(
        alloc,
        &section,
        "12",
        "02 0d 01 01 6d 00 7e 00 01 02 01 61 02 62 63",
    )
}

#[test]
fn of_one_module_and_type(rt: HostRuntime) {
    assert!(rt; alike(rt.alloc()) == Some(true));
}
