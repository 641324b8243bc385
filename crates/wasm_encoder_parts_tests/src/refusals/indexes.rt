//! Sections of functions, tags and imports, and those that are one number.

use crate::imports::MEMORY;
use crate::refusals::refused::{is_written, takes_each};
use std::alloc::Global;
use wasm_core_write::encode_error::EncodeError;
use wasm_encoder_sections::data_count_section::DataCountSection;
use wasm_encoder_sections::entity_type::{EntityType, TagKind, TagType};
use wasm_encoder_sections::function_section::FunctionSection;
use wasm_encoder_sections::import_section::ImportSection;
use wasm_encoder_sections::imports::{Import, ImportCompact, Imports};
use wasm_encoder_sections::start_section::StartSection;
use wasm_encoder_sections::tag_section::TagSection;

fn add_function(
    _alloc: Global,
    section: &mut FunctionSection,
    number: u32,
) -> Result<(), EncodeError> {
    if number % 2 == 0 {
        return section.push(number);
    }
    section.function(number)?;
    Ok(())
}

fn functions(alloc: Global) -> bool {
    let mut section = FunctionSection::new(alloc);
    let are_taken = takes_each(alloc, &mut section, 20, add_function);
    are_taken && section.len() == 20 && is_written(alloc, &section)
}

#[test]
fn functions_are_kept(rt: HostRuntime) {
    assert!(rt; functions(rt.alloc()));
}

fn add_tag(_alloc: Global, section: &mut TagSection, number: u32) -> Result<(), EncodeError> {
    let ty = TagType {
        kind: TagKind::Exception,
        func_type_idx: number,
    };
    if number % 2 == 0 {
        return section.push(ty);
    }
    section.tag(ty)?;
    Ok(())
}

fn tags(alloc: Global) -> bool {
    let mut section = TagSection::new(alloc);
    let are_taken = takes_each(alloc, &mut section, 20, add_tag);
    are_taken && section.len() == 20 && is_written(alloc, &section)
}

#[test]
fn tags_are_kept(rt: HostRuntime) {
    assert!(rt; tags(rt.alloc()));
}

const ITEMS: &[ImportCompact<'_>] = &[
    ImportCompact {
        name: "a",
        ty: EntityType::Memory(MEMORY),
    },
    ImportCompact {
        name: "bc",
        ty: EntityType::Function(2),
    },
];

const NAMES: &[&str] = &["a", "bc"];

// Adds an import or imports, by the number's remainder in one of four ways.
fn add_import(_alloc: Global, section: &mut ImportSection, number: u32) -> Result<(), EncodeError> {
    let ty = EntityType::Function(number);
    let (module, items, names) = ("m", ITEMS, NAMES);
    match number % 4 {
        0 => {
            section.import(module, "f", ty)?;
            Ok(())
        }
        1 => {
            section.imports(Imports::Compact1 { module, items })?;
            Ok(())
        }
        2 => section.push(&Imports::Compact2 { module, ty, names }),
        _ => section.push(&Imports::Single(Import {
            module,
            name: "g",
            ty,
        })),
    }
}

fn imports(alloc: Global) -> bool {
    let mut section = ImportSection::new(alloc);
    let are_taken = takes_each(alloc, &mut section, 20, add_import);
    are_taken && section.len() == 20 && is_written(alloc, &section)
}

#[test]
fn imports_are_kept(rt: HostRuntime) {
    assert!(rt; imports(rt.alloc()));
}

#[test]
fn numbers_are_written(rt: HostRuntime) {
    let start = StartSection {
        function_index: 128,
    };
    let data_count = DataCountSection { count: 16_384 };
    assert!(rt; is_written(rt.alloc(), &start) && is_written(rt.alloc(), &data_count));
}
