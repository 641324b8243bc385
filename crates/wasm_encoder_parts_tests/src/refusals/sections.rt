//! Sections whose items hold expressions or bytes.

use crate::refusals::refused::{is_sound, is_written};
use std::alloc::Global;
use wasm_core_types::types::{AbstractHeapType, HeapType, RefType, ValType};
use wasm_encoder_bodies::const_expr::ConstExpr;
use wasm_encoder_expression_sections::data_section::DataSection;
use wasm_encoder_expression_sections::element_section::ElementSection;
use wasm_encoder_expression_sections::element_segment::Elements;
use wasm_encoder_expression_sections::global_section::GlobalSection;
use wasm_encoder_expression_sections::table_section::TableSection;
use wasm_encoder_sections::entity_type::{GlobalType, TableType};

const FUNCREF: RefType = RefType {
    nullable: true,
    heap_type: HeapType::Abstract(AbstractHeapType::Func),
};

// Of two tries one at least has memory.
fn function(alloc: Global) -> Option<ConstExpr> {
    match ConstExpr::ref_func(alloc, 0) {
        Ok(expression) => Some(expression),
        Err(_) => ConstExpr::ref_func(alloc, 0).ok(),
    }
}

fn tables(alloc: Global) -> Option<bool> {
    let init = function(alloc)?;
    let mut section = TableSection::new(alloc);
    for _ in 0..6_u32 {
        let before = section.len();
        let ty = TableType {
            element_type: FUNCREF,
            table64: false,
            minimum: 1,
            maximum: None,
        };
        let result = section.push_with_init(ty, &init);
        if !is_sound(&result, before, section.len()) {
            return Some(false);
        }
    }
    Some(is_written(alloc, &section))
}

fn globals(alloc: Global) -> Option<bool> {
    let init = function(alloc)?;
    let mut section = GlobalSection::new(alloc);
    for _ in 0..6_u32 {
        let before = section.len();
        let ty = GlobalType {
            val_type: ValType::Ref(FUNCREF),
            mutable: false,
        };
        let result = section.push(ty, &init);
        if !is_sound(&result, before, section.len()) {
            return Some(false);
        }
    }
    Some(is_written(alloc, &section))
}

fn elements(alloc: Global) -> Option<bool> {
    let expressions = [function(alloc)?, function(alloc)?];
    let mut section = ElementSection::new(alloc);
    for _ in 0..6_u32 {
        let before = section.len();
        let elements = Elements::Expressions(FUNCREF, &expressions);
        let result = section.push_active(None, &expressions[0], elements);
        if !is_sound(&result, before, section.len()) {
            return Some(false);
        }
    }
    Some(is_written(alloc, &section))
}

fn segments(alloc: Global) -> Option<bool> {
    let offset = function(alloc)?;
    let mut section = DataSection::new(alloc);
    for _ in 0..6_u32 {
        let before = section.len();
        let result = section.push_active(1, &offset, b"abc");
        if !is_sound(&result, before, section.len()) {
            return Some(false);
        }
    }
    Some(is_written(alloc, &section))
}

fn raw_items(alloc: Global) -> bool {
    let mut section = DataSection::new(alloc);
    for _ in 0..6_u32 {
        let before = section.len();
        let result = section.push_raw(b"\x01\x00");
        if !is_sound(&result, before, section.len()) {
            return false;
        }
    }
    is_written(alloc, &section)
}

#[test]
fn tables_with_initialisers(rt: HostRuntime) {
    assert!(rt; tables(rt.alloc()) == Some(true));
}

#[test]
fn globals_are_kept(rt: HostRuntime) {
    assert!(rt; globals(rt.alloc()) == Some(true));
}

#[test]
fn element_segments(rt: HostRuntime) {
    assert!(rt; elements(rt.alloc()) == Some(true));
}

#[test]
fn data_segments(rt: HostRuntime) {
    assert!(rt; segments(rt.alloc()) == Some(true));
}

#[test]
fn raw_segments(rt: HostRuntime) {
    assert!(rt; raw_items(rt.alloc()));
}
