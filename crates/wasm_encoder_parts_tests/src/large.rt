//! Sections of many items, which are written into just the room that they ask for.

use crate::expressions::expression_of;
use std::alloc::Global;
use wasm_core_types::types::{AbstractHeapType, HeapType, RefType, ValType};
use wasm_core_write::encode::Encode;
use wasm_encoder_bodies::const_expr::ConstExpr;
use wasm_encoder_expression_sections::data_section::DataSection;
use wasm_encoder_expression_sections::element_section::ElementSection;
use wasm_encoder_expression_sections::element_segment::Elements;
use wasm_encoder_expression_sections::global_section::GlobalSection;
use wasm_encoder_sections::entity_type::GlobalType;

const COUNT: u32 = 100_000;

// Checks that so many bytes are written.
fn has_len<E: Encode>(alloc: Global, section: &E, expected: u64) -> Option<bool> {
    let len = section.encoded_len().ok()?;
    let mut sink = Vec::new(alloc);
    section.encode(&mut sink).ok()?;
    Some(len == expected && sink.len() as u64 == expected)
}

// Each global takes 5 bytes, their number 3, and the size 3.
fn many_globals(alloc: Global) -> Option<bool> {
    let init = expression_of(alloc, "41 00")?;
    let mut section = GlobalSection::new(alloc);
    for _ in 0..COUNT {
        let ty = GlobalType {
            val_type: ValType::I32,
            mutable: false,
        };
        section.push(ty, &init).ok()?;
    }
    has_len(alloc, &section, 500_006)
}

// Each segment takes 9 bytes.
fn many_segments(alloc: Global) -> Option<bool> {
    let offset = expression_of(alloc, "41 00")?;
    let mut section = DataSection::new(alloc);
    for _ in 0..COUNT {
        section.push_active(0, &offset, b"abcd").ok()?;
    }
    has_len(alloc, &section, 900_006)
}

fn put_expressions(alloc: Global, expressions: &mut Vec<ConstExpr>) -> Option<()> {
    for _ in 0..COUNT {
        expressions.push(expression_of(alloc, "d2 00")?).ok()?;
    }
    Some(())
}

// One segment: its form and type, the number of expressions in 3 bytes, and 3 bytes for each.
fn has_expressions(alloc: Global, expressions: &[ConstExpr]) -> Option<bool> {
    let ty = RefType {
        nullable: true,
        heap_type: HeapType::Abstract(AbstractHeapType::Func),
    };
    let mut section = ElementSection::new(alloc);
    let elements = Elements::Expressions(ty, expressions);
    section.push_passive(elements).ok()?;
    has_len(alloc, &section, 300_009)
}

fn many_expressions(alloc: Global) -> Option<bool> {
    let mut expressions = Vec::new(alloc);
    put_expressions(alloc, &mut expressions)?;
    has_expressions(alloc, &expressions)
}

#[test]
fn large_sections(rt: HostRuntime) {
    assert!(rt; many_globals(rt.alloc()) == Some(true));
    assert!(rt; many_segments(rt.alloc()) == Some(true));
    assert!(rt; many_expressions(rt.alloc()) == Some(true));
}
