//! Expressions and types in words.

use std::alloc::Global;
use wasm_core_types::types::{AbstractHeapType, HeapType, RefType};
use wasm_encoder_bodies::const_expr::ConstExpr;
use wasm_test_rows::values::bytes_of;

/// Returns the expression of these operators, which are bytes in hexadecimal digits.
pub fn expression_of(alloc: Global, operators: &str) -> Option<ConstExpr> {
    let bytes = bytes_of(alloc, operators)?;
    ConstExpr::raw(alloc, bytes).ok()
}

const fn reference(nullable: bool, heap: AbstractHeapType) -> RefType {
    RefType {
        nullable,
        heap_type: HeapType::Abstract(heap),
    }
}

/// Returns the type of this name.
pub fn reference_of(name: &str) -> Option<RefType> {
    match name {
        "funcref" => Some(reference(true, AbstractHeapType::Func)),
        "func" => Some(reference(false, AbstractHeapType::Func)),
        "externref" => Some(reference(true, AbstractHeapType::Extern)),
        "extern" => Some(reference(false, AbstractHeapType::Extern)),
        "concrete" => Some(RefType {
            nullable: true,
            heap_type: HeapType::Concrete(64),
        }),
        _ => None,
    }
}
