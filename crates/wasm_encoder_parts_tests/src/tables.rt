//! Types of tables.

use wasm_core_types::types::{AbstractHeapType, HeapType, RefType, ValType};
use wasm_encoder_sections::entity_type::TableType;

const FUNCREF: RefType = RefType {
    nullable: true,
    heap_type: HeapType::Abstract(AbstractHeapType::Func),
};

fn has_index_type(table64: bool, expected: ValType) -> bool {
    let ty = TableType {
        element_type: FUNCREF,
        table64,
        minimum: 0,
        maximum: None,
    };
    ty.index_type() == expected
}

#[test]
fn index_types(rt: HostRuntime) {
    assert!(rt; has_index_type(true, ValType::I64) && has_index_type(false, ValType::I32));
}
