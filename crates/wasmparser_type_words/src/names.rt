//! Tables of names, and value types that name no defined type.

use wasmparser_types::ref_type::RefType;
use wasmparser_types::val_type::ValType;

/// Returns the value with this name.
pub fn named<T: Copy>(table: &[(&str, T)], name: &str) -> Option<T> {
    for (it, found) in table {
        if *it == name {
            return Some(*found);
        }
    }
    None
}

/// Returns the value type of this name. `func` is a reference without null.
pub fn named_val_type(name: &str) -> Option<ValType> {
    match name {
        "i32" => Some(ValType::I32),
        "i64" => Some(ValType::I64),
        "f32" => Some(ValType::F32),
        "f64" => Some(ValType::F64),
        "v128" => Some(ValType::V128),
        "funcref" => Some(ValType::FUNCREF),
        "externref" => Some(ValType::EXTERNREF),
        "exnref" => Some(ValType::EXNREF),
        "contref" => Some(ValType::CONTREF),
        "func" => Some(ValType::Ref(RefType::FUNC)),
        "anyref" => Some(ValType::Ref(RefType::ANYREF)),
        "eqref" => Some(ValType::Ref(RefType::EQREF)),
        "i31ref" => Some(ValType::Ref(RefType::I31REF)),
        _ => None,
    }
}
