//! Tables and globals, each with its type and its initialiser.

use crate::expressions::has_operators;
use std::alloc;
use std::test::Fail;
use wasm_core_read::binary_reader::BinaryReader;
use wasm_test_rows::fields::three_fields;
use wasm_test_rows::rows::check_rows;
use wasm_test_rows::shown::debugs;
use wasm_test_rows::values::bytes_of;
use wasmparser_entries::global::Global;
use wasmparser_entries::table::{Table, TableInit};
use wasmparser_readers::from_reader::FromReader;

// The bytes, all of which are a table, its type and the operators of its initialiser; or the refusal.
const TABLES: &str = "
    70 00 0a | TableType { element_type: RefType { bits: 449 }, table64: false, initial: 10, maximum: None } | none
    40 00 70 01 01 02 d0 70 0b | TableType { element_type: RefType { bits: 449 }, table64: false, initial: 1, maximum: Some(2) } | RefNull { hty: Abstract(Func) }
    40 00 64 70 04 01 d2 05 0b | TableType { element_type: RefType { bits: 448 }, table64: true, initial: 1, maximum: None } | RefFunc { function_index: 5 }
    40 00 70 00 00 0b | TableType { element_type: RefType { bits: 449 }, table64: false, initial: 0, maximum: None } |
    40 00 64 80 80 c0 00 00 01 d2 00 0b | invalid |
    64 80 80 c0 00 00 01 | invalid |
    40 00 64 80 80 c0 00 00 01 d2 00 | malformed |
    40 01 70 00 00 d0 70 0b | malformed |
    40 00 70 00 00 | malformed |
    40 00 70 02 01 d0 70 0b | malformed |
    40 00 40 00 70 00 00 d0 70 0b | malformed |
    40 | malformed |
    | malformed |
";

const COUNT_OF_TABLES: usize = 13;

fn table_has(alloc: alloc::Global, table: &Table<'_>, ty: &str, words: &str) -> bool {
    if !debugs(alloc, &table.ty, ty) {
        return false;
    }
    match &table.init {
        TableInit::RefNull => words == "none",
        TableInit::Expr(expression) => has_operators(alloc, expression, words),
    }
}

fn table_holds(alloc: alloc::Global, row: &str) -> Option<bool> {
    let (field, ty, words) = three_fields(row)?;
    let bytes = bytes_of(alloc, field)?;
    let mut reader = BinaryReader::new(&bytes, 0);
    match Table::from_reader(alloc, &mut reader) {
        Ok(table) => Some(reader.eof() && table_has(alloc, &table, ty, words)),
        Err(error) => Some(error.kind.name() == ty && error.offset <= bytes.len() as u64),
    }
}

#[test]
fn tables_read(rt: HostRuntime) -> Result<(), Fail> {
    check_rows(rt.alloc(), TABLES, COUNT_OF_TABLES, table_holds)?;
    Ok(())
}

// The bytes, all of which are a global, its type and the operators of its initialiser; or the refusal.
const GLOBALS: &str = "
    7f 00 41 2a 0b | GlobalType { content_type: I32, mutable: false } | I32Const { value: 42 }
    7e 01 23 00 42 01 7c 0b | GlobalType { content_type: I64, mutable: true } | GlobalGet { global_index: 0 }; I64Const { value: 1 }; I64Add
    70 00 d0 70 0b | GlobalType { content_type: Ref(RefType { bits: 449 }), mutable: false } | RefNull { hty: Abstract(Func) }
    7f 00 0b | GlobalType { content_type: I32, mutable: false } |
    63 80 80 c0 00 01 d0 70 0b | invalid |
    63 80 80 c0 00 02 d0 70 0b | malformed |
    63 80 80 c0 00 01 d0 70 | malformed |
    7f 00 41 2a | malformed |
    7f 00 | malformed |
    7f 02 41 2a 0b | malformed |
    7f | malformed |
";

const COUNT_OF_GLOBALS: usize = 11;

fn global_holds(alloc: alloc::Global, row: &str) -> Option<bool> {
    let (field, ty, words) = three_fields(row)?;
    let bytes = bytes_of(alloc, field)?;
    let mut reader = BinaryReader::new(&bytes, 0);
    match Global::from_reader(alloc, &mut reader) {
        Ok(global) => Some(
            reader.eof()
                && debugs(alloc, &global.ty, ty)
                && has_operators(alloc, &global.init_expr, words),
        ),
        Err(error) => Some(error.kind.name() == ty && error.offset <= bytes.len() as u64),
    }
}

#[test]
fn globals_read(rt: HostRuntime) -> Result<(), Fail> {
    check_rows(rt.alloc(), GLOBALS, COUNT_OF_GLOBALS, global_holds)?;
    Ok(())
}
