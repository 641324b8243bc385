//! Element and data segments.

use crate::expressions::has_operators;
use std::alloc::Global;
use std::test::Fail;
use wasm_core_read::binary_reader::BinaryReader;
use wasm_test_rows::fields::four_fields;
use wasm_test_rows::rows::check_rows;
use wasm_test_rows::values::{are_bytes, bytes_of, number_of};
use wasmparser_entries::const_expr::ConstExpr;
use wasmparser_entries::data::{Data, DataKind};
use wasmparser_entries::element::{Element, ElementItems, ElementKind};
use wasmparser_readers::from_reader::FromReader;
use wasmparser_readers::section_limited::SectionLimited;
use wasmparser_types::ref_type::RefType;

// The offset of the bytes in the input.
const START: u64 = 100;

// The bytes, all of which are an element segment; when it is used, with the index of its table where that is written; the operators of its
// offset; and its items: functions, or the type and the operators of each expression, all with their places. Or the refusal.
const ELEMENTS: &str = "
    00 41 00 0b 02 01 80 01 | active | I32Const { value: 0 } | functions / 1@105 / 128@106
    00 23 01 0b 00 | active | GlobalGet { global_index: 1 } | functions
    01 00 01 05 | passive | | functions / 5@103
    02 03 41 00 0b 00 01 05 | active 3 | I32Const { value: 0 } | functions / 5@107
    02 00 41 00 0b 00 00 | active 0 | I32Const { value: 0 } | functions
    03 00 01 05 | declared | | functions / 5@103
    04 41 00 0b 02 d2 05 0b d0 70 0b | active | I32Const { value: 0 } | funcref / RefFunc { function_index: 5 }@105 / RefNull { hty: Abstract(Func) }@108
    05 70 01 d2 00 0b | passive | | funcref / RefFunc { function_index: 0 }@103
    05 6f 00 | passive | | externref
    06 81 00 41 00 0b 6f 01 d0 6f 0b | active 1 | I32Const { value: 0 } | externref / RefNull { hty: Abstract(Extern) }@108
    07 64 70 01 d2 00 0b | declared | | (ref func) / RefFunc { function_index: 0 }@104
    85 80 80 80 00 70 00 | passive | | funcref
    05 64 80 80 c0 00 01 d2 00 0b | invalid | |
    06 00 41 00 0b 63 80 80 c0 00 00 | invalid | |
    07 64 80 80 c0 00 01 d2 00 | malformed | |
    00 41 00 0b 02 01 | malformed | |
    00 41 00 0b 01 80 80 80 80 10 | malformed | |
    00 41 00 02 01 | malformed | |
    01 01 01 05 | malformed | |
    02 00 41 00 0b 01 00 | malformed | |
    03 70 01 05 | malformed | |
    04 41 00 0b 01 05 | malformed | |
    05 7f 01 41 00 0b | malformed | |
    05 00 01 05 | malformed | |
    08 41 00 0b 00 | malformed | |
    00 41 00 0b ff ff ff ff 0f | malformed | |
    04 41 00 0b ff ff ff ff 0f 0b | malformed | |
    01 00 | malformed | |
    | malformed | |
";

const COUNT_OF_ELEMENTS: usize = 29;

// Checks that an index that may not be written is the one in words.
fn is_index(index: Option<u32>, words: &str) -> bool {
    match index {
        None => words.is_empty(),
        Some(index) => number_of(words.trim()) == Some(u64::from(index)),
    }
}

fn is_used(alloc: Global, kind: &ElementKind<'_>, words: &str, offset: &str) -> bool {
    match kind {
        ElementKind::Passive => words == "passive" && offset.is_empty(),
        ElementKind::Declared => words == "declared" && offset.is_empty(),
        ElementKind::Active {
            table_index,
            offset_expr,
        } => match words.strip_prefix("active") {
            Some(index) => {
                is_index(*table_index, index) && has_operators(alloc, offset_expr, offset)
            }
            None => false,
        },
    }
}

fn has_functions(alloc: Global, functions: &SectionLimited<'_, u32>, words: &str) -> Option<bool> {
    let mut expected = words.split('/');
    if expected.next()?.trim() != "functions" {
        return Some(false);
    }
    for function in functions.clone().ok()?.into_iter_with_offsets(alloc) {
        let (place, index) = function.ok()?;
        let (what, offset) = expected.next()?.trim().split_once('@')?;
        if number_of(what) != Some(u64::from(index)) || number_of(offset) != Some(place) {
            return Some(false);
        }
    }
    Some(expected.next().is_none())
}

fn is_type(ty: &RefType, words: &str) -> bool {
    match words {
        "funcref" => ty.is_func_ref() && ty.is_nullable(),
        "externref" => ty.is_extern_ref() && ty.is_nullable(),
        "(ref func)" => ty.is_func_ref() && !ty.is_nullable(),
        _ => false,
    }
}

fn has_expressions<'a>(
    alloc: Global,
    ty: &RefType,
    expressions: &SectionLimited<'a, ConstExpr<'a>>,
    words: &str,
) -> Option<bool> {
    let mut expected = words.split('/');
    if !is_type(ty, expected.next()?.trim()) {
        return Some(false);
    }
    for expression in expressions.clone().ok()?.into_iter_with_offsets(alloc) {
        let (place, expression) = expression.ok()?;
        let (operators, offset) = expected.next()?.trim().split_once('@')?;
        if !has_operators(alloc, &expression, operators) || number_of(offset) != Some(place) {
            return Some(false);
        }
    }
    Some(expected.next().is_none())
}

fn has_items(alloc: Global, items: &ElementItems<'_>, words: &str) -> Option<bool> {
    match items {
        ElementItems::Functions(functions) => has_functions(alloc, functions, words),
        ElementItems::Expressions(ty, expressions) => {
            has_expressions(alloc, ty, expressions, words)
        }
    }
}

fn element_holds(alloc: Global, row: &str) -> Option<bool> {
    let (field, words, offset, items) = four_fields(row)?;
    let bytes = bytes_of(alloc, field)?;
    let mut reader = BinaryReader::new(&bytes, START);
    let element = match Element::from_reader(alloc, &mut reader) {
        Ok(element) => element,
        Err(error) => return Some(error.kind.name() == words),
    };
    Some(
        reader.eof()
            && is_used(alloc, &element.kind, words, offset)
            && has_items(alloc, &element.items, items)?,
    )
}

#[test]
fn elements_read(rt: HostRuntime) -> Result<(), Fail> {
    check_rows(rt.alloc(), ELEMENTS, COUNT_OF_ELEMENTS, element_holds)?;
    Ok(())
}

// The bytes, all of which are a data segment; when it is used, with the index of its memory where that is written; the operators of its offset; and
// its bytes. Or the refusal.
const DATA: &str = "
    00 41 08 0b 03 61 62 63 | active | I32Const { value: 8 } | 61 62 63
    00 42 08 0b 00 | active | I64Const { value: 8 } |
    01 02 ff 00 | passive | | ff 00
    01 00 | passive | |
    02 05 23 00 0b 01 0b | active 5 | GlobalGet { global_index: 0 } | 0b
    02 00 41 00 0b 80 00 | active 0 | I32Const { value: 0 } |
    82 00 00 41 00 0b 00 | active 0 | I32Const { value: 0 } |
    00 41 08 0b 03 61 62 | malformed | |
    00 41 08 03 61 62 63 | malformed | |
    02 41 00 0b 00 | malformed | |
    03 00 | malformed | |
    01 ff ff ff ff 0f | malformed | |
    01 80 80 80 80 10 | malformed | |
    01 | malformed | |
    | malformed | |
";

const COUNT_OF_DATA: usize = 15;

fn data_has(alloc: Global, data: &Data<'_>, words: &str, offset: &str, contents: &str) -> bool {
    if !are_bytes(alloc, contents, data.data) {
        return false;
    }
    match &data.kind {
        DataKind::Passive => words == "passive" && offset.is_empty(),
        DataKind::Active {
            memory_index,
            offset_expr,
        } => match words.strip_prefix("active") {
            Some(index) => {
                is_index(*memory_index, index) && has_operators(alloc, offset_expr, offset)
            }
            None => false,
        },
    }
}

fn data_holds(alloc: Global, row: &str) -> Option<bool> {
    let (field, words, offset, contents) = four_fields(row)?;
    let bytes = bytes_of(alloc, field)?;
    let mut reader = BinaryReader::new(&bytes, START);
    match Data::from_reader(alloc, &mut reader) {
        Ok(data) => Some(reader.eof() && data_has(alloc, &data, words, offset, contents)),
        Err(error) => Some(error.kind.name() == words),
    }
}

#[test]
fn data_read(rt: HostRuntime) -> Result<(), Fail> {
    check_rows(rt.alloc(), DATA, COUNT_OF_DATA, data_holds)?;
    Ok(())
}
