//! Symbol tables and linking sections.

use crate::written::{encodes, writes};
use std::alloc::Global;
use std::test::Fail;
use wasm_encoder_custom::linking::LinkingSection;
use wasm_encoder_custom::symbol_table::{DataSymbolDefinition, SymbolTable};
use wasm_test_rows::fields::two_fields;
use wasm_test_rows::rows::check_rows;

// Returns what stands before the first colon, or the whole field.
fn before_colon(field: &str) -> &str {
    field.split_once(':').unwrap_or((field, "")).0
}

// Returns what stands after the first colon.
fn after_colon(field: &str) -> Option<&str> {
    Some(field.split_once(':')?.1)
}

fn definition_of(field: &str) -> Option<DataSymbolDefinition> {
    let rest = after_colon(field)?;
    Some(DataSymbolDefinition {
        index: before_colon(field).parse().ok()?,
        offset: before_colon(rest).parse().ok()?,
        size: after_colon(rest)?.parse().ok()?,
    })
}

fn add_data(table: &mut SymbolTable, flags: u32, rest: &str) -> bool {
    let definition = match after_colon(rest) {
        Some(place) => definition_of(place),
        None => None,
    };
    table.data(flags, before_colon(rest), definition).is_ok()
}

fn add_indexed(table: &mut SymbolTable, kind: &str, flags: u32, rest: &str) -> Option<bool> {
    let index = before_colon(rest).parse().ok()?;
    let name = after_colon(rest);
    let is_added = match kind {
        "function" => table.function(flags, index, name).is_ok(),
        "global" => table.global(flags, index, name).is_ok(),
        "table" => table.table(flags, index, name).is_ok(),
        _ => false,
    };
    Some(is_added)
}

// Returns a symbol: `function:FLAGS:INDEX`, with `:NAME` or without, and `data:FLAGS:NAME`, with `:INDEX:OFFSET:SIZE` or without.
fn add_symbol(table: &mut SymbolTable, word: &str) -> Option<bool> {
    let kind = before_colon(word);
    let rest = after_colon(word)?;
    let flags = before_colon(rest).parse().ok()?;
    let rest = after_colon(rest)?;
    match kind {
        "data" => Some(add_data(table, flags, rest)),
        _ => add_indexed(table, kind, flags, rest),
    }
}

// Symbols with spaces between them, each of which may be followed by how often it stands there.
fn add_symbols(table: &mut SymbolTable, symbols: &str) -> Option<()> {
    for word in symbols.split_whitespace() {
        let (word, count) = word.split_once('*').unwrap_or((word, "1"));
        for _ in 0..count.parse::<u32>().ok()? {
            if add_symbol(table, word) != Some(true) {
                return None;
            }
        }
    }
    Some(())
}

/// Symbols, and their subsection.
pub const TABLES: &str = "
    | 08 01 00
    function:16:5 | 08 04 01 00 10 05
    function:16:64 | 08 04 01 00 10 40
    function:0:5:f | 08 06 01 00 00 05 01 66
    function:80:128:ab | 08 08 01 00 50 80 01 02 61 62
    function:64:0:\u{e9} | 08 07 01 00 40 00 02 c3 a9
    global:16:0 | 08 04 01 02 10 00
    global:2:1:g | 08 06 01 02 02 01 01 67
    table:16:0 | 08 04 01 05 10 00
    table:4:0: | 08 05 01 05 04 00 00
    data:16:d | 08 05 01 01 10 01 64
    data:0:d:64:65:66 | 08 08 01 01 00 01 64 40 41 42
    data:0:d:1:2:3 | 08 08 01 01 00 01 64 01 02 03
    data:128::4294967295:300:0 | 08 0d 01 01 80 01 00 ff ff ff ff 0f ac 02 00
    function:0:0:f data:0:d:0:0:4 global:0:0:g table:0:0:t | 08 17 04 00 00 00 01 66 01 00 01 64 00 00 04 02 00 00 01 67 05 00 00 01 74
";

// Many symbols.
const MANY: &str = "
    data:0:d:0:0:0*100000 | 08 e3 dc 2a a0 8d 06 01000164000000*100000
";

/// Checks a row of symbols.
pub fn table_row(alloc: Global, row: &str) -> Option<bool> {
    let (symbols, bytes) = two_fields(row)?;
    let mut table = SymbolTable::new(alloc);
    let is_taken = add_symbols(&mut table, symbols).is_some();
    Some(is_taken && encodes(alloc, &table, bytes))
}

#[test]
fn symbol_tables(rt: HostRuntime) -> Result<(), Fail> {
    check_rows(rt.alloc(), TABLES, 15, table_row)?;
    Ok(check_rows(rt.alloc(), MANY, 1, table_row)?)
}

fn add_table(alloc: Global, section: &mut LinkingSection, symbols: &str) -> bool {
    let mut table = SymbolTable::new(alloc);
    let is_taken = add_symbols(&mut table, symbols).is_some();
    is_taken && section.symbol_table(&table).is_ok()
}

fn add_tables(alloc: Global, section: &mut LinkingSection, tables: &str) -> bool {
    for symbols in tables.split_terminator(';') {
        if !add_table(alloc, section, symbols) {
            return false;
        }
    }
    true
}

/// Tables, each before a semicolon, and the section.
pub const SECTIONS: &str = "
    | 00 09 07 6c 69 6e 6b 69 6e 67 02
    ; | 00 0c 07 6c 69 6e 6b 69 6e 67 02 08 01 00
    function:16:0; | 00 0f 07 6c 69 6e 6b 69 6e 67 02 08 04 01 00 10 00
    function:0:5:f; | 00 11 07 6c 69 6e 6b 69 6e 67 02 08 06 01 00 00 05 01 66
    function:0:5:f; data:16:d; ; | 00 1b 07 6c 69 6e 6b 69 6e 67 02 08 06 01 00 00 05 01 66 08 05 01 01 10 01 64 08 01 00
";

// A table of many symbols.
const LARGE: &str = "
    function:16:0*100000; | 00 f0 a7 12 07 6c 69 6e 6b 69 6e 67 02 08 e3 a7 12 a0 8d 06 001000*100000
";

/// Checks a row of tables.
pub fn section_row(alloc: Global, row: &str) -> Option<bool> {
    let (tables, bytes) = two_fields(row)?;
    let mut section = LinkingSection::new(alloc);
    let is_taken = add_tables(alloc, &mut section, tables);
    Some(is_taken && writes(alloc, &section, bytes))
}

#[test]
fn linking_sections(rt: HostRuntime) -> Result<(), Fail> {
    check_rows(rt.alloc(), SECTIONS, 5, section_row)?;
    Ok(check_rows(rt.alloc(), LARGE, 1, section_row)?)
}
