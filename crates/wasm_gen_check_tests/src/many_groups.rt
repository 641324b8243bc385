//! Reports on modules of many groups.

use crate::reports::put_report;
use std::alloc::Global;
use wasm_gen::session::Session;
use wasm_gen_rows::modules::module_of;
use wasm_test_rows::fields::{three_fields, word_and_rest};
use wasm_test_rows::values::number_of;

/// How many rows there are.
pub const COUNT: usize = 6;

/// Features, sections, and of the report on their module the number of lines of types in groups, that of lines of type indexes, and the last line.
pub const ROWS: &str = "
    // 100,000 groups that are equal, also where each definition is a type of its own, and groups of none.
    groups | 01 e3a712 a08d06 600000*100000 | 1 100000 index 99999 0.0
    groups default but GC FUNCTION_REFERENCES STACK_SWITCHING | 01 e3a712 a08d06 600000*100000 | 1 100000 index 99999 0.0
    groups | 01 c39a0c a08d06 4e00*100000 | 0 0
    // A structure and an array that refer to each other, and copies that refer to the first two.
    groups | 01 f3c821 d08603 4e025f016301005e630000*50000 | 4 100000 index 99999 1.1
    // 100,000 groups that differ, of which the last 83,615 refer each to the one before.
    groups | 01 a3f736 a08d06 6006@00*100000 | 100000 100000 index 99999 99999.0
    groups | 01 e5dc2c a08d06 6006@00*16385 5f0163#00*16384..99999 | 100000 100000 index 99999 99999.0
";

// Checks that so many lines of a text begin with a word.
fn are_lines(text: &str, word: &str, expected: &str) -> bool {
    let mut count = 0usize;
    for line in text.lines() {
        if line.starts_with(word) {
            count = count.saturating_add(1);
        }
    }
    number_of(expected) == Some(count as u64)
}

// Checks that a text has so many lines of types, so many of type indexes, and this last line.
fn has_lines(text: &str, expected: &str) -> bool {
    let (types, rest) = word_and_rest(expected);
    let (indexes, last) = word_and_rest(rest);
    are_lines(text, "type ", types)
        && are_lines(text, "index ", indexes)
        && text.trim_end().ends_with(last)
}

/// Checks that the report on the module of a row has the lines that the row counts.
pub fn has_groups(alloc: Global, session: &mut Session, row: &str) -> Option<bool> {
    let (_, sections, expected) = three_fields(row)?;
    let bytes = module_of(alloc, sections)?;
    let mut written = Vec::new(alloc);
    let is_valid = put_report(alloc, session, &bytes, &mut written)?;
    let text = str::from_utf8(&written).ok()?;
    Some(is_valid && has_lines(text, expected))
}
