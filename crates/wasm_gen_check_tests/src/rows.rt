//! Rows of a module, and what new sessions answer on it.

use crate::many_groups::has_groups;
use crate::reports::has_report;
use crate::views::{has_explanation, has_exports, has_line};
use crate::{
    custom_sections, cuts, data_segments, elements, exports, function_limits, functions, globals,
    lines, many_groups, other_limits, other_sections, reports, tables, types, value_types,
};
use std::alloc::Global;
use std::test::Fail;
use wasm_core::features::{Flags, WasmFeatures};
use wasm_gen_rows::answers::answers_under;
use wasm_gen_rows::modules::module_of;
use wasm_gen_rows::new_session::on_new_session;
use wasm_test_rows::fields::{has_word, three_fields, word_and_rest};
use wasm_test_rows::rows::check_rows;
use wasm_test_rows::values::number_of;

// All features.
const NAMES: &str = "
    MUTABLE_GLOBAL SATURATING_FLOAT_TO_INT SIGN_EXTENSION REFERENCE_TYPES MULTI_VALUE BULK_MEMORY SIMD RELAXED_SIMD
    THREADS TAIL_CALL FLOATS MULTI_MEMORY EXCEPTIONS MEMORY64 EXTENDED_CONST FUNCTION_REFERENCES GC GC_TYPES
    CUSTOM_PAGE_SIZES COMPACT_IMPORTS WIDE_ARITHMETIC STACK_SWITCHING
";

// Returns all features but that of this name.
fn all_but(name: &str) -> Option<WasmFeatures> {
    Some(WasmFeatures::all().difference(WasmFeatures::from_name(name)?))
}

/// Returns the features of a field: `default` or `all`, or one of them `but` for some. The default ones stand for none too.
pub fn features_of(field: &str) -> Option<WasmFeatures> {
    let (most, others) = field.split_once(" but ").unwrap_or((field, ""));
    let mut features = match most {
        "default" | "" => WasmFeatures::default(),
        "all" => WasmFeatures::all(),
        _ => return None,
    };
    for name in others.split_whitespace() {
        features = features.difference(WasmFeatures::from_name(name)?);
    }
    Some(features)
}

// Checks that a module is valid under all features, and invalid without any of those that are asked for.
fn asks_for(alloc: Global, bytes: &[u8], asked: &str) -> Option<bool> {
    let mut holds = answers_under(alloc, WasmFeatures::all(), bytes, "yes");
    for name in NAMES.split_whitespace() {
        let expected = if has_word(asked, name) {
            "Invalid"
        } else {
            "yes"
        };
        holds = holds && answers_under(alloc, all_but(name)?, bytes, expected);
    }
    Some(holds)
}

// Checks that a number is among those of the field.
fn has_number(field: &str, number: usize) -> bool {
    for word in field.split_whitespace() {
        if number_of(word) == Some(number as u64) {
            return true;
        }
    }
    false
}

// Returns the answer at a place: `yes` at those of the field.
fn expected_at(field: &str, place: usize) -> &'static str {
    if has_number(field, place) {
        "yes"
    } else {
        "Malformed"
    }
}

// Checks that the bytes are a module up to each of these ends, and malformed up to any other place.
fn is_cut_at(alloc: Global, features: WasmFeatures, bytes: &[u8], ends: &str) -> bool {
    let mut holds = true;
    for end in 0..=bytes.len() {
        let expected = expected_at(ends, end);
        holds = holds && answers_under(alloc, features, &bytes[..end], expected);
    }
    holds
}

// Checks that the bytes are a module where the first section has one of these ids, invalid at others that the field names after a comma, and malformed
// where it has any other but 0.
fn has_ids(alloc: Global, bytes: &mut [u8], field: &str) -> Option<bool> {
    let (ids, invalid) = field.split_once(", but Invalid")?;
    let mut holds = true;
    for id in 1..=255u8 {
        *bytes.get_mut(8)? = id;
        let is_invalid = has_number(invalid, usize::from(id));
        let expected = if is_invalid {
            "Invalid"
        } else {
            expected_at(ids, usize::from(id))
        };
        holds = holds && answers_under(alloc, WasmFeatures::default(), bytes, expected);
    }
    Some(holds)
}

/// Returns the answer of a field, which may be followed by what the row shows.
pub fn answer_in(field: &str) -> &str {
    match field.split_once('|') {
        Some((answer, _shown)) => answer.trim(),
        None => field,
    }
}

// Checks that new sessions answer so on a module: features, or the check to make under these; the sections of the module; and its outcome.
fn are_answers(alloc: Global, way: &str, sections: &str, expected: &str) -> Option<bool> {
    let mut bytes = module_of(alloc, sections)?;
    let (word, features) = word_and_rest(way);
    match word {
        "each" => asks_for(alloc, &bytes, expected),
        "cuts" => Some(is_cut_at(alloc, features_of(features)?, &bytes, expected)),
        "ids" => has_ids(alloc, &mut bytes, expected),
        _ => Some(answers_under(alloc, features_of(way)?, &bytes, answer_in(expected))),
    }
}

// Checks that a row holds.
fn holds(alloc: Global, row: &str) -> Option<bool> {
    let (way, sections, expected) = three_fields(row)?;
    let (word, features) = word_and_rest(way);
    match word {
        "line" => on_new_session(alloc, features_of(features)?, row, has_line),
        "explained" => on_new_session(alloc, features_of(features)?, row, has_explanation),
        "exports" => on_new_session(alloc, features_of(features)?, row, has_exports),
        "groups" => on_new_session(alloc, features_of(features)?, row, has_groups),
        "report" => on_new_session(alloc, features_of(features)?, row, has_report),
        _ => are_answers(alloc, way, sections, expected),
    }
}

#[test]
fn new_sessions_give_these_answers(rt: HostRuntime) -> Result<(), Fail> {
    for (table, count) in [
        (custom_sections::ROWS, custom_sections::COUNT),
        (cuts::ROWS, cuts::COUNT),
        (data_segments::ROWS, data_segments::COUNT),
        (elements::ROWS, elements::COUNT),
        (exports::ROWS, exports::COUNT),
        (function_limits::ROWS, function_limits::COUNT),
        (functions::ROWS, functions::COUNT),
        (globals::ROWS, globals::COUNT),
        (lines::ROWS, lines::COUNT),
        (many_groups::ROWS, many_groups::COUNT),
        (other_limits::ROWS, other_limits::COUNT),
        (other_sections::ROWS, other_sections::COUNT),
        (reports::ROWS, reports::COUNT),
        (tables::ROWS, tables::COUNT),
        (types::ROWS, types::COUNT),
        (value_types::ROWS, value_types::COUNT),
    ] {
        check_rows(rt.alloc(), table, count, holds)?;
    }
    Ok(())
}
