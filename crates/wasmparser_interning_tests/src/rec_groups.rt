//! Groups of type sections: which are accepted, which ids their types get, and why others are refused.

use crate::counted_groups::counted_group;
use std::alloc::Global;
use std::test::Fail;
use wasm_core_types::features::{Flags, WasmFeatures};
use wasm_test_rows::fields::{two_fields, word_and_rest};
use wasm_test_rows::rows::check_rows;
use wasm_test_rows::values::number_of;
use wasmparser_error::error::{Error, ErrorKind};
use wasmparser_interning_rows::checked_section::{CheckedSection, on_new_section};
use wasmparser_type_words::types::{are_ids, group_of};
use wasmparser_types::sub_type::RecGroup;

// The place in the bytes that each call is handed.
const OFFSET: u64 = 7;

// Features, and groups that are added one after the other under these, each with the ids that its types get or the kind of its refusal. The default features
// with others and without some. `module` begins another module, under the features that it names, and `types` tells how many types the list has. A number begins types
// that are counted (`counted_group`), which are added so many times, and `yes` tells that they are accepted.
const SECTIONS: &str = "
    // equal groups have the same ids, and a member is no lone type
    | single func -> = #0; single func i32 -> = #1; single func -> = #0; types = 2
    | group struct 1?, struct 0? = #0 #1; group struct 3?, struct 2? = #0 #1; types = 2
    | group struct 1?, struct 0? = #0 #1; group struct 2?, struct 3? = #2 #3; group struct 0?, struct 0? = #4 #5; types = 6
    | single struct = #0; group struct, array i8 = #1 #2; group struct = #0; single array i8 = #3
    | single struct 0? = #0; group struct 1? = #0; single struct 0? = #1; types = 2
    | group = ; group = ; single func -> = #0; types = 1
    | single func -> = #0; single struct 0 = #1; module = ; single struct = #2; single func -> = #0; single struct 1 = #1; types = 3

    // without canonicalisation each group has types of its own; then no type names another
    -gc -function_references | single func -> = #0; single func -> = #1; single func i32 -> i32 = #2; types = 3
    -gc -function_references | single func funcref -> = #0; single func 0? -> = invalid; single cont 0 = invalid; types = 1

    // modules under different features share the groups of one list, each by its own gates; without canonicalisation no group is found, nor found later
    | single func -> = #0; module -gc = ; single func -> = #0; single func 0 -> = #1; module = ; single func 1 -> = invalid; single func -> = #0; single func 0 -> = #1; types = 2
    | single func -> = #0; module -gc -function_references = ; single func -> = #1; single func -> = #2; module = ; single func -> = #0; types = 3
    -gc -function_references | single func -> = #0; module = ; single func -> = #1; single func -> = #1; types = 2
    | single struct = #0; single func -> = #1; module -gc_types = ; single struct = invalid; single func -> = #1; types = 2

    // one of three features is enough for canonicalisation
    -gc | single func -> = #0; single func -> = #0; types = 1
    stack_switching -gc -function_references | single func -> = #0; single func -> = #0; single cont 0 = #1; single cont 1 = #1; types = 2

    // references: to earlier types, and to the group's own with garbage collection
    | single struct 1? = invalid; single struct 0? = #0; single struct 0 = #1; single struct 3? = invalid; types = 2
    | group struct 2?, struct = invalid; group struct 1?, struct 0? = #0 #1; single array mut:2 = #2; single array mut:4 = invalid
    -gc | single func -> = #0; single func 0 -> 0? = #1; single func 2 -> = invalid; single func -> 2? = invalid; types = 2
    | single struct own.0 = beyond; single struct #0 = beyond; single own.0 : struct = beyond; types = 0

    // gates
    -gc | group func -> = invalid; group = invalid; single struct = invalid; single array i8 = invalid; single open : func -> = invalid; types = 0
    -gc_types | single struct = invalid; single array i8 = invalid; single func externref -> = invalid; single func -> = #0
    -multi_value | single func -> i32 i32 = invalid; single func i32 i32 -> i32 = #0; group func ->, func -> i64 i64 = invalid; types = 1
    -simd | single func v128 -> = invalid; single struct i8 v128 = invalid; single func -> = #0
    -floats | single func f32 -> = invalid; single func -> f64 = invalid; single array f64 = invalid; types = 0
    -reference_types | single func funcref -> = invalid; single struct 0? = invalid; types = 0
    | single func -> = #0; single cont 0 = invalid; types = 1

    -exceptions | single func exnref -> = invalid; single struct exnref = invalid; single func -> = #0
    -gc_types | single func exnref -> = #0; single func -> exnref externref = invalid
    | single func contref -> = invalid; single struct contref = invalid; types = 0
    stack_switching -gc_types | single func -> = #0; single cont 0 = invalid; single func contref -> = invalid
    -gc | single func eqref -> = invalid; single func -> anyref = invalid; single func funcref -> = #0
    -function_references | single func -> = #0; single func 0? -> = #1; single func func -> = invalid; single func funcref -> = #2
    | single func func -> func = #0; single func funcref -> = #1; single func -> func = #2; types = 3

    // continuations go on with functions
    stack_switching | single func -> = #0; single cont 0 = #1; single cont 1 = invalid; single struct = #3; single cont 2 = invalid
    stack_switching | single cont 0 = invalid; group func ->, cont 0 = #1 #2; group cont 3, func -> = #3 #4; group cont 1, struct = invalid
    stack_switching -gc | single func -> = #0; single cont 0 = #1; single func 1 -> = #2; single cont 4 = invalid; single cont 3 = invalid

    // supertypes: one, earlier, open, of the own kind, and matched
    | single open : struct = #0; single 0 : struct = #1; single open 0 : struct i8 = #2; single 2 : struct i8 i16 = #3; types = 4
    | single struct = #0; single 0 : struct = invalid; types = 2
    | single open : struct = #0; single 1 : struct = invalid; single 7 : struct = invalid; types = 1
    | group 1 : struct, open : struct = invalid; group open : struct, 0 : struct = #0 #1; group open : struct, open 2 : struct i8, 3 : struct i8 i8 = #2 #3 #4
    | single open : struct = #0; single open : struct = #0; single 0 1 : struct = invalid; single open 0 1 : struct = invalid; types = 1
    | single open : struct = #0; single 0 : func -> = invalid; single 0 : array i8 = invalid; single open : func -> = #1; single 1 : struct = invalid; types = 2
    | single open : struct i8 = #0; single 0 : struct = invalid; single 0 : struct i16 = invalid; single 0 : struct i8 = #3; types = 4
    | single open : array mut:anyref = #0; single 0 : array mut:eqref = invalid; single 0 : array mut:anyref = #2; types = 3
    | single open : array anyref = #0; single 0 : array eqref = #1; single 0 : array mut:anyref = invalid; types = 3
    | single open : struct mut:anyref i8 = #0; single 0 : struct mut:i31ref i8 = invalid; single 0 : struct mut:anyref i8 anyref = #2
    | single open : func eqref -> anyref = #0; single 0 : func anyref -> eqref = #1; single 0 : func i31ref -> anyref = invalid; single 0 : func eqref -> = invalid
    | single open : func i32 eqref -> = #0; single 0 : func i32 i31ref -> = invalid; single 0 : func i32 anyref -> = #2
    | single struct = #0; single 0 : struct = invalid; single 0 : struct = invalid; types = 2
    | single open : struct = #0; single open : struct 0? = #1; single 1 : struct 0 = #2; single open : struct 0 = #3; single 3 : struct 0? = invalid
    | single open : struct = #0; single open 0 : struct = #1; single 1 : struct = #2; single open : struct 0 = #3; single 3 : struct 2 = #4
    | single struct = #0; single struct = #0; single open : array mut:0 = #1; single 2 : array mut:1 = #2; types = 3
    | single struct = #0; single open : struct anyref = #1; single 1 : struct 0? = #2; single 1 : struct funcref = invalid; types = 4
    | group open : struct 0?, open 0 : struct 1?, 1 : struct 2? = #0 #1 #2; types = 3
    | group open : struct 0?, 0 : struct 2?, func -> = invalid; types = 3
    | group open : struct 0?, 0 : struct 2?, 0 : func -> = invalid; types = 0
    stack_switching | single open : func -> = #0; single 0 : func -> = #1; single open : cont 0 = #2; single 2 : cont 1 = #3; single open : cont 1 = #4; single 4 : cont 0 = invalid

    // limits on depth, parameters, results and fields
    | 64 below = yes; 1 below = Depth
    | 1 func 1000 1000 = yes; 1 struct 10000 = yes; 1 func 1001 0 = Params; 1 func 0 1001 = Results; 1 struct 10001 = Fields
";

// Returns the default features, with this one or without it.
fn changed(features: WasmFeatures, word: &str) -> Option<WasmFeatures> {
    let flag = match word.trim_start_matches('-') {
        "gc" => WasmFeatures::GC,
        "gc_types" => WasmFeatures::GC_TYPES,
        "function_references" => WasmFeatures::FUNCTION_REFERENCES,
        "reference_types" => WasmFeatures::REFERENCE_TYPES,
        "multi_value" => WasmFeatures::MULTI_VALUE,
        "simd" => WasmFeatures::SIMD,
        "floats" => WasmFeatures::FLOATS,
        "exceptions" => WasmFeatures::EXCEPTIONS,
        "stack_switching" => WasmFeatures::STACK_SWITCHING,
        _ => return None,
    };
    Some(if word.starts_with('-') {
        features.difference(flag)
    } else {
        features.union(flag)
    })
}

fn features_of(field: &str) -> Option<WasmFeatures> {
    let mut features = WasmFeatures::default();
    for word in field.split_whitespace() {
        features = changed(features, word)?;
    }
    Some(features)
}

fn is_refusal(error: Error, expected: &str) -> bool {
    let is_kind = match error.kind {
        ErrorKind::Memory => false,
        ErrorKind::Limit(limit) => limit.name() == expected,
        kind => kind.name() == expected,
    };
    is_kind && error.offset == OFFSET
}

// Checks that adding a group answers so.
fn adds(section: &mut CheckedSection, group: RecGroup, expected: &str) -> bool {
    let before = section.type_ids().len();
    match section.add(group, OFFSET) {
        None => expected == "beyond",
        Some(Ok(())) => match section.type_ids().get(before..) {
            Some(added) => expected == "yes" || are_ids(added, expected),
            None => false,
        },
        Some(Err(error)) => section.type_ids().len() == before && is_refusal(error, expected),
    }
}

// Checks that adding types that are counted answers so, each time.
fn add_counted(
    alloc: Global,
    section: &mut CheckedSection,
    times: &str,
    words: &str,
    expected: &str,
) -> Option<bool> {
    for _ in 0..times.parse::<u32>().ok()? {
        let group = counted_group(alloc, section.type_ids().len(), words)?;
        if !adds(section, group, expected) {
            return Some(false);
        }
    }
    Some(true)
}

fn step_holds(alloc: Global, section: &mut CheckedSection, step: &str) -> Option<bool> {
    let (call, expected) = step.split_once('=')?;
    let (word, types) = word_and_rest(call);
    match word {
        "types" => Some(number_of(expected.trim()) == Some(section.list_len() as u64)),
        "module" => {
            section.next_module(alloc, features_of(types)?);
            Some(true)
        }
        "single" | "group" => Some(adds(section, group_of(alloc, word, types)?, expected.trim())),
        times => add_counted(alloc, section, times, types, expected.trim()),
    }
}

fn steps_hold(alloc: Global, section: &mut CheckedSection, steps: &str) -> Option<bool> {
    for step in steps.split_terminator(';') {
        if !step_holds(alloc, section, step)? {
            return Some(false);
        }
    }
    Some(true)
}

fn section_holds(alloc: Global, row: &str) -> Option<bool> {
    let (features, steps) = two_fields(row)?;
    on_new_section(alloc, features_of(features)?, steps, steps_hold)
}

#[test]
fn groups_are_judged(rt: HostRuntime) -> Result<(), Fail> {
    Ok(check_rows(rt.alloc(), SECTIONS, 59, section_holds)?)
}
