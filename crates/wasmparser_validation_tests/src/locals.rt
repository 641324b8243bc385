//! Locals of bodies.

use std::alloc::Global;
use std::test::Fail;
use wasm_test_rows::fields::{four_fields, word_and_rest};
use wasm_test_rows::rows::check_rows;
use wasmparser_bodies::locals::{Local, Locals, LocalsError};
use wasmparser_types::ref_type::RefType;
use wasmparser_types::val_type::ValType;

fn type_of(letter: char) -> ValType {
    match letter {
        'i' => ValType::I32,
        'l' => ValType::I64,
        'f' => ValType::FUNCREF,
        _ => ValType::Ref(RefType::FUNC),
    }
}

// Returns the letter of a local's type, a capital where it has no value at the start, and `-` where there is no local.
fn letter_of(local: Option<&Local>) -> char {
    let Some(local) = local else {
        return '-';
    };
    let letter = match local.value_type {
        ValType::I32 => 'i',
        ValType::I64 => 'l',
        ValType::Ref(it) if it.is_nullable() => 'f',
        _ => 'g',
    };
    if local.is_set {
        letter
    } else {
        letter.to_ascii_uppercase()
    }
}

// Parameters; runs, each of a count and a letter; how many locals there are, `limit` where there would be too many; and what stands at some indexes.
const LOCALS: &str = "
     | | 0 | 0- 4294967295-
    i | | 1 | 0i 1-
    ilfg | | 4 | 0i 1l 2f 3g 4-
     | 1i | 1 | 0i 1-
     | 1g | 1 | 0G 1-
     | 1f | 1 | 0f
    gg | 2g 1l | 5 | 0g 1g 2G 3G 4l 5-
     | 0i 0g | 0 | 0-
    i | 0g 2l 0i | 3 | 0i 1l 2l 3-
     | 64l | 64 | 0l 63l 64-
     | 64l 1g | 65 | 63l 64G 65-
     | 65l | 65 | 0l 63l 64l 65-
     | 63l 2g 3i | 68 | 62l 63G 64G 65i 67i 68-
    iiiiiiiiiiiiiiiiiiiiiiiiiiiiiiiiiiiiiiiiiiiiiiiiiiiiiiiiiiiiiiil | 1g | 65 | 62i 63l 64G 65-
    iiiiiiiiiiiiiiiiiiiiiiiiiiiiiiiiiiiiiiiiiiiiiiiiiiiiiiiiiiiiiiillf | 1g | 67 | 62i 63l 64l 65f 66G 67-
    iiiiiiiiiiiiiiiiiiiiiiiiiiiiiiiiiiiiiiiiiiiiiiiiiiiiiiiiiiiiiiillfg | 2i 0l 1g | 70 | 63l 64l 65f 66g 67i 68i 69G 70- 4294967295-
    ig | 50000l | limit | 0i 1g 2-
    ig | 49998l | 50000 | 0i 1g 2l 64l 49999l 50000-
    ig | 49998l 0g | 50000 | 49999l 50000-
    ig | 49998l 1g | limit | 0i 49999l 50000-
     | 4294967295i | limit | 0-
    i | 4294967295i | limit | 0i 1-
     | 10i 20l 30f 40g 0i 1000i 1l 10000g | 11101 | 0i 9i 10l 29l 30f 59f 60G 63G 64G 99G 100i 1099i 1100l 1101G 11100G 11101- 4294967295-
     | 100i 1l 1f 1g 1i 1l 1f 1g 50i | 157 | 99i 100l 101f 102G 103i 104l 105f 106G 107i 156i 157-
";

// Adds a run, whose last letter is its type.
fn define(locals: &mut Locals, run: &str) -> Option<Result<(), LocalsError>> {
    let letter = run.chars().next_back()?;
    let count = run.trim_end_matches(letter).parse().ok()?;
    Some(locals.define(count, type_of(letter)))
}

// Adds runs up to one that is refused. Whether one is past the limit.
fn define_all(locals: &mut Locals, runs: &str) -> Option<bool> {
    for run in runs.split_whitespace() {
        match define(locals, run)? {
            Ok(()) => {}
            Err(LocalsError::Limit) => return Some(true),
            Err(LocalsError::Memory) => return None,
        }
    }
    Some(false)
}

fn finds(locals: &Locals, params: &[ValType], place: &str) -> Option<bool> {
    let letter = place.chars().next_back()?;
    let index = place.trim_end_matches(letter).parse().ok()?;
    let found = match locals.find(params, index) {
        Some(local) => letter_of(Some(&local)),
        None => letter_of(None),
    };
    Some(found == letter)
}

fn finds_all(locals: &Locals, params: &[ValType], places: &str) -> Option<bool> {
    for place in places.split_whitespace() {
        if !finds(locals, params, place)? {
            return Some(false);
        }
    }
    Some(true)
}

fn types_of(alloc: Global, letters: &str) -> Option<Vec<ValType>> {
    let mut types = Vec::new(alloc);
    for letter in letters.chars() {
        types.push(type_of(letter)).ok()?;
    }
    Some(types)
}

fn row_holds(alloc: Global, locals: &mut Locals, row: &str) -> Option<bool> {
    let (params, runs, count, places) = four_fields(row)?;
    let params = types_of(alloc, params)?;
    locals.reset();
    locals.define_parameters(&params).ok()?;
    let is_past = define_all(locals, runs)?;
    let is_counted = is_past || count.parse::<u32>().ok() == Some(locals.len());
    let are_found = finds_all(locals, &params, places)?;
    locals.reset();
    Some(is_past == (count == "limit") && is_counted && are_found && locals.len() == 0)
}

fn holds(alloc: Global, row: &str) -> Option<bool> {
    let mut locals = Locals::new(alloc);
    let holds = row_holds(alloc, &mut locals, row);
    drop(locals);
    holds
}

#[test]
fn locals_are_found(rt: HostRuntime) -> Result<(), Fail> {
    Ok(check_rows(rt.alloc(), LOCALS, 24, holds)?)
}
