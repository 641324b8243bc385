//! Steps on a list of types, in words: a call, `=`, and what it answers. Steps stand with `;` between them.
//!
//! `func`, `lone`, `single`, `group` and `apart` intern a function type, a sub type, a sub type as a group, sub types as a group, and these without
//! canonicalisation. They answer an id; of a group `new` or `known`, and its ids. A call that isn't allowed is `beyond`. The other words ask.

use crate::checked_list::CheckedList;
use std::alloc::Global;
use std::ops::Range;
use wasm_test_rows::fields::word_and_rest;
use wasm_test_rows::values::number_of;
use wasmparser_error::error::{Error, ErrorKind};
use wasmparser_type_words::types::{func_type_of, group_of, id_of, index_of, sub_type_of};
use wasmparser_types::index::{CoreTypeId, RecGroupId};
use wasmparser_types::sub_type::SubType;

// The place in the bytes that each call is handed.
const OFFSET: u64 = 7;

/// The answer of interning.
#[derive(Clone, Copy)]
pub enum Answer {
    Beyond,
    Total,
    Memory,
    // A refusal that there is none of.
    Other,
    Id(CoreTypeId),
    Group(bool, RecGroupId),
}

fn refusal(error: Error) -> Answer {
    match error.kind {
        ErrorKind::Total if error.offset == OFFSET => Answer::Total,
        ErrorKind::Memory if error.offset == OFFSET => Answer::Memory,
        _ => Answer::Other,
    }
}

fn id_answer(answer: Option<Result<CoreTypeId, Error>>) -> Answer {
    match answer {
        Some(Ok(id)) => Answer::Id(id),
        Some(Err(error)) => refusal(error),
        None => Answer::Beyond,
    }
}

fn group_answer(answer: Option<Result<(bool, RecGroupId), Error>>) -> Answer {
    match answer {
        Some(Ok((is_new, group))) => Answer::Group(is_new, group),
        Some(Err(error)) => refusal(error),
        None => Answer::Beyond,
    }
}

/// Interns what a call says.
pub fn interned(alloc: Global, list: &mut CheckedList, call: &str) -> Option<Answer> {
    let (word, types) = word_and_rest(call);
    match word {
        "func" => Some(id_answer(list.intern_func_type(func_type_of(alloc, types)?, OFFSET))),
        "lone" => Some(id_answer(list.intern_sub_type(sub_type_of(alloc, types)?, OFFSET))),
        _ => {
            let group = group_of(alloc, word, types)?;
            Some(group_answer(list.intern(word != "apart", group, OFFSET)))
        }
    }
}

// Checks that this id or this refusal was answered.
fn is_id(answer: Result<CoreTypeId, Error>, expected: &str) -> bool {
    match answer {
        Ok(id) => id_of(expected) == Some(id),
        Err(error) => error.offset == OFFSET && error.kind.name() == expected,
    }
}

// Checks that a group has these ids, and no place after them.
fn has_ids(list: &CheckedList, group: RecGroupId, ids: &str) -> Option<bool> {
    let mut place: u32 = 0;
    for word in ids.split_whitespace() {
        if !is_id(list.rec_group_local_id(group, place, OFFSET)?, word) {
            return Some(false);
        }
        if list.rec_group_id_of(id_of(word)?) != Some(group) {
            return Some(false);
        }
        place = place.saturating_add(1);
    }
    Some(is_id(list.rec_group_local_id(group, place, OFFSET)?, "invalid"))
}

/// Checks that interning answered so.
pub fn is_answer(list: &CheckedList, answer: Answer, expected: &str) -> Option<bool> {
    match answer {
        Answer::Beyond => Some(expected == "beyond"),
        Answer::Total => Some(expected == "total"),
        Answer::Memory | Answer::Other => Some(false),
        Answer::Id(id) => Some(id_of(expected) == Some(id)),
        Answer::Group(is_new, group) => {
            let (word, ids) = word_and_rest(expected);
            Some((word == "new") == is_new && has_ids(list, group, ids)?)
        }
    }
}

// Checks that there are as many.
fn is_count(count: usize, expected: &str) -> bool {
    number_of(expected) == Some(count as u64)
}

// Checks that this is the type, or `none`.
fn is_type(alloc: Global, found: Option<&SubType>, expected: &str) -> bool {
    match found {
        Some(it) => sub_type_of(alloc, expected).is_some_and(|expected| *it == expected),
        None => expected == "none",
    }
}

// Checks that the type of an id is this one, or `none`.
fn has_type(alloc: Global, list: &CheckedList, word: &str, expected: &str) -> Option<bool> {
    let id = id_of(word)?;
    Some(is_type(alloc, list.get(id), expected) && is_type(alloc, list.at(id), expected))
}

// Checks that the ids begin and end there, or are `none`.
fn is_range(found: Option<&Range<CoreTypeId>>, expected: &str) -> bool {
    match found {
        Some(range) => {
            let (start, end) = word_and_rest(expected);
            id_of(start) == Some(range.start) && id_of(end) == Some(range.end)
        }
        None => expected == "none",
    }
}

fn group_id_of(word: &str) -> Option<RecGroupId> {
    Some(RecGroupId::from_index(word.parse().ok()?))
}

// Checks that the ids of a group begin and end there, or are `none`.
fn has_range(list: &CheckedList, word: &str, expected: &str) -> Option<bool> {
    let group = group_id_of(word)?;
    Some(is_range(list.get(group), expected) && is_range(list.at(group), expected))
}

// Checks that the supertype of an id is this one, or `none`.
fn has_supertype(list: &CheckedList, word: &str, expected: &str) -> Option<bool> {
    match list.supertype_of(id_of(word)?) {
        Some(id) => Some(id_of(expected)? == id),
        None => Some(expected == "none"),
    }
}

// Checks that the group of an id is this one, or `none`.
fn is_of_group(list: &CheckedList, word: &str, expected: &str) -> Option<bool> {
    match list.rec_group_id_of(id_of(word)?) {
        Some(group) => Some(group_id_of(expected)? == group),
        None => Some(expected == "none"),
    }
}

// Checks that an index in a group stands for this id, packed and unpacked.
fn stands_for(list: &CheckedList, field: &str, expected: &str) -> Option<bool> {
    let (group, word) = word_and_rest(field);
    let (group, index) = (group_id_of(group)?, index_of(word)?);
    let packed = list.at_canonicalized_packed_index(group, index, OFFSET)?;
    let unpacked = list.at_canonicalized_unpacked_index(group, index.unpack(), OFFSET)?;
    Some(is_id(packed, expected) && is_id(unpacked, expected))
}

// Checks that a question has this answer.
fn is_so(alloc: Global, list: &CheckedList, question: &str, expected: &str) -> Option<bool> {
    let (word, rest) = word_and_rest(question);
    match word {
        "types" => Some(is_count(list.len(), expected)),
        "groups" => Some(is_count(list.group_count(), expected)),
        "type" => has_type(alloc, list, rest, expected),
        "ids" => has_range(list, rest, expected),
        "supertype" => has_supertype(list, rest, expected),
        "group_of" => is_of_group(list, rest, expected),
        "index" => stands_for(list, rest, expected),
        _ => None,
    }
}

// Checks that a step's call answers as it says.
fn step_holds(alloc: Global, list: &mut CheckedList, step: &str) -> Option<bool> {
    let (call, expected) = step.split_once('=')?;
    let expected = expected.trim();
    if let Some(is_so) = is_so(alloc, list, call, expected) {
        return Some(is_so);
    }
    let answer = interned(alloc, list, call)?;
    is_answer(list, answer, expected)
}

/// Checks that each step holds.
pub fn steps_hold(alloc: Global, list: &mut CheckedList, steps: &str) -> bool {
    for step in steps.split_terminator(';') {
        if step_holds(alloc, list, step) != Some(true) {
            return false;
        }
    }
    true
}
