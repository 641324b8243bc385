//! Lists of types.

use std::alloc::Global;
use std::test::Fail;
use wasm_test_rows::fields::three_fields;
use wasm_test_rows::rows::check_rows;
use wasmparser_interning_rows::checked_list::CheckedList;
use wasmparser_interning_rows::new_list::on_new_list;
use wasmparser_interning_rows::steps::{Answer, interned, is_answer, steps_hold};

// The steps that intern some types, the questions about them, and the step that interns one group more.
const LISTS: &str = "
    | types = 0; groups = 0 | group struct own.1?, struct own.0? = new #0 #1
    func -> = #0; lone open : struct = #1 | types = 2; type #0 = func ->; type #1 = open : struct | group #1 : struct own.1?, struct own.0? #0? = new #2 #3
    func -> = #0; lone open : struct = #1 | supertype #1 = none; ids 1 = #1 #2; ids 2 = none | apart #1 : struct own.1?, struct own.0? #0? = new #2 #3
    func -> = #0; group struct own.1?, struct own.0? = new #1 #2 | types = 3; groups = 2 | group struct own.1?, struct own.0? = known #1 #2
    func i32 -> = #0 | types = 1; groups = 1 | func i32 -> = #0
    func -> = #0; func i32 -> = #1; func i64 -> = #2; func f32 -> = #3 | types = 4; group_of #3 = 3; type #4 = none | func f64 -> = #4
    func -> = #0; func i32 -> = #1; func i64 -> = #2; func f32 -> = #3 | types = 4; group_of #3 = 3; type #4 = none | lone array mut:#3 = #4
    lone open : struct = #0; lone open #0 : struct = #1 | supertype #1 = #0; type #1 = open #0 : struct | single #1 : struct i8 = new #2
";

// Checks that the questions are answered so. Where memory runs out on their words, it doesn't a second time.
fn are_so(alloc: Global, list: &mut CheckedList, questions: &str) -> bool {
    steps_hold(alloc, list, questions) || steps_hold(alloc, list, questions)
}

// Returns the answer of a call, likewise.
fn answer(alloc: Global, list: &mut CheckedList, call: &str) -> Option<Answer> {
    match interned(alloc, list, call) {
        Some(answer) => Some(answer),
        None => interned(alloc, list, call),
    }
}

// Checks that a call answers so, at the second time where it is refused. Of a list that refused, the questions are answered as before.
fn takes(alloc: Global, list: &mut CheckedList, questions: &str, step: &str) -> Option<bool> {
    let (call, expected) = step.split_once('=')?;
    let (types, groups) = (list.len(), list.group_count());
    match answer(alloc, list, call)? {
        Answer::Memory => {
            let is_kept = list.len() == types && list.group_count() == groups;
            let is_same = is_kept && are_so(alloc, list, questions);
            let again = interned(alloc, list, call)?;
            Some(is_same && is_answer(list, again, expected.trim())?)
        }
        first => is_answer(list, first, expected.trim()),
    }
}

fn takes_all(alloc: Global, list: &mut CheckedList, steps: &str) -> bool {
    for step in steps.split_terminator(';') {
        if takes(alloc, list, "", step) != Some(true) {
            return false;
        }
    }
    true
}

// Checks that a copy is taken, of which the questions are answered so.
fn is_copied(alloc: Global, list: &mut CheckedList, questions: &str) -> Option<bool> {
    match list.commit() {
        Ok(mut copy) => Some(are_so(alloc, &mut copy, questions)),
        Err(_) => None,
    }
}

// Does the same, at the second call where the first is refused. The list's own answers stay as they were.
fn copies(alloc: Global, list: &mut CheckedList, questions: &str) -> bool {
    let is_right = match is_copied(alloc, list, questions) {
        Some(is_so) => is_so,
        None => are_so(alloc, list, questions) && is_copied(alloc, list, questions) == Some(true),
    };
    is_right && are_so(alloc, list, questions)
}

fn goes_on(alloc: Global, list: &mut CheckedList, row: &str) -> Option<bool> {
    let (steps, questions, last) = three_fields(row)?;
    let is_made = takes_all(alloc, list, steps);
    let are_copied = copies(alloc, list, questions) && copies(alloc, list, questions);
    let is_taken = takes(alloc, list, questions, last)?;
    Some(is_made && are_copied && is_taken && copies(alloc, list, ""))
}

fn holds(alloc: Global, row: &str) -> Option<bool> {
    on_new_list(alloc, row, goes_on)
}

#[test]
fn refusals_change_nothing(rt: HostRuntime) -> Result<(), Fail> {
    Ok(check_rows(rt.alloc(), LISTS, 8, holds)?)
}
