//! Matching of types in a list of types.

use crate::asked_list::AskedList;
use std::alloc::Global;
use std::test::Fail;
use wasm_test_rows::fields::three_fields;
use wasm_test_rows::rows::check_rows;
use wasmparser_interning_rows::checked_list::CheckedList;
use wasmparser_interning_rows::new_list::on_new_list;
use wasmparser_interning_rows::steps::steps_hold;
use wasmparser_type_words::types::id_of;

// The steps at the front of each row's list: a structure, and one that is declared below it.
const STRUCTURES: &str = "lone open : struct = #0; lone #0 : struct i32 = #1";

// Steps on that list, pairs of which the first type matches the second, and pairs of which it doesn't.
const MATCHES: &str = "
    // functions take what the other one takes, and give what it may give
    func #0 -> = #2; func #1 -> = #3 | #2<#3 #2<#2 #3<#3 | #3<#2
    func -> #1 = #2; func -> #0 = #3 | #2<#3 #2<#2 #3<#3 | #3<#2
    func i32 #0 -> = #2; func i32 #1 -> = #3; func i64 #1 -> = #4 | #2<#3 | #3<#2 #2<#4
    func -> i32 #1 = #2; func -> i32 #0 = #3; func -> i64 #0 = #4 | #2<#3 | #3<#2 #2<#4
    func #0 -> #1 = #2; func #1 -> #0 = #3; func #0 -> #0 = #4; func #1 -> #1 = #5 | #2<#3 #2<#4 #2<#5 #4<#3 #5<#3 | #3<#2 #4<#2 #5<#2 #4<#5 #5<#4
    func i32 -> = #2; func -> = #3; func i32 i32 -> = #4 | #2<#2 #3<#3 | #2<#3 #3<#2 #2<#4 #4<#2
    func -> i32 = #2; func -> = #3; func -> i32 i32 = #4 | #2<#2 #3<#3 | #2<#3 #3<#2 #2<#4 #4<#2
    func #0? -> = #2; func #0 -> = #3; func -> #0? = #4; func -> #0 = #5 | #2<#3 #5<#4 | #3<#2 #4<#5
    func v128 i32 -> v128 = #2; func i32 v128 -> v128 = #3; func v128 i32 -> i32 = #4 | #2<#2 | #2<#3 #3<#2 #2<#4 #4<#2

    // structures in width
    lone struct i8 i16 = #2; lone struct i8 = #3; lone struct = #4 | #2<#3 #3<#4 #2<#4 #4<#0 #1<#0 #2<#2 | #3<#2 #4<#3 #0<#1
    lone struct i8 i16 = #2; lone struct i16 = #3; lone struct i16 i8 = #4 | #4<#3 | #2<#3 #2<#4 #4<#2
    lone struct mut:i32 i8 = #2; lone struct mut:i32 = #3 | #2<#3 | #3<#2

    // and in depth
    lone struct #1 = #2; lone struct #0 = #3; lone struct #0? = #4 | #2<#3 #3<#4 #2<#4 | #3<#2 #4<#3
    lone struct i32 #1 i8 = #2; lone struct i32 #0 = #3 | #2<#3 | #3<#2
    lone struct #1 #0 = #2; lone struct #0 #1 = #3 | #2<#2 | #2<#3 #3<#2

    // fields that can be set go both ways, and match no other ones
    lone struct mut:#1 = #2; lone struct mut:#0 = #3 | #2<#2 #3<#3 | #2<#3 #3<#2
    lone struct i32 mut:#1 = #2; lone struct i32 mut:#0 = #3 | #2<#2 | #2<#3 #3<#2
    lone struct mut:#1 = #2; lone struct #1 = #3; lone struct #0 = #4 | #3<#4 | #2<#3 #3<#2 #2<#4 #4<#2
    lone struct i8 mut:i32 = #2; lone struct i8 i32 = #3; lone struct i8 = #4 | #2<#4 #3<#4 | #2<#3 #3<#2

    // packed types
    lone struct i8 = #2; lone struct i16 = #3; lone struct i32 = #4 | #2<#2 #3<#3 #4<#4 #4<#1 | #2<#3 #3<#2 #2<#4 #4<#2 #3<#4 #4<#3
    lone struct mut:i8 = #2; lone struct mut:i16 = #3; lone struct i8 = #4 | #2<#2 #3<#3 | #2<#3 #3<#2 #2<#4 #4<#2

    // arrays
    lone array #1 = #2; lone array #0 = #3 | #2<#3 #2<#2 | #3<#2
    lone array mut:#1 = #2; lone array mut:#0 = #3 | #2<#2 #3<#3 | #2<#3 #3<#2
    lone array mut:#1 = #2; lone array #1 = #3 | #3<#3 | #2<#3 #3<#2
    lone array i8 = #2; lone array i16 = #3; lone array i32 = #4 | #2<#2 #3<#3 | #2<#3 #3<#2 #2<#4 #4<#2 #3<#4 #4<#3

    // continuations by their types, of which only declared links tell
    lone open : func -> = #2; lone #2 : func -> = #3; lone cont #3 = #4; lone cont #2 = #5 | #4<#5 #4<#4 | #5<#4
    func #0 -> = #2; func #1 -> = #3; lone cont #2 = #4; lone cont #3 = #5 | #2<#3 #4<#4 | #4<#5 #5<#4
    lone open : func -> = #2; lone #2 : func -> = #3; lone open : cont #2 = #4; lone #4 : cont #3 = #5; lone cont #5 = #6; lone cont #4 = #7 | #6<#7 | #7<#6

    // no kind matches another
    lone struct i8 = #2; lone array i8 = #3; func -> = #4; lone cont #4 = #5 | | #2<#3 #2<#4 #2<#5 #3<#2 #3<#4 #3<#5 #4<#2 #4<#3 #4<#5 #5<#2 #5<#3 #5<#4

    // types of groups, by their ids
    group open : struct own.0? = new #2; group #2 : struct own.0? = new #3; group struct own.0? = new #4 | #3<#2 | #2<#3 #4<#2 #2<#4
    group func own.1 ->, struct = new #2 #3; group func own.1 ->, struct = known #2 #3; apart func own.1 ->, struct = new #4 #5 | #2<#2 #3<#5 #5<#3 | #2<#4 #4<#2

    // finality and declared links aren't asked, and unknown ids match nothing
    lone struct i32 = #2; lone open : struct i32 = #3 | #1<#2 #2<#1 #2<#3 #3<#2 | #0<#3
    types = 2 | #0<#0 | #2<#2 #2<#0 #0<#2
";

// Checks that the first type of a pair matches the second.
fn matches(asked: &AskedList, pair: &str) -> Option<bool> {
    let (a, b) = pair.split_once('<')?;
    Some(asked.matches(id_of(a)?, id_of(b)?))
}

// Checks that each pair matches, or none does.
fn are_so(asked: &AskedList, pairs: &str, expected: bool) -> bool {
    for pair in pairs.split_whitespace() {
        if matches(asked, pair) != Some(expected) {
            return false;
        }
    }
    true
}

fn row_is_so(alloc: Global, list: &mut CheckedList, row: &str) -> Option<bool> {
    let (steps, pairs, others) = three_fields(row)?;
    let is_made = steps_hold(alloc, list, STRUCTURES) && steps_hold(alloc, list, steps);
    match AskedList::new(list.list()) {
        Some(asked) => {
            Some(is_made && are_so(&asked, pairs, true) && are_so(&asked, others, false))
        }
        None => None,
    }
}

fn holds(alloc: Global, row: &str) -> Option<bool> {
    on_new_list(alloc, row, row_is_so)
}

#[test]
fn types_match(rt: HostRuntime) -> Result<(), Fail> {
    Ok(check_rows(rt.alloc(), MATCHES, 33, holds)?)
}
