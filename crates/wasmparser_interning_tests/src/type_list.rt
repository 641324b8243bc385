//! Lists of types: which types get one id, and what is asked of them.

use std::alloc::Global;
use std::test::Fail;
use wasm_test_rows::fields::three_fields;
use wasm_test_rows::rows::check_rows;
use wasmparser_interning_rows::checked_list::CheckedList;
use wasmparser_interning_rows::new_list::{copy_stays, on_new_list};
use wasmparser_interning_rows::steps::steps_hold;

// Steps on a new list.
const LISTS: &str = "
    // equal types are one, whichever call interns them
    func i32 -> f64 = #0; func -> = #1; func i32 -> f64 = #0; types = 2; groups = 2
    func i32 -> = #0; func i32 -> = #0; lone func i32 -> = #0; single func i32 -> = known #0; group func i32 -> = known #0; types = 1
    single func -> i32 = new #0; func -> i32 = #0; lone func -> i32 = #0; lone open : func -> i32 = #1; func i32 -> = #2
    single struct = new #0; group struct, array i8 = new #1 #2; types = 3; group struct = known #0; lone array i8 = #3

    // groups that refer to themselves, with canonicalisation and without
    group struct own.1?, struct own.0? = new #0 #1; group struct own.1?, struct own.0? = known #0 #1; types = 2
    apart struct own.1?, struct own.0? = new #0 #1; apart struct own.1?, struct own.0? = new #2 #3; groups = 2
    group struct own.1?, struct own.0? = new #0 #1; apart struct own.1?, struct own.0? = new #2 #3; group struct own.1?, struct own.0? = known #0 #1
    apart struct own.0 = new #0; group struct own.0 = new #1; group struct own.0 = known #1; lone struct own.0 = #1; lone struct #0 = #2
    group struct own.1?, struct own.0? = new #0 #1; group struct own.1?, struct own.1? = new #2 #3; group struct own.1, struct own.0? = new #4 #5
    group = new; group = known; groups = 1; types = 0; apart = new; groups = 2; ids 1 = #0 #0; ids 2 = none

    // places become ids
    func -> = #0; group struct own.1 mut:#0?, func own.0 -> #0 = new #1 #2; type #1 = struct #2 mut:#0?; type #2 = func #1 -> #0; type #3 = none
    lone open : struct = #0; lone #0 : struct = #1; type #1 = #0 : struct; type #0 = open : struct; type #2 = none
    group open : func -> own.0, cont own.0, array mut:own.2? = new #0 #1 #2; type #0 = open : func -> #0; type #1 = cont #0; type #2 = array mut:#2?

    // supertypes
    lone open : struct = #0; lone #0 : struct = #1; supertype #1 = #0; supertype #0 = none; supertype #2 = none
    group open : struct, open own.0 : struct i8, own.1 : struct i8 i16 = new #0 #1 #2; supertype #2 = #1; supertype #1 = #0; supertype #0 = none

    // groups of ids, and places in groups
    func -> = #0; group func -> i32, func -> = new #1 #2; group_of #0 = 0; group_of #1 = 1; group_of #2 = 1; group_of #3 = none
    func -> = #0; group func -> i32, func -> = new #1 #2; ids 0 = #0 #1; ids 1 = #1 #3; ids 2 = none
    func -> = #0; group func -> i32, func -> = new #1 #2; index 1 own.0 = #1; index 1 own.1 = #2; index 1 own.2 = invalid; index 0 own.1 = invalid
    func -> = #0; group func -> i32, func -> = new #1 #2; index 1 #0 = #0; index 0 #2 = #2; index 0 #9 = #9

    // what a group may not refer to
    group struct own.1 = beyond; lone struct #0 = beyond; func #0 -> = beyond; func own.0 -> own.0 = #0; func -> own.1 = beyond; types = 1
    func -> = #0; group struct own.2, struct = beyond; group struct #1, struct = beyond; single #1 : struct = beyond; groups = 1; types = 1
";

fn steps(alloc: Global, list: &mut CheckedList, row: &str) -> Option<bool> {
    Some(steps_hold(alloc, list, row))
}

fn list_holds(alloc: Global, row: &str) -> Option<bool> {
    on_new_list(alloc, row, steps)
}

#[test]
fn steps_answer(rt: HostRuntime) -> Result<(), Fail> {
    Ok(check_rows(rt.alloc(), LISTS, 21, list_holds)?)
}

// Steps on a new list, those after a copy was kept, and those on the copy.
const COPIES: &str = "
    func -> = #0 | func i32 -> = #1; types = 2; func -> = #0 | types = 1; type #0 = func ->; type #1 = none; groups = 1; func -> = beyond
    types = 0 | func -> = #0 | types = 0; groups = 0; type #0 = none; group_of #0 = none; group = beyond
    lone open : struct = #0; lone #0 : struct = #1 | lone array i8 = #2 | supertype #1 = #0; supertype #2 = none; group_of #1 = 1; group_of #2 = none; ids 1 = #1 #2
    group struct, array i8 = new #0 #1 | apart struct, array i8 = new #2 #3 | index 0 own.1 = #1; index 0 own.2 = invalid; ids 1 = none
";

fn copies(alloc: Global, list: &mut CheckedList, row: &str) -> Option<bool> {
    let (before, after, of_copy) = three_fields(row)?;
    let is_made = steps_hold(alloc, list, before);
    Some(is_made && copy_stays(alloc, list, after, of_copy))
}

fn copy_holds(alloc: Global, row: &str) -> Option<bool> {
    on_new_list(alloc, row, copies)
}

#[test]
fn copies_stay_as_they_were(rt: HostRuntime) -> Result<(), Fail> {
    Ok(check_rows(rt.alloc(), COPIES, 4, copy_holds)?)
}
