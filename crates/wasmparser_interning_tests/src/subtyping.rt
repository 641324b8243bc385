//! Subtyping of heap types, references and value types, and the tops above them.

use crate::asked_list::AskedList;
use crate::references::ref_type_of;
use std::alloc::Global;
use std::test::Fail;
use wasm_test_rows::fields::{has_word, three_fields, two_fields};
use wasm_test_rows::rows::check_rows;
use wasmparser_interning_rows::checked_list::CheckedList;
use wasmparser_interning_rows::new_list::on_new_list;
use wasmparser_interning_rows::steps::steps_hold;
use wasmparser_type_list::type_list::TypeList;
use wasmparser_type_words::types::{func_type_of, id_of};
use wasmparser_types::composite_type::FuncType;
use wasmparser_types::index::CoreTypeId;
use wasmparser_types::ref_type::RefType;
use wasmparser_types::val_type::ValType;

// Structures, the second and the third declared below the one before; functions, an array, and continuations, likewise; a structure that equals none.
const TYPES: &str = "
    lone open : struct = #0; lone open #0 : struct i8 = #1; lone #1 : struct i8 i16 = #2; lone open : func -> = #3; lone #3 : func -> = #4; \
    lone array i8 = #5; lone open : cont #3 = #6; lone #6 : cont #4 = #7; lone struct i8 = #8
";

// The heap types that are asked about: all abstract ones, all of these types, an id that none of them has, and a place in a group.
const HEAP_TYPES: &str = "
    any eq i31 struct array none func nofunc extern noextern exn noexn cont nocont #0 #1 #2 #3 #4 #5 #6 #7 #8 #9 own.0
";

// A heap type, and all that are above it.
const ABOVE: &str = "
    any | any
    eq | eq any
    i31 | i31 eq any
    struct | struct eq any
    array | array eq any
    none | none i31 struct array eq any #0 #1 #2 #5 #8
    func | func
    nofunc | nofunc func #3 #4
    extern | extern
    noextern | noextern extern
    exn | exn
    noexn | noexn exn
    cont | cont
    nocont | nocont cont #6 #7
    #0 | #0 struct eq any
    #1 | #1 #0 struct eq any
    #2 | #2 #1 #0 struct eq any
    #3 | #3 func
    #4 | #4 #3 func
    #5 | #5 array eq any
    #6 | #6 cont
    #7 | #7 #6 cont
    #8 | #8 struct eq any
    #9 | #9
    own.0 | own.0
";

// Checks that subtyping of these references is so, asked in both ways.
fn is_ref(asked: &AskedList, a: RefType, b: RefType, is_below: bool) -> bool {
    asked.reftype_is_subtype(a, b) == is_below
        && asked.valtype_is_subtype(ValType::Ref(a), ValType::Ref(b)) == is_below
}

// Checks that references to one heap type are below those to another. With null they are below none without.
fn are_refs(asked: &AskedList, a: &str, b: &str, is_below: bool) -> Option<bool> {
    let (from, to) = (ref_type_of(false, a)?, ref_type_of(false, b)?);
    let (null_from, null_to) = (from.nullable(), to.nullable());
    Some(
        is_ref(asked, from, to, is_below)
            && is_ref(asked, from, null_to, is_below)
            && is_ref(asked, null_from, null_to, is_below)
            && is_ref(asked, null_from, to, false),
    )
}

// Checks that subtyping of ids is so. The counted call answers the same by two reads at most, of types that have a depth.
fn is_id(asked: &AskedList, a: CoreTypeId, b: CoreTypeId, is_below: bool) -> bool {
    let is_counted = match asked.counted(a, b) {
        Some((answer, reads)) => answer == is_below && reads <= 2,
        None => asked.depth(a).is_none() || asked.depth(b).is_none(),
    };
    asked.id_is_subtype(a, b) == is_below && is_counted
}

// Does the same, where both words are ids.
fn are_ids(asked: &AskedList, a: &str, b: &str, is_below: bool) -> bool {
    match (id_of(a), id_of(b)) {
        (Some(a), Some(b)) => is_id(asked, a, b, is_below),
        _ => true,
    }
}

// Checks that a heap type is below another one, by all ways to ask.
fn is_below(asked: &AskedList, a: &str, b: &str, is_below: bool) -> bool {
    are_refs(asked, a, b, is_below) == Some(true) && are_ids(asked, a, b, is_below)
}

// Checks that a heap type is below those named, and below no other of the words.
fn is_below_these(asked: &AskedList, it: &str, above: &str) -> bool {
    for other in HEAP_TYPES.split_whitespace() {
        if !is_below(asked, it, other, has_word(above, other)) {
            return false;
        }
    }
    true
}

fn row_is_so(alloc: Global, list: &mut CheckedList, row: &str) -> Option<bool> {
    let (it, above) = two_fields(row)?;
    let is_made = steps_hold(alloc, list, TYPES);
    match AskedList::new(list.list()) {
        Some(asked) => Some(is_made && is_below_these(&asked, it, above)),
        None => None,
    }
}

fn above_holds(alloc: Global, row: &str) -> Option<bool> {
    on_new_list(alloc, row, row_is_so)
}

// Each pair of 25, of which 14 * 14 = 196 are pairs of abstract types.
#[test]
fn heap_types_are_below_what_is_named(rt: HostRuntime) -> Result<(), Fail> {
    assert!(rt; HEAP_TYPES.split_whitespace().count() == 25);
    Ok(check_rows(rt.alloc(), ABOVE, 25, above_holds)?)
}

// A heap type, and the greatest one above it, in a list of these types.
const TOPS: &str = "
    any | any
    eq | any
    i31 | any
    struct | any
    array | any
    none | any
    func | func
    nofunc | func
    extern | extern
    noextern | extern
    exn | exn
    noexn | exn
    cont | cont
    nocont | cont
    #0 | any
    #2 | any
    #4 | func
    #5 | any
    #7 | cont
    #9 | #9
    own.0 | own.0
";

fn has_top(list: &TypeList, it: RefType, top: RefType) -> bool {
    list.top_type(&it.heap_type()) == top.heap_type()
}

fn top_is(alloc: Global, list: &mut CheckedList, row: &str) -> Option<bool> {
    let (it, top) = two_fields(row)?;
    let is_made = steps_hold(alloc, list, TYPES);
    let (it, top) = (ref_type_of(true, it)?, ref_type_of(true, top)?);
    Some(is_made && has_top(list.list(), it, top))
}

fn top_holds(alloc: Global, row: &str) -> Option<bool> {
    on_new_list(alloc, row, top_is)
}

#[test]
fn tops_are_above_all(rt: HostRuntime) -> Result<(), Fail> {
    Ok(check_rows(rt.alloc(), TOPS, 21, top_holds)?)
}

// Steps on a new list, value types of which each of the first is below each of the second, and some of which none of the first is below one of the second.
const VALUES: &str = "
    // numbers and vectors, and references to what is no defined type
    types = 0 | i32 -> i32 | i32 -> i64 f32 f64 v128 funcref func
    types = 0 | i64 -> i64 | i64 -> i32 f32 f64 v128 funcref func
    types = 0 | f32 -> f32 | f32 -> i32 i64 f64 v128 funcref func
    types = 0 | f64 -> f64 | f64 -> i32 i64 f32 v128 funcref func
    types = 0 | v128 -> v128 | v128 -> i32 i64 f32 f64 funcref func
    types = 0 | func -> func funcref | func -> i32 i64 f32 f64 v128 externref exnref contref
    types = 0 | funcref -> funcref | funcref -> func i32 i64 f32 f64 v128 externref exnref contref

    // null
    lone struct = #0 | #0 -> #0 #0? | #0? -> #0
    lone struct = #0 | #0? -> #0? | #0 #0? -> funcref externref i32
    func -> = #0 | #0 -> funcref func | #0? -> func
    func -> = #0 | #0 #0? -> funcref | func funcref -> #0 #0?

    // declared links lead upward, in however many steps, and to nothing that only looks the same
    lone open : struct = #0; lone open #0 : struct = #1; lone #1 : struct = #2 | #2 #1 -> #1 #0 #0? | #0 -> #1 #2
    lone open : struct = #0; lone #0 : struct i8 = #1; lone #0 : struct i16 = #2 | #1 #2 -> #0 | #1 -> #2
    lone open : struct = #0; lone struct i8 = #1; lone #0 : struct i8 = #2 | #2 -> #0 | #1 -> #0 #2

    // two equal groups are one type where they are canonical, and else two
    group open : struct own.0? = new #0; lone #0 : struct #0? = #1; group open : struct own.0? = known #0; lone #0 : struct #0? = #1 | #1 -> #0 | #0 -> #1
    apart open : struct = new #0; apart open : struct = new #1; lone #0 : struct = #2; lone #1 : struct = #3 | #2 -> #0 | #2 #0 -> #1 #3
    group open : struct own.1?, own.0 : struct own.1? = new #0 #1; group open : struct own.1?, own.0 : struct own.1? = known #0 #1 | #1 -> #0 | #0 -> #1
";

// Checks that each parameter is below each result, or none is below any.
fn are_below(asked: &AskedList, it: &FuncType, is_below: bool) -> bool {
    for a in it.params() {
        for b in it.results() {
            if asked.valtype_is_subtype(*a, *b) != is_below {
                return false;
            }
        }
    }
    true
}

// Checks that each parameter of a function type in words is below each result, or none is below any.
fn func_is_so(alloc: Global, asked: &AskedList, field: &str, is_below: bool) -> bool {
    match func_type_of(alloc, field) {
        Some(it) => are_below(asked, &it, is_below),
        None => false,
    }
}

fn values_are(alloc: Global, list: &mut CheckedList, row: &str) -> Option<bool> {
    let (steps, below, others) = three_fields(row)?;
    let is_made = steps_hold(alloc, list, steps);
    match AskedList::new(list.list()) {
        Some(asked) => {
            let are_below = func_is_so(alloc, &asked, below, true);
            Some(is_made && are_below && func_is_so(alloc, &asked, others, false))
        }
        None => None,
    }
}

fn values_hold(alloc: Global, row: &str) -> Option<bool> {
    on_new_list(alloc, row, values_are)
}

#[test]
fn value_types_are_below_what_they_should_be(rt: HostRuntime) -> Result<(), Fail> {
    Ok(check_rows(rt.alloc(), VALUES, 17, values_hold)?)
}
