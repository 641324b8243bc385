//! Effective sizes of types.

ghost use Rattle.std.specs.Prelude.{◌<◌, ◌^◌, IsTrue};
ghost use Rattle.wasmparser_type_list.specs.TypeSizes.{size_of};
ghost use Rattle.wasmparser_types.specs.CompositeTypes.{composite_type};

use std::alloc::Global;
use std::test::Fail;
use wasm_test_rows::fields::three_fields;
use wasm_test_rows::rows::check_rows;
use wasm_test_rows::values::number_of;
use wasmparser_interning_rows::checked_list::CheckedList;
use wasmparser_interning_rows::new_list::on_new_list;
use wasmparser_interning_rows::steps::steps_hold;
use wasmparser_type_list::type_data::TypeData;
use wasmparser_type_list::type_list::TypeList;
use wasmparser_type_words::types::id_of;
use wasmparser_types::composite_type::CompositeType;
use wasmparser_types::index::RecGroupId;

// Steps on a new list, an id or the number of a group, and how large it counts.
const SIZES: &str = "
    func -> = #0 | #0 | 2
    func i32 -> = #0 | #0 | 3
    func i32 i64 #0? -> f32 f64 = beyond; func i32 i64 -> f32 f64 v128 = #0 | #0 | 7
    lone struct = #0 | #0 | 2
    lone struct i8 = #0 | #0 | 4
    lone open : struct i8 mut:i16 own.0? = #0 | #0 | 8
    lone array mut:i64 = #0 | #0 | 3
    func i32 -> = #0; lone cont #0 = #1 | #1 | 2
    func -> = #0 | 0 | 1
    func -> = #0; group struct i8, struct, array i8 = new #1 #2 #3 | 1 | 3
    group = new | 0 | 0
";

// Checks that a type is so small that it can be asked how large it counts.
fn is_small(it: &CompositeType) -> bool
    ensures { IsTrue result → size_of (composite_type it.now) < 2 ^ 24 }
{
    match it {
        CompositeType::Func(it) => it.params().len() < 1_000 && it.results().len() < 1_000,
        CompositeType::Struct(it) => it.fields.len() < 1_000,
        CompositeType::Array(_) | CompositeType::Cont(_) => true,
    }
}

fn type_size(list: &TypeList, word: &str) -> Option<u32> {
    let it = list.get(id_of(word)?)?;
    if is_small(&it.composite_type) {
        Some(it.type_info(list).size())
    } else {
        None
    }
}

fn group_size(list: &TypeList, word: &str) -> Option<u32> {
    let range = list.get(RecGroupId::from_index(word.parse().ok()?))?;
    if range.end.index() < 1_000 {
        Some(range.type_info(list).size())
    } else {
        None
    }
}

fn has_size(alloc: Global, list: &mut CheckedList, row: &str) -> Option<bool> {
    let (steps, word, expected) = three_fields(row)?;
    let is_made = steps_hold(alloc, list, steps);
    let size = match word.starts_with("#") {
        true => type_size(list.list(), word)?,
        false => group_size(list.list(), word)?,
    };
    Some(is_made && Some(u64::from(size)) == number_of(expected))
}

fn holds(alloc: Global, row: &str) -> Option<bool> {
    on_new_list(alloc, row, has_size)
}

#[test]
fn types_count_what_they_are_made_of(rt: HostRuntime) -> Result<(), Fail> {
    Ok(check_rows(rt.alloc(), SIZES, 11, holds)?)
}
