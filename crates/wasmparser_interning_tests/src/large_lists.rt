//! Large groups, many groups, and lists that are full.

use std::alloc::Global;
use std::test::Fail;
use wasm_test_rows::fields::four_fields;
use wasm_test_rows::rows::check_rows;
use wasm_test_rows::values::{bool_of, numbers_of};
use wasmparser_error::error::ErrorKind;
use wasmparser_interning_rows::checked_list::CheckedList;
use wasmparser_interning_rows::new_list::on_new_list;
use wasmparser_interning_rows::steps::steps_hold;
use wasmparser_types::composite_type::{CompositeType, StructType};
use wasmparser_types::index::{CoreTypeId, PackedIndex};
use wasmparser_types::ref_type::RefType;
use wasmparser_types::sub_type::{RecGroup, SubType};
use wasmparser_types::val_type::{FieldType, StorageType, ValType};

// Steps on a new list, whether equal types are to be one, the sizes of groups that are interned then, and steps after that. A list holds 1,048,576 types.
const SIZES: &str = "
    | yes | 100000 | types = 100000; groups = 1; index 0 own.99999 = #99999; type #0 = struct #0?; type #99999 = struct
    | no | 100000 | types = 100000; groups = 1; ids 0 = #0 #100000
    | yes | 1*100000 | types = 100000; groups = 100000; type #99999 = struct #99998?; group struct #99997? = known #99998
    | no | 1*100000 | types = 100000; groups = 100000; group_of #99999 = 99999; group struct #99997? = new #100000

    // one short of full, and full: known types need room too, and a group of none finds it
    func -> = #0; single struct = new #1 | yes | 4096*255 4093 | group struct i8, struct = total; func -> = #0; types = 1048575; \
    func i32 -> = #1048575; func -> = total; func i64 -> = total; lone struct = total; single struct = total; types = 1048576; groups = 259; group = new
    func -> = #0 | no | 4096*255 4094 | apart struct, struct = total; apart struct = new #1048575; apart struct = total; single func -> = total; \
    group_of #1048575 = 257; types = 1048576; groups = 258; type #1044481 = struct #1044480?; type #1048574 = struct; apart = new
";

fn structure(alloc: Global, fields: Vec<FieldType>) -> SubType {
    SubType {
        is_final: true,
        supertype_idxs: Vec::new(alloc),
        composite_type: CompositeType::Struct(StructType { fields }),
    }
}

// Returns a structure of one field, which is null or refers to this type.
fn reference(alloc: Global, index: PackedIndex) -> Option<SubType> {
    let field = FieldType {
        element_type: StorageType::Val(ValType::Ref(RefType::concrete(true, index))),
        mutable: false,
    };
    Some(structure(alloc, vec![in alloc; field].ok()?))
}

// Creates so many structures. The first refers to the last of the types before them, or to itself where there is none, and the others have no field.
fn structures(alloc: Global, before: usize, count: u32) -> Option<RecGroup> {
    let index = match before.checked_sub(1) {
        Some(last) => PackedIndex::from_id(CoreTypeId::from_index(u32::try_from(last).ok()?))?,
        None => PackedIndex::from_rec_group_index(0)?,
    };
    let mut types = vec![in alloc; reference(alloc, index)?].ok()?;
    for _ in 1..count {
        types.push(structure(alloc, Vec::new(alloc))).ok()?;
    }
    Some(RecGroup::explicit(types))
}

// Checks that groups of these sizes are all new.
fn are_new(
    alloc: Global,
    list: &mut CheckedList,
    is_canonical: bool,
    sizes: &[u32],
) -> Option<bool> {
    for count in sizes {
        let group = structures(alloc, list.len(), *count)?;
        match list.intern(is_canonical, group, 0)? {
            Ok((true, _)) => {}
            _ => return Some(false),
        }
    }
    Some(true)
}

fn fills(alloc: Global, list: &mut CheckedList, is_canonical: &str, sizes: &str) -> Option<bool> {
    let sizes = numbers_of(alloc, sizes)?;
    are_new(alloc, list, bool_of(is_canonical)?, &sizes)
}

fn grows(alloc: Global, list: &mut CheckedList, row: &str) -> Option<bool> {
    let (before, is_canonical, sizes, after) = four_fields(row)?;
    let is_begun = steps_hold(alloc, list, before);
    let is_filled = fills(alloc, list, is_canonical, sizes)?;
    Some(is_begun && is_filled && steps_hold(alloc, list, after))
}

fn holds(alloc: Global, row: &str) -> Option<bool> {
    on_new_list(alloc, row, grows)
}

#[test]
fn groups_fill_a_list(rt: HostRuntime) -> Result<(), Fail> {
    Ok(check_rows(rt.alloc(), SIZES, 6, holds)?)
}

// Checks that a group of so many types is refused at the offset, and the list stays as it was.
fn refuses(alloc: Global, list: &mut CheckedList, count: u32) -> Option<bool> {
    let before = (list.len(), list.group_count());
    let group = structures(alloc, 0, count)?;
    let is_total = match list.intern(true, group, 5)? {
        Err(error) => error.offset == 5 && error.kind == ErrorKind::Total,
        Ok(_) => false,
    };
    Some(is_total && (list.len(), list.group_count()) == before)
}

// Checks that so many types more are refused after so many.
fn is_too_large(alloc: Global, before: u32, count: u32) -> bool {
    let mut list = CheckedList::new(alloc);
    let is_begun = are_new(alloc, &mut list, true, &[before]);
    let is_refused = refuses(alloc, &mut list, count);
    is_begun == Some(true) && is_refused == Some(true)
}

#[test]
fn groups_can_be_too_large(rt: HostRuntime) {
    for (before, count) in [(1, 1_048_576), (4, 1_048_573)] {
        assert!(rt; is_too_large(rt.alloc(), before, count), "{before}");
    }
}
