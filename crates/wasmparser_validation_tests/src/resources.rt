//! Resources that a state and a copy of it give to bodies.

use std::alloc::Global;
use std::test::Fail;
use wasm_core_types::features::WasmFeatures;
use wasm_test_rows::fields::{three_fields, word_and_rest};
use wasm_test_rows::rows::check_rows;
use wasm_test_rows::values::number_of;
use wasmparser_bodies::module_resources::WasmModuleResources;
use wasmparser_module_state::module_state::ModuleState;
use wasmparser_types::index::{CoreTypeId, PackedIndex};
use wasmparser_types::ref_type::RefType;
use wasmparser_types::val_type::ValType;
use wasmparser_validation_rows::judged::{JudgedState, are_accepted, on_new_state};

// Types: a function type, a structure, one below it, and the function type again, which has the same id.
const TYPES: &str = "types 04 60 00 00 50 00 5f 00 50 01 01 5f 00 60 00 00";

// Sections after these types, which are accepted; a question; and its answer, if there is one. A type that is told has an id.
const QUESTIONS: &str = "
    functions 01 00 | function 0 | 0
    functions 02 00 03 | function 1 | 0
    functions 01 00 | function 1 | none
    imports 0000; functions 01 03 | function 1 | 0
    imports 0000; functions 01 00 | exact 0 | 0
    imports 0000; functions 01 00 | exact 1 | 1
    imports 0000; functions 01 00 | exact 2 | 0
    functions 01 00; exports 01 01 61 00 00 | referenced 0 | 1
    functions 01 00 | referenced 0 | 0
    tables 01 63 02 00 01 | table 0 | 2
    tables 01 63 03 00 01 | table 0 | 0
    tables 01 70 00 01 | table 0 | none
    tables 01 70 00 01 | table 1 | none
    globals 01 63 02 00 d0020b | global 0 | 2
    imports 03 63 01 00; globals 01 63 03 00 d0030b | global 0 | 1
    imports 03 63 01 00; globals 01 63 03 00 d0030b | global 1 | 0
    globals 01 7f 00 41000b | global 0 | none
    elements 01 05 63 03 00 | element 0 | 0
    elements 01 05 63 03 00 | element 1 | none
    elements 01 05 63 03 00 | elements | 1
    | elements | 0
    tags 01 00 03 | tag 0 | 0
    tags 01 00 03 | tag 1 | none
    data_count 7 | data | 7
    | data | none
    | below 2 1 | 1
    | below 1 2 | 0
    | below 0 1 | 0
";

const COUNT_OF_QUESTIONS: usize = 28;

fn index_of(field: &str) -> u32 {
    match number_of(field) {
        None => 0,
        Some(number) => u32::try_from(number).unwrap_or(0),
    }
}

fn id_in(ty: RefType) -> Option<u64> {
    Some(ty.type_index()?.as_core_type_id()?.index() as u64)
}

fn id_of_table<R: WasmModuleResources>(known: &R, at: u32) -> Option<u64> {
    match known.table_at(at) {
        None => None,
        Some(table) => id_in(table.element_type),
    }
}

fn id_of_global<R: WasmModuleResources>(known: &R, at: u32) -> Option<u64> {
    match known.global_at(at) {
        None => None,
        Some(global) => id_in(global.content_type.as_reference_type()?),
    }
}

fn id_of_function<R: WasmModuleResources>(known: &R, at: u32) -> Option<u64> {
    Some(known.type_id_of_function(at)?.index() as u64)
}

fn reference_to(id: u32) -> Option<RefType> {
    let index = PackedIndex::from_id(CoreTypeId::from_index(id))?;
    Some(RefType::concrete(false, index))
}

// Returns 1 if one id is below another, and else 0.
fn is_below<R: WasmModuleResources>(known: &R, ids: &str) -> Option<u64> {
    let (lower, upper) = word_and_rest(ids);
    let lower = reference_to(index_of(lower))?;
    let upper = reference_to(index_of(upper))?;
    let is_below = known.is_subtype(ValType::Ref(lower), ValType::Ref(upper));
    Some(u64::from(is_below))
}

// Returns the answer about an index.
fn told_at<R: WasmModuleResources>(known: &R, word: &str, at: u32) -> Option<u64> {
    match word {
        "function" => id_of_function(known, at),
        "table" => id_of_table(known, at),
        "global" => id_of_global(known, at),
        "element" => id_in(known.element_type_at(at)?),
        "tag" => Some(known.tag_at(at)?.params().len() as u64),
        "exact" => Some(u64::from(known.has_function_exact_type(at))),
        "referenced" => Some(u64::from(known.is_function_referenced(at))),
        _ => None,
    }
}

fn told<R: WasmModuleResources>(known: &R, question: &str) -> Option<u64> {
    let (word, rest) = word_and_rest(question);
    match word {
        "elements" => Some(u64::from(known.element_count())),
        "data" => Some(u64::from(known.data_count()?)),
        "below" => is_below(known, rest),
        _ => told_at(known, word, index_of(rest)),
    }
}

// Returns a question, and what it is answered.
fn is_told(known: &ModuleState, row: &str) -> Option<bool> {
    let (_, question, answer) = three_fields(row)?;
    Some(told(known, question) == number_of(answer))
}

fn tell(alloc: Global, state: &mut JudgedState, row: &str) -> Option<bool> {
    let (sections, _, _) = three_fields(row)?;
    let accepted = are_accepted(alloc, state, TYPES)? && are_accepted(alloc, state, sections)?;
    let told = is_told(state.known(), row)?;
    let told_by_a_copy = state.on_copy(row, is_told)?;
    Some(accepted && told && told_by_a_copy)
}

fn holds(alloc: Global, row: &str) -> Option<bool> {
    on_new_state(alloc, WasmFeatures::default(), row, tell)
}

#[test]
fn bodies_are_told_of_a_module(rt: HostRuntime) -> Result<(), Fail> {
    Ok(check_rows(rt.alloc(), QUESTIONS, COUNT_OF_QUESTIONS, holds)?)
}
