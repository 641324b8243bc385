//! Writes one spelling of a list.

ghost use Rattle.std.specs.Prelude.{◌≡◌, ◌+◌, ◌<◌, ◌≤◌, ◌^◌, ◌&&◌, ◌++◌, [], ◌∷◌, IsTrue, length, map, nat_lt, nat_le, not, min, IfOk};
ghost use Rattle.wasm_core_types.specs.CoreTypes.{abstract_heap_type, heap_type, val_type, storage_type, field_type};
ghost use Rattle.wasm_core_types.specs.SubTypes.{composite_type, sub_type};
ghost use Rattle.wasm_smith_types.specs.Drawing.{asks_then, asked_after, no_groups};
ghost use Rattle.wasm_smith_types.specs.Offering.{common_heaps};
ghost use Rattle.wasm_smith_witness.specs.Family.{AreMemberGroups};
ghost use Rattle.wasm_smith_witness.specs.Functions.{import_is_asked, place_in, place_word, tag_is_asked};
ghost use Rattle.wasm_smith_witness.specs.Groups.{group_of};
ghost use Rattle.wasm_smith_witness.specs.Words.{bool_byte, no_word, int_word, place_after_floats, value_place, heap_place, heap_word, value_word, storage_word, field_word, each_word, list_word, function_word, composite_word, type_word, members_word, group_word, groups_word, lone_composite_word, lone_word, types_word};

use crate::asking::{asks_for_import, asks_for_tag};
use crate::functions::FunctionTypes;
use std::alloc::AllocError;
use wasm_core_types::types::{
    AbstractHeapType, CompositeType, FieldType, FuncType, HeapType, StorageType, SubType, ValType,
};
use wasm_smith_config::config::Config;
use wasm_smith_types::bounds::{MAX_FIELDS, MAX_PARAMS, max_results};
use wasm_smith_unstructured::number::width;

// The byte of a true bool: that there is one more thing, or that it is so.
const YES: u8 = 1;

// The byte of a false bool: that there are no more things, or that it isn't so.
const NO: u8 = 0;

// Writes false where it is asked.
fn push_no(out: &mut Vec<u8>, asked: bool) -> Result<(), AllocError>
    ensures { IfOk result (λ _. out.new.items ≡ out.old.items ++ no_word asked) }
{
    if asked {
        out.push(NO)?;
    }
    Ok(())
}

// Writes the number, in as many bytes as the greatest one takes.
fn push_int(out: &mut Vec<u8>, greatest: usize, number: usize) -> Result<(), AllocError>
    ensures { IfOk result (λ _. out.new.items ≡ out.old.items ++ int_word greatest number) }
{
    let bytes = (number as u64).to_be_bytes();
    out.extend_from_slice(&bytes[8 - width(greatest as u64)..])
}

// Returns the place of vectors, or else of references, among the value types that are offered.
fn place_after_floats(config: &Config) -> u8
    ensures { result ≡ place_after_floats config.now }
{
    if config.allow_floats { 4 } else { 2 }
}

// Returns the place of continuations among the heap types that are offered.
fn place_of_continuations(config: &Config) -> u8
    ensures { result ≡ length (common_heaps config.now.gc_enabled config.now.exceptions_enabled) }
{
    match (config.gc_enabled, config.exceptions_enabled) {
        (true, true) => 12,
        (true, false) => 10,
        (false, true) => 3,
        (false, false) => 2,
    }
}

// Returns the place of a heap type among those that are offered.
fn heap_place(config: &Config, heap: AbstractHeapType) -> u8
    ensures { result ≡ heap_place config.now (abstract_heap_type heap) }
{
    match heap {
        AbstractHeapType::Func => 0,
        AbstractHeapType::Extern => 1,
        AbstractHeapType::Any => 2,
        AbstractHeapType::Eq => 3,
        AbstractHeapType::I31 => 4,
        AbstractHeapType::Struct => 5,
        AbstractHeapType::Array => 6,
        AbstractHeapType::None => 7,
        AbstractHeapType::NoFunc => 8,
        AbstractHeapType::NoExtern => 9,
        AbstractHeapType::Exn => { if config.gc_enabled { 10 } else { 2 } }
        AbstractHeapType::NoExn => 11,
        AbstractHeapType::Cont => place_of_continuations(config),
        AbstractHeapType::NoCont => place_of_continuations(config) + 1,
    }
}

// Writes what a reference refers to, where there are `bound` types to refer to.
#[tactic(auto, unfolding(crate::specs::Words::heap_word))]
fn push_heap(
    out: &mut Vec<u8>,
    config: &Config,
    bound: usize,
    heap: HeapType,
) -> Result<(), AllocError>
    ensures { IfOk result (λ _. out.new.items ≡ out.old.items ++ heap_word config.now bound (heap_type heap)) }
{
    match heap {
        HeapType::Abstract(heap) => {
            push_no(out, config.gc_enabled && bound > 0)?;
            out.push(heap_place(config, heap))?;
        }
        HeapType::Concrete(index) => {
            out.push(YES)?;
            push_int(out, bound.saturating_sub(1), index as usize)?;
        }
    }
    Ok(())
}

// Returns the place of a value type, or of references, among what is offered.
fn value_place(config: &Config, type_: ValType) -> u8
    ensures { result ≡ value_place config.now (val_type type_) }
{
    match type_ {
        ValType::I32 => 0,
        ValType::I64 => 1,
        ValType::F32 => 2,
        ValType::F64 => 3,
        ValType::V128 => place_after_floats(config),
        ValType::Ref(_) => place_after_floats(config) + u8::from(config.simd_enabled),
    }
}

#[tactic(auto, unfolding(crate::specs::Words::value_word))]
fn push_value(
    out: &mut Vec<u8>,
    config: &Config,
    bound: usize,
    type_: ValType,
) -> Result<(), AllocError>
    ensures { IfOk result (λ _. out.new.items ≡ out.old.items ++ value_word config.now bound (val_type type_)) }
{
    out.push(value_place(config, type_))?;
    if let ValType::Ref(reference) = type_ {
        push_no(out, config.gc_enabled)?;
        push_heap(out, config, bound, reference.heap_type)?;
    }
    Ok(())
}

#[tactic(auto, unfolding(crate::specs::Words::storage_word))]
fn push_storage(
    out: &mut Vec<u8>,
    config: &Config,
    bound: usize,
    storage: StorageType,
) -> Result<(), AllocError>
    ensures { IfOk result (λ _. out.new.items ≡ out.old.items ++ storage_word config.now bound (storage_type storage)) }
{
    match storage {
        StorageType::Val(type_) => {
            out.push(0)?;
            push_value(out, config, bound, type_)?;
        }
        StorageType::I8 => out.push(1)?,
        StorageType::I16 => out.push(2)?,
    }
    Ok(())
}

#[tactic(auto, unfolding(crate::specs::Words::field_word))]
fn push_field(
    out: &mut Vec<u8>,
    config: &Config,
    bound: usize,
    field: FieldType,
) -> Result<(), AllocError>
    ensures { IfOk result (λ _. out.new.items ≡ out.old.items ++ field_word config.now bound (field_type field)) }
{
    push_storage(out, config, bound, field.element_type)?;
    out.push(u8::from(field.mutable))?;
    Ok(())
}

// Writes each field, and that there are no more where there might be up to 20.
fn push_fields(
    out: &mut Vec<u8>,
    config: &Config,
    bound: usize,
    fields: &[FieldType],
) -> Result<(), AllocError>
    ensures { IfOk result (λ _. out.new.items ≡ out.old.items ++ list_word (field_word config.now bound) 20 (map field_type fields.now)) }
{
    for field in fields {
        out.push(YES)?;
        push_field(out, config, bound, *field)?;
    }
    push_no(out, fields.len() < MAX_FIELDS)?;
    Ok(())
}

// Writes each value type, and that there are no more where there might be up to `max`.
fn push_values(
    out: &mut Vec<u8>,
    config: &Config,
    bound: usize,
    max: usize,
    types: &[ValType],
) -> Result<(), AllocError>
    ensures { IfOk result (λ _. out.new.items ≡ out.old.items ++ list_word (value_word config.now bound) max (map val_type types.now)) }
{
    for type_ in types {
        out.push(YES)?;
        push_value(out, config, bound, *type_)?;
    }
    push_no(out, types.len() < max)?;
    Ok(())
}

#[tactic(auto, unfolding(crate::specs::Words::function_word))]
fn push_function(
    out: &mut Vec<u8>,
    config: &Config,
    bound: usize,
    type_: &FuncType,
) -> Result<(), AllocError>
    ensures { IfOk result (λ _. out.new.items ≡ out.old.items ++ function_word config.now bound type_.now) }
{
    push_values(out, config, bound, MAX_PARAMS, type_.params())?;
    push_values(out, config, bound, max_results(config), type_.results())?;
    Ok(())
}

#[tactic(auto, unfolding(crate::specs::Words::composite_word))]
fn push_composite(
    out: &mut Vec<u8>,
    config: &Config,
    bound: usize,
    type_: &CompositeType,
) -> Result<(), AllocError>
    ensures { IfOk result (λ _. out.new.items ≡ out.old.items ++ composite_word config.now bound (composite_type type_.now)) }
{
    match type_ {
        CompositeType::Func(type_) => {
            out.push(0)?;
            push_function(out, config, bound, type_)?;
        }
        CompositeType::Struct(type_) => {
            out.push(1)?;
            push_fields(out, config, bound, type_.fields())?;
        }
        CompositeType::Array(type_) => {
            out.push(2)?;
            push_field(out, config, bound, type_.0)?;
        }
        CompositeType::Cont(_) => {}
    }
    Ok(())
}

// Writes a type; `asked` says that an earlier type is open.
#[tactic(auto, unfolding(crate::specs::Words::type_word))]
fn push_type(
    out: &mut Vec<u8>,
    config: &Config,
    bound: usize,
    asked: bool,
    type_: &SubType,
) -> Result<(), AllocError>
    ensures { IfOk result (λ _. out.new.items ≡ out.old.items ++ type_word config.now bound asked (sub_type type_.now)) }
{
    push_no(out, asked)?;
    out.push(u8::from(!type_.is_final))?;
    push_composite(out, config, bound, &type_.composite_type)?;
    Ok(())
}

// Checks that a type so far is open.
fn asks_then(asks: bool, type_: &SubType) -> bool
    ensures { result ≡ asks_then asks (sub_type type_.now) }
{
    asks || !type_.is_final
}

// Writes the types of a group, one after the other. Returns true if one so far is open.
fn push_members(
    out: &mut Vec<u8>,
    config: &Config,
    bound: usize,
    asked: bool,
    types: &[SubType],
) -> Result<bool, AllocError>
    ensures written { IfOk result (λ _. out.new.items ≡ out.old.items ++ members_word config.now bound asked (map sub_type types.now)) }
    ensures asks { IfOk result (λ asks. asks ≡ asked_after asked (map sub_type types.now)) }
{
    let mut asks = asked;
    for type_ in types {
        push_type(out, config, bound, asks, type_)?;
        asks = asks_then(asks, type_);
    }
    Ok(asks)
}

// The state that decides on the draws of the next group: the number of types so far, the size of the smallest group (the
// greatest number where there is none), and true if a type is open.
#[derive(Clone, Copy)]
struct Front {
    count: usize,
    smallest: usize,
    asked: bool,
}

// Writes a group, of at most `left` types, that ends before type `end`. Returns the state after it.
#[tactic(auto, unfolding(crate::specs::Words::group_word))]
fn push_group(
    out: &mut Vec<u8>,
    config: &Config,
    left: usize,
    end: usize,
    front: Front,
    group: &[SubType],
) -> Result<Front, AllocError>
    ensures written { IfOk result (λ _. out.new.items ≡ out.old.items
        ++ group_word config.now left end (nat_le front.smallest left) front.asked (map sub_type group.now)) }
    ensures front { IfOk result (λ next. (next.count ≡ end) × (next.smallest ≡ min front.smallest (length group.now))
        × (next.asked ≡ asked_after front.asked (map sub_type group.now))) }
{
    push_no(out, front.smallest <= left)?;
    push_int(out, left.saturating_sub(1), group.len().saturating_sub(1))?;
    let asked = push_members(out, config, end, front.asked, group)?;
    Ok(Front {
        count: end,
        smallest: front.smallest.min(group.len()),
        asked,
    })
}

// Writes the groups, with garbage collection.
fn push_groups(
    out: &mut Vec<u8>,
    config: &Config,
    groups: &[Vec<SubType>],
) -> Result<(), AllocError>
    requires member { AreMemberGroups config.now (map group_of groups.now) }
    ensures { IfOk result (λ _. out.new.items ≡ out.old.items ++ groups_word config.now config.now.max_types no_groups (map group_of groups.now)) }
{
    let max = config.max_types as usize;
    let mut front = Front {
        count: 0,
        smallest: usize::MAX,
        asked: false,
    };
    for group in groups {
        let left = max - front.count;
        let end = front.count + group.len();
        out.push(YES)?;
        front = push_group(out, config, left, end, front, group)?;
    }
    push_no(out, front.count < max)?;
    Ok(())
}

// Writes the parameters and results, which are all that is drawn of a type without garbage collection.
#[tactic(auto, unfolding(crate::specs::Words::lone_composite_word))]
fn push_lone_composite(
    out: &mut Vec<u8>,
    config: &Config,
    type_: &CompositeType,
) -> Result<(), AllocError>
    ensures { IfOk result (λ _. out.new.items ≡ out.old.items ++ lone_composite_word config.now (composite_type type_.now)) }
{
    match type_ {
        CompositeType::Func(type_) => push_function(out, config, 0, type_),
        CompositeType::Array(_) | CompositeType::Struct(_) | CompositeType::Cont(_) => Ok(()),
    }
}

// Writes a group without garbage collection.
fn push_lone(out: &mut Vec<u8>, config: &Config, group: &[SubType]) -> Result<(), AllocError>
    ensures { IfOk result (λ _. out.new.items ≡ out.old.items ++ lone_word config.now (map sub_type group.now)) }
{
    for type_ in group {
        push_lone_composite(out, config, &type_.composite_type)?;
    }
    Ok(())
}

// Writes the groups, without garbage collection.
fn push_lone_groups(
    out: &mut Vec<u8>,
    config: &Config,
    groups: &[Vec<SubType>],
) -> Result<(), AllocError>
    ensures { IfOk result (λ _. out.new.items ≡ out.old.items ++ list_word (lone_word config.now) config.now.max_types (map group_of groups.now)) }
{
    for group in groups {
        out.push(YES)?;
        push_lone(out, config, group)?;
    }
    push_no(out, groups.len() < config.max_types as usize)?;
    Ok(())
}

/// Writes a spelling of groups of the family.
///
/// # Errors
/// Where memory runs out. Some of the spelling may be written by then.
#[tactic(auto, unfolding(crate::specs::Words::types_word))]
pub fn push_types(
    out: &mut Vec<u8>,
    config: &Config,
    groups: &[Vec<SubType>],
) -> Result<(), AllocError>
    requires member { AreMemberGroups config.now (map group_of groups.now) }
    ensures { IfOk result (λ _. out.new.items ≡ out.old.items ++ types_word config.now (map group_of groups.now)) }
{
    if config.gc_enabled {
        push_groups(out, config, groups)
    } else {
        push_lone_groups(out, config, groups)
    }
}

/// Writes that there are no imports and no tags, where this is asked.
///
/// # Errors
/// Where memory runs out. Some of the spelling may be written by then.
pub fn push_no_imports_or_tags(
    out: &mut Vec<u8>,
    config: &Config,
    types: &FunctionTypes,
) -> Result<(), AllocError>
    ensures { IfOk result (λ _. out.new.items ≡ out.old.items ++ (no_word (import_is_asked config.now types.now) ++ no_word (tag_is_asked config.now types.now))) }
{
    push_no(out, asks_for_import(config, types))?;
    push_no(out, asks_for_tag(config, types))?;
    Ok(())
}

// Writes a place among the function types, if there is one.
fn push_place(
    out: &mut Vec<u8>,
    types: &FunctionTypes,
    place: Option<usize>,
) -> Result<(), AllocError>
    ensures { IfOk result (λ _. out.new.items ≡ out.old.items ++ place_word types.now place) }
{
    match place {
        Some(place) => push_int(out, types.count().saturating_sub(1), place),
        None => Ok(()),
    }
}

/// Writes a spelling of functions, of these function types.
///
/// # Errors
/// Where memory runs out. Some of the spelling may be written by then.
pub fn push_functions(
    out: &mut Vec<u8>,
    types: &FunctionTypes,
    funcs: &[u32],
) -> Result<(), AllocError>
    ensures { IfOk result (λ _. out.new.items ≡ out.old.items ++ each_word (λ index. place_word types.now (place_in types.now index)) funcs.now) }
{
    for index in funcs {
        out.push(YES)?;
        push_place(out, types, types.place(*index))?;
    }
    Ok(())
}
