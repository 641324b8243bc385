//! Which lists can be asked for.

ghost use Rattle.std.specs.Prelude.{◌≡◌, ◌↔◌, ◌==◌, ◌+◌, ◌<◌, ◌≤◌, IsTrue, MatchOption, length, map};
ghost use Rattle.std.specs.List.{list_all};
ghost use Rattle.wasm_core_types.specs.CoreTypes.{abstract_heap_type, val_type, heap_type, storage_type, field_type};
ghost use Rattle.wasm_core_types.specs.SubTypes.{composite_type, sub_type};
ghost use Rattle.wasm_smith_config.specs.Defaults.{least_counts};
ghost use Rattle.wasm_smith_module.specs.Generating.{has_shape};
ghost use Rattle.wasm_smith_witness.specs.Family.{AreMemberGroups, IsAskable, is_offered_heap, is_target, is_enabled, is_member_storage, is_member_field, is_member_function, is_member_composite, is_member_type, is_lone_function, is_member_group};
ghost use Rattle.wasm_smith_witness.specs.Groups.{group_of};
ghost use Rattle.wasm_spec.specs.Types as spec;

use crate::functions::is_function;
use wasm_core_types::types::{
    AbstractHeapType, CompositeType, FieldType, FuncType, HeapType, StorageType, StructType,
    SubType, ValType,
};
use wasm_smith_config::config::Config;
use wasm_smith_types::bounds::{MAX_FIELDS, MAX_PARAMS, max_results};

// Checks that references to it are offered.
fn is_offered_heap(config: &Config, heap: AbstractHeapType) -> bool
    ensures { result ≡ is_offered_heap config.now (abstract_heap_type heap) }
{
    match heap {
        AbstractHeapType::Func | AbstractHeapType::Extern => true,
        AbstractHeapType::Exn => config.exceptions_enabled,
        AbstractHeapType::NoExn => config.gc_enabled && config.exceptions_enabled,
        AbstractHeapType::Cont | AbstractHeapType::NoCont => config.stack_switching_enabled,
        _ => config.gc_enabled,
    }
}

// Checks that references may go there, where there are `bound` types to refer to.
fn is_target(config: &Config, bound: usize, heap: HeapType) -> bool
    ensures { result ≡ is_target config.now bound (heap_type heap) }
{
    match heap {
        HeapType::Abstract(heap) => is_offered_heap(config, heap),
        HeapType::Concrete(index) => config.gc_enabled && (index as usize) < bound,
    }
}

fn is_enabled(config: &Config, bound: usize, type_: ValType) -> bool
    ensures { result ≡ is_enabled config.now bound (val_type type_) }
{
    match type_ {
        ValType::I32 | ValType::I64 => true,
        ValType::F32 | ValType::F64 => config.allow_floats,
        ValType::V128 => config.simd_enabled,
        ValType::Ref(reference) => {
            reference.nullable
                && config.reference_types_enabled
                && is_target(config, bound, reference.heap_type)
        }
    }
}

fn are_enabled(config: &Config, bound: usize, types: &[ValType]) -> bool
    ensures { result ≡ list_all (is_enabled config.now bound) (map val_type types.now) }
{
    types.iter().all(|type_| is_enabled(config, bound, *type_))
}

fn is_member_storage(config: &Config, bound: usize, storage: StorageType) -> bool
    ensures { result ≡ is_member_storage config.now bound (storage_type storage) }
{
    match storage {
        StorageType::I8 | StorageType::I16 => true,
        StorageType::Val(type_) => is_enabled(config, bound, type_),
    }
}

fn is_member_field(config: &Config, bound: usize, field: FieldType) -> bool
    ensures { result ≡ is_member_field config.now bound (field_type field) }
{
    is_member_storage(config, bound, field.element_type)
}

fn are_member_fields(config: &Config, bound: usize, fields: &[FieldType]) -> bool
    ensures { result ≡ list_all (is_member_field config.now bound) (map field_type fields.now) }
{
    fields
        .iter()
        .all(|field| is_member_field(config, bound, *field))
}

// Checks that the parameters and results are few, and of enabled types.
fn is_member_function(config: &Config, bound: usize, type_: &FuncType) -> bool
    ensures { result ≡ is_member_function config.now bound type_.now }
{
    type_.params().len() <= MAX_PARAMS
        && type_.results().len() <= max_results(config)
        && are_enabled(config, bound, type_.params())
        && are_enabled(config, bound, type_.results())
}

// Checks that the fields are few, and packed or of enabled types.
fn is_member_structure(config: &Config, bound: usize, type_: &StructType) -> bool
    ensures { result ≡ is_member_composite config.now bound (spec.StructComposite type_.now) }
{
    type_.fields().len() <= MAX_FIELDS && are_member_fields(config, bound, type_.fields())
}

fn is_member_composite(config: &Config, bound: usize, type_: &CompositeType) -> bool
    ensures { result ≡ is_member_composite config.now bound (composite_type type_.now) }
{
    match type_ {
        CompositeType::Func(type_) => is_member_function(config, bound, type_),
        CompositeType::Struct(type_) => is_member_structure(config, bound, type_),
        CompositeType::Array(type_) => is_member_field(config, bound, type_.0),
        CompositeType::Cont(_) => false,
    }
}

fn is_member_type(config: &Config, bound: usize, type_: &SubType) -> bool
    ensures { result ≡ is_member_type config.now bound (sub_type type_.now) }
{
    type_.supertype_idx.is_none() && is_member_composite(config, bound, &type_.composite_type)
}

fn are_member_types(config: &Config, bound: usize, types: &[SubType]) -> bool
    ensures { result ≡ list_all (is_member_type config.now bound) (map sub_type types.now) }
{
    types
        .iter()
        .all(|type_| is_member_type(config, bound, type_))
}

// Checks that these are one final function type.
fn is_lone_function(group: &[SubType]) -> bool
    ensures { result ≡ is_lone_function (map sub_type group.now) }
{
    match group {
        [type_] => type_.is_final && is_function(&type_.composite_type),
        _ => false,
    }
}

// Checks that these are some types, which refer to types before `end`, and without garbage collection one final function type.
fn is_member_group(config: &Config, end: usize, group: &[SubType]) -> bool
    ensures { result ≡ is_member_group config.now end (map sub_type group.now) }
{
    !group.is_empty()
        && are_member_types(config, end, group)
        && (config.gc_enabled || is_lone_function(group))
}

// Returns the number of types with the next group, if that fits.
fn next_count(config: &Config, count: usize, group: &[SubType]) -> Option<usize>
    requires { count ≤ config.now.max_types }
    ensures { MatchOption result
        (IsTrue (is_member_group config.now (count + length group.now) (map sub_type group.now)) → config.now.max_types < count + length group.now)
        (λ next. (next ≡ count + length group.now) × (next ≤ config.now.max_types)
        × IsTrue (is_member_group config.now next (map sub_type group.now))) }
{
    if group.len() > config.max_types as usize - count {
        return None;
    }
    let end = count + group.len();
    if is_member_group(config, end, group) {
        Some(end)
    } else {
        None
    }
}

/// Checks that these groups can be asked for.
pub fn are_member_groups(config: &Config, groups: &[Vec<SubType>]) -> bool
    ensures { IsTrue result ↔ AreMemberGroups config.now (map group_of groups.now) }
{
    let mut count = 0;
    for group in groups {
        match next_count(config, count, group) {
            Some(next) => count = next,
            None => return false,
        }
    }
    true
}

// Checks that no minimum is above 0.
fn owes_nothing(config: &Config) -> bool
    ensures { result ≡ list_all (λ minimum. minimum == 0) (least_counts config.now) }
{
    let minimums = [
        config.min_types,
        config.min_imports,
        config.min_tags,
        config.min_funcs,
        config.min_globals,
        config.min_exports,
        config.min_element_segments,
        config.min_elements,
        config.min_data_segments,
        config.min_tables,
        config.min_memories,
    ];
    minimums.iter().all(|minimum| *minimum == 0)
}

// Checks that the configuration has a shape.
fn has_shape(config: &Config) -> bool
    ensures { result ≡ has_shape config.now }
{
    config.module_shape.is_some() || config.available_imports.is_some() || config.exports.is_some()
}

/// Checks that lists can be asked for with this configuration.
pub fn is_askable(config: &Config) -> bool
    ensures { IsTrue result ↔ IsAskable config.now }
{
    match config.check() {
        Ok(()) => !has_shape(config) && !config.export_everything && owes_nothing(config),
        Err(_) => false,
    }
}
