//! Rules on types that a list knows (Core Specification 3.0, Validation, Types, "Recursive Types").

ghost use Rattle.std.specs.Prelude.{◌≡◌, ◌↔◌, ◌<◌, IfErr, IfOk, IfSome, IsTrue, None, Some, length, map, slice_get};
ghost use Rattle.wasm_core_types.specs.Limits.{limit};
ghost use Rattle.wasm_spec.specs.Groups.{ContinuesFunc, ExtendsSupertypes};
ghost use Rattle.wasmparser_type_relations.specs.Chains.{AreBelowEarlier};
ghost use Rattle.wasmparser_type_list.specs.TypeTables.{TablesAgree, sub_types, type_by_id};
ghost use Rattle.wasmparser_rec_groups.specs.ItemLimits.{HaveFewItems, HaveManyItems};
ghost use Rattle.wasmparser_rec_groups.specs.Rules.{IdExtends, IsOpen, IsRefused, IsRefusedGroup, IsWithinDepth, KeepsRules, KeepsRulesAndDepth};
ghost use Rattle.wasmparser_types.specs.CompositeTypes.{composite_type};
ghost use Rattle.wasmparser_types.specs.SubTypes.{sub_type};

use wasm_core_types::limits::Limit;
use wasmparser_error::error::ErrorKind;
use wasmparser_type_list::type_list::TypeList;
use wasmparser_type_relations::known_types::KnownTypes;
use wasmparser_type_relations::limits::passed_limit;
use wasmparser_types::composite_type::CompositeType;
use wasmparser_types::index::{CoreTypeId, PackedIndex, RecGroupId};
use wasmparser_types::sub_type::SubType;

// Checks that a continuation type goes on with a function type.
fn continues_func(types: &TypeList, it: &CompositeType) -> bool
    ensures { IsTrue result ↔ ContinuesFunc (type_by_id types.now) (composite_type it.now) }
{
    match it {
        CompositeType::Cont(it) => match types.composite_type(it.0.unpack()) {
            Some(CompositeType::Func(_)) => true,
            _ => false,
        },
        _ => true,
    }
}

// Checks that types may be declared below what an id stands for.
fn is_open(types: &TypeList, id: CoreTypeId) -> bool
    ensures { IsTrue result ↔ IsOpen types.now id }
{
    match types.get(id) {
        Some(it) => !it.is_final,
        None => false,
    }
}

// Checks that what an id stands for may be declared below what an index stands for.
fn extends(types: &TypeList, id: CoreTypeId, supertype: PackedIndex) -> bool
    requires agree { TablesAgree types.now }
    requires earlier { AreBelowEarlier (slice_get (sub_types types.now)) }
    ensures { IsTrue result ↔ IdExtends types.now id supertype }
{
    match supertype.as_core_type_id() {
        Some(supertype) => is_open(types, supertype) && types.matches(id, supertype),
        None => false,
    }
}

// Checks that a type has at most one supertype, and may be declared below it.
fn extends_supertypes(types: &TypeList, id: CoreTypeId, it: &SubType) -> bool
    requires agree { TablesAgree types.now }
    requires earlier { AreBelowEarlier (slice_get (sub_types types.now)) }
    requires is { slice_get (sub_types types.now) id ≡ Some (sub_type it.now) }
    ensures { IsTrue result ↔ ExtendsSupertypes (type_by_id types.now) (sub_type it.now) }
{
    match it.supertype_idxs.as_slice() {
        [] => true,
        [supertype] => extends(types, id, *supertype),
        _ => false,
    }
}

// Checks that a type keeps the rules on supertypes and on continuations.
fn keeps_rules(types: &TypeList, id: CoreTypeId, it: &SubType) -> bool
    requires agree { TablesAgree types.now }
    requires earlier { AreBelowEarlier (slice_get (sub_types types.now)) }
    requires is { slice_get (sub_types types.now) id ≡ Some (sub_type it.now) }
    ensures { IsTrue result ↔ KeepsRules types.now id }
{
    if !extends_supertypes(types, id, it) {
        return false;
    }
    continues_func(types, &it.composite_type)
}

// Returns a limit on parameters, results or fields that one of these types passes.
pub(crate) fn passed_by_items(types: &[SubType]) -> Option<Limit>
    ensures passed { IfSome result (λ l. HaveManyItems (map sub_type types.now) (limit l)) }
    ensures none { result ≡ None → HaveFewItems (map sub_type types.now) }
{
    for it in types {
        if let Some(limit) = passed_limit(&it.composite_type) {
            return Some(limit);
        }
    }
    None
}

// Checks that a known type is within the limit on depth.
fn check_depth(types: &TypeList, id: CoreTypeId) -> Result<(), ErrorKind>
    requires agree { TablesAgree types.now }
    requires earlier { AreBelowEarlier (slice_get (sub_types types.now)) }
    requires known { id < length types.now.types }
    ensures within { IfOk result (λ _. IsWithinDepth types.now id) }
    ensures refused { IfErr result (IsRefused types.now id) }
{
    if !types.is_within_depth(id) {
        return Err(ErrorKind::Limit(Limit::Depth));
    }
    Ok(())
}

// Checks that a known type keeps the rules on supertypes and continuations.
fn check_rules(types: &TypeList, id: CoreTypeId) -> Result<(), ErrorKind>
    requires agree { TablesAgree types.now }
    requires earlier { AreBelowEarlier (slice_get (sub_types types.now)) }
    requires known { id < length types.now.types }
    ensures kept { IfOk result (λ _. KeepsRules types.now id) }
    ensures refused { IfErr result (IsRefused types.now id) }
{
    if !keeps_rules(types, id, &types[id]) {
        return Err(ErrorKind::Invalid);
    }
    Ok(())
}

// Checks that all types of a known group keep the rules on supertypes and on continuations, and are within the limit on depth. How many parameters, results and fields
// they have was checked before the group was interned.
pub(crate) fn check_rec_group(types: &TypeList, group: RecGroupId) -> Result<(), ErrorKind>
    requires agree { TablesAgree types.now }
    requires earlier { AreBelowEarlier (slice_get (sub_types types.now)) }
    requires known { group < length types.now.groups }
    ensures kept { IfOk result (λ _. KeepsRulesAndDepth types.now group) }
    ensures refused { IfErr result (IsRefusedGroup types.now group) }
{
    let elements = &types[group];
    // Subtyping walks from a type with more supertypes than the limit on depth allows, so none may be left where types are matched.
    for index in elements.start.index()..elements.end.index() {
        check_depth(types, CoreTypeId::from_index(index as u32))?;
    }
    for index in elements.start.index()..elements.end.index() {
        check_rules(types, CoreTypeId::from_index(index as u32))?;
    }
    Ok(())
}
