//! The rules on recursive groups (Core Specification 3.0, Validation, Types, "Recursive Types"), a type being its index.

ghost use Rattle.std.specs.List.{AllByRecursion, list_all};
ghost use Rattle.std.specs.Option.{option_to_list};
ghost use Rattle.std.specs.Prelude.{◌≡◌, ◌↔◌, ◌≤◌, ◌<◌, ◌^◌, ℕ, IsTrue, Some, drop, if◌then◌else◌, length, map, slice_get, take, true};
ghost use Rattle.wasm_core_types.specs.Features.{feature_set};
ghost use Rattle.wasm_core_types.specs.SubTypes.{composite_type, sub_type};
ghost use Rattle.wasm_smith_shapes.specs.Forms.{may_have_type};
ghost use Rattle.wasm_smith_shapes.specs.Groups.{AllFrom, HasKindAbove, HasLinks, MatchesAbove};
ghost use Rattle.wasm_smith_shapes.specs.Shapes.{group_of};
ghost use Rattle.wasm_smith_validity.specs.Linked.{AreLinked};
ghost use Rattle.wasm_smith_validity.specs.ValidGroups.{AllKeepTypeRules, AreValidGroups, HasHeight, IsValidGroup, entry, types_of};
ghost use Rattle.wasm_spec.specs.Features.{Gc, has};
ghost use Rattle.wasm_spec.specs.Groups.{Extends};
ghost use Rattle.wasm_spec.specs.Subtyping.{abstract_of};

use crate::forms::may_have_types;
use crate::gates::is_allowed_group;
use crate::matching::composite_matches;
use crate::shape::ShapeUse;
use wasm_core_types::features::WasmFeatures;
use wasm_core_types::types::{CompositeType, SubType};
use wasm_smith_validity::subtyping::MAX_HEIGHT;

fn is_of_one_kind(a: &CompositeType, b: &CompositeType) -> bool
    ensures { IsTrue result ↔ (abstract_of (composite_type a.now) ≡ abstract_of (composite_type b.now)) }
{
    matches!(
        (a, b),
        (CompositeType::Func(_), CompositeType::Func(_))
            | (CompositeType::Struct(_), CompositeType::Struct(_))
            | (CompositeType::Array(_), CompositeType::Array(_))
            | (CompositeType::Cont(_), CompositeType::Cont(_))
    )
}

// Checks that no more supertypes stand above a type, one above the other, than there may be.
fn is_low(types: &[SubType], index: u32) -> bool
    ensures { IsTrue result ↔ ((height : ℕ) × HasHeight (slice_get (map sub_type types.now)) height index × (height ≤ 63)) }
{
    let mut at = index;
    for _ in 0..MAX_HEIGHT + 1 {
        match types.get(at as usize) {
            Some(type_) => match type_.supertype_idx {
                Some(supertype) => at = supertype,
                None => return true,
            },
            None => return false,
        }
    }
    false
}

// Checks that the supertype of a type is of the type's kind.
fn has_kind_above(types: &[SubType], type_: &SubType) -> bool
    ensures { IsTrue result ↔ HasKindAbove (map sub_type types.now) (sub_type type_.now) }
{
    match type_.supertype_idx {
        Some(supertype) => match types.get(supertype as usize) {
            Some(above) => is_of_one_kind(&above.composite_type, &type_.composite_type),
            None => false,
        },
        None => true,
    }
}

fn is_earlier(supertype_idx: Option<u32>, index: u32) -> bool
    ensures { IsTrue result ↔ AllByRecursion (λ supertype. supertype < index) (option_to_list supertype_idx) }
{
    match supertype_idx {
        Some(supertype) => supertype < index,
        None => true,
    }
}

// Checks that the supertype of a type is earlier and of the type's kind, and that not too many stand above one another.
fn has_links(types: &[SubType], index: u32, type_: &SubType) -> bool
    ensures { IsTrue result ↔ HasLinks (map sub_type types.now) index (sub_type type_.now) }
{
    is_earlier(type_.supertype_idx, index) && has_kind_above(types, type_) && is_low(types, index)
}

// Checks that the supertype of each type from `start` on is earlier and of the type's kind, and that not too many stand above one another.
fn have_links(types: &[SubType], start: usize) -> bool
    requires { length types.now < 2 ^ 32 }
    ensures { IsTrue result ↔ AllFrom (HasLinks (map sub_type types.now)) (map sub_type types.now) start }
{
    for index in start..types.len() {
        if !has_links(types, index as u32, &types[index]) {
            return false;
        }
    }
    true
}

// Checks that a type matches its supertype, which isn't final.
fn matches_above(types: &[SubType], type_: &SubType) -> bool
    requires { AreLinked (map sub_type types.now) }
    ensures { IsTrue result ↔ AllByRecursion (Extends (slice_get (map sub_type types.now)) (sub_type type_.now)) (sub_type type_.now).supertypes }
{
    match type_.supertype_idx {
        Some(supertype) => match types.get(supertype as usize) {
            Some(above) => {
                !above.is_final
                    && composite_matches(&type_.composite_type, &above.composite_type, types)
            }
            None => false,
        },
        None => true,
    }
}

// Checks that each type from `start` on matches its supertype.
fn match_above(types: &[SubType], start: usize) -> bool
    requires { AreLinked (map sub_type types.now) }
    ensures { IsTrue result ↔ AllFrom (MatchesAbove (map sub_type types.now)) (map sub_type types.now) start }
{
    for index in start..types.len() {
        if !matches_above(types, &types[index]) {
            return false;
        }
    }
    true
}

// Returns how many types a group may name, which takes the types from one number to another.
fn bound(features: WasmFeatures, start: usize, end: usize) -> usize
    ensures { result ≡ (if has (feature_set features) Gc then end else start) }
{
    if features.gc() { end } else { start }
}

// Checks that the types from `start` on are a valid group after those before it, and that a shape may have them.
fn is_good_group(features: WasmFeatures, purpose: ShapeUse, types: &[SubType], start: usize) -> bool
    requires start { start ≤ length types.now }
    requires few { length types.now < 2 ^ 32 }
    requires rules { AllKeepTypeRules (take start (map sub_type types.now)) }
    ensures { IsTrue result ↔ (IsValidGroup (feature_set features) (take start (map sub_type types.now)) (entry (drop start (map sub_type types.now)))
        × (list_all (may_have_type purpose) (drop start (map sub_type types.now)) ≡ true)) }
{
    let named = bound(features, start, types.len());
    let members = &types[start..];
    if !is_allowed_group(features, members) {
        return false;
    }
    if !may_have_types(purpose, named, members) {
        return false;
    }
    if !have_links(types, start) {
        return false;
    }
    match_above(types, start)
}

/// Checks that groups are valid, one after the other, and that a shape may have them.
pub fn are_good_groups(
    features: WasmFeatures,
    purpose: ShapeUse,
    groups: &[Vec<SubType>],
    types: &[SubType],
) -> bool
    requires flat { map sub_type types.now ≡ types_of (map group_of groups.now) }
    requires few { length types.now < 2 ^ 32 }
    ensures { IsTrue result ↔ (AreValidGroups (feature_set features) (map group_of groups.now)
        × (list_all (may_have_type purpose) (types_of (map group_of groups.now)) ≡ true)) }
{
    let mut start = 0;
    for group in groups {
        let members: &[SubType] = group;
        let end = start + members.len();
        if !is_good_group(features, purpose, &types[..end], start) {
            return false;
        }
        start = end;
    }
    true
}
