//! Laws of groups that are valid by index. The functions do nothing: their contracts are theorems.

ghost use Rattle.std.specs.Prelude.{◌≡◌, ℕ, List, [], Some, slice_get};
ghost use Rattle.wasm_spec.specs.Features.{Features};
ghost use Rattle.wasm_spec.specs.Groups.{KeepGroupRules, PassesLimit};
ghost use Rattle.wasm_spec.specs.Limits.{Depth};
ghost use Rattle.wasm_spec.specs.Subtyping.{RefBelow};
ghost use Rattle.wasm_spec.specs.TypeReferences.{ref_map};
ghost use Rattle.wasm_spec.specs.Trees.{DefType, section_types, type_at, unrolled};
ghost use Rattle.wasm_spec.specs.Types.{RecGroup, RefType, SubType};
ghost use Rattle.wasm_smith_validity.specs.Linked.{AreLinked};
ghost use Rattle.wasm_smith_validity.specs.ValidGroups.{AllKeepTypeRules, AreValidGroups, types_of};

/// Groups that are valid by index keep the rules over trees, and no type of theirs is too deep.
pub fn valid_groups()
    ensures rules { (features : Features) (groups : List (RecGroup ℕ)) → AreValidGroups features groups → KeepGroupRules features [] groups }
    ensures depth { (features : Features) (groups : List (RecGroup ℕ)) (index : ℕ) (type : DefType) → AreValidGroups features groups
        → slice_get (section_types groups) index ≡ Some type → ¬ (PassesLimit unrolled type Depth) }
{}

/// In groups that are valid by index each type keeps the rules on types. Types that keep these are linked, as the test of subtyping
/// ([`is_ref_below`](crate::subtyping::is_ref_below)) asks. A reference type that is below another by index is below it over trees. The converse
/// doesn't hold: a clone has the tree of its original, but another index.
pub fn subtypes()
    ensures rules { (features : Features) (groups : List (RecGroup ℕ)) → AreValidGroups features groups → AllKeepTypeRules (types_of groups) }
    ensures linked { (types : List (SubType ℕ)) → AllKeepTypeRules types → AreLinked types }
    ensures trees { (features : Features) (groups : List (RecGroup ℕ)) (low high : RefType ℕ) → AreValidGroups features groups
        → RefBelow (slice_get (types_of groups)) low high → RefBelow unrolled (ref_map (type_at (section_types groups)) low) (ref_map (type_at (section_types groups)) high) }
{}
