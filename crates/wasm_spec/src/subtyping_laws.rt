//! Laws of subtyping, matching and defined types. R and S are kinds of references to defined types.

ghost use Rattle.std.specs.Prelude.{◌≡◌, ◌<◌, ◌≤◌, ◌↔◌, ◌++◌, ℕ, List, [], ◌∷◌, None, Some, length, map, slice_get, suc, true};
ghost use Rattle.std.specs.List.{flat_map};
ghost use Rattle.wasm_spec.specs.Features.{Features};
ghost use Rattle.wasm_spec.specs.Gates.{is_allowed_group};
ghost use Rattle.wasm_spec.specs.Groups.{AllGroups, AreWellFormedGroups, AreWithinLimits, ExtendsSupertypes, HasDepth, IsWellFormedAt, IsWellFormedGroup, KeepGroupRules, KeepsGroupRules, PassesLimit, items_in, reference_bound};
ghost use Rattle.wasm_spec.specs.Limits.{Depth, Fields, IsPassedBy, Limit, Params, Results};
ghost use Rattle.wasm_spec.specs.Matching.{CompositeMatches, FieldMatches, StorageBelow};
ghost use Rattle.wasm_spec.specs.ReferenceMaps.{Carries, CarriesBack, CarriesLimitsBack, IsOneToOne, KeepsTypes, ReferToTypes};
ghost use Rattle.wasm_spec.specs.Subtyping.{Declared, HeapBelow, HeapTest, Link, RefBelow, SubTypes, ValBelow, is_abstract_below};
ghost use Rattle.wasm_spec.specs.Syntax.{members};
ghost use Rattle.wasm_spec.specs.Trees.{AreDistinct, AreInRange, DefType, RefersBelow, TreeReference, opened, roll, section_types, tree_of, type_at, types_after, unrolled};
ghost use Rattle.wasm_spec.specs.TypeReferences.{composite_map, external_fill, external_map, external_refs, group_fill, group_map, group_refs};
ghost use Rattle.wasm_spec.specs.Types.{Abstract, AbstractHeapType, CompositeType, Concrete, ExternalType, FieldType, FuncComposite, FuncType, Group, HeapType, RecGroup, RefType, Single, StorageType, StructComposite, SubType, ValType};

/// A map of references maps those that are listed; and what is left of a type without its references, and these references, are the type again.
pub fn references<R, S>()
    ensures mapped { (f : R → S) (group : RecGroup R) → group_refs (group_map f group) ≡ map f (group_refs group) }
    ensures groups { (d : R) (group : RecGroup R) (rest : List R)
        → group_fill d (group_map (λ (r : R). tt) group) (group_refs group ++ rest) ≡ (group, rest) }
    ensures external_types { (d : R) (type : ExternalType R) (rest : List R)
        → external_fill d (external_map (λ (r : R). tt) type) (external_refs type ++ rest) ≡ (type, rest) }
{}

/// A tree gives back what it was rolled up from, so it is one tree exactly where that is one list of sub types.
pub fn group_trees()
    ensures opened { (types : List (SubType TreeReference)) → opened (roll types) ≡ types }
    ensures one_tree { (a b : List (SubType TreeReference)) → (roll a ≡ roll b) ↔ (a ≡ b) }

    // A type that stands by itself is the type of the group that is written out of it alone.
    ensures alone { (before : List DefType) (type : SubType ℕ) → tree_of before (Single type) ≡ tree_of before (Group (type ∷ [])) }

    // After types none of which has two indexes.
    ensures members { (before : List DefType) (a b : RecGroup ℕ) → AreDistinct before → (tree_of before a ≡ tree_of before b) ↔ (members a ≡ members b) }
{}

/// Subtyping of heap types, worked out: between two abstract ones it is the table, and else the table and the links from type to type.
pub fn heap_types<R>()
    ensures test { (sub_at : SubTypes R) (a b : HeapType R) → HeapBelow sub_at a b ↔ HeapTest sub_at a b }
    ensures table { (sub_at : SubTypes R) (a b : AbstractHeapType)
        → HeapBelow sub_at (Abstract a) (Abstract b) ↔ (is_abstract_below a b ≡ true) }
{}

/// Subtyping and matching are reflexive and transitive.
pub fn orders<R>()
    ensures heap_same { (sub_at : SubTypes R) (a : HeapType R) → HeapBelow sub_at a a }
    ensures heap_joined { (sub_at : SubTypes R) (a b c : HeapType R) → HeapBelow sub_at a b → HeapBelow sub_at b c → HeapBelow sub_at a c }
    ensures ref_same { (sub_at : SubTypes R) (a : RefType R) → RefBelow sub_at a a }
    ensures ref_joined { (sub_at : SubTypes R) (a b c : RefType R) → RefBelow sub_at a b → RefBelow sub_at b c → RefBelow sub_at a c }
    ensures val_same { (sub_at : SubTypes R) (a : ValType R) → ValBelow sub_at a a }
    ensures val_joined { (sub_at : SubTypes R) (a b c : ValType R) → ValBelow sub_at a b → ValBelow sub_at b c → ValBelow sub_at a c }
    ensures storage_same { (sub_at : SubTypes R) (a : StorageType R) → StorageBelow sub_at a a }
    ensures storage_joined { (sub_at : SubTypes R) (a b c : StorageType R) → StorageBelow sub_at a b → StorageBelow sub_at b c → StorageBelow sub_at a c }
    ensures field_same { (sub_at : SubTypes R) (a : FieldType R) → FieldMatches sub_at a a }
    ensures field_joined { (sub_at : SubTypes R) (a b c : FieldType R) → FieldMatches sub_at a b → FieldMatches sub_at b c → FieldMatches sub_at a c }
    ensures composite_same { (sub_at : SubTypes R) (a : CompositeType R) → CompositeMatches sub_at a a }
    ensures composite_joined { (sub_at : SubTypes R) (a b c : CompositeType R) → CompositeMatches sub_at a b → CompositeMatches sub_at b c → CompositeMatches sub_at a c }
{}

/// All declared links of a type that keeps the rule on supertypes count.
pub fn declared_links<R>()
    ensures { (sub_at : SubTypes R) (r t : R) (type : SubType R)
        → sub_at r ≡ Some type → ExtendsSupertypes sub_at type → Declared sub_at r t → Link sub_at r t }
{}

/// A map of references that keeps types carries links, subtyping, matching, rules and limits along; the rule on continuations and limits
/// also back; and subtyping, matching and the rule on supertypes back, where it is one to one on references that stand for types.
pub fn reference_maps<R, S>()
    ensures along { (f : R → S) (from : SubTypes R) (to : SubTypes S) → KeepsTypes f from to → Carries f from to }
    ensures limits_back { (f : R → S) (from : SubTypes R) (to : SubTypes S) → KeepsTypes f from to → ReferToTypes from → CarriesLimitsBack f from to }
    ensures back { (f : R → S) (from : SubTypes R) (to : SubTypes S)
        → KeepsTypes f from to → ReferToTypes from → IsOneToOne f from → CarriesBack f from to }
{}

/// In a type section whose references are in range, each type index stands for a defined type that unrolls to the sub type of the index.
pub fn type_sections()
    ensures count { (groups : List (RecGroup ℕ)) → length (section_types groups) ≡ length (flat_map members groups) }
    ensures types { (groups : List (RecGroup ℕ)) → AreInRange 0 groups
        → KeepsTypes (type_at (section_types groups)) (slice_get (flat_map members groups)) unrolled }
    ensures closed { (groups : List (RecGroup ℕ)) → AreInRange 0 groups → ReferToTypes (slice_get (flat_map members groups)) }
    ensures along { (groups : List (RecGroup ℕ)) → AreInRange 0 groups
        → Carries (type_at (section_types groups)) (slice_get (flat_map members groups)) unrolled }
    ensures limits_back { (groups : List (RecGroup ℕ)) → AreInRange 0 groups
        → CarriesLimitsBack (type_at (section_types groups)) (slice_get (flat_map members groups)) unrolled }

    // Where no type has two indexes.
    ensures one_to_one { (groups : List (RecGroup ℕ)) → AreInRange 0 groups → AreDistinct (section_types groups)
        → IsOneToOne (type_at (section_types groups)) (slice_get (flat_map members groups)) }
    ensures back { (groups : List (RecGroup ℕ)) → AreInRange 0 groups → AreDistinct (section_types groups)
        → CarriesBack (type_at (section_types groups)) (slice_get (flat_map members groups)) unrolled }
    ensures in_range { (features : Features) (groups : List (RecGroup ℕ)) → KeepGroupRules features [] groups → AreInRange 0 groups }
    ensures past_the_end { (types : List DefType) (index : ℕ) → length types ≤ index → unrolled (type_at types index) ≡ None }

    // One group after the others.
    ensures more_types { (groups : List (RecGroup ℕ)) (group : RecGroup ℕ)
        → section_types (groups ++ (group ∷ [])) ≡ types_after (section_types groups) group }
    ensures more_groups { (features : Features) (groups : List (RecGroup ℕ)) (group : RecGroup ℕ) → AreWellFormedGroups features [] (groups ++ (group ∷ []))
        ↔ (AreWellFormedGroups features [] groups × IsWellFormedGroup features (section_types groups) group) }
    ensures more_rules { (features : Features) (groups : List (RecGroup ℕ)) (group : RecGroup ℕ) → KeepGroupRules features [] (groups ++ (group ∷ []))
        ↔ (KeepGroupRules features [] groups × KeepsGroupRules features (section_types groups) group) }
{}

/// Where the groups of a section keep the rules, each type keeps them among all types of the section, and matches what it is below; the groups
/// are well-formed where besides no type passes a limit.
pub fn well_formed_sections()
    ensures rules { (features : Features) (groups : List (RecGroup ℕ)) (index : ℕ) (type : SubType ℕ) → KeepGroupRules features [] groups
        → slice_get (flat_map members groups) index ≡ Some type → IsWellFormedAt (section_types groups) index type }
    ensures group_rules { (features : Features) (groups : List (RecGroup ℕ))
        → AllGroups (λ (before : List DefType) (group : RecGroup ℕ). (is_allowed_group features group ≡ true) × RefersBelow (reference_bound features (length before) group) group) [] groups
        → ((index : ℕ) (type : SubType ℕ) → slice_get (flat_map members groups) index ≡ Some type → IsWellFormedAt (section_types groups) index type)
        → KeepGroupRules features [] groups }
    ensures matches { (features : Features) (groups : List (RecGroup ℕ)) (i j : ℕ) (a b : SubType ℕ) → KeepGroupRules features [] groups
        → slice_get (flat_map members groups) i ≡ Some a → slice_get (flat_map members groups) j ≡ Some b
        → HeapBelow unrolled (Concrete (type_at (section_types groups) i)) (Concrete (type_at (section_types groups) j))
        → CompositeMatches unrolled (composite_map (type_at (section_types groups)) a.composite_type) (composite_map (type_at (section_types groups)) b.composite_type) }
    ensures well_formed { (features : Features) (groups : List (RecGroup ℕ))
        → AreWellFormedGroups features [] groups ↔ (KeepGroupRules features [] groups × AreWithinLimits (section_types groups)) }
    ensures limits { (features : Features) (groups : List (RecGroup ℕ)) (index : ℕ) (type : DefType) (limit : Limit) → AreWellFormedGroups features [] groups
        → slice_get (section_types groups) index ≡ Some type → ¬ (PassesLimit unrolled type limit) }
{}

/// How limits on a type are found: the depth of a type is one more than that of its supertype, and what else is counted stands in the type itself.
pub fn type_limits<R>()
    ensures no_supertype { (sub_at : SubTypes R) (r : R) (type : SubType R)
        → sub_at r ≡ Some type → type.supertypes ≡ [] → HasDepth sub_at r 0 }
    ensures one_supertype { (sub_at : SubTypes R) (r t : R) (type : SubType R) (n : ℕ)
        → sub_at r ≡ Some type → type.supertypes ≡ t ∷ [] → HasDepth sub_at t n → HasDepth sub_at r (suc n) }
    ensures depth { (sub_at : SubTypes R) (r : R) (n : ℕ) → HasDepth sub_at r n → PassesLimit sub_at r Depth ↔ (63 < n) }
    ensures items { (sub_at : SubTypes R) (r : R) (type : SubType R) (limit : Limit) → sub_at r ≡ Some type → ¬ (limit ≡ Depth)
        → PassesLimit sub_at r limit ↔ IsPassedBy limit (items_in type.composite_type limit) }
    ensures params { (sub_at : SubTypes R) (r : R) (type : SubType R) (function : FuncType R)
        → sub_at r ≡ Some type → type.composite_type ≡ FuncComposite function → PassesLimit sub_at r Params ↔ (1000 < length function.params) }
    ensures results { (sub_at : SubTypes R) (r : R) (type : SubType R) (function : FuncType R)
        → sub_at r ≡ Some type → type.composite_type ≡ FuncComposite function → PassesLimit sub_at r Results ↔ (1000 < length function.results) }
    ensures fields { (sub_at : SubTypes R) (r : R) (type : SubType R) (fields : List (FieldType R))
        → sub_at r ≡ Some type → type.composite_type ≡ StructComposite fields → PassesLimit sub_at r Fields ↔ (10000 < length fields) }
{}
