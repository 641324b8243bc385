//! Worked examples of matching in depth, of references below one another, and of types across groups.

ghost use Rattle.std.specs.Prelude.{◌≡◌, ◌++◌, ◌-◌, ◌^◌, ◌+◌, ℕ, List, [], ◌∷◌, false, slice_get, true};
ghost use Rattle.std.specs.List.{flat_map};
ghost use Rattle.wasm_spec.specs.Features.{Features, Gc, GcTypes, StackSwitching, bit_of, default_features, has};
ghost use Rattle.wasm_spec.specs.Gates.{is_allowed_group};
ghost use Rattle.wasm_spec.specs.Groups.{IsWellFormedGroup, IsWithinGroupLimits, KeepsGroupRules};
ghost use Rattle.wasm_spec.specs.Matching.{CompositeMatches};
ghost use Rattle.wasm_spec.specs.Subtyping.{HeapBelow, SubTypes, ValBelow};
ghost use Rattle.wasm_spec.specs.Syntax.{members};
ghost use Rattle.wasm_spec.specs.Trees.{section_types, type_at, unrolled};
ghost use Rattle.wasm_spec.specs.Types.{Abstract, Any, Array, ArrayComposite, Concrete, Cont, ContComposite, Eq, Func, FuncComposite, Group, I31, I32, I64, NoCont, NoFunc, None, RecGroup, Ref, Single, Struct, StructComposite};
ghost use Rattle.wasm_spec_examples.specs.TypeExamples.{IsOneType, any, any_structure, const_field, empty_structure, field_to, final_below, final_type, function_to, gives, group_with_links, lone_chain, of_params, one_of_each, open_below, open_type, ref_null, structure_to, takes, twins, var_field};

/// A structure matches another where each field of the other is matched by the one at its place, the later ones too.
pub fn structure_fields<R>()
    ensures first_narrowed { (sub_at : SubTypes R) → CompositeMatches sub_at (StructComposite (const_field any_structure ∷ var_field I32 ∷ [])) (StructComposite (const_field any ∷ var_field I32 ∷ [])) }
    ensures first_widened { (sub_at : SubTypes R) → ¬ (CompositeMatches sub_at (StructComposite (const_field any ∷ var_field I32 ∷ [])) (StructComposite (const_field any_structure ∷ var_field I32 ∷ []))) }
    ensures second_narrowed { (sub_at : SubTypes R) → CompositeMatches sub_at (StructComposite (var_field I32 ∷ const_field any_structure ∷ [])) (StructComposite (var_field I32 ∷ const_field any ∷ [])) }
    ensures second_widened { (sub_at : SubTypes R) → ¬ (CompositeMatches sub_at (StructComposite (var_field I32 ∷ const_field any ∷ [])) (StructComposite (var_field I32 ∷ const_field any_structure ∷ []))) }
    ensures second_differs { (sub_at : SubTypes R) → ¬ (CompositeMatches sub_at (StructComposite (const_field I32 ∷ const_field I64 ∷ [])) (StructComposite (const_field I32 ∷ const_field I32 ∷ []))) }
    ensures narrowed_and_wider { (sub_at : SubTypes R) → CompositeMatches sub_at (StructComposite (const_field any_structure ∷ var_field I32 ∷ [])) (StructComposite (const_field any ∷ [])) }
    ensures widened_and_wider { (sub_at : SubTypes R) → ¬ (CompositeMatches sub_at (StructComposite (const_field any ∷ var_field I32 ∷ [])) (StructComposite (const_field any_structure ∷ []))) }
    ensures var_narrowed { (sub_at : SubTypes R) → ¬ (CompositeMatches sub_at (StructComposite (var_field any_structure ∷ [])) (StructComposite (var_field any ∷ []))) }
    ensures var_widened { (sub_at : SubTypes R) → ¬ (CompositeMatches sub_at (StructComposite (var_field any ∷ [])) (StructComposite (var_field any_structure ∷ []))) }
    ensures const_var { (sub_at : SubTypes R) → ¬ (CompositeMatches sub_at (StructComposite (const_field I32 ∷ [])) (StructComposite (var_field I32 ∷ []))) }
    ensures var_const { (sub_at : SubTypes R) → ¬ (CompositeMatches sub_at (StructComposite (var_field I32 ∷ [])) (StructComposite (const_field I32 ∷ []))) }
    ensures const_var_narrowed { (sub_at : SubTypes R) → ¬ (CompositeMatches sub_at (StructComposite (const_field any_structure ∷ [])) (StructComposite (var_field any ∷ []))) }
    ensures var_const_narrowed { (sub_at : SubTypes R) → ¬ (CompositeMatches sub_at (StructComposite (var_field any_structure ∷ [])) (StructComposite (const_field any ∷ []))) }
    ensures second_const_var { (sub_at : SubTypes R) → ¬ (CompositeMatches sub_at (StructComposite (const_field I32 ∷ const_field I64 ∷ [])) (StructComposite (const_field I32 ∷ var_field I64 ∷ []))) }
{}

/// What an array holds is matched as a field is.
pub fn array_elements<R>()
    ensures const_narrowed { (sub_at : SubTypes R) → CompositeMatches sub_at (ArrayComposite (const_field any_structure)) (ArrayComposite (const_field any)) }
    ensures const_widened { (sub_at : SubTypes R) → ¬ (CompositeMatches sub_at (ArrayComposite (const_field any)) (ArrayComposite (const_field any_structure))) }
    ensures var_same { (sub_at : SubTypes R) → CompositeMatches sub_at (ArrayComposite (var_field any)) (ArrayComposite (var_field any)) }
    ensures var_narrowed { (sub_at : SubTypes R) → ¬ (CompositeMatches sub_at (ArrayComposite (var_field any_structure)) (ArrayComposite (var_field any))) }
    ensures var_widened { (sub_at : SubTypes R) → ¬ (CompositeMatches sub_at (ArrayComposite (var_field any)) (ArrayComposite (var_field any_structure))) }
    ensures const_var { (sub_at : SubTypes R) → ¬ (CompositeMatches sub_at (ArrayComposite (const_field I32)) (ArrayComposite (var_field I32))) }
    ensures var_const { (sub_at : SubTypes R) → ¬ (CompositeMatches sub_at (ArrayComposite (var_field I32)) (ArrayComposite (const_field I32))) }
    ensures const_var_narrowed { (sub_at : SubTypes R) → ¬ (CompositeMatches sub_at (ArrayComposite (const_field any_structure)) (ArrayComposite (var_field any))) }
    ensures var_const_narrowed { (sub_at : SubTypes R) → ¬ (CompositeMatches sub_at (ArrayComposite (var_field any_structure)) (ArrayComposite (const_field any))) }
{}

/// Later parameters are matched the other way too, and later results as the first is.
pub fn later_values<R>()
    ensures params { (sub_at : SubTypes R) → CompositeMatches sub_at (FuncComposite (takes (I32 ∷ any ∷ []))) (FuncComposite (takes (I32 ∷ any_structure ∷ []))) }
    ensures params_narrowed { (sub_at : SubTypes R) → ¬ (CompositeMatches sub_at (FuncComposite (takes (I32 ∷ any_structure ∷ []))) (FuncComposite (takes (I32 ∷ any ∷ [])))) }
    ensures results { (sub_at : SubTypes R) → CompositeMatches sub_at (FuncComposite (gives (I32 ∷ any_structure ∷ []))) (FuncComposite (gives (I32 ∷ any ∷ []))) }
    ensures results_widened { (sub_at : SubTypes R) → ¬ (CompositeMatches sub_at (FuncComposite (gives (I32 ∷ any ∷ []))) (FuncComposite (gives (I32 ∷ any_structure ∷ [])))) }
{}

/// A reference is below another where it can be null only if the other can, and what it refers to is below what the other refers to.
pub fn references<R>()
    ensures both { ValBelow (slice_get (open_type empty_structure ∷ open_below 0 empty_structure ∷ [])) (Ref false (Concrete 1)) (Ref true (Concrete 0)) }
    ensures null { ¬ (ValBelow (slice_get (open_type empty_structure ∷ open_below 0 empty_structure ∷ [])) (Ref true (Concrete 1)) (Ref false (Concrete 0))) }
    ensures upward { ¬ (ValBelow (slice_get (open_type empty_structure ∷ open_below 0 empty_structure ∷ [])) (Ref false (Concrete 0)) (Ref true (Concrete 1))) }
    ensures continuation { ValBelow (slice_get one_of_each) (ref_null (Concrete 3)) (ref_null (Abstract Cont)) }
    ensures continuation_any { ¬ (ValBelow (slice_get one_of_each) (ref_null (Concrete 3)) any) }
    ensures cont_any { (sub_at : SubTypes R) → ¬ (ValBelow sub_at (ref_null (Abstract Cont)) any) }
    ensures i31_eq { (sub_at : SubTypes R) → ValBelow sub_at (ref_null (Abstract I31)) (ref_null (Abstract Eq)) }
    ensures i31_any { (sub_at : SubTypes R) → ValBelow sub_at (ref_null (Abstract I31)) any }
    ensures i31_struct { (sub_at : SubTypes R) → ¬ (ValBelow sub_at (ref_null (Abstract I31)) any_structure) }
{}

/// A type of each kind is below the abstract type of its kind and above the lowest one, and not so with those of other kinds.
pub fn types_of_kinds()
    ensures func { HeapBelow (slice_get one_of_each) (Concrete 0) (Abstract Func) }
    ensures func_any { ¬ (HeapBelow (slice_get one_of_each) (Concrete 0) (Abstract Any)) }
    ensures struct_type { HeapBelow (slice_get one_of_each) (Concrete 1) (Abstract Struct) }
    ensures struct_any { HeapBelow (slice_get one_of_each) (Concrete 1) (Abstract Any) }
    ensures struct_array { ¬ (HeapBelow (slice_get one_of_each) (Concrete 1) (Abstract Array)) }
    ensures array { HeapBelow (slice_get one_of_each) (Concrete 2) (Abstract Array) }
    ensures array_struct { ¬ (HeapBelow (slice_get one_of_each) (Concrete 2) (Abstract Struct)) }
    ensures cont { HeapBelow (slice_get one_of_each) (Concrete 3) (Abstract Cont) }
    ensures cont_func { ¬ (HeapBelow (slice_get one_of_each) (Concrete 3) (Abstract Func)) }
    ensures nofunc { HeapBelow (slice_get one_of_each) (Abstract NoFunc) (Concrete 0) }
    ensures none_func { ¬ (HeapBelow (slice_get one_of_each) (Abstract None) (Concrete 0)) }
    ensures none_struct { HeapBelow (slice_get one_of_each) (Abstract None) (Concrete 1) }
    ensures none_array { HeapBelow (slice_get one_of_each) (Abstract None) (Concrete 2) }
    ensures nocont { HeapBelow (slice_get one_of_each) (Abstract NoCont) (Concrete 3) }
    ensures none_cont { ¬ (HeapBelow (slice_get one_of_each) (Abstract None) (Concrete 3)) }
{}

/// A continuation type may name a function type of its own group, also a later one; it may not name a continuation type or a structure.
pub fn named_functions()
    ensures earlier { KeepsGroupRules 0x230000 [] (Group (of_params 0 ∷ final_type (ContComposite 0) ∷ [])) }
    ensures later { KeepsGroupRules 0x230000 [] (Group (final_type (ContComposite 1) ∷ of_params 0 ∷ [])) }
    ensures continuation { (features : Features) → ¬ (KeepsGroupRules features (section_types (Single (of_params 0) ∷ Single (final_type (ContComposite 0)) ∷ [])) (Single (final_type (ContComposite 1)))) }
    ensures own_continuation { (features : Features) → ¬ (KeepsGroupRules features [] (Group (of_params 0 ∷ final_type (ContComposite 0) ∷ final_type (ContComposite 1) ∷ []))) }
    ensures itself { (features : Features) → ¬ (KeepsGroupRules features [] (Single (final_type (ContComposite 0)))) }
    ensures later_structure { (features : Features) → ¬ (KeepsGroupRules features [] (Group (final_type (ContComposite 1) ∷ final_type empty_structure ∷ []))) }
    ensures features { bit_of Gc + bit_of GcTypes + bit_of StackSwitching ≡ 0x230000 }
{}

/// A final type may be below an open one, and nothing may be below the final one.
pub fn final_types()
    ensures below_open { IsWellFormedGroup default_features [] (Group (open_type empty_structure ∷ final_below 0 empty_structure ∷ [])) }
    ensures below_final { (features : Features) → ¬ (KeepsGroupRules features [] (Group (open_type empty_structure ∷ final_below 0 empty_structure ∷ open_below 1 empty_structure ∷ []))) }
    ensures final_below_final { (features : Features) → ¬ (KeepsGroupRules features [] (Group (open_type empty_structure ∷ final_below 0 empty_structure ∷ final_below 1 empty_structure ∷ []))) }
    ensures beside_final { KeepsGroupRules default_features [] (Group (open_type empty_structure ∷ final_below 0 empty_structure ∷ open_below 0 empty_structure ∷ [])) }
    ensures later_group { (features : Features) → ¬ (KeepsGroupRules features (section_types (Group (open_type empty_structure ∷ final_below 0 empty_structure ∷ []) ∷ [])) (Single (open_below 1 empty_structure))) }
{}

/// Where the flag of garbage collection is off, a type may not refer to its own group, whatever other flags are on.
pub fn own_references()
    ensures own { (features : Features) → has features Gc ≡ false → ¬ (KeepsGroupRules features [] (Single (function_to 0))) }
    ensures all_others { ¬ (KeepsGroupRules 0x3effff [] (Single (function_to 0))) }
    ensures after_others { ¬ (KeepsGroupRules 0x3effff (section_types (Single (of_params 0) ∷ [])) (Single (function_to 1))) }
    ensures earlier { KeepsGroupRules 0x3effff (section_types (Single (of_params 0) ∷ [])) (Single (function_to 0)) }
    ensures allowed { is_allowed_group {R = ℕ} 0x3effff (Single (function_to 1)) ≡ true }
    ensures features { 2 ^ 22 - 1 - bit_of Gc ≡ 0x3effff }
{}

/// Types of several groups: equal groups stand for the same types wherever they stand, groups without types for none, and a reference to another
/// group names a place in it.
pub fn several_groups()
    ensures alone { IsOneType (Single (final_type empty_structure) ∷ Group (final_type empty_structure ∷ final_type (ArrayComposite (const_field I32)) ∷ []) ∷ Single (final_type empty_structure) ∷ []) 0 3 }
    ensures member { ¬ (IsOneType (Single (final_type empty_structure) ∷ Group (final_type empty_structure ∷ final_type (ArrayComposite (const_field I32)) ∷ []) ∷ Single (final_type empty_structure) ∷ []) 0 1) }
    ensures empty_group { (groups others : List (RecGroup ℕ)) → section_types (groups ++ (Group [] ∷ others)) ≡ section_types (groups ++ others) }
    ensures same_place { IsOneType (Group (final_type empty_structure ∷ final_type empty_structure ∷ []) ∷ Single (structure_to 1) ∷ Single (structure_to 1) ∷ []) 2 3 }
    ensures other_place { ¬ (IsOneType (Group (final_type empty_structure ∷ final_type empty_structure ∷ []) ∷ Single (structure_to 0) ∷ Single (structure_to 1) ∷ []) 2 3) }
{}

/// A field may be narrower by a link of the own group: what the last structure refers to has to be below the first.
pub fn links_of_the_group()
    ensures below { IsWellFormedGroup default_features [] (group_with_links 1) }
    ensures unrelated { (features : Features) → ¬ (KeepsGroupRules features [] (group_with_links 2)) }
    ensures itself { (features : Features) → ¬ (KeepsGroupRules features [] (group_with_links 3)) }
{}

/// What is declared below one of two equal types is below the other, as types are, though over indexes it isn't.
pub fn equal_supertypes()
    ensures one_type { IsOneType twins 0 1 }
    ensures declared { HeapBelow (slice_get (flat_map members twins)) (Concrete 2) (Concrete 1) }
    ensures by_index { ¬ (HeapBelow (slice_get (flat_map members twins)) (Concrete 2) (Concrete 0)) }
    ensures by_type { HeapBelow unrolled (Concrete (type_at (section_types twins) 2)) (Concrete (type_at (section_types twins) 0)) }
    ensures above { ¬ (HeapBelow unrolled (Concrete (type_at (section_types twins) 0)) (Concrete (type_at (section_types twins) 2))) }

    // A field that refers to the lower type matches one that refers to the first.
    ensures field { KeepsGroupRules default_features (section_types (twins ++ (Single (open_type (field_to 0)) ∷ []))) (Single (open_below 3 (field_to 2))) }
    ensures other_field { (features : Features) → ¬ (KeepsGroupRules features (section_types (twins ++ (Single (open_type (field_to 2)) ∷ []))) (Single (open_below 3 (field_to 0)))) }
{}

/// Depth counts through groups: a type may be the 64th of a chain of types that stand by themselves, and no later one.
pub fn depth_across_groups()
    ensures most_links { IsWithinGroupLimits (section_types (lone_chain 62)) (Single (open_below 62 empty_structure)) }
    ensures many_links { ¬ (IsWithinGroupLimits (section_types (lone_chain 63)) (Single (open_below 63 empty_structure))) }
{}
