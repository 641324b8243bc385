//! Worked examples of defined types, subtyping, matching and well-formed groups.

ghost use Rattle.std.specs.Prelude.{◌≡◌, ◌+◌, ℕ, Bool, [], ◌∷◌, Some, false, slice_get, true};
ghost use Rattle.wasm_spec.specs.Features.{Features, FunctionReferences, Gc, GcTypes, ReferenceTypes, StackSwitching, bit_of, default_features};
ghost use Rattle.wasm_spec.specs.Groups.{IsWellFormedGroup, IsWithinGroupLimits, KeepsGroupRules};
ghost use Rattle.wasm_spec.specs.Matching.{CompositeMatches, FieldMatches, StorageBelow};
ghost use Rattle.wasm_spec.specs.Subtyping.{HeapBelow, IsOfKind, SubTypes, ValBelow, bottom_of};
ghost use Rattle.wasm_spec.specs.Trees.{section_types, type_at, unrolled};
ghost use Rattle.wasm_spec.specs.TypeReferences.{group_refs, sub_refs};
ghost use Rattle.wasm_spec.specs.Types.{Abstract, AbstractHeapType, Any, Array, ArrayComposite, Concrete, Cont, ContComposite, Eq, Exn, Extern, F32, F64, Func, FuncComposite, Group, HeapType, I16, I31, I32, I64, I8, NoCont, NoExn, NoExtern, NoFunc, None, Ref, Single, StorageType, Struct, StructComposite, SubType, V128, Val, ValType, is_ref};
ghost use Rattle.wasm_spec_examples.specs.TypeExamples.{IsOneType, any, any_structure, chain, const_field, empty_function, empty_structure, final_type, gives, of_params, one_field, open_below, open_type, packed_field, pair_from, ref_null, structure_to, takes, two_fields, var_field};

/// Two structures that refer to each other, written twice, are two types and not four; and it matters which place refers to which.
pub fn equal_groups()
    ensures first { IsOneType (pair_from 0 1 ∷ pair_from 2 3 ∷ []) 0 2 }
    ensures second { IsOneType (pair_from 0 1 ∷ pair_from 2 3 ∷ []) 1 3 }
    ensures two_places { ¬ (IsOneType (pair_from 0 1 ∷ pair_from 2 3 ∷ []) 0 1) }

    // In the second group each structure refers to itself.
    ensures other_places { ¬ (IsOneType (pair_from 0 1 ∷ pair_from 3 2 ∷ []) 0 2) }

    // In the second group the structures refer to the first.
    ensures first_group { ¬ (IsOneType (pair_from 0 1 ∷ pair_from 0 1 ∷ []) 0 2) }
{}

/// A type that stands by itself is the type of the group that is written out of it alone, and no member of a greater group.
pub fn lone_types()
    ensures alone { IsOneType (Single (final_type empty_structure) ∷ Group (final_type empty_structure ∷ []) ∷ []) 0 1 }
    ensures member { ¬ (IsOneType (Single (final_type empty_structure) ∷ Group (final_type empty_structure ∷ final_type (ArrayComposite (const_field I32)) ∷ []) ∷ []) 0 1) }
{}

/// What a type refers to counts as a type, and not by its index: types 0 and 1 are one type, and 2 another.
pub fn references_to_types()
    ensures one_type { IsOneType (Single (final_type empty_structure) ∷ Single (final_type empty_structure) ∷ Single (final_type empty_function) ∷ Single (structure_to 0) ∷ Single (structure_to 1) ∷ Single (structure_to 2) ∷ []) 3 4 }
    ensures another { ¬ (IsOneType (Single (final_type empty_structure) ∷ Single (final_type empty_structure) ∷ Single (final_type empty_function) ∷ Single (structure_to 0) ∷ Single (structure_to 1) ∷ Single (structure_to 2) ∷ []) 3 5) }

    // A structure that refers to itself, and one that refers to that one.
    ensures own { ¬ (IsOneType (Single (structure_to 0) ∷ Single (structure_to 0) ∷ []) 0 1) }
{}

/// A type index stands for a type with the values and packed numbers that are written.
pub fn written_values()
    ensures params { unrolled (type_at (section_types (Single (final_type (FuncComposite (takes (I32 ∷ I64 ∷ F32 ∷ F64 ∷ V128 ∷ [])))) ∷ [])) 0)
        ≡ Some (final_type (FuncComposite (takes (I32 ∷ I64 ∷ F32 ∷ F64 ∷ V128 ∷ [])))) }
    ensures fields { unrolled (type_at (section_types (Single (final_type (StructComposite (packed_field I8 ∷ packed_field I16 ∷ var_field F32 ∷ []))) ∷ [])) 0)
        ≡ Some (final_type (StructComposite (packed_field I8 ∷ packed_field I16 ∷ var_field F32 ∷ []))) }
{}

/// References in the order of writing: supertypes, parameters and results, and fields.
pub fn order_of_references()
    ensures function { sub_refs {R = ℕ} (open_below 5 (FuncComposite (record { params = ref_null (Concrete 1) ∷ I32 ∷ []; results = any ∷ ref_null (Concrete 3) ∷ ref_null (Concrete 2) ∷ [] })))
        ≡ 5 ∷ 1 ∷ 3 ∷ 2 ∷ [] }
    ensures structure { sub_refs {R = ℕ} (final_type (StructComposite (var_field (ref_null (Concrete 4)) ∷ const_field I64 ∷ const_field (ref_null (Concrete 0)) ∷ []))) ≡ 4 ∷ 0 ∷ [] }
    ensures continuation { sub_refs {R = ℕ} (open_below 2 (ContComposite 7)) ≡ 2 ∷ 7 ∷ [] }
    ensures group { group_refs (pair_from 3 4) ≡ 4 ∷ 3 ∷ [] }
{}

/// The lowest type of each kind is below all defined types of the kind, and no other abstract type is below a defined one.
pub fn bottoms<R>()
    ensures nofunc { (sub_at : SubTypes R) (r : R) → IsOfKind sub_at r Func → HeapBelow sub_at (Abstract NoFunc) (Concrete r) }
    ensures none_struct { (sub_at : SubTypes R) (r : R) → IsOfKind sub_at r Struct → HeapBelow sub_at (Abstract None) (Concrete r) }
    ensures none_array { (sub_at : SubTypes R) (r : R) → IsOfKind sub_at r Array → HeapBelow sub_at (Abstract None) (Concrete r) }
    ensures nocont { (sub_at : SubTypes R) (r : R) → IsOfKind sub_at r Cont → HeapBelow sub_at (Abstract NoCont) (Concrete r) }
    ensures none_func { (sub_at : SubTypes R) (r : R) → IsOfKind sub_at r Func → ¬ (HeapBelow sub_at (Abstract None) (Concrete r)) }
    ensures nofunc_struct { (sub_at : SubTypes R) (r : R) → IsOfKind sub_at r Struct → ¬ (HeapBelow sub_at (Abstract NoFunc) (Concrete r)) }
    ensures others { (sub_at : SubTypes R) (r : R) (type : SubType R) (a : AbstractHeapType) → sub_at r ≡ Some type
        → HeapBelow sub_at (Abstract a) (Concrete r) → a ≡ bottom_of type.composite_type }
    ensures i31 { (sub_at : SubTypes R) (r : R) → ¬ (HeapBelow sub_at (Abstract I31) (Concrete r)) }
{}

/// The abstract types that a defined type is below.
pub fn kinds<R>()
    ensures func { (sub_at : SubTypes R) (r : R) → IsOfKind sub_at r Func → HeapBelow sub_at (Concrete r) (Abstract Func) }
    ensures struct_any { (sub_at : SubTypes R) (r : R) → IsOfKind sub_at r Struct → HeapBelow sub_at (Concrete r) (Abstract Any) }
    ensures array_eq { (sub_at : SubTypes R) (r : R) → IsOfKind sub_at r Array → HeapBelow sub_at (Concrete r) (Abstract Eq) }
    ensures cont { (sub_at : SubTypes R) (r : R) → IsOfKind sub_at r Cont → HeapBelow sub_at (Concrete r) (Abstract Cont) }
    ensures func_any { (sub_at : SubTypes R) (r : R) → IsOfKind sub_at r Func → ¬ (HeapBelow sub_at (Concrete r) (Abstract Any)) }
    ensures struct_array { (sub_at : SubTypes R) (r : R) → IsOfKind sub_at r Struct → ¬ (HeapBelow sub_at (Concrete r) (Abstract Array)) }
{}

/// References to values of the host and to exceptions: each kind has a lowest type of its own, and none is internal.
pub fn other_references<R>()
    ensures noextern { (sub_at : SubTypes R) → HeapBelow sub_at (Abstract NoExtern) (Abstract Extern) }
    ensures noexn { (sub_at : SubTypes R) → HeapBelow sub_at (Abstract NoExn) (Abstract Exn) }
    ensures extern_any { (sub_at : SubTypes R) → ¬ (HeapBelow sub_at (Abstract Extern) (Abstract Any)) }
    ensures exn_any { (sub_at : SubTypes R) → ¬ (HeapBelow sub_at (Abstract Exn) (Abstract Any)) }
{}

/// A declared link counts where it joins two types of one kind: a structure below a structure, and none below a function.
pub fn links()
    ensures one_kind { HeapBelow (slice_get (open_type empty_structure ∷ open_below 0 empty_structure ∷ [])) (Concrete 1) (Concrete 0) }
    ensures two_kinds { ¬ (HeapBelow (slice_get (open_type empty_function ∷ open_below 0 empty_structure ∷ [])) (Concrete 1) (Concrete 0)) }
    ensures none { ¬ (HeapBelow (slice_get (open_type empty_function ∷ open_below 0 empty_structure ∷ [])) (Abstract None) (Concrete 0)) }
    ensures upward { ¬ (HeapBelow (slice_get (open_type empty_structure ∷ open_below 0 empty_structure ∷ [])) (Concrete 0) (Concrete 1)) }
    ensures undeclared { ¬ (HeapBelow (slice_get (open_type empty_structure ∷ open_type empty_structure ∷ [])) (Concrete 1) (Concrete 0)) }
{}

/// References that can't be null are below those that can, and numbers are below themselves alone.
pub fn values<R>()
    ensures null { (sub_at : SubTypes R) → ValBelow sub_at (Ref false (Abstract Struct)) (Ref true (Abstract Any)) }
    ensures not_null { (sub_at : SubTypes R) (a b : HeapType R) → ¬ (ValBelow sub_at (Ref true a) (Ref false b)) }
    ensures upward { (sub_at : SubTypes R) (nullable : Bool) → ¬ (ValBelow sub_at (Ref nullable (Abstract Any)) (Ref nullable (Abstract Struct))) }
    ensures number { (sub_at : SubTypes R) → ValBelow sub_at I32 I32 }
    ensures large_number { (sub_at : SubTypes R) → ValBelow sub_at I64 I64 }
    ensures float { (sub_at : SubTypes R) → ValBelow sub_at F32 F32 }
    ensures double { (sub_at : SubTypes R) → ValBelow sub_at F64 F64 }
    ensures vector { (sub_at : SubTypes R) → ValBelow sub_at V128 V128 }
    ensures numbers { (sub_at : SubTypes R) (a b : ValType R) → is_ref a ≡ false → ValBelow sub_at a b → a ≡ b }
    ensures references { (sub_at : SubTypes R) (a b : ValType R) → is_ref a ≡ true → ValBelow sub_at a b → is_ref b ≡ true }
{}

/// A field that can't be written may be narrower than the other, one that can must be the same; and packed types are themselves alone.
pub fn fields<R>()
    ensures const_narrowed { (sub_at : SubTypes R) → FieldMatches sub_at (const_field any_structure) (const_field any) }
    ensures const_widened { (sub_at : SubTypes R) → ¬ (FieldMatches sub_at (const_field any) (const_field any_structure)) }
    ensures var_same { (sub_at : SubTypes R) → FieldMatches sub_at (var_field any) (var_field any) }
    ensures var_narrowed { (sub_at : SubTypes R) → ¬ (FieldMatches sub_at (var_field any_structure) (var_field any)) }
    ensures var_widened { (sub_at : SubTypes R) → ¬ (FieldMatches sub_at (var_field any) (var_field any_structure)) }
    ensures const_var { (sub_at : SubTypes R) → ¬ (FieldMatches sub_at (const_field I32) (var_field I32)) }
    ensures var_const { (sub_at : SubTypes R) → ¬ (FieldMatches sub_at (var_field I32) (const_field I32)) }
    ensures packed { (sub_at : SubTypes R) (mutable : Bool)
        → FieldMatches sub_at (record { element_type = I8; mutable = mutable }) (record { element_type = I8; mutable = mutable }) }
    ensures wide_packed { (sub_at : SubTypes R) (mutable : Bool)
        → FieldMatches sub_at (record { element_type = I16; mutable = mutable }) (record { element_type = I16; mutable = mutable }) }
    ensures packed_mixed { (sub_at : SubTypes R) (mutable : Bool)
        → ¬ (FieldMatches sub_at (record { element_type = I8; mutable = mutable }) (record { element_type = I16; mutable = mutable })) }
    ensures i8 { (sub_at : SubTypes R) (b : StorageType R) → StorageBelow sub_at I8 b → b ≡ I8 }
    ensures i16 { (sub_at : SubTypes R) (b : StorageType R) → StorageBelow sub_at I16 b → b ≡ I16 }
    ensures value { (sub_at : SubTypes R) (a : ValType R) (b : StorageType R) → StorageBelow sub_at (Val a) b → (c : ValType R) × (b ≡ Val c) }
{}

/// A structure may have further fields after those of the other; a function may take more general values and give more special ones, of the
/// same number; and kinds don't mix.
pub fn composite_types<R>()
    ensures wider { (sub_at : SubTypes R) → CompositeMatches sub_at (StructComposite (const_field I32 ∷ var_field I64 ∷ [])) (StructComposite (const_field I32 ∷ [])) }
    ensures narrower { (sub_at : SubTypes R) → ¬ (CompositeMatches sub_at (StructComposite (const_field I32 ∷ [])) (StructComposite (const_field I32 ∷ var_field I64 ∷ []))) }
    ensures before { (sub_at : SubTypes R) → ¬ (CompositeMatches sub_at (StructComposite (const_field I64 ∷ const_field I32 ∷ [])) (StructComposite (const_field I32 ∷ []))) }
    ensures array { (sub_at : SubTypes R) → CompositeMatches sub_at (ArrayComposite (const_field (ref_null (Abstract Array)))) (ArrayComposite (const_field (ref_null (Abstract Eq)))) }
    ensures params { (sub_at : SubTypes R) → CompositeMatches sub_at (FuncComposite (takes (any ∷ []))) (FuncComposite (takes (any_structure ∷ []))) }
    ensures params_narrowed { (sub_at : SubTypes R) → ¬ (CompositeMatches sub_at (FuncComposite (takes (any_structure ∷ []))) (FuncComposite (takes (any ∷ [])))) }
    ensures results { (sub_at : SubTypes R) → CompositeMatches sub_at (FuncComposite (gives (any_structure ∷ []))) (FuncComposite (gives (any ∷ []))) }
    ensures results_widened { (sub_at : SubTypes R) → ¬ (CompositeMatches sub_at (FuncComposite (gives (any ∷ []))) (FuncComposite (gives (any_structure ∷ [])))) }
    ensures more_params { (sub_at : SubTypes R) → ¬ (CompositeMatches sub_at (FuncComposite (takes (I32 ∷ I32 ∷ []))) (FuncComposite (takes (I32 ∷ [])))) }
    ensures fewer_params { (sub_at : SubTypes R) → ¬ (CompositeMatches sub_at (FuncComposite (takes (I32 ∷ []))) (FuncComposite (takes (I32 ∷ I32 ∷ [])))) }
    ensures more_results { (sub_at : SubTypes R) → ¬ (CompositeMatches sub_at (FuncComposite (gives (I32 ∷ I32 ∷ []))) (FuncComposite (gives (I32 ∷ [])))) }
    ensures fewer_results { (sub_at : SubTypes R) → ¬ (CompositeMatches sub_at (FuncComposite (gives (I32 ∷ []))) (FuncComposite (gives (I32 ∷ I32 ∷ [])))) }
    ensures continuation { (sub_at : SubTypes R) (r : R) → CompositeMatches sub_at (ContComposite r) (ContComposite r) }
    ensures two_kinds { (sub_at : SubTypes R) → ¬ (CompositeMatches sub_at (StructComposite (const_field I32 ∷ [])) (ArrayComposite (const_field I32))) }
{}

/// A structure with one more field than its declared supertype: it matches that one, and is below it.
pub fn wider_structures()
    ensures well_formed { IsWellFormedGroup default_features [] (Group (open_type one_field ∷ open_below 0 two_fields ∷ [])) }
    ensures by_index { HeapBelow (slice_get (open_type one_field ∷ open_below 0 two_fields ∷ [])) (Concrete 1) (Concrete 0) }
    ensures below { HeapBelow unrolled
        (Concrete (type_at (section_types (Group (open_type one_field ∷ open_below 0 two_fields ∷ []) ∷ [])) 1))
        (Concrete (type_at (section_types (Group (open_type one_field ∷ open_below 0 two_fields ∷ []) ∷ [])) 0)) }
    ensures narrower { (features : Features) → ¬ (KeepsGroupRules features [] (Group (open_type two_fields ∷ open_below 0 one_field ∷ []))) }
{}

/// A supertype is open and stands before its subtype, and a type has one of them at most.
pub fn supertypes()
    ensures earlier { KeepsGroupRules default_features [] (Group (open_type empty_structure ∷ open_below 0 empty_structure ∷ [])) }
    ensures later { (features : Features) → ¬ (KeepsGroupRules features [] (Group (open_below 1 empty_structure ∷ open_type empty_structure ∷ []))) }
    ensures own { (features : Features) → ¬ (KeepsGroupRules features [] (Single (open_below 0 empty_structure))) }
    ensures final_supertype { (features : Features) → ¬ (KeepsGroupRules features [] (Group (final_type empty_structure ∷ open_below 0 empty_structure ∷ []))) }
    ensures two { (features : Features) → ¬ (KeepsGroupRules features []
        (Group (open_type empty_structure ∷ open_type empty_structure
        ∷ record { is_final = false; supertypes = 0 ∷ 1 ∷ []; composite_type = empty_structure } ∷ []))) }
    ensures other_kind { (features : Features) → ¬ (KeepsGroupRules features [] (Group (open_type empty_structure ∷ open_below 0 (ArrayComposite (const_field I32)) ∷ []))) }
{}

/// References name earlier types, and with the feature for garbage collection types of the own group, also later ones.
pub fn group_references()
    ensures earlier { KeepsGroupRules 0x8008 (section_types (Single (of_params 0) ∷ [])) (Single (final_type (FuncComposite (takes (ref_null (Concrete 0) ∷ []))))) }
    ensures own { KeepsGroupRules 0x18008 [] (Single (final_type (FuncComposite (takes (ref_null (Concrete 0) ∷ []))))) }
    ensures own_without_gc { ¬ (KeepsGroupRules 0x8008 [] (Single (final_type (FuncComposite (takes (ref_null (Concrete 0) ∷ [])))))) }
    ensures later { KeepsGroupRules default_features [] (pair_from 0 1) }
    ensures past_the_group { (features : Features) → ¬ (KeepsGroupRules features [] (pair_from 0 2)) }

    // The features of the first examples, without and with garbage collection.
    ensures features { bit_of ReferenceTypes + bit_of FunctionReferences ≡ 0x8008 }
    ensures features_with_gc { bit_of ReferenceTypes + bit_of FunctionReferences + bit_of Gc ≡ 0x18008 }
{}

/// A continuation type matches another where its function type is below that of the other.
pub fn continuation_types()
    ensures below { CompositeMatches (slice_get (open_type empty_function ∷ open_below 0 empty_function ∷ [])) (ContComposite 1) (ContComposite 0) }
    ensures above { ¬ (CompositeMatches (slice_get (open_type empty_function ∷ open_below 0 empty_function ∷ [])) (ContComposite 0) (ContComposite 1)) }
{}

/// A continuation type goes on with a function type, where the feature for it is on.
pub fn continuations()
    ensures function { KeepsGroupRules 0x220000 (section_types (Single (of_params 0) ∷ [])) (Single (final_type (ContComposite 0))) }
    ensures structure { (features : Features) → ¬ (KeepsGroupRules features (section_types (Single (final_type empty_structure) ∷ [])) (Single (final_type (ContComposite 0)))) }
    ensures array { (features : Features) → ¬ (KeepsGroupRules features (section_types (Single (final_type (ArrayComposite (const_field I32))) ∷ [])) (Single (final_type (ContComposite 0)))) }
    ensures without { ¬ (KeepsGroupRules default_features (section_types (Single (of_params 0) ∷ [])) (Single (final_type (ContComposite 0)))) }
    ensures features { bit_of GcTypes + bit_of StackSwitching ≡ 0x220000 }
{}

/// A group may keep all rules and pass a limit.
pub fn group_limits()
    ensures rules { (features : Features) (n : ℕ) → KeepsGroupRules features [] (Single (of_params n)) }
    ensures most_params { IsWithinGroupLimits [] (Single (of_params 1000)) }
    ensures many_params { ¬ (IsWithinGroupLimits [] (Single (of_params 1001))) }
    ensures middle { ¬ (IsWithinGroupLimits [] (Group (of_params 0 ∷ of_params 1001 ∷ of_params 0 ∷ []))) }
    ensures well_formed { (features : Features) → IsWellFormedGroup features [] (Single (of_params 1000)) }
    ensures refused { (features : Features) → ¬ (IsWellFormedGroup features [] (Single (of_params 1001))) }
{}

/// A type may have 63 declared links above it, and no more: in a chain of 64 structures all are within limits, and in one of 65 the last isn't.
pub fn depth_limits()
    ensures most_links { IsWithinGroupLimits [] (chain 63) }
    ensures many_links { ¬ (IsWithinGroupLimits [] (chain 64)) }
{}
