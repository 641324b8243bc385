//! Which flags types ask for: each example is allowed exactly where its flags are all on.

ghost use Rattle.std.specs.Prelude.{◌≡◌, ◌&&◌, ◌||◌, ℕ, Bool, true, false, [], ◌∷◌};
ghost use Rattle.std.specs.List.{AllByRecursion};
ghost use Rattle.wasm_spec.specs.Features.{Features, Exceptions, Floats, FunctionReferences, Gc, GcTypes, MultiValue, ReferenceTypes, Simd, StackSwitching, has};
ghost use Rattle.wasm_spec.specs.Gates.{is_allowed, is_allowed_composite, is_allowed_func, is_allowed_group, is_allowed_sub};
ghost use Rattle.wasm_spec.specs.Types.{Abstract, Any, Array, ArrayComposite, Concrete, Cont, ContComposite, Eq, Exn, Extern, F32, F64, Func, FuncComposite, Group, I16, I31, I32, I64, I8, NoCont, NoExn, NoExtern, NoFunc, None, Ref, Struct, StructComposite, V128, Val};
ghost use Rattle.wasm_spec_examples.specs.Examples.{AsksFor, final_type, no_values};

/// Numbers and vectors.
pub fn numbers()
    ensures i32 { AsksFor [] (λ features. is_allowed {R = ℕ} features I32) }
    ensures i64 { AsksFor [] (λ features. is_allowed {R = ℕ} features I64) }
    ensures f32 { AsksFor (Floats ∷ []) (λ features. is_allowed {R = ℕ} features F32) }
    ensures f64 { AsksFor (Floats ∷ []) (λ features. is_allowed {R = ℕ} features F64) }
    ensures v128 { AsksFor (Simd ∷ []) (λ features. is_allowed {R = ℕ} features V128) }
{}

/// References.
pub fn references()
    ensures function { AsksFor (ReferenceTypes ∷ []) (λ features. is_allowed {R = ℕ} features (Ref true (Abstract Func))) }
    ensures function_not_null { AsksFor (ReferenceTypes ∷ FunctionReferences ∷ []) (λ features. is_allowed {R = ℕ} features (Ref false (Abstract Func))) }
    ensures external { AsksFor (ReferenceTypes ∷ GcTypes ∷ []) (λ features. is_allowed {R = ℕ} features (Ref true (Abstract Extern))) }
    ensures external_not_null { AsksFor (ReferenceTypes ∷ GcTypes ∷ FunctionReferences ∷ []) (λ features. is_allowed {R = ℕ} features (Ref false (Abstract Extern))) }
    ensures collected { AllByRecursion (λ heap. (nullable : Bool) → AsksFor (ReferenceTypes ∷ GcTypes ∷ Gc ∷ []) (λ features. is_allowed {R = ℕ} features (Ref nullable (Abstract heap)))) (Any ∷ None ∷ NoExtern ∷ NoFunc ∷ Eq ∷ Struct ∷ Array ∷ I31 ∷ []) }
    ensures exception { (nullable : Bool) → AsksFor (ReferenceTypes ∷ Exceptions ∷ []) (λ features. is_allowed {R = ℕ} features (Ref nullable (Abstract Exn))) }
    ensures no_exception { (nullable : Bool) → AsksFor (ReferenceTypes ∷ GcTypes ∷ Exceptions ∷ []) (λ features. is_allowed {R = ℕ} features (Ref nullable (Abstract NoExn))) }
    ensures continuations { AllByRecursion (λ heap. (nullable : Bool) → AsksFor (ReferenceTypes ∷ GcTypes ∷ StackSwitching ∷ []) (λ features. is_allowed {R = ℕ} features (Ref nullable (Abstract heap)))) (Cont ∷ NoCont ∷ []) }

    // A reference to a type of the module's own asks for one of two flags, and for that of references.
    ensures concrete { (nullable : Bool) (index : ℕ) (features : Features) → is_allowed features (Ref nullable (Concrete index)) ≡ (has features ReferenceTypes && (has features Gc || has features FunctionReferences)) }
{}

/// Definitions of types.
pub fn definitions()
    ensures one_result { AsksFor [] (λ features. is_allowed_func {R = ℕ} features (record { params = I32 ∷ I32 ∷ []; results = I32 ∷ [] })) }
    ensures several_results { AsksFor (MultiValue ∷ []) (λ features. is_allowed_func {R = ℕ} features (record { params = []; results = I32 ∷ I32 ∷ [] })) }
    ensures parameter { AsksFor (Floats ∷ []) (λ features. is_allowed_func {R = ℕ} features (record { params = F32 ∷ []; results = [] })) }
    ensures result { AsksFor (Floats ∷ []) (λ features. is_allowed_func {R = ℕ} features (record { params = []; results = F32 ∷ [] })) }
    ensures structure { AsksFor (Gc ∷ GcTypes ∷ []) (λ features. is_allowed_composite {R = ℕ} features (StructComposite [])) }
    ensures structure_of_a_float { AsksFor (Gc ∷ GcTypes ∷ Floats ∷ []) (λ features. is_allowed_composite {R = ℕ} features (StructComposite (record { element_type = Val F32; mutable = true } ∷ []))) }
    ensures array { AsksFor (Gc ∷ GcTypes ∷ []) (λ features. is_allowed_composite {R = ℕ} features (ArrayComposite (record { element_type = I8; mutable = true }))) }
    ensures array_of_halves { AsksFor (Gc ∷ GcTypes ∷ []) (λ features. is_allowed_composite {R = ℕ} features (ArrayComposite (record { element_type = I16; mutable = false }))) }
    ensures array_of_floats { AsksFor (Gc ∷ GcTypes ∷ Floats ∷ []) (λ features. is_allowed_composite {R = ℕ} features (ArrayComposite (record { element_type = Val F32; mutable = true }))) }
    ensures continuation { (function : ℕ) → AsksFor (StackSwitching ∷ GcTypes ∷ []) (λ features. is_allowed_composite features (ContComposite function)) }
    ensures final_alone { AsksFor [] (λ features. is_allowed_sub features (final_type no_values)) }
    ensures not_final { AsksFor (Gc ∷ []) (λ features. is_allowed_sub {R = ℕ} features (record { is_final = false; supertypes = []; composite_type = no_values })) }
    ensures with_a_supertype { (index : ℕ) → AsksFor (Gc ∷ []) (λ features. is_allowed_sub features (record { is_final = true; supertypes = index ∷ []; composite_type = no_values })) }
    ensures group { AsksFor (Gc ∷ []) (λ features. is_allowed_group features (Group (final_type no_values ∷ []))) }
    ensures group_of_none { AsksFor (Gc ∷ []) (λ features. is_allowed_group {R = ℕ} features (Group [])) }
    ensures group_with_a_float { AsksFor (Gc ∷ Floats ∷ []) (λ features. is_allowed_group {R = ℕ} features (Group (final_type (FuncComposite (record { params = F32 ∷ []; results = [] })) ∷ []))) }
{}
