//! Laws of the definitions, and worked examples.

ghost use Rattle.std.specs.Prelude.{◌≡◌, ◌≤◌, ◌++◌, ℕ, Bool, List, [], ◌∷◌, length, true, false, map};
ghost use Rattle.wasm_spec.specs.Bytes.{IsByte, AreBytes, IsItems, IsUnsigned};
ghost use Rattle.wasm_spec.specs.Features.{Flag, FunctionReferences, Gc, StackSwitching, bit_of, has, default_features, is_default, needs_type_canonicalization};
ghost use Rattle.wasm_spec.specs.Grammar.{AreOrdered, IsModule, header};
ghost use Rattle.wasm_spec.specs.Spaces.{sizes_of, together};
ghost use Rattle.wasm_spec.specs.Syntax.{Section, Custom, TypeSection, FunctionSection, CodeSection};
ghost use Rattle.wasm_spec.specs.TypeGrammar.{IsValType, IsFuncType};
ghost use Rattle.wasm_spec.specs.Types.{Abstract, Func, Extern, Any, None, NoExtern, NoFunc, Eq, Struct, Array, I31, Exn, NoExn, Cont, NoCont, I32, I64, F32, F64, V128, Ref, FuncType, FuncComposite, SubType, RecGroup, Single};

/// The default set has exactly the flags that are on by default, no two flags are one bit, and exactly three
/// canonicalise types.
pub fn feature_sets()
    ensures apart { (a b : Flag) → has (bit_of a) b ≡ true → a ≡ b }
    ensures default { (flag : Flag) → has default_features flag ≡ is_default flag }
    ensures function_references { needs_type_canonicalization (bit_of FunctionReferences) ≡ true }
    ensures gc { needs_type_canonicalization (bit_of Gc) ≡ true }
    ensures stack_switching { needs_type_canonicalization (bit_of StackSwitching) ≡ true }
    ensures none { needs_type_canonicalization 0 ≡ false }

    // All flags but these three.
    ensures others { needs_type_canonicalization 0x1e7fff ≡ false }
{}

/// Small modules, read by hand.
pub fn small_modules()
    // The header alone is a module without sections.
    ensures empty { (compact : Bool) → IsModule compact (0x00 ∷ 0x61 ∷ 0x73 ∷ 0x6d ∷ 0x01 ∷ 0x00 ∷ 0x00 ∷ 0x00 ∷ []) [] }

    // A custom section with an empty name and nothing after it.
    ensures custom { (compact : Bool) → IsModule compact (header ++ (0x00 ∷ 0x01 ∷ 0x00 ∷ [])) (Custom [] [] ∷ []) }

    // The same with its size in two bytes, and a section "a" with the byte 7.
    ensures padded { (compact : Bool) → IsModule compact (header ++ (0x00 ∷ 0x81 ∷ 0x00 ∷ 0x00 ∷ 0x00 ∷ 0x03 ∷ 0x01 ∷ 0x61 ∷ 0x07 ∷ []))
        (Custom [] [] ∷ Custom (0x61 ∷ []) (0x07 ∷ []) ∷ []) }

    // One type without parameters and results, a function of it, and its body.
    ensures functions { (compact : Bool) → IsModule compact
        (header ++ (0x01 ∷ 0x04 ∷ 0x01 ∷ 0x60 ∷ 0x00 ∷ 0x00 ∷ 0x03 ∷ 0x02 ∷ 0x01 ∷ 0x00 ∷ 0x0a ∷ 0x05 ∷ 0x01 ∷ 0x03 ∷ 0x00 ∷ 0x00 ∷ 0x0b ∷ []))
        (TypeSection (Single (record { is_final = true; supertypes = []; composite_type = FuncComposite (record { params = []; results = [] }) }) ∷ [])
        ∷ FunctionSection (0 ∷ []) ∷ CodeSection ((0x00 ∷ 0x00 ∷ 0x0b ∷ []) ∷ []) ∷ []) }
{}

/// Types, read by hand.
pub fn small_types()
    // Three parameters and two results.
    ensures function { IsFuncType (0x60 ∷ 0x03 ∷ 0x7f ∷ 0x7c ∷ 0x7b ∷ 0x02 ∷ 0x7e ∷ 0x7d ∷ [])
        (record { params = I32 ∷ F64 ∷ V128 ∷ []; results = I64 ∷ F32 ∷ [] }) }
    ensures references { IsItems IsValType
        (0x75 ∷ 0x74 ∷ 0x73 ∷ 0x72 ∷ 0x71 ∷ 0x70 ∷ 0x6f ∷ 0x6e ∷ 0x6d ∷ 0x6c ∷ 0x6b ∷ 0x6a ∷ 0x69 ∷ 0x68 ∷ [])
        (map (λ heap. Ref true (Abstract heap)) (NoCont ∷ NoExn ∷ NoFunc ∷ NoExtern ∷ None ∷ Func ∷ Extern ∷ Any ∷ Eq ∷ I31 ∷ Struct ∷ Array ∷ Exn ∷ Cont ∷ [])) }
{}

/// Sections stand in their order, none of them twice, and custom ones anywhere; and each function has a body.
pub fn order()
    ensures kept { (groups : List (RecGroup ℕ)) (indexes : List ℕ) (bodies : List (List ℕ))
        → AreOrdered 0 (TypeSection groups ∷ FunctionSection indexes ∷ CodeSection bodies ∷ []) }
    ensures custom { (last : ℕ) (name contents : List ℕ) (sections : List Section)
        → AreOrdered last sections → AreOrdered last (Custom name contents ∷ sections) }
    ensures late_types { (groups : List (RecGroup ℕ)) (indexes : List ℕ) → ¬ (AreOrdered 0 (FunctionSection indexes ∷ TypeSection groups ∷ [])) }
    ensures late_functions { (indexes : List ℕ) (bodies : List (List ℕ)) → ¬ (AreOrdered 0 (CodeSection bodies ∷ FunctionSection indexes ∷ [])) }
    ensures twice { (name contents a b : List ℕ) → ¬ (AreOrdered 0 (FunctionSection a ∷ Custom name contents ∷ FunctionSection b ∷ [])) }
    ensures no_body { (compact : Bool) (bytes indexes : List ℕ) (index : ℕ) → ¬ (IsModule compact bytes (FunctionSection (index ∷ indexes) ∷ CodeSection [] ∷ [])) }
    ensures no_function { (compact : Bool) (bytes body : List ℕ) → ¬ (IsModule compact bytes (CodeSection (body ∷ []) ∷ [])) }
{}

/// The encoding of a module is bytes; and what modules show.
pub fn modules()
    ensures bytes { (compact : Bool) (encoding : List ℕ) (sections : List Section) → IsModule compact encoding sections → AreBytes encoding }

    // One type, two functions, and their bodies.
    ensures spaces { (type : SubType ℕ) (a b : ℕ) (bodies : List (List ℕ)) (name contents : List ℕ)
        → sizes_of (Custom name contents ∷ TypeSection (Single type ∷ []) ∷ FunctionSection (a ∷ b ∷ []) ∷ CodeSection bodies ∷ [])
        ≡ record { types = 1; functions = 2; tables = 0; memories = 0; globals = 0; tags = 0; elements = 0; exports = 0 } }
    ensures added { together
        (record { types = 1; functions = 2; tables = 3; memories = 4; globals = 5; tags = 6; elements = 7; exports = 8 })
        (record { types = 10; functions = 20; tables = 30; memories = 40; globals = 50; tags = 60; elements = 70; exports = 80 })
        ≡ record { types = 11; functions = 22; tables = 33; memories = 44; globals = 55; tags = 66; elements = 77; exports = 88 } }
{}

/// Bytes, and numbers of 32 bits: padding goes to five bytes, the last of which has four bits.
pub fn small_numbers()
    ensures byte { IsByte 255 }
    ensures no_byte { ¬ (IsByte 256) }
    ensures padded { IsUnsigned 32 (0x84 ∷ 0x80 ∷ 0x80 ∷ 0x80 ∷ 0x00 ∷ []) 4 }
    ensures greatest { IsUnsigned 32 (0xff ∷ 0xff ∷ 0xff ∷ 0xff ∷ 0x0f ∷ []) 4294967295 }
    ensures empty { (n : ℕ) → ¬ (IsUnsigned 32 [] n) }
    ensures another { ¬ (IsUnsigned 32 (0x84 ∷ 0x80 ∷ 0x80 ∷ 0x80 ∷ 0x00 ∷ []) 5) }
    ensures too_long { (n : ℕ) → ¬ (IsUnsigned 32 (0x84 ∷ 0x80 ∷ 0x80 ∷ 0x80 ∷ 0x80 ∷ 0x00 ∷ []) n) }
    ensures unused_bits { (n : ℕ) → ¬ (IsUnsigned 32 (0x84 ∷ 0x80 ∷ 0x80 ∷ 0x80 ∷ 0x10 ∷ []) n) }
{}
