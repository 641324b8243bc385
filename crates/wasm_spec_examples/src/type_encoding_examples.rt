//! Worked examples of the encodings of types.

ghost use Rattle.std.specs.Prelude.{◌≡◌, [], ◌∷◌, true, false};
ghost use Rattle.wasm_spec.specs.TypeEncodings.{func_encoding, composite_encoding, sub_encoding, group_encoding};
ghost use Rattle.wasm_spec.specs.Types.{Abstract, Concrete, Func, I32, I64, F32, F64, V128, Ref, I8, I16, Val, StructComposite, ArrayComposite, ContComposite};

/// Types, written by hand.
pub fn type_encodings()
    ensures no_values { func_encoding (record { params = []; results = [] }) ≡ 0x60 ∷ 0x00 ∷ 0x00 ∷ [] }
    ensures values { func_encoding (record { params = I32 ∷ F64 ∷ V128 ∷ []; results = I64 ∷ F32 ∷ [] })
        ≡ 0x60 ∷ 0x03 ∷ 0x7f ∷ 0x7c ∷ 0x7b ∷ 0x02 ∷ 0x7e ∷ 0x7d ∷ [] }

    // References to all functions and to type 100, which may be null and which may not.
    ensures references { func_encoding (record {
      params = Ref true (Abstract Func) ∷ Ref false (Abstract Func) ∷ [];
      results = Ref true (Concrete 100) ∷ Ref false (Concrete 100) ∷ [];
    })
        ≡ 0x60 ∷ 0x02 ∷ 0x70 ∷ 0x64 ∷ 0x70 ∷ 0x02 ∷ 0x63 ∷ 0xe4 ∷ 0x00 ∷ 0x64 ∷ 0xe4 ∷ 0x00 ∷ [] }
    ensures structure { composite_encoding (StructComposite (record { element_type = Val I32; mutable = false } ∷ record { element_type = I16; mutable = true } ∷ []))
        ≡ 0x5f ∷ 0x02 ∷ 0x7f ∷ 0x00 ∷ 0x77 ∷ 0x01 ∷ [] }
    ensures array { composite_encoding (ArrayComposite (record { element_type = I8; mutable = true })) ≡ 0x5e ∷ 0x78 ∷ 0x01 ∷ [] }
    ensures continuation { composite_encoding (ContComposite 64) ≡ 0x5d ∷ 0xc0 ∷ 0x00 ∷ [] }

    // An open type, one below it, and a final one below type 200.
    ensures open_alone { sub_encoding (record { is_final = false; supertypes = []; composite_type = StructComposite [] }) ≡ 0x50 ∷ 0x00 ∷ 0x5f ∷ 0x00 ∷ [] }
    ensures open_below { sub_encoding (record { is_final = false; supertypes = 0 ∷ []; composite_type = StructComposite (record { element_type = Val I32; mutable = false } ∷ []) })
        ≡ 0x50 ∷ 0x01 ∷ 0x00 ∷ 0x5f ∷ 0x01 ∷ 0x7f ∷ 0x00 ∷ [] }
    ensures final_below { sub_encoding (record { is_final = true; supertypes = 200 ∷ []; composite_type = StructComposite [] })
        ≡ 0x4f ∷ 0x01 ∷ 0xc8 ∷ 0x01 ∷ 0x5f ∷ 0x00 ∷ [] }
    ensures final_alone { sub_encoding (record { is_final = true; supertypes = []; composite_type = StructComposite [] }) ≡ 0x5f ∷ 0x00 ∷ [] }

    // A group of one, and two structures that refer to each other.
    ensures group_of_one { group_encoding (record { is_final = true; supertypes = []; composite_type = StructComposite [] } ∷ []) ≡ 0x4e ∷ 0x01 ∷ 0x5f ∷ 0x00 ∷ [] }
    ensures group_of_two { group_encoding
        (record { is_final = true; supertypes = []; composite_type = StructComposite (record { element_type = Val (Ref true (Concrete 1)); mutable = false } ∷ []) }
        ∷ record { is_final = true; supertypes = []; composite_type = StructComposite (record { element_type = Val (Ref true (Concrete 0)); mutable = false } ∷ []) }
        ∷ [])
        ≡ 0x4e ∷ 0x02 ∷ 0x5f ∷ 0x01 ∷ 0x63 ∷ 0x01 ∷ 0x00 ∷ 0x5f ∷ 0x01 ∷ 0x63 ∷ 0x00 ∷ 0x00 ∷ [] }
{}
