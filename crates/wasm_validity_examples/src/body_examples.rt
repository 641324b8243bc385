//! Worked examples of bodies: the three kinds of those that aren't well typed.

ghost use Rattle.std.specs.Prelude.{◌≤◌, ◌++◌, ℕ, List, [], ◌∷◌, length};
ghost use Rattle.wasm_spec.specs.Features.{Features};
ghost use Rattle.wasm_spec.specs.Grammar.{header};
ghost use Rattle.wasm_spec.specs.Syntax.{Section};
ghost use Rattle.wasm_spec.specs.Types.{FuncType, I32};
ghost use Rattle.wasm_spec_examples.specs.TypeExamples.{gives, takes};
ghost use Rattle.wasm_validity.specs.Modules.{HasBody, IsBodyPast, IsBrokenBody, IsOtherBody, IsTypedBody};
ghost use Rattle.wasm_validity_examples.specs.ModuleExamples.{one_type};

/// A body without an end is broken. What is broken is of no other kind.
pub fn broken_bodies()
    ensures no_end { (features : Features) (sections : List Section) → IsBrokenBody features sections (takes []) (0x00 ∷ []) }
    ensures no_result { (features : Features) → ¬ (IsTypedBody features one_type (gives (I32 ∷ [])) (0x00 ∷ 0x0b ∷ [])) }
    ensures not_typed { (features : Features) (type : FuncType ℕ) (body : List ℕ) → IsBrokenBody features one_type type body → ¬ (IsTypedBody features one_type type body) }
    ensures not_past { (features : Features) (type : FuncType ℕ) (body : List ℕ) → IsBrokenBody features one_type type body → ¬ (IsBodyPast features one_type type body) }
    ensures not_other { (features : Features) (type : FuncType ℕ) (body : List ℕ) → IsBrokenBody features one_type type body → ¬ (IsOtherBody features one_type type body) }
{}

/// A body of 50,001 locals has too many, and is of no other kind.
pub fn bodies_past()
    ensures past { (features : Features) (sections : List Section) (type : FuncType ℕ) → IsBodyPast features sections type (0x01 ∷ 0xd1 ∷ 0x86 ∷ 0x03 ∷ 0x7f ∷ 0x00 ∷ 0x0b ∷ []) }
    ensures not_typed { (features : Features) (type : FuncType ℕ) → ¬ (IsTypedBody features one_type type (0x01 ∷ 0xd1 ∷ 0x86 ∷ 0x03 ∷ 0x7f ∷ 0x00 ∷ 0x0b ∷ [])) }
    ensures not_other { (features : Features) (type : FuncType ℕ) → ¬ (IsOtherBody features one_type type (0x01 ∷ 0xd1 ∷ 0x86 ∷ 0x03 ∷ 0x7f ∷ 0x00 ∷ 0x0b ∷ [])) }
    ensures not_broken { (features : Features) (type : FuncType ℕ) → ¬ (IsBrokenBody features one_type type (0x01 ∷ 0xd1 ∷ 0x86 ∷ 0x03 ∷ 0x7f ∷ 0x00 ∷ 0x0b ∷ [])) }
{}

/// A body with a code that no operator has is of no other kind, where its parameters aren't too many.
pub fn other_bodies()
    ensures other { (features : Features) (sections : List Section) → IsOtherBody features sections (takes []) (0x00 ∷ 0xfe ∷ 0x03 ∷ 0x00 ∷ 0x0b ∷ []) }
    ensures not_typed { (features : Features) (type : FuncType ℕ) → ¬ (IsTypedBody features one_type type (0x00 ∷ 0xfe ∷ 0x03 ∷ 0x00 ∷ 0x0b ∷ [])) }
    ensures not_past { (features : Features) (type : FuncType ℕ) → length type.params ≤ 50000 → ¬ (IsBodyPast features one_type type (0x00 ∷ 0xfe ∷ 0x03 ∷ 0x00 ∷ 0x0b ∷ [])) }
    ensures not_broken { (features : Features) → ¬ (IsBrokenBody features one_type (takes []) (0x00 ∷ 0xfe ∷ 0x03 ∷ 0x00 ∷ 0x0b ∷ [])) }
{}

/// Bytes that read as a module with a body of each kind.
pub fn modules_of_kinds()
    ensures broken { (features : Features) → HasBody features (IsBrokenBody features)
        (header ++ (0x01 ∷ 0x04 ∷ 0x01 ∷ 0x60 ∷ 0x00 ∷ 0x00 ∷ 0x03 ∷ 0x02 ∷ 0x01 ∷ 0x00 ∷ 0x0a ∷ 0x03 ∷ 0x01 ∷ 0x01 ∷ 0x00 ∷ [])) }
    ensures past { (features : Features) → HasBody features (IsBodyPast features)
        (header ++ (0x01 ∷ 0x04 ∷ 0x01 ∷ 0x60 ∷ 0x00 ∷ 0x00 ∷ 0x03 ∷ 0x02 ∷ 0x01 ∷ 0x00 ∷ 0x0a ∷ 0x09 ∷ 0x01 ∷ 0x07 ∷ 0x01 ∷ 0xd1 ∷ 0x86 ∷ 0x03 ∷ 0x7f ∷ 0x00 ∷ 0x0b ∷ [])) }
    ensures other { (features : Features) → HasBody features (IsOtherBody features)
        (header ++ (0x01 ∷ 0x04 ∷ 0x01 ∷ 0x60 ∷ 0x00 ∷ 0x00 ∷ 0x03 ∷ 0x02 ∷ 0x01 ∷ 0x00 ∷ 0x0a ∷ 0x07 ∷ 0x01 ∷ 0x05 ∷ 0x00 ∷ 0xfe ∷ 0x03 ∷ 0x00 ∷ 0x0b ∷ [])) }
{}
