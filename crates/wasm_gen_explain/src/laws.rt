//! Laws of places. The functions do nothing: their contracts are theorems.

ghost use Rattle.std.specs.Prelude.{◌≡◌, ◌↔◌, ℕ, List, [], true};
ghost use Rattle.wasm_bodies.specs.OperatorGrammar.{IsCode, is_among_codes};
ghost use Rattle.wasm_bodies.specs.OperatorRows.{OperatorCode};
ghost use Rattle.wasm_spec.specs.Features.{Features};
ghost use Rattle.wasm_gen_explain.specs.LargeIndexes.{IsLargePlace};
ghost use Rattle.wasm_gen_explain.specs.Operators.{code_name};
ghost use Rattle.wasm_gen_explain.specs.Places.{IsPlace};
ghost use Rattle.wasm_gen_explain.specs.Text.{place_text};
ghost use Rattle.wasm_gen_explain.specs.declared.place.Place.{Place};

/// A code has a name exactly where an operator has the code.
pub fn named_exactly()
    ensures { (encoding : List ℕ) (code : OperatorCode) → IsCode encoding code → (is_among_codes code ≡ true) ↔ ¬ (code_name code ≡ []) }
{}

/// Two places at an offset of some bytes have the same text, unless one is an entry or operator that reads, and is refused for the index of a type in it.
pub fn one_place()
    ensures { (features : Features) (bytes : List ℕ) (offset : ℕ) (place other : Place) (is : IsPlace features bytes offset place) (also : IsPlace features bytes offset other) → ¬ (IsLargePlace features bytes offset place is) → ¬ (IsLargePlace features bytes offset other also) → place_text place ≡ place_text other }
{}
