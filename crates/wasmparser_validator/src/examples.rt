//! Worked examples of what bodies are judged in over ids.

ghost use Rattle.std.specs.Prelude.{◌≡◌, ◌∷◌, [], None, Some, false, true};
ghost use Rattle.wasm_bodies.specs.BodyContext.{fields_at, func_at, reference_at, value_of};
ghost use Rattle.wasm_spec.specs.Features.{default_features};
ghost use Rattle.wasm_spec.specs.Types.{Concrete, Ref};
ghost use Rattle.wasmparser_validator.specs.Examples.{ids, interned, known, sub_types, table_of, takes, to, types, written_types};
ghost use Rattle.wasmparser_validator.specs.TypesById.{AreKnown, AreWritten, index_at, items_by_ids};
ghost use Rattle.wasmparser_types.specs.Index.{Id, Module};

/// Types that are known by their ids, where two type indexes stand for one type.
pub fn known_types()
    ensures written { AreWritten default_features types written_types }
    ensures known { AreKnown default_features types ids interned sub_types }
    ensures first { index_at ids 0 ≡ Id 0 }
    ensures second { index_at ids 1 ≡ Id 0 }
    ensures third { index_at ids 2 ≡ Id 1 }
    ensures none { index_at ids 4 ≡ Module 4 }
{}

/// Returns that bodies may name these.
pub fn known_items()
    ensures function { func_at (items_by_ids ids sub_types known) 3 ≡ Some (takes (value_of (to (Id 1)) ∷ [])) }
    ensures structure { fields_at (items_by_ids ids sub_types known) 1 ≡ Some [] }
    ensures reference { reference_at (items_by_ids ids sub_types known) false 1 ≡ Some (Ref false (Concrete (Id 0))) }
    ensures no_reference { reference_at (items_by_ids ids sub_types known) false 4 ≡ None }
    ensures functions { (items_by_ids ids sub_types known).functions ≡ 3 ∷ 3 ∷ [] }
    ensures tables { (items_by_ids ids sub_types known).tables ≡ table_of (to (Id 0)) ∷ [] }
    ensures globals { (items_by_ids ids sub_types known).globals ≡ record { value_type = Ref true (Concrete (Id 1)); mutable = true } ∷ [] }
    ensures elements { (items_by_ids ids sub_types known).elements ≡ to (Id 1) ∷ [] }
    ensures below { (items_by_ids ids sub_types known).is_below (value_of (to (Id 1))) (value_of (to (Id 0))) ≡ true }
    ensures not_below { (items_by_ids ids sub_types known).is_below (value_of (to (Id 0))) (value_of (to (Id 1))) ≡ false }
{}
