//! Laws of the encodings of instructions. The functions do nothing: their contracts are theorems.

ghost use Rattle.std.specs.Prelude.{◌<◌, ◌^◌, ℕ, List, length};
ghost use Rattle.std.specs.List.{AllByRecursion, flat_map};
ghost use Rattle.wasm_bodies.specs.OperatorGrammar.{IsOperator, IsOperators};
ghost use Rattle.wasm_bodies.specs.Operators.{Operator};
ghost use Rattle.wasm_encoder_instructions.specs.OperatorEncodings.{operator_encoding};
ghost use Rattle.wasm_encoder_instructions.specs.SmallOperators.{HasWholeImmediates, IsSmallOperator};
ghost use Rattle.wasm_spec.specs.Bytes.{IsShortest};
ghost use Rattle.wasm_spec.specs.Features.{Features};

/// What is written of an operator of the table is its shortest encoding, and so of operators one after the other, under all features that have its immediates whole.
pub fn shortest_operators()
    ensures one { (features : Features) → HasWholeImmediates features → (operator : Operator ℕ) → IsSmallOperator operator → length (operator_encoding operator) < 2 ^ 32
        → IsShortest (IsOperator features) (operator_encoding operator) operator }
    ensures several { (features : Features) → HasWholeImmediates features → (operators : List (Operator ℕ)) → AllByRecursion IsSmallOperator operators → length (flat_map operator_encoding operators) < 2 ^ 32
        → IsShortest (IsOperators features) (flat_map operator_encoding operators) operators }
{}
