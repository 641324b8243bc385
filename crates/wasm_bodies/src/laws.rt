//! Laws of the typing and the codes of operators.

ghost use Rattle.std.specs.Prelude.{◌≡◌, ◌++◌, ℕ, List, true};
ghost use Rattle.wasm_bodies.specs.Bodies.{Code, IsFunctionBody, Judged};
ghost use Rattle.wasm_bodies.specs.BodyContext.{BodyContext, ModuleItems};
ghost use Rattle.wasm_bodies.specs.Effects.{Labels};
ghost use Rattle.wasm_bodies.specs.Operands.{State};
ghost use Rattle.wasm_bodies.specs.OperatorGrammar.{IsOperator, IsOtherCode};
ghost use Rattle.wasm_bodies.specs.Operators.{Operator};
ghost use Rattle.wasm_spec.specs.Features.{Features, Flag, has};
ghost use Rattle.wasm_spec.specs.Types.{FuncType};

/// From a state, code leads to one state at most.
pub fn one_state()
    ensures one { (cx : BodyContext ℕ) (labels : Labels ℕ) (s : State ℕ) (code : Code) (a b : State ℕ) → Judged cx labels s code a → Judged cx labels s code b → a ≡ b }
{}

/// A body that is well typed under features is so under more of them.
pub fn more_features()
    ensures stays { (fewer more : Features) (items : ModuleItems ℕ) (type : FuncType ℕ) (bytes : List ℕ)
        → ((flag : Flag) → has fewer flag ≡ true → has more flag ≡ true) → IsFunctionBody fewer items type bytes → IsFunctionBody more items type bytes }
{}

/// What begins with a code that no operator has is no operator.
pub fn other_codes()
    ensures none { (features : Features) (other rest : List ℕ) (operator : Operator ℕ) → IsOtherCode other → ¬ (IsOperator features (other ++ rest) operator) }
{}
