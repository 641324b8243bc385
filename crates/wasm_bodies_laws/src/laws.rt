//! Bodies taken operator by operator. The functions do nothing: their contracts are theorems. R is the kind of
//! references to defined types. The function's type is named by its index, and the context has its results.

ghost use Rattle.std.specs.Prelude.{◌≡◌, ◌≢◌, ◌↔◌, ◌++◌, ℕ, List, [], ◌∷◌, None, Some};
ghost use Rattle.std.specs.Option.{option_and_then};
ghost use Rattle.wasm_bodies.specs.Bodies.{IsBegun, IsBodyOf};
ghost use Rattle.wasm_bodies.specs.BodyContext.{BodyContext, func_at};
ghost use Rattle.wasm_bodies.specs.Effects.{Labels};
ghost use Rattle.wasm_bodies.specs.Operands.{State};
ghost use Rattle.wasm_bodies.specs.Operators.{Operator};
ghost use Rattle.wasm_bodies_laws.specs.Machine.{IsClosedBy, IsOpenAfter, Machine, at_start, run, stepped};
ghost use Rattle.wasm_spec.specs.Types.{FuncType};

/// Operators are those of a body exactly where they close all that they open, and the body.
pub fn whole<R>()
    ensures { (cx : BodyContext R) (type : ℕ) (signature : FuncType R) (operators : List (Operator ℕ))
        → func_at cx.items type ≡ Some signature → signature.results ≡ cx.results → IsBodyOf cx operators ↔ IsClosedBy cx type operators }
{}

/// Some body begins with operators, and isn't yet whole, exactly where they leave something open; the labels and the
/// state are those that they lead to.
pub fn begun<R>()
    ensures { (cx : BodyContext R) (type : ℕ) (signature : FuncType R) (operators : List (Operator ℕ)) (labels : Labels R) (s : State R)
        → func_at cx.items type ≡ Some signature → signature.results ≡ cx.results → IsBegun cx operators labels s ↔ IsOpenAfter cx type operators labels s }
{}

/// Operators are taken one after the other. What is refused is refused whatever follows, and after the body's end all is.
#[tactic(auto, using(crate::proofs::Whole::step_laws))]
pub fn steps<R>()
    ensures joined { (cx : BodyContext R) (operators others : List (Operator ℕ)) (m : Machine R)
        → run cx (operators ++ others) m ≡ option_and_then (run cx others) (run cx operators m) }
    ensures one { (cx : BodyContext R) (operators : List (Operator ℕ)) (operator : Operator ℕ) (m n : Machine R)
        → run cx operators m ≡ Some n → run cx (operators ++ operator ∷ []) m ≡ stepped cx n operator }
    ensures refused { (cx : BodyContext R) (operators : List (Operator ℕ)) (operator : Operator ℕ) (rest : List (Operator ℕ)) (m n : Machine R)
        → run cx operators m ≡ Some n → stepped cx n operator ≡ None → run cx (operators ++ operator ∷ rest) m ≡ None }
    ensures past_the_end { (cx : BodyContext R) (m : Machine R) (operator : Operator ℕ) → m.frames ≡ [] → stepped cx m operator ≡ None }
{}

/// Operators that are refused are no body, and none begins with them; what leaves something open is no body.
pub fn refusals<R>()
    ensures no_body { (cx : BodyContext R) (type : ℕ) (signature : FuncType R) (operators : List (Operator ℕ))
        → func_at cx.items type ≡ Some signature → signature.results ≡ cx.results → run cx operators (at_start type) ≡ None → ¬ (IsBodyOf cx operators) }
    ensures never_follows { (cx : BodyContext R) (type : ℕ) (signature : FuncType R) (operators : List (Operator ℕ)) (operator : Operator ℕ) (rest : List (Operator ℕ)) (m : Machine R)
        → func_at cx.items type ≡ Some signature → signature.results ≡ cx.results → run cx operators (at_start type) ≡ Some m → stepped cx m operator ≡ None
        → ¬ (IsBodyOf cx (operators ++ operator ∷ rest)) }
    ensures no_beginning { (cx : BodyContext R) (type : ℕ) (signature : FuncType R) (operators : List (Operator ℕ)) (labels : Labels R) (s : State R)
        → func_at cx.items type ≡ Some signature → signature.results ≡ cx.results → run cx operators (at_start type) ≡ None → ¬ (IsBegun cx operators labels s) }
    ensures left_open { (cx : BodyContext R) (type : ℕ) (signature : FuncType R) (operators : List (Operator ℕ)) (m : Machine R)
        → func_at cx.items type ≡ Some signature → signature.results ≡ cx.results → run cx operators (at_start type) ≡ Some m → m.frames ≢ [] → ¬ (IsBodyOf cx operators) }
{}

/// First operators lead to one place. Each first part of a body is begun, and no body goes on after another.
pub fn parts<R>()
    ensures one_place { (cx : BodyContext R) (type : ℕ) (signature : FuncType R) (operators : List (Operator ℕ)) (at labels : Labels R) (last s : State R)
        → func_at cx.items type ≡ Some signature → signature.results ≡ cx.results → IsBegun cx operators at last → IsBegun cx operators labels s → (at ≡ labels) × (last ≡ s) }
    ensures each_begun { (cx : BodyContext R) (type : ℕ) (signature : FuncType R) (operators : List (Operator ℕ)) (operator : Operator ℕ) (rest : List (Operator ℕ))
        → func_at cx.items type ≡ Some signature → signature.results ≡ cx.results → IsBodyOf cx (operators ++ operator ∷ rest) → (labels : Labels R) × (s : State R) × IsBegun cx operators labels s }
    ensures no_more { (cx : BodyContext R) (type : ℕ) (signature : FuncType R) (operators others : List (Operator ℕ))
        → func_at cx.items type ≡ Some signature → signature.results ≡ cx.results → IsBodyOf cx operators → IsBodyOf cx (operators ++ others) → others ≡ [] }
{}
