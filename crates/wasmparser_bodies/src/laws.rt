//! The outcome of validating bytes is what the rules on bodies say of them. The functions do nothing: their contracts are theorems. R is the kind of
//! references to defined types. The function's type is named by its index.

ghost use Rattle.std.specs.Prelude.{◌≡◌, ◌↔◌, ◌++◌, ⊤, ℕ, List, Result, Some, map};
ghost use Rattle.wasm_bodies.specs.Bodies.{AreLocals, HasManyLocals, HasOtherOperator, IsFunctionBody, Run, in_function, parameter};
ghost use Rattle.wasm_bodies.specs.BodyContext.{BodyContext, Local, ModuleItems, func_at};
ghost use Rattle.wasm_bodies_laws.specs.Machine.{Machine, at_start};
ghost use Rattle.wasm_core_read.specs.Input.{Input};
ghost use Rattle.wasm_spec.specs.Bytes.{AreBytes};
ghost use Rattle.wasm_spec.specs.Features.{Features};
ghost use Rattle.wasm_spec.specs.Types.{FuncType};
ghost use Rattle.wasmparser_bodies.specs.BodyAnswers.{AnswersOutcome, HasManyTypes, HasRightFront, IsBodyValidated, StandsAtItem, body_outcome};
ghost use Rattle.wasmparser_bodies.specs.BodyStates.{BodyState, IsAtStart, rest_outcome};
ghost use Rattle.wasmparser_bodies.specs.CodeReading.{Broken, Fine, HasOther, IsCode, ManyLocals, OtherOperator, code_outcome};
ghost use Rattle.wasmparser_bodies.specs.Fronts.{StopsInBody};
ghost use Rattle.wasmparser_bodies.specs.LocalsReading.{Declares, Locals, TooMany, locals_outcome};
ghost use Rattle.wasmparser_error.specs.declared.error.Error.{Error};

/// The outcome is the locals that runs at the front of the bytes declare, or that they are too many where the first runs are.
pub fn locals<R>()
    ensures found { (features : Features) (items : ModuleItems R) (type : FuncType R) (encoding rest : List ℕ) (runs : List Run) → AreLocals features items type encoding runs
        → locals_outcome features items (map parameter type.params) (encoding ++ rest) ≡ Locals (in_function features items type runs).locals rest }
    ensures declared { (features : Features) (items : ModuleItems R) (type : FuncType R) (bytes : List ℕ) (locals : List (Local R)) (rest : List ℕ) → AreBytes bytes
        → locals_outcome features items (map parameter type.params) bytes ≡ Locals locals rest → Declares features items type bytes locals rest }
    ensures past { (features : Features) (items : ModuleItems R) (type : FuncType R) (bytes : List ℕ) → AreBytes bytes
        → (locals_outcome features items (map parameter type.params) bytes ≡ TooMany) ↔ HasManyLocals features items type bytes }
{}

/// The outcome of code is fine exactly where it is operators of a body, and another operator exactly where it has another code.
pub fn code<R>()
    ensures fine { (cx : BodyContext R) (index : ℕ) (type : FuncType R) (bytes : List ℕ) → func_at cx.items index ≡ Some type → type.results ≡ cx.results → AreBytes bytes
        → (code_outcome cx (at_start index) bytes ≡ Fine) ↔ IsCode cx bytes }
    ensures other_operator { (cx : BodyContext R) (index : ℕ) (type : FuncType R) (bytes : List ℕ) → func_at cx.items index ≡ Some type → type.results ≡ cx.results → AreBytes bytes
        → (code_outcome cx (at_start index) bytes ≡ OtherOperator) ↔ HasOther cx bytes }
    ensures no_locals { (cx : BodyContext R) (m : Machine R) (bytes : List ℕ) → AreBytes bytes → ¬ (code_outcome cx m bytes ≡ ManyLocals) }
{}

/// The outcome of bytes is fine exactly where they are a body, and otherwise the rule that they break first.
pub fn bodies<R>()
    ensures fine { (features : Features) (items : ModuleItems R) (index : ℕ) (type : FuncType R) (bytes : List ℕ) → func_at items index ≡ Some type → AreBytes bytes
        → (body_outcome features items index bytes ≡ Fine) ↔ IsFunctionBody features items type bytes }
    ensures many_locals { (features : Features) (items : ModuleItems R) (index : ℕ) (type : FuncType R) (bytes : List ℕ) → func_at items index ≡ Some type → AreBytes bytes
        → (body_outcome features items index bytes ≡ ManyLocals) ↔ HasManyLocals features items type bytes }
    ensures other_operator { (features : Features) (items : ModuleItems R) (index : ℕ) (type : FuncType R) (bytes : List ℕ) → func_at items index ≡ Some type → AreBytes bytes
        → (body_outcome features items index bytes ≡ OtherOperator) ↔ HasOtherOperator features items type bytes }
    ensures broken { (features : Features) (items : ModuleItems R) (index : ℕ) (type : FuncType R) (bytes : List ℕ) → func_at items index ≡ Some type → AreBytes bytes
        → (body_outcome features items index bytes ≡ Broken)
        ↔ ((¬ (IsFunctionBody features items type bytes)) × (¬ (HasManyLocals features items type bytes)) × (¬ (HasOtherOperator features items type bytes))) }
{}

/// Where all types can be named, a result that is the outcome of the bytes is right. Where memory runs out, some body begins with the bytes up to the end of the item
/// there, however many types there are.
pub fn answers<R>()
    ensures validated { (features : Features) (items : ModuleItems R) (index : ℕ) (type : FuncType R) (body : Input) (answer : Result (Unit {0}) Error) → func_at items index ≡ Some type → AreBytes body.rest
        → AnswersOutcome ⊥ (λ (left : ℕ). ⊤) body answer (body_outcome features items index body.rest) → IsBodyValidated features items type body.rest body.position answer }
    ensures so_far { (features : Features) (items : ModuleItems R) (index : ℕ) (type : FuncType R) (body : Input) (answer : Result (Unit {0}) Error) → func_at items index ≡ Some type → AreBytes body.rest
        → AnswersOutcome (HasManyTypes items) (StopsInBody features items index body.rest) body answer (body_outcome features items index body.rest)
        → HasRightFront features items type (StandsAtItem features) body.rest body.position answer }
{}

/// Where nothing was validated, the rest is a whole body.
pub fn starts()
    ensures { (state : BodyState) (bytes : List ℕ) → IsAtStart state → rest_outcome state bytes ≡ body_outcome state.features state.items state.index bytes }
{}
