//! Laws of bodies over several kinds of references to defined types. The functions do nothing: their contracts are theorems. R and S are kinds of
//! references, and f takes those of R to those of S. It needn't be one to one, for the typing of bodies asks only which types are below which; and it
//! asks this only of types that may be wanted of an operand. Which these are, a test says.

ghost use Rattle.std.specs.Prelude.{◌≡◌, ◌↔◌, ℕ, Bool, true, false, List, [], Some};
ghost use Rattle.std.specs.Option.{option_map};
ghost use Rattle.wasm_bodies.specs.Bodies.{HasManyLocals, HasOtherOperator, IsBegun, IsBodyOf, IsFunctionBody, Run, entered, in_function};
ghost use Rattle.wasm_bodies.specs.BodyContext.{BodyContext, ModuleItems};
ghost use Rattle.wasm_bodies.specs.Effects.{Labels, effect};
ghost use Rattle.wasm_bodies.specs.Operands.{State};
ghost use Rattle.wasm_bodies.specs.Operators.{BlockType, Operator};
ghost use Rattle.wasm_bodies_laws.specs.Machine.{Frame, Machine, labels_of, run};
ghost use Rattle.wasm_bodies_laws.specs.References.{Agree, AgreeOn, AreFramesWanted, AreLabelsWanted, AreMapped, AreWanted, AreWantedIn, Below, HasNoReferences, TakesAndGives, WantedBy, context_map, entered_map, is_abstract, is_any, is_wanted_under, items_map, labels_map, machine_map, state_map};
ghost use Rattle.wasm_spec.specs.Features.{Features, needs_type_canonicalization};
ghost use Rattle.wasm_spec.specs.Gates.{is_allowed, is_allowed_func};
ghost use Rattle.wasm_spec.specs.TypeReferences.{func_map, func_refs, val_refs};
ghost use Rattle.wasm_spec.specs.Types.{FuncType, ValType};

/// Nothing of a module's items is lost: a map that changes no reference changes nothing.
pub fn mapped_items<R>()
    ensures { (items : ModuleItems R) → items_map (λ (r : R). r) items items.is_below ≡ items }
{}

/// The effect of an operator is mapped along, and so is the list that a block enters: over the mapped references an operator is refused exactly where it was before.
pub fn mapped_steps<R, S>()
    ensures operators { (is_wanted : ValType R → Bool) (f : R → S) (cx : BodyContext R) (below : Below S)
        → AgreeOn (WantedBy is_wanted) f cx.items below → AreWantedIn (WantedBy is_wanted) cx → (labels : Labels R) → AreLabelsWanted (WantedBy is_wanted) labels → (s : State R) (operator : Operator ℕ)
        → effect (context_map f cx below) (labels_map f labels) (state_map f s) operator ≡ option_map (state_map f) (effect cx labels s operator) }
    ensures blocks { (is_wanted : ValType R → Bool) (f : R → S) (cx : BodyContext R) (below : Below S)
        → AgreeOn (WantedBy is_wanted) f cx.items below → AreWanted (WantedBy is_wanted) cx.features cx.items → (operator : Operator ℕ) (type : BlockType ℕ) (s : State R)
        → entered (context_map f cx below) operator type (state_map f s) ≡ option_map (entered_map f) (entered cx operator type s) }
{}

/// Bodies operator by operator are mapped along. Blocks that are opened want what is wanted anyway, and so do their labels.
pub fn mapped_machines<R, S>()
    ensures runs { (is_wanted : ValType R → Bool) (f : R → S) (cx : BodyContext R) (below : Below S)
        → AgreeOn (WantedBy is_wanted) f cx.items below → AreWantedIn (WantedBy is_wanted) cx → (operators : List (Operator ℕ)) (m : Machine R) → AreFramesWanted (WantedBy is_wanted) m.frames
        → run (context_map f cx below) operators (machine_map f m) ≡ option_map (machine_map f) (run cx operators m) }
    ensures frames { (is_wanted : ValType R → Bool) (cx : BodyContext R) → AreWanted (WantedBy is_wanted) cx.features cx.items
        → (operators : List (Operator ℕ)) (m n : Machine R) → AreFramesWanted (WantedBy is_wanted) m.frames → run cx operators m ≡ Some n
        → AreFramesWanted (WantedBy is_wanted) n.frames }
    ensures labels { (is_wanted : ValType R → Bool) (features : Features) (items : ModuleItems R) → AreWanted (WantedBy is_wanted) features items
        → (frames : List (Frame R)) → AreFramesWanted (WantedBy is_wanted) frames → AreLabelsWanted (WantedBy is_wanted) (labels_of items frames) }
{}

/// The same operators are those of a body, and lead to the map of what they led to.
pub fn mapped_operators<R, S>()
    ensures whole { (is_wanted : ValType R → Bool) (f : R → S) (cx : BodyContext R) (below : Below S)
        → AgreeOn (WantedBy is_wanted) f cx.items below → AreWantedIn (WantedBy is_wanted) cx → (operators : List (Operator ℕ))
        → IsBodyOf cx operators ↔ IsBodyOf (context_map f cx below) operators }
    ensures begun { (is_wanted : ValType R → Bool) (f : R → S) (cx : BodyContext R) (below : Below S)
        → AgreeOn (WantedBy is_wanted) f cx.items below → AreWantedIn (WantedBy is_wanted) cx → (operators : List (Operator ℕ)) (labels : Labels S) (s : State S)
        → IsBegun (context_map f cx below) operators labels s ↔ AreMapped f labels s (IsBegun cx operators) }
    ensures functions { (f : R → S) (features : Features) (items : ModuleItems R) (below : Below S) (type : FuncType R) (runs : List Run)
        → in_function features (items_map f items below) (func_map f type) runs ≡ context_map f (in_function features items type runs) below }
    ensures wanted { (is_wanted : ValType R → Bool) (features : Features) (items : ModuleItems R) → AreWanted (WantedBy is_wanted) features items
        → (type : FuncType R) → TakesAndGives (WantedBy is_wanted) type → (runs : List Run) → AreWantedIn (WantedBy is_wanted) (in_function features items type runs) }
{}

/// The same bytes are the body of a function of the mapped type, and what is wrong with others is the same.
pub fn mapped_bodies<R, S>()
    ensures bodies { (is_wanted : ValType R → Bool) (f : R → S) (features : Features) (items : ModuleItems R) (below : Below S)
        → AgreeOn (WantedBy is_wanted) f items below → AreWanted (WantedBy is_wanted) features items → (type : FuncType R) → TakesAndGives (WantedBy is_wanted) type → (bytes : List ℕ)
        → IsFunctionBody features items type bytes ↔ IsFunctionBody features (items_map f items below) (func_map f type) bytes }
    ensures many_locals { (f : R → S) (features : Features) (items : ModuleItems R) (below : Below S) (type : FuncType R) (bytes : List ℕ)
        → HasManyLocals features items type bytes ↔ HasManyLocals features (items_map f items below) (func_map f type) bytes }
    ensures other_operators { (is_wanted : ValType R → Bool) (f : R → S) (features : Features) (items : ModuleItems R) (below : Below S)
        → AgreeOn (WantedBy is_wanted) f items below → AreWanted (WantedBy is_wanted) features items → (type : FuncType R) → TakesAndGives (WantedBy is_wanted) type → (bytes : List ℕ)
        → HasOtherOperator features items type bytes ↔ HasOtherOperator features (items_map f items below) (func_map f type) bytes }
{}

/// Every type may be wanted: then the map has to agree on all types, and nothing else is asked.
pub fn every_type<R, S>()
    ensures agreement { (f : R → S) (items : ModuleItems R) (below : Below S) → Agree f items below ↔ AgreeOn (WantedBy is_any) f items below }
    ensures wanted { (features : Features) (items : ModuleItems R) → AreWanted (WantedBy is_any) features items }
    ensures functions { (type : FuncType R) → TakesAndGives (WantedBy is_any) type }
    ensures contexts { (cx : BodyContext R) → AreWantedIn (WantedBy is_any) cx }
    ensures labels { (labels : Labels R) → AreLabelsWanted (WantedBy is_any) labels }
    ensures frames { (frames : List (Frame R)) → AreFramesWanted (WantedBy is_any) frames }
{}

/// Where the features don't ask for types to be canonicalized they allow no references to defined types, and so none are wanted: the map has to agree on
/// what operands are given against abstract types alone, and needn't know which defined types are equal.
pub fn abstract_types<R>()
    ensures wanted { (features : Features) (items : ModuleItems R) → needs_type_canonicalization features ≡ false → HasNoReferences items
        → AreWanted (WantedBy is_abstract) features items }
    ensures types { (type : ValType R) → val_refs type ≡ [] ↔ WantedBy is_abstract type }
    ensures functions { (type : FuncType R) → func_refs type ≡ [] → TakesAndGives (WantedBy is_abstract) type }
    ensures allowed { (features : Features) (type : ValType R) → needs_type_canonicalization features ≡ false → is_allowed features type ≡ true → val_refs type ≡ [] }
    ensures allowed_functions { (features : Features) (type : FuncType R) → needs_type_canonicalization features ≡ false → is_allowed_func features type ≡ true
        → func_refs type ≡ [] }
{}

/// The same for any features: every type may be wanted where they ask for types to be canonicalized.
pub fn types_under<R, S>()
    ensures agreement { (f : R → S) (features : Features) (items : ModuleItems R) (below : Below S)
        → (needs_type_canonicalization features ≡ true → Agree f items below) → (needs_type_canonicalization features ≡ false → AgreeOn (WantedBy is_abstract) f items below)
        → AgreeOn (WantedBy (is_wanted_under features)) f items below }
    ensures wanted { (features : Features) (items : ModuleItems R) → (needs_type_canonicalization features ≡ false → HasNoReferences items)
        → AreWanted (WantedBy (is_wanted_under features)) features items }
    ensures functions { (features : Features) (type : FuncType R) → (needs_type_canonicalization features ≡ false → func_refs type ≡ [])
        → TakesAndGives (WantedBy (is_wanted_under features)) type }
{}
