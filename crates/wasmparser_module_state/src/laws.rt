//! Laws of what a list of types holds.

ghost use Rattle.std.specs.Prelude.{◌≡◌, ◌≤◌, ◌+◌, List, [], ◌++◌, length, true};
ghost use Rattle.wasm_spec.specs.Features.{Features, needs_type_canonicalization};
ghost use Rattle.wasm_spec.specs.Limits.{total_of_types};
ghost use Rattle.wasm_spec.specs.Trees.{AreDistinct, DefType};
ghost use Rattle.wasm_validity.specs.Context.{Context, after_all, at_first};
ghost use Rattle.wasm_validity.specs.Entries.{Entry};
ghost use Rattle.wasmparser_module_state.specs.History.{EnterAll, OneFindsNoRoom};

/// Where types are canonicalized, no type has two ids after entries, if none had before.
pub fn entered_types_have_one_id()
    ensures { (features : Features) (cx : Context) (old new : List DefType) (entries : List Entry) → needs_type_canonicalization features ≡ true → AreDistinct old
        → EnterAll features cx old entries new → AreDistinct new }
{}

/// A list of types only grows: what an id stood for before entries, it stands for after them. And what the list holds after them is determined by what it held before.
pub fn lists_of_types_grow()
    ensures grow { (features : Features) (cx : Context) (old new : List DefType) (entries : List Entry) → EnterAll features cx old entries new
        → (more : List DefType) × (new ≡ old ++ more) }
    ensures one { (features : Features) (cx : Context) (old new other : List DefType) (entries : List Entry) → EnterAll features cx old entries new
        → EnterAll features cx old entries other → new ≡ other }
{}

/// A list has room for a module where the types that it holds and the module's don't pass the total.
pub fn small_modules_find_room()
    ensures { (features : Features) (held : List DefType) (entries : List Entry) → length held + length (after_all at_first entries).types ≤ total_of_types
        → ¬ (OneFindsNoRoom features at_first held entries) }
{}

/// A list without types has room for each module that keeps the limit on types.
pub fn first_modules_find_room()
    ensures { (features : Features) (entries : List Entry) → ¬ (OneFindsNoRoom features at_first [] entries) }
{}
