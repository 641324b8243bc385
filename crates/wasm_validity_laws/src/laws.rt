//! Laws of entries that keep the rules. The functions do nothing: their contracts are theorems.

ghost use Rattle.std.specs.List.{AllByRecursion};
ghost use Rattle.std.specs.Prelude.{◌≡◌, ◌↔◌, ◌++◌, ℕ, List, Some, is_some, slice_get, true};
ghost use Rattle.wasm_spec.specs.Features.{Features};
ghost use Rattle.wasm_spec.specs.Limits.{Limit};
ghost use Rattle.wasm_spec.specs.Spaces.{sizes_of};
ghost use Rattle.wasm_spec.specs.Syntax.{Section, functions_of};
ghost use Rattle.wasm_validity.specs.Context.{Context, after_all, at_first};
ghost use Rattle.wasm_validity.specs.DefinedTypes.{func_type_at};
ghost use Rattle.wasm_validity.specs.Entries.{Entry};
ghost use Rattle.wasm_validity.specs.IndexSpaces.{sizes_in, spaces_in, spaces_of};
ghost use Rattle.wasm_validity.specs.Rules.{KeepLimits, KeepRules, PassLimit};
ghost use Rattle.wasm_validity.specs.Validity.{context_of};
ghost use Rattle.wasm_validity_laws.specs.KnownImports.{IsThere};
ghost use Rattle.wasm_validity_laws.specs.NamedTypes.{NamesTypes};

/// Entries keep the rules and limits one after the other: those at the front do, and then those after them in their
/// context.
#[tactic(auto, using(crate::proofs::InTurn::in_turn))]
pub fn entries_in_turn()
    ensures known { (cx : Context) (a b : List Entry) → after_all cx (a ++ b) ≡ after_all (after_all cx a) b }
    ensures rules { (features : Features) (cx : Context) (a b : List Entry) → KeepRules features cx (a ++ b) ↔ (KeepRules features cx a × KeepRules features (after_all cx a) b) }
    ensures limits { (cx : Context) (a b : List Entry) → KeepLimits cx (a ++ b) ↔ (KeepLimits cx a × KeepLimits (after_all cx a) b) }
    ensures within { (limit : Limit) (cx : Context) (entries : List Entry) → KeepLimits cx entries → ¬ (PassLimit limit cx entries) }
    ensures passing { (limit : Limit) (cx : Context) (a b : List Entry) → PassLimit limit (after_all cx a) b → PassLimit limit cx (a ++ b) }
{}

/// What a function of the module's own names as its type stays a function type, whatever types come after it.
pub fn named_functions()
    ensures { (features : Features) (entries : List Entry) (place index : ℕ) → KeepRules features at_first entries
        → slice_get (after_all at_first entries).own_functions place ≡ Some index → is_some (func_type_at (after_all at_first entries).types index) ≡ true }
{}

/// Whatever types come after it, what stands in the index spaces names types of the module.
pub fn named_types()
    ensures { (features : Features) (entries : List Entry) → KeepRules features at_first entries → NamesTypes (spaces_in (after_all at_first entries)) }
{}

/// What is known after all sections of a module: its own functions are those that the sections have, and the spaces have
/// the sizes that are shown of them.
pub fn known_spaces()
    ensures own_functions { (sections : List Section) → (context_of sections).own_functions ≡ functions_of sections }
    ensures sizes { (sections : List Section) → sizes_in (spaces_of sections) ≡ sizes_of sections }
{}

/// Each import is an item that is there, whatever comes after it.
#[tactic(auto, using(crate::proofs::KnownImports::imports_there))]
pub fn known_imports()
    ensures { (entries : List Entry) → AllByRecursion (IsThere (after_all at_first entries)) (after_all at_first entries).imported }
{}
