//! Laws of spellings. The functions do nothing: their contracts are theorems.

ghost use Rattle.std.specs.Prelude.{◌≡◌, ◌<◌, ◌≤◌, ◌%◌, ◌++◌, [], ◌∷◌, ℕ, true, false, map, List, Some};
ghost use Rattle.wasm_spec.specs.Types.{SubType};
ghost use Rattle.wasm_smith_config.specs.declared.config.Config.{Config};
ghost use Rattle.wasm_smith_unstructured.specs.declared.error.Error.{Error};
ghost use Rattle.wasm_smith_unstructured.specs.declared.error.Error.TheVariants.{Memory};
ghost use Rattle.wasm_smith_validity.specs.ValidGroups.{entry};
ghost use Rattle.wasm_smith_module.specs.Generating.{OwesNothingElse, front_at};
ghost use Rattle.wasm_smith_module.specs.Promise.{IsReason};
ghost use Rattle.wasm_smith_witness.specs.Examples.{one_function, two_functions, two_structures};
ghost use Rattle.wasm_smith_witness.specs.Family.{IsAskable, IsMember};
ghost use Rattle.wasm_smith_witness.specs.Spelling.{Spells};

/// From each spelling of a list exactly that list is drawn, no import and no tag is, and nothing of the spelling is left. `c` is
/// a configuration after `sanitize`.
pub fn reach()
    ensures exact { (c : Config) (groups : List (List (SubType ℕ))) (funcs s : List ℕ) → IsAskable c
        → Spells c groups funcs s → front_at c s ≡ Some ((map entry groups, funcs), []) }

    // Nothing else has to be made.
    ensures alone { (c : Config) → IsAskable c → OwesNothingElse c }

    // The groups stay whatever follows. The functions stay where an even byte and any others follow: where a function could
    // follow, that byte says that none does.
    ensures groups_go_on { (c : Config) (groups : List (List (SubType ℕ))) (funcs s rest : List ℕ) → IsAskable c
        → Spells c groups funcs s → (more left : List ℕ) × (front_at c (s ++ rest) ≡ Some ((map entry groups, more), left)) }
    ensures funcs_go_on { (c : Config) (groups : List (List (SubType ℕ))) (funcs s : List ℕ) (byte : ℕ) (rest : List ℕ) → IsAskable c
        → Spells c groups funcs s → byte % 2 ≡ 0 → (left : List ℕ) × (front_at c (s ++ byte ∷ rest) ≡ Some ((map entry groups, funcs), left)) }
{}

/// With a configuration with which lists can be asked for, the lists of the family are those that have a spelling. `c` is a
/// configuration after `sanitize`.
pub fn agreement()
    ensures member { (c : Config) (groups : List (List (SubType ℕ))) (funcs s : List ℕ) → Spells c groups funcs s → IsMember c groups funcs }
    ensures spelled { (c : Config) (groups : List (List (SubType ℕ))) (funcs : List ℕ) → IsAskable c
        → IsMember c groups funcs → (s : List ℕ) × Spells c groups funcs s }
{}

/// With a configuration with which lists can be asked for, a module isn't made only when memory runs out.
pub fn total()
    ensures { (c : Config) (e : Error) → IsAskable c → IsReason c e → e ≡ Memory }
{}

/// Spellings of small lists, where there may be one type more.
///
/// - Of a function of a type without parameters and results, without garbage collection: any six bytes of these parities, where
///   there may be imports, but no exceptions. The fifth byte says that there are no imports.
/// - Of a function of the second of two such types, without garbage collection: any odd byte at the end, where there may be tags,
///   but no imports. The third byte from the end says that there are no tags.
/// - Of two structures that refer to each other, where memories may be imported. The last byte says that there are no imports.
pub fn small_spellings()
    ensures one_type { (c : Config) (a b d e i f : ℕ) → c.gc_enabled ≡ false → c.exceptions_enabled ≡ false → 0 < c.max_imports
        → 1 < c.max_types → 0 < c.max_funcs → a % 2 ≡ 1 → b % 2 ≡ 0 → d % 2 ≡ 0 → e % 2 ≡ 0 → i % 2 ≡ 0 → f % 2 ≡ 1
        → Spells c one_function (0 ∷ []) (a ∷ b ∷ d ∷ e ∷ i ∷ f ∷ []) }
    ensures second_of_two { (c : Config) (byte : ℕ) → c.gc_enabled ≡ false → c.exceptions_enabled ≡ true → 0 < c.max_tags → c.max_imports ≡ 0
        → 2 < c.max_types → 0 < c.max_funcs → byte < 256 → byte % 2 ≡ 1
        → Spells c two_functions (1 ∷ []) (1 ∷ 0 ∷ 0 ∷ 1 ∷ 0 ∷ 0 ∷ 0 ∷ 0 ∷ 1 ∷ byte ∷ []) }
    ensures two_structures { (c : Config) → c.gc_enabled ≡ true → c.reference_types_enabled ≡ true → c.allow_floats ≡ true → c.simd_enabled ≡ true
        → 0 < c.max_imports → 0 < c.max_memories → 2 < c.max_types → c.max_types ≤ 256 → Spells c two_structures []
        (1 ∷ 1 ∷ 0 ∷ 1 ∷ 1 ∷ 0 ∷ 5 ∷ 0 ∷ 1 ∷ 1 ∷ 0 ∷ 0 ∷ 0 ∷ 1 ∷ 1 ∷ 0 ∷ 5 ∷ 0 ∷ 1 ∷ 0 ∷ 0 ∷ 0 ∷ 0 ∷ 0 ∷ []) }
{}
