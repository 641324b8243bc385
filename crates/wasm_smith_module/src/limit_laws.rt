//! Laws of the limits of made modules. The functions do nothing: their contracts are theorems.

ghost use Rattle.std.specs.Prelude.{◌≡◌, ◌≤◌, ℕ, Bool, true, List, length};
ghost use Rattle.std.specs.List.{AllByRecursion};
ghost use Rattle.wasm_smith_module.specs.Measures.{numbers_of};
ghost use Rattle.wasm_smith_validity.specs.Made.{Made};
ghost use Rattle.wasm_smith_validity.specs.Sections.{sections_with};
ghost use Rattle.wasm_smith_validity.specs.Validity.{IsValidByIndex};
ghost use Rattle.wasm_spec.specs.Features.{Features};
ghost use Rattle.wasm_spec.specs.Limits.{Limit, Name, most};
ghost use Rattle.wasm_validity.specs.Context.{at_first};
ghost use Rattle.wasm_validity.specs.Entries.{entries_of};
ghost use Rattle.wasm_validity.specs.Rules.{KeepLimits, PassLimit, Passes, are_within};

/// A made module that is valid by index and whose custom sections have short names passes no limit where none of its numbers does.
pub fn within()
    ensures { (features : Features) (m : Made) (counted : Bool) (bodies : List (List ℕ)) → IsValidByIndex features m
        → AllByRecursion (λ custom. length custom.name ≤ most Name) m.customs → are_within (numbers_of bodies m) ≡ true → KeepLimits at_first (entries_of (sections_with counted bodies m)) }
{}

/// A made module that is valid by index passes each limit that one of its numbers passes.
pub fn passed()
    ensures { (features : Features) (m : Made) (counted : Bool) (bodies : List (List ℕ)) (limit : Limit) → IsValidByIndex features m
        → Passes limit (numbers_of bodies m) → PassLimit limit at_first (entries_of (sections_with counted bodies m)) }
{}
