//! Laws that made modules which are valid by index keep the rules on sections. The functions do nothing: their contracts are theorems.

ghost use Rattle.std.specs.Prelude.{◌≡◌, ◌≤◌, ℕ, Bool, true, List, length};
ghost use Rattle.wasm_smith_validity.specs.ValidGroups.{types_of};
ghost use Rattle.wasm_smith_validity.specs.Made.{Made};
ghost use Rattle.wasm_smith_validity.specs.Sections.{sections_with};
ghost use Rattle.wasm_smith_validity.specs.Validity.{IsValidByIndex};
ghost use Rattle.wasm_spec.specs.Features.{Features, has, BulkMemory};
ghost use Rattle.wasm_spec.specs.Limits.{Types, most};
ghost use Rattle.wasm_validity.specs.Context.{at_first};
ghost use Rattle.wasm_validity.specs.Entries.{entries_of};
ghost use Rattle.wasm_validity.specs.Rules.{KeepRules};

/// The sections of a made module that is valid by index keep all rules but those on bodies, whatever its bodies are, unless it has
/// too many types. Data segments are counted only with bulk memory.
pub fn valid_by_index()
    ensures { (features : Features) (m : Made) (counted : Bool) (bodies : List (List ℕ)) → IsValidByIndex features m
        → length (types_of m.groups) ≤ most Types → (counted ≡ true → has features BulkMemory ≡ true)
        → KeepRules features at_first (entries_of (sections_with counted bodies m)) }
{}
