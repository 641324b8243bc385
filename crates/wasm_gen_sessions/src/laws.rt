//! Laws that tie generating to validating.

ghost use Rattle.std.specs.Prelude.{◌≡◌, ◌⊎◌, ℕ, List, [], false, map, Result, Ok, Err};
ghost use Rattle.std.specs.List.{AllByRecursion};
ghost use Rattle.wasm_gen_sessions.specs.Generate.{HasTypedRaw, IsGeneratedFrom};
ghost use Rattle.wasm_gen_sessions.specs.History.{History};
ghost use Rattle.wasm_gen_sessions.specs.Lists.{AreShown, ChecksAll, IsMadeUnder, MadeList};
ghost use Rattle.wasm_gen_sessions.specs.Session.{Checks};
ghost use Rattle.wasm_smith.specs.Config.{AreFeaturesOf};
ghost use Rattle.wasm_smith.specs.Parts.{Config};
ghost use Rattle.wasm_spec.specs.Features.{Features};
ghost use Rattle.wasmparser_error.specs.declared.error.Error.{Error};
ghost use Rattle.wasmparser_error.specs.declared.error.ErrorKind.TheVariants.{Memory, Total};
ghost use Rattle.wasmparser_validator.specs.KnownSpaces.{KnownModule};

use crate::made_laws::bare_modules;

/// A session with the features of the configuration, which hasn't failed, accepts a generated module exactly where its raw bodies are well
/// typed, so always where the configuration doesn't allow them, unless memory runs out or, in a session that isn't new, the list of types is
/// full. `c` is a configuration after `sanitize`.
pub fn generated_is_accepted()
    ensures any { (c : Config) (seed bytes : List ℕ) (old new : History) (e : Error) (made : IsGeneratedFrom c seed bytes)
        → AreFeaturesOf c old.features → old.has_failed ≡ false → HasTypedRaw old.features c seed bytes made
        → Checks old bytes (Err e) new → (e.kind ≡ Memory) ⊎ (e.kind ≡ Total) }
    ensures first { (c : Config) (seed bytes : List ℕ) (features : Features) (id : ℕ) (new : History) (e : Error) (made : IsGeneratedFrom c seed bytes)
        → AreFeaturesOf c features → HasTypedRaw features c seed bytes made
        → Checks (record { features = features; id = id; has_failed = false; held = [] }) bytes (Err e) new → e.kind ≡ Memory }
    ensures only { (c : Config) (seed bytes : List ℕ) (old new : History) (known : KnownModule) (made : IsGeneratedFrom c seed bytes)
        → AreFeaturesOf c old.features → old.has_failed ≡ false → Checks old bytes (Ok known) new → HasTypedRaw old.features c seed bytes made }
    ensures no_raw { (c : Config) (seed bytes : List ℕ) (features : Features) (made : IsGeneratedFrom c seed bytes)
        → AreFeaturesOf c features → c.allow_invalid_funcs ≡ false → HasTypedRaw features c seed bytes made }
{}

/// Modules of lists, made from configurations with the features of a session that hasn't failed, are accepted by it one after the
/// other, in any order, and shown as their lists, until memory runs out or its list of types is full.
pub fn lists_are_shown()
    ensures { (session : History) (lists : List MadeList) (verdicts : List (Result KnownModule Error)) → session.has_failed ≡ false
        → AllByRecursion (IsMadeUnder session.features) lists → ChecksAll session (map (λ made. made.bytes) lists) verdicts → AreShown lists verdicts }
{
    bare_modules();
}
