//! Laws that made modules within bounds and limits are valid and read back. The functions do nothing: their contracts are theorems.

ghost use Rattle.std.specs.Prelude.{◌≡◌, ◌≤◌, ℕ, Bool, List, [], length};
ghost use Rattle.wasm_gen_sessions.specs.Written.{CanBeStated, IsGenerated, PassesNoLimit};
ghost use Rattle.wasm_smith_config.specs.Config.{AreFeaturesOf};
ghost use Rattle.wasm_smith_config.specs.declared.config.Config.{Config};
ghost use Rattle.wasm_smith_module.specs.Bounds.{IsWithinBounds};
ghost use Rattle.wasm_smith_module.specs.Generating.{bare_module};
ghost use Rattle.wasm_smith_module.specs.TrueToShapes.{IsTrueTo};
ghost use Rattle.wasm_smith_sections.specs.ModuleEncoding.{IsModuleEncoding, PassesLength};
ghost use Rattle.wasm_smith_types.specs.Bounds.{AreSmall};
ghost use Rattle.wasm_smith_types.specs.DrawnGroups.{AreSome};
ghost use Rattle.wasm_smith_validity.specs.ValidGroups.{types_of};
ghost use Rattle.wasm_smith_validity.specs.Made.{Made};
ghost use Rattle.wasm_smith_validity.specs.Sections.{sections_with};
ghost use Rattle.wasm_smith_validity.specs.Validity.{IsValidByIndex};
ghost use Rattle.wasm_spec.specs.Features.{Features};
ghost use Rattle.wasm_spec.specs.Limits.{Limit, Types, Functions, most};
ghost use Rattle.wasm_spec.specs.Trees.{section_types};
ghost use Rattle.wasm_spec.specs.Types.{RecGroup};
ghost use Rattle.wasm_validity.specs.Context.{at_first};
ghost use Rattle.wasm_validity.specs.Entries.{entries_of};
ghost use Rattle.wasm_validity.specs.IndexSpaces.{spaces_of};
ghost use Rattle.wasm_validity.specs.Rules.{PassLimit};

use wasm_smith_module::laws::one_body_encoding;
use wasm_smith_module::limit_laws::within;
use wasm_smith_sections::laws::modules_read;
use wasm_smith_validity::laws::valid_by_index;
use wasm_smith_validity::module_laws::valid_modules;

/// A made module that is valid by index under the configuration's features, is within the configuration's bounds, true to its shapes, and
/// passes no limit, is generated as its encoding: this reads as its sections, and they are valid but for raw bodies.
pub fn made_is_generated()
    ensures { (c : Config) (m : Made) (bytes : List ℕ) → ((features : Features) → AreFeaturesOf c features → IsValidByIndex features m) → IsWithinBounds c m
        → IsTrueTo c m → CanBeStated m → PassesNoLimit m → IsModuleEncoding c.bulk_memory_enabled m bytes → IsGenerated c m bytes }
{
    within();
    modules_read();
    valid_by_index();
    valid_modules();
    one_body_encoding();
}

/// A module of few types, and of few functions without locals, passes no limit and can be written. It shows its types and functions, and
/// nothing else.
pub fn bare_modules()
    ensures limits { (features : Features) (groups : List (RecGroup ℕ)) (funcs : List ℕ) (counted : Bool) (limit : Limit) → IsValidByIndex features (bare_module groups funcs)
        → AreSmall (types_of groups) → AreSome groups → length (types_of groups) ≤ most Types → length funcs ≤ most Functions
        → ¬ (PassLimit limit at_first (entries_of (sections_with counted [] (bare_module groups funcs)))) }
    ensures lengths { (features : Features) (groups : List (RecGroup ℕ)) (funcs : List ℕ) (counted : Bool) → IsValidByIndex features (bare_module groups funcs)
        → AreSmall (types_of groups) → AreSome groups → length (types_of groups) ≤ most Types → length funcs ≤ most Functions
        → ¬ (PassesLength counted (bare_module groups funcs)) }
    ensures shown { (counted : Bool) (groups : List (RecGroup ℕ)) (funcs : List ℕ) (bodies : List (List ℕ))
        → spaces_of (sections_with counted bodies (bare_module groups funcs))
        ≡ record { types = section_types groups; functions = funcs; tables = []; memories = []; globals = []; tags = []; elements = []; imported = []; exports = [] } }
{
    within();
}
