//! The lists that can be made at all.

ghost use Rattle.std.specs.Prelude.{◌≡◌, [], ℕ, List, Some, map};
ghost use Rattle.wasm_spec.specs.Types.{SubType};
ghost use Rattle.wasm_smith_config.specs.declared.config.Config.{Config};
ghost use Rattle.wasm_smith_validity.specs.ValidGroups.{entry};
ghost use Rattle.wasm_smith_validity.specs.Made.{Made};
ghost use Rattle.wasm_smith_module.specs.Generating.{HasFront, bare_module, front_at};
ghost use Rattle.wasm_smith_witness.specs.Family.{IsAskable, IsMember};

/// With a configuration with which lists can be asked for, exactly the groups and functions of each list of the family are drawn
/// from some seed. A module with this front has nothing else, no locals among it, and nothing of the seed is left. `c` is a
/// configuration after `sanitize`.
pub fn each_list_is_made()
    ensures { (c : Config) (groups : List (List (SubType ℕ))) (funcs : List ℕ) → IsAskable c
        → IsMember c groups funcs → (seed : List ℕ) × (front_at c seed ≡ Some ((map entry groups, funcs), []))
        × ((m : Made) (left : List ℕ) → HasFront c ((map entry groups, funcs), []) m left → (m ≡ bare_module (map entry groups) funcs) × (left ≡ [])) }
{}
