//! Laws that tie the calls to each other.

ghost use Rattle.std.specs.Prelude.{◌≡◌, ◌⊎◌, ◌==◌, ℕ, List, [], false, take, true};
ghost use Rattle.std.specs.List.{list_any};
ghost use Rattle.wasm_gen_c_api.specs.Codes.{codes_of_checking, codes_of_making, memory, short_buffer, yes};
ghost use Rattle.wasm_gen_c_api.specs.ConfigTexts.{AreTold};
ghost use Rattle.wasm_gen_c_api.specs.Generate.{IsMade, IsMadeByDefault, generated_features};
ghost use Rattle.wasm_gen_c_api.specs.Report.{IsReportOf};
ghost use Rattle.wasm_gen_c_api.specs.Verdicts.{IsChecked};
ghost use Rattle.wasm_gen_c_api.specs.declared.verdict.Verdict.{Verdict};
ghost use Rattle.wasm_gen_config.specs.Outcome.{IsGivenByText};
ghost use Rattle.wasm_smith.specs.Parts.{Config};

/// A text gives one configuration, if it gives any.
#[tactic(auto, using(crate::proofs::ConfigTextLaws::same_given))]
pub fn one_configuration()
    ensures { (text : List ℕ) (c d : Config) → IsGivenByText text c → IsGivenByText text d → c ≡ d }
{}

/// Empty text gives the default configuration, whose features are `generated_features`.
pub fn empty_text_is_the_default()
    ensures made { (seed old new : List ℕ) (len code : ℕ) → IsMade [] seed old new len code → IsMadeByDefault seed old new len code }
    ensures told { (features code : ℕ) → AreTold [] features code → (code ≡ yes) × (features ≡ generated_features) }
{}

/// A module that was generated and written is valid under the features that are returned for its configuration, where this allows no raw bodies,
/// and by default under `generated_features`, unless memory runs out.
pub fn generated_is_accepted()
    ensures given { (text seed old new : List ℕ) (len features : ℕ) (told : Verdict) (c : Config) → IsGivenByText text c → c.allow_invalid_funcs ≡ false
        → IsMade text seed old new len yes → AreTold text features yes
        → IsChecked features (take len new) told → (told.kind ≡ yes) ⊎ (told.kind ≡ memory) }
    ensures by_default { (seed old new : List ℕ) (len : ℕ) (told : Verdict) → IsMade [] seed old new len yes
        → IsChecked generated_features (take len new) told → (told.kind ≡ yes) ⊎ (told.kind ≡ memory) }
{}

/// Few codes come of a configuration's text and a seed. By default a module is written, or doesn't fit, or would pass a limit (3), or memory
/// runs out.
pub fn generating_has_few_codes()
    ensures given { (text seed old new : List ℕ) (len code : ℕ) → IsMade text seed old new len code → list_any (λ other. code == other) codes_of_making ≡ true }
    ensures by_default { (seed old new : List ℕ) (len code : ℕ) → IsMade [] seed old new len code
        → (code ≡ yes) ⊎ (code ≡ short_buffer) ⊎ (code ≡ 3) ⊎ (code ≡ memory) }
{}

/// Few codes come of the bytes of a module and of features, also where a report on the module is to be written, which may not fit.
pub fn checking_has_few_codes()
    ensures checked { (features : ℕ) (bytes : List ℕ) (verdict : Verdict) → IsChecked features bytes verdict → list_any (λ other. verdict.kind == other) codes_of_checking ≡ true }
    ensures reported { (features : ℕ) (bytes old new : List ℕ) (len code : ℕ) → IsReportOf features bytes old new len code
        → (code ≡ short_buffer) ⊎ (list_any (λ other. code == other) codes_of_checking ≡ true) }
{}
