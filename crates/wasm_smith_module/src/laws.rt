//! Laws of the encoding of a made module, of which there is one. The functions do nothing: their contracts are theorems.

ghost use Rattle.std.specs.Prelude.{◌≡◌, ℕ, Bool, List};
ghost use Rattle.wasm_smith_sections.specs.ModuleEncoding.{IsBodyEncoding, IsModuleEncoding};
ghost use Rattle.wasm_smith_validity.specs.Made.{Made, MadeBody};

use wasm_encoder_bodies::function_laws::one_list_of_runs;

/// A made module has at most one encoding, so that what it is written as depends on nothing else.
pub fn one_encoding()
    ensures { (counted : Bool) (m : Made) (encoding other : List ℕ) → IsModuleEncoding counted m encoding → IsModuleEncoding counted m other → encoding ≡ other }
{
    one_list_of_runs();
}

/// A body of a made module has at most one encoding.
pub fn one_body_encoding()
    ensures { (made : MadeBody) (encoding other : List ℕ) → IsBodyEncoding made encoding → IsBodyEncoding made other → encoding ≡ other }
{
    one_list_of_runs();
}
