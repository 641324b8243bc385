//! Laws that made modules which are valid by index are valid, but for raw bodies. The functions do nothing: their contracts are theorems.

ghost use Rattle.std.specs.List.{AllByRecursion};
ghost use Rattle.std.specs.Prelude.{◌≡◌, ◌↔◌, ◌≤◌, ℕ, Bool, List, None, length};
ghost use Rattle.wasm_smith_validity.specs.Made.{Made, MadeBody};
ghost use Rattle.wasm_smith_validity.specs.Sections.{sections_with};
ghost use Rattle.wasm_smith_validity.specs.Validity.{IsValidByIndex};
ghost use Rattle.wasm_smith_validity.specs.MadeBodies.{AreMadeBodies, is_raw_at};
ghost use Rattle.wasm_spec.specs.Features.{Features};
ghost use Rattle.wasm_spec.specs.Syntax.{Section};
ghost use Rattle.wasm_validity.specs.Entries.{entries_of};
ghost use Rattle.wasm_validity.specs.Validity.{AreFine};
ghost use Rattle.wasm_validity.specs.ModuleBodies.{EachBodyAmong};
ghost use Rattle.wasm_validity.specs.Modules.{IsTypedBody, IsValid, IsValidBut};

/// A made module that is valid by index, and has a body for each of its functions, with at most 100 locals, is valid but for its raw
/// bodies, where its sections are fine apart from bodies.
pub fn valid_modules()
    ensures { (features : Features) (m : Made) (counted : Bool) (bodies : List (List ℕ)) → AreFine features (entries_of (sections_with counted bodies m))
        → IsValidByIndex features m → AllByRecursion (λ body. length body.locals ≤ 100) m.bodies → AreMadeBodies m.bodies bodies
        → IsValidBut features (is_raw_at m.bodies) (sections_with counted bodies m) }
{}

/// Sections that are valid but for some bodies are valid exactly where these bodies are well typed. Where no body is raw they are valid.
pub fn raw_bodies_decide()
    ensures exactly { (features : Features) (excepted : ℕ → Bool) (sections : List Section) → IsValidBut features excepted sections
        → IsValid features sections ↔ EachBodyAmong excepted (IsTypedBody features sections) sections }
    ensures without { (features : Features) (bodies : List MadeBody) (sections : List Section) → IsValidBut features (is_raw_at bodies) sections
        → AllByRecursion (λ body. body.raw ≡ None) bodies → IsValid features sections }
{}
