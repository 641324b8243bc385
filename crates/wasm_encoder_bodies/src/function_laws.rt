//! Laws of runs of locals. The functions do nothing: their contracts are theorems.

ghost use Rattle.std.specs.Prelude.{◌≡◌, ◌++◌, ℕ, List};
ghost use Rattle.wasm_core_types.specs.declared.types.ValType.{ValType};
ghost use Rattle.wasm_encoder_bodies.specs.Locals.{AreRunsOf, FitLength, PassLength};

/// Types have one list of runs alone that are not empty and of which no two neighbours are of one type. So a body with locals
/// of these types is the body with these runs.
pub fn one_list_of_runs()
    ensures { (types : List ValType) (runs others : List (ℕ × ValType)) → AreRunsOf types runs → AreRunsOf types others → runs ≡ others }
{}

/// Types pass the length where the first of them do. So what is refused before an iterator ends is refused whatever types would have followed.
pub fn more_types_pass()
    ensures { (front rest : List ValType) → PassLength front → ¬ (FitLength (front ++ rest)) }
{}
