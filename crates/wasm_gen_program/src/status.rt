//! The status that the program ends with.
ghost use Rattle.std.specs.Prelude.{◌≡◌, ◌↔◌, ◌⊎◌, All, Contains};

/// The outcome of one file or one run.
#[derive(Clone, Copy, Debug, PartialEq, Eq)]
pub enum Outcome {
    /// The answer is yes.
    Yes,
    /// The answer is no.
    No,
    /// The run answered with a refusal.
    Refused,
    /// There is no answer.
    Fault,
}

/// Returns the program's status after these outcomes: 2 where one is a fault, else 1 where one is not a yes,
/// else 0.
pub fn status_of(outcomes: &[Outcome]) -> u8
    ensures fault { (result ≡ 2) ↔ Contains outcomes.now Outcome.Fault }
    ensures no { (result ≡ 1) ↔ ((¬ Contains outcomes.now Outcome.Fault)
        × (Contains outcomes.now Outcome.No ⊎ Contains outcomes.now Outcome.Refused)) }
    ensures yes { (result ≡ 0) ↔ All (λ outcome. outcome ≡ Outcome.Yes) outcomes.now }
{
    if outcomes.contains(&Outcome::Fault) {
        2
    } else if outcomes.contains(&Outcome::No) || outcomes.contains(&Outcome::Refused) {
        1
    } else {
        0
    }
}
