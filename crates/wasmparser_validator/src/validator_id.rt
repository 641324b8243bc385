//! Names of validators.

ghost use Rattle.std.specs.Prelude.{◌≡◌};

use std::marker::Model;

/// The name of a validator, which tells what it made from what others made. The caller hands it in, and sees to
/// it that no two validators have the same.
#[derive(Clone, Copy, Debug, PartialEq, Eq, PartialOrd, Ord, Hash)]
pub struct ValidatorId(usize);

impl Model for ValidatorId {
    ghost use Rattle.std.specs.Prelude.{ℕ};

    ghost Value = { ℕ };

    ghost view = { λ id. id.0 };

    ghost inverse = { λ n. record { 0 = n } };
}

impl ValidatorId {
    /// Creates the name with this number.
    pub fn new(number: usize) -> ValidatorId
        ensures { result ≡ number }
    {
        ValidatorId(number)
    }
}
