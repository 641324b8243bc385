//! Effective sizes of types.

use std::marker::Model;

/// The effective size of a type.
#[derive(Debug, Clone, Copy, PartialEq, Eq, PartialOrd, Ord, Hash)]
pub struct TypeInfo {
    size: u32,
}

impl Model for TypeInfo {
    ghost use Rattle.std.specs.Prelude.{ℕ, ◌<◌, ◌^◌};

    ghost Value = { ℕ };

    ghost view = { λ info. info.size };

    ghost invariant = { λ info. info.size < 2 ^ 24 };

    ghost inverse = { λ size. record { size = size } };
}

impl TypeInfo {
    ghost use Rattle.std.specs.Prelude.{◌≡◌, ◌<◌, ◌^◌};

    // Creates the info of a type of this size.
    pub(crate) fn core(size: u32) -> TypeInfo
        requires { size < 2 ^ 24 }
        ensures { result ≡ size }
    {
        TypeInfo { size }
    }

    /// Returns the size, which fits in 24 bits.
    pub fn size(&self) -> u32
        ensures same { result ≡ self.now }
        ensures fits { result < 2 ^ 24 }
    {
        self.size
    }
}
