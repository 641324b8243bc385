//! How often the offsets of memory accesses are near, far and very far.

ghost use Rattle.std.specs.Prelude.{◌≡◌};
ghost use Rattle.std.specs.Result.{result_ok};
ghost use Rattle.wasm_smith_config.specs.Offsets.{number_at, choices_at, default_choices};

use crate::error::BadText;
use std::str::FromStr;

/// Weights of three sorts of offsets of memory accesses: those within the memory's minimum size, those past it and within the largest size that it
/// may have, and any others.
#[derive(Clone, Copy, Debug, PartialEq, Eq)]
pub struct MemoryOffsetChoices(pub u32, pub u32, pub u32);

/// Of a hundred offsets 90 lie within the minimum size, and one lies past the largest.
impl Default for MemoryOffsetChoices {
    ghost is_default = { λ choices. choices ≡ default_choices };

    fn default() -> MemoryOffsetChoices {
        MemoryOffsetChoices(90, 9, 1)
    }
}

/// Reads three whole numbers, parted by commas.
impl FromStr for MemoryOffsetChoices {
    type Err = BadText;

    ghost from_str_gives = { λ text r. result_ok r ≡ choices_at text };

    fn from_str(text: &str) -> Result<MemoryOffsetChoices, BadText> {
        choices(text).ok_or(BadText)
    }
}

// Reads three numbers with commas between them.
fn choices(text: &str) -> Option<MemoryOffsetChoices>
    ensures { result ≡ choices_at text.now }
{
    let (first, rest) = text.split_once(',')?;
    let (second, third) = rest.split_once(',')?;
    Some(MemoryOffsetChoices(number(first)?, number(second)?, number(third)?))
}

// Reads a number of decimal digits alone.
fn number(text: &str) -> Option<u32>
    ensures { result ≡ number_at text.now }
{
    if text.starts_with('+') {
        return None;
    }
    text.parse().ok()
}
