//! Bytes as strings.

ghost use Rattle.std.specs.Char.{is_ascii};
ghost use Rattle.std.specs.List.{list_all};
ghost use Rattle.std.specs.Prelude.{◌≡◌, MatchOption};
ghost use Rattle.std.specs.Str.{IsUtf8};

// From so many bytes on, a scan of several at a time is faster.
const FEW: usize = 16;

#[inline(always)]
fn is_ascii(bytes: &[u8]) -> bool
    ensures { result ≡ list_all is_ascii bytes.now }
{
    bytes.iter().all(|byte| byte.is_ascii())
}

/// The bytes as a string, where they are UTF-8. Most names are short and ASCII, which a glance tells.
#[inline(always)]
#[tactic(auto, using(crate::proofs::Names::ascii))]
pub fn utf8(bytes: &[u8]) -> Option<&str>
    ensures { MatchOption result (¬ (IsUtf8 bytes.now)) (λ s. (s.now ≡ bytes.now) × IsUtf8 bytes.now) }
{
    if bytes.len() < FEW && is_ascii(bytes) {
        return Some(unsafe { str::from_utf8_unchecked(bytes) });
    }
    match str::from_utf8(bytes) {
        Ok(string) => Some(string),
        Err(_) => None,
    }
}
