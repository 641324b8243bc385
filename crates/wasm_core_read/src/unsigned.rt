//! Unsigned numbers in LEB128.

ghost use Rattle.std.specs.Prelude.{◌≡◌, ◌<◌, ◌≤◌, ◌^◌, nat_lt, length, IfSome};
ghost use Rattle.std.specs.Option.{option_map};
ghost use Rattle.wasm_core_read.specs.Reading.{unsigned_at};

/// Checks that a byte has so few bits.
#[inline(always)]
pub fn has_bits(byte: u8, bits: u32) -> bool
    requires { byte < 128 }
    ensures { result ≡ nat_lt byte (2 ^ bits) }
{
    bits >= 7 || byte >> bits == 0
}

/// The number of at most so many bits at the front, and the bytes after it.
#[inline(always)]
#[tactic(auto, unfolding(crate::specs::Reading::unsigned_at))]
pub fn unsigned_front(bytes: &[u8], bits: u32) -> Option<(u64, &[u8])>
    requires some_bits { 0 < bits }
    requires at_most_64 { bits ≤ 64 }
    ensures read { option_map (λ x. (x.0, x.1.now)) result ≡ unsigned_at bits bytes.now }
    ensures below { IfSome result (λ x. x.0 < 2 ^ bits) }
    ensures shorter { IfSome result (λ x. length x.1.now ≤ length bytes.now) }
{
    match bytes {
        [byte, rest @ ..] if *byte < 128 && has_bits(*byte, bits) => {
            Some((u64::from(*byte), rest))
        }
        _ => many_bytes(bytes, bits),
    }
}

#[inline(never)]
fn many_bytes(bytes: &[u8], bits: u32) -> Option<(u64, &[u8])>
    requires some_bits { 0 < bits }
    requires at_most_64 { bits ≤ 64 }
    ensures read { option_map (λ x. (x.0, x.1.now)) result ≡ unsigned_at bits bytes.now }
    ensures below { IfSome result (λ x. x.0 < 2 ^ bits) }
    ensures shorter { IfSome result (λ x. length x.1.now ≤ length bytes.now) }
{
    let mut value = 0;
    let mut shift = 0;
    let mut rest = bytes;
    while let Some((byte, after)) = rest.split_first() {
        let left = bits - shift;
        if *byte < 128 {
            if !has_bits(*byte, left) {
                return None;
            }
            return Some((value + (u64::from(*byte) << shift), after));
        }
        if left <= 7 {
            return None;
        }
        value += u64::from(*byte - 128) << shift;
        shift += 7;
        rest = after;
    }
    None
}
