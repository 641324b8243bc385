//! Numbers and the bytes that they take.

ghost use Rattle.std.specs.Prelude.{◌≡◌, ℕ, ◌+◌, ◌-◌, ◌<◌, ◌≤◌, ◌^◌, length};
ghost use Rattle.wasm_smith_unstructured.specs.Draws.{big_number, little_number, width};

/// Returns how many bytes a number takes, 0 taking none: the least count of bytes that can have it.
pub fn width(number: u64) -> usize
    ensures exact { result ≡ width number }
    ensures enough { number < 256 ^ result }
    ensures least { (k : ℕ) → number < 256 ^ k → result ≤ k }
    ensures few { result ≤ 8 }
    ensures small { result ≤ number }
{
    let mut left = number;
    let mut count = 0;
    'bytes: while left != 0 {
        left /= 256;
        count += 1;
    }
    count
}

/// Returns the number of at most eight bytes, most significant first.
pub fn big_number(bytes: &[u8]) -> u64
    requires { length bytes.now ≤ 8 }
    ensures { result ≡ big_number bytes.now }
{
    let mut number = 0;
    for byte in bytes {
        number = number * 256 + u64::from(*byte);
    }
    number
}

/// Returns the number of at most eight bytes, least significant first.
pub fn little_number(bytes: &[u8]) -> u64
    requires { length bytes.now ≤ 8 }
    ensures exact { result ≡ little_number bytes.now }
    ensures below { result < 256 ^ length bytes.now }
{
    match bytes {
        [] => 0,
        [byte, rest @ ..] => u64::from(*byte) + 256 * little_number(rest),
    }
}
