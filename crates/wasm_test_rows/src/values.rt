//! The values of fields. What can't be read is `None`, so that a row with a slip fails its test.

ghost use Rattle.std.specs.Prelude.{◌≡◌, IfSome, if◌then◌else◌, codes};

use crate::numbered::{mark_in, push_numbered};
use std::alloc::Global;

// Appends bytes in hexadecimal digits so many times.
fn push_bytes(alloc: Global, bytes: &mut Vec<u8>, digits: &str, count: u32) -> Option<()> {
    let some = hex::decode(alloc, digits).ok()?;
    for _ in 0..count {
        bytes.extend_from_slice(&some).ok()?;
    }
    Some(())
}

/// Returns bytes in hexadecimal digits, two for each, with spaces between them or none. They may be followed by how often they stand there: `00*254`. A word with `#`
/// or `@` stands there once for each number up to one, or of a range: `21#*50000`, `06@0200*5..9`. The number stands in place of `#`, and six letters that no
/// other number has in place of `@`.
pub fn bytes_of(alloc: Global, field: &str) -> Option<Vec<u8>> {
    let mut bytes = Vec::new(alloc);
    for word in field.split_whitespace() {
        let (digits, count) = word.split_once('*').unwrap_or((word, "1"));
        match mark_in(digits) {
            Some(mark) => push_numbered(alloc, &mut bytes, digits, mark, count)?,
            None => push_bytes(alloc, &mut bytes, digits, count.parse().ok()?)?,
        }
    }
    Some(bytes)
}

/// Checks that the bytes of a field are these.
pub fn are_bytes(alloc: Global, field: &str, bytes: &[u8]) -> bool {
    match bytes_of(alloc, field) {
        Some(found) => found.as_slice() == bytes,
        None => false,
    }
}

/// Returns a number in decimal digits.
pub fn number_of(field: &str) -> Option<u64> {
    field.parse().ok()
}

/// Does the same with a sign.
pub fn signed_of(field: &str) -> Option<i64> {
    field.parse().ok()
}

/// Numbers with spaces between them. A number may be followed by how often it stands there: `0*20`.
pub fn numbers_of(alloc: Global, field: &str) -> Option<Vec<u32>> {
    let mut numbers = Vec::new(alloc);
    for word in field.split_whitespace() {
        let (digits, count) = word.split_once('*').unwrap_or((word, "1"));
        let number = digits.parse().ok()?;
        for _ in 0..count.parse::<u32>().ok()? {
            numbers.push(number).ok()?;
        }
    }
    Some(numbers)
}

/// Checks that something is so: `yes` or `no`.
pub fn bool_of(field: &str) -> Option<bool>
    ensures { IfSome result (λ is_so. field.now ≡ (if is_so then codes "yes" else codes "no")) }
{
    match field {
        "yes" => Some(true),
        "no" => Some(false),
        _ => None,
    }
}
