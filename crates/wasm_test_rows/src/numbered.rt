//! Bytes that stand there once for each of many numbers.

use std::alloc::Global;

/// A place among digits where the bytes differ from number to number.
#[derive(Clone, Copy)]
pub enum Mark {
    /// The number itself, in as few bytes as it takes.
    Number,
    /// Letters that no other number has.
    Letters,
}

/// Returns the mark in digits, if there is one.
pub fn mark_in(digits: &str) -> Option<Mark> {
    if digits.contains('#') {
        Some(Mark::Number)
    } else if digits.contains('@') {
        Some(Mark::Letters)
    } else {
        None
    }
}

// Appends a number in LEB128.
fn push_number(bytes: &mut Vec<u8>, number: u32) -> Option<()> {
    let mut rest = number;
    for _ in 0..5 {
        let low = u8::try_from(rest % 128).ok()?;
        rest /= 128;
        if rest == 0 {
            return bytes.push(low).ok();
        }
        bytes.push(low | 0x80).ok()?;
    }
    None
}

// These letters are types of references too, so that they make as many types as names.
const LETTERS: &[u8] = b"ijklmnopqrst";

// Appends six letters, in the order of the numbers.
fn push_letters(bytes: &mut Vec<u8>, number: u32) -> Option<()> {
    let (high, low) = (number / 1_728, number % 1_728);
    for digit in [high / 144, high / 12, high, low / 144, low / 12, low] {
        let letter = LETTERS.get((digit % 12) as usize)?;
        bytes.push(*letter).ok()?;
    }
    Some(())
}

// Returns the bytes around each mark.
fn pieces_of(alloc: Global, digits: &str, mark: Mark) -> Option<Vec<Vec<u8>>> {
    let mut pieces = Vec::new(alloc);
    let mark = match mark {
        Mark::Number => '#',
        Mark::Letters => '@',
    };
    for piece in digits.split(mark) {
        pieces.push(hex::decode(alloc, piece).ok()?).ok()?;
    }
    Some(pieces)
}

// Appends these pieces, with what stands for the number between each and the next.
fn push_pieces(bytes: &mut Vec<u8>, pieces: &[Vec<u8>], mark: Mark, number: u32) -> Option<()> {
    for (at, piece) in pieces.iter().enumerate() {
        if at > 0 {
            match mark {
                Mark::Number => push_number(bytes, number)?,
                Mark::Letters => push_letters(bytes, number)?,
            }
        }
        bytes.extend_from_slice(piece).ok()?;
    }
    Some(())
}

/// Appends digits with this mark for each of the numbers: how many there are, or a range.
pub fn push_numbered(
    alloc: Global,
    bytes: &mut Vec<u8>,
    digits: &str,
    mark: Mark,
    numbers: &str,
) -> Option<()> {
    let (first, end) = numbers.split_once("..").unwrap_or(("0", numbers));
    let first: u32 = first.parse().ok()?;
    let end: u32 = end.parse().ok()?;
    let pieces = pieces_of(alloc, digits, mark)?;
    for number in first..end {
        push_pieces(bytes, &pieces, mark, number)?;
    }
    Some(())
}
