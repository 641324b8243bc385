//! A source of values over bytes.

ghost use Rattle.std.specs.Prelude.{◌≡◌, ◌+◌, ◌-◌, ◌<◌, ◌≤◌, ◌^◌, ◌↔◌, length, IsTrue};
ghost use Rattle.std.specs.Option.{option_map};
ghost use Rattle.std.specs.Range.{range_inclusive_start, range_inclusive_end};
ghost use Rattle.wasm_smith_unstructured.specs.Draws.{IsDrawn, given, bool_at, little_at, int_at, choose_at, ratio_at, bytes_at, len_at};

use crate::error::{EmptyChoose, NotEnoughData};
use crate::number::{big_number, little_number, width};
use std::marker::Model;
use std::ops::RangeInclusive;

/// A source that draws values from bytes. A draw takes bytes that are left, or none where there is one
/// possible value. Where too few are left, a number is drawn from those that there are; where none are left,
/// it is zero or the least of its range, `bool` is false and `ratio` is true. [`bytes`](Unstructured::bytes)
/// alone is refused for too few bytes.
///
/// Contracts see a source as the bytes that are left.
#[derive(Debug, Drop)]
pub struct Unstructured<'a> {
    rest: &'a [u8],
}

impl<'a> Model for Unstructured<'a> {
    ghost use Rattle.std.specs.Prelude.{ℕ, List};

    ghost Value = { List ℕ };

    ghost view = { λ source. source.rest.now };
}

impl<'a> Unstructured<'a> {
    /// Creates a source of these bytes.
    pub fn new(bytes: &'a [u8]) -> Self
        ensures { result ≡ bytes.now }
    {
        Unstructured { rest: bytes }
    }

    /// Returns a source of the bytes that are left here.
    pub fn fork(&self) -> Unstructured<'a>
        ensures { result ≡ self.now }
    {
        Unstructured { rest: self.rest }
    }

    /// Checks that no bytes are left.
    pub fn is_empty(&self) -> bool
        ensures { IsTrue result ↔ (length self.now ≡ 0) }
    {
        self.rest.is_empty()
    }

    /// Returns the low bit of a byte.
    #[tactic(auto, unfolding(crate::specs::Draws::bool_at))]
    pub fn bool(&mut self) -> bool
        ensures exact { IsDrawn (λ b. b) result self.new (bool_at self.old) }
        ensures taken { length self.new ≤ length self.old }
    {
        match self.rest {
            [] => false,
            [byte, rest @ ..] => {
                self.rest = rest;
                *byte % 2 == 1
            }
        }
    }

    // Returns the number of so many bytes, least significant first.
    #[tactic(auto, unfolding(crate::specs::Draws::little_at))]
    fn little(&mut self, len: usize) -> u64
        requires { len ≤ 8 }
        ensures exact { IsDrawn (λ n. n) result self.new (little_at len self.old) }
        ensures taken { length self.new ≤ length self.old }
        ensures below { result < 256 ^ len }
    {
        let (front, rest) = self.rest.split_at(self.rest.len().min(len));
        self.rest = rest;
        little_number(front)
    }

    /// Returns a byte.
    pub fn u8(&mut self) -> u8
        ensures exact { IsDrawn (λ n. n) result self.new (little_at 1 self.old) }
        ensures taken { length self.new ≤ length self.old }
    {
        self.little(1) as u8
    }

    /// Returns the number of four bytes, least significant first.
    pub fn u32(&mut self) -> u32
        ensures exact { IsDrawn (λ n. n) result self.new (little_at 4 self.old) }
        ensures taken { length self.new ≤ length self.old }
    {
        self.little(4) as u32
    }

    /// Returns the number of eight bytes, least significant first.
    pub fn u64(&mut self) -> u64
        ensures exact { IsDrawn (λ n. n) result self.new (little_at 8 self.old) }
        ensures taken { length self.new ≤ length self.old }
    {
        self.little(8)
    }

    /// Returns a number of the range, its ends included, whether or not the range was iterated. Its bytes are read most
    /// significant first.
    #[tactic(auto, unfolding(crate::specs::Draws::int_at))]
    pub fn int_in_range(&mut self, range: RangeInclusive<u64>) -> u64
        requires { range_inclusive_start range ≤ range_inclusive_end range }
        ensures exact { IsDrawn (λ n. n) result self.new
            (int_at (range_inclusive_start range) (range_inclusive_end range) self.old) }
        ensures taken { length self.new ≤ length self.old }
        ensures from { range_inclusive_start range ≤ result }
        ensures to { result ≤ range_inclusive_end range }
    {
        let (start, end) = range.into_inner();
        let span = end - start;
        let (front, rest) = self.rest.split_at(self.rest.len().min(width(span)));
        let number = big_number(front);
        self.rest = rest;
        if span == u64::MAX {
            number
        } else {
            start + number % (span + 1)
        }
    }

    /// Returns one of the things.
    ///
    /// # Errors
    /// Exactly where there are none; then nothing is taken.
    pub fn choose<'b, T>(&mut self, things: &'b [T]) -> Result<&'b T, EmptyChoose>
        ensures exact { IsDrawn (given (λ x. x.now)) result self.new (choose_at things.now self.old) }
        ensures taken { length self.new ≤ length self.old }
    {
        let count = things.len();
        if count == 0 {
            return Err(EmptyChoose);
        }
        let index = self.int_in_range(0..=count as u64 - 1);
        Ok(&things[index as usize])
    }

    /// Checks that a number drawn from 1 to `denominator` is at most `numerator`.
    pub fn ratio(&mut self, numerator: u64, denominator: u64) -> bool
        requires some { 0 < numerator }
        requires at_most_all { numerator ≤ denominator }
        ensures exact { IsDrawn (λ b. b) result self.new (ratio_at numerator denominator self.old) }
        ensures taken { length self.new ≤ length self.old }
    {
        self.int_in_range(1..=denominator) <= numerator
    }

    /// Returns the next `len` bytes.
    ///
    /// # Errors
    /// Exactly where fewer are left; then nothing is taken.
    #[tactic(auto, unfolding(crate::specs::Draws::bytes_at))]
    pub fn bytes(&mut self, len: usize) -> Result<&'a [u8], NotEnoughData>
        ensures exact { IsDrawn (given (λ bytes. bytes.now)) result self.new (bytes_at len self.old) }
        ensures taken { length self.new ≤ length self.old }
    {
        if self.rest.len() < len {
            return Err(NotEnoughData);
        }
        let (front, rest) = self.rest.split_at(len);
        self.rest = rest;
        Ok(front)
    }

    /// Returns the bytes that [`bytes`](Unstructured::bytes) would take.
    #[tactic(auto, unfolding(crate::specs::Draws::bytes_at))]
    pub fn peek_bytes(&self, len: usize) -> Option<&'a [u8]>
        ensures { option_map (λ bytes. bytes.now) result ≡ (bytes_at len self.now).0 }
    {
        self.rest.get(..len)
    }

    /// Returns a length, drawn from the last bytes: at most the number of bytes that are left then.
    #[tactic(auto, unfolding(crate::specs::Draws::len_at))]
    pub fn arbitrary_len(&mut self) -> usize
        ensures exact { IsDrawn (λ n. n) result self.new (len_at self.old) }
        ensures taken { length self.new ≤ length self.old }
        ensures within { result ≤ length self.new }
    {
        let len = self.rest.len();
        if len == 0 {
            return 0;
        }
        let left = len - width(len as u64 - 1);
        let (rest, back) = self.rest.split_at(left);
        self.rest = rest;
        (big_number(back) % (left as u64 + 1)) as usize
    }
}
