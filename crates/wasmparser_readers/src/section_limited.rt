//! Sections of items of one kind.

ghost use Rattle.std.specs.Prelude.{◌≡◌, ◌≤◌};
ghost use Rattle.wasm_core_read.specs.Input.{end};
ghost use Rattle.wasm_core_read.specs.Reading.{AnswersAll};
ghost use Rattle.wasmparser_readers.specs.Sections.{ReadsNextItem, IsEmpty, limited_of};

use crate::from_reader::FromReader;
use crate::passing::fork;
use std::alloc::{AllocError, Global};
use std::iter::Iterator;
use std::marker::{Model, PhantomData};
use std::ops::Range;
use wasm_core_read::binary_reader::BinaryReader;
use wasm_core_read::malformed::Malformed;
use wasm_core_types::features::WasmFeatures;
use wasmparser_error::error::{Error, ErrorKind};

/// A section of items of one kind, which are read one by one. Contracts see it as where its content begins, and what
/// follows the number of its items.
#[derive(Debug, Drop)]
pub struct SectionLimited<'a, T> {
    start: u64,
    count: u32,
    reader: BinaryReader<'a>,
    kind: PhantomData<T>,
}

impl<'a, T> Model for SectionLimited<'a, T> {
    ghost use Rattle.std.specs.Prelude.{◌≤◌};
    ghost use Rattle.wasmparser_readers.specs.Sections.{Limited};

    ghost Value = { Limited };

    ghost view = { λ s. record { start = s.start; left = record { count = s.count; input = s.reader } } };

    ghost invariant = { λ s. s.start ≤ s.reader.position };
}

// (by hand, since an item need not be `Clone`)
impl<'a, T> Clone for SectionLimited<'a, T> {
    ghost use Rattle.std.specs.Prelude.{◌≡◌, ⊤};

    ghost is_clone = { λ s r. r ≡ s };

    ghost is_infallible = { λ _. ⊤ };

    fn clone(&self) -> Result<SectionLimited<'a, T>, AllocError> {
        Ok(SectionLimited {
            start: self.start,
            count: self.count,
            reader: fork(&self.reader),
            kind: PhantomData,
        })
    }
}

impl<'a, T> SectionLimited<'a, T> {
    /// Creates the section whose content a reader has before it. The number of its items stands first (Core Specification 3.0,
    /// Binary Format, "Lists").
    ///
    /// # Errors
    /// Where no number reads. The items are read later.
    #[tactic(auto, unfolding(crate::specs::Sections::limited_of))]
    pub fn new(mut reader: BinaryReader<'a>) -> Result<SectionLimited<'a, T>, Malformed>
        ensures { AnswersAll (λ s. s) reader.entry result (limited_of reader.entry) }
    {
        let start = reader.original_position();
        let count = reader.read_var_u32()?;
        Ok(SectionLimited {
            start,
            count,
            reader,
            kind: PhantomData,
        })
    }

    /// Returns the number of items that is stated.
    pub fn count(&self) -> u32
        ensures { result ≡ self.now.left.count }
    {
        self.count
    }

    /// Returns the bytes of the items.
    pub fn remaining_buffer(&self) -> &'a [u8]
        ensures { result.now ≡ self.now.left.input.rest }
    {
        self.reader.remaining_buffer()
    }

    /// Returns the place of the content in the input.
    pub fn range(&self) -> Range<u64>
        ensures start { result.start ≡ self.now.start }
        ensures end { result.end ≡ end self.now.left.input }
        ensures ordered { result.start ≤ result.end }
    {
        self.start..self.reader.original_position() + self.reader.bytes_remaining() as u64
    }

    /// Returns the items. Those of types take memory.
    pub fn into_iter(self, alloc: Global) -> SectionLimitedIntoIter<'a, T>
        ensures { result ≡ self.entry.left }
    {
        SectionLimitedIntoIter {
            items: self.into_iter_with_offsets(alloc),
        }
    }

    /// Returns the items, each with its place in the input.
    pub fn into_iter_with_offsets(self, alloc: Global) -> SectionLimitedIntoIterWithOffsets<'a, T>
        ensures { result ≡ self.entry.left }
    {
        SectionLimitedIntoIterWithOffsets {
            alloc,
            reader: self.reader,
            left: self.count,
            kind: PhantomData,
        }
    }
}

/// The items of a section that are still to come. After an error there are none.
#[derive(Debug, Drop)]
pub struct SectionLimitedIntoIter<'a, T> {
    items: SectionLimitedIntoIterWithOffsets<'a, T>,
}

/// The items of a section that are still to come, with their places in the input. After an error there are none.
#[derive(Debug, Drop)]
pub struct SectionLimitedIntoIterWithOffsets<'a, T> {
    alloc: Global,
    reader: BinaryReader<'a>,
    left: u32,
    kind: PhantomData<T>,
}

impl<'a, T> Model for SectionLimitedIntoIterWithOffsets<'a, T> {
    ghost use Rattle.wasmparser_readers.specs.Sections.{Left};

    ghost Value = { Left };

    ghost view = { λ s. record { count = s.left; input = s.reader } };
}

impl<'a, T: FromReader<'a>> SectionLimitedIntoIterWithOffsets<'a, T> {
    ghost use Rattle.std.specs.Prelude.{◌<◌, ◌+◌, OnErr, length};

    // Reads the next item, and tells its place.
    #[tactic(auto, using(crate::proofs::ItemLaws::no_bytes))]
    fn read_next(&mut self) -> Result<Option<(u64, T)>, Error>
        ensures reads { ReadsNextItem T.form T.IsOfModule T.TakesMemory T.indexes T.form_at self.old self.new result }
        ensures left { OnErr result (0 < self.old.count + length self.old.input.rest) }
    {
        let offset = self.reader.original_position();
        if self.left == 0 {
            if self.reader.eof() {
                return Ok(None);
            }
            return Err(Error {
                offset,
                kind: ErrorKind::Malformed,
            });
        }
        let item = T::from_reader(self.alloc, &mut self.reader)?;
        self.left -= 1;
        Ok(Some((offset, item)))
    }

    // Leaves no items.
    fn end(&mut self)
        ensures { IsEmpty self.new }
    {
        self.left = 0;
        self.reader = BinaryReader::new(&[], 0);
    }
}

impl<'a, T: FromReader<'a>> Iterator for SectionLimitedIntoIterWithOffsets<'a, T> {
    ghost use Rattle.wasmparser_readers.specs.Sections.{ReadsNext, at_most_left};

    type Item = Result<(u64, T), Error>;

    ghost next_gives = { λ old next new. ReadsNext T.form T.IsOfModule T.TakesMemory T.indexes T.form_at old new next };

    ghost remaining = { at_most_left };

    fn next(&mut self) -> Option<Result<(u64, T), Error>> {
        match self.read_next() {
            Ok(Some(item)) => Some(Ok(item)),
            Ok(None) => None,
            Err(error) => {
                self.end();
                Some(Err(error))
            }
        }
    }
}

impl<'a, T> Model for SectionLimitedIntoIter<'a, T> {
    ghost use Rattle.wasmparser_readers.specs.Sections.{Left};

    ghost Value = { Left };

    ghost view = { λ s. s.items };
}

impl<'a, T: FromReader<'a>> Iterator for SectionLimitedIntoIter<'a, T> {
    ghost use Rattle.wasmparser_readers.specs.Sections.{GivesNext, at_most_left};

    type Item = Result<T, Error>;

    ghost next_gives = { λ old next new. GivesNext T.form T.IsOfModule T.TakesMemory T.indexes T.form_at old new next };

    ghost remaining = { at_most_left };

    fn next(&mut self) -> Option<Result<T, Error>> {
        match self.items.next()? {
            Ok((_, item)) => Some(Ok(item)),
            Err(error) => Some(Err(error)),
        }
    }
}
