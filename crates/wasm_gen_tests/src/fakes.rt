//! Readers and writers that fail as a test asks.
ghost use Rattle.std.specs.Prelude.{◌≡◌, ◌+◌, IfOk, IfSome, Some};
ghost use Rattle.std.specs.Option.{option_map};
ghost use Rattle.wasm_gen_program.specs.Device.{FailsWrite, Tells};

use std::alloc::Global;
use std::io;
use std::io::{Error, ErrorKind, Read};
use wasm_gen::device::{Sink, Source};

/// A reader that takes one step of its script at each call, and then another step without end. A step is a byte: for `~` a signal cuts the call short,
/// for `!` it fails, for `.` it gives nothing, as at the end, and any other byte it gives.
#[derive(Drop)]
pub struct ScriptedReader<'a> {
    script: &'a [u8],
    then: u8,
}

impl<'a> ScriptedReader<'a> {
    /// Creates a reader that takes the steps of the script, and the last of them without end.
    pub fn new(script: &'a str) -> Self {
        match script.as_bytes().split_last() {
            Some((then, script)) => ScriptedReader {
                script,
                then: *then,
            },
            None => ScriptedReader {
                script: &[],
                then: b'.',
            },
        }
    }
}

impl Read for ScriptedReader<'_> {
    fn read(&mut self, buffer: &mut [u8]) -> io::Result<usize> {
        let mut step = self.then;
        if let Some((first, rest)) = self.script.split_first() {
            step = *first;
            self.script = rest;
        }
        match step {
            b'~' => Err(Error::from(ErrorKind::Interrupted)),
            b'!' => Err(Error::from(ErrorKind::BrokenPipe)),
            b'.' => Ok(0),
            byte => match buffer.first_mut() {
                Some(first) => {
                    *first = byte;
                    Ok(1)
                }
                None => Ok(0),
            },
        }
    }
}

/// Counts of reads: all of them, and those that failed or gave no byte.
#[derive(Clone, Copy, Default, PartialEq, Eq)]
pub struct Told {
    /// The reads.
    pub asked: u64,
    /// Those of them that failed other than by a signal.
    pub failed: u64,
    /// Those of them that gave no byte.
    pub ended: u64,
}

impl Told {
    // Returns the counts after one more read, where there is room for them.
    fn next(self, failures: u64, ends: u64) -> Option<Told>
        ensures asked { IfSome result (λ told. told.asked ≡ self.asked + 1) }
        ensures failed { IfSome result (λ told. told.failed ≡ self.failed + failures) }
        ensures ended { IfSome result (λ told. told.ended ≡ self.ended + ends) }
    {
        Some(Told {
            asked: self.asked.checked_add(1)?,
            failed: self.failed.checked_add(failures)?,
            ended: self.ended.checked_add(ends)?,
        })
    }
}

/// A source that tells all: it gives the bytes of a slice one a call, and may fail where so many are left.
#[derive(Drop)]
pub struct TellingReader<'a> {
    /// The bytes that are left.
    pub rest: &'a [u8],
    /// Number of the bytes that are left where it fails.
    pub fails_with: Option<usize>,
    /// The kind of that failure.
    pub kind: ErrorKind,
    /// The counts of its reads.
    pub told: Option<Told>,
}

impl<'a> TellingReader<'a> {
    /// Returns a reader of these bytes that fails where so many are left, and counts nothing.
    pub fn failing(bytes: &'a [u8], left: usize) -> Self {
        TellingReader {
            rest: bytes,
            fails_with: Some(left),
            kind: ErrorKind::BrokenPipe,
            told: None,
        }
    }
}

impl TellingReader<'_> {
    // Counts one more read. The counts are dropped where one of them has no room for it.
    fn count(&mut self, failures: u64, ends: u64)
        ensures kept { self.new ≡ record self.old { told = self.new.told } }
        ensures told { Tells (λ old new. (new.asked ≡ old.asked + 1)
            × (new.failed ≡ old.failed + failures) × (new.ended ≡ old.ended + ends))
            self.old.told self.new.told }
    {
        self.told = match self.told {
            Some(told) => told.next(failures, ends),
            None => None,
        };
    }
}

impl Source for TellingReader<'_> {
    ghost use Rattle.wasm_gen_program.specs.Device.{ReadCounts, SourceView};

    ghost seen = { λ s. record {
      remaining = Some s.rest.now;
      reads = option_map (λ told.
          record { asked = told.asked; failed = told.failed; ended = told.ended }) s.told;
    } };

    fn read(&mut self, buffer: &mut [u8]) -> io::Result<usize> {
        if self.fails_with == Some(self.rest.len()) {
            let failures = u64::from(self.kind != ErrorKind::Interrupted);
            self.count(failures, 0);
            return Err(Error::from(self.kind));
        }
        match (self.rest.split_first(), buffer.first_mut()) {
            (Some((byte, rest)), Some(first)) => {
                *first = *byte;
                self.rest = rest;
                self.count(0, 0);
                Ok(1)
            }
            _ => {
                self.count(0, 1);
                Ok(0)
            }
        }
    }
}

/// The behaviour of a [`NarrowWriter`] at a call once it is full.
#[derive(Clone, Copy)]
pub enum WhenFull {
    /// It fails.
    Fails,
    /// It takes no byte.
    TakesNone,
}

/// A sink that tells all: it takes one byte a call until it is full.
#[derive(Drop)]
pub struct NarrowWriter {
    /// The bytes that it took.
    pub taken: Vec<u8>,
    /// The number of calls at which it failed or took no byte.
    pub faults: Option<u64>,
    room: usize,
    when_full: WhenFull,
}

impl NarrowWriter {
    /// Creates a writer that takes so many bytes.
    pub fn new(alloc: Global, room: usize, when_full: WhenFull) -> Self {
        NarrowWriter {
            taken: Vec::new(alloc),
            faults: Some(0),
            room,
            when_full,
        }
    }

    // Counts one more fault, and fails or takes no byte. The count is dropped where it has no room for one more.
    fn fail(&mut self) -> io::Result<usize>
        ensures none { IfOk result (λ n. n ≡ 0) }
        ensures kept { self.new.taken.items ≡ self.old.taken.items }
        ensures told { FailsWrite self.old.faults self.new.faults }
    {
        self.faults = match self.faults {
            Some(faults) => faults.checked_add(1),
            None => None,
        };
        match self.when_full {
            WhenFull::Fails => Err(Error::from(ErrorKind::BrokenPipe)),
            WhenFull::TakesNone => Ok(0),
        }
    }
}

impl Sink for NarrowWriter {
    ghost use Rattle.wasm_gen_program.specs.Device.{SinkView};

    ghost seen = { λ s. record { contents = Some s.taken.items; faults = s.faults } };

    fn write(&mut self, buffer: &[u8]) -> io::Result<usize> {
        let Some(byte) = buffer.first() else {
            return self.fail();
        };
        if self.taken.len() < self.room && self.taken.push(*byte).is_ok() {
            return Ok(1);
        }
        self.fail()
    }
}
