//! Reading whole inputs, and writing whole outputs.

use crate::answers::is_front;
use crate::fakes::{NarrowWriter, ScriptedReader, TellingReader, Told, WhenFull};
use std::alloc::Global;
use std::io::ErrorKind;
use std::test::Fail;
use wasm_gen::error::RunError;
use wasm_gen::transfer::{CHUNK_SIZE, MAX_INPUT, MAX_TURNS, read_whole, write_whole};
use wasm_test_rows::fields::four_fields;
use wasm_test_rows::rows::check_rows;
use wasm_test_rows::values::number_of;

const TEXT: &[u8] = b"yes types=0\n";

// Checks that a slice is read whole, and nothing is left of it.
fn is_read_whole(alloc: Global, input: &[u8]) -> bool {
    let mut reader = input;
    match read_whole(alloc, &mut reader, input.len(), 5) {
        Ok(bytes) => bytes.as_slice() == input && reader.is_empty(),
        Err(_) => false,
    }
}

#[test]
fn reads_a_slice_whole(rt: HostRuntime) {
    let input = [7; 3 * CHUNK_SIZE];
    for size in [
        0,
        1,
        CHUNK_SIZE - 1,
        CHUNK_SIZE,
        CHUNK_SIZE + 1,
        3 * CHUNK_SIZE,
    ] {
        assert!(rt; is_read_whole(rt.alloc(), &input[..size]));
    }
}

// The script of a reader, the most bytes and turns that are allowed, and the bytes that are read, or the error.
const SCRIPTS: &str = "
    ~a~~b. | 268435456 | 536870912 | ab
    a~.    | 1         | 3         | a
    !      | 268435456 | 536870912 | Read
    a!     | 268435456 | 536870912 | Read
    ab!    | 268435456 | 536870912 | Read
    ab~!   | 268435456 | 536870912 | Read
    ab~c!  | 268435456 | 536870912 | Read
    ~      | 268435456 | 0         | Read
    ~      | 268435456 | 1         | Read
    ~      | 268435456 | 100       | Read
    a~.    | 1         | 2         | Read
    a      | 0         | 536870912 | TooLong
    a      | 1         | 536870912 | TooLong
    a      | 10        | 536870912 | TooLong
";

// Checks that reading a script gives this: the bytes, or the error.
fn reads(alloc: Global, script: &str, most: u64, turns: u64, expected: &str) -> Option<bool> {
    let mut reader = ScriptedReader::new(script);
    match read_whole(alloc, &mut reader, usize::try_from(most).ok()?, turns) {
        Ok(bytes) => Some(bytes.as_slice() == expected.as_bytes()),
        Err(RunError::Read) => Some(expected == "Read"),
        Err(RunError::TooLong) => Some(expected == "TooLong"),
        Err(_) => None,
    }
}

// Checks that a row holds.
fn holds(alloc: Global, row: &str) -> Option<bool> {
    let (script, most, turns, expected) = four_fields(row)?;
    reads(alloc, script, number_of(most)?, number_of(turns)?, expected)
}

#[test]
fn reads_up_to_the_end_or_a_failure(rt: HostRuntime) -> Result<(), Fail> {
    Ok(check_rows(rt.alloc(), SCRIPTS, 14, holds)?)
}

// Checks that the text is read where so many bytes are allowed, and refused where it is longer.
fn is_read_within(alloc: Global, most: usize) -> bool {
    let mut reader = TEXT;
    match read_whole(alloc, &mut reader, most, MAX_TURNS) {
        Ok(bytes) => most >= TEXT.len() && bytes.as_slice() == TEXT,
        Err(e) => most < TEXT.len() && e == RunError::TooLong,
    }
}

#[test]
fn reads_no_more_than_is_allowed(rt: HostRuntime) {
    for most in 0..=TEXT.len() {
        assert!(rt; is_read_within(rt.alloc(), most));
    }
}

// Checks that a read of the text, which may fail in this way where two bytes are left, asks so often.
fn asks(alloc: Global, fails_with: Option<usize>, kind: ErrorKind, told: Told) -> bool {
    let mut reader = TellingReader {
        rest: TEXT,
        fails_with,
        kind,
        told: Some(Told::default()),
    };
    let answer = read_whole(alloc, &mut reader, MAX_INPUT, 20);
    answer.is_ok() == fails_with.is_none() && reader.told == Some(told)
}

// Returns the counts of so many reads, of which so many failed and so many gave no byte.
fn counts(asked: u64, failed: u64, ended: u64) -> Told {
    Told {
        asked,
        failed,
        ended,
    }
}

#[test]
fn stops_at_the_first_end_or_failure(rt: HostRuntime) {
    let alloc = rt.alloc();
    let last = Some(TEXT.len() - 2);
    assert!(rt; asks(alloc, None, ErrorKind::Other, counts(13, 0, 1)));
    assert!(rt; asks(alloc, last, ErrorKind::BrokenPipe, counts(3, 1, 0)));
    assert!(rt; asks(alloc, last, ErrorKind::Interrupted, counts(20, 0, 0)));
}

// Checks that a vector takes the text whole.
fn fills_a_vector(alloc: Global) -> bool {
    let mut all = Vec::new(alloc);
    write_whole(&mut all, TEXT) == Ok(()) && all.as_slice() == TEXT
}

#[test]
fn writes_bytes_into_a_vector(rt: HostRuntime) {
    assert!(rt; fills_a_vector(rt.alloc()));
}

// Checks that a writer of this room takes as much of the text, and fails once where that is not all. Nothing more asks for no more room.
fn fills(alloc: Global, room: usize, when_full: WhenFull) -> bool {
    let mut writer = NarrowWriter::new(alloc, room, when_full);
    let answer = write_whole(&mut writer, TEXT);
    let (expected, faults) = if room < TEXT.len() {
        (Err(RunError::Write), 1)
    } else {
        (Ok(()), 0)
    };
    let is_right = answer == expected && write_whole(&mut writer, &[]) == Ok(());
    is_right && is_front(&writer.taken, TEXT, room) && writer.faults == Some(faults)
}

#[test]
fn writes_as_much_as_there_is_room(rt: HostRuntime) {
    for room in 0..=TEXT.len() {
        for when_full in [WhenFull::Fails, WhenFull::TakesNone] {
            assert!(rt; fills(rt.alloc(), room, when_full));
        }
    }
}
