//! Making a module of what a reader gives.

use crate::answers::is_front;
use crate::fakes::{NarrowWriter, ScriptedReader, TellingReader, WhenFull};
use std::alloc::Global;
use std::io;
use wasm_core::limits::Limit;
use wasm_gen::device::Source;
use wasm_gen::error::{GenerateError, RunError};
use wasm_gen::run::run_generate;
use wasm_gen::smith::Config;
use wasm_smith_config_rows::settings::plain_config;

// A seed of one type and one function, and the bytes that are made of it.
const SEED: &[u8] = &[0x01, 0x00, 0x00, 0x00, 0x01];

const MODULE: &[u8] = &[
    0x00, 0x61, 0x73, 0x6d, 0x01, 0x00, 0x00, 0x00, 0x01, 0x04, 0x01, 0x60, 0x00, 0x00, 0x03, 0x02,
    0x01, 0x00, 0x0a, 0x05, 0x01, 0x03, 0x00, 0x00, 0x0b,
];

// Checks that exactly the module is made of the seed.
fn makes_the_module(alloc: Global) -> bool {
    let mut reader = SEED;
    let mut written = Vec::new(alloc);
    let answer = run_generate(alloc, &plain_config(), &mut reader, &mut written);
    answer == Ok(()) && written.as_slice() == MODULE
}

#[test]
fn writes_the_module_of_a_seed(rt: HostRuntime) {
    assert!(rt; makes_the_module(rt.alloc()));
}

// Checks that a writer of this room takes as much of the module, and the run is refused where that is not all.
fn fills(alloc: Global, room: usize, when_full: WhenFull) -> bool {
    let mut reader = SEED;
    let mut writer = NarrowWriter::new(alloc, room, when_full);
    let answer = run_generate(alloc, &plain_config(), &mut reader, &mut writer);
    let expected = if room < MODULE.len() {
        Err(RunError::Write)
    } else {
        Ok(())
    };
    answer == expected && is_front(&writer.taken, MODULE, room)
}

#[test]
fn writes_as_much_as_there_is_room(rt: HostRuntime) {
    for room in 0..=MODULE.len() {
        for when_full in [WhenFull::Fails, WhenFull::TakesNone] {
            assert!(rt; fills(rt.alloc(), room, when_full));
        }
    }
}

// Checks that a run is refused so, and writes nothing.
fn is_refused_for<R: Source + Drop>(
    alloc: Global,
    config: &Config,
    mut reader: R,
    error: RunError,
) -> bool {
    let mut written = Vec::new(alloc);
    let answer = run_generate(alloc, config, &mut reader, &mut written);
    answer == Err(error) && written.is_empty()
}

// Least and most types, least functions, and why no module is made.
const REFUSED: &[(u32, u32, u32, GenerateError)] = &[
    (0, 0, 1, GenerateError::Minimum),
    (1, 0, 1, GenerateError::Config("min_types")),
    (1_000_001, 1_000_001, 0, GenerateError::Limit(Limit::Types)),
];

#[test]
fn writes_nothing_of_a_refused_seed(rt: HostRuntime) {
    let mut config = plain_config();
    for (min_types, max_types, min_funcs, cause) in REFUSED {
        config.min_types = *min_types;
        config.max_types = *max_types;
        config.min_funcs = *min_funcs;
        let error = RunError::Generate(*cause);
        assert!(rt; is_refused_for(rt.alloc(), &config, SEED, error));
    }
}

#[test]
fn writes_nothing_where_a_read_fails(rt: HostRuntime) {
    let config = plain_config();
    for left in 0..=SEED.len() {
        let reader = TellingReader::failing(SEED, left);
        assert!(rt; is_refused_for(rt.alloc(), &config, reader, RunError::Read));
    }
    for script in ["\x01~!", "\x01~\0!"] {
        let reader = ScriptedReader::new(script);
        assert!(rt; is_refused_for(rt.alloc(), &config, reader, RunError::Read));
    }
}

#[test]
fn writes_nothing_of_an_input_without_end(rt: HostRuntime) {
    let reader = io::repeat(1);
    assert!(rt; is_refused_for(rt.alloc(), &plain_config(), reader, RunError::TooLong));
}
