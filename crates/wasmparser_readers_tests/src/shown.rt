//! Payloads as they are shown in rows.

use std::alloc::Global;
use std::ops::Range;
use wasm_test_rows::shown::displays;
use wasmparser_error::error::Error;
use wasmparser_payloads::payload::Payload;

// The parts of a payload that are shown: its name, its place, its number (of items, of a function, of a name's bytes, an id or a version), and a second number
// (the bytes of bodies, of a body or of an unknown section, and the place of what follows a name).
#[derive(Drop)]
struct Shown {
    name: &'static str,
    start: u64,
    end: u64,
    number: u64,
    second: u64,
}

fn told(name: &'static str, range: Range<u64>, number: u64, second: u64) -> Shown {
    Shown {
        name,
        start: range.start,
        end: range.end,
        number,
        second,
    }
}

fn section(name: &'static str, range: Range<u64>, count: u32) -> Shown {
    told(name, range, count as u64, 0)
}

// Returns the shown parts of a payload with a list.
fn shown_list(payload: &Payload<'_>) -> Option<Shown> {
    match payload {
        Payload::TypeSection(it) => Some(section("type", it.range(), it.count())),
        Payload::ImportSection(it) => Some(section("import", it.range(), it.count())),
        Payload::FunctionSection(it) => Some(section("function", it.range(), it.count())),
        Payload::TableSection(it) => Some(section("table", it.range(), it.count())),
        Payload::MemorySection(it) => Some(section("memory", it.range(), it.count())),
        Payload::TagSection(it) => Some(section("tag", it.range(), it.count())),
        Payload::GlobalSection(it) => Some(section("global", it.range(), it.count())),
        Payload::ExportSection(it) => Some(section("export", it.range(), it.count())),
        Payload::ElementSection(it) => Some(section("element", it.range(), it.count())),
        Payload::DataSection(it) => Some(section("data", it.range(), it.count())),
        _ => None,
    }
}

fn copied(range: &Range<u64>) -> Range<u64> {
    range.start..range.end
}

// Returns the shown parts of another payload.
fn shown_other(payload: &Payload<'_>) -> Option<Shown> {
    match payload {
        Payload::Version { num, range } => Some(told("version", copied(range), *num as u64, 0)),
        Payload::StartSection { func, range } => Some(section("start", copied(range), *func)),
        Payload::DataCountSection { count, range } => {
            Some(section("datacount", copied(range), *count))
        }
        Payload::CodeSectionStart {
            count,
            unchecked_range,
            size,
        } => Some(told("code", copied(unchecked_range), *count as u64, *size)),
        Payload::CodeSectionEntry(body) => {
            let reader = body.get_binary_reader();
            Some(told(
                "body",
                body.range(),
                reader.original_position(),
                body.as_bytes().len() as u64,
            ))
        }
        Payload::CustomSection(it) => Some(told(
            "custom",
            it.range(),
            it.name().len() as u64,
            it.data_offset(),
        )),
        Payload::UnknownSection {
            id,
            contents,
            range,
        } => Some(told("unknown", copied(range), *id as u64, contents.len() as u64)),
        Payload::End(place) => Some(told("end", *place..*place, 0, 0)),
        _ => None,
    }
}

fn is_named(alloc: Global, it: &Shown, words: &str) -> bool {
    match format!(in alloc;
        "{} {} {} {} {}",
        it.name, it.start, it.end, it.number, it.second
    ) {
        Ok(found) => found.as_str() == words,
        Err(_) => false,
    }
}

fn is_payload(alloc: Global, payload: &Payload<'_>, words: &str) -> bool {
    if let Some(it) = shown_list(payload) {
        return is_named(alloc, &it, words);
    }
    match shown_other(payload) {
        Some(it) => is_named(alloc, &it, words),
        None => false,
    }
}

/// Checks that what a parser gave is told by these words.
pub fn is_shown(alloc: Global, given: &Result<Payload<'_>, Error>, words: &str) -> bool {
    match given {
        Ok(payload) => is_payload(alloc, payload, words),
        Err(error) => displays(alloc, error, words),
    }
}
