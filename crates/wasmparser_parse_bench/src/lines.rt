//! Payloads as lines.

use std::ops::Range;
use wasmparser_payloads::payload::Payload;

// Prints the name of a payload, its place, and how many items it has.
fn print_line<R: Print>(rt: &R, name: &str, range: &Range<u64>, count: u32) -> Option<()> {
    println!(rt; "{} {} {} {}", name, range.start, range.end, count).ok()
}

// Prints the line of a payload with a list.
fn print_list<R: Print>(rt: &R, payload: &Payload<'_>) -> Option<()> {
    match payload {
        Payload::TypeSection(it) => print_line(rt, "Type", &it.range(), it.count()),
        Payload::ImportSection(it) => print_line(rt, "Import", &it.range(), it.count()),
        Payload::FunctionSection(it) => print_line(rt, "Function", &it.range(), it.count()),
        Payload::TableSection(it) => print_line(rt, "Table", &it.range(), it.count()),
        Payload::MemorySection(it) => print_line(rt, "Memory", &it.range(), it.count()),
        Payload::TagSection(it) => print_line(rt, "Tag", &it.range(), it.count()),
        Payload::GlobalSection(it) => print_line(rt, "Global", &it.range(), it.count()),
        Payload::ExportSection(it) => print_line(rt, "Export", &it.range(), it.count()),
        Payload::ElementSection(it) => print_line(rt, "Elem", &it.range(), it.count()),
        Payload::DataSection(it) => print_line(rt, "Data", &it.range(), it.count()),
        _ => print_other(rt, payload),
    }
}

// Prints the line of another payload.
fn print_other<R: Print>(rt: &R, payload: &Payload<'_>) -> Option<()> {
    match payload {
        Payload::Version { num, range } => print_line(rt, "Version", range, u32::from(*num)),
        Payload::StartSection { func, range } => print_line(rt, "Start", range, *func),
        Payload::DataCountSection { count, range } => print_line(rt, "DataCount", range, *count),
        Payload::CodeSectionStart {
            count,
            unchecked_range,
            ..
        } => print_line(rt, "Code", unchecked_range, *count),
        Payload::CodeSectionEntry(body) => print_line(rt, "body", &body.range(), 0),
        Payload::UnknownSection { id, range, .. } => {
            print_line(rt, "Unknown", range, u32::from(*id))
        }
        Payload::End(place) => print_line(rt, "End", &(*place..*place), 0),
        _ => None,
    }
}

/// Prints the line of a payload: its name, where it begins and ends, and how many items it has; of a custom section the
/// section's name.
pub fn print_payload<R: Print>(rt: &R, payload: &Payload<'_>) -> Option<()> {
    match payload {
        Payload::CustomSection(it) => {
            let range = it.range();
            println!(rt; "Custom {} {} {}", range.start, range.end, it.name()).ok()
        }
        _ => print_list(rt, payload),
    }
}
