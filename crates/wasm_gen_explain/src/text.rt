//! The text of places.

ghost use Rattle.std.specs.Prelude.{◌≡◌, ◌++◌, IfOk, decimal, string_bytes};
ghost use Rattle.wasm_gen_explain.specs.Names.{name_at};
ghost use Rattle.wasm_gen_explain.specs.Text.{limit_text, line_text, name_or_number, named, place_text, section_names, section_text};

use crate::place::Place;
use itoa::Buffer;
use std::alloc::{AllocError, Global};
use wasm_core_types::limits::Limit;
use wasmparser_error::error::{Error, ErrorKind};

// Appends a number.
fn put_number(number: u64, out: &mut String) -> Result<(), AllocError>
    ensures { IfOk result (λ _. string_bytes out.new ≡ string_bytes out.old ++ decimal number) }
{
    out.push_str(Buffer::new().format(number))
}

// Appends a word and a number.
fn put_numbered(word: &str, number: u64, out: &mut String) -> Result<(), AllocError>
    ensures { IfOk result (λ _. string_bytes out.new ≡ string_bytes out.old ++ word.now ++ decimal number) }
{
    out.push_str(word)?;
    put_number(number, out)
}

// Returns the name of the sections with this id, which is empty where the format has none.
fn section_name(id: u8) -> &'static str
    ensures { result.now ≡ name_at section_names id }
{
    match id {
        0 => "custom",
        1 => "type",
        2 => "import",
        3 => "function",
        4 => "table",
        5 => "memory",
        6 => "global",
        7 => "export",
        8 => "start",
        9 => "element",
        10 => "code",
        11 => "data",
        12 => "data count",
        13 => "tag",
        14..=u8::MAX => "",
    }
}

// Appends a name, or a number where it is empty.
fn put_name_or_number(name: &str, number: u64, out: &mut String) -> Result<(), AllocError>
    ensures { IfOk result (λ _. string_bytes out.new ≡ string_bytes out.old ++ name_or_number name.now number) }
{
    if name.is_empty() {
        return put_number(number, out);
    }
    out.push_str(name)
}

// Appends the name of a section, or its id where it has none.
fn put_section(id: u8, out: &mut String) -> Result<(), AllocError>
    ensures { IfOk result (λ _. string_bytes out.new ≡ string_bytes out.old ++ section_text id) }
{
    out.push_str("section ")?;
    put_name_or_number(section_name(id), u64::from(id), out)
}

// Appends a name in parentheses, if there is one.
fn put_name(name: &str, out: &mut String) -> Result<(), AllocError>
    ensures { IfOk result (λ _. string_bytes out.new ≡ string_bytes out.old ++ named name.now) }
{
    if name.is_empty() {
        return Ok(());
    }
    out.push_str(" (")?;
    out.push_str(name)?;
    out.push_str(")")
}

// Appends what a place is called.
fn put_place(place: &Place, out: &mut String) -> Result<(), AllocError>
    ensures { IfOk result (λ _. string_bytes out.new ≡ string_bytes out.old ++ place_text place.now) }
{
    match place {
        Place::Header => out.push_str("header"),
        Place::Section { id } => put_section(*id, out),
        Place::Entry { id, number } => {
            put_section(*id, out)?;
            put_numbered(", entry ", u64::from(*number), out)
        }
        Place::Function { function } => put_numbered("function ", *function, out),
        Place::Locals { function } => {
            put_numbered("function ", *function, out)?;
            out.push_str(", locals")
        }
        Place::Operator {
            function,
            number,
            name,
        } => {
            put_numbered("function ", *function, out)?;
            put_numbered(", operator ", *number, out)?;
            put_name(name, out)
        }
        Place::End => out.push_str("end"),
    }
}

// Appends a limit that is passed, and the greatest number that it lets through.
fn put_limit(limit: Limit, out: &mut String) -> Result<(), AllocError>
    ensures { IfOk result (λ _. string_bytes out.new ≡ string_bytes out.old ++ limit_text limit) }
{
    out.push_str("; the limit ")?;
    out.push_str(limit.name())?;
    put_numbered(" is ", limit.max(), out)
}

/// Returns the line on an error at a place, without a line feed: its offset, the place, and if it is a limit its name and the greatest number that
/// it lets through.
///
/// # Errors
/// Where memory runs out.
pub fn line(alloc: Global, place: &Place, error: &Error) -> Result<String, AllocError>
    ensures { IfOk result (λ line. string_bytes line ≡ line_text place.now error.now) }
{
    let mut out = String::new(alloc);
    put_numbered("at offset ", error.offset, &mut out)?;
    out.push_str(": ")?;
    put_place(place, &mut out)?;
    if let ErrorKind::Limit(limit) = error.kind {
        put_limit(limit, &mut out)?;
    }
    Ok(out)
}
