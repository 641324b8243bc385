//! Writing the report on one module.

ghost use Rattle.std.specs.Prelude.{◌≡◌, Err, Ok, if◌then◌else◌, length, nat_le};
ghost use Rattle.wasm_core.specs.Features.{feature_set};
ghost use Rattle.wasm_gen_c_api.specs.Buffers.{buffer_with};
ghost use Rattle.wasm_gen_c_api.specs.Codes.{short_buffer};
ghost use Rattle.wasm_gen_c_api.specs.Report.{IsReportOf, IsReported, IsToldOf, refusal_line};

use crate::buffers::put;
use crate::check::{features_of, validate};
use crate::codes::{MEMORY, SHORT_BUFFER, UNKNOWN_FEATURES, YES, kind_code};
use std::alloc::Global;
use wasm_core::features::WasmFeatures;
use wasm_gen_view::types_text::text_of_types;
use wasmparser_error::error::{Error, ErrorKind};
use wasmparser_validator::types::TypesRef;

// Returns the line of a refusal of this kind.
fn refusal_line(kind: ErrorKind) -> &'static str
    ensures { result.now ≡ refusal_line kind }
{
    match kind {
        ErrorKind::Malformed => "no malformed\n",
        ErrorKind::Invalid => "no invalid\n",
        ErrorKind::Limit(_) => "no limit\n",
        ErrorKind::Operator => "no operator\n",
        ErrorKind::Body => "no body\n",
        ErrorKind::Total => "no total\n",
        ErrorKind::Order => "no order\n",
        ErrorKind::Failed => "no failed\n",
        ErrorKind::Memory => "no memory\n",
    }
}

// Writes a text where it fits, and returns its code, or `SHORT_BUFFER`.
fn write_text(text: &[u8], code: u32, buffer: &mut [u8], len: &mut usize) -> u32
    ensures told { result ≡ (if nat_le (length text.now) (length buffer.old) then code else short_buffer) }
    ensures needed { len.new ≡ length text.now }
    ensures written { buffer.new ≡ buffer_with text.now buffer.old }
{
    *len = text.len();
    if put(text, buffer) {
        code
    } else {
        SHORT_BUFFER
    }
}

// Writes the text of a valid module's view.
fn write_view(alloc: Global, types: TypesRef<'_>, buffer: &mut [u8], len: &mut usize) -> u32
    ensures { IsToldOf (Ok types.entry.types.now) buffer.old buffer.new len.new result }
{
    match text_of_types(alloc, types) {
        Ok(text) => write_text(&text, YES, buffer, len),
        Err(_) => {
            *len = 0;
            MEMORY
        }
    }
}

// Writes the line of a refusal, or nothing where memory ran out.
fn write_refusal(e: Error, buffer: &mut [u8], len: &mut usize) -> u32
    ensures { IsToldOf (Err e) buffer.old buffer.new len.new result }
{
    let code = kind_code(e.kind);
    if code == MEMORY {
        *len = 0;
        return MEMORY;
    }
    write_text(refusal_line(e.kind).as_bytes(), code, buffer, len)
}

// Validates the bytes, and writes the report on the answer.
fn report_under(
    alloc: Global,
    bytes: &[u8],
    features: WasmFeatures,
    buffer: &mut [u8],
    len: &mut usize,
) -> u32
    ensures { IsReported (feature_set features) bytes.now buffer.old buffer.new len.new result }
{
    let answer = validate(alloc, bytes, features);
    let code = match &answer {
        Ok(types) => write_view(alloc, types.as_ref(), buffer, len),
        Err(e) => write_refusal(*e, buffer, len),
    };
    // (dropped by a call, which is cheaper to prove)
    drop(answer);
    code
}

/// Validates the bytes of a module under the features whose bits are set, and returns the length of the report on it: the text of a valid
/// module's view, or `no`, a space, the kind of the refusal and a newline. It is written at the buffer's front where it fits, and the code is then
/// that of the verdict, and else `SHORT_BUFFER`. What isn't written to stays. Where memory runs out, or a bit is no feature, the code is 9 or
/// `UNKNOWN_FEATURES`, the length is 0, and nothing is written.
pub fn report(alloc: Global, bytes: &[u8], features: u32, buffer: &mut [u8], len: &mut usize) -> u32
    ensures { IsReportOf features bytes.now buffer.old buffer.new len.new result }
{
    match features_of(features) {
        Some(features) => report_under(alloc, bytes, features, buffer, len),
        None => {
            *len = 0;
            UNKNOWN_FEATURES
        }
    }
}
