//! The codes that calls answer. Each has one meaning, whichever call answers it.

ghost use Rattle.std.specs.Prelude.{◌≡◌, ◌≤◌, length};
ghost use Rattle.wasm_gen_c_api.specs.Buffers.{buffer_with};
ghost use Rattle.wasm_gen_c_api.specs.Codes.{code_name, kind_code, refusal_code, text_code};

use crate::buffers::put;
use wasm_gen_config::config_error::ConfigError;
use wasm_gen_sessions::error::GenerateError;
use wasmparser_error::error::ErrorKind;

/// The module is valid, or what was asked for was written.
pub const YES: u32 = 0;

/// Memory ran out.
pub const MEMORY: u32 = 9;

/// A bit of the features stands for none.
pub const UNKNOWN_FEATURES: u32 = 10;

/// The buffer is shorter than what is to be written.
pub const SHORT_BUFFER: u32 = 11;

/// The text gives no configuration.
pub const CONFIG_TEXT: u32 = 12;

// A limit is passed, of the bytes or of what is made.
const LIMIT: u32 = 3;

/// Returns the code of a refusal by the validator, from 1 to 9.
pub fn kind_code(kind: ErrorKind) -> u32
    ensures { result ≡ kind_code kind }
{
    match kind {
        ErrorKind::Malformed => 1,
        ErrorKind::Invalid => 2,
        ErrorKind::Limit(_) => LIMIT,
        ErrorKind::Operator => 4,
        ErrorKind::Body => 5,
        ErrorKind::Total => 6,
        ErrorKind::Order => 7,
        ErrorKind::Failed => 8,
        ErrorKind::Memory => MEMORY,
    }
}

/// Returns the code of a refusal by the generator: 3, 9, or from 13 to 17.
pub fn refusal_code(error: &GenerateError) -> u32
    ensures { result ≡ refusal_code error.now }
{
    match error {
        GenerateError::Limit(_) => LIMIT,
        GenerateError::Memory => MEMORY,
        GenerateError::Config(_) => 13,
        GenerateError::Shape(_) => 14,
        GenerateError::Minimum => 15,
        GenerateError::EmptyChoice => 16,
        GenerateError::TypeSize => 17,
    }
}

/// Returns the code of a text that gives no configuration: `CONFIG_TEXT`, or 9 where memory ran out.
pub fn text_code(error: &ConfigError) -> u32
    ensures { result ≡ text_code error.now }
{
    match error {
        ConfigError::Text(_) | ConfigError::Key { .. } => CONFIG_TEXT,
        ConfigError::Memory => MEMORY,
    }
}

/// Returns the name of a code, in ASCII, which is empty for a number that is none.
pub fn code_name(code: u32) -> &'static str
    ensures { result.now ≡ code_name code }
{
    match code {
        0 => "yes",
        1 => "malformed",
        2 => "invalid",
        3 => "limit",
        4 => "operator",
        5 => "body",
        6 => "total",
        7 => "order",
        8 => "failed",
        9 => "memory",
        10 => "features",
        11 => "buffer",
        12 => "config text",
        13 => "config",
        14 => "shape",
        15 => "minimum",
        16 => "empty choice",
        17 => "type size",
        18..=u32::MAX => "",
    }
}

/// Writes what a code is called at the buffer's front where it fits, and returns its length, which is at most 12. What isn't written to stays.
pub fn put_name(code: u32, buffer: &mut [u8]) -> usize
    ensures length { result ≡ length (code_name code) }
    ensures short { result ≤ 12 }
    ensures written { buffer.new ≡ buffer_with (code_name code) buffer.old }
{
    let name = code_name(code);
    let _ = put(name.as_bytes(), buffer);
    name.len()
}
