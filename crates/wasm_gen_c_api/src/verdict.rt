//! Verdicts, as a record that C can read.

ghost use Rattle.std.specs.Prelude.{◌≡◌};
ghost use Rattle.wasm_gen_c_api.specs.Verdicts.{refused, valid, verdict_of};
ghost use Rattle.wasm_validity.specs.IndexSpaces.{sizes_in};
ghost use Rattle.wasmparser_validator.specs.Shown.{spaces};

use crate::codes::{YES, kind_code};
use wasmparser_error::error::Error;
use wasmparser_validator::types::{Types, TypesRef};

/// A verdict: its kind, and the sizes of a valid module's index spaces, imported items counted.
#[repr(C)]
#[derive(Clone, Copy, Debug, PartialEq, Eq)]
pub struct Verdict {
    /// 0 where the module is valid, else the refusal's code.
    pub kind: u32,
    /// A place in the bytes of a module that is refused or for which memory ran out, or their end; 0 where it is valid.
    pub offset: u64,
    /// Number of types. All of these numbers are 0 after a refusal.
    pub types: u64,
    /// Number of functions.
    pub functions: u64,
    /// Number of tables.
    pub tables: u64,
    /// Number of memories.
    pub memories: u64,
    /// Number of globals.
    pub globals: u64,
    /// Number of tags.
    pub tags: u64,
    /// Number of element segments.
    pub elements: u64,
    /// Number of exports.
    pub exports: u64,
}

/// Returns a refusal with this code, at this place.
pub fn refused(kind: u32, offset: u64) -> Verdict
    ensures { result ≡ refused kind offset }
{
    Verdict {
        kind,
        offset,
        types: 0,
        functions: 0,
        tables: 0,
        memories: 0,
        globals: 0,
        tags: 0,
        elements: 0,
        exports: 0,
    }
}

// Returns a valid module that has these index spaces.
fn valid(types: TypesRef<'_>) -> Verdict
    ensures { result ≡ valid (sizes_in (spaces types.entry)) }
{
    Verdict {
        kind: YES,
        offset: 0,
        types: u64::from(types.core_type_count_in_module()),
        functions: u64::from(types.function_count()),
        tables: u64::from(types.table_count()),
        memories: u64::from(types.memory_count()),
        globals: u64::from(types.global_count()),
        tags: u64::from(types.tag_count()),
        elements: u64::from(types.element_count()),
        exports: u64::from(types.export_count()),
    }
}

/// Returns the verdict of a validator's result.
pub fn verdict_of(answer: &Result<Types, Error>) -> Verdict
    ensures { result ≡ verdict_of answer.now }
{
    match answer {
        Ok(types) => valid(types.as_ref()),
        Err(e) => refused(kind_code(e.kind), e.offset),
    }
}
